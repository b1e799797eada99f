//! Laws of selecting, each the contract of a function that does nothing: a call brings the law into
//! a proof.
ghost use Rattle.std.specs.Prelude.{◌≡◌, List, All, filter, true, false};
ghost use Rattle.msgattrib.specs.Prelude.{ChangesNothing, ClearsFuzzy, ClearsObsolete, ClearsPrevious, Empties, FormsStay, IsCatalogueEntry, IsUnwanted, KeepsFuzzy, KeepsObsolete, KeepsTranslated, KeepsUntranslated, MarksStay, RemovesFuzzy, RemovesObsolete, RestStays, SetsFuzzy, SetsObsolete, TextEntry, changed, every_entry, is_kept, is_live_header, selected};
ghost use Rattle.msgattrib.specs.declared.selection.Selection.{Selection};

/// Without an option, all entries are selected as they are.
pub fn nothing_given_selects_all()
    ensures { (entries : List TextEntry) → selected every_entry entries ≡ entries }
{}

/// Conditions alone select the same entries when they are applied again.
pub fn conditions_select_once()
    ensures { (selection : Selection) (entries : List TextEntry) → ChangesNothing selection
        → selected selection (selected selection entries) ≡ selected selection entries }
{}

/// Conditions alone keep entries as they are.
pub fn conditions_alone_keep()
    ensures { (selection : Selection) (entries : List TextEntry) → ChangesNothing selection
        → selected selection entries ≡ filter (is_kept selection) entries }
{}

/// What is selected of a catalogue's entries can stand in a catalogue.
pub fn selected_entries_can_stand()
    ensures { (selection : Selection) (entries : List TextEntry)
        → All IsCatalogueEntry entries → All IsCatalogueEntry (selected selection entries) }
{}

/// A live header is kept whatever is given, stays a live header and keeps its forms.
pub fn live_header_stays()
    ensures kept { (selection : Selection) (entry : TextEntry) → is_live_header entry ≡ true
        → is_kept selection entry ≡ true }
    ensures live { (selection : Selection) (entry : TextEntry) → is_live_header entry ≡ true
        → is_live_header (changed selection entry) ≡ true }
    ensures forms { (selection : Selection) (entry : TextEntry) → is_live_header entry ≡ true
        → (changed selection entry).forms ≡ entry.forms }
{}

/// Which entries each option keeps and which it removes, in the manual's words; a live header is
/// always kept.
pub fn each_option_keeps()
    ensures translated { (selection : Selection) (entries : List TextEntry) → KeepsTranslated selection entries }
    ensures untranslated { (selection : Selection) (entries : List TextEntry) → KeepsUntranslated selection entries }
    ensures no_fuzzy { (selection : Selection) (entries : List TextEntry) → RemovesFuzzy selection entries }
    ensures only_fuzzy { (selection : Selection) (entries : List TextEntry) → KeepsFuzzy selection entries }
    ensures no_obsolete { (selection : Selection) (entries : List TextEntry) → RemovesObsolete selection entries }
    ensures only_obsolete { (selection : Selection) (entries : List TextEntry) → KeepsObsolete selection entries }
{}

/// An entry is removed only by an option that is given.
pub fn only_unwanted_are_removed()
    ensures { (selection : Selection) (entry : TextEntry) → is_kept selection entry ≡ false
        → IsUnwanted selection entry }
{}

/// What each option changes of an entry that is kept, in the manual's words. What is set is set,
/// also where it is to be cleared too.
pub fn each_option_changes()
    ensures set_fuzzy { (selection : Selection) (entry : TextEntry) → SetsFuzzy selection entry }
    ensures clear_fuzzy { (selection : Selection) (entry : TextEntry) → ClearsFuzzy selection entry }
    ensures set_obsolete { (selection : Selection) (entry : TextEntry) → SetsObsolete selection entry }
    ensures clear_obsolete { (selection : Selection) (entry : TextEntry) → ClearsObsolete selection entry }
    ensures clear_previous { (selection : Selection) (entry : TextEntry) → ClearsPrevious selection entry }
    ensures empty { (selection : Selection) (entry : TextEntry) → Empties selection entry }
{}

/// What no option that is given changes stays as it was.
pub fn the_rest_stays()
    ensures marks { (selection : Selection) (entry : TextEntry) → MarksStay selection entry }
    ensures forms { (selection : Selection) (entry : TextEntry) → FormsStay selection entry }
    ensures rest { (selection : Selection) (entry : TextEntry) → RestStays selection entry }
{}
