//! Laws of entries and of their messages, each the contract of a function that does nothing: a call
//! brings the law into a proof.
ghost use Rattle.std.specs.Char.{to_ascii_lowercase};
ghost use Rattle.std.specs.Prelude.{map, ◌≡◌, ◌↔◌, ◌++◌, ◌∷◌, [], ℕ, List, Decides, ◌≢◌, ◌⊎◌, ◌<◌, false, get_or, length, take};
ghost use Rattle.po_syntax.specs.Prelude.{EndsInString, TextItem};
ghost use Rattle.po_entry.specs.Prelude.{TextEntry, SameButLine, AdmitsCharset, IsHeaderEntry, NamesAdmitted, NamesCharset, charset_of, is_header, IsAdmittedName, entry_eq, CommentText, HaveFuzzyFlag, HaveReferences, KeepsFlags, ListsFlags, ListsReferences, listed_flags, all_listed_flags, flags_of, fuzzy_of, listed_references, references_of, SpellsEntries, Adds, AreLaid, CanLie, entries_in, HasNoDuplicate, IsFirstDuplicate, FaultNamesEarlier, OmitsLaterHeaders, CountsAddUp, EmptyAreUntranslated, FlaggedAreFuzzy, WritesStatistics, InputEntry, entries_of, first_ones, group_numbers, Message, same_message, message_hash, stats_line};
ghost use Rattle.po_entry.specs.declared.drafts.Drafts.{Drafts};
ghost use Rattle.std.specs.List.{position_or_len};
ghost use Rattle.po_entry.specs.declared.duplicate.JoinError.{JoinError};
ghost use Rattle.po_entry.specs.declared.stats.Stats.{Stats};

/// Entries are equal exactly where they are the same but for their lines.
pub fn equal_but_line()
    ensures { (a b : TextEntry) → Decides (entry_eq a b) (SameButLine a b) }
{}

/// The charset that is found in a header's text is the one that it names: the bytes after its first
/// `charset=`, up to a space, TAB, CR, LF or semicolon or the text's end; none without `charset=`.
#[tactic(auto, using(crate::proofs::Headers::charset_named))]
pub fn charset_is_named()
    ensures { (text name : List ℕ) → (name ≡ charset_of text) ↔ NamesCharset text name }
{}

/// The admitted charsets are none, UTF-8, ASCII and the `CHARSET` of a template, by their names,
/// whatever the case of its letters.
#[tactic(auto, using(crate::proofs::CommentElements::admitted))]
pub fn charsets_are_admitted()
    ensures { (name : List ℕ) → IsAdmittedName name ↔ NamesAdmitted (map to_ascii_lowercase name) }
{}

/// A header is an entry without a context and with an empty msgid.
#[tactic(auto, using(crate::proofs::Headers::header_decided))]
pub fn header_has_no_context()
    ensures { (entry : TextEntry) → Decides (is_header entry) (IsHeaderEntry entry) }
{}

/// The charset of a header, live or obsolete, is admitted exactly if the one that its first form
/// names is.
#[tactic(auto, using(crate::proofs::Headers::admits_charset))]
pub fn charsets_of_headers()
    ensures { (entry : TextEntry) → AdmitsCharset entry }
{}

/// An entry is fuzzy exactly if one of its comments lists the flag `fuzzy`, wherever it stands.
#[tactic(auto, using(crate::proofs::CommentElements::fuzzy_where_flagged))]
pub fn fuzzy_where_flagged()
    ensures { (comment_texts : List CommentText) → Decides (fuzzy_of comment_texts) (HaveFuzzyFlag comment_texts) }
{}

/// The references that are found in the text of a comment are those that it lists, between blanks.
#[tactic(auto, using(crate::proofs::CommentElements::references_listed))]
pub fn references_are_listed()
    ensures { (text : List ℕ) (references : List (List ℕ))
        → (references ≡ listed_references text) ↔ ListsReferences text references }
{}

/// The references of an entry are those of its reference comments, in the order of the lines.
#[tactic(auto, using(crate::proofs::Headers::have_references))]
pub fn references_of_all_lines()
    ensures { (comment_texts : List CommentText) → HaveReferences comment_texts (references_of comment_texts) }
{}

/// The flags that are found in the text of a comment are those that it lists, between commas and
/// without the blanks at their ends.
#[tactic(auto, using(crate::proofs::CommentElements::flags_listed))]
pub fn flags_are_listed()
    ensures { (text : List ℕ) (flags : List (List ℕ))
        → (flags ≡ listed_flags text) ↔ ListsFlags text flags }
{}

/// Of all the flags that an entry's comments list, the entry keeps each where it first stands, and
/// never `fuzzy`.
#[tactic(auto, using(crate::proofs::CommentElements::flags_kept))]
pub fn flags_are_kept_once()
    ensures { (comment_texts : List CommentText) (flags : List (List ℕ))
        → (flags ≡ flags_of comment_texts) ↔ KeepsFlags (all_listed_flags comment_texts) flags }
{}

/// The items of two pieces, one after the other, spell the entries of the first and then those of
/// the second, if the items of the first end in a string. So no comment at its end belongs to an
/// entry of the second.
#[tactic(auto, using(crate::proofs::JoinedLists::entries_joined))]
pub fn joined_pieces()
    ensures { (prefix rest : List TextItem) (first others : List TextEntry)
        → SpellsEntries prefix first → EndsInString prefix → SpellsEntries rest others
        → SpellsEntries (prefix ++ rest) (first ++ others) }
{}

/// Where an entry is laid out after the drafts that there are, and its row added, the drafts are
/// those entries and then this one, if no quoted text of it has a NUL and it has a form.
#[tactic(auto, using(crate::proofs::EntryRows::added))]
pub fn drafts_are_added()
    ensures { (entry : TextEntry) (old new : Drafts) → Adds entry old new → AreLaid old
        → AreLaid new × (CanLie entry → entries_in new ≡ entries_in old ++ entry ∷ []) }
{}

/// A list without a duplicate has no first duplicate.
pub fn no_first_duplicate_where_none()
    ensures { (entries : List InputEntry) (first later : InputEntry)
        → HasNoDuplicate (entries_of entries) → IsFirstDuplicate entries first later → ⊥ }
{}

/// Every list either has no duplicate or has a first one.
pub fn no_duplicate_or_first()
    ensures { (entries : List InputEntry)
        → HasNoDuplicate (entries_of entries)
        ⊎ ((first later : InputEntry) × IsFirstDuplicate entries first later) }
{}

/// A list has at most one first duplicate.
pub fn one_first_duplicate()
    ensures { (entries : List InputEntry) (first later other last : InputEntry)
        → IsFirstDuplicate entries first later → IsFirstDuplicate entries other last
        → (first ≡ other) × (later ≡ last) }
{}

/// The fault of a duplicate is at an entry that stands after the one of the same message that it
/// names.
pub fn duplicate_names_the_earlier()
    ensures { (entries : List InputEntry) (error : JoinError) → FaultNamesEarlier entries error }
{}

/// The joined list is all entries of the inputs, in order, without the live headers of each input
/// that stands after one with a live header.
pub fn later_headers_are_omitted()
    ensures { (inputs : List (List TextEntry)) → OmitsLaterHeaders inputs }
{}

/// Messages have one number exactly where they are the same.
pub fn one_number_is_one_message()
    ensures { (messages : List Message) (i j : ℕ) (d : Message) → i < length messages → j < length messages
        → (get_or (group_numbers same_message messages) i 0 ≡ get_or (group_numbers same_message messages) j 0)
        ↔ (get_or messages i d ≡ get_or messages j d) }
{}

/// The number of a message is its index among the different messages before it, in order of first
/// appearance; where none of them is that message, it is how many there are.
pub fn messages_are_numbered_in_order()
    ensures { (messages : List Message) (i : ℕ) (d : Message) → i < length messages
        → get_or (group_numbers same_message messages) i 0
        ≡ position_or_len (same_message (get_or messages i d)) (first_ones same_message (take i messages)) }
{}

/// Messages of different hashes differ.
pub fn messages_of_different_hashes_differ()
    ensures { (a b : Message) → message_hash a ≢ message_hash b → same_message a b ≡ false }
{}

/// The statistics count each live entry but the header once. The untranslated ones are those with
/// an empty first form, whether they are fuzzy or not; of the others those with the flag `fuzzy`
/// are fuzzy.
pub fn statistics_count_each_once()
    ensures sum { (entries : List TextEntry) → CountsAddUp entries }
    ensures untranslated { (entries : List TextEntry) → EmptyAreUntranslated entries }
    ensures fuzzy { (entries : List TextEntry) → FlaggedAreFuzzy entries }
{}

/// The line of the statistics has the count of translated messages, always, and after commas those
/// of fuzzy translations and of untranslated messages that aren't 0. A noun is in the singular
/// after 1 alone.
pub fn statistics_are_written()
    ensures { (stats : Stats) → WritesStatistics stats (stats_line stats) }
{}
