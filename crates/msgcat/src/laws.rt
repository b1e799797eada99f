//! Laws of merging, each the contract of a function that does nothing: a call brings the law into a
//! proof.
ghost use Rattle.std.specs.Prelude.{ℕ, Bool, List, Option};
ghost use Rattle.msgcat.specs.declared.input.MergeOptions.{MergeOptions};
ghost use Rattle.msgcat.specs.Prelude.{CommentsOfFirst, DefinedByLive, DistinctInputsStay, EndsForm, FaultIsOfNoLine, FormsAreJoined, FormsAreOfOne, FormsOfFirst, GroupsByNumber, HeadersAreKept, JoinedAsLongest, JoinedIsFuzzy, JoinedWhereTheyDiffer, KeptByCount, KeptMessagesStand, LinesAreNotMerged, MergedAgain, MergedAreEntries, MergedCanStand, MessagesStandOnce, Named, NamedEntry, ObsoleteWhereNoneIsLive, OneDefinitionStays, OneInputStays, PluralOfFirst, PreviousOfFirst, StandInTurn, TextEntry, TextsInOrder, TextsOfAll, TranslatedStays, WithItself, all_entries, ended};
ghost use Rattle.po_syntax.specs.declared.item.CommentKind.{CommentKind};
ghost use Rattle.po_syntax.specs.declared.fault.PoError.{PoError};

/// A message with one definition is merged to the entry of that definition.
pub fn one_definition_stays()
    ensures { (options : MergeOptions) (definition : NamedEntry) → OneDefinitionStays options definition }
{}

/// Valid inputs are merged to valid entries, which can stand in a catalogue if the charset of each
/// header among them is admitted.
pub fn merged_entries_can_stand()
    ensures entries { (options : MergeOptions) (inputs : List Named) → MergedAreEntries options inputs }
    ensures can_stand { (options : MergeOptions) (inputs : List Named) → MergedCanStand options inputs }
{}

/// No two merged entries have the same context and msgid. A message is among the merged entries
/// exactly if an input has it and its definitions are kept.
pub fn messages_stand_once()
    ensures once { (options : MergeOptions) (inputs : List Named) → MessagesStandOnce options inputs }
    ensures kept { (options : MergeOptions) (inputs : List Named) (context : Option (List ℕ)) (id : List ℕ)
        → KeptMessagesStand options inputs context id }
{}

/// The entries of the inputs stand input by input, in the order of each, and have its name.
pub fn entries_stand_by_input()
    ensures { (inputs : List Named) → StandInTurn inputs (all_entries inputs) }
{}

/// An input in which no message stands twice, not even among obsolete entries, is merged to its
/// entries, where all messages are kept.
pub fn one_input_stays()
    ensures { (use_first : Bool) (input : Named) → OneInputStays use_first input }
{}

/// Inputs are merged to their entries, in order, if no message stands in two of these, and all
/// messages are kept.
#[tactic(auto, using(crate::proofs::SameInput::distinct_inputs))]
pub fn distinct_inputs_stay()
    ensures { (use_first : Bool) (inputs : List Named) → DistinctInputsStay use_first inputs }
{}

/// So is that input together with a second one that has the same entries, under whatever name.
pub fn with_itself()
    ensures { (use_first : Bool) (input : Named) (name : List ℕ) → WithItself use_first input name }
{}

/// Where different translations of a message aren't joined, its forms are those of one of its
/// definitions.
pub fn forms_are_of_one_definition()
    ensures { (options : MergeOptions) (definitions : List NamedEntry) → FormsAreOfOne options definitions }
{}

/// Without `use_first` the comments, references and flags of all definitions are in the merged
/// entry, in the order of the definitions, and each that several definitions have once.
pub fn texts_of_all_definitions()
    ensures all { (options : MergeOptions) (kind : CommentKind) (text : List ℕ) (definitions : List NamedEntry)
        → TextsOfAll options kind text definitions }
    ensures order { (options : MergeOptions) (kind : CommentKind) (before : List NamedEntry) (definition : NamedEntry)
        → TextsInOrder options kind before definition }
{}

/// Where different translations are joined, the merged entry is fuzzy, and each of its forms has
/// those of the translations, each after the line of its input, in order, and nothing of one that
/// lacks this form.
pub fn translations_are_joined()
    ensures fuzzy { (options : MergeOptions) (definitions : List NamedEntry) → JoinedIsFuzzy options definitions }
    ensures forms { (options : MergeOptions) (definitions : List NamedEntry) → FormsAreJoined options definitions }
{}

/// Different translations are joined exactly if `use_first` isn't given and two definitions with a
/// translation differ in it. The joined entry has as many forms as the translation with the most.
pub fn joined_where_translations_differ()
    ensures exactly { (options : MergeOptions) (definitions : List NamedEntry)
        → JoinedWhereTheyDiffer options definitions }
    ensures longest { (options : MergeOptions) (definitions : List NamedEntry) → JoinedAsLongest options definitions }
{}

/// Where different translations aren't joined, the forms and the mark of a fuzzy entry are those of
/// the first definition with a translation, or of the first of all where none has one. So are the
/// comments of each kind with `use_first`.
pub fn first_translated_definition()
    ensures forms { (options : MergeOptions) (definitions : List NamedEntry) (definition : NamedEntry)
        → FormsOfFirst options definitions definition }
    ensures comments { (options : MergeOptions) (kind : CommentKind) (definitions : List NamedEntry)
        (definition : NamedEntry) → CommentsOfFirst options kind definitions definition }
{}

/// What is translated stays translated: where a live entry of a message has a translation, so has
/// the entry that they are merged to.
#[tactic(auto, using(crate::proofs::EntryLaws::stays))]
pub fn translated_stays_translated()
    ensures { (options : MergeOptions) (group : List NamedEntry) → TranslatedStays options group }
{}

/// In a joined form each form ends in a LF, which is added where it has none at its end.
pub fn joined_forms_are_ended()
    ensures { (form : List ℕ) → EndsForm form (ended form) }
{}

/// Previous texts and the plural are those of the first definition that has some.
pub fn first_definition_with_a_part()
    ensures previous { (options : MergeOptions) (before : List NamedEntry) (definition : NamedEntry)
        (after : List NamedEntry) → PreviousOfFirst options before definition after }
    ensures plural { (options : MergeOptions) (before : List NamedEntry) (definition : NamedEntry)
        (after : List NamedEntry) → PluralOfFirst options before definition after }
{}

/// A message is defined by all its live entries where one is live, and else by all its entries.
#[tactic(auto, using(crate::proofs::EntryLaws::defined_by_live))]
pub fn defined_by_live_entries()
    ensures { (group : List NamedEntry) → DefinedByLive group }
{}

/// A merged entry is obsolete exactly if no entry of its message is live.
pub fn obsolete_where_none_is_live()
    ensures { (options : MergeOptions) (group : List NamedEntry) → ObsoleteWhereNoneIsLive options group }
{}

/// A message that isn't a header's is kept exactly if it has more definitions than `more_than`,
/// fewer than `less_than`, and one alone with `unique`.
pub fn kept_by_count()
    ensures { (options : MergeOptions) (definitions : List NamedEntry) → KeptByCount options definitions }
{}

/// A header's message is kept, however many definitions it has.
pub fn headers_are_kept()
    ensures { (options : MergeOptions) (definitions : List NamedEntry) → HeadersAreKept options definitions }
{}

/// The groups of entries are those of the numbers of their messages.
pub fn groups_are_numbered()
    ensures { (entries : List NamedEntry) → GroupsByNumber entries }
{}

/// Definitions that differ only in their lines are merged to entries that differ only in theirs.
pub fn lines_are_not_merged()
    ensures { (options : MergeOptions) (definitions others : List NamedEntry)
        → LinesAreNotMerged options definitions others }
{}

/// What is merged stays as it is when it is merged once more, alone and keeping all.
pub fn merged_again()
    ensures { (options : MergeOptions) (inputs : List Named) (use_first : Bool) (name : List ℕ)
        → MergedAgain options inputs use_first name }
{
    messages_stand_once();
    one_input_stays();
}

/// The fault of a merge is of no line.
#[tactic(auto, using(crate::proofs::EntryLaws::fault_is_of_no_line))]
pub fn faults_are_of_no_line()
    ensures { (entries : List TextEntry) (error : PoError) → FaultIsOfNoLine entries error }
{}
