//! Laws of substitution, each the contract of a function that does nothing: a call brings the law
//! into a proof.
ghost use Rattle.std.specs.Prelude.{◌≡◌, ◌↔◌, [], ℕ, List, Option, Some, Ok, Err};
ghost use Rattle.envsubst.specs.Prelude.{EndsAs, TookAll, TookAllRead, TookBeginning, TookBeginningOfRead, HasValue, HoldsNames, IsReplaced, Replaces, names_in, FeedCallsAgree, Values, substitution, values_of};
ghost use Rattle.runs.specs.declared.tool_fault.ToolFault.{ToolFault};

/// However a text is cut into pieces, the calls that take them write, together with what is still
/// held back, what the whole text becomes.
pub fn any_cutting()
    ensures { FeedCallsAgree }
{}

/// The substitution of a text is the text in which each reference to a name that is replaced,
/// `$NAME` or `${NAME}`, stands for its value, and any other byte for itself.
pub fn references_are_replaced()
    ensures { (values : Values) (text result : List ℕ)
        → (result ≡ substitution values text) ↔ Replaces values text result }
{}

/// A name is replaced where there is no SHELL-FORMAT or it stands there, by the value of the first
/// variable of that name, and by nothing where there is none.
pub fn variables_have_values()
    ensures { (vars : List (List ℕ × List ℕ)) (only : Option (List (List ℕ))) (name value : List ℕ)
        → (values_of vars only name ≡ Some value) ↔ (IsReplaced only name × HasValue name vars value) }
{}

/// The names in a text are those of its references, in order.
pub fn names_are_listed()
    ensures { (text : List ℕ) (names : List (List ℕ))
        → (names ≡ names_in text) ↔ HoldsNames text names }
{}

/// What a run has written where it ends: the text with its references replaced; after a fault a
/// beginning of that; and where the fault isn't of the writer, a beginning whatever follows what
/// was read. Where it is of the reader, all that was read has come out, but for 257 bytes at most.
pub fn output_is_replaced()
    ensures whole { (values : Values) (text : List ℕ) (left old new : Option (List ℕ))
        → EndsAs values (Some text) left old new (Ok tt) → TookAll values text old new }
    ensures cut { (values : Values) (text : List ℕ) (left old new : Option (List ℕ)) (fault : ToolFault)
        → EndsAs values (Some text) left old new (Err fault) → TookBeginning values text old new }
    ensures read_fault { (values : Values) (text : List ℕ) (left old new : Option (List ℕ))
        → EndsAs values (Some text) left old new (Err ToolFault.ReadFault)
        → TookBeginningOfRead values text left old new }
    ensures all_read { (values : Values) (text : List ℕ) (left old new : Option (List ℕ))
        → EndsAs values (Some text) left old new (Err ToolFault.ReadFault)
        → TookAllRead values text left old new }
    ensures out_of_memory { (values : Values) (text : List ℕ) (left old new : Option (List ℕ))
        → EndsAs values (Some text) left old new (Err ToolFault.OutOfMemory)
        → TookBeginningOfRead values text left old new }
{}

/// A text without references stays as it is.
#[tactic(auto, using(crate::proofs::Substitution::stays))]
pub fn without_references_it_stays()
    ensures { (values : Values) (text : List ℕ) → names_in text ≡ [] → substitution values text ≡ text }
{}
