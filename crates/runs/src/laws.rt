//! Laws of inputs and outputs, each the contract of a function that does nothing: a call brings the
//! law into a proof.
ghost use Rattle.std.specs.Prelude.{◌≡◌, ◌↔◌, ◌⊎◌, ◌<◌, ◌^◌, ◌+◌, ◌++◌, ℕ, List, Option, codes, decimal, false, replicate, slice_index};
ghost use Rattle.runs.specs.Prelude.{Course, kept_mode, AreInputs, NamedFile, AreInputsInTurn, call_limit, further_names, input_limit, WritesFile, NamesStream, beside, link_target, IsWholeOrAsItWasThroughout, GivesNobodyMore, IsWhose, KeepsRights, IsAllWritten, SystemView, link_limit, RunView, output_file, HasOneReading, Writes};
ghost use Rattle.runs.specs.declared.output_files.Owner.{Owner};
ghost use Rattle.runs.specs.declared.output_files.Rights.{Rights};

use crate::inputs::InputSource;

/// An output file is there whole, or as it was: at every moment the file to which the path leads
/// holds all of the output or what it held before, where it isn't written in place; after success
/// it holds the output, after a fault what it held, and no other path has changed. It gives nobody
/// more than the file did that it replaces, and its mode is what is kept of that file's. An open
/// stream takes all of the output after what it took before.
pub fn whole_or_as_it_was()
    ensures { (output path : List ℕ) (links : ℕ) (course : Course)
        → WritesFile output links path course
        → IsWholeOrAsItWasThroughout output path course }
{}

/// Arguments have one list of inputs, up to the same that can't be read, where the system reads
/// each as one thing.
pub fn inputs_are_one<S: InputSource>()
    ensures { (source : S) (arguments : List (List ℕ)) (inputs others : List NamedFile) (fault other : Option (List ℕ))
        → HasOneReading (S.file source) (S.standard source)
        → AreInputs (S.file source) (S.standard source) false arguments inputs fault
        → AreInputs (S.file source) (S.standard source) false arguments others other
        → (inputs ≡ others) × (fault ≡ other) }
{}

/// A run that is written has its status, and all of it is there: its output where the path of its
/// file leads, or on standard output where no file is made, and its messages on standard error.
pub fn written_runs_are_whole()
    ensures { (run : RunView) (output : List ℕ) (before now : SystemView) (status : ℕ)
        → Writes run output before now (Ok status)
        → (status ≡ run.status) × IsAllWritten run before now (output_file run output) }
{}

/// Standard output, standard error and the descriptors of a process are streams, by these names and
/// by no other. A path names one stream at most.
pub fn streams_have_names()
    ensures exactly { (path : List ℕ) (number : ℕ) → NamesStream path number ↔
        ((path ≡ codes "/dev/stdout") × (number ≡ 1))
        ⊎ ((path ≡ codes "/dev/stderr") × (number ≡ 2))
        ⊎ ((number < 2 ^ 32) × (path ≡ codes "/dev/fd/" ++ decimal number))
        ⊎ ((number < 2 ^ 32) × (path ≡ codes "/proc/self/fd/" ++ decimal number)) }
    ensures one_stream { (path : List ℕ) (m n : ℕ) → NamesStream path m → NamesStream path n → m ≡ n }
{}

/// A link leads from the root where its text begins there, and else from the folder in which it is.
pub fn links_lead_from_their_folder()
    ensures from_the_root { (path text : List ℕ) → slice_index text 0 ≡ 47 → link_target path text ≡ text }
    ensures in_a_folder { link_target (codes "de/a.mo") (codes "b.mo") ≡ codes "de/b.mo" }
    ensures to_another_folder { link_target (codes "/po/de/a.mo") (codes "../fr/b.mo") ≡ codes "/po/de/../fr/b.mo" }
    ensures in_the_working_folder { link_target (codes "a.mo") (codes "b.mo") ≡ codes "b.mo" }
{}

/// A new file is beside the one that it replaces, and named for it.
pub fn new_files_are_named()
    ensures in_a_folder { (number : ℕ) → beside (codes "de/a.mo") number ≡ codes "de/.a.mo." ++ decimal number }
    ensures in_the_working_folder { (number : ℕ) → beside (codes "a.mo") number ≡ codes ".a.mo." ++ decimal number }
    ensures longest { (number : ℕ) → beside (replicate 200 97) number ≡ codes "." ++ replicate 200 97 ++ codes "." ++ decimal number }
    ensures too_long { (number : ℕ) → beside (replicate 201 97) number ≡ codes ".output." ++ decimal number }
    ensures unnamed { (number : ℕ) → beside (codes "de/..") number ≡ codes "de/../.output." ++ decimal number }
{}

/// What a new file keeps of a mode gives nobody more than the old file did, but the two owners; it
/// is all that can be kept so, and all nine bits where the owner and the group are the same.
pub fn rights_are_kept()
    ensures nobody_gets_more { (old : Rights) (owner : Option Owner) (whose : Owner) → IsWhose owner whose
        → GivesNobodyMore old (record { mode = kept_mode old owner; owner = whose }) }
    ensures kept { (old : Rights) (owner : Owner) → KeepsRights old owner (kept_mode old (Some owner)) }
{}

/// The inputs of arguments are the files of their names but `-`, in their order, and standard input
/// for the first `-`; each further `-` is an empty text.
pub fn inputs_stand_in_turn<S: InputSource>()
    ensures { (source : S) (arguments : List (List ℕ)) (inputs : List NamedFile) (fault : Option (List ℕ))
        → AreInputs (S.file source) (S.standard source) false arguments inputs fault
        ↔ AreInputsInTurn (S.file source) (S.standard source) arguments inputs fault }
{}

/// Of an input 2,147,483,648 bytes are read at most, by 4,294,967,296 calls at most. To the file
/// that an output replaces 40 links are followed, as many as Linux follows (path_resolution(7)). A
/// new file has one of 1,000 names.
pub fn limits_are_held()
    ensures input { input_limit ≡ 2147483648 }
    ensures calls { call_limit ≡ 4294967296 }
    ensures links { link_limit ≡ 40 }
    ensures names { further_names + 1 ≡ 1000 }
{}
