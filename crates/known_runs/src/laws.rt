//! Laws of whole commands. Each function does nothing; calling it gives its clauses.
ghost use Rattle.std.specs.Prelude.{ℕ, List, Option, codes};
ghost use Rattle.envsubst.specs.Prelude.{Values};
ghost use Rattle.known_runs.specs.Prelude.{EndsInFile, EndsLookUp, EndsMsgfmt, EndsSubstituted, IsMsgattribRun, IsMsgcatRun, IsMsgunfmtRunOf, OneEnd, Query, all_as_they_are, all_messages, two_files};

use mo_lookup::one_rule;
use po_compile::laws::catalogues_are_one;
use po_tools::{one_msgattrib_run, one_msgcat_run, one_msgfmt_run, one_msgunfmt_run};

/// What a command writes, tells and returns is the same wherever it ends with a status, by its
/// inputs and by what its output file was.
pub fn commands_have_one_end()
    ensures msgfmt { (text : List ℕ) (old : Option (List ℕ)) → OneEnd (EndsMsgfmt text old) }
    ensures look_up { (text : List ℕ) (query : Query) → OneEnd (EndsLookUp text query) }
    ensures msgattrib { (text : List ℕ) (old : Option (List ℕ))
        → OneEnd (EndsInFile (IsMsgattribRun (codes "a.po") all_as_they_are text) (codes "b.po") old) }
    ensures msgunfmt { (bytes : List ℕ) (old : Option (List ℕ))
        → OneEnd (EndsInFile (IsMsgunfmtRunOf (codes "a.mo") bytes) (codes "a.po") old) }
    ensures msgcat { (a b : List ℕ) (old : Option (List ℕ))
        → OneEnd (EndsInFile (IsMsgcatRun (two_files a b) all_messages) (codes "c.po") old) }
    ensures envsubst { (values : Values) (text : List ℕ) → OneEnd (EndsSubstituted values text) }
{
    one_msgfmt_run();
    catalogues_are_one();
    one_rule();
    one_msgattrib_run();
    one_msgunfmt_run();
    one_msgcat_run();
}
