//! What the options of a command line mean for msgcat.
ghost use Rattle.msgcat.specs.Prelude.{AreMergeOptions};

use crate::input::MergeOptions;
use runs::Arguments;

/// What `msgcat` is asked for.
pub fn merge_options_of<A: Arguments>(arguments: &A) -> MergeOptions
    ensures { AreMergeOptions (A.flag arguments.now) (A.number arguments.now) result }
{
    MergeOptions {
        more_than: arguments.number_of("more-than").unwrap_or(0),
        less_than: arguments.number_of("less-than"),
        unique: arguments.is_given("unique"),
        use_first: arguments.is_given("use-first"),
    }
}
