//! What the options of a command line mean for msgfmt.
ghost use Rattle.msgfmt.specs.Prelude.{AreMsgfmtOptions};

use mo_file::Order;
use runs::Arguments;

/// What `msgfmt` is asked for, besides its inputs.
#[derive(Clone, Copy)]
pub struct MsgfmtOptions {
    /// `-f`: fuzzy entries are compiled too.
    pub use_fuzzy: bool,
    /// `--endianness`: the byte order of the words of the file.
    pub order: Order,
    /// `--statistics`: the statistics are reported on standard error.
    pub statistics: bool,
    /// `--profile-check`: the messages that are compiled are checked.
    pub profile_check: bool,
}

/// What `msgfmt` is asked for.
pub fn msgfmt_options_of<A: Arguments>(arguments: &A) -> MsgfmtOptions
    ensures { AreMsgfmtOptions (A.flag arguments.now) (A.text arguments.now) result }
{
    MsgfmtOptions {
        use_fuzzy: arguments.is_given("use-fuzzy"),
        order: match arguments.text_of("endianness") {
            Some("big") => Order::Big,
            _ => Order::Little,
        },
        statistics: arguments.is_given("statistics"),
        profile_check: arguments.is_given("profile-check"),
    }
}
