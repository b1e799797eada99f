//! The faults of a file as C sees them: a number, and the message that a fault names.

ghost use Rattle.std.specs.Prelude.{◌≡◌};
ghost use Rattle.pokit_c.specs.Prelude.{index, kind};

use mo_file::MoError;

/// The number of a fault: from 1 to 7, in the order in which faults are reported, as
/// `enum pokit_error` of include/pokit.h has them.
pub(crate) fn number(fault: MoError) -> u32
    ensures { result ≡ kind fault }
{
    match fault {
        MoError::TooShort => 1,
        MoError::BadMagic => 2,
        MoError::BadRevision => 3,
        MoError::TableOutside => 4,
        MoError::StringOutside(_) => 5,
        MoError::NoTerminator(_) => 6,
        MoError::NotSorted(_) => 7,
    }
}

/// The message that a fault names, counted from 0, or 0 where it names none.
pub(crate) fn index(fault: MoError) -> u32
    ensures { result ≡ index fault }
{
    match fault {
        MoError::StringOutside(i) | MoError::NoTerminator(i) | MoError::NotSorted(i) => i,
        _ => 0,
    }
}
