//! What the texts of an entry may hold: UTF-8, and no byte that can't be written.

ghost use Rattle.std.specs.Prelude.{All, IsTrue, ◌↔◌, option_to_list, option_copied};
ghost use Rattle.po_entry.specs.Prelude.{Meets};

use memchr::memchr;
use simdutf8::is_utf8;

pub const NUL: u8 = 0;

pub const EOT: u8 = 4;

/// What a text is tested for.
#[derive(Clone, Copy)]
pub enum Need {
    /// That it is UTF-8.
    Utf8,
    /// That it lacks this byte.
    Without(u8),
}

/// Whether the text meets the need, where there is one.
pub fn optional_meets(need: Need, text: Option<&[u8]>) -> bool
    ensures { IsTrue result ↔ All (Meets need) (option_to_list (option_copied text.entry)) }
{
    match text {
        Some(bytes) => meets(need, bytes),
        None => true,
    }
}

/// Whether the text meets the need.
pub fn meets(need: Need, text: &[u8]) -> bool
    ensures { IsTrue result ↔ Meets need text.now }
{
    match need {
        Need::Utf8 => is_utf8(text),
        Need::Without(byte) => memchr(byte, text).is_none(),
    }
}
