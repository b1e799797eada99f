//! System-dependent messages.

ghost use Rattle.std.specs.Prelude.{◌≡◌, ◌<◌, ◌≤◌, Err, None, Ok, length};
ghost use Rattle.mo_file.specs.declared.byte_order.Order.{Order};
ghost use Rattle.pokit_c.specs.Prelude.{HasMagicOf, IsExpanded, system_count, system_message};
ghost use Rattle.mo_expand.specs.declared.joining.Missing.TheVariants.{Full};

use mo_expand::{Missing, PlatformText, expand, system_count};

/// Where the two strings of a message end in the room that they were written to.
#[repr(C)]
#[derive(Clone, Copy, Drop)]
pub struct PokitEnds {
    /// The end of the original, which begins at 0.
    pub original: usize,
    /// The end of the translation, which begins where the original ends.
    pub translation: usize,
}

/// How many system-dependent messages a file has ("The Format of GNU MO Files"). Their strings have
/// names as PRIu64 in them, for which each platform has texts of its own. The bytes may be any.
#[unsafe(no_mangle)]
pub extern "C" fn pokit_system_count(bytes: &[u8]) -> u32
    ensures count { (order : Order) → HasMagicOf order bytes.now → result ≡ system_count order bytes.now }
    ensures no_file { ((order : Order) → ¬ HasMagicOf order bytes.now) → result ≡ 0 }
{
    system_count(bytes)
}

/// Completes a system-dependent message by the texts of a platform, and writes its original and
/// then its translation from the beginning of `room` on, without a NUL after either. The result is
/// 0, and `ends` says where they end; or 1 where there is no such message, since its strings aren't
/// well formed, or have a name that `texts` lacks; or 2 where `room` is too short for it. Then
/// `ends` stays as it was, and what `room` has is left open.
#[unsafe(no_mangle)]
pub extern "C" fn pokit_system_message<'b>(
    bytes: &'b [u8],
    texts: &[PlatformText<'b>],
    index: u32,
    room: &mut [u8],
    ends: &mut PokitEnds,
) -> u32
    ensures written { (order : Order) → HasMagicOf order bytes.now → result ≡ 0
        → IsExpanded room.old room.new (system_message order bytes.now texts.now index)
        (Ok (ends.new.original, ends.new.translation)) }
    ensures absent { (order : Order) → HasMagicOf order bytes.now → result ≡ 1
        → system_message order bytes.now texts.now index ≡ None }
    ensures full { (order : Order) → HasMagicOf order bytes.now → result ≡ 2
        → IsExpanded room.old room.new (system_message order bytes.now texts.now index) (Err Full) }
    ensures no_file { ((order : Order) → ¬ HasMagicOf order bytes.now) → result ≡ 1 }
    ensures which { result ≤ 2 }
    ensures unchanged { 0 < result → ends.new ≡ ends.old }
    ensures len { length room.new ≡ length room.old }
{
    match expand(bytes, texts, index, room) {
        Ok((original, translation)) => {
            *ends = PokitEnds {
                original,
                translation,
            };
            0
        }
        Err(Missing::Absent) => 1,
        Err(Missing::Full) => 2,
    }
}
