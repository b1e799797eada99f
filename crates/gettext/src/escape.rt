//! The escapes that `gettext -e` expands ("Invoking the gettext program" of the GNU gettext
//! manual).
ghost use Rattle.std.specs.Prelude.{◌≡◌, ◌≤◌, length, IfSome, IfOk, OnErr, Err};
ghost use Rattle.gettext.specs.Escape as spec;

use locale_names::len_before;
use runs::ToolFault;
use std::alloc::Global;

/// A text with its escapes expanded.
#[derive(Debug, Drop)]
pub struct Expanded {
    /// The text's bytes, each escape replaced by the byte that it gives.
    pub bytes: Vec<u8>,
    /// Whether a `\c` stands in the text, so that no newline is to be written after it.
    pub no_newline: bool,
}

/// What an escape gives, which with `\c` is no byte, and how many bytes it takes after its
/// backslash.
#[derive(Clone, Copy)]
struct Escape {
    byte: Option<u8>,
    size: usize,
}

/// Expands `\a \b \f \n \r \t \v \\`, `\` with one to three octal digits, modulo 256, and `\c`,
/// which gives no byte. Any other backslash stays.
pub fn expand(alloc: Global, text: &[u8]) -> Result<Expanded, ToolFault>
    ensures bytes { IfOk result (λ expanded. expanded.bytes.items ≡ spec.expansion text.now) }
    ensures no_newline { IfOk result (λ expanded.
        expanded.no_newline ≡ spec.has_no_newline text.now) }
    ensures memory { OnErr result (result ≡ Err ToolFault.OutOfMemory) }
{
    let mut bytes = Vec::with_capacity(alloc, text.len())?;
    let mut no_newline = false;
    let mut rest = text;
    loop {
        let plain = len_before(b'\\', rest);
        bytes.extend_from_slice(&rest[..plain])?;
        if plain == rest.len() {
            return Ok(Expanded { bytes, no_newline });
        }
        rest = &rest[plain + 1..];
        let Some(escape) = escape_after(rest) else {
            bytes.push(b'\\')?;
            continue;
        };
        rest = &rest[escape.size..];
        match escape.byte {
            Some(byte) => bytes.push(byte)?,
            None => no_newline = true,
        }
    }
}

/// The escape that a backslash begins, by the bytes after it.
fn escape_after(after: &[u8]) -> Option<Escape>
    ensures escape { result ≡ spec.escape_after after.now }
    ensures within { IfSome result (λ escape. escape.size ≤ length after.now) }
{
    if after.is_empty() {
        return None;
    }
    let prefix = &after[..after.len().min(3)];
    let mut value: u16 = 0;
    let mut size = 0;
    while size < prefix.len() && is_octal(prefix[size]) {
        value = (value * 8 + u16::from(prefix[size] - b'0')) % 256;
        size += 1;
    }
    if size == 0 {
        return letter_escape(after[0]);
    }
    Some(Escape {
        byte: Some(value as u8),
        size,
    })
}

/// Whether the byte is an octal digit.
fn is_octal(byte: u8) -> bool
    ensures { result ≡ spec.is_octal byte }
{
    matches!(byte, b'0'..=b'7')
}

/// An escape of one letter.
#[tactic(auto, unfolding(crate::specs::Escape::letter_escape))]
fn letter_escape(letter: u8) -> Option<Escape>
    ensures escape { result ≡ spec.letter_escape letter }
    ensures size { IfSome result (λ escape. escape.size ≡ 1) }
{
    let byte = match letter {
        b'a' => Some(7),
        b'b' => Some(8),
        b'f' => Some(12),
        b'n' => Some(10),
        b'r' => Some(13),
        b't' => Some(9),
        b'v' => Some(11),
        b'\\' => Some(92),
        b'c' => None,
        _ => return None,
    };
    Some(Escape { byte, size: 1 })
}
