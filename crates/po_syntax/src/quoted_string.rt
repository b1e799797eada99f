//! The bytes that a quoted string spells.

ghost use Rattle.std.specs.Prelude.{◌≡◌, ◌≢◌, ℕ, ◌⊎◌, List, ◌∷◌, ◌++◌, true, IfOk, IfErr, IsUtf8};
ghost use Rattle.po_syntax.specs.Prelude.{SpellsString, LentAreUtf8, StringFault, spelt_bytes};

use crate::escape::escape;
use crate::fault::PoFault;
use crate::item::SpeltBytes;
use memchr::memchr2;
use std::alloc::Global;

/// Splits off the bytes that stand for themselves, up to the first quote or backslash.
#[tactic(auto, using(crate::proofs::StringsRead::plain_parts))]
fn split_plain(text: &[u8]) -> (&[u8], &[u8])
    ensures spelt { (bytes end : List ℕ)
        → SpellsString result.1.now bytes end → SpellsString text.now (result.0.now ++ bytes) end }
    ensures stops { (fault : PoFault) → StringFault result.1.now fault → StringFault text.now fault }
    ensures special { (b : ℕ) (after : List ℕ)
        → result.1.now ≡ b ∷ after → (b ≡ 34) ⊎ (b ≡ 92) }
    ensures parts { result.0.now ++ result.1.now ≡ text.now }
{
    let end = memchr2(b'"', b'\\', text).unwrap_or(text.len());
    text.split_at(end)
}

/// Appends what the text spells up to the closing quote, and gives the text after that, and whether
/// each escape is one of an ASCII byte.
fn add_bytes<'a>(bytes: &mut Vec<u8>, text: &'a [u8]) -> Result<(&'a [u8], bool), PoFault>
    ensures found { IfOk result (λ p. (spelt : List ℕ)
        × SpellsString text.now spelt p.0.now × (bytes.new.items ≡ bytes.old.items ++ spelt)
        × (p.1 ≡ true → IsUtf8 text.now → IsUtf8 spelt)) }
    ensures fault { IfErr result (λ e. e ≢ PoFault.OutOfMemory → StringFault text.now e) }
{
    let mut rest = text;
    let mut are_ascii = true;
    loop {
        let (plain, end) = split_plain(rest);
        bytes.extend_from_slice(plain)?;
        let Some((mark, after)) = end.split_first() else {
            return Err(PoFault::UnterminatedString);
        };
        if *mark == b'"' {
            return Ok((after, are_ascii));
        }
        let (byte, after) = escape(after)?;
        bytes.push(byte)?;
        are_ascii &= byte < 128;
        rest = after;
    }
}

/// The bytes that a quoted string spells, read after its opening quote, and the text after its
/// closing one. They are borrowed where no escape stands among them.
pub(crate) fn quoted_string(alloc: Global, text: &[u8]) -> Result<(SpeltBytes<'_>, &[u8]), PoFault>
    ensures found { IfOk result (λ p. SpellsString text.now (spelt_bytes p.0) p.1.now) }
    ensures lent { IfOk result (λ p. IsUtf8 text.now → LentAreUtf8 p.0) }
    ensures fault { IfErr result (λ e. e ≢ PoFault.OutOfMemory → StringFault text.now e) }
{
    let (plain, end) = split_plain(text);
    let Some((mark, after)) = end.split_first() else {
        return Err(PoFault::UnterminatedString);
    };
    if *mark == b'"' {
        return Ok((SpeltBytes::Plain(plain), after));
    }
    let mut bytes = Vec::with_capacity(alloc, plain.len() + 1)?;
    let (rest, are_ascii) = add_bytes(&mut bytes, text)?;
    if are_ascii {
        return Ok((SpeltBytes::Escaped(bytes), rest));
    }
    Ok((SpeltBytes::Numbered(bytes), rest))
}
