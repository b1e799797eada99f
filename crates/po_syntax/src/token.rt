//! The words, strings and blanks that a line is made of.

ghost use Rattle.std.specs.Prelude.{◌≡◌, ◌<◌, true, false, bytes_eq, MatchOption};
ghost use Rattle.std.specs.List.{list_all};
ghost use Rattle.po_syntax.specs.Internal.{after_first_word, first_word, index_token, word_token, IsKeywordOf};
ghost use Rattle.po_syntax.specs.Prelude.{is_word_byte, is_blank, skip_blanks};

use crate::escape::{digit_count, number_of};
use crate::fault::PoFault;
use crate::item::Keyword;

/// Whether the byte is a blank: a space, a tab, VT, FF or CR (GNU gettext manual, "The Format of PO
/// Files").
pub fn is_blank(byte: u8) -> bool
    ensures { result ≡ is_blank byte }
{
    // Most bytes are above, and need no further test.
    byte <= b' ' && matches!(byte, b' ' | b'\t' | 11 | 12 | b'\r')
}

/// Whether the byte can stand in a word: a letter, a digit or `_`.
fn is_word_byte(byte: u8) -> bool
    ensures { result ≡ is_word_byte byte }
{
    byte.is_ascii_alphanumeric() || byte == b'_'
}

/// The text after the blanks at its start (GNU gettext manual, "The Format of PO Files").
pub fn skip_blanks(text: &[u8]) -> &[u8]
    ensures { result.now ≡ skip_blanks text.now }
{
    let count = text.iter().take_while(|b| is_blank(**b)).count();
    text.split_at(count).1
}

/// The keyword `msgstr[i]`, read after its bracket and the blanks that follow.
#[tactic(auto, using(crate::proofs::Keywords::digits_all), unfolding(crate::specs::Internal::index_token))]
fn plural_form(text: &[u8]) -> Result<(Keyword, &[u8]), PoFault>
    ensures { IsKeywordOf (index_token text.now) result }
{
    let count = digit_count(10, text);
    if count == 0 {
        return Err(PoFault::BadToken);
    }
    let (digits, rest) = text.split_at(count);
    let Some(index) = number_of(10, digits) else {
        return Err(PoFault::BadPluralIndex);
    };
    match skip_blanks(rest).split_first() {
        Some((b']', rest)) => Ok((Keyword::MsgStrAt(index), rest)),
        _ => Err(PoFault::BadToken),
    }
}

/// What stands after the word with which the text begins, if it is this one.
fn after_word<'a>(text: &'a [u8], word: &[u8]) -> Option<&'a [u8]>
    requires { list_all is_word_byte word.now ≡ true }
    ensures { MatchOption result (bytes_eq (first_word text.now) word.now ≡ false)
        (λ rest. (first_word text.now ≡ word.now) × (rest.now ≡ after_first_word text.now)) }
{
    let rest = text.strip_prefix(word)?;
    match rest.first() {
        Some(byte) if is_word_byte(*byte) => None,
        _ => Some(rest),
    }
}

/// The keyword with which the text begins, and the text after it.
#[tactic(auto, unfolding(crate::specs::Internal::keyword_token))]
pub(crate) fn keyword(text: &[u8]) -> Result<(Keyword, &[u8]), PoFault>
    ensures { IsKeywordOf (word_token text.now) result }
{
    if let Some(rest) = after_word(text, b"msgid") {
        return Ok((Keyword::MsgId, rest));
    }
    if let Some(rest) = after_word(text, b"msgstr") {
        return match skip_blanks(rest).split_first() {
            Some((b'[', inside)) => plural_form(skip_blanks(inside)),
            _ => Ok((Keyword::MsgStr, rest)),
        };
    }
    if let Some(rest) = after_word(text, b"msgctxt") {
        return Ok((Keyword::MsgCtxt, rest));
    }
    match after_word(text, b"msgid_plural") {
        Some(rest) => Ok((Keyword::MsgIdPlural, rest)),
        None => Err(PoFault::BadToken),
    }
}
