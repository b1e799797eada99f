//! The first fault of a text, found byte by byte, with no code of po_syntax.

use po_syntax::{PoError, PoFault};

/// Where a reader of single bytes stands on a line.
#[derive(Clone, Copy)]
enum State {
    Start,
    Hash,
    Tilde,
    Obsolete,
    ObsoleteHash,
    Comment,
    Tokens,
    Word(usize),
    Bracket,
    Index(Option<u64>),
    IndexEnd,
    Text,
    Escape,
    Octal(u8, u64),
    Hex(Option<u64>),
}

/// The first fault of a text that is within the limit of its length, found byte by byte.
pub(super) fn first_fault(text: &[u8]) -> Option<PoError> {
    if let Err(error) = std::str::from_utf8(text) {
        return Some(fault_at(text, error.valid_up_to(), PoFault::NotUtf8));
    }
    if let Some(offset) = text.iter().position(|byte| *byte == 0) {
        return Some(fault_at(text, offset, PoFault::ForbiddenByte));
    }
    let start = if text.starts_with(b"\xef\xbb\xbf") {
        3
    } else {
        0
    };
    let mut state = State::Start;
    for (offset, byte) in text.iter().enumerate() {
        if offset < start {
            continue;
        }
        let next = settle(state, text, offset, *byte).and_then(|state| step(state, offset, *byte));
        match next {
            Ok(next) => state = next,
            Err(kind) => return Some(fault_at(text, offset, kind)),
        }
    }
    match settle(state, text, text.len(), b'\n').and_then(|state| step(state, text.len(), b'\n')) {
        Ok(_) => None,
        Err(kind) => Some(fault_at(text, text.len(), kind)),
    }
}

/// The fault with the line on which this offset of the text stands.
fn fault_at(text: &[u8], offset: usize, kind: PoFault) -> PoError {
    let mut line: u32 = 1;
    for (at, byte) in text.iter().enumerate() {
        if at < offset && *byte == b'\n' {
            line = line.saturating_add(1);
        }
    }
    PoError { kind, line }
}

/// Ends a run of bytes that the next byte does not go on with.
fn settle(state: State, text: &[u8], offset: usize, byte: u8) -> Result<State, PoFault> {
    match state {
        State::Word(start) if !is_word_byte(byte) => {
            settle_word(text.get(start..offset).unwrap_or(text), byte)
        }
        State::Bracket => Ok(settle_bracket(byte)),
        State::Index(Some(index)) if !byte.is_ascii_digit() => settle_index(index),
        State::Octal(count, number) if count == 3 || !(b'0'..=b'7').contains(&byte) =>
            settle_number(number),
        State::Hex(Some(number)) if !byte.is_ascii_hexdigit() => settle_number(number),
        _ => Ok(state),
    }
}

/// The keywords that no index follows.
const UNINDEXED: &[&[u8]] = &[b"msgctxt", b"msgid", b"msgid_plural"];

/// The state after a word and a byte, or the word's fault.
fn settle_word(word: &[u8], byte: u8) -> Result<State, PoFault> {
    if word == b"msgstr".as_slice() {
        Ok(settle_bracket(byte))
    } else if UNINDEXED.contains(&word) {
        Ok(State::Tokens)
    } else {
        Err(PoFault::BadToken)
    }
}

/// The state after `msgstr` and a byte: a bracket may still follow blanks.
fn settle_bracket(byte: u8) -> State {
    if byte == b'[' || is_blank(byte) {
        State::Bracket
    } else {
        State::Tokens
    }
}

/// The state after an index, or its fault.
fn settle_index(index: u64) -> Result<State, PoFault> {
    if index > 4_294_967_295 {
        Err(PoFault::BadPluralIndex)
    } else {
        Ok(State::IndexEnd)
    }
}

/// The state after an escape of this value, or its fault.
fn settle_number(number: u64) -> Result<State, PoFault> {
    match number {
        0 => Err(PoFault::ForbiddenByte),
        1..=255 => Ok(State::Text),
        _ => Err(PoFault::BadEscape),
    }
}

/// The state after one more byte, or its fault.
fn step(state: State, offset: usize, byte: u8) -> Result<State, PoFault> {
    if byte == b'\n' {
        return match state {
            State::Text => Err(PoFault::UnterminatedString),
            State::Escape | State::Hex(None) => Err(PoFault::BadEscape),
            State::Index(None) | State::IndexEnd => Err(PoFault::BadToken),
            _ => Ok(State::Start),
        };
    }
    match (state, byte) {
        (State::Start, b'#') => Ok(State::Hash),
        (State::Hash, b'~') => Ok(State::Tilde),
        (State::Hash | State::Tilde, b'|') => Ok(State::Tokens),
        (State::Tilde | State::Obsolete, b'#') => Ok(State::ObsoleteHash),
        (State::ObsoleteHash, b'~' | b'|') => Err(PoFault::BadToken),
        (State::Hash | State::ObsoleteHash | State::Comment, _) => Ok(State::Comment),
        (State::Start, _) if is_blank(byte) => Ok(State::Start),
        (State::Tilde | State::Obsolete, _) if is_blank(byte) => Ok(State::Obsolete),
        (State::Start | State::Tilde | State::Obsolete | State::Tokens, _) => token(offset, byte),
        (State::Word(_), _) => Ok(state),
        (State::Bracket | State::Index(_) | State::IndexEnd, _) => index_step(state, byte),
        _ => text_step(state, byte),
    }
}

/// A step inside the brackets of an index, or before them.
fn index_step(state: State, byte: u8) -> Result<State, PoFault> {
    match state {
        State::Bracket if byte == b'[' => Ok(State::Index(None)),
        State::IndexEnd if byte == b']' => Ok(State::Tokens),
        State::Index(index) if byte.is_ascii_digit() => {
            Ok(State::Index(Some(joined(index.unwrap_or(0), 10, byte))))
        }
        _ if is_blank(byte) => Ok(state),
        _ => Err(PoFault::BadToken),
    }
}

/// A step inside a quoted string.
fn text_step(state: State, byte: u8) -> Result<State, PoFault> {
    match (state, byte) {
        (State::Text, b'"') => Ok(State::Tokens),
        (State::Text, b'\\') => Ok(State::Escape),
        (State::Escape, b'0'..=b'7') => Ok(State::Octal(1, joined(0, 8, byte))),
        (State::Octal(count, number), _) => Ok(State::Octal(
            count.saturating_add(1),
            joined(number, 8, byte),
        )),
        (State::Escape, b'x') => Ok(State::Hex(None)),
        (State::Escape, b'a' | b'b' | b'f' | b'n' | b'r' | b't' | b'v' | b'\\' | b'"') => Ok(
            State::Text,
        ),
        (State::Hex(number), _) if byte.is_ascii_hexdigit() => Ok(State::Hex(Some(joined(
            number.unwrap_or(0),
            16,
            byte,
        )))),
        (State::Escape | State::Hex(_), _) => Err(PoFault::BadEscape),
        _ => Ok(State::Text),
    }
}

/// The state after the first byte of a token, or after a blank.
fn token(offset: usize, byte: u8) -> Result<State, PoFault> {
    match byte {
        b'"' => Ok(State::Text),
        _ if is_blank(byte) => Ok(State::Tokens),
        _ if is_word_byte(byte) => Ok(State::Word(offset)),
        _ => Err(PoFault::BadToken),
    }
}

/// The number with one more digit.
fn joined(number: u64, base: u64, digit: u8) -> u64 {
    let digit = (digit as char).to_digit(16).unwrap_or(0);
    number.saturating_mul(base).saturating_add(u64::from(digit))
}

/// Whether the byte is a blank.
fn is_blank(byte: u8) -> bool {
    matches!(byte, b' ' | 9 | 11 | 12 | 13)
}

/// Whether the byte can stand in a word.
fn is_word_byte(byte: u8) -> bool {
    matches!(byte, b'0'..=b'9' | b'A'..=b'Z' | b'a'..=b'z' | b'_')
}
