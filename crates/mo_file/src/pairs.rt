//! The pairs of original and translation that a file is built from.

ghost use Rattle.std.specs.Prelude.{◌↔◌, IsTrue};
ghost use Rattle.mo_file.specs.Prelude.{AreRising, keys, messages_of_pairs};

use crate::key::compare_originals;

/// An original and its translation, as they stand in a file, without the NUL that ends each. The
/// original is the key, or for a message with a plural the key, a NUL and the plural; the key is
/// the msgid, or the context, a byte 4 (EOT) and the msgid. The translation is the forms with a NUL
/// between them ("The Format of GNU MO Files").
#[derive(Debug, Drop)]
pub struct Pair {
    /// The key, and where there is a plural a NUL and the plural.
    pub original: Vec<u8>,
    /// The forms, with a NUL between two.
    pub translation: Vec<u8>,
}

/// Which string of a pair is meant.
#[derive(Clone, Copy)]
pub enum Part {
    /// The original.
    Original,
    /// The translation.
    Translation,
}

/// A pair whose strings are borrowed.
#[repr(C)]
#[derive(Clone, Copy, Debug)]
pub struct BorrowedPair<'a> {
    /// The key, and where there is a plural a NUL and the plural.
    pub original: &'a [u8],
    /// The forms, with a NUL between two.
    pub translation: &'a [u8],
}

/// A pair, whoever owns its strings.
pub trait StringPair {
    ghost use Rattle.std.specs.Prelude.{◌≡◌};
    ghost use Rattle.mo_file.specs.Prelude.{Message, string_of};

    ghost message: { Self → Message };

    /// The original or the translation, as `part` says.
    fn string(&self, part: Part) -> &[u8]
        ensures { result.now ≡ string_of part (message self.now) };
}

impl StringPair for Pair {
    ghost use Rattle.mo_file.specs.Prelude.{message};

    ghost message = { message };

    fn string(&self, part: Part) -> &[u8] {
        match part {
            Part::Original => &self.original,
            Part::Translation => &self.translation,
        }
    }
}

impl StringPair for BorrowedPair<'_> {
    ghost use Rattle.mo_file.specs.Prelude.{borrowed_message};

    ghost message = { borrowed_message };

    fn string(&self, part: Part) -> &[u8] {
        match part {
            Part::Original => self.original,
            Part::Translation => self.translation,
        }
    }
}

/// Whether each key is above the one before it.
pub(crate) fn are_rising(pairs: &[Pair]) -> bool
    ensures { IsTrue result ↔ AreRising (keys (messages_of_pairs pairs.now)) }
{
    pairs.is_sorted_by(|a, b| compare_originals(&a.original, &b.original).is_lt())
}
