//! Messages as a look-up sees them.

ghost use Rattle.std.specs.Prelude.{◌≡◌, ◌<◌, Some, length, slice_get};
ghost use Rattle.mo_lookup.specs.Prelude.{IsTranslationAt, keys, translations};

use crate::search::Keys;
use mo_file::{Meter, MoView};
use std::cmp::Ordering;
use std::ops::Range;

/// Messages whose keys are only compared, each comparison counted, and the translation of each. No
/// other byte of their file is given out, so no key is read but by what counts.
pub trait Messages<'a>: Keys {
    /// Where the translation of message `i` stands, in bytes from the start of the file: its forms
    /// with a NUL between them, and a NUL after it.
    fn translation_range(&self, i: u32) -> Range<usize>
        requires { i < length (Self.file self.now).messages }
        ensures { IsTranslationAt (Self.file self.now) i result.start result.end };

    /// The translation of message `i`: its forms with a NUL between them.
    fn translation(&self, i: u32) -> &'a [u8]
        requires { i < length (Self.file self.now).messages }
        ensures { slice_get (translations (Self.file self.now).messages) i ≡ Some result.now };
}

/// The messages of a file, and the meter that counts each comparison.
#[derive(Drop)]
pub struct ViewMessages<'v, 'a, 'm> {
    /// The file.
    pub view: &'v MoView<'a>,
    /// What counts.
    pub meter: &'m mut Meter,
}

impl Keys for ViewMessages<'_, '_, '_> {
    ghost listed = { λ s. keys s.view.now.messages };

    ghost file = { λ s. s.view.now };

    ghost counted = { λ s. s.meter.now };

    ghost counter = { λ s. s.meter.ghost_name };

    fn len(&self) -> u32 {
        self.view.len()
    }

    #[inline(always)]
    fn compare(&mut self, i: u32, context: Option<&[u8]>, id: &[u8]) -> Ordering {
        self.view.compare(i, context, id, self.meter)
    }

    fn count(&self) -> u64 {
        self.meter.count()
    }
}

impl<'a> Messages<'a> for ViewMessages<'_, 'a, '_> {
    fn translation_range(&self, i: u32) -> Range<usize> {
        self.view.translation_range(i)
    }

    fn translation(&self, i: u32) -> &'a [u8] {
        self.view.translation(i)
    }
}
