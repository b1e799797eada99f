//! What a selection asks of an entry.

ghost use Rattle.std.specs.Prelude.{◌≡◌};
ghost use Rattle.msgattrib.specs.Prelude.{TextEntry, has_translation, is_header};

use po_entry::{EntryRef, Fields, has_translation};

/// An entry by what a selection asks of it, however its texts are kept.
pub trait Attributes {
    /// The entry.
    ghost entry: { Self → TextEntry };

    /// Whether it is a header.
    fn is_header(&self) -> bool
        ensures { result ≡ is_header (entry self.now) };

    /// Whether it has a translation: its first form isn't empty.
    fn is_translated(&self) -> bool
        ensures { result ≡ has_translation (entry self.now) };

    /// Whether it has the flag `fuzzy`.
    fn is_fuzzy(&self) -> bool
        ensures { result ≡ (entry self.now).fuzzy };

    /// Whether it is obsolete.
    fn is_obsolete(&self) -> bool
        ensures { result ≡ (entry self.now).obsolete };
}

impl Attributes for Fields {
    ghost use Rattle.po_entry.specs.Prelude.{entry_view};

    ghost entry = { entry_view };

    fn is_header(&self) -> bool {
        Fields::is_header(self)
    }

    fn is_translated(&self) -> bool {
        match self.forms.first() {
            Some(form) => !form.is_empty(),
            None => false,
        }
    }

    fn is_fuzzy(&self) -> bool {
        self.fuzzy
    }

    fn is_obsolete(&self) -> bool {
        self.obsolete
    }
}

impl Attributes for EntryRef<'_> {
    ghost entry = { λ e. e };

    fn is_header(&self) -> bool {
        EntryRef::is_header(self)
    }

    fn is_translated(&self) -> bool {
        has_translation(self)
    }

    fn is_fuzzy(&self) -> bool {
        self.fuzzy()
    }

    fn is_obsolete(&self) -> bool {
        self.obsolete()
    }
}
