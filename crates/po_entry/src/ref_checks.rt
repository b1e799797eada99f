//! Whether an entry that lies in a buffer can stand in a catalogue.

ghost use Rattle.std.specs.Prelude.{◌≡◌, true, MatchResult, All, IsTrue, IsUtf8, ◌↔◌};
ghost use Rattle.po_entry.specs.Prelude.{Lacks, forms_left, HasAdmittedCharset, quoted_texts, EntryTextFault, HasTexts};

use crate::charset::admits_charset;
use crate::entry_ref::{EntryRef, FormIter};
use crate::texts::{EOT, Need, meets, optional_meets};
use po_syntax::PoFault;
use simdutf8::is_utf8;

/// Whether each form is UTF-8.
fn are_utf8(forms: FormIter<'_>) -> bool
    ensures { IsTrue result ↔ All IsUtf8 (forms_left forms.entry) }
{
    for form in forms {
        if !is_utf8(form) {
            return false;
        }
    }
    true
}

/// Whether all texts of quoted strings are UTF-8.
fn is_all_utf8(entry: &EntryRef<'_>) -> bool
    ensures { IsTrue result ↔ All IsUtf8 (quoted_texts entry.now) }
{
    // `&` and not `&&`: without branches, so that the proof takes one operand after another.
    optional_meets(Need::Utf8, entry.previous_context())
        & optional_meets(Need::Utf8, entry.previous_id())
        & optional_meets(Need::Utf8, entry.previous_plural())
        & optional_meets(Need::Utf8, entry.context())
        & meets(Need::Utf8, entry.id())
        & optional_meets(Need::Utf8, entry.plural())
        & are_utf8(entry.forms())
}

impl EntryRef<'_> {
    /// Whether the entry can have its texts, which hold no NUL, as those of items don't. Refused
    /// with `NotUtf8` where a text of its quoted strings is not UTF-8, which isn't tested where it
    /// is known that they are; then with `ForbiddenByte` for an EOT (byte 4) in its context or
    /// msgid; a previous text may hold one.
    pub fn check_texts(&self, are_utf8: bool) -> Result<(), PoFault>
        requires no_nul { All (Lacks 0) (quoted_texts self.now) }
        requires utf8 { are_utf8 ≡ true → All IsUtf8 (quoted_texts self.now) }
        ensures { MatchResult result (λ _. HasTexts self.now) (EntryTextFault self.now) }
    {
        if !are_utf8 && !is_all_utf8(self) {
            return Err(PoFault::NotUtf8);
        }
        let lacks_eot = optional_meets(Need::Without(EOT), self.context())
            & meets(Need::Without(EOT), self.id());
        if !lacks_eot {
            return Err(PoFault::ForbiddenByte);
        }
        Ok(())
    }

    /// Whether the charset of the entry is admitted, if it is a header (GNU gettext manual,
    /// "Filling in the Header Entry").
    pub fn has_admitted_charset(&self) -> bool
        ensures { IsTrue result ↔ HasAdmittedCharset self.now }
    {
        if !self.is_header() {
            return true;
        }
        match self.forms().next() {
            Some(form) => admits_charset(form),
            None => true,
        }
    }
}
