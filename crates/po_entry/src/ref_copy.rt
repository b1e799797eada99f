//! Copies of entries that lie in a buffer.

ghost use Rattle.std.specs.Prelude.{◌≡◌, IfOk, OnOk};
ghost use Rattle.po_entry.specs.Prelude.{entry_view, forms_left, texts};

use crate::entry_ref::{EntryRef, FormIter};
use crate::fields::{Fields, Previous, copy_optional};
use std::alloc::{AllocError, Global};

impl FormIter<'_> {
    /// A copy of the forms that are left, each in a buffer of its own; refused only where an
    /// allocation failed.
    pub fn copy(self, alloc: Global) -> Result<Vec<Vec<u8>>, AllocError>
        ensures { IfOk result (λ copy. texts copy.items ≡ forms_left self.entry) }
    {
        let mut copy = Vec::new(alloc);
        for form in self {
            copy.push(form.to_vec(alloc)?)?;
        }
        Ok(copy)
    }
}

/// Copies each part of an entry; refused only where an allocation failed.
fn fill(alloc: Global, fields: &mut Fields, entry: &EntryRef<'_>) -> Result<(), AllocError>
    ensures { OnOk result (entry_view fields.new ≡ entry.now) }
{
    fields.comments = entry.comments().copy(alloc)?;
    fields.extracted = entry.extracted().copy(alloc)?;
    fields.references = entry.references().copy(alloc)?;
    fields.fuzzy = entry.fuzzy();
    fields.flags = entry.flags().copy(alloc)?;
    fields.previous = entry.copy_previous(alloc)?;
    fields.context = copy_optional(alloc, entry.context())?;
    fields.id = entry.id().to_vec(alloc)?;
    fields.plural = copy_optional(alloc, entry.plural())?;
    fields.forms = entry.forms().copy(alloc)?;
    fields.obsolete = entry.obsolete();
    fields.line = entry.line();
    Ok(())
}

impl EntryRef<'_> {
    /// A copy of the previous texts; refused only where an allocation failed.
    pub fn copy_previous(&self, alloc: Global) -> Result<Previous, AllocError>
        ensures { IfOk result (λ copy. copy ≡ self.now.previous) }
    {
        Ok(Previous {
            context: copy_optional(alloc, self.previous_context())?,
            id: copy_optional(alloc, self.previous_id())?,
            plural: copy_optional(alloc, self.previous_plural())?,
        })
    }

    /// A copy of each part of the entry; refused only where an allocation failed.
    pub fn copy(&self, alloc: Global) -> Result<Fields, AllocError>
        ensures { IfOk result (λ fields. entry_view fields ≡ self.now) }
    {
        let mut fields = Fields::empty(alloc);
        fill(alloc, &mut fields, self)?;
        Ok(fields)
    }
}
