//! Which entries are kept, and what becomes of them.

ghost use Rattle.std.specs.Prelude.{◌≡◌, ◌<◌, IfOk, OnErr, false, length};
ghost use Rattle.msgattrib.specs.Prelude.{IsChangedAt, changed, entry_view, fuzzy_after, is_emptied, is_kept, is_live_header, obsolete_after, set_fuzzy, set_obsolete};

use crate::attributes::Attributes;
use po_entry::{EntryRef, Fields, Previous, Store};
use std::alloc::{AllocError, Global};

/// Which entries of a catalogue are kept, and how those that are kept are changed: the options of
/// msgattrib (GNU gettext manual, "Invoking the msgattrib Program"). `--fuzzy` stands for
/// `only_fuzzy` with `clear_fuzzy`, and `--obsolete` for `only_obsolete` with `clear_obsolete`.
#[derive(Clone, Copy, Debug, PartialEq, Eq)]
pub struct Selection {
    /// `--translated`: entries whose first form isn't empty are kept.
    pub translated: bool,
    /// `--untranslated`: entries whose first form is empty are kept.
    pub untranslated: bool,
    /// `--no-fuzzy`: entries without the flag `fuzzy` are kept.
    pub no_fuzzy: bool,
    /// `--only-fuzzy`: entries with the flag `fuzzy` are kept.
    pub only_fuzzy: bool,
    /// `--no-obsolete`: live entries are kept.
    pub no_obsolete: bool,
    /// `--only-obsolete`: obsolete entries are kept.
    pub only_obsolete: bool,
    /// `--set-fuzzy`: each entry gets the flag `fuzzy`.
    pub set_fuzzy: bool,
    /// `--clear-fuzzy`: without `set_fuzzy`, no entry has the flag `fuzzy` any more.
    pub clear_fuzzy: bool,
    /// `--set-obsolete`: each entry but a live header becomes obsolete.
    pub set_obsolete: bool,
    /// `--clear-obsolete`: without `set_obsolete`, each entry becomes live.
    pub clear_obsolete: bool,
    /// `--clear-previous`: the previous texts are dropped.
    pub clear_previous: bool,
    /// `--empty`: where the flag `fuzzy` is taken from an entry, its forms become empty, except
    /// those of a header.
    pub empty: bool,
}

impl Selection {
    /// Whether an entry is kept: as a live header, or since it meets each given condition.
    pub fn keeps<E: Attributes>(&self, entry: &E) -> bool
        ensures { result ≡ is_kept self.now (E.entry entry.now) }
    {
        is_live_header(entry)
            || (!self.translated || entry.is_translated())
                && (!self.untranslated || !entry.is_translated())
                && (!self.no_fuzzy || !entry.is_fuzzy())
                && (!self.only_fuzzy || entry.is_fuzzy())
                && (!self.no_obsolete || !entry.is_obsolete())
                && (!self.only_obsolete || entry.is_obsolete())
    }

    /// Whether an entry has the flag `fuzzy` once it is changed.
    pub fn fuzzy_after<E: Attributes>(&self, entry: &E) -> bool
        ensures { result ≡ fuzzy_after self.now (E.entry entry.now) }
    {
        self.set_fuzzy || (entry.is_fuzzy() && !self.clear_fuzzy)
    }

    /// Whether the forms of an entry become empty.
    pub fn empties<E: Attributes>(&self, entry: &E) -> bool
        ensures { result ≡ is_emptied self.now (E.entry entry.now) }
    {
        self.empty && entry.is_fuzzy() && !self.fuzzy_after(entry) && !entry.is_header()
    }

    /// Whether an entry is obsolete once it is changed.
    pub fn obsolete_after<E: Attributes>(&self, entry: &E) -> bool
        ensures { result ≡ obsolete_after self.now (E.entry entry.now) }
    {
        if self.set_obsolete {
            !is_live_header(entry)
        } else {
            entry.is_obsolete() && !self.clear_obsolete
        }
    }

    /// Changes the fields of an entry that is kept.
    pub fn change(&self, fields: &mut Fields)
        ensures { entry_view fields.new ≡ changed self.now (entry_view fields.old) }
    {
        let fuzzy = self.fuzzy_after(fields);
        let obsolete = self.obsolete_after(fields);
        if self.empties(fields) {
            fields.empty_forms();
        }
        fields.fuzzy = fuzzy;
        fields.obsolete = obsolete;
        if self.clear_previous {
            fields.previous = Previous::none();
        }
    }

    /// A copy of an entry, changed; refused only where an allocation failed.
    pub fn changed(&self, alloc: Global, entry: &EntryRef<'_>) -> Result<Fields, AllocError>
        ensures { IfOk result (λ fields. entry_view fields ≡ changed self.now entry.now) }
    {
        let mut fields = entry.copy(alloc)?;
        self.change(&mut fields);
        Ok(fields)
    }

    /// Changes an entry of a store that is kept, and returns its index: as before or, where its
    /// texts change too, that of its copy at the end. Refused only where an allocation failed; then
    /// the entries stay.
    pub fn change_at(
        &self,
        alloc: Global,
        store: &mut Store,
        index: usize,
    ) -> Result<usize, AllocError>
        requires { index < length store.old }
        ensures changed { IfOk result (IsChangedAt self.now index store.old store.new) }
        ensures unchanged { OnErr result (store.new ≡ store.old) }
    {
        let entry = store.get(index);
        if self.changes_texts(&entry) {
            let changed = self.changed(alloc, &entry)?;
            let last = store.len();
            store.push(&changed)?;
            return Ok(last);
        }
        let fuzzy = self.fuzzy_after(&entry);
        let obsolete = self.obsolete_after(&entry);
        store.set_fuzzy(index, fuzzy);
        store.set_obsolete(index, obsolete);
        Ok(index)
    }

    /// Whether more changes of an entry than its marks.
    fn changes_texts(&self, entry: &EntryRef<'_>) -> bool
        ensures { result ≡ false → changed self.now entry.now
            ≡ set_obsolete (obsolete_after self.now entry.now) (set_fuzzy (fuzzy_after self.now entry.now) entry.now) }
    {
        self.empties(entry)
            || self.clear_previous
                && (entry.previous_context().is_some()
                    || entry.previous_id().is_some()
                    || entry.previous_plural().is_some())
    }
}

/// Whether an entry is a header that isn't obsolete.
fn is_live_header<E: Attributes>(entry: &E) -> bool
    ensures { result ≡ is_live_header (E.entry entry.now) }
{
    entry.is_header() && !entry.is_obsolete()
}
