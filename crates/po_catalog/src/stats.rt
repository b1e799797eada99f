//! The statistics of a catalogue.

ghost use Rattle.std.specs.Prelude.{◌≡◌};
ghost use Rattle.po_catalog.specs.Prelude.{has_translation, stats_of};

use crate::catalogue::Catalogue;
use crate::entry::Entry;
use crate::joining::is_live;
use po_entry::Stats;

/// How many live messages of a catalogue are translated, fuzzy and untranslated. The header isn't
/// counted.
pub fn statistics(catalogue: &Catalogue) -> Stats
    ensures { result ≡ stats_of catalogue.now }
{
    let mut stats = Stats {
        translated: 0,
        fuzzy: 0,
        untranslated: 0,
    };
    for entry in catalogue.entries() {
        let is_counted = is_live(entry) && !entry.is_header();
        stats.count(is_counted, has_translation(entry), entry.fuzzy());
    }
    stats
}

/// Whether the entry has a translation, be it fuzzy or not: its first form isn't empty.
pub fn has_translation(entry: &Entry) -> bool
    ensures { result ≡ has_translation entry.now }
{
    match entry.forms().first() {
        Some(form) => !form.is_empty(),
        None => false,
    }
}
