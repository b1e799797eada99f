//! Translated, fuzzy and untranslated messages, counted.

ghost use Rattle.std.specs.Prelude.{◌≡◌, ◌+◌, ◌-◌, ◌<◌, ◌^◌, ◌++◌, IfOk, IfErr, OnOk};
ghost use Rattle.po_entry.specs.Prelude.{out_of_memory, counted, further};

use itoa::Buffer;
use po_syntax::PoError;
use std::alloc::{AllocError, Global};

/// How many messages are translated, fuzzy and untranslated (GNU gettext manual, "Invoking the
/// msgfmt Program", `--statistics`).
#[derive(Clone, Copy, Debug, PartialEq, Eq)]
pub struct Stats {
    /// Messages whose first form isn't empty, without the flag `fuzzy`.
    pub translated: u64,
    /// Messages whose first form isn't empty, with the flag `fuzzy`.
    pub fuzzy: u64,
    /// Messages whose first form is empty.
    pub untranslated: u64,
}

impl Stats {
    ghost use Rattle.po_entry.specs.Stats.{stats_line, counted_stats};

    /// The line that `--statistics` prints, with its LF. Refused only where an allocation failed.
    pub fn line(&self, alloc: Global) -> Result<Vec<u8>, PoError>
        ensures line { IfOk result (λ line. line.items ≡ stats_line self.now) }
        ensures memory { IfErr result (λ e. e ≡ out_of_memory) }
    {
        let mut line = Vec::new(alloc);
        add_count(&mut line, self.translated, b" translated message")?;
        add_further(&mut line, self.fuzzy, b" fuzzy translation")?;
        add_further(&mut line, self.untranslated, b" untranslated message")?;
        line.extend_from_slice(b".\n")?;
        Ok(line)
    }

    /// Counts an entry, where it counts: as translated, fuzzy or untranslated.
    pub fn count(&mut self, is_counted: bool, has_translation: bool, fuzzy: bool)
        requires translated { self.old.translated < 2 ^ 64 - 1 }
        requires fuzzy { self.old.fuzzy < 2 ^ 64 - 1 }
        requires untranslated { self.old.untranslated < 2 ^ 64 - 1 }
        ensures { self.new ≡ counted_stats self.old is_counted has_translation fuzzy }
    {
        if !is_counted {
            return;
        }
        if !has_translation {
            self.untranslated += 1;
        } else if fuzzy {
            self.fuzzy += 1;
        } else {
            self.translated += 1;
        }
    }
}

/// Appends a further count after a comma, unless it is 0.
fn add_further(line: &mut Vec<u8>, count: u64, noun: &[u8]) -> Result<(), AllocError>
    ensures { OnOk result (line.new.items ≡ line.old.items ++ further count noun.now) }
{
    if count == 0 {
        return Ok(());
    }
    line.extend_from_slice(b", ")?;
    add_count(line, count, noun)
}

/// Appends a count and its noun, in the singular for 1 alone.
fn add_count(line: &mut Vec<u8>, count: u64, noun: &[u8]) -> Result<(), AllocError>
    ensures { OnOk result (line.new.items ≡ line.old.items ++ counted count noun.now) }
{
    let mut buffer = Buffer::new();
    line.extend_from_slice(buffer.format(count).as_bytes())?;
    line.extend_from_slice(noun)?;
    if count != 1 {
        line.push(b's')?;
    }
    Ok(())
}
