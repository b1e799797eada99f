//! The live entries of an input.

ghost use Rattle.std.specs.Prelude.{◌≡◌, IfOk, IfErr, List, filter, length};
ghost use Rattle.po_compile.specs.Prelude.{ReadsText, TextEntry, live_messages};
ghost use Rattle.po_reader.specs.Prelude.{IsTextError};
ghost use Rattle.po_compile.specs.Internal.{has_no_key};

use po_entry::{Drafts, Store};
use po_reader::{PIECE, next_store};
use po_syntax::{Pieces, PoError};
use std::alloc::Global;
use std::marker::Model;

/// How many bytes an entry usually has in a text, at least.
const USUAL_LEN: usize = 128;

/// How many bytes a file has for a message besides those of its strings, with some for the header.
const MESSAGE_ROOM: usize = 24;

/// The live entries of an input, in their order, whose messages are compiled.
#[derive(Drop)]
pub struct Collected {
    pub(crate) live: Store,
    pub(crate) use_fuzzy: bool,
}

impl Model for Collected {
    ghost use Rattle.std.specs.Prelude.{List, map};
    ghost use Rattle.po_compile.specs.Collecting.{LiveMessage, live_message};

    ghost Value = { List LiveMessage };

    ghost view = { λ c. map (live_message c.use_fuzzy) c.live };
}

impl Collected {
    /// The live ones of entries. Nothing is allocated.
    pub fn of(mut entries: Store, use_fuzzy: bool) -> Collected
        ensures { result ≡ live_messages use_fuzzy entries }
    {
        entries.keep_live();
        Collected {
            live: entries,
            use_fuzzy,
        }
    }

    /// How many of the entries are headers.
    pub(crate) fn header_count(&self) -> usize
        ensures { result ≡ length (filter has_no_key self.now) }
    {
        let mut count = 0;
        for index in 0..self.live.len() {
            count += usize::from(self.live.get(index).is_header());
        }
        count
    }

    /// How many bytes a file of the messages has: a capacity.
    pub(crate) fn file_len(&self) -> usize {
        let mut len: usize = 0;
        for index in 0..self.live.len() {
            let entry = self.live.get(index);
            len = len
                .saturating_add(MESSAGE_ROOM)
                .saturating_add(entry.original().len())
                .saturating_add(entry.translation().len());
        }
        len
    }
}

/// Collects the live entries of a text, piece by piece, without their comments and references.
pub(crate) fn collect(alloc: Global, text: &[u8], use_fuzzy: bool) -> Result<Collected, PoError>
    ensures found { IfOk result (λ collected. (entries : List TextEntry)
        × ReadsText text.now entries × (collected ≡ live_messages use_fuzzy entries)) }
    ensures fault { IfErr result (IsTextError text.now) }
{
    let mut pieces = Pieces::of(text)?;
    let mut drafts = Drafts::new(alloc);
    let mut entries = Store::with_capacity(alloc, text.len() / USUAL_LEN, text.len())?;
    while !pieces.are_over() {
        next_store(alloc, &mut pieces, PIECE, false, &mut drafts, &mut entries)?;
    }
    Ok(Collected::of(entries, use_fuzzy))
}
