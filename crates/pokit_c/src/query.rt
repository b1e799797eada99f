//! What C asks of a catalogue, and what it is answered.

ghost use Rattle.std.specs.Prelude.{◌≡◌, ℕ, List, Option};
ghost use Rattle.std.specs.Option.{option_copied};
ghost use Rattle.pokit_c.specs.Prelude.{IsOfQuery, IsPlace, IsTerminated, answer_view, given, located_view, query_view};
ghost use Rattle.pokit_c.specs.declared.query.PokitQuery.{PokitQuery};

use mo_lookup::{Located, Place};

/// A query: a msgid, and where they are given, a context, and a plural with a count. No text
/// includes the NUL that may follow it.
#[repr(C)]
#[derive(Clone, Copy, Drop)]
pub struct PokitQuery<'q> {
    /// The context, which counts where `has_context` isn't 0.
    pub context: &'q [u8],
    /// The msgid.
    pub id: &'q [u8],
    /// The plural, which counts where `has_plural` isn't 0.
    pub plural: &'q [u8],
    /// The count that selects the plural form.
    pub count: u64,
    /// Whether a context is given: 0 is no, and anything else yes.
    pub has_context: u8,
    /// Whether a plural and a count are given: 0 is no, and anything else yes.
    pub has_plural: u8,
}

/// Where the text of an answer is, and what it cost.
#[repr(C)]
#[derive(Clone, Copy, Drop)]
pub struct PokitLocated {
    /// The offset of the text's first byte in the file; 0 where the text isn't of the file.
    pub offset: usize,
    /// How many bytes the text has in the file, where a NUL follows them; 0 where it isn't of the
    /// file.
    pub len: usize,
    /// How many keys were compared with the query's.
    pub comparisons: u32,
    /// How many nodes of the plural expression were evaluated.
    pub steps: u32,
    /// Which text it is, as `enum pokit_place` of include/pokit.h has it: 0 the query's msgid, 1
    /// its plural, 2 a form of the translation, in the file.
    pub place: u32,
}

impl PokitLocated {
    /// What a look-up has located, as C sees it.
    pub(crate) fn of(found: Located) -> PokitLocated
        requires { (bytes : List ℕ) × (plural : Option (List ℕ × ℕ)) × IsPlace bytes plural found.place }
        ensures answered { (bytes : List ℕ) (query : PokitQuery)
            → IsPlace bytes (query_view query).plural found.place
            → answer_view bytes query result ≡ located_view bytes (query_view query) found }
        ensures terminated { (bytes : List ℕ) (query : PokitQuery)
            → IsPlace bytes (query_view query).plural found.place → IsTerminated bytes result }
        ensures of_query { (bytes : List ℕ) (query : PokitQuery)
            → IsPlace bytes (query_view query).plural found.place → IsOfQuery query result }
        ensures comparisons { result.comparisons ≡ found.comparisons }
        ensures steps { result.steps ≡ found.steps }
    {
        let (place, offset, len) = match found.place {
            Place::Id => (0, 0, 0),
            Place::Plural => (1, 0, 0),
            Place::Translation { start, end } => (2, start, end - start),
        };
        PokitLocated {
            offset,
            len,
            comparisons: found.comparisons,
            steps: found.steps,
            place,
        }
    }
}

impl<'q> PokitQuery<'q> {
    /// The context, where one is given.
    pub(crate) fn context(&self) -> Option<&'q [u8]>
        ensures { option_copied result ≡ (query_view self.now).context }
    {
        if self.has_context == 0 {
            None
        } else {
            Some(self.context)
        }
    }

    /// The plural and the count, where they are given.
    pub(crate) fn plural(&self) -> Option<(&'q [u8], u64)>
        ensures { given result ≡ (query_view self.now).plural }
    {
        if self.has_plural == 0 {
            None
        } else {
            Some((self.plural, self.count))
        }
    }
}
