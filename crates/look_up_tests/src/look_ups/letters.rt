//! Keys of a test's own: every second letter, with a count of the comparisons.

ghost use Rattle.std.specs.Prelude.{◌≡◌, ◌+◌, ◌*◌, ◌≤◌, ◌<◌, [], ◌∷◌, map};
ghost use Rattle.std.specs.List.{range_with_len};

use mo_file::compare_key;
use mo_lookup::Keys;
use std::cmp::Ordering;

/// The keys `b`, `d`, `f` and so on, eight at most.
#[derive(Drop)]
pub(super) struct Letters {
    many: u32,
    compared: u64,
    ghost few: { many ≤ 8 },
}

impl Letters {
    /// So many keys, which haven't been compared yet.
    pub(super) fn new(many: u32) -> Letters
        requires { many ≤ 8 }
        ensures { result.compared ≡ 0 }
    {
        Letters { many, compared: 0 }
    }
}

impl Keys for Letters {
    ghost listed = { λ keys. map (λ i. (98 + 2 * i) ∷ []) (range_with_len 0 keys.many) };

    ghost file = { λ _. record { bytes = []; messages = [] } };

    ghost counted = { λ keys. keys.compared };

    ghost counter = { λ _. 0 };

    fn len(&self) -> u32 {
        self.many
    }

    fn compare(&mut self, i: u32, context: Option<&[u8]>, id: &[u8]) -> Ordering {
        self.compared += 1;
        compare_key(&[b'b' + 2 * i as u8], context, id)
    }

    fn count(&self) -> u64 {
        self.compared
    }
}
