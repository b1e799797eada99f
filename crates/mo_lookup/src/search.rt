//! The binary search of "The Format of GNU MO Files".

ghost use Rattle.std.specs.Prelude.{ℕ, ◌≡◌, ◌+◌, ◌-◌, ◌^◌, ◌<◌, ◌≤◌, List, length};
ghost use Rattle.std.specs.Option.{option_copied};
ghost use Rattle.mo_lookup.specs.Prelude.{AreRising, FileView, IsIndexOf, comparisons, key_at, key_cmp, query_key, search_bound};

use std::cmp::Ordering;

/// A list of keys in strictly rising order, which a search only compares, and a count of the
/// comparisons.
pub trait Keys {
    /// The keys.
    ghost listed: { Self → List (List ℕ) };

    /// The file that has these keys, for keys that are those of a file's messages.
    ghost file: { Self → FileView };

    /// How many comparisons were made.
    ghost counted: { Self → ℕ };

    /// Which borrowed counter it is, for keys that borrow one; any number where they own it.
    ghost counter: { Self → ℕ };

    /// How many keys there are.
    fn len(&self) -> u32
        ensures count { result ≡ length (listed self.now) }
        ensures rising { AreRising (listed self.now) };

    /// Compares key `i` with the key of `context` and `id`, by unsigned bytes, and counts one
    /// comparison.
    fn compare(&mut self, i: u32, context: Option<&[u8]>, id: &[u8]) -> Ordering
        requires inside { i < length (listed self.old) }
        requires room { counted self.old < 2 ^ 64 - 1 }
        ensures order { result ≡ key_cmp (key_at (listed self.old) i) (query_key (option_copied context.entry) id.now) }
        ensures unchanged { listed self.new ≡ listed self.old }
        ensures same_file { file self.new ≡ file self.old }
        ensures cost { counted self.new ≡ counted self.old + 1 }
        ensures same_counter { counter self.new ≡ counter self.old };

    /// How many comparisons were made.
    fn count(&self) -> u64
        ensures { result ≡ counted self.now };
}

/// The index of the key of `context` and `id`, found by binary search, or None where no key is it.
/// It makes at most one comparison for each time that the number of keys can be halved, and ends at
/// the key.
pub fn find<K: Keys>(keys: &mut K, context: Option<&[u8]>, id: &[u8]) -> Option<u32>
    requires { K.counted keys.old < 2 ^ 63 }
    ensures index { IsIndexOf (K.listed keys.old) (query_key (option_copied context.entry) id.now) result }
    ensures unchanged { K.listed keys.new ≡ K.listed keys.old }
    ensures same_file { K.file keys.new ≡ K.file keys.old }
    ensures comparisons { K.counted keys.new
        ≡ K.counted keys.old + comparisons (K.listed keys.old) (query_key (option_copied context.entry) id.now) }
    ensures never_falls { K.counted keys.old ≤ K.counted keys.new }
    ensures bound { K.counted keys.new ≤ K.counted keys.old + search_bound (length (K.listed keys.old)) }
    ensures at_most_32 { K.counted keys.new ≤ K.counted keys.old + 32 }
    ensures same_counter { K.counter keys.new ≡ K.counter keys.old }
{
    let mut low = 0;
    let mut high = keys.len();
    'halving: while low < high {
        // With a loop of its own for keys below the query's, the processor guesses which half comes
        // next, and fetches the key in its middle ahead.
        'rising: while low < high {
            let middle = low + (high - low) / 2;
            match keys.compare(middle, context, id) {
                Ordering::Equal => return Some(middle),
                Ordering::Less => low = middle + 1,
                Ordering::Greater => {
                    high = middle;
                    break;
                }
            }
        }
    }
    None
}
