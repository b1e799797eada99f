//! The meter that counts the key comparisons of a look-up.

ghost use Rattle.std.specs.Prelude.{◌≡◌, ℕ, ◌+◌, ◌-◌, ◌^◌, ◌<◌};

use std::marker::Model;

/// Counts looks at originals. Comparing the key of a message with that of a query is one look, and
/// so is reading an original. Opening a file counts one for each comparison of two neighbouring
/// keys.
#[derive(Drop)]
pub struct Meter {
    count: u64,
}

impl Model for Meter {
    ghost Value = { ℕ };

    ghost view = { λ meter. meter.count };
}

impl Meter {
    /// A meter that has counted nothing yet.
    pub fn new() -> Self
        ensures { result ≡ 0 }
    {
        Meter { count: 0 }
    }

    /// How many looks it has counted so far.
    pub fn count(&self) -> u64
        ensures { result ≡ self.now }
    {
        self.count
    }

    /// Counts one more.
    pub(crate) fn add_one(&mut self)
        requires { self.old < 2 ^ 64 - 1 }
        ensures { self.new ≡ self.old + 1 }
    {
        self.count += 1;
    }
}
