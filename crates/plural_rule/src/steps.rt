//! The counter of the steps of an evaluation.

ghost use Rattle.std.specs.Prelude.{◌≡◌, ℕ, ◌+◌, ◌^◌, ◌<◌};

use std::marker::Model;

/// Counts the steps of an evaluation: one for each node that is evaluated, which the instruction
/// counts with which the node begins.
#[derive(Drop)]
pub struct Steps {
    count: u64,
}

impl Model for Steps {
    ghost Value = { ℕ };

    ghost view = { λ steps. steps.count };
}

impl Steps {
    /// A counter that has counted nothing yet.
    pub fn new() -> Self
        ensures { result ≡ 0 }
    {
        Steps { count: 0 }
    }

    /// How many steps it has counted so far.
    pub fn count(&self) -> u64
        ensures { result ≡ self.now }
    {
        self.count
    }

    /// Counts so many more.
    #[inline(always)]
    pub(crate) fn add(&mut self, nodes: u16)
        requires { self.old + nodes < 2 ^ 64 }
        ensures { self.new ≡ self.old + nodes }
    {
        self.count += nodes as u64;
    }
}
