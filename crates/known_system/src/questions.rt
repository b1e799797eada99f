//! What a source of inputs was asked for. It exists only in proofs, and takes no memory.
ghost use Rattle.std.specs.Prelude.{◌≡◌, List, [], ◌∷◌, ◌++◌};
ghost use base.Fml.{ftrue};
ghost use Rattle.known_system.specs.Prelude.{Asked, asked_code};

use std::marker::Model;

/// What was asked for so far: data of proofs alone.
#[derive(Drop)]
pub struct Questions {
    pub ghost items: { List Asked } by { asked_code },
}

impl Model for Questions {
    ghost also_owns = { λ _. ftrue };
}

/// What is asked for.
#[derive(Clone, Copy, Drop)]
pub enum Question<'a> {
    /// The file of a name.
    File(&'a str),
    /// Standard input.
    Standard,
}

impl Questions {
    ghost use Rattle.known_system.specs.Questioned.{questioned};

    /// Nothing yet.
    pub fn new() -> Questions
        ensures { result.items ≡ [] }
    {
        Questions {}
    }

    /// All that, and one more.
    #[inline(always)]
    pub fn then(&self, _question: &Question<'_>) -> Questions
        ensures { result.items ≡ self.now.items ++ questioned _question.now ∷ [] }
    {
        Questions {}
    }
}
