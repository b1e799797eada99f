//! The options of a command line, as the tools ask for them.
ghost use Rattle.std.specs.Prelude.{ℕ, Bool, List, Option, map};
ghost use Rattle.std.specs.Option.{option_copied};

/// The options of a command line, by their names.
pub trait Arguments {
    // What `is_given` may return for the option of a name.
    ghost flag: { Self → List ℕ → Bool → Type 0 };

    // What `text_of` may return for the option of a name.
    ghost text: { Self → List ℕ → Option (List ℕ) → Type 0 };

    // What `texts_of` may return for the argument of a name.
    ghost texts: { Self → List ℕ → List (List ℕ) → Type 0 };

    // What `number_of` may return for the option of a name.
    ghost number: { Self → List ℕ → Option ℕ → Type 0 };

    /// Whether the option of this name is given.
    fn is_given(&self, name: &str) -> bool
        ensures { flag self.now name.now result };

    /// The text of the option of this name, where it is given.
    fn text_of(&self, name: &str) -> Option<&str>
        ensures { text self.now name.now (option_copied result) };

    /// The texts of the argument of this name, in their order.
    fn texts_of<'a>(&'a self, name: &str) -> &'a [&'a str]
        ensures { texts self.now name.now (map (λ text. text.now) result.now) };

    /// The number of the option of this name, where it is given.
    fn number_of(&self, name: &str) -> Option<u32>
        ensures { number self.now name.now result };
}
