//! The words of a command line, by the names of its arguments.
ghost use Rattle.std.specs.Prelude.{◌≡◌, false, None};
ghost use Rattle.known_runs.specs.Prelude.{operands_of, text_of};

use runs::Arguments;

/// The words of a command line without flags: its operands, and its options that have a text.
#[derive(Clone, Copy, Drop)]
pub struct Words<'a> {
    /// The operands, whichever argument takes them.
    pub operands: &'a [&'a str],
    /// The text of `-o`.
    pub output: Option<&'a str>,
}

impl<'w> Arguments for Words<'w> {
    ghost flag = { λ _ _ given. given ≡ false };

    ghost text = { λ words name text. text ≡ text_of words name };

    ghost texts = { λ words _ texts. texts ≡ operands_of words };

    ghost number = { λ _ _ number. number ≡ None };

    fn is_given(&self, _name: &str) -> bool {
        false
    }

    fn text_of(&self, name: &str) -> Option<&str> {
        if name == "output-file" {
            self.output
        } else if name == "FILE" {
            self.operands.first().copied()
        } else {
            None
        }
    }

    fn texts_of<'a>(&'a self, _name: &str) -> &'a [&'a str] {
        self.operands
    }

    fn number_of(&self, _name: &str) -> Option<u32> {
        None
    }
}
