//! The options of a command line, as `clap` has parsed them.
use clap::ArgMatches;
use runs::Arguments;
use std::str::FromStr;

/// The options that a tool was given.
#[derive(Clone, Copy)]
pub(crate) struct Options<'r, 'a>(pub(crate) &'r ArgMatches<'a>);

impl<'r, 'a> Arguments for Options<'r, 'a> {
    ghost use Rattle.std.specs.Prelude.{◌≡◌};
    ghost use Rattle.clap.specs.Matches.{found_of, first_value, matched_of, one_text};
    ghost use Rattle.process.specs.Options.{IsFlag, IsNumber, given_texts};

    ghost flag = { λ options name value. IsFlag (one_text (found_of options.0.now) name) value };

    ghost text = { λ options name value. value ≡ first_value (found_of options.0.now) name };

    ghost texts = { λ options name value. value ≡ given_texts (matched_of (found_of options.0.now) name) };

    ghost number = { λ options name value.
        IsNumber ⟦<u32 as FromStr>⟧.from_str_gives (one_text (found_of options.0.now) name) value };

    fn is_given(&self, name: &str) -> bool {
        self.0.get_flag(name)
    }

    fn text_of(&self, name: &str) -> Option<&str> {
        self.0.get_str(name)
    }

    fn texts_of<'w>(&'w self, name: &str) -> &'w [&'w str] {
        self.0.get_strs(name).unwrap_or(&[])
    }

    fn number_of(&self, name: &str) -> Option<u32> {
        self.0.get_one(name)
    }
}
