//! The environment variables that choose a catalogue ("Locale Environment Variables" and "Locating
//! Message Catalog Files" of the GNU gettext manual).
ghost use Rattle.std.specs.Prelude.{◌≡◌, ℕ, List, Option, option_map, IfOk};
ghost use Rattle.gettext.specs.Prelude.{IsEnvironment, environment_view, owned_environment_view};

use crate::candidates::Environment;
use std::alloc::{AllocError, Global};

/// Where the variables of an environment are read from.
pub trait VariableSource {
    // What asking for the variable of a name may come to.
    ghost variable: { Self → List ℕ → Option (List ℕ) → Type 0 };

    /// The value of the variable of this name, where it is set.
    fn read_variable(&self, alloc: Global, name: &str) -> Result<Option<Vec<u8>>, AllocError>
        ensures { IfOk result (λ value. variable self.now name.now (option_map (λ v. v.items) value)) };
}

/// The values of the variables that choose a catalogue; an unset one is `None`.
pub struct OwnedEnvironment {
    /// LC_ALL.
    pub lc_all: Option<Vec<u8>>,
    /// LC_MESSAGES.
    pub lc_messages: Option<Vec<u8>>,
    /// LANG.
    pub lang: Option<Vec<u8>>,
    /// LANGUAGE.
    pub language: Option<Vec<u8>>,
    /// TEXTDOMAIN.
    pub textdomain: Option<Vec<u8>>,
    /// TEXTDOMAINDIR.
    pub textdomaindir: Option<Vec<u8>>,
}

impl Drop for OwnedEnvironment {
    fn drop(self) {
        let OwnedEnvironment {
            lc_all: _,
            lc_messages: _,
            lang: _,
            language: _,
            textdomain: _,
            textdomaindir: _,
        } = self;
    }
}

impl OwnedEnvironment {
    /// Reads each variable of the source.
    pub fn read<S: VariableSource>(
        alloc: Global,
        source: &S,
    ) -> Result<OwnedEnvironment, AllocError>
        ensures { IfOk result (λ env. IsEnvironment (S.variable source.now) (owned_environment_view env)) }
    {
        Ok(OwnedEnvironment {
            lc_all: source.read_variable(alloc, "LC_ALL")?,
            lc_messages: source.read_variable(alloc, "LC_MESSAGES")?,
            lang: source.read_variable(alloc, "LANG")?,
            language: source.read_variable(alloc, "LANGUAGE")?,
            textdomain: source.read_variable(alloc, "TEXTDOMAIN")?,
            textdomaindir: source.read_variable(alloc, "TEXTDOMAINDIR")?,
        })
    }

    /// The values, borrowed.
    pub fn borrowed(&self) -> Environment<'_>
        ensures { environment_view result ≡ owned_environment_view self.now }
    {
        Environment {
            lc_all: self.lc_all.as_deref(),
            lc_messages: self.lc_messages.as_deref(),
            lang: self.lang.as_deref(),
            language: self.language.as_deref(),
            textdomain: self.textdomain.as_deref(),
            textdomaindir: self.textdomaindir.as_deref(),
        }
    }
}
