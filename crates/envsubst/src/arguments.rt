//! The arguments of envsubst after its options.
ghost use Rattle.std.specs.Prelude.{◌≡◌, map, option_map};
ghost use Rattle.envsubst.specs.Prelude.{AreEnvsubstArguments, envsubst_usage, envsubst_arguments};

use runs::{Arguments, ProgramFault};

/// What `envsubst` is asked for.
#[derive(Clone, Copy)]
pub enum EnvsubstArguments<'a> {
    /// The names of the variables in SHELL-FORMAT.
    Names(&'a str),
    /// The input with its variables replaced: all, or those that SHELL-FORMAT refers to.
    Replaced(Option<&'a str>),
}

impl<'a> EnvsubstArguments<'a> {
    /// Takes the arguments of a command line, where they fit.
    pub fn given<A: Arguments>(arguments: &'a A) -> Result<EnvsubstArguments<'a>, ProgramFault<'a>>
        ensures { AreEnvsubstArguments (A.flag arguments.now) (A.texts arguments.now) result }
    {
        let variables = arguments.is_given("variables");
        EnvsubstArguments::of(variables, arguments.texts_of("SHELL-FORMAT")).ok_or(
            ProgramFault::WrongArguments,
        )
    }

    /// Takes `[SHELL-FORMAT]`, or with `variables` `SHELL-FORMAT`. Other arguments fit no usage of
    /// the tool.
    pub fn of(variables: bool, arguments: &[&'a str]) -> Option<EnvsubstArguments<'a>>
        ensures { option_map envsubst_arguments result
            ≡ envsubst_usage variables (map (λ argument. argument.now) arguments.now) }
    {
        match (variables, arguments) {
            (true, [format]) => Some(EnvsubstArguments::Names(format)),
            (false, []) => Some(EnvsubstArguments::Replaced(None)),
            (false, [format]) => Some(EnvsubstArguments::Replaced(Some(format))),
            _ => None,
        }
    }
}
