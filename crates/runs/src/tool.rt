//! A tool, and its name.
ghost use Rattle.std.specs.Prelude.{◌≡◌, ◌≢◌, MatchOption};
ghost use Rattle.runs.specs.Prelude.{tool_name};
ghost use Rattle.runs.specs.declared.tool.Tool.{Tool as ATool};

/// A tool of the program.
#[derive(Clone, Copy, Debug, PartialEq, Eq)]
pub enum Tool {
    /// Compiles PO texts.
    Msgfmt,
    /// Writes the PO text of an MO file.
    Msgunfmt,
    /// Selects entries of a PO text and changes them.
    Msgattrib,
    /// Merges PO texts.
    Msgcat,
    /// Looks messages up.
    Gettext,
    /// Looks up a message with a count.
    Ngettext,
    /// Replaces the references to variables in a text.
    Envsubst,
}

/// All tools, in the order in which help lists them.
pub static TOOLS: [Tool; 7] = [
    Tool::Msgfmt,
    Tool::Msgunfmt,
    Tool::Msgattrib,
    Tool::Msgcat,
    Tool::Gettext,
    Tool::Ngettext,
    Tool::Envsubst,
];

impl Tool {
    /// Its name, by which the first argument names it.
    pub fn name(self) -> &'static str
        ensures { result.now ≡ tool_name self }
    {
        match self {
            Tool::Msgfmt => "msgfmt",
            Tool::Msgunfmt => "msgunfmt",
            Tool::Msgattrib => "msgattrib",
            Tool::Msgcat => "msgcat",
            Tool::Gettext => "gettext",
            Tool::Ngettext => "ngettext",
            Tool::Envsubst => "envsubst",
        }
    }

    /// The tool of this name, where there is one.
    pub fn of_name(name: &str) -> Option<Tool>
        ensures { MatchOption result ((tool : ATool) → name.now ≢ tool_name tool) (λ tool. name.now ≡ tool_name tool) }
    {
        TOOLS.iter().find(|tool| tool.name() == name).copied()
    }
}
