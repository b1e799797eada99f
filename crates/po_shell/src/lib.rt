//! What stands below the tools for the shell, under one name: readers and writers that count their
//! failures (`runs`); locales, the paths of their catalogues, escapes and counts (`gettext`); and
//! the substitution of variables (`envsubst`).

#![tactic(auto)]

pub use envsubst::{
    LONGEST_NAME, MOST_READS, Substituter, name_and_value, name_lines, names, run_envsubst,
    run_envsubst_in_blocks, variables_in,
};
pub use gettext::{
    DEFAULT_FOLDER, Environment, Expanded, OTHER_COUNT, OwnedEnvironment, VariableSource,
    catalogue_path, catalogue_paths, count_of, expand, locale_candidates,
};
pub use runs::{
    ByteIn, ByteOut, Counted, Failing, INPUT_LIMIT, ToolFault, put_all, read_input, read_whole,
};
