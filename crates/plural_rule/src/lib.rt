//! Plural rules of GNU gettext catalogues: read from a header text, and evaluated.
//!
//! The GNU gettext manual, "Plural forms", says what stands in a header, such as
//! `nplurals=2; plural=n != 1;`. The expression is one of C, over unsigned numbers of 64 bits. A
//! rule contains a program of fixed size, so neither reading nor evaluating allocates,
//! and neither takes more of the machine's stack for a deeper expression.
//!
//! [`Rule::parse`] reads a rule, [`Rule::parse_into`] into memory of the caller, and [`evaluate`]
//! computes its value at a count, with a counter that each step takes ([`Steps`]).
//!
//! The modules in reading order: `operator`, `token`, `lexer`, `steps`, `instruction`, `pending`,
//! `parser_state`, `parser`, `evaluator`, `header`, `rule`, `laws`.

#![tactic(auto)]

mod evaluator;
mod header;
mod instruction;
pub mod laws;
mod lexer;
mod operator;
mod parser;
mod parser_state;
mod pending;
mod rule;
mod steps;
mod token;

pub use evaluator::evaluate;
pub use instruction::Instruction;
pub use rule::{EXPRESSION_LIMIT, ParsedRule, Reason, Rule, Source};
pub use steps::Steps;
