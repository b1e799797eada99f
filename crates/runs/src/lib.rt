//! What the tools of pokit share: their names, readers and writers that count their failures, what
//! a run comes to and how it is delivered, inputs and outputs, options and arguments, and the lines
//! of faults.
//!
//! The modules in reading order: `tool`, `tool_fault`, `device`, `failing` for tests,
//! `whole_input`, `run`, `program_fault`, `fault_text`, `arguments`, `inputs`, `output_files`,
//! `output_paths`, `output_writing`, `output_system`, `laws`.

#![tactic(auto)]

mod arguments;
mod device;
mod failing;
mod fault_text;
mod inputs;
pub mod laws;
mod output_files;
mod output_paths;
mod output_system;
mod output_writing;
mod program_fault;
mod run;
mod tool;
mod tool_fault;
mod whole_input;

pub use arguments::Arguments;
pub use device::{ByteIn, ByteOut, Counted, put_all};
pub use failing::Failing;
pub use fault_text::{
    push_location, push_mo_text, push_numbered, push_po_text, refused_text, reported,
};
pub use inputs::{Input, InputFault, InputSource, Inputs, read_one};
pub use output_files::{FileKind, MakeFault, OutputFault, OutputFiles, Owner, Rights};
pub use output_system::OutputSystem;
pub use program_fault::{ProgramFault, report_fault};
pub use run::{Ending, Run, STANDARD, STDIN_NAME, deliver, shown_name, written};
pub use tool::{TOOLS, Tool};
pub use tool_fault::ToolFault;
pub use whole_input::{INPUT_LIMIT, read_input, read_whole};
