//! Each tool as a whole, by what its command line gives.
ghost use Rattle.std.specs.Prelude.{◌^◌, ◌<◌};
ghost use Rattle.po_tools.specs.Prelude.{RunsTool, answers_of, line_of, reached, reader_of};

use envsubst::{EntrySource, EnvsubstArguments, envsubst};
use gettext::{LookUpCommand, VariableSource, run_look_up};
use msgattrib::selection_of;
use msgcat::merge_options_of;
use msgfmt::msgfmt_options_of;
use runs::{
    Arguments, ByteIn, ByteOut, InputSource, OutputFiles, OutputSystem, ProgramFault, STANDARD,
    Tool,
};
use std::alloc::Global;

/// The MO file that msgfmt writes where the arguments name none.
const DEFAULT_OUTPUT: &str = "messages.mo";

/// Runs a tool by what its command line gives, and returns its status: the inputs are those of
/// `source`, `reader` is standard input where it is read in blocks, and all output goes to
/// `system`.
pub fn run<'a, S, R: ByteIn, F: OutputFiles, O: ByteOut, E: ByteOut, A: Arguments>(
    alloc: Global,
    tool: Tool,
    source: &mut S,
    reader: &mut R,
    system: &mut OutputSystem<F, O, E>,
    given: &'a A,
) -> Result<u8, ProgramFault<'a>>
where
    S: InputSource + VariableSource + EntrySource,
    requires calls { R.calls reader.old < 2 ^ 63 }
    requires failures { R.failures reader.old < 2 ^ 63 }
    requires out { system.old.out.failures < 2 ^ 63 }
    requires err { system.old.err.failures < 2 ^ 63 }
    ensures { RunsTool tool
        (line_of (A.flag given.now) (A.text given.now) (A.texts given.now) (A.number given.now))
        (answers_of (S.file source.old) (S.standard source.old) (S.variable source.old) (S.entries source.old)) (S.refused source.new)
        (reached (S.asked source.old)
        (reader_of (R.remaining reader.old) (R.calls reader.old) (R.failures reader.old)) system.old)
        (reached (S.asked source.new)
        (reader_of (R.remaining reader.new) (R.calls reader.new) (R.failures reader.new)) system.new) result }
{
    match tool {
        Tool::Msgfmt => {
            let options = msgfmt_options_of(given);
            let inputs = given.texts_of("FILE");
            let output = given.text_of("output-file").unwrap_or(DEFAULT_OUTPUT);
            msgfmt::run(alloc, source, system, inputs, output, &options)
        }
        Tool::Msgunfmt => {
            let input = given.text_of("FILE").unwrap_or(STANDARD);
            let output = given.text_of("output-file").unwrap_or(STANDARD);
            msgunfmt::run(alloc, source, system, input, output)
        }
        Tool::Msgattrib => {
            let selection = selection_of(given);
            let input = given.text_of("FILE").unwrap_or(STANDARD);
            let output = given.text_of("output-file").unwrap_or(STANDARD);
            msgattrib::run(alloc, source, system, input, output, &selection)
        }
        Tool::Msgcat => {
            let options = merge_options_of(given);
            let inputs = given.texts_of("FILE");
            let output = given.text_of("output-file").unwrap_or(STANDARD);
            msgcat::run(alloc, source, system, inputs, output, &options)
        }
        Tool::Gettext => {
            let command = LookUpCommand::of_gettext(given)?;
            run_look_up(alloc, source, system, &command)
        }
        Tool::Ngettext => {
            let command = LookUpCommand::of_ngettext(given)?;
            run_look_up(alloc, source, system, &command)
        }
        Tool::Envsubst => {
            let arguments = EnvsubstArguments::given(given)?;
            envsubst(alloc, &*source, reader, &mut system.out, arguments)?;
            Ok(0)
        }
    }
}
