//! msgfmt, msgunfmt and msgattrib over a reader, of their only input, and two writers.
ghost use Rattle.std.specs.Prelude.{◌^◌, ◌<◌};
ghost use Rattle.po_tools.specs.Prelude.{IsMsgattribRun, IsMsgfmtRunOf, RunsOver, reader_of};
ghost use Rattle.msgunfmt.specs.Prelude.{IsMsgunfmtRunOf};
ghost use Rattle.runs.specs.Prelude.{writer};

use msgattrib::{Selection, plan_msgattrib};
use msgfmt::{MsgfmtOptions, plan_msgfmt};
use msgunfmt::plan_msgunfmt;
use runs::{ByteIn, ByteOut, ToolFault, deliver, read_input};
use std::alloc::Global;

/// Reads one input, plans as `plan_msgfmt` does with this name, and writes the run: its output and
/// then its messages. Returns the run's status. After a `ReadFault`, or out of memory, nothing is
/// written; after a `WriteFault` a prefix is, as `deliver` says.
pub fn run_msgfmt<R: ByteIn, O: ByteOut, E: ByteOut>(
    alloc: Global,
    reader: &mut R,
    out: &mut O,
    err: &mut E,
    name: &str,
    options: &MsgfmtOptions,
) -> Result<u8, ToolFault>
    requires calls { R.calls reader.old < 2 ^ 63 }
    requires read_failures { R.failures reader.old < 2 ^ 63 }
    requires out_failures { O.failures out.old < 2 ^ 63 }
    requires err_failures { E.failures err.old < 2 ^ 63 }
    ensures { RunsOver (IsMsgfmtRunOf name.now options.now)
        (reader_of (R.remaining reader.old) (R.calls reader.old) (R.failures reader.old))
        (reader_of (R.remaining reader.new) (R.calls reader.new) (R.failures reader.new))
        (writer (O.contents out.old) (O.failures out.old)) (writer (O.contents out.new) (O.failures out.new))
        (writer (E.contents err.old) (E.failures err.old)) (writer (E.contents err.new) (E.failures err.new)) result }
{
    let text = read_input(alloc, reader)?;
    let run = plan_msgfmt(alloc, &[(name, &text)], options)?;
    deliver(&run, out, err)?;
    Ok(run.status)
}

/// Reads a file, and plans and writes as `run_msgfmt` does, by `plan_msgunfmt`.
pub fn run_msgunfmt<R: ByteIn, O: ByteOut, E: ByteOut>(
    alloc: Global,
    reader: &mut R,
    out: &mut O,
    err: &mut E,
    name: &str,
) -> Result<u8, ToolFault>
    requires calls { R.calls reader.old < 2 ^ 63 }
    requires read_failures { R.failures reader.old < 2 ^ 63 }
    requires out_failures { O.failures out.old < 2 ^ 63 }
    requires err_failures { E.failures err.old < 2 ^ 63 }
    ensures { RunsOver (IsMsgunfmtRunOf name.now)
        (reader_of (R.remaining reader.old) (R.calls reader.old) (R.failures reader.old))
        (reader_of (R.remaining reader.new) (R.calls reader.new) (R.failures reader.new))
        (writer (O.contents out.old) (O.failures out.old)) (writer (O.contents out.new) (O.failures out.new))
        (writer (E.contents err.old) (E.failures err.old)) (writer (E.contents err.new) (E.failures err.new)) result }
{
    let bytes = read_input(alloc, reader)?;
    let run = plan_msgunfmt(alloc, &bytes, name)?;
    deliver(&run, out, err)?;
    Ok(run.status)
}

/// Reads one input, and plans and writes as `run_msgfmt` does, by `plan_msgattrib`.
pub fn run_msgattrib<R: ByteIn, O: ByteOut, E: ByteOut>(
    alloc: Global,
    reader: &mut R,
    out: &mut O,
    err: &mut E,
    name: &str,
    selection: &Selection,
) -> Result<u8, ToolFault>
    requires calls { R.calls reader.old < 2 ^ 63 }
    requires read_failures { R.failures reader.old < 2 ^ 63 }
    requires out_failures { O.failures out.old < 2 ^ 63 }
    requires err_failures { E.failures err.old < 2 ^ 63 }
    ensures { RunsOver (IsMsgattribRun name.now selection.now)
        (reader_of (R.remaining reader.old) (R.calls reader.old) (R.failures reader.old))
        (reader_of (R.remaining reader.new) (R.calls reader.new) (R.failures reader.new))
        (writer (O.contents out.old) (O.failures out.old)) (writer (O.contents out.new) (O.failures out.new))
        (writer (E.contents err.old) (E.failures err.old)) (writer (E.contents err.new) (E.failures err.new)) result }
{
    let text = read_input(alloc, reader)?;
    let run = plan_msgattrib(alloc, &text, name, selection)?;
    deliver(&run, out, err)?;
    Ok(run.status)
}
