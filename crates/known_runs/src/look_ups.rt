//! Look-ups in a catalogue that is compiled from a text.
ghost use Rattle.std.specs.Prelude.{◌≡◌, ◌∷◌, [], MatchResult, map};
ghost use Rattle.known_runs.specs.Internal.{AsksFor};
ghost use Rattle.known_runs.specs.Prelude.{EndsLookUp, Query, counted, end_of, message, plain, status_or_memory};
ghost use Rattle.po_compile.specs.Prelude.{IsCompileFault};

use crate::in_memory::{Ended, run_in_memory};
use crate::words::Words;
use known_system::laws::{run_leaves_all_or_nothing, same_system_holds_the_same};
use known_system::{KnownFiles, KnownSource, Named, Questions};
use mo_file::Order;
use mo_file::laws::{no_fault_of_mo_file, one_message_list};
use po_compile::{Options, compile_all};
use po_entry::JoinError;
use runs::{ProgramFault, Tool};
use std::alloc::Global;

/// Where the catalogue of `hello` is in French.
const HELLO_MO: &str = "/usr/share/locale/fr/LC_MESSAGES/hello.mo";

/// The options of msgfmt without any.
const PLAIN: Options = Options {
    use_fuzzy: false,
    order: Order::Little,
};

/// Compiles this text, and runs `gettext hello MSGID` in French over the catalogue.
pub fn gettext_in_memory(alloc: Global, text: &[u8], msgid: &str) -> Result<Ended, JoinError>
    ensures { MatchResult result (λ ended. EndsLookUp text.now (message msgid.now) (end_of ended))
        (IsCompileFault plain (text.now ∷ [])) }
{
    in_hello(alloc, Tool::Gettext, text, &["hello", msgid])
}

/// Compiles this text, and runs `ngettext hello MSGID MSGID-PLURAL COUNT` in French over the
/// catalogue.
pub fn ngettext_in_memory(
    alloc: Global,
    text: &[u8],
    msgid: &str,
    plural: &str,
    count: &str,
) -> Result<Ended, JoinError>
    ensures { MatchResult result
        (λ ended. EndsLookUp text.now (counted msgid.now plural.now count.now) (end_of ended))
        (IsCompileFault plain (text.now ∷ [])) }
{
    in_hello(
        alloc,
        Tool::Ngettext,
        text,
        &["hello", msgid, plural, count],
    )
}

/// Compiles this text, and runs a tool by these operands in French, where the catalogue is that of
/// `hello`.
fn in_hello(alloc: Global, tool: Tool, text: &[u8], operands: &[&str]) -> Result<Ended, JoinError>
    ensures { (query : Query) → AsksFor (map (λ operand. operand.now) operands.now) tool query
        → MatchResult result (λ ended. EndsLookUp text.now query (end_of ended)) (IsCompileFault plain (text.now ∷ [])) }
{
    let compiled = compile_all(alloc, &[text], PLAIN)?;
    run_leaves_all_or_nothing();
    same_system_holds_the_same();
    no_fault_of_mo_file();
    one_message_list();
    let named = [
        Named {
            name: HELLO_MO,
            bytes: compiled.bytes.as_slice(),
        },
        Named {
            name: "LANG",
            bytes: b"fr",
        },
    ];
    // no file has the name of a variable that is asked for, and no variable that of a file
    let mut source = KnownSource {
        files: &named,
        standard: &[],
        variables: &named,
        entries: &[],
        asked: Questions::new(),
    };
    let words = Words {
        operands,
        output: None,
    };
    let none = KnownFiles::new(alloc);
    let (result, reached) = run_in_memory(alloc, tool, &mut source, none, &words);
    Ok(Ended {
        result: status_or_memory(result),
        file: None,
        out: reached.out,
        err: reached.err,
    })
}

/// The status, or out of memory.
fn status_or_memory(ran: Result<u8, ProgramFault<'_>>) -> Result<u8, ProgramFault<'static>>
    ensures { result ≡ status_or_memory ran.entry }
{
    match ran {
        Ok(status) => Ok(status),
        Err(_) => Err(ProgramFault::OutOfMemory),
    }
}
