//! What gettext and ngettext write: the answers of a chain of catalogues.
ghost use Rattle.std.specs.Prelude.{◌≡◌, ◌^◌, ◌<◌, ◌≤◌, ◌++◌, None, Some, length, IfOk, MatchOption, OnOk, OnErr, Err};
ghost use Rattle.std.specs.List.{list_any};
ghost use Rattle.std.specs.Option.{option_copied};
ghost use Rattle.mo_file.specs.Prelude.{IsFirstFault};
ghost use Rattle.mo_lookup.specs.Prelude.{chain_answered, given};
ghost use Rattle.gettext.specs.Prelude.{gettext_view, named_files, ngettext_view, request_view, run_view};
ghost use Rattle.gettext.specs.Internal.Plan.{Joins};
ghost use Rattle.gettext.specs.Plan as Spec;
ghost use Rattle.gettext.specs.Plan.{for_count, for_messages};

use crate::catalogues::bytes_of;
use crate::count::count_of;
use crate::escape::expand;
use mo_file::{Meter, MoError};
use mo_lookup::{Catalog, Chain};
use runs::{Run, ToolFault, push_location, push_mo_text};
use std::alloc::{AllocError, Global};

/// What `gettext` is asked for, as its arguments were given.
#[derive(Clone, Copy)]
pub struct GettextOptions<'a> {
    /// The MSGIDs: one without `shell`.
    pub messages: &'a [&'a str],
    /// `-c`: the context of all of them.
    pub context: Option<&'a str>,
    /// `-e`: escapes in the MSGIDs are expanded.
    pub expand: bool,
    /// `-n`: no newline ends the output of `-s`.
    pub no_newline: bool,
    /// `-s`: the answers are written with a space between two, and a newline.
    pub shell: bool,
}

/// What `ngettext` is asked for, as its arguments were given.
#[derive(Clone, Copy)]
pub struct NgettextOptions<'a> {
    /// `-c`: the context.
    pub context: Option<&'a str>,
    /// `-e`: escapes in MSGID and MSGID-PLURAL are expanded.
    pub expand: bool,
    /// MSGID.
    pub id: &'a str,
    /// MSGID-PLURAL.
    pub plural: &'a str,
    /// COUNT: decimal digits below 2^64; any other text is taken as 99.
    pub count: &'a str,
}

/// What is looked up in catalogues.
#[derive(Clone, Copy)]
pub enum LookUp<'a> {
    /// By `gettext`: messages.
    Messages(GettextOptions<'a>),
    /// By `ngettext`: the plural form of a message for a count.
    PluralForm(NgettextOptions<'a>),
}

/// Opens a file, whose catalogue joins the others; or the fault for which it is refused. A
/// catalogue is large, so it is opened where it stays.
#[inline(never)]
fn join<'a>(catalogs: &mut Vec<Catalog<'a>>, bytes: &'a [u8]) -> Result<Option<MoError>, AllocError>
    ensures { IfOk result (λ fault. MatchOption fault (Joins bytes.now catalogs.old.items catalogs.new.items)
        (λ fault. IsFirstFault bytes.now fault × (catalogs.new.items ≡ catalogs.old.items))) }
{
    let catalog = catalogs.push_mut(Catalog::empty())?;
    let Err(fault) = catalog.reopen(bytes, &mut Meter::new()) else {
        return Ok(None);
    };
    catalogs.truncate(catalogs.len() - 1);
    Ok(Some(fault))
}

/// Opens each file, in order: the catalogues, and the lines that report the files that are none.
fn open_all<'a>(
    alloc: Global,
    tool: &str,
    files: &[(&str, &'a [u8])],
) -> Result<(Vec<Catalog<'a>>, Vec<u8>), AllocError>
    ensures opens { IfOk result (λ opened. Spec.Opens tool.now (named_files files.now) opened.0.items opened.1.items) }
    ensures few { IfOk result (λ opened. length opened.0.items ≤ length files.now) }
{
    let mut catalogs = Vec::with_capacity(alloc, files.len())?;
    let mut messages = Vec::new(alloc);
    for (name, bytes) in files {
        let Some(fault) = join(&mut catalogs, bytes)? else {
            continue;
        };
        push_location(&mut messages, tool, name, 0)?;
        push_mo_text(&mut messages, fault)?;
        messages.extend_from_slice(b"\n")?;
    }
    Ok((catalogs, messages))
}

/// Appends the answer to a msgid, or to a msgid, a plural and a count where a plural form is asked
/// for.
fn push_text<'a, 'q>(
    output: &mut Vec<u8>,
    chain: &Chain<'_, 'a>,
    context: Option<&str>,
    id: &'q [u8],
    plural: Option<(&'q [u8], u64)>,
) -> Result<(), AllocError>
where
    'a: 'q,
    ensures { OnOk result (output.new.items ≡ output.old.items
        ++ (chain_answered chain.now (record {
          context = option_copied context.entry;
          id = id.now;
          plural = given plural.entry;
        })).text) }
{
    let answer = chain.look(bytes_of(context), id, plural, &mut Meter::new());
    output.extend_from_slice(answer.text)
}

/// Appends the answer to a MSGID, and says whether a `\c` is expanded in it.
fn push_answer(
    alloc: Global,
    output: &mut Vec<u8>,
    chain: &Chain<'_, '_>,
    options: &GettextOptions<'_>,
    argument: &str,
) -> Result<bool, ToolFault>
    ensures answer { OnOk result (output.new.items ≡ output.old.items
        ++ Spec.argument_answer chain.now (gettext_view options.now) argument.now) }
    ensures no_newline { IfOk result (λ omitted. omitted ≡ Spec.omits_newline (gettext_view options.now) argument.now) }
    ensures memory { OnErr result (result ≡ Err ToolFault.OutOfMemory) }
{
    if !options.expand {
        push_text(output, chain, options.context, argument.as_bytes(), None)?;
        return Ok(false);
    }
    let expanded = expand(alloc, argument.as_bytes())?;
    push_text(output, chain, options.context, &expanded.bytes, None)?;
    Ok(expanded.no_newline)
}

/// Appends the answers to the MSGIDs, with a space between two, and says whether a `\c` is expanded
/// in one.
fn push_answers(
    alloc: Global,
    output: &mut Vec<u8>,
    chain: &Chain<'_, '_>,
    options: &GettextOptions<'_>,
) -> Result<bool, ToolFault>
    ensures answers { OnOk result (output.new.items ≡ output.old.items
        ++ Spec.answers chain.now (gettext_view options.now)) }
    ensures no_newline { IfOk result (λ omitted. omitted
        ≡ list_any (Spec.omits_newline (gettext_view options.now)) (gettext_view options.now).arguments) }
    ensures memory { OnErr result (result ≡ Err ToolFault.OutOfMemory) }
{
    let Some((first, others)) = options.messages.split_first() else {
        return Ok(false);
    };
    let mut omitted = push_answer(alloc, output, chain, options, first)?;
    for argument in others {
        output.push(b' ')?;
        if push_answer(alloc, output, chain, options, argument)? {
            omitted = true;
        }
    }
    Ok(omitted)
}

/// Appends the answer to MSGID, MSGID-PLURAL and COUNT.
fn push_plural_answer(
    alloc: Global,
    output: &mut Vec<u8>,
    chain: &Chain<'_, '_>,
    options: &NgettextOptions<'_>,
) -> Result<(), ToolFault>
    ensures answer { OnOk result (output.new.items ≡ output.old.items
        ++ Spec.ngettext_output chain.now (ngettext_view options.now)) }
    ensures memory { OnErr result (result ≡ Err ToolFault.OutOfMemory) }
{
    let count = count_of(options.count.as_bytes());
    if !options.expand {
        let plural = Some((options.plural.as_bytes(), count));
        push_text(
            output,
            chain,
            options.context,
            options.id.as_bytes(),
            plural,
        )?;
        return Ok(());
    }
    let id = expand(alloc, options.id.as_bytes())?.bytes;
    let plural = expand(alloc, options.plural.as_bytes())?.bytes;
    push_text(output, chain, options.context, &id, Some((&plural, count)))?;
    Ok(())
}

/// What `gettext` or `ngettext` writes over the catalogues that could be read, in the order in
/// which they are asked: the answers, each a translation or what was given (for a count of 1 MSGID,
/// and MSGID-PLURAL for any other); on standard error a line for each catalogue that is refused and
/// so omitted. Refused only where an allocation failed.
pub fn plan_look_up(
    alloc: Global,
    catalogues: &[(&str, &[u8])],
    request: &LookUp<'_>,
) -> Result<Run, ToolFault>
    requires { length catalogues.now < 2 ^ 32 }
    ensures run { IfOk result (λ run. Spec.IsLookUpRun (named_files catalogues.now) (request_view request.now)
        (run_view run)) }
    ensures memory { OnErr result (result ≡ Err ToolFault.OutOfMemory) }
{
    let tool = match request {
        LookUp::Messages(_) => "gettext",
        LookUp::PluralForm(_) => "ngettext",
    };
    let (catalogs, messages) = open_all(alloc, tool, catalogues)?;
    let chain = Chain::new(&catalogs);
    let mut output = Vec::new(alloc);
    match request {
        LookUp::Messages(options) => {
            let omitted = push_answers(alloc, &mut output, &chain, options)?;
            if options.shell && !options.no_newline && !omitted {
                output.push(b'\n')?;
            }
        }
        LookUp::PluralForm(options) => push_plural_answer(alloc, &mut output, &chain, options)?,
    }
    Ok(Run {
        output,
        create: false,
        messages,
        status: 0,
    })
}

/// What `gettext` writes, by `plan_look_up`.
pub fn plan_gettext(
    alloc: Global,
    catalogues: &[(&str, &[u8])],
    options: &GettextOptions<'_>,
) -> Result<Run, ToolFault>
    requires { length catalogues.now < 2 ^ 32 }
    ensures run { IfOk result (λ run. Spec.IsLookUpRun (named_files catalogues.now)
        (for_messages (gettext_view options.now)) (run_view run)) }
    ensures memory { OnErr result (result ≡ Err ToolFault.OutOfMemory) }
{
    plan_look_up(alloc, catalogues, &LookUp::Messages(*options))
}

/// What `ngettext` writes, by `plan_look_up`.
pub fn plan_ngettext(
    alloc: Global,
    catalogues: &[(&str, &[u8])],
    options: &NgettextOptions<'_>,
) -> Result<Run, ToolFault>
    requires { length catalogues.now < 2 ^ 32 }
    ensures run { IfOk result (λ run. Spec.IsLookUpRun (named_files catalogues.now)
        (for_count (ngettext_view options.now)) (run_view run)) }
    ensures memory { OnErr result (result ≡ Err ToolFault.OutOfMemory) }
{
    plan_look_up(alloc, catalogues, &LookUp::PluralForm(*options))
}
