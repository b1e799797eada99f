//! Commands that make a file.
ghost use Rattle.std.specs.Prelude.{codes, option_map};
ghost use Rattle.known_runs.specs.Prelude.{EndsInFile, EndsMsgfmt, EndsThroughLinks, IsMsgattribRun, IsMsgcatRun, IsMsgunfmtRunOf, all_as_they_are, all_messages, end_of, links_by_path, texts_by_name, two_files};
ghost use Rattle.known_runs.specs.Internal.{EndsOverFiles};

use crate::in_memory::{Ended, run_in_memory};
use crate::words::Words;
use known_system::laws::{run_leaves_all_or_nothing, same_system_holds_the_same};
use known_system::{KnownFiles, KnownSource, Link, Named, Told};
use runs::{ProgramFault, Tool};
use std::alloc::Global;

/// The words of `msgfmt a.po -o a.mo`.
static MSGFMT: Words<'static> = Words {
    operands: &["a.po"],
    output: Some("a.mo"),
};

/// Runs `msgfmt a.po -o a.mo`, where `a.po` has this text and `a.mo` holds these bytes, or isn't
/// there.
pub fn msgfmt_in_memory(alloc: Global, text: &[u8], held: Option<Vec<u8>>) -> Ended
    ensures { EndsMsgfmt text.now (option_map (λ bytes. bytes.items) held) (end_of result) }
{
    let files = [Named {
        name: "a.po",
        bytes: text,
    }];
    over_files(alloc, Tool::Msgfmt, &MSGFMT, &files, &[], "a.mo", held)
}

/// Runs `msgfmt a.po -o a.mo` in a folder with these links, where `a.po` has this text and the file
/// at `place` holds these bytes, or isn't there. The file that it returns is the one at `place`.
pub fn msgfmt_through_links_in_memory(
    alloc: Global,
    text: &[u8],
    links: &[Link<'_>],
    place: &str,
    held: Option<Vec<u8>>,
) -> Ended
    ensures { EndsThroughLinks (links_by_path links.now) place.now text.now
        (option_map (λ bytes. bytes.items) held) (end_of result) }
{
    let files = [Named {
        name: "a.po",
        bytes: text,
    }];
    over_files(alloc, Tool::Msgfmt, &MSGFMT, &files, links, place, held)
}

/// The words of `msgattrib a.po -o b.po`.
static MSGATTRIB: Words<'static> = Words {
    operands: &["a.po"],
    output: Some("b.po"),
};

/// Runs `msgattrib a.po -o b.po`, where `a.po` has this text and `b.po` holds these bytes, or isn't
/// there.
pub fn msgattrib_in_memory(alloc: Global, text: &[u8], held: Option<Vec<u8>>) -> Ended
    ensures { EndsInFile (IsMsgattribRun (codes "a.po") all_as_they_are text.now) (codes "b.po")
        (option_map (λ bytes. bytes.items) held) (end_of result) }
{
    let files = [Named {
        name: "a.po",
        bytes: text,
    }];
    over_files(
        alloc,
        Tool::Msgattrib,
        &MSGATTRIB,
        &files,
        &[],
        "b.po",
        held,
    )
}

/// The words of `msgunfmt a.mo -o a.po`.
static MSGUNFMT: Words<'static> = Words {
    operands: &["a.mo"],
    output: Some("a.po"),
};

/// Runs `msgunfmt a.mo -o a.po`, where `a.mo` has these bytes and `a.po` holds these, or isn't
/// there.
pub fn msgunfmt_in_memory(alloc: Global, bytes: &[u8], held: Option<Vec<u8>>) -> Ended
    ensures { EndsInFile (IsMsgunfmtRunOf (codes "a.mo") bytes.now) (codes "a.po")
        (option_map (λ bytes. bytes.items) held) (end_of result) }
{
    let files = [Named {
        name: "a.mo",
        bytes,
    }];
    over_files(alloc, Tool::Msgunfmt, &MSGUNFMT, &files, &[], "a.po", held)
}

/// The words of `msgcat a.po b.po -o c.po`.
static MSGCAT: Words<'static> = Words {
    operands: &["a.po", "b.po"],
    output: Some("c.po"),
};

/// Runs `msgcat a.po b.po -o c.po`, where `a.po` and `b.po` have these texts and `c.po` holds these
/// bytes, or isn't there.
pub fn msgcat_in_memory(alloc: Global, a: &[u8], b: &[u8], held: Option<Vec<u8>>) -> Ended
    ensures { EndsInFile (IsMsgcatRun (two_files a.now b.now) all_messages) (codes "c.po")
        (option_map (λ bytes. bytes.items) held) (end_of result) }
{
    let files = [
        Named {
            name: "a.po",
            bytes: a,
        },
        Named {
            name: "b.po",
            bytes: b,
        },
    ];
    over_files(alloc, Tool::Msgcat, &MSGCAT, &files, &[], "c.po", held)
}

/// Runs a tool by these words over these files, in a folder with these links, where the file at
/// `place` holds these bytes, or isn't there. The file that it returns is the one at `place`.
fn over_files(
    alloc: Global,
    tool: Tool,
    words: &'static Words<'static>,
    files: &[Named<'_>],
    links: &[Link<'_>],
    place: &str,
    held: Option<Vec<u8>>,
) -> Ended
    ensures { EndsOverFiles tool words.now (texts_by_name files.now) (links_by_path links.now) place.now
        (option_map (λ bytes. bytes.items) held) (end_of result) }
{
    let path = match String::from_str(alloc, place) {
        Ok(path) => path,
        Err(why) => {
            return Ended {
                result: Err(ProgramFault::from(why)),
                file: held,
                out: Told::new(alloc),
                err: Told::new(alloc),
            };
        }
    };
    run_leaves_all_or_nothing();
    same_system_holds_the_same();
    let mut source = KnownSource::new(files);
    let folder = KnownFiles::holding(alloc, links, path, held);
    let (result, reached) = run_in_memory(alloc, tool, &mut source, folder, words);
    Ended {
        result,
        file: reached.files.into_bytes(place),
        out: reached.out,
        err: reached.err,
    }
}
