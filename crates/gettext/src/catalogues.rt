//! The compiled catalogues of a text domain.
ghost use Rattle.std.specs.Prelude.{◌≡◌, ◌^◌, ◌<◌, IfOk, IfSome, OnErr, OnOk, length, map, option_map, take};
ghost use Rattle.std.specs.Option.{option_copied};
ghost use Rattle.gettext.specs.Prelude.{AreCatalogues, AreFound, AsksAt, AsksPaths, IsCatalogueAt, Stays, catalogue_file, catalogue_files, catalogue_limit, given_domain, named_files, searching};

use crate::environment::{OwnedEnvironment, VariableSource};
use crate::paths::catalogue_paths;
use runs::{InputFault, InputSource, ToolFault};
use std::alloc::{AllocError, Global};
use std::str;

/// A compiled catalogue's bytes, with the path that names it in fault lines.
#[derive(Drop)]
pub struct CatalogueFile {
    /// The path of the file.
    pub path: String,
    /// What was read.
    pub bytes: Vec<u8>,
}

/// Reads the catalogues of a text domain, given by an argument or by an option, in the order in
/// which the environment asks for them: those whose files can be read. Refused only where an
/// allocation failed.
pub fn find_catalogues<S: InputSource + VariableSource>(
    alloc: Global,
    source: &mut S,
    argument: Option<&str>,
    option: Option<&str>,
) -> Result<Vec<CatalogueFile>, AllocError>
    ensures { IfOk result (λ found. AreFound
        (searching (S.variable source.old) (S.file source.old) (S.asked source.old) (S.asked source.new))
        (given_domain (option_copied argument.entry) (option_copied option.entry)) (catalogue_files found.items)) }
{
    let searched = {
        let environment = OwnedEnvironment::read(alloc, &*source)?;
        catalogue_paths(
            alloc,
            bytes_of(argument),
            bytes_of(option),
            &environment.borrowed(),
        )
    };
    let paths = match searched {
        Ok(paths) => paths,
        Err(ToolFault::OutOfMemory) => return Err(AllocError),
        Err(_) => unreachable!(),
    };
    read_catalogues(alloc, source, paths.as_slice())
}

/// The bytes of a text, where there is one.
pub(crate) fn bytes_of(text: Option<&str>) -> Option<&[u8]>
    ensures { option_copied result ≡ option_copied text.entry }
{
    text.map(|text| text.as_bytes())
}

/// Reads the catalogues of these paths, in order. One that can't be read is skipped and not
/// reported, and so is a path that isn't UTF-8, which is that of no file. Refused only where an
/// allocation failed.
pub fn read_catalogues<S: InputSource>(
    alloc: Global,
    source: &mut S,
    paths: &[Vec<u8>],
) -> Result<Vec<CatalogueFile>, AllocError>
    ensures catalogues { IfOk result (λ found. AreCatalogues (S.file source.old)
        (map (λ path. path.items) paths.now) (catalogue_files found.items)) }
    ensures asked { OnOk result (AsksPaths (S.asked source.old) (map (λ path. path.items) paths.now)
        (S.asked source.new)) }

    // The catalogue that was asked for last isn't one that can't be read: that is skipped.
    ensures memory { OnErr result (S.refused source.new → ⊥) }
{
    let mut found = Vec::new(alloc);
    for path in paths {
        let Ok(name) = str::from_utf8(path) else {
            continue;
        };
        let mut bytes = Vec::new(alloc);
        if let Err(why) = source.read_file(&mut bytes, name) {
            if why == InputFault::OutOfMemory {
                return Err(AllocError);
            }
            continue;
        }
        let path = String::from_str(alloc, name)?;
        found.push(CatalogueFile { path, bytes })?;
    }
    Ok(found)
}

/// The catalogues, borrowed, with their paths for names: at most 4,294,967,295, as many as a chain
/// can count.
pub fn borrowed_catalogues(
    alloc: Global,
    catalogues: &[CatalogueFile],
) -> Result<Vec<(&str, &[u8])>, AllocError>
    ensures borrowed { IfOk result
        (λ borrowed. named_files borrowed.items ≡ take catalogue_limit (catalogue_files catalogues.now)) }
    ensures bound { IfOk result (λ borrowed. length borrowed.items < 2 ^ 32) }
{
    let mut borrowed = Vec::with_capacity(alloc, catalogues.len())?;
    for catalogue in catalogues {
        borrowed.push((catalogue.path.as_str(), catalogue.bytes.as_slice()))?;
    }
    borrowed.truncate(u32::MAX as usize);
    Ok(borrowed)
}
