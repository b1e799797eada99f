//! Where the catalogues of a text domain lie ("Invoking the gettext program" and "Locating Message
//! Catalog Files" of the GNU gettext manual).
ghost use Rattle.std.specs.Prelude.{◌≡◌, map, IfOk, OnErr, Err};
ghost use Rattle.std.specs.Option.{option_copied};
ghost use Rattle.gettext.specs.Prelude.{path_of, paths_of};

use crate::candidates::{Environment, locale_candidates, non_empty};
use locale_names::is_path_part;
use runs::ToolFault;
use std::alloc::Global;

/// The folder that the catalogues lie below where TEXTDOMAINDIR is unset or empty.
pub const DEFAULT_FOLDER: &[u8] = b"/usr/share/locale";

/// The paths of the catalogues of a text domain, the first to be asked first. The domain is
/// `argument`, the one among the arguments, else `option`, that of `-d`, else that of TEXTDOMAIN.
/// There is no path where there is no domain, or where it is empty or has a slash. The folder is
/// that of TEXTDOMAINDIR, or `DEFAULT_FOLDER` where that is unset or empty.
pub fn catalogue_paths(
    alloc: Global,
    argument: Option<&[u8]>,
    option: Option<&[u8]>,
    environment: &Environment<'_>,
) -> Result<Vec<Vec<u8>>, ToolFault>
    ensures paths { IfOk result (λ paths. map (λ path. path.items) paths.items
        ≡ paths_of (option_copied argument.entry) (option_copied option.entry) environment.now) }
    ensures memory { OnErr result (result ≡ Err ToolFault.OutOfMemory) }
{
    let domain = match argument.or(option).or(environment.textdomain) {
        Some(domain) if is_path_part(domain) => domain,
        _ => return Ok(Vec::new(alloc)),
    };
    let folder = non_empty(environment.textdomaindir).unwrap_or(DEFAULT_FOLDER);
    let locales = locale_candidates(alloc, environment)?;
    let mut paths = Vec::new(alloc);
    for locale in &locales {
        paths.push(catalogue_path(alloc, folder, locale, domain)?)?;
    }
    Ok(paths)
}

/// Where the catalogue of a domain lies for a locale: `DIR/LOCALE/LC_MESSAGES/DOMAIN.mo`, with
/// each part as it is.
pub fn catalogue_path(
    alloc: Global,
    dir: &[u8],
    locale: &[u8],
    domain: &[u8],
) -> Result<Vec<u8>, ToolFault>
    ensures path { IfOk result (λ path. path.items ≡ path_of dir.now locale.now domain.now) }
    ensures memory { OnErr result (result ≡ Err ToolFault.OutOfMemory) }
{
    let mut path = Vec::from_slice(alloc, dir)?;
    path.extend_from_slice(b"/")?;
    path.extend_from_slice(locale)?;
    path.extend_from_slice(b"/LC_MESSAGES/")?;
    path.extend_from_slice(domain)?;
    path.extend_from_slice(b".mo")?;
    Ok(path)
}
