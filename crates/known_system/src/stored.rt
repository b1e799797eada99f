//! A file in memory, with its path, and links.
ghost use Rattle.std.specs.Option.{option_copied};
ghost use Rattle.std.specs.Prelude.{◌≡◌};
ghost use Rattle.std.specs.String.{string_bytes};
ghost use Rattle.known_system.specs.Prelude.{links_by_path, stored, is_at, is_free, unless_at, with_path, with_bytes, bytes_of};

/// A link.
#[derive(Clone, Copy, Drop)]
pub struct Link<'a> {
    /// Where it is.
    pub path: &'a str,
    /// Its text: where it leads, from its folder or from the root.
    pub to: &'a str,
}

/// A file in memory, with its path.
#[derive(Drop)]
pub(crate) struct Stored {
    pub(crate) path: String,
    pub(crate) bytes: Vec<u8>,
}

/// Whether a file is there, and at this path.
pub(crate) fn is_at(file: &Option<Stored>, path: &str) -> bool
    ensures { result ≡ is_at (stored file.now) path.now }
{
    match file {
        Some(file) => file.path.as_str() == path,
        None => false,
    }
}

/// Whether no file is there, or one at this path.
pub(crate) fn is_free(file: &Option<Stored>, path: &str) -> bool
    ensures { result ≡ is_free (stored file.now) path.now }
{
    match file {
        Some(file) => file.path.as_str() == path,
        None => true,
    }
}

/// The file, unless it is at this path.
pub(crate) fn unless_at(file: Option<Stored>, path: &str) -> Option<Stored>
    ensures { stored result ≡ unless_at path.now (stored file) }
{
    let file = file?;
    if file.path.as_str() == path {
        None
    } else {
        Some(file)
    }
}

/// The file with another path.
pub(crate) fn with_path(file: Option<Stored>, path: String) -> Option<Stored>
    ensures { stored result ≡ with_path (string_bytes path) (stored file) }
{
    let file = file?;
    Some(Stored {
        path,
        bytes: file.bytes,
    })
}

/// The file with other bytes.
pub(crate) fn with_bytes(file: Option<Stored>, bytes: Vec<u8>) -> Option<Stored>
    ensures { stored result ≡ with_bytes bytes.items (stored file) }
{
    let file = file?;
    Some(Stored {
        path: file.path,
        bytes,
    })
}

/// The text of the first link at this path.
pub(crate) fn link_at<'a>(links: &'a [Link<'a>], path: &str) -> Option<&'a str>
    ensures { option_copied result ≡ bytes_of (links_by_path links.now) path.now }
{
    for link in links {
        if link.path == path {
            return Some(link.to);
        }
    }
    None
}
