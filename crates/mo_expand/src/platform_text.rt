//! The texts of a platform.

ghost use Rattle.std.specs.Prelude.{◌≡◌};
ghost use Rattle.std.specs.Option.{option_copied};
ghost use Rattle.mo_expand.specs.Prelude.{text_of};

/// The text that a platform has for a name: for `PRIu64` it may be `lu`.
#[repr(C)]
#[derive(Clone, Copy, Drop)]
pub struct PlatformText<'t> {
    /// The name, without the `<` and `>` that stand round it in a message.
    pub name: &'t [u8],
    /// What stands in its place.
    pub text: &'t [u8],
}

/// The text of the first that has this name.
pub(crate) fn text_of<'t>(texts: &[PlatformText<'t>], name: &[u8]) -> Option<&'t [u8]>
    ensures { option_copied result ≡ text_of texts.now name.now }
{
    for it in texts {
        if it.name == name {
            return Some(it.text);
        }
    }
    None
}
