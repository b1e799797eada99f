//! Translations that differ, joined in one with the names of their files between.

ghost use Rattle.std.specs.Prelude.{◌≡◌, ◌++◌, All, IfOk, OnOk, map};
ghost use Rattle.msgcat.specs.Prelude.{IsDefinition, marked, named_entries, texts, translations};
ghost use Rattle.msgcat.specs.Internal.JoinedTranslations.{form_lists, joined_at, joined_lists, named_forms, rests};

use crate::definition::{NamedEntry, Part, has_part};
use po_entry::FormIter;
use std::alloc::{AllocError, Global};
use std::collections::BTreeSet;

/// The forms of a translation that are left to join, with the name of its input.
#[derive(Drop)]
pub(crate) struct FormsLeft<'a> {
    /// The name.
    name: &'a str,
    /// The forms.
    forms: FormIter<'a>,
}

/// The forms of the distinct translations, each of the definition that has it first.
pub(crate) fn translations<'a>(
    alloc: Global,
    definitions: &[NamedEntry<'a>],
) -> Result<Vec<FormsLeft<'a>>, AllocError>
    requires { All IsDefinition (named_entries definitions.now) }
    ensures { IfOk result (λ found. form_lists found.items ≡ map named_forms (translations (named_entries definitions.now))) }
{
    let mut seen = BTreeSet::new(alloc);
    let mut found = Vec::new(alloc);
    for definition in definitions {
        if !has_part(&definition.entry, Part::Translation) {
            continue;
        }
        if !seen.insert(definition.entry.translation())? {
            continue;
        }
        found.push(FormsLeft {
            name: definition.name,
            forms: definition.entry.forms(),
        })?;
    }
    Ok(found)
}

/// Appends a line that names the input of a form, then the form, and a LF if it doesn't end with
/// one.
fn push_marked(joined: &mut Vec<u8>, name: &str, form: &[u8]) -> Result<(), AllocError>
    ensures { OnOk result (joined.new.items ≡ joined.old.items ++ marked name.now form.now) }
{
    joined.extend_from_slice(b"#-#-#-#-#  ")?;
    joined.extend_from_slice(name.as_bytes())?;
    joined.extend_from_slice(b"  #-#-#-#-#\n")?;
    joined.extend_from_slice(form)?;
    if form.ends_with(b"\n") {
        return Ok(());
    }
    Ok(joined.extend_from_slice(b"\n")?)
}

/// The next forms of translations, joined, and those that had one, with what is left of them.
fn joined_form<'a>(
    alloc: Global,
    translations: Vec<FormsLeft<'a>>,
) -> Result<(Vec<u8>, Vec<FormsLeft<'a>>), AllocError>
    ensures form { IfOk result (λ r. r.0.items ≡ joined_at 0 (form_lists translations.entry.items)) }
    ensures rest { IfOk result (λ r. form_lists r.1.items ≡ rests (form_lists translations.entry.items)) }
{
    let mut joined = Vec::new(alloc);
    let mut rest = Vec::new(alloc);
    for translation in translations {
        let FormsLeft { name, mut forms } = translation;
        if let Some(form) = forms.next() {
            push_marked(&mut joined, name, form)?;
            rest.push(FormsLeft { name, forms })?;
        }
    }
    Ok((joined, rest))
}

/// The forms of the translations, joined index by index.
pub(crate) fn joined_forms(
    alloc: Global,
    translations: Vec<FormsLeft<'_>>,
) -> Result<Vec<Vec<u8>>, AllocError>
    ensures { IfOk result (λ forms. texts forms.items ≡ joined_lists (form_lists translations.entry.items)) }
{
    let mut left = translations;
    let mut forms = Vec::new(alloc);
    loop {
        let (form, rest) = joined_form(alloc, left)?;
        if rest.is_empty() {
            return Ok(forms);
        }
        forms.push(form)?;
        left = rest;
    }
}
