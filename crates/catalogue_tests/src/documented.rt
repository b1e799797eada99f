//! The examples of docs/CRATES.md, as they stand there.

use crate::assertions::assert_text;
use mo_file::{Meter, MoError, Order};
use mo_lookup::Catalog;
use po_catalog::{Entry, duplicates, read, write};
use po_compile::{Options, compile};
use po_syntax::PoError;
use std::alloc::Global;
use std::test::Fail;

fn three_books<'a>(file: &'a [u8]) -> Result<&'a [u8], MoError> {
    let catalog = Catalog::open(file, &mut Meter::new())?;
    let plural = Some((b"%d books".as_slice(), 3));
    let answer = catalog.look(None, b"%d book", plural, &mut Meter::new());
    Ok(answer.text)
}

fn with_a_button(alloc: Global, text: &[u8]) -> Result<Vec<u8>, PoError> {
    let mut catalogue = read(alloc, text)?;
    let mut entry = Entry::message(alloc, Some(b"button"), b"Close", None, &[b"Zu"])?;
    entry.set_fuzzy(true);
    catalogue.push(entry).map_err(|(_, fault)| fault)?;
    duplicates(alloc, &catalogue)?;
    write(alloc, &catalogue)
}

const BOOKS: &[u8] =
    b"msgid \"\"\nmsgstr \"Plural-Forms: nplurals=2; plural=n != 1;\\n\"\n\nmsgid \"%d book\"\nmsgid_plural \"%d books\"\nmsgstr[0] \"%d Buch\"\nmsgstr[1] \"%d B\xc3\xbccher\"\n";

const LITTLE: Options = Options {
    use_fuzzy: false,
    order: Order::Little,
};

#[test]
fn a_translation_is_looked_up(rt: HostRuntime) -> Result<(), Fail> {
    let compiled = compile(rt.alloc(), BOOKS, LITTLE)?;
    assert_eq!(rt;
        three_books(compiled.bytes.as_slice()),
        Ok(b"%d B\xc3\xbccher".as_slice())
    );
    Ok(())
}

#[test]
fn a_message_is_added(rt: HostRuntime) -> Result<(), Fail> {
    let text = b"# about\nmsgid \"a\"\nmsgstr \"b\"\n";
    let written = with_a_button(rt.alloc(), text)?;
    let wanted =
        b"# about\nmsgid \"a\"\nmsgstr \"b\"\n\n#, fuzzy\nmsgctxt \"button\"\nmsgid \"Close\"\nmsgstr \"Zu\"\n";
    assert_text(&rt, &written, wanted);
    Ok(())
}
