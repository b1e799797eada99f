//! Opening a catalogue.

ghost use Rattle.std.specs.Prelude.{◌≡◌, ◌+◌, ◌^◌, ◌<◌, List, length};
ghost use Rattle.mo_file.specs.declared.byte_order.Order.{Order};
ghost use Rattle.mo_file.specs.declared.fault.MoError.{MoError};
ghost use Rattle.pokit_c.specs.Prelude.{CatalogView, IsFirstFault, IsMoFile, IsOpened, Message, comparisons_before, index, kind};

use crate::catalog::PokitCatalog;
use crate::fault::{index, number};
use mo_file::{Meter, MoView};
use mo_lookup::open_into;

/// Checks the bytes of an MO file ("The Format of GNU MO Files"). Where they are valid, `catalog`
/// becomes the catalogue of its messages, and the result is 0. Else the result is the number of the
/// first fault, `message` is the index of the message that has it, counted from 0, and `catalog`
/// stays as it was.
#[unsafe(no_mangle)]
pub extern "C" fn pokit_catalog_open<'a>(
    catalog: &mut PokitCatalog<'a>,
    bytes: &'a [u8],
    message: &mut u32,
) -> u32
    ensures opened { result ≡ 0 → (view : CatalogView) × IsOpened catalog.new view }
    ensures same { result ≡ 0 → catalog.new.bytes.now ≡ bytes.now }
    ensures no_message { result ≡ 0 → message.new ≡ 0 }
    ensures fault { 0 < result → (fault : MoError) × (result ≡ kind fault) × (message.new ≡ index fault)
        × IsFirstFault bytes.now fault }
    ensures unchanged { 0 < result → catalog.new ≡ catalog.old }
    ensures only { (order : Order) (messages : List Message) → IsMoFile order bytes.now messages → result ≡ 0 }
{
    open(catalog, bytes, message, &mut Meter::new())
}

/// What [`pokit_catalog_open`] says. The meter counts the comparisons: as many as there are
/// messages, or those before the fault.
#[inline(always)]
fn open<'a>(
    catalog: &mut PokitCatalog<'a>,
    bytes: &'a [u8],
    message: &mut u32,
    meter: &mut Meter,
) -> u32
    requires { meter.old < 2 ^ 63 }
    ensures opened { result ≡ 0 → (view : CatalogView) × IsOpened catalog.new view }
    ensures same { result ≡ 0 → catalog.new.bytes.now ≡ bytes.now }
    ensures no_message { result ≡ 0 → message.new ≡ 0 }
    ensures fault { 0 < result → (fault : MoError) × (result ≡ kind fault) × (message.new ≡ index fault)
        × IsFirstFault bytes.now fault }
    ensures unchanged { 0 < result → catalog.new ≡ catalog.old }
    ensures only { (order : Order) (messages : List Message) → IsMoFile order bytes.now messages → result ≡ 0 }
    ensures cost { result ≡ 0 → (view : CatalogView) × IsOpened catalog.new view
        × (meter.new ≡ meter.old + length view.messages) }
    ensures cost_of_fault { 0 < result → (fault : MoError) × IsFirstFault bytes.now fault
        × (meter.new ≡ meter.old + comparisons_before fault) }
{
    match open_into(bytes, meter, &mut catalog.instructions) {
        Ok((_, rule)) => {
            catalog.bytes = bytes;
            catalog.nplurals = rule.nplurals;
            catalog.instruction_count = rule.instruction_count;
            *message = 0;
            0
        }
        Err(fault) => {
            *message = index(fault);
            number(fault)
        }
    }
}

/// How many messages a catalogue has, its header entry among them.
#[unsafe(no_mangle)]
pub extern "C" fn pokit_catalog_len(catalog: &PokitCatalog<'_>) -> u32
    requires { (view : CatalogView) × IsOpened catalog.now view }
    ensures { (view : CatalogView) → IsOpened catalog.now view → result ≡ length view.messages }
{
    MoView::open_checked(catalog.bytes).len()
}
