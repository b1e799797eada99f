//! Looking up a message.

ghost use Rattle.std.specs.Prelude.{◌≡◌, ◌+◌, ◌^◌, ◌<◌, ◌≤◌, length, false};
ghost use Rattle.pokit_c.specs.Prelude.{CatalogView, IsOfQuery, IsOpened, IsTerminated, answer_view, answered, can_be_key, nodes, query_comparisons, query_view, search_bound};

use crate::catalog::PokitCatalog;
use crate::query::{PokitLocated, PokitQuery};
use mo_file::{Meter, MoView};
use mo_lookup::{Steps, ViewMessages, locate};

/// Looks up a message in a catalogue that was opened, as mo_lookup's `locate` does ("Plural
/// forms"). `located` says where the text of the answer is: in the file's bytes, or that it is the
/// query's msgid or plural.
#[unsafe(no_mangle)]
pub extern "C" fn pokit_catalog_look(
    catalog: &PokitCatalog<'_>,
    query: &PokitQuery<'_>,
    located: &mut PokitLocated,
)
    requires { (view : CatalogView) × IsOpened catalog.now view }
    ensures answered { (view : CatalogView) → IsOpened catalog.now view
        → answer_view catalog.now.bytes.now query.now located.new ≡ answered view (query_view query.now) }
    ensures terminated { IsTerminated catalog.now.bytes.now located.new }
    ensures of_query { IsOfQuery query.now located.new }
    ensures comparisons { (view : CatalogView) → IsOpened catalog.now view
        → located.new.comparisons ≡ query_comparisons view.messages (query_view query.now) }
    ensures bound { (view : CatalogView) → IsOpened catalog.now view
        → located.new.comparisons ≤ search_bound (length view.messages) }
    ensures no_key { can_be_key (query_view query.now).context query.now.id.now ≡ false
        → located.new.comparisons ≡ 0 }
    ensures nodes { (view : CatalogView) → IsOpened catalog.now view
        → located.new.steps ≤ nodes view.rule.tree }
{
    *located = look(catalog, query, &mut Meter::new(), &mut Steps::new());
}

/// What [`pokit_catalog_look`] says. The meter counts the comparisons, and the other counter the
/// steps.
#[inline(always)]
fn look(
    catalog: &PokitCatalog<'_>,
    query: &PokitQuery<'_>,
    meter: &mut Meter,
    steps: &mut Steps,
) -> PokitLocated
    requires opened { (view : CatalogView) × IsOpened catalog.now view }
    requires room { meter.old < 2 ^ 63 }
    requires room_of_steps { steps.old < 2 ^ 63 }
    ensures counted { meter.new ≡ meter.old + result.comparisons }
    ensures counted_steps { steps.new ≡ steps.old + result.steps }
    ensures answered { (view : CatalogView) → IsOpened catalog.now view
        → answer_view catalog.now.bytes.now query.now result ≡ answered view (query_view query.now) }
    ensures terminated { IsTerminated catalog.now.bytes.now result }
    ensures of_query { IsOfQuery query.now result }
    ensures comparisons { (view : CatalogView) → IsOpened catalog.now view
        → result.comparisons ≡ query_comparisons view.messages (query_view query.now) }
    ensures bound { (view : CatalogView) → IsOpened catalog.now view
        → result.comparisons ≤ search_bound (length view.messages) }
    ensures no_key { can_be_key (query_view query.now).context query.now.id.now ≡ false
        → result.comparisons ≡ 0 }
    ensures nodes { (view : CatalogView) → IsOpened catalog.now view
        → result.steps ≤ nodes view.rule.tree }
{
    let view = MoView::open_checked(catalog.bytes);
    let found = locate(
        &mut ViewMessages { view: &view, meter },
        catalog.nplurals,
        catalog.program(),
        query.context(),
        query.id,
        query.plural(),
        steps,
    );
    PokitLocated::of(found)
}
