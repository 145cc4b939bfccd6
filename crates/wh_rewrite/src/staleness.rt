ghost use Rattle.std.specs.List.{list_all};
ghost use Rattle.std.specs.Prelude.{◌≡◌, Some, nat_le, slice_get, zip, ℕ};
ghost use Rattle.def_history.specs.Catalog.{Catalog};
ghost use Rattle.def_history.specs.Staleness.{view_state};
ghost use Rattle.wh_image.specs.Standing.{StandsFor, changed_at};
ghost use Rattle.wh_rewrite.specs.Served.{is_still, seen_state, state_since};
ghost use Rattle.wh_view.specs.Kept.{AllKept};

use wh_base::tables::TableDef;
use wh_base::views::ViewState;
use wh_table::Tables;
use wh_view::KeptView;

/// Whether a view holds what its definition means now: UNBUILT, FRESH or STALE of the Data Warehousing Guide. It is never PARTLY,
/// since no table is partitioned. It costs a look at each of the view's tables.
pub fn state<L>(view: &KeptView, tables: &Tables<L>) -> ViewState
    ensures { (c : Catalog) (views : AllKept) (n : ℕ) → StandsFor tables.now.scn tables.now.tables.items views c → slice_get views.views n ≡ Some view.now → result ≡ view_state c view.now.view }
{
    kept_state(view, tables)
}

/// The state, as the last changes of the view's tables tell it.
pub fn kept_state<L>(view: &KeptView, tables: &Tables<L>) -> ViewState
    ensures { result ≡ seen_state tables.now.tables.items view.now.view }
{
    match view.point() {
        None => ViewState::Unbuilt,
        Some(point) => state_since(all_still(
            view.query().tables.as_slice(),
            view.tables().as_slice(),
            tables,
            point,
        )),
    }
}

// The state of a view that is built.
fn state_since(still: bool) -> ViewState
    ensures { result ≡ state_since still }
{
    if still {
        ViewState::Fresh
    } else {
        ViewState::Stale
    }
}

// Whether no table of a view, each with its definition, has changed after an SCN.
#[tactic(auto, using(crate::proofs::Beside::beside))]
fn all_still<L>(numbers: &[u32], defs: &[TableDef], tables: &Tables<L>, point: u64) -> bool
    ensures { result ≡ list_all (is_still tables.now.tables.items point) (zip numbers.now defs.now) }
{
    for at in 0..numbers.len() {
        if at >= defs.len() {
            return true;
        }
        if !is_still(numbers[at], tables, point) {
            return false;
        }
    }
    true
}

// Whether the table with this number hasn't changed after an SCN. One that isn't there never did.
#[tactic(auto, using(crate::proofs::Places::places))]
fn is_still<L>(number: u32, tables: &Tables<L>, point: u64) -> bool
    ensures { result ≡ nat_le (changed_at tables.now.tables.items number) point }
{
    if (number as usize) < tables.len() {
        tables.changed(number) <= point
    } else {
        true
    }
}
