ghost use Rattle.std.specs.Prelude.{◌≡◌, IfOk, List, Some, slice_get, ℕ};
ghost use Rattle.def_history.specs.Catalog.{Catalog};
ghost use Rattle.def_journal.specs.Explaining as explaining;
ghost use Rattle.wh_answer.specs.Answered.{shown_view};
ghost use Rattle.wh_answer.specs.Over.{IsImageOf};
ghost use Rattle.wh_base.specs.declared.statements.Event.{Event};
ghost use Rattle.wh_image.specs.Standing.{StandsFor};
ghost use Rattle.law_trace.specs.Reached.{catalog_of};
ghost use Rattle.wh_view.specs.Kept.{AllKept};

use crate::replies::{ordered_rows, refused};
use std::alloc::{AllocError, Global};
use wh_base::replies::{Refusal, Reply, ShownView};
use wh_base::seq::Seq;
use wh_base::txt::Txt;
use wh_image::Image;
use wh_rewrite::state;
use wh_table::Tables;
use wh_view::KeptView;

/// The reply to SHOW VIEW of the view with this name over an image: its point, its state, its marks, and the rows that it
/// stores in the order of an answer without ORDER BY; or that no view has this name (MV-02). No base row is read, and no
/// interval is stale, since no table has partitions. An error says that memory ran out.
pub fn show_view<L>(alloc: Global, image: &Image<L>, name: &Txt) -> Result<Reply, AllocError>
    ensures { (trace : List Event) → IsImageOf trace image.now.tables.scn image.now.tables.tables.items image.now.views → IfOk result (λ r. r ≡ shown_view (catalog_of trace) name.now) }
{
    match image.views.named(name) {
        Some(view) => {
            let reply = reply_of(alloc, view, &image.tables)?;
            Ok(reply)
        }
        None => {
            let name = name.copy(alloc)?;
            Ok(refused(Refusal::NoSuchObject(name)))
        }
    }
}

// What there is to show of a view of the image with these tables.
fn reply_of<L>(alloc: Global, view: &KeptView, tables: &Tables<L>) -> Result<Reply, AllocError>
    ensures { (c : Catalog) (views : AllKept) (n : ℕ) → StandsFor tables.now.scn tables.now.tables.items views c → slice_get views.views n ≡ Some view.now → IfOk result (λ r. r ≡ explaining.show_view c view.now.view) }
{
    let rows = ordered_rows(alloc, &[], view.entries())?;
    Ok(Reply::View(ShownView {
        view: view.name().copy(alloc)?,
        point: view.point(),
        state: state(view, tables),
        registered: view.registered(),
        suspended: view.suspended(),
        intervals: Seq::new(alloc),
        rows,
    }))
}
