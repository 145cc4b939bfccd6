ghost use Rattle.std.specs.List.{find};
ghost use Rattle.std.specs.Prelude.{◌≡◌, ◌+◌, ◌≤◌, ◌^◌, IfOk, IsSome, List, Ok, Some, map};
ghost use Rattle.def_history.specs.Catalog.{View, view_numbered};
ghost use Rattle.def_journal.specs.Refreshing.{computed};
ghost use Rattle.def_meaning.specs.Meaning.{stored};
ghost use Rattle.def_meaning.specs.Ranges.{base_reads};
ghost use Rattle.wh_answer.specs.Answered.{most_reads};
ghost use Rattle.wh_answer.specs.Over.{IsImage, IsImageOf};
ghost use Rattle.wh_base.specs.Tables.{Base};
ghost use Rattle.wh_base.specs.declared.statements.Event.{Event};
ghost use Rattle.wh_base.specs.declared.statements.Method.TheVariants.{Complete};
ghost use Rattle.wh_evaluate.specs.Shown.{CanEvaluate, Shows};
ghost use Rattle.wh_table.specs.Kept.{no_key, no_part, tables_at};
ghost use Rattle.law_trace.specs.Reached.{catalog_of};
ghost use Rattle.wh_view.specs.Kept.{is_numbered};

use crate::laws::known;
use std::alloc::{AllocError, Global};
use std::marker::Model;
use wh_base::queries::StarQuery;
use wh_base::reads::Reads;
use wh_base::shared::Shared;
use wh_base::statements::Method;
use wh_base::views::ViewRows;
use wh_evaluate::evaluate_view;
use wh_image::Image;
use wh_table::Tables;

/// What a refresh computes: the method used, the view's new entries, and how many base rows were read.
#[derive(Drop)]
pub struct Computed {
    pub used: Method,
    pub rows: Shared<ViewRows>,
    pub read: u64,
}

impl Model for Computed {
    ghost use Rattle.def_journal.specs.Refreshing as refreshing;

    ghost Value = { refreshing.Computed };

    ghost view = { λ c. record { used = c.used; rows = c.rows; read = c.read } };
}

/// A complete refresh of the view with this number over an image: what its definition stores over the base rows of the image.
/// The counter rises by the rows read, and by no more than 64 tables of 262,144 rows have. An error says that memory ran out;
/// then some of the rows may have been read.
///
/// A complete refresh is that of the Data Warehousing Guide's chapter on refreshing materialized views.
pub fn compute<L>(
    alloc: Global,
    image: &Image<L>,
    view: u64,
    reads: &mut Reads<L>,
) -> Result<Computed, AllocError>
    requires known { IsImage image.now.tables.scn image.now.tables.tables.items image.now.views }
    requires there { IsSome (find (is_numbered view) image.now.views.views) }
    requires room { reads.old ≤ 2 ^ 63 }
    ensures computed { (trace : List Event) (v : View) → IsImageOf trace image.now.tables.scn image.now.tables.tables.items image.now.views → view_numbered (catalog_of trace) view ≡ Some v → IfOk result (λ x. computed (catalog_of trace) v Complete ≡ Ok x) }
    ensures raised { IfOk result (λ x. reads.new ≡ reads.old + x.read) }
    ensures least { reads.old ≤ reads.new }
    ensures most { reads.new ≤ reads.old + most_reads }
{
    known(image);
    match image.views.numbered(view) {
        Some(kept) => {
            let computed = computed_from(alloc, kept.query(), &image.tables, reads)?;
            Ok(computed)
        }
        None => unreachable!(),
    }
}

// What a view of the query stores over the rows that the tables show.
fn computed_from<L>(
    alloc: Global,
    query: &StarQuery,
    tables: &Tables<L>,
    reads: &mut Reads<L>,
) -> Result<Computed, AllocError>
    requires known { CanEvaluate (tables_at tables.now.scn tables.now.tables.items) (map no_key tables.now.tables.items) (map no_part tables.now.tables.items) query.now }
    requires room { reads.old ≤ 2 ^ 63 }
    ensures computed { (base : Base) → Shows (tables_at tables.now.scn tables.now.tables.items) (map no_key tables.now.tables.items) (map no_part tables.now.tables.items) base → IfOk result (λ x. x ≡ record { used = Complete; rows = stored query.now base; read = base_reads query.now base }) }
    ensures raised { IfOk result (λ x. reads.new ≡ reads.old + x.read) }
    ensures least { reads.old ≤ reads.new }
    ensures most { (base : Base) → Shows (tables_at tables.now.scn tables.now.tables.items) (map no_key tables.now.tables.items) (map no_part tables.now.tables.items) base → reads.new ≤ reads.old + base_reads query.now base }
{
    let before = reads.count();
    let rows = evaluate_view(alloc, query, tables, reads)?;
    let rows = Shared::new(alloc, rows)?;
    Ok(Computed {
        used: Method::Complete,
        rows,
        read: reads.count() - before,
    })
}
