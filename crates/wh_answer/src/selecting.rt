ghost use Rattle.std.specs.List.{find};
ghost use Rattle.std.specs.Prelude.{◌≡◌, ◌+◌, ◌≤◌, ◌^◌, IfOk, IsSome, List, None, Ok, map};
ghost use Rattle.def_choice.specs.Choice.{class_is_built};
ghost use Rattle.def_journal.specs.Answers as answers;
ghost use Rattle.def_meaning.specs.Ranges.{base_reads};
ghost use Rattle.def_output.specs.Reads.{read_of};
ghost use Rattle.def_resolve.specs.Resolve as resolving;
ghost use Rattle.wh_answer.specs.Answered.{HasView, answer_by, base_answer, enforced, entries_of, most_reads, selected, view_answer};
ghost use Rattle.wh_answer.specs.Over.{IsImage, IsImageOf};
ghost use Rattle.wh_base.specs.Tables.{Base};
ghost use Rattle.wh_base.specs.declared.statements.Event.{Event};
ghost use Rattle.wh_evaluate.specs.Shown.{CanEvaluate, Shows};
ghost use Rattle.wh_table.specs.Kept.{defs_of, no_key, no_part, tables_at};
ghost use Rattle.law_trace.specs.Reached.{catalog_of};
ghost use Rattle.wh_view.specs.Kept.{is_numbered};
ghost use Rattle.law_views.specs.Read.{ReadsAs};

use crate::laws::known;
use crate::replies::{ordered_rows, refused};
use law_views::laws::views_answer;
use std::alloc::{AllocError, Global};
use wh_base::queries::StarQuery;
use wh_base::reads::Reads;
use wh_base::replies::{Answered, PlanLine, Reply};
use wh_base::seq::Seq;
use wh_base::statements::{Asked, Level};
use wh_base::views::{Plan, ViewPlan};
use wh_evaluate::evaluate;
use wh_image::Image;
use wh_resolve::{QueryFault, resolve};
use wh_rewrite::choose;

/// The reply to a SELECT under ENFORCED over an image: the first refusal of its query, having read nothing; or its answer, by
/// the plan that is chosen. A view's answer is what the view stores, in the query's order, and reads no base row; the answer of
/// BASE is evaluated over the image's tables. `enabled` says whether the session has rewrite enabled. The counter rises by the
/// READ of the reply, and by no more than 64 tables of 262,144 rows have. An error says that memory ran out; then some of the
/// rows may have been read.
///
/// Query rewrite and its levels of integrity are those of the Data Warehousing Guide.
pub fn select<L>(
    alloc: Global,
    image: &Image<L>,
    asked: &Asked,
    enabled: bool,
    reads: &mut Reads<L>,
) -> Result<Reply, AllocError>
    requires known { IsImage image.now.tables.scn image.now.tables.tables.items image.now.views }
    requires reads_as { ReadsAs asked.now }
    requires built { asked.now.query.as_of ≡ None }
    requires room { reads.old ≤ 2 ^ 63 }
    ensures reply { (trace : List Event) → IsImageOf trace image.now.tables.scn image.now.tables.tables.items image.now.views → IfOk result (λ r. r ≡ selected (catalog_of trace) enabled asked.now) }
    ensures raised { IfOk result (λ r. reads.new ≡ reads.old + read_of r) }
    ensures least { reads.old ≤ reads.new }
    ensures most { reads.new ≤ reads.old + most_reads }
{
    match resolve(alloc, image.tables(), &asked.query) {
        Ok(query) => {
            let reply = answer(alloc, image, asked, &query, enabled, reads)?;
            Ok(reply)
        }
        Err(QueryFault::Refused(code)) => Ok(refused(code)),
        Err(QueryFault::Memory) => Err(AllocError),
    }
}

// The answer of a query by its star form.
fn answer<L>(
    alloc: Global,
    image: &Image<L>,
    asked: &Asked,
    query: &StarQuery,
    enabled: bool,
    reads: &mut Reads<L>,
) -> Result<Reply, AllocError>
    requires known { IsImage image.now.tables.scn image.now.tables.tables.items image.now.views }
    requires reads_as { ReadsAs asked.now }
    requires built { asked.now.query.as_of ≡ None }
    requires resolved { resolving.resolve (defs_of image.now.tables.tables.items) asked.now.query ≡ Ok query.now }
    requires room { reads.old ≤ 2 ^ 63 }
    ensures reply { (trace : List Event) → IsImageOf trace image.now.tables.scn image.now.tables.tables.items image.now.views → IfOk result (λ r. r ≡ answers.answer class_is_built (catalog_of trace) (enforced enabled) asked.now query.now) }
    ensures raised { IfOk result (λ r. reads.new ≡ reads.old + read_of r) }
    ensures least { reads.old ≤ reads.new }
    ensures most { reads.new ≤ reads.old + most_reads }
{
    known(image);
    views_answer();
    let plan = choose(
        alloc,
        image,
        query,
        asked.tokens.as_slice(),
        Level::Enforced,
        enabled,
    )?;
    let reply = answer_by(alloc, image, query, plan, reads)?;
    Ok(reply)
}

// The answer by a plan.
fn answer_by<L>(
    alloc: Global,
    image: &Image<L>,
    query: &StarQuery,
    plan: Plan,
    reads: &mut Reads<L>,
) -> Result<Reply, AllocError>
    requires known { CanEvaluate (tables_at image.now.tables.scn image.now.tables.tables.items) (map no_key image.now.tables.tables.items) (map no_part image.now.tables.tables.items) query.now }
    requires there { HasView image.now.views plan }
    requires room { reads.old ≤ 2 ^ 63 }
    ensures reply { (base : Base) → Shows (tables_at image.now.tables.scn image.now.tables.tables.items) (map no_key image.now.tables.tables.items) (map no_part image.now.tables.tables.items) base → IfOk result (λ r. r ≡ answer_by image.now.tables.scn image.now.views query.now base plan) }
    ensures raised { IfOk result (λ r. reads.new ≡ reads.old + read_of r) }
    ensures least { reads.old ≤ reads.new }
    ensures most { (base : Base) → Shows (tables_at image.now.tables.scn image.now.tables.tables.items) (map no_key image.now.tables.tables.items) (map no_part image.now.tables.tables.items) base → reads.new ≤ reads.old + base_reads query.now base }
{
    match plan {
        Plan::Base => {
            let reply = base_answer(alloc, image, query, reads)?;
            Ok(reply)
        }
        Plan::View(plan) => {
            let reply = view_answer(alloc, image, query, plan)?;
            Ok(reply)
        }
    }
}

// The answer from the base rows.
fn base_answer<L>(
    alloc: Global,
    image: &Image<L>,
    query: &StarQuery,
    reads: &mut Reads<L>,
) -> Result<Reply, AllocError>
    requires known { CanEvaluate (tables_at image.now.tables.scn image.now.tables.tables.items) (map no_key image.now.tables.tables.items) (map no_part image.now.tables.tables.items) query.now }
    requires room { reads.old ≤ 2 ^ 63 }
    ensures reply { (base : Base) → Shows (tables_at image.now.tables.scn image.now.tables.tables.items) (map no_key image.now.tables.tables.items) (map no_part image.now.tables.tables.items) base → IfOk result (λ r. r ≡ base_answer image.now.tables.scn query.now base) }
    ensures raised { IfOk result (λ r. reads.new ≡ reads.old + read_of r) }
    ensures least { reads.old ≤ reads.new }
    ensures most { (base : Base) → Shows (tables_at image.now.tables.scn image.now.tables.tables.items) (map no_key image.now.tables.tables.items) (map no_part image.now.tables.tables.items) base → reads.new ≤ reads.old + base_reads query.now base }
{
    let before = reads.count();
    let rows = evaluate(alloc, query, &image.tables, reads)?;
    Ok(Reply::Answer(Answered {
        scn: image.scn(),
        plan: PlanLine::BasePlan,
        read: reads.count() - before,
        rows,
    }))
}

// The answer from what the view of a plan stores. No table is joined back.
fn view_answer<L>(
    alloc: Global,
    image: &Image<L>,
    query: &StarQuery,
    plan: ViewPlan,
) -> Result<Reply, AllocError>
    requires { IsSome (find (is_numbered plan.view) image.now.views.views) }
    ensures { IfOk result (λ r. r ≡ view_answer image.now.tables.scn query.now plan (entries_of image.now.views plan.view)) }
{
    match image.views.numbered(plan.view) {
        Some(view) => {
            let rows = ordered_rows(alloc, query.order.as_slice(), view.entries())?;
            Ok(Reply::Answer(Answered {
                scn: image.scn(),
                plan: PlanLine::ViewAt(plan.class, plan.name, plan.point, Seq::new(alloc)),
                read: 0,
                rows,
            }))
        }
        None => unreachable!(),
    }
}
