ghost use Rattle.std.specs.List.{find};
ghost use Rattle.std.specs.Prelude.{◌≡◌, ◌≤◌, ◌+◌, ◌^◌, [], ◌∷◌, ◌++◌, IfOk, List, OnErr, OnOk, IsTrue, Some, option_and_then, option_map};
ghost use Rattle.def_built.specs.Commands.{command_is_built};
ghost use Rattle.def_journal.specs.Journal.{event_of, reply_to};
ghost use Rattle.def_output.specs.Reads.{read_of};
ghost use Rattle.wh_answer.specs.Over.{IsImage, IsImageOf};
ghost use Rattle.wh_answer.specs.Answered.{most_reads};
ghost use Rattle.wh_base.specs.Lists.{option_case};
ghost use Rattle.wh_base.specs.declared.statements.Event.{Event};
ghost use Rattle.wh_session.specs.Parts.{ComputedOf, IsFirst, IsReplied, IsThere, KeptOf};
ghost use Rattle.wh_session.specs.Run.{Grows};
ghost use Rattle.law_trace.specs.Reached.{catalog_of};
ghost use Rattle.wh_view.specs.Kept.{is_named};
ghost use Rattle.law_views.specs.Read.{IsRead};

use crate::parts::Part;
use law_views::laws::plain_sessions;
use std::alloc::{AllocError, Global};
use wh_answer::laws::{selects_agree, shows_agree};
use wh_answer::{Computed, compute, select, show_view};
use wh_base::reads::Reads;
use wh_base::replies::Reply;
use wh_base::statements::{Asked, Command, Id, RefreshView, ShowStatement, Statement};
use wh_base::txt::Txt;
use wh_core::{Begun, Core};
use wh_image::Image;
use wh_image::laws::lookups_agree;
use wh_view::Views;

/// SELECT: its reply over the image that is taken. No session changes its settings, so it is answered under ENFORCED with rewrite enabled.
#[tactic(auto, using(crate::proofs::Growing::growing))]
pub(crate) fn select_part<L>(
    alloc: Global,
    core: &mut Core<L>,
    id: Id,
    command: &Command,
    statement: &Statement,
    asked: &Asked,
    reads: &mut Reads<L>,
) -> Result<Reply, AllocError>
    requires statement { statement.now ≡ Statement.Select asked.now }
    requires command { command.now ≡ Command.Other statement.now }
    requires built { IsTrue (command_is_built command.now) }
    requires read { IsRead command.now }
    requires room { reads.old ≤ 2 ^ 63 }
    ensures trace { OnOk result (core.new ≡ core.old ++ event_of id command.now ∷ []) }
    ensures replied { IfOk result (λ r. IsReplied core.old (event_of id command.now) r reads.old reads.new) }
    ensures least { reads.old ≤ reads.new }
    ensures most { reads.new ≤ reads.old + most_reads }
    ensures err { OnErr result (Grows core.old core.new) }
{
    selects_agree();
    plain_sessions();
    core.built();
    let image = core.snapshot(alloc, id, command, statement)?;
    let reply = select(alloc, &image, asked, true, reads)?;
    Ok(reply)
}

/// SHOW VIEW, which alone of the statements that show something is built: its reply over the image that is taken. It reads no base rows.
#[tactic(auto, using(crate::proofs::Growing::growing))]
pub(crate) fn show_part<L>(
    alloc: Global,
    core: &mut Core<L>,
    id: Id,
    command: &Command,
    statement: &Statement,
    shown: &ShowStatement,
) -> Result<Reply, AllocError>
    requires statement { statement.now ≡ Statement.Show shown.now }
    requires command { command.now ≡ Command.Other statement.now }
    requires built { IsTrue (command_is_built command.now) }
    requires read { IsRead command.now }
    ensures trace { OnOk result (core.new ≡ core.old ++ event_of id command.now ∷ []) }
    ensures reply { IfOk result (λ r. reply_to core.old (event_of id command.now) ≡ Some r) }
    ensures unread { IfOk result (λ r. read_of r ≡ 0) }
    ensures err { OnErr result (Grows core.old core.new) }
{
    let ShowStatement::ShowView(name) = shown else {
        unreachable!()
    };
    shows_agree();
    plain_sessions();
    core.built();
    let image = core.snapshot(alloc, id, command, statement)?;
    let reply = show_view(alloc, &image, name)?;
    Ok(reply)
}

/// The begin of a refresh: what it keeps of the image that is taken, and what a complete refresh computes over it.
#[tactic(auto, using(crate::proofs::Growing::growing))]
pub(crate) fn begin_part<L>(
    alloc: Global,
    core: &mut Core<L>,
    id: Id,
    command: &Command,
    statement: &Statement,
    asked: &RefreshView,
    reads: &mut Reads<L>,
) -> Result<Part, AllocError>
    requires statement { statement.now ≡ Statement.Refresh asked.now }
    requires command { command.now ≡ Command.Other statement.now }
    requires built { IsTrue (command_is_built command.now) }
    requires read { IsRead command.now }
    requires room { reads.old ≤ 2 ^ 63 }
    ensures trace { OnOk result (core.new ≡ core.old ++ event_of id command.now ∷ []) }
    ensures first { IfOk result (λ part. IsFirst core.old core.new id command.now part reads.old reads.new) }
    ensures least { reads.old ≤ reads.new }
    ensures most { reads.new ≤ reads.old + most_reads }
    ensures err { OnErr result (Grows core.old core.new) }
{
    lookups_agree();
    let image = core.snapshot(alloc, id, command, statement)?;
    let begun = begun_over(alloc, &image, asked)?;
    let computed = computed_over(alloc, &image, begun.view, reads)?;
    Ok(Part::Begun(begun, computed))
}

/// What the begin of a refresh keeps of an image. An error says that memory ran out.
fn begun_over<L>(alloc: Global, image: &Image<L>, asked: &RefreshView) -> Result<Begun, AllocError>
    ensures { IfOk result (λ kept. KeptOf image.now.tables.scn image.now.views asked.now.name kept) }
{
    Ok(Begun {
        name: asked.name.copy(alloc)?,
        view: number_of(&image.views, &asked.name),
        point: point_of(&image.views, &asked.name),
        scn: image.scn(),
    })
}

/// The number of the view with this name.
fn number_of(views: &Views, name: &Txt) -> Option<u64>
    ensures { result ≡ option_map (λ k. k.view.def.view) (find (is_named name.now) views.now.views) }
{
    views.named(name).map(|view| view.number())
}

/// The point of the view with this name.
fn point_of(views: &Views, name: &Txt) -> Option<u64>
    ensures { result ≡ option_and_then (λ k. k.view.point) (find (is_named name.now) views.now.views) }
{
    views.named(name).and_then(|view| view.point())
}

/// What a complete refresh of the view with this number computes, where there is one. An error says that memory ran out; then some rows may have been
/// read.
fn computed_over<L>(
    alloc: Global,
    image: &Image<L>,
    view: Option<u64>,
    reads: &mut Reads<L>,
) -> Result<Option<Computed>, AllocError>
    requires known { IsImage image.now.tables.scn image.now.tables.tables.items image.now.views }
    requires there { IsThere image.now.views.views view }
    requires room { reads.old ≤ 2 ^ 63 }
    ensures computed { (trace : List Event) → IsImageOf trace image.now.tables.scn image.now.tables.tables.items image.now.views → IfOk result (λ done. ComputedOf (catalog_of trace) view done) }
    ensures raised { IfOk result (λ done. reads.new ≡ reads.old + option_case done 0 (λ x. x.read)) }
    ensures least { reads.old ≤ reads.new }
    ensures most { reads.new ≤ reads.old + most_reads }
{
    let Some(number) = view else {
        return Ok(None);
    };
    let computed = compute(alloc, image, number, reads)?;
    Ok(Some(computed))
}
