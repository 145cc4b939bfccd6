ghost use Rattle.std.specs.Prelude.{◌≡◌, ◌++◌, OnOk, length};
ghost use Rattle.wh_base.specs.declared.replies.Reply.TheVariants as replies;
ghost use Rattle.def_transcript.specs.Texts.{body_words};
ghost use Rattle.wh_render.specs.Pieces.{more_words, view_words};

use crate::plans::{method_text, push_plan, state_text};
use crate::refusals::{push_details, push_place, refusal_code};
use crate::words::{push_count, push_named, push_point, push_word, yes_or_no};
use std::alloc::AllocError;
use wh_base::replies::{
    Answered, Committed, Done, ExplainedQuery, ExplainedView, ListDone, Purged, RefreshDone,
    Refused, Reply, ShownLog, ShownView, Validated,
};

fn push_committed(out: &mut Vec<u8>, reply: &Committed) -> Result<(), AllocError>
    ensures { OnOk result (out.new.items
        ≡ out.old.items ++ more_words (body_words (replies.Commit reply.now))) }
{
    push_word(out, b"COMMITTED")?;
    push_count(out, b"SCN", reply.scn)?;
    push_count(out, b"ROWS", reply.rows)?;
    push_count(out, b"READ", reply.read)?;
    push_count(out, b"VIEWS", reply.views.len())?;
    Ok(())
}

fn push_done(out: &mut Vec<u8>, reply: &Done) -> Result<(), AllocError>
    ensures { OnOk result (out.new.items
        ≡ out.old.items ++ more_words (body_words (replies.Catalog reply.now))) }
{
    push_word(out, b"DONE")?;
    push_count(out, b"SCN", reply.scn)?;
    push_count(out, b"READ", reply.read)?;
    Ok(())
}

fn push_purged(out: &mut Vec<u8>, reply: &Purged) -> Result<(), AllocError>
    ensures { OnOk result (out.new.items
        ≡ out.old.items ++ more_words (body_words (replies.Purge reply.now))) }
{
    push_word(out, b"PURGED")?;
    push_count(out, b"SCN", reply.scn)?;
    push_count(out, b"ROWS", reply.rows)?;
    push_count(out, b"READ", 0u64)?;
    Ok(())
}

fn push_answered(out: &mut Vec<u8>, reply: &Answered) -> Result<(), AllocError>
    ensures { OnOk result (out.new.items
        ≡ out.old.items ++ more_words (body_words (replies.Answer reply.now))) }
{
    push_word(out, b"ANSWER")?;
    push_count(out, b"SCN", reply.scn)?;
    push_plan(out, &reply.plan)?;
    push_count(out, b"READ", reply.read)?;
    push_count(out, b"ROWS", reply.rows.len())?;
    Ok(())
}

fn push_refreshed(out: &mut Vec<u8>, reply: &RefreshDone) -> Result<(), AllocError>
    ensures { OnOk result (out.new.items
        ≡ out.old.items ++ more_words (body_words (replies.Refresh reply.now))) }
{
    push_named(out, b"REFRESHED", method_text(reply.method).as_bytes())?;
    push_count(out, b"SCN", reply.scn)?;
    push_count(out, b"READ", reply.read)?;
    push_count(out, b"HOLDS", reply.holds)?;
    Ok(())
}

fn push_refreshed_list(out: &mut Vec<u8>, reply: &ListDone) -> Result<(), AllocError>
    ensures { OnOk result (out.new.items
        ≡ out.old.items ++ more_words (body_words (replies.RefreshList reply.now))) }
{
    push_named(out, b"REFRESHED", b"LIST")?;
    push_count(out, b"SCN", reply.scn)?;
    push_count(out, b"READ", reply.read)?;
    push_count(out, b"VIEWS", reply.views.len())?;
    Ok(())
}

/// A refresh was handed to the workers.
fn push_submitted(out: &mut Vec<u8>) -> Result<(), AllocError>
    ensures { OnOk result (out.new.items
        ≡ out.old.items ++ more_words (body_words replies.Submit)) }
{
    push_word(out, b"SUBMITTED")?;
    push_count(out, b"READ", 0u64)?;
    Ok(())
}

/// What SHOW VIEW says of the view itself.
fn push_view_state(out: &mut Vec<u8>, reply: &ShownView) -> Result<(), AllocError>
    ensures { OnOk result (out.new.items ≡ out.old.items ++ more_words (view_words reply.now)) }
{
    push_named(out, b"VIEW", reply.view.as_slice())?;
    push_word(out, b"POINT")?;
    push_point(out, reply.point)?;
    push_named(out, b"STATE", state_text(reply.state).as_bytes())?;
    push_named(out, b"REGISTERED", yes_or_no(reply.registered).as_bytes())?;
    push_named(out, b"SUSPENDED", yes_or_no(reply.suspended).as_bytes())?;
    Ok(())
}

fn push_view(out: &mut Vec<u8>, reply: &ShownView) -> Result<(), AllocError>
    ensures { OnOk result (out.new.items
        ≡ out.old.items ++ more_words (body_words (replies.View reply.now))) }
{
    push_view_state(out, reply)?;
    push_count(out, b"READ", 0u64)?;
    push_count(out, b"INTERVALS", reply.intervals.len())?;
    push_count(out, b"ROWS", reply.rows.len())?;
    Ok(())
}

fn push_log(out: &mut Vec<u8>, reply: &ShownLog) -> Result<(), AllocError>
    ensures { OnOk result (out.new.items
        ≡ out.old.items ++ more_words (body_words (replies.Log reply.now))) }
{
    push_named(out, b"LOG", reply.table.as_slice())?;
    push_count(out, b"BORN", reply.born)?;
    push_count(out, b"FROM", reply.from)?;
    push_count(out, b"READ", 0u64)?;
    push_count(out, b"ROWS", reply.rows.len())?;
    Ok(())
}

fn push_explained(out: &mut Vec<u8>, reply: &ExplainedView) -> Result<(), AllocError>
    ensures { OnOk result (out.new.items
        ≡ out.old.items ++ more_words (body_words (replies.Explain reply.now))) }
{
    push_named(out, b"MVIEW", reply.view.as_slice())?;
    push_count(out, b"READ", 0u64)?;
    push_count(out, b"ROWS", reply.lines.len())?;
    Ok(())
}

fn push_rewrite(out: &mut Vec<u8>, reply: &ExplainedQuery) -> Result<(), AllocError>
    ensures { OnOk result (out.new.items
        ≡ out.old.items ++ more_words (body_words (replies.Rewrite reply.now))) }
{
    push_word(out, b"REWRITE")?;
    push_count(out, b"SCN", reply.scn)?;
    push_plan(out, &reply.plan)?;
    push_count(out, b"READ", 0u64)?;
    push_count(out, b"ROWS", reply.verdicts.len())?;
    Ok(())
}

fn push_validated(out: &mut Vec<u8>, reply: &Validated) -> Result<(), AllocError>
    ensures { OnOk result (out.new.items
        ≡ out.old.items ++ more_words (body_words (replies.Validate reply.now))) }
{
    push_named(out, b"VALIDATED", reply.dimension.as_slice())?;
    push_count(out, b"SCN", reply.scn)?;
    push_count(out, b"READ", reply.read)?;
    push_count(out, b"ROWS", reply.broken.len())?;
    Ok(())
}

#[tactic(auto, using(crate::proofs::Joined::refusals))]
fn push_refused(out: &mut Vec<u8>, reply: &Refused) -> Result<(), AllocError>
    ensures { OnOk result (out.new.items
        ≡ out.old.items ++ more_words (body_words (replies.Refuse reply.now))) }
{
    push_named(out, b"REFUSED", refusal_code(&reply.code).as_bytes())?;
    push_place(out, reply.at)?;
    push_details(out, &reply.code)?;
    push_count(out, b"READ", reply.read)?;
    Ok(())
}

/// The header's words after the session and the command, or after the worker of a job.
pub fn push_body(out: &mut Vec<u8>, reply: &Reply) -> Result<(), AllocError>
    ensures { OnOk result (out.new.items ≡ out.old.items ++ more_words (body_words reply.now)) }
{
    match reply {
        Reply::Commit(committed) => push_committed(out, committed),
        Reply::Catalog(done) => push_done(out, done),
        Reply::Purge(purged) => push_purged(out, purged),
        Reply::Answer(answered) => push_answered(out, answered),
        Reply::Refresh(refreshed) => push_refreshed(out, refreshed),
        Reply::View(shown) => push_view(out, shown),
        Reply::Log(shown) => push_log(out, shown),
        Reply::Explain(explained) => push_explained(out, explained),
        Reply::Rewrite(explained) => push_rewrite(out, explained),
        Reply::Validate(validated) => push_validated(out, validated),
        Reply::Refuse(refused) => push_refused(out, refused),
        Reply::RefreshList(done) => push_refreshed_list(out, done),
        Reply::Submit => push_submitted(out),
    }
}
