ghost use Rattle.std.specs.Prelude.{◌≡◌, ◌+◌, [], IfOk};
ghost use Rattle.def_output.specs.Generator.{is_view_line};
ghost use Rattle.def_output.specs.Reads.{read_of};
ghost use Rattle.wh_session.specs.Tally.{both, refuses, rewrites, tally_of, tally_of_reply};

use std::alloc::AllocError;
use wh_base::replies::{PlanLine, Reply};

/// What is counted of replies: how many are refusals, how many are answers whose plan is one over a view, and how many base
/// rows all of them say were read.
#[derive(Clone, Copy, Debug, PartialEq, Eq)]
pub struct Tally {
    pub refused: u64,
    pub rewritten: u64,
    pub read: u64,
}

impl Tally {
    /// That of no replies.
    pub fn new() -> Tally
        ensures { result ≡ tally_of [] }
    {
        Tally {
            refused: 0,
            rewritten: 0,
            read: 0,
        }
    }

    /// Both counted together. An error says that a sum has more than 64 bits, which no run reaches.
    pub fn plus(self, other: Tally) -> Result<Tally, AllocError>
        ensures { IfOk result (λ t. t ≡ both self other) }
    {
        Ok(Tally {
            refused: sum(self.refused, other.refused)?,
            rewritten: sum(self.rewritten, other.rewritten)?,
            read: sum(self.read, other.read)?,
        })
    }

    /// That of one reply.
    pub(crate) fn of(reply: &Reply) -> Tally
        ensures { result ≡ tally_of_reply reply.now }
    {
        Tally {
            refused: if refuses(reply) { 1 } else { 0 },
            rewritten: if rewrites(reply) { 1 } else { 0 },
            read: read_of(reply),
        }
    }
}

/// The sum, where it has at most 64 bits.
fn sum(one: u64, other: u64) -> Result<u64, AllocError>
    ensures { IfOk result (λ n. n ≡ one + other) }
{
    match one.checked_add(other) {
        Some(sum) => Ok(sum),
        None => Err(AllocError),
    }
}

/// Whether the reply is a refusal.
fn refuses(reply: &Reply) -> bool
    ensures { result ≡ refuses reply.now }
{
    matches!(reply, Reply::Refuse(_))
}

/// Whether the reply is an answer whose plan is one over a view.
fn rewrites(reply: &Reply) -> bool
    ensures { result ≡ rewrites reply.now }
{
    match reply {
        Reply::Answer(answer) => is_view_line(&answer.plan),
        _ => false,
    }
}

fn is_view_line(plan: &PlanLine) -> bool
    ensures { result ≡ is_view_line plan.now }
{
    match plan {
        PlanLine::BasePlan => false,
        PlanLine::ViewAt(..) => true,
    }
}

/// The READ number of a reply.
fn read_of(reply: &Reply) -> u64
    ensures { result ≡ read_of reply.now }
{
    match reply {
        Reply::Commit(reply) => reply.read,
        Reply::Catalog(reply) => reply.read,
        Reply::Answer(reply) => reply.read,
        Reply::Refresh(reply) => reply.read,
        Reply::Validate(reply) => reply.read,
        Reply::Refuse(reply) => reply.read,
        Reply::RefreshList(reply) => reply.read,
        Reply::Purge(_)
        | Reply::View(_)
        | Reply::Log(_)
        | Reply::Explain(_)
        | Reply::Rewrite(_)
        | Reply::Submit => 0,
    }
}
