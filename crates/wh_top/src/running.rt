ghost use Rattle.std.specs.Prelude.{◌≡◌, ◌<◌, IfOk, OnOk, length, map, true};
ghost use Rattle.def_journal.specs.Journal.{is_legal, state_of, trace_of};
ghost use Rattle.wh_session.specs.Run.{begun};
ghost use Rattle.wh_top.specs.Running.{AreAsFar, CountedSoFar, HasNext, IsRunnable, IsTaken, place_of};

use std::alloc::{AllocError, Global};
use std::snapshot::Snapshot;
use wh_base::reads::Reads;
use wh_base::seq::Seq;
use wh_base::statements::{Entry, Script};
use wh_base::values::Version;
use wh_core::Core;
use wh_session::Session;

/// The sessions of a script, each with nothing done, that tell their replies in this version of transcripts. An error says
/// that memory ran out.
pub fn sessions_of<L>(
    alloc: Global,
    version: Version,
    script: Script,
) -> Result<Vec<Session<L>>, AllocError>
    requires { IsRunnable script }
    ensures { IfOk result (λ sessions. sessions.items ≡ map (begun version) script.sections) }
{
    let mut sessions = Vec::new(alloc);
    for section in script.sections.into_vec() {
        sessions.push(Session::new(alloc, version, section))?;
    }
    Ok(sessions)
}

/// Takes the parts of a legal journal one after another, from the empty catalog on, and gives the last SCN. An error says
/// that memory ran out, or what else `Session::run_step` names, which no run brings about.
///
/// A part costs a look at each session.
pub fn take_parts<L>(
    alloc: Global,
    version: Snapshot<Version>,
    script: Snapshot<Script>,
    sessions: &mut [Session<L>],
    journal: &Seq<Entry>,
    reads: &mut [Reads<L>],
) -> Result<u64, AllocError>
    requires runnable { IsRunnable script.value }
    requires legal { is_legal script.value journal.now ≡ true }
    requires sessions { sessions.old ≡ map (begun version.value) script.value.sections }
    requires counters { length reads.old ≡ 65 }
    ensures far { OnOk result (AreAsFar version.value script.value journal.now script.value.sections sessions.new) }
    ensures counted { OnOk result (CountedSoFar script.value journal.now sessions.new reads.old reads.new) }
    ensures scn { IfOk result (λ n. n ≡ (state_of (trace_of script.value journal.now)).catalog.scn) }
{
    let mut core = Core::new(alloc)?;
    for entry in journal.as_slice() {
        take_part(alloc, &mut core, sessions, entry.session, reads)?;
    }
    Ok(core.scn())
}

/// Takes the next part of the session with this number. An error is that of `Session::run_step`.
fn take_part<L>(
    alloc: Global,
    core: &mut Core<L>,
    sessions: &mut [Session<L>],
    number: u32,
    reads: &mut [Reads<L>],
) -> Result<(), AllocError>
    requires next { HasNext number sessions.old core.old }
    requires counter { number < length reads.old }
    ensures { OnOk result (IsTaken number sessions.old sessions.new core.old core.new reads.old reads.new) }
{
    let place = place_of(sessions, number);
    sessions[place].run_step(alloc, core, &mut reads[number as usize])?;
    Ok(())
}

/// The place of the session with this number, counted from 0; how many sessions there are where none has it.
fn place_of<L>(sessions: &[Session<L>], number: u32) -> usize
    ensures { result ≡ place_of number sessions.now }
{
    for (place, session) in sessions.iter().enumerate() {
        if session.number() == number {
            return place;
        }
    }
    sessions.len()
}
