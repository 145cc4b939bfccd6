ghost use Rattle.std.specs.Prelude.{◌≡◌, ◌++◌, Some, IfOk, OnOk, flat_map, length};
ghost use Rattle.def_journal.specs.Journal.{order_of};
ghost use Rattle.def_output.specs.Program.{CountersRose, own_order, reads_at};
ghost use Rattle.def_transcript.specs.Texts.{first_lines, lines_text};
ghost use Rattle.def_transcript.specs.Transcript.{transcript};
ghost use Rattle.wh_top.specs.Running.{HasRun, IsRunnable};

use crate::running::{sessions_of, take_parts};
use std::alloc::{AllocError, Global};
use std::snapshot::Snapshot;
use wh_base::reads::Reads;
use wh_base::seq::Seq;
use wh_base::statements::{Entry, Script};
use wh_base::values::Version;
use wh_order::order_of;
use wh_render::{push_first_line, push_journal};
use wh_session::Session;

/// A script that has run: its sessions, its journal, and the last SCN.
#[derive(Drop)]
pub struct Performed<L> {
    pub sessions: Vec<Session<L>>,
    pub journal: Seq<Entry>,
    pub scn: u64,
}

/// Runs a script in its own order, with the texts of its replies in this version of transcripts. An error says that memory
/// ran out, or what else `take_parts` names.
///
/// The counter of each session rises by the base rows that the replies to it say were read.
pub fn perform<L>(
    alloc: Global,
    version: Version,
    script: Script,
    reads: &mut [Reads<L>],
) -> Result<Performed<L>, AllocError>
    requires runnable { IsRunnable script }
    requires counters { length reads.old ≡ 65 }
    ensures ran { IfOk result (λ p. HasRun version script p.sessions.items p.journal p.scn) }
    ensures counted { OnOk result (CountersRose (reads_at (Some (own_order script))) reads.old reads.new) }
{
    let journal = order_of(alloc, &script)?;
    let whole = Snapshot::of(&script);
    let told = Snapshot::of(&version);
    let mut sessions = sessions_of(alloc, version, script)?;
    let scn = take_parts(alloc, told, whole, sessions.as_mut_slice(), &journal, reads)?;
    Ok(Performed {
        sessions,
        journal,
        scn,
    })
}

/// The transcript, in this version, of a script that is run in its own order. An error says that memory ran out, or what
/// else `take_parts` names.
///
/// The counter of each session rises by the base rows that the replies to it say were read.
pub fn output<L>(
    alloc: Global,
    version: Version,
    script: Script,
    reads: &mut [Reads<L>],
) -> Result<Vec<u8>, AllocError>
    requires runnable { IsRunnable script }
    requires counters { length reads.old ≡ 65 }
    ensures output { IfOk result (λ text. text.items ≡ transcript version script (order_of script)) }
    ensures counted { OnOk result (CountersRose (reads_at (Some (own_order script))) reads.old reads.new) }
{
    let Performed {
        sessions,
        journal,
        ..
    } = perform(alloc, version, script, reads)?;
    let mut text = texts_of(alloc, version, sessions)?;
    push_journal(&mut text, journal.as_slice())?;
    Ok(text)
}

/// What stands before the replies, and the texts of the sessions' replies, one behind the other.
fn texts_of<L>(
    alloc: Global,
    version: Version,
    sessions: Vec<Session<L>>,
) -> Result<Vec<u8>, AllocError>
    ensures { IfOk result (λ text. text.items
        ≡ lines_text (first_lines version) ++ flat_map (λ r. r.text) sessions.items) }
{
    let mut text = Vec::new(alloc);
    push_first_line(&mut text, version)?;
    for session in sessions {
        let own = session.into_text();
        text.extend_from_slice(own.as_slice())?;
    }
    Ok(text)
}
