ghost use Rattle.std.specs.Prelude.{◌≡◌, ◌++◌, [], IfOk, OnOk, filter, flat_map, map, option_to_list};
ghost use Rattle.def_journal.specs.Jobs.{accepted_submits};
ghost use Rattle.def_journal.specs.Journal.{is_setup, next_of, order_of, own_turns, turns, without_next};
ghost use Rattle.wh_base.specs.Parts.{section_entries};
ghost use Rattle.wh_order.specs.Left.{begun, passed_of, setup_entries};

use crate::cursor::Cursor;
use std::alloc::{AllocError, Global};
use wh_base::seq::Seq;
use wh_base::statements::{Entry, Script, Section};

/// The entries that a script's sessions make in its own order: the parts of the setup, then one part for each number of
/// `@order`, the next of that session, and then what is left, session by session. Where no SUBMIT of the script is accepted,
/// and so no worker has anything to do, these are its whole journal. Sessions and `@order` are this project's own.
///
/// It is linear in the sections and their parts, and looks at each session at most twice for each number of `@order`. An
/// error says that memory ran out.
pub fn order_of(alloc: Global, script: &Script) -> Result<Seq<Entry>, AllocError>
    ensures own { IfOk result (λ entries. entries ≡ own_turns script.now) }
    ensures whole { IfOk result (λ entries. accepted_submits script.now ≡ [] → entries ≡ order_of script.now) }
{
    let mut journal = setup_of(alloc, script.sections.as_slice())?;
    let mut left = sessions_of(alloc, script.sections.as_slice())?;
    push_turns(&mut journal, left.as_mut_slice(), script.order.as_slice())?;
    push_left(&mut journal, left)?;
    Ok(journal)
}

/// The parts of the setup.
fn setup_of(alloc: Global, sections: &[Section]) -> Result<Seq<Entry>, AllocError>
    ensures { IfOk result (λ entries. entries ≡ setup_entries sections.now) }
{
    let mut journal = Seq::new(alloc);
    for section in sections {
        if section.session == 0 {
            push_parts(&mut journal, Cursor::new(section))?;
        }
    }
    Ok(journal)
}

/// The sessions, each at its first part.
fn sessions_of<'a>(alloc: Global, sections: &'a [Section]) -> Result<Vec<Cursor<'a>>, AllocError>
    ensures { IfOk result (λ left. left.items ≡ begun sections.now) }
{
    let mut left = Vec::new(alloc);
    for section in sections {
        if section.session != 0 {
            left.push(Cursor::new(section))?;
        }
    }
    Ok(left)
}

/// The part that the session takes next, of these.
fn next_of(left: &[Cursor<'_>], session: u32) -> Option<Entry>
    ensures { option_to_list result ≡ next_of left.now session }
{
    for cursor in left {
        if cursor.is_of(session) {
            return cursor.next();
        }
    }
    None
}

/// Passes over the next part of the session.
fn pass_next(left: &mut [Cursor<'_>], session: u32)
    ensures { left.new ≡ without_next left.old session }
{
    for cursor in left.iter_mut() {
        pass_of(cursor, session);
    }
}

fn pass_of(cursor: &mut Cursor<'_>, session: u32)
    ensures { cursor.new ≡ passed_of session cursor.old }
{
    if cursor.is_of(session) {
        cursor.pass();
    }
}

/// Puts the turns of `@order` behind the journal, and leaves what no number names.
fn push_turns(
    journal: &mut Seq<Entry>,
    left: &mut [Cursor<'_>],
    order: &[u32],
) -> Result<(), AllocError>
    ensures { OnOk result (journal.new ++ turns [] left.new ≡ journal.old ++ turns order.now left.old) }
{
    for session in order {
        push_next(journal, left, *session)?;
        pass_next(left, *session);
    }
    Ok(())
}

/// Puts the part that the session takes next behind the journal, where it has one.
#[tactic(auto, using(crate::proofs::Steps::taken))]
fn push_next(journal: &mut Seq<Entry>, left: &[Cursor<'_>], session: u32) -> Result<(), AllocError>
    ensures { OnOk result (journal.new ≡ journal.old ++ next_of left.now session) }
{
    let Some(entry) = next_of(left, session) else {
        return Ok(());
    };
    journal.push(entry)?;
    Ok(())
}

/// Puts all that is left behind the journal, session by session.
fn push_left(journal: &mut Seq<Entry>, rest: Vec<Cursor<'_>>) -> Result<(), AllocError>
    ensures { OnOk result (journal.new ≡ journal.old ++ turns [] rest.entry.items) }
{
    for cursor in rest {
        push_parts(journal, cursor)?;
    }
    Ok(())
}

/// Puts the parts that are left of a session behind the journal.
#[tactic(auto, using(crate::proofs::Steps::taken))]
fn push_parts(journal: &mut Seq<Entry>, cursor: Cursor<'_>) -> Result<(), AllocError>
    ensures { OnOk result (journal.new ≡ journal.old ++ cursor.entry.1) }
{
    let mut cursor = cursor;
    while let Some(entry) = cursor.next() {
        journal.push(entry)?;
        cursor.pass();
    }
    Ok(())
}
