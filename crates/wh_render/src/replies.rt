ghost use Rattle.std.specs.Prelude.{◌≡◌, ◌++◌, ◌∷◌, IfOk, OnOk, [], map};
ghost use Rattle.def_transcript.specs.Texts.{body_words, entry_text, first_lines, id_text, journal_line, lines_text, reply_lines, words, worker_text};
ghost use Rattle.wh_render.specs.Pieces.{more_words};

use crate::bodies::push_body;
use crate::fields::Printed;
use crate::lines::push_lines_after;
use crate::words::{push_all_printed, push_number};
use std::alloc::{AllocError, Global};
use wh_base::replies::Reply;
use wh_base::seq::Seq;
use wh_base::statements::{Entry, Id};
use wh_base::txt::Txt;
use wh_base::values::Version;

/// The session and the command; for the reply of a job JOB and the worker.
impl Printed for Id {
    ghost text = { id_text };

    fn push_text(&self, out: &mut Vec<u8>) -> Result<(), AllocError> {
        if self.worker == 0 {
            push_number(out, self.session)?;
            out.push(b'.')?;
            push_number(out, self.command)?;
        } else {
            out.extend_from_slice(b"JOB ")?;
            push_number(out, self.worker)?;
        }
        Ok(())
    }
}

/// The mark of the worker that did a part, and nothing where the session did it.
fn push_worker(out: &mut Vec<u8>, worker: u32) -> Result<(), AllocError>
    ensures { OnOk result (out.new.items ≡ out.old.items ++ worker_text worker) }
{
    if worker == 0 {
        return Ok(());
    }
    out.push(b'@')?;
    push_number(out, worker)
}

impl Printed for Entry {
    ghost text = { entry_text };

    fn push_text(&self, out: &mut Vec<u8>) -> Result<(), AllocError> {
        push_number(out, self.session)?;
        out.push(b'.')?;
        push_number(out, self.command)?;
        out.push(b'.')?;
        push_number(out, self.part)?;
        push_worker(out, self.worker)?;
        Ok(())
    }
}

/// Writes what stands before the replies of a transcript at the end of `out`: in the second version the line `mviewdb 2`,
/// in the first nothing. An error says that memory ran out. The versions are this project's own.
pub fn push_first_line(out: &mut Vec<u8>, version: Version) -> Result<(), AllocError>
    ensures { OnOk result (out.new.items ≡ out.old.items ++ lines_text (first_lines version)) }
{
    match version {
        Version::One => Ok(()),
        Version::Two => out.extend_from_slice(b"mviewdb 2\n"),
    }
}

/// The first line of a reply.
fn push_header(out: &mut Vec<u8>, id: Id, reply: &Reply) -> Result<(), AllocError>
    ensures { OnOk result (out.new.items
        ≡ out.old.items ++ (words (id_text id ∷ body_words reply.now) ++ 10 ∷ [])) }
{
    id.push_text(out)?;
    push_body(out, reply)?;
    out.push(b'\n')?;
    Ok(())
}

/// Writes the reply to a command at the end of `out`, as this version of transcripts has it: the header line, and the lines
/// after it, each with its line end. An error says that memory ran out; `out` then has a part of the text. The forms of
/// replies are this project's own.
pub fn push_reply(
    out: &mut Vec<u8>,
    version: Version,
    id: Id,
    reply: &Reply,
) -> Result<(), AllocError>
    ensures { OnOk result (out.new.items
        ≡ out.old.items ++ lines_text (reply_lines version id reply.now)) }
{
    push_header(out, id, reply)?;
    push_lines_after(out, version, reply)?;
    Ok(())
}

/// The text of the reply to a command, as this version of transcripts has it. An error says that memory ran out, or that the
/// text has 2^32 bytes or more.
pub fn reply_text(alloc: Global, id: Id, reply: &Reply, version: Version) -> Result<Txt, AllocError>
    ensures { IfOk result (λ text. text ≡ lines_text (reply_lines version id reply.now)) }
{
    let mut out = Vec::new(alloc);
    push_reply(&mut out, version, id, reply)?;
    Txt::from_vec(out)
}

/// Writes the line of a journal at the end of `out`, with its line end. An error says that memory ran out; `out` then
/// has a part of the line. The form of the line is this project's own.
pub fn push_journal(out: &mut Vec<u8>, entries: &[Entry]) -> Result<(), AllocError>
    ensures { OnOk result (out.new.items
        ≡ out.old.items ++ lines_text (journal_line entries.now ∷ [])) }
{
    out.extend_from_slice(b"journal")?;
    push_all_printed(out, entries)?;
    out.push(b'\n')?;
    Ok(())
}

/// The line of a journal with its line end, which is the same in each version of transcripts. An error says that memory ran
/// out, or that the text has 2^32 bytes or more.
pub fn journal_text(
    alloc: Global,
    journal: &Seq<Entry>,
    _version: Version,
) -> Result<Txt, AllocError>
    ensures { IfOk result (λ text. text ≡ lines_text (journal_line journal.now ∷ [])) }
{
    let mut out = Vec::new(alloc);
    push_journal(&mut out, journal.as_slice())?;
    Txt::from_vec(out)
}
