ghost use Rattle.std.specs.Prelude.{◌≡◌, ◌++◌, ◌∷◌, [], IfOk, OnOk, codes, length};
ghost use Rattle.def_output.specs.Generator.{number_line, summary};
ghost use Rattle.def_output.specs.Output.{Generating};
ghost use Rattle.def_output.specs.Program.{Counted};
ghost use Rattle.def_transcript.specs.Texts.{lines_text};
ghost use Rattle.wh_session.specs.Tally.{both, tally_of};
ghost use Rattle.wh_top.specs.Running.{command_count, total};

use crate::output::perform;
use itoa::Buffer;
use std::alloc::{AllocError, Global};
use wh_base::reads::Reads;
use wh_base::statements::Section;
use wh_base::values::Version;
use wh_generator::{generated, generated_script_runs};
use wh_session::{Session, Tally};

/// The summary of the generated script with so many sales, which is run in its own order: its commands, how many were
/// refused, how many answers came from a view, the base rows read, and the last SCN. The script and the form of the summary
/// are this project's own. An error says that memory ran out, that a number of the summary has more than 64 bits, or what
/// else `take_parts` names, which no run brings about.
///
/// The counter of each session rises by the base rows that the replies to it say were read.
pub fn summary<L>(alloc: Global, sales: u32, reads: &mut [Reads<L>]) -> Result<Vec<u8>, AllocError>
    requires counters { length reads.old ≡ 65 }
    ensures summary { IfOk result (λ text. text.items ≡ lines_text (summary sales)) }
    ensures counted { OnOk result (Counted (Generating sales) [] reads.old reads.new) }
{
    // The law of the generated script: it does nothing, and says that the script can be run.
    generated_script_runs();
    let script = generated(alloc, sales)?;
    let commands = command_count(script.sections.as_slice())?;
    // The texts of the replies aren't written, so any version does.
    let performed = perform(alloc, Version::Two, script, reads)?;
    let tally = total(performed.sessions.as_slice())?;
    let text = text_of(alloc, sales, commands, tally, performed.scn)?;
    Ok(text)
}

/// How many commands these sections have. An error says that the number has more than 64 bits.
fn command_count(sections: &[Section]) -> Result<u64, AllocError>
    ensures { IfOk result (λ n. n ≡ command_count sections.now) }
{
    let mut count: u64 = 0;
    for section in sections {
        let Some(more) = count.checked_add(section.commands.len() as u64) else {
            return Err(AllocError);
        };
        count = more;
    }
    Ok(count)
}

/// The tallies of all sessions together. An error says that a sum has more than 64 bits.
fn total<L>(sessions: &[Session<L>]) -> Result<Tally, AllocError>
    ensures { IfOk result (λ t. t ≡ total sessions.now) }
{
    let mut all = Tally::new();
    for session in sessions {
        all = all.plus(session.tally())?;
    }
    Ok(all)
}

/// The lines of the summary.
fn text_of(
    alloc: Global,
    sales: u32,
    commands: u64,
    tally: Tally,
    scn: u64,
) -> Result<Vec<u8>, AllocError>
    ensures { IfOk result (λ text. text.items ≡ lines_text (
        number_line (codes "gen") sales
        ∷ number_line (codes "commands") commands
        ∷ number_line (codes "refused") tally.refused
        ∷ number_line (codes "rewritten") tally.rewritten
        ∷ number_line (codes "read") tally.read
        ∷ number_line (codes "scn") scn
        ∷ [])) }
{
    let mut text = Vec::new(alloc);
    push_line(&mut text, b"gen", u64::from(sales))?;
    push_line(&mut text, b"commands", commands)?;
    push_line(&mut text, b"refused", tally.refused)?;
    push_line(&mut text, b"rewritten", tally.rewritten)?;
    push_line(&mut text, b"read", tally.read)?;
    push_line(&mut text, b"scn", scn)?;
    Ok(text)
}

/// A word, a space and a number as a line.
fn push_line(text: &mut Vec<u8>, word: &[u8], number: u64) -> Result<(), AllocError>
    ensures { OnOk result (text.new.items ≡ text.old.items ++ lines_text (number_line word.now number ∷ [])) }
{
    let mut buffer = Buffer::new();
    text.extend_from_slice(word)?;
    text.push(b' ')?;
    text.extend_from_slice(buffer.format(number).as_bytes())?;
    text.push(b'\n')?;
    Ok(())
}
