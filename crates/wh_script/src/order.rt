ghost use Rattle.def_grammar.specs.Lines.{words_in};
ghost use Rattle.def_grammar.specs.Script.{is_section_of, is_too_long, is_unknown, order_fault, parts_in};
ghost use Rattle.std.specs.List.{list_any};
ghost use Rattle.std.specs.Prelude.{◌≡◌, ◌&&◌, ◌==◌, ◌<◌, ◌^◌, [], count_by, false, length, not};
ghost use Rattle.wh_base.specs.Parts.{parts_of, section_entries};
ghost use Rattle.wh_script.specs.Drafts.{is_named_too_often, numbers_behind};
ghost use Rattle.wh_script.specs.Sections.{Gives};

use crate::draft::bad;
use crate::fault::ScriptFault;
use crate::lines::{next_word, session_number, word_fault};
use std::alloc::Global;
use wh_base::seq::Seq;
use wh_base::statements::{BadScript, Command, ScriptKind, Section, Statement};

/// The session numbers that the words of an order are.
///
/// `Bad`, on this line, is what is wrong with the first word that is no session number: `NotUtf8` where it begins with a byte
/// that is no UTF-8, and else `SessionNumber`. `Memory` says that memory ran out.
#[tactic(auto, using(crate::proofs::Orders::numbers))]
pub fn order_numbers(alloc: Global, line: u64, words: &[u8]) -> Result<Seq<u32>, ScriptFault>
    requires { length words.now < 2 ^ 32 }
    ensures { Gives result (numbers_behind line [] (words_in words.now)) }
{
    let mut numbers = Seq::new(alloc);
    let mut rest = words;
    while let Some(next) = next_word(rest) {
        let Some(number) = session_number(next.word) else {
            return Err(bad(line, word_fault(next.word)));
        };
        let Ok(()) = numbers.push(number) else {
            return Err(ScriptFault::Memory);
        };
        rest = next.rest;
    }
    Ok(numbers)
}

/// The fault of an order of these sessions, on this line: `OrderUnknown` for a session that isn't there, then
/// `OrderTooLong` for one that is named more often than it has parts. Each session reads the order once.
pub fn order_fault(sections: &[Section], line: u64, numbers: &[u32]) -> Option<BadScript>
    ensures { result ≡ order_fault sections.now line numbers.now }
{
    if has_unknown(sections, numbers) {
        return Some(BadScript {
            line,
            kind: ScriptKind::OrderUnknown,
        });
    }
    if has_too_long(sections, numbers) {
        return Some(BadScript {
            line,
            kind: ScriptKind::OrderTooLong,
        });
    }
    None
}

fn has_unknown(sections: &[Section], numbers: &[u32]) -> bool
    ensures { result ≡ list_any (is_unknown sections.now) numbers.now }
{
    for number in numbers {
        if is_unknown(sections, *number) {
            return true;
        }
    }
    false
}

fn is_unknown(sections: &[Section], number: u32) -> bool
    ensures { result ≡ is_unknown sections.now number }
{
    !has_section(sections, number)
}

fn has_section(sections: &[Section], number: u32) -> bool
    ensures { result ≡ list_any (is_section_of number) sections.now }
{
    for section in sections {
        if is_section_of(number, section) {
            return true;
        }
    }
    false
}

fn is_section_of(number: u32, section: &Section) -> bool
    ensures { result ≡ is_section_of number section.now }
{
    section.session == number && number != 0
}

// Whether a session is named more often than it has parts, where each that is named is there.
#[tactic(auto, using(crate::proofs::Orders::sections))]
fn has_too_long(sections: &[Section], numbers: &[u32]) -> bool
    requires { list_any (is_unknown sections.now) numbers.now ≡ false }
    ensures { result ≡ list_any (is_too_long sections.now numbers.now) numbers.now }
{
    has_section_too_often(sections, numbers, sections)
}

// Whether one of the sections is named too often, as all of them have it.
fn has_section_too_often(all: &[Section], numbers: &[u32], sections: &[Section]) -> bool
    ensures { result ≡ list_any (is_named_too_often all.now numbers.now) sections.now }
{
    for section in sections {
        if is_named_too_often(all, numbers, section) {
            return true;
        }
    }
    false
}

fn is_named_too_often(sections: &[Section], numbers: &[u32], section: &Section) -> bool
    ensures { result ≡ is_named_too_often sections.now numbers.now section.now }
{
    section.session != 0 && parts_in(sections, section.session) < count(numbers, section.session)
}

fn count(numbers: &[u32], number: u32) -> usize
    ensures { result ≡ count_by (λ m. m == number) numbers.now }
{
    numbers.iter().filter(|m| **m == number).count()
}

// How many parts the session has.
fn parts_in(sections: &[Section], number: u32) -> usize
    ensures { result ≡ parts_in sections.now number }
{
    for section in sections {
        if is_section_of(number, section) {
            return parts(section);
        }
    }
    0
}

#[tactic(auto, using(crate::proofs::Orders::parts))]
fn parts(section: &Section) -> usize
    ensures { result ≡ length (section_entries section.now) }
{
    let mut parts = 0;
    for command in section.commands.as_slice() {
        parts += parts_of(command.get());
    }
    parts
}

fn parts_of(command: &Command) -> usize
    ensures { result ≡ parts_of command.now }
{
    match command {
        Command::Other(Statement::Refresh(_)) => 2,
        _ => 1,
    }
}
