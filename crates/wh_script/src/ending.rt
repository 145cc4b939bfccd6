ghost use Rattle.def_built.specs.Form.{draft_is_built, script_is_built};
ghost use Rattle.def_grammar.specs.Script.{after_fault, ending, finish, first_black, is_white, no_end, open_fault};
ghost use Rattle.std.specs.Prelude.{◌≡◌, ◌<◌, ◌≤◌, ◌^◌, ◌∷◌, [], Err, IfOk, IfSome, None, Ok, cond, drop, length, slice_index, true};
ghost use Rattle.wh_base.specs.Lists.{first_some};
ghost use Rattle.wh_script.specs.Pieces.{GivesScript, is_white_before};

use crate::draft::Draft;
use crate::fault::ScriptFault;
use crate::lines::{line_at, valid_len};
use crate::script::ReadScript;
use std::alloc::Global;
use wh_base::statements::{BadScript, ScriptKind};

fn byte_or_zero(bytes: &[u8], at: usize) -> u8
    ensures { result ≡ slice_index bytes.now at }
{
    if at < bytes.len() { bytes[at] } else { 0 }
}

fn is_white(byte: u8) -> bool
    ensures { result ≡ is_white byte }
{
    byte == b' ' || byte == b'\t' || byte == b'\n'
}

fn is_white_before(byte: u8, next: u8) -> bool
    ensures { result ≡ is_white_before byte next }
{
    is_white(byte) || (byte == b'\r' && next == b'\n')
}

// The first place from this one on whose byte isn't white space.
#[tactic(auto, using(crate::proofs::Behind::blacks))]
fn first_black(bytes: &[u8], place: usize) -> Option<usize>
    requires { place ≤ length bytes.now }
    ensures black { result ≡ first_black place (drop place bytes.now) }
    ensures within { IfSome result (λ p. p < length bytes.now) }
{
    let mut at = place;
    while at < bytes.len() {
        if !is_white_before(bytes[at], byte_or_zero(bytes, at + 1)) {
            return Some(at);
        }
        at += 1;
    }
    None
}

// The fault of the bytes from a place on, where white space alone may stand.
fn after_fault(bytes: &[u8], place: usize) -> Option<BadScript>
    requires few { length bytes.now < 2 ^ 32 }
    requires within { place ≤ length bytes.now }
    ensures { result ≡ after_fault bytes.now place (drop place bytes.now) }
{
    let black = first_black(bytes, place)?;
    let valid = valid_len(bytes);
    if black < valid {
        Some(BadScript {
            line: line_at(bytes, black),
            kind: ScriptKind::AfterEnd,
        })
    } else {
        Some(BadScript {
            line: line_at(bytes, valid),
            kind: ScriptKind::NotUtf8,
        })
    }
}

// What is open at the end, and then what follows it where nothing may.
fn end_fault(draft: &Draft, bytes: &[u8], tail: bool, place: usize) -> Option<BadScript>
    requires few { length bytes.now < 2 ^ 32 }
    requires within { place ≤ length bytes.now }
    ensures { result ≡ first_some (open_fault draft.entry.now ∷ cond tail None (after_fault bytes.now place (drop place bytes.now)) ∷ []) }
{
    match draft.open_fault() {
        Some(open) => Some(open),
        None if tail => None,
        None => after_fault(bytes, place),
    }
}

// The script that was read, and the place behind it.
#[tactic(auto, using(crate::proofs::Behind::finishes))]
fn finish(draft: Draft, alloc: Global, place: usize) -> Result<ReadScript, ScriptFault>
    requires { draft_is_built draft ≡ true }
    ensures gives { GivesScript result (Ok (finish draft place)) }
    ensures built { IfOk result (λ r. script_is_built r.script ≡ true) }
{
    match draft.into_script(alloc) {
        Ok(script) => Ok(ReadScript {
            script,
            next: place,
        }),
        Err(_) => Err(ScriptFault::Memory),
    }
}

/// The script whose `@end` ends before a place.
pub(crate) fn read_end(
    draft: Draft,
    alloc: Global,
    bytes: &[u8],
    tail: bool,
    place: usize,
) -> Result<ReadScript, ScriptFault>
    requires few { length bytes.now < 2 ^ 32 }
    requires within { place ≤ length bytes.now }
    requires built { draft_is_built draft ≡ true }
    ensures gives { GivesScript result (ending bytes.now tail draft place (drop place bytes.now)) }
    ensures built { IfOk result (λ r. script_is_built r.script ≡ true) }
{
    match end_fault(&draft, bytes, tail, place) {
        Some(fault) => Err(ScriptFault::Bad(fault)),
        None => finish(draft, alloc, place),
    }
}

/// The fault of a script without an end.
#[tactic(auto, using(crate::proofs::Behind::ends))]
pub(crate) fn no_end(draft: &Draft, bytes: &[u8]) -> BadScript
    requires { length bytes.now < 2 ^ 32 }
    ensures { no_end bytes.now draft.entry.now ≡ Err result }
{
    match draft.open_fault() {
        Some(open) => open,
        None => BadScript {
            line: line_at(bytes, bytes.len().saturating_sub(1)),
            kind: ScriptKind::NoEnd,
        },
    }
}
