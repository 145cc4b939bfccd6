ghost use Rattle.def_built.specs.Form.{draft_is_built};
ghost use Rattle.def_grammar.specs.Lines.{LoadOf, raw_lines};
ghost use Rattle.def_grammar.specs.Script.{broken_within};
ghost use Rattle.std.specs.Prelude.{◌≡◌, ◌<◌, ◌≤◌, ◌+◌, codes, drop, length, take, true};
ghost use Rattle.wh_base.specs.Lists.{same_text};
ghost use Rattle.wh_script.specs.Pieces.{IsAlone, IsAtDirective, IsPosition, IsStep, IsWalked, block_len, is_closing, line_len, text_len};
ghost use Rattle.wh_script.specs.Sections.{HasFewBytes, meant};

use crate::draft::{Draft, bad};
use crate::fault::ScriptFault;
use crate::lines::{Directive, LineMark, content_of, directive_on, line_at, mark_at};
use std::alloc::Global;
use wh_base::statements::ScriptKind;
use wh_base::txt::Txt;

/// Where the walk over a script is.
#[derive(Clone, Copy)]
pub(crate) struct Position<'a> {
    pub bytes: &'a [u8],
    /// How many bytes in front are UTF-8.
    pub valid: usize,
    /// The next byte, at the begin of a line.
    pub mark: LineMark,
}

/// What the walk over a script comes to behind a piece.
#[derive(Drop)]
pub(crate) enum Walked {
    /// The draft behind the piece, and where the next one starts.
    On(Draft, LineMark),
    /// The draft at `@end`, and the place behind its line.
    AtEnd(Draft, usize),
}

// How many bytes stand before the first line that begins with @.
fn text_len(bytes: &[u8]) -> usize
    ensures count { result ≡ text_len true bytes.now }
    ensures within { result ≤ length bytes.now }
{
    let mut starts = true;
    let mut at = 0;
    while at < bytes.len() {
        if starts && bytes[at] == b'@' {
            return at;
        }
        starts = bytes[at] == 10;
        at += 1;
    }
    at
}

// How many bytes the first line has, its LF with them.
fn line_len(bytes: &[u8]) -> usize
    ensures count { result ≡ line_len bytes.now }
    ensures within { result ≤ length bytes.now }
    ensures some { 0 < length bytes.now → 0 < result }
{
    let mut at = 0;
    while at < bytes.len() {
        at += 1;
        if bytes[at - 1] == 10 {
            return at;
        }
    }
    at
}

// The line that starts at a place, with its LF.
fn line_from(bytes: &[u8], place: usize) -> &[u8]
    requires { place ≤ length bytes.now }
    ensures line { result.now ≡ take (line_len (drop place bytes.now)) (drop place bytes.now) }
    ensures len { length result.now ≡ line_len (drop place bytes.now) }
    ensures within { place + length result.now ≤ length bytes.now }
    ensures some { place < length bytes.now → 0 < length result.now }
{
    let rest = bytes.split_at(place).1;
    rest.split_at(line_len(rest)).0
}

fn is_text(text: &[u8], other: &[u8]) -> bool
    ensures { result ≡ same_text text.now other.now }
{
    text == other
}

// Whether a line closes a LOAD block.
fn is_closing(raw: &[u8]) -> bool
    ensures { result ≡ is_closing raw.now }
{
    is_text(content_of(raw), b"@endload")
}

// How many bytes stand on the lines before the first `@endload`, whatever is on them; all, where there is none.
#[tactic(auto, using(crate::proofs::LineRuns::blocks))]
fn block_len(bytes: &[u8]) -> usize
    ensures count { result ≡ block_len (raw_lines bytes.now) }
    ensures within { result ≤ length bytes.now }
{
    let mut at = 0;
    while at < bytes.len() {
        let raw = line_from(bytes, at);
        if is_closing(raw) {
            return at;
        }
        at += raw.len();
    }
    at
}

// On from a piece of this size to the next place, or NotUtf8 where the first byte that is no UTF-8 stands in the piece.
#[tactic(auto, using(crate::proofs::Walks::ons))]
fn walk_on(draft: Draft, at: &Position<'_>, size: usize, next: usize) -> Result<Walked, ScriptFault>
    requires position { IsPosition at.now }
    requires sized { at.now.mark.place + size ≤ length at.now.bytes.now }
    requires later { at.now.mark.place ≤ next }
    requires within { next ≤ length at.now.bytes.now }
    requires built { draft_is_built draft ≡ true }
    ensures { IsWalked at.now.bytes.now draft (broken_within at.now.valid at.now.mark.place size) next result }
{
    if at.mark.place <= at.valid && at.valid < at.mark.place + size {
        return Err(bad(line_at(at.bytes, at.valid), ScriptKind::NotUtf8));
    }
    Ok(Walked::On(draft, mark_at(at.bytes, at.mark, next)))
}

// A run of text.
fn read_run(
    draft: Draft,
    alloc: Global,
    at: &Position<'_>,
    size: usize,
) -> Result<Walked, ScriptFault>
    requires position { IsPosition at.now }
    requires within { at.now.mark.place + size ≤ length at.now.bytes.now }
    requires size { size ≡ text_len true (drop at.now.mark.place at.now.bytes.now) }
    requires some { 0 < size }
    requires built { draft_is_built draft ≡ true }
    ensures { IsStep at.now.bytes.now at.now.valid draft at.now.mark.place result }
{
    let end = at.mark.place + size;
    match draft.read_text(alloc, at.bytes, at.valid, at.mark, end) {
        Ok(draft) => Ok(Walked::On(draft, mark_at(at.bytes, at.mark, end))),
        Err(fault) => Err(fault),
    }
}

// A LOAD block, whose `@load` is on the line at the mark.
fn read_block(
    draft: Draft,
    alloc: Global,
    at: &Position<'_>,
    name: Txt,
) -> Result<Walked, ScriptFault>
    requires position { IsPosition at.now }
    requires directive { IsAtDirective at.now (LoadOf name) }
    requires built { draft_is_built draft ≡ true }
    ensures { IsStep at.now.bytes.now at.now.valid draft at.now.mark.place result }
{
    let start = at.mark.place + line_from(at.bytes, at.mark.place).len();
    let rest = at.bytes.split_at(start).1;
    let size = block_len(rest);
    let end = start + size;
    let closed = end < at.bytes.len();
    match draft.read_load(alloc, at.mark.line, name, rest.split_at(size).0, closed) {
        Ok(draft) => {
            let next = end + line_from(at.bytes, end).len();
            walk_on(draft, at, end - at.mark.place, next)
        }
        Err(fault) => Err(fault),
    }
}

// A directive on the line at the mark that is no `@load` and no `@end`.
fn read_alone(
    draft: Draft,
    alloc: Global,
    at: &Position<'_>,
    directive: &Directive<'_>,
) -> Result<Walked, ScriptFault>
    requires position { IsPosition at.now }
    requires directive { IsAtDirective at.now (meant directive.now) }
    requires alone { IsAlone directive.now }
    requires words { HasFewBytes directive.now }
    requires built { draft_is_built draft ≡ true }
    ensures { IsStep at.now.bytes.now at.now.valid draft at.now.mark.place result }
{
    let size = line_from(at.bytes, at.mark.place).len();
    match draft.read_directive(alloc, at.mark.line, directive) {
        Ok(draft) => walk_on(draft, at, size, at.mark.place + size),
        Err(fault) => Err(fault),
    }
}

// The piece that begins with the directive on the line at the mark.
fn read_line(draft: Draft, alloc: Global, at: &Position<'_>) -> Result<Walked, ScriptFault>
    requires position { IsPosition at.now }
    requires some { at.now.mark.place < length at.now.bytes.now }
    requires no_text { text_len true (drop at.now.mark.place at.now.bytes.now) ≡ 0 }
    requires built { draft_is_built draft ≡ true }
    ensures { IsStep at.now.bytes.now at.now.valid draft at.now.mark.place result }
{
    let line = line_from(at.bytes, at.mark.place);
    let Ok(directive) = directive_on(alloc, line) else {
        return Err(ScriptFault::Memory);
    };
    match directive {
        Directive::EndScript => Ok(Walked::AtEnd(draft, at.mark.place + line.len())),
        Directive::Load(name) => read_block(draft, alloc, at, name),
        alone => read_alone(draft, alloc, at, &alone),
    }
}

/// The piece that starts at the mark, where something is left.
///
/// `Bad` is the fault that the script has there, as `script::read_script` has it. `Memory` says that memory ran out.
pub(crate) fn read_piece(
    draft: Draft,
    alloc: Global,
    at: &Position<'_>,
) -> Result<Walked, ScriptFault>
    requires position { IsPosition at.now }
    requires some { at.now.mark.place < length at.now.bytes.now }
    requires built { draft_is_built draft ≡ true }
    ensures { IsStep at.now.bytes.now at.now.valid draft at.now.mark.place result }
{
    let size = text_len(at.bytes.split_at(at.mark.place).1);
    if size == 0 {
        read_line(draft, alloc, at)
    } else {
        read_run(draft, alloc, at, size)
    }
}
