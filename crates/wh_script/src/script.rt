ghost use Rattle.def_built.specs.Form.{built_script, script_is_built};
ghost use Rattle.std.specs.Prelude.{◌≡◌, ◌<◌, ◌^◌, IfOk, length, true};
ghost use Rattle.wh_script.specs.Pieces.{GivesScript};

use crate::draft::Draft;
use crate::ending::{no_end, read_end};
use crate::fault::ScriptFault;
use crate::lines::{LineMark, valid_len};
use crate::pieces::{Position, Walked, read_piece};
use std::alloc::Global;
use wh_base::statements::Script;

/// A script, and the place behind the line of its end.
#[derive(Drop)]
pub struct ReadScript {
    pub script: Script,
    pub next: usize,
}

/// The script that the bytes are, with the place behind the line of its `@end`. With a tail any bytes may follow that line.
///
/// The bytes are read piece by piece, from the first to the last: runs of text, whose statements end with semicolons, lines
/// that begin with `@`, and LOAD blocks. `Bad` tells what is wrong first, with its line, counted from 1: the fault of the
/// least place, and of those of one place the one that stands first in `ScriptKind`. A fault is told on the line of
///
/// - `NotUtf8`: the first byte that is no UTF-8; with a tail those behind the end are not looked at;
/// - `BadCharacter`, `OpenQuote`: the byte of a text that begins no token, or the quote that is not closed. In a quote that is
///   closed a byte that is no UTF-8 is told by itself;
/// - `UnknownDirective`: a line that begins with `@` and is no directive;
/// - `Misplaced`: the statement, or the directive, that may not stand where it does: a statement in no section; in a block
///   BEGIN and all but INSERT, UPDATE, DELETE and SELECT; SUBMIT in the setup; `@setup` behind a section, workers or an
///   order; `@workers` behind a session, workers or an order; `@session` or `@order` behind an order; a LOAD block in no
///   section, in a block or behind a statement that is open; `@endload` with no `@load`;
/// - `SessionNumber`: `@session` or `@order` of a word that is no number of 1 to 64, `@session` of one that isn't above the
///   last, or `@workers` of a word that is no number of 1 to 8;
/// - `Syntax`: the first token of a statement that isn't in the grammar, or its semicolon where it has none;
/// - `OpenStatement`, `OpenBlock`: the statement without a semicolon, or the BEGIN without COMMIT, where a section ends;
/// - `OpenLoad`: `@load` with no `@endload`;
/// - `LoadShape`: `@load` of records that have not the same number of fields;
/// - `OrderUnknown`, `OrderTooLong`: `@order` of a session that isn't there, or of one more often than it has parts;
/// - `NoEnd`: the last line that has a byte, where there is no `@end`; line 1 for no bytes;
/// - `AfterEnd`: without a tail, the first byte behind the line of `@end` that isn't white space, which is a space, a tab, LF,
///   or CR before LF;
/// - `NotBuilt`: the statement or the directive whose form is in the grammar and not in this program; of a view over a view
///   the statement by which both are there.
///
/// `Memory` says that memory ran out. The form of scripts is this project's own.
#[tactic(auto, using(crate::proofs::Walks::scripts))]
pub fn read_script(alloc: Global, bytes: &[u8], tail: bool) -> Result<ReadScript, ScriptFault>
    requires { length bytes.now < 2 ^ 32 }
    ensures gives { GivesScript result (built_script bytes.now tail) }
    ensures built { IfOk result (λ r. script_is_built r.script ≡ true) }
{
    let valid = valid_len(bytes);
    let mut draft = Draft::new(alloc);
    let mut mark = LineMark { place: 0, line: 1 };
    while mark.place < bytes.len() {
        match read_piece(draft, alloc, &Position { bytes, valid, mark })? {
            Walked::On(behind, next) => {
                draft = behind;
                mark = next;
            }
            Walked::AtEnd(behind, next) => {
                return read_end(behind, alloc, bytes, tail, next);
            }
        }
    }
    Err(ScriptFault::Bad(no_end(&draft, bytes)))
}
