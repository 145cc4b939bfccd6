ghost use Rattle.def_grammar.specs.Script.{may_load, take_load};
ghost use Rattle.std.specs.Prelude.{◌≡◌, ◌<◌, ◌^◌, length};
ghost use Rattle.wh_script.specs.Sections.{Gives};

use crate::draft::{Draft, bad};
use crate::fault::ScriptFault;
use crate::load::{is_uneven, records};
use std::alloc::Global;
use wh_base::seq::Seq;
use wh_base::statements::{Block, ChangeStatement, Command, LoadRows, ScriptKind, Statement};
use wh_base::txt::Txt;

impl Draft {
    // Whether a LOAD block may stand here.
    fn may_load(&self) -> bool
        ensures { result ≡ may_load self.entry.now }
    {
        self.now.is_some() && self.block.is_none() && self.open_at.is_none()
    }

    /// The draft behind a LOAD block, given with the line of its `@load`, the name of its table, its bytes, and whether an
    /// `@endload` closes it.
    ///
    /// `Bad`, on that line: `Misplaced` outside every section, in a block or behind a statement that isn't closed; then
    /// `OpenLoad` where the block isn't closed; then `LoadShape` where two records have different numbers of fields.
    /// `Memory` says that memory ran out. The kinds of fault are this project's own.
    pub fn take_load(
        self,
        alloc: Global,
        line: u64,
        name: Txt,
        block: &[u8],
        closed: bool,
    ) -> Result<Draft, ScriptFault>
        requires { length block.now < 2 ^ 32 }
        ensures { Gives result (take_load self line name block.now closed) }
    {
        if !self.may_load() {
            return Err(bad(line, ScriptKind::Misplaced));
        }
        if !closed {
            return Err(bad(line, ScriptKind::OpenLoad));
        }
        let Ok(rows) = records(alloc, block) else {
            return Err(ScriptFault::Memory);
        };
        if is_uneven(rows.as_slice()) {
            return Err(bad(line, ScriptKind::LoadShape));
        }
        let mut statements = Seq::new(alloc);
        let load = Statement::Change(ChangeStatement::Load(LoadRows { table: name, rows }));
        match statements.push(load) {
            Ok(()) => self.step_with(alloc, Command::Block(Block { statements })),
            Err(_) => Err(ScriptFault::Memory),
        }
    }
}
