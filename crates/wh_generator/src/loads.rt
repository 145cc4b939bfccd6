ghost use Rattle.std.specs.Prelude.{◌≡◌, ◌∷◌, [], ◌++◌, IfOk, OnOk, decimal, map};
ghost use Rattle.def_output.specs.Generator.{day_row, sale_row};
ghost use Rattle.wh_generator.specs.Parts.{day_rows, loaded, sale_rows};

use crate::series::{Series, lists_of};
use itoa::Buffer;
use std::alloc::{AllocError, Global};
use wh_base::seq::Seq;
use wh_base::shared::Shared;
use wh_base::statements::{Block, ChangeStatement, Command, LoadRows, Statement};
use wh_base::txt::Txt;

// A row of these numbers. An error says that memory ran out.
fn row(alloc: Global, fields: &[u64]) -> Result<Seq<Txt>, AllocError>
    ensures { IfOk result (λ row. row ≡ map decimal fields.now) }
{
    let mut row = Seq::from_vec(Vec::with_capacity(alloc, fields.len())?)?;
    for field in fields {
        let mut buffer = Buffer::new();
        row.push(Txt::from_slice(alloc, buffer.format(*field).as_bytes())?)?;
    }
    Ok(row)
}

/// The row of a day: its number and its month, of 30 days each, both from 0.
pub(crate) struct Days;

impl Series for Days {
    type Item = Seq<Txt>;

    ghost items = { λ days day. day_row day ∷ [] };

    fn push_items(
        &self,
        alloc: Global,
        number: u32,
        all: &mut Seq<Seq<Txt>>,
    ) -> Result<(), AllocError> {
        let day = u64::from(number);
        all.push(row(alloc, &[day, day / 30])?)
    }
}

/// The row of a sale: its day of 360, its product of 50, and its amount below 1000.
pub(crate) struct Sales;

impl Series for Sales {
    type Item = Seq<Txt>;

    ghost items = { λ sales sale. sale_row sale ∷ [] };

    fn push_items(
        &self,
        alloc: Global,
        number: u32,
        all: &mut Seq<Seq<Txt>>,
    ) -> Result<(), AllocError> {
        let sale = u64::from(number);
        all.push(row(alloc, &[7 * sale % 360, 13 * sale % 50, sale * sale % 1000])?)
    }
}

/// The rows of so many days, from day 0 on. An error says that memory ran out.
#[tactic(auto, using(crate::proofs::Counting::single), unfolding(crate::specs::Parts::day_rows))]
pub(crate) fn day_rows(alloc: Global, days: u32) -> Result<Seq<Seq<Txt>>, AllocError>
    ensures { IfOk result (λ rows. rows ≡ day_rows days) }
{
    let rows = lists_of(alloc, days, &Days)?;
    Ok(rows)
}

/// The rows of so many sales. An error says that memory ran out.
#[tactic(auto, using(crate::proofs::Counting::single), unfolding(crate::specs::Parts::sale_rows))]
pub(crate) fn sale_rows(alloc: Global, sales: u32) -> Result<Seq<Seq<Txt>>, AllocError>
    ensures { IfOk result (λ rows. rows ≡ sale_rows sales) }
{
    let rows = lists_of(alloc, sales, &Sales)?;
    Ok(rows)
}

/// A LOAD of these rows at the end of the commands. An error says that memory ran out.
#[tactic(auto, unfolding(crate::specs::Parts::loaded))]
pub(crate) fn push_load(
    alloc: Global,
    table: &[u8],
    rows: Seq<Seq<Txt>>,
    commands: &mut Seq<Shared<Command>>,
) -> Result<(), AllocError>
    ensures { OnOk result (commands.new ≡ commands.old ++ loaded table.now rows) }
{
    let mut statements = Seq::new(alloc);
    statements.push(Statement::Change(ChangeStatement::Load(LoadRows {
        table: Txt::from_slice(alloc, table)?,
        rows,
    })))?;
    let load = Shared::new(alloc, Command::Block(Block { statements }))?;
    commands.push(load)
}
