ghost use Rattle.std.specs.Prelude.{◌≡◌, ◌≤◌, IfOk, IsTrue, flat_map, length};
ghost use Rattle.def_effect.specs.Define.{column_parts, is_in_size, is_no_column, kind_of_new, new_column_refusal, new_column_sort, new_kind, size_holds};
ghost use Rattle.def_resolve.specs.Earlier.{first_in_turn};
ghost use Rattle.wh_define.specs.Places.{place_in};
ghost use Rattle.wh_define.specs.Sizes.{AreSized};
ghost use Rattle.wh_define.specs.Sorts.{meant};

use crate::sorts::Sort;
use std::alloc::{AllocError, Global};
use std::marker::Model;
use wh_base::replies::Refusal;
use wh_base::statements::{NewColumn, RawKind, TablePart};
use wh_base::tables::Kind;
use wh_base::txt::Txt;

/// The most digits of a number, and the most bytes of a text.
const MOST_DIGITS: u32 = 15;

const MOST_BYTES: u32 = 64;

/// A column of the statement, where it stands. Contracts see it as the column.
#[derive(Drop)]
pub struct ColumnAt<'a> {
    column: &'a NewColumn,
}

impl<'a> Model for ColumnAt<'a> {
    ghost use Rattle.wh_base.specs.declared.statements.NewColumn as new;

    ghost Value = { new.NewColumn };

    ghost view = { λ c. c.column.now };
}

impl<'a> ColumnAt<'a> {
    fn new(column: &'a NewColumn) -> ColumnAt<'a>
        ensures { result ≡ column.now }
    {
        ColumnAt { column }
    }

    /// The column.
    pub fn get(&self) -> &NewColumn
        ensures { result.now ≡ self.now }
    {
        self.column
    }

    /// Its name.
    pub fn name(&self) -> &Txt
        ensures { result.now ≡ self.now.name }
    {
        &self.column.name
    }
}

/// The columns of the statement in declared order.
pub fn columns_of<'a>(
    alloc: Global,
    parts: &'a [TablePart],
) -> Result<Vec<ColumnAt<'a>>, AllocError>
    ensures { IfOk result (λ columns. columns.items ≡ flat_map column_parts parts.now) }
{
    let mut columns = Vec::new(alloc);
    for part in parts {
        if let TablePart::Column(column) = part {
            columns.push(ColumnAt::new(column))?;
        }
    }
    Ok(columns)
}

/// Whether no column has this name.
pub fn is_no_column(columns: &[ColumnAt<'_>], name: &Txt) -> bool
    ensures { result ≡ is_no_column columns.now name.now }
{
    for column in columns {
        if column.name().same_as(name) {
            return false;
        }
    }
    true
}

/// The place of the column of this name, counted from 0.
#[tactic(auto, using(crate::proofs::Places::places), unfolding(crate::specs::Places::place_in))]
pub fn place_of(columns: &[ColumnAt<'_>], name: &Txt) -> Option<u32>
    requires { length columns.now ≤ 16 }
    ensures { result ≡ place_in columns.now name.now }
{
    for at in 0..columns.len() {
        if columns[at].name().same_as(name) {
            return Some(at as u32);
        }
    }
    None
}

fn is_in_size(size: i128, most: u32) -> bool
    ensures { result ≡ is_in_size size most }
{
    size >= 1 && size <= i128::from(most)
}

/// Whether the size of a column is in range.
fn size_holds(kind: &RawKind) -> bool
    ensures { result ≡ size_holds kind.now }
{
    match kind {
        RawKind::Digits(None) => true,
        RawKind::Digits(Some(digits)) => is_in_size(*digits, MOST_DIGITS),
        RawKind::Bytes(bytes) => is_in_size(*bytes, MOST_BYTES),
        RawKind::Days => true,
    }
}

/// What a column holds; NUMBER without digits has 15.
pub fn kind_of(kind: &RawKind) -> Kind
    requires { IsTrue (size_holds kind.now) }
    ensures { result ≡ new_kind kind.now }
{
    match kind {
        RawKind::Digits(None) => Kind::Number(MOST_DIGITS),
        RawKind::Digits(Some(digits)) => Kind::Number(*digits as u32),
        RawKind::Bytes(bytes) => Kind::Text(*bytes as u32),
        RawKind::Days => Kind::Date,
    }
}

/// What the column of this name holds, and NUMBER where there is none.
pub fn kind_of_named(columns: &[ColumnAt<'_>], name: &Txt) -> Kind
    requires { AreSized columns.now }
    ensures { result ≡ kind_of_new columns.now name.now }
{
    for column in columns {
        if column.name().same_as(name) {
            return kind_of(&column.get().kind);
        }
    }
    Kind::Number(MOST_DIGITS)
}

/// With what the column of this name may be compared.
pub fn sort_of_named(columns: &[ColumnAt<'_>], name: &Txt) -> Sort
    ensures { meant result ≡ new_column_sort columns.now name.now }
{
    for column in columns {
        if column.name().same_as(name) {
            return Sort::of_written(&column.get().kind);
        }
    }
    Sort::Any
}

/// That an earlier column has the name of this one, or that its size is out of range.
fn column_refusal(
    alloc: Global,
    table: &Txt,
    earlier: &[ColumnAt<'_>],
    column: &NewColumn,
) -> Result<Option<Refusal>, AllocError>
    ensures { IfOk result (λ r. r ≡ new_column_refusal table.now earlier.now column.now) }
{
    if !is_no_column(earlier, &column.name) {
        return Ok(Some(Refusal::NameTaken(column.name.copy(alloc)?)));
    }
    if !size_holds(&column.kind) {
        let table = table.copy(alloc)?;
        return Ok(Some(Refusal::ValueDoesNotFit(table, column.name.copy(alloc)?)));
    }
    Ok(None)
}

/// The first refusal of a column, each asked with those before it.
#[tactic(auto, using(crate::proofs::Turns::turns))]
pub fn columns_refusal(
    alloc: Global,
    table: &Txt,
    columns: &[ColumnAt<'_>],
) -> Result<Option<Refusal>, AllocError>
    ensures { IfOk result (λ r. r ≡ first_in_turn (new_column_refusal table.now) columns.now) }
{
    for at in 0..columns.len() {
        let earlier = &columns[..at];
        if let Some(refusal) = column_refusal(alloc, table, earlier, columns[at].get())? {
            return Ok(Some(refusal));
        }
    }
    Ok(None)
}
