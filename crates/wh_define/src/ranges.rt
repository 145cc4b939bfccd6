ghost use Rattle.std.specs.List.{list_any};
ghost use Rattle.std.specs.Prelude.{◌≡◌, ◌^◌, IfOk, length, map, nat_abs, nat_lt, suc};
ghost use Rattle.def_effect.specs.Block.{byte_is_barred, fits_kind};
ghost use Rattle.def_effect.specs.Define.{bound_fits, bound_refusal, is_above, is_above_last, new_bound, new_range_refusal, numbered_parts};
ghost use Rattle.def_resolve.specs.Earlier.{first_in_turn};
ghost use Rattle.wh_base.specs.Days.{is_day};
ghost use Rattle.wh_base.specs.Lists.{same_text, unless};
ghost use Rattle.wh_base.specs.Values.{literal_value};
ghost use Rattle.wh_define.specs.Bounds.{bounds_of, misplaced, numbered};

use std::alloc::{AllocError, Global};
use wh_base::day::Day;
use wh_base::replies::Refusal;
use wh_base::seq::Seq;
use wh_base::statements::NewRange;
use wh_base::tables::{Kind, Part};
use wh_base::txt::Txt;
use wh_base::values::{Literal, Value};

/// The most digits whose power of ten fits 128 bits. No number of 128 bits has more.
const MOST_POWER: u32 = 38;

/// The value of a literal: a quoted text of no bytes is NULL.
fn literal_value(alloc: Global, literal: &Literal) -> Result<Value, AllocError>
    ensures { IfOk result (λ v. v ≡ literal_value literal.now) }
{
    match literal {
        Literal::Number(number) => Ok(Value::Num(number.get())),
        Literal::Quoted(text) => {
            if text.as_slice().is_empty() {
                Ok(Value::Null)
            } else {
                Ok(Value::Text(text.copy(alloc)?))
            }
        }
        Literal::Dated(day) => Ok(Value::Day(*day)),
    }
}

/// The upper bound of a partition as it is written; `None` is MAXVALUE. An error says that memory ran out.
pub fn new_bound(alloc: Global, range: &NewRange) -> Result<Option<Value>, AllocError>
    ensures { IfOk result (λ b. b ≡ new_bound range.now) }
{
    match &range.below {
        Some(literal) => Ok(Some(literal_value(alloc, literal)?)),
        None => Ok(None),
    }
}

/// Whether a number has at most so many digits.
#[tactic(auto, using(crate::proofs::Digits::digits))]
fn number_fits(number: i128, digits: u32) -> bool
    ensures { result ≡ nat_lt (nat_abs number) (10 ^ digits) }
{
    if digits > MOST_POWER {
        return true;
    }
    number.unsigned_abs() < 10u128.pow(digits)
}

fn byte_is_barred(byte: u8) -> bool
    ensures { result ≡ byte_is_barred byte }
{
    byte < 32 || byte == 127
}

fn has_barred_byte(text: &[u8]) -> bool
    ensures { result ≡ list_any byte_is_barred text.now }
{
    text.iter().any(|byte| byte_is_barred(*byte))
}

/// Whether a day is one of the calendar, as every day is.
fn is_day(day: Day) -> bool
    ensures { result ≡ is_day day }
{
    let _number = day.number();
    true
}

/// Whether a column of this kind may hold a value.
fn fits_kind(kind: Kind, value: &Value) -> bool
    ensures { result ≡ fits_kind kind value.now }
{
    match (kind, value) {
        (Kind::Number(digits), Value::Num(number)) => number_fits(*number, digits),
        (Kind::Text(bytes), Value::Text(text)) => {
            text.len() <= bytes as usize && !has_barred_byte(text.as_slice())
        }
        (Kind::Date, Value::Day(day)) => is_day(*day),
        _ => value.is_null(),
    }
}

/// Whether a bound is a value that a column of this kind may hold, and not NULL.
fn bound_fits(kind: Kind, below: &Option<Value>) -> bool
    ensures { result ≡ bound_fits kind below.now }
{
    match below {
        Some(value) => !value.is_null() && fits_kind(kind, value),
        None => true,
    }
}

/// Whether the second bound is above the first.
fn is_above(first: &Option<Value>, second: &Option<Value>) -> bool
    ensures { result ≡ is_above first.now second.now }
{
    match (first, second) {
        (None, _) => false,
        (Some(_), None) => true,
        (Some(first), Some(second)) => first.compare(second).is_lt(),
    }
}

/// Whether a bound is above the last of the partitions.
#[tactic(auto, using(crate::proofs::Bounds::last_bound))]
fn is_above_last(parts: &[Part], below: &Option<Value>) -> bool
    ensures { result ≡ is_above_last (bounds_of parts.now) below.now }
{
    match parts.last() {
        Some(part) => is_above(&part.below, below),
        None => true,
    }
}

/// That a partition of this name can't stand behind these with this bound.
fn misplaced(
    alloc: Global,
    table: &Txt,
    column: &Txt,
    kind: Kind,
    parts: &[Part],
    name: &Txt,
    below: &Option<Value>,
) -> Result<Option<Refusal>, AllocError>
    ensures { IfOk result (λ r. r ≡ misplaced table.now column.now kind (bounds_of parts.now) name.now below.now) }
{
    if !bound_fits(kind, below) {
        let table = table.copy(alloc)?;
        return Ok(Some(Refusal::ValueDoesNotFit(table, column.copy(alloc)?)));
    }
    if !is_above_last(parts, below) {
        let table = table.copy(alloc)?;
        return Ok(Some(Refusal::PartitionBound(table, name.copy(alloc)?)));
    }
    Ok(None)
}

/// The refusal of a partition behind those that a table has, where its key is this column of this kind: MV-04 for a
/// bound that the column may not hold, then MV-11 for one that isn't above the last. An error says that memory ran out.
pub fn bound_refusal(
    alloc: Global,
    table: &Txt,
    column: &Txt,
    kind: Kind,
    parts: &[Part],
    range: &NewRange,
) -> Result<Option<Refusal>, AllocError>
    ensures { IfOk result (λ r. r ≡ bound_refusal table.now column.now kind (map (λ p. p.below) parts.now) range.now) }
{
    let below = new_bound(alloc, range)?;
    let refusal = misplaced(alloc, table, column, kind, parts, &range.name, &below)?;
    Ok(refusal)
}

/// Whether one of these partitions has this name.
fn has_name(earlier: &[NewRange], name: &Txt) -> bool
    ensures { result ≡ list_any (λ e. same_text e.name name.now) earlier.now }
{
    for range in earlier {
        if range.name.same_as(name) {
            return true;
        }
    }
    false
}

/// The partition behind those of the ranges before it, or that it can't stand there.
#[tactic(auto, using(crate::proofs::Bounds::numbered_bounds))]
fn next_part(
    alloc: Global,
    table: &Txt,
    column: &Txt,
    kind: Kind,
    earlier: &[NewRange],
    parts: &Seq<Part>,
    range: &NewRange,
) -> Result<Result<Part, Refusal>, AllocError>
    requires { parts.now ≡ numbered_parts 1 earlier.now }
    ensures { IfOk result (λ r. r ≡ unless (new_range_refusal table.now column.now kind earlier.now range.now) (numbered (suc (length parts.now)) range.now)) }
{
    if has_name(earlier, &range.name) {
        return Ok(Err(Refusal::NameTaken(range.name.copy(alloc)?)));
    }
    let below = new_bound(alloc, range)?;
    let slice = parts.as_slice();
    if let Some(refusal) = misplaced(alloc, table, column, kind, slice, &range.name, &below)? {
        return Ok(Err(refusal));
    }
    Ok(Ok(Part {
        name: range.name.copy(alloc)?,
        number: parts.len() as u64 + 1,
        below,
    }))
}

/// The partitions of a table in order, numbered from 1, or the first refusal of one.
#[tactic(auto, using(crate::proofs::Numbers::numbering))]
pub fn numbered_parts(
    alloc: Global,
    table: &Txt,
    column: &Txt,
    kind: Kind,
    ranges: &[NewRange],
) -> Result<Result<Seq<Part>, Refusal>, AllocError>
    ensures { IfOk result (λ r. r ≡ unless (first_in_turn (new_range_refusal table.now column.now kind) ranges.now) (numbered_parts 1 ranges.now)) }
{
    let mut parts = Seq::from_vec(Vec::with_capacity(alloc, ranges.len())?)?;
    for at in 0..ranges.len() {
        match next_part(
            alloc,
            table,
            column,
            kind,
            &ranges[..at],
            &parts,
            &ranges[at],
        )? {
            Ok(part) => parts.push(part)?,
            Err(refusal) => return Ok(Err(refusal)),
        }
    }
    Ok(Ok(parts))
}
