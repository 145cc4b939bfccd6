//! The value that a field of a LOAD stands for.
ghost use Rattle.std.specs.Prelude.{◌≡◌, ◌≤◌, ◌+◌, ◌*◌, IfOk, IfSome, min, option_map};
ghost use Rattle.def_effect.specs.Block.{field_number, field_value};
ghost use Rattle.wh_base.specs.Values.{digits_number};
ghost use Rattle.wh_load.specs.Capped.{capped, capped_number, capped_size, largest};

use std::alloc::{AllocError, Global};
use wh_base::tables::Kind;
use wh_base::txt::Txt;
use wh_base::values::Value;
use wh_date::day_of;

/// The greatest size of a number that is read, and a tenth of it.
const LARGEST: u128 = 100_000_000_000_000_000_000_000_000_000_000_000_000;

const TENTH: u128 = 10_000_000_000_000_000_000_000_000_000_000_000_000;

/// The size with one digit more behind it, 10^38 at the most.
fn with_digit(size: u128, digit: u8) -> u128
    requires digit { digit ≤ 9 }
    ensures { result ≡ min (size * 10 + digit) largest }
{
    if size >= TENTH {
        return LARGEST;
    }
    size * 10 + u128::from(digit)
}

/// The number that digits stand for, 10^38 at the most. None where there is no digit, or a byte that isn't one.
#[tactic(auto, using(crate::proofs::Reading::digits))]
fn size_of(digits: &[u8]) -> Option<u128>
    ensures size { result ≡ option_map capped_size (digits_number digits.now) }
    ensures most { IfSome result (λ size. size ≤ largest) }
{
    if digits.is_empty() {
        return None;
    }
    let mut size = 0;
    for digit in digits {
        if *digit < b'0' || b'9' < *digit {
            return None;
        }
        size = with_digit(size, *digit - b'0');
    }
    Some(size)
}

/// The number that a field stands for, with a size of 10^38 at the most: digits, with or without a minus before them.
fn number_of(field: &[u8]) -> Option<i128>
    ensures { result ≡ option_map capped_number (field_number field.now) }
{
    let (first, digits) = field.split_first()?;
    if *first == b'-' {
        let size = size_of(digits)?;
        return Some(-(size as i128));
    }
    let size = size_of(field)?;
    Some(size as i128)
}

/// The value of a field in a column of this kind: NULL for a field of no bytes, and none for one that is no number in a column
/// of numbers, or no day YYYY-MM-DD in a column of days. A number of more than 10^38 in size is taken for 10^38 with its
/// sign. An error says that memory ran out.
#[tactic(auto, using(crate::proofs::Reading::fields))]
pub(crate) fn field_value(
    alloc: Global,
    kind: Kind,
    field: &Txt,
) -> Result<Option<Value>, AllocError>
    ensures { IfOk result (λ v. v ≡ option_map capped (field_value kind field.now)) }
{
    if field.is_empty() {
        return Ok(Some(Value::Null));
    }
    match kind {
        Kind::Number(_) => match number_of(field.as_slice()) {
            Some(number) => Ok(Some(Value::Num(number))),
            None => Ok(None),
        },
        Kind::Text(_) => Ok(Some(Value::Text(field.copy(alloc)?))),
        Kind::Date => Ok(day_of(field.as_slice()).map(Value::Day)),
    }
}
