ghost use Rattle.std.specs.Prelude.{◌≡◌, ◌%◌, ◌+◌, IfOk};
ghost use Rattle.wh_base.specs.Days.{date_of, date_text, day_text};
ghost use Rattle.wh_date.specs.Civil.{shown_date};

use jiff_core::civil::Date;
use std::alloc::{AllocError, Global};
use wh_base::day::Day;
use wh_base::txt::Txt;

// The date of a day.
#[tactic(auto, using(crate::proofs::Civil::printing))]
fn date_of(day: Day) -> Date
    ensures { shown_date result ≡ date_of day }
{
    let Ok(date) = Date::from_unix_epoch_day(day.number()) else {
        unreachable!()
    };
    date
}

// The last digit of a number.
fn digit(number: u16) -> u8
    ensures { result ≡ 48 + number % 10 }
{
    b'0' + (number % 10) as u8
}

// YYYY-MM-DD.
fn date_bytes(year: u16, month: u16, day: u16) -> [u8; 10]
    ensures { result ≡ date_text (record { year = year; month = month; day = day }) }
{
    [
        digit(year / 1000),
        digit(year / 100),
        digit(year / 10),
        digit(year),
        b'-',
        digit(month / 10),
        digit(month),
        b'-',
        digit(day / 10),
        digit(day),
    ]
}

/// The ten bytes YYYY-MM-DD of a day, with leading zeros: its date in the proleptic Gregorian calendar, as ISO 8601 and a date
/// literal of the SQL language write it. Takes no memory.
pub fn day_bytes(day: Day) -> [u8; 10]
    ensures { result ≡ day_text day }
{
    let date = date_of(day);
    // The year of a day is at least 1.
    let year = date.year.unsigned_abs();
    date_bytes(year, u16::from(date.month), u16::from(date.day))
}

/// The text YYYY-MM-DD of a day. An error says that memory ran out.
pub fn day_text(alloc: Global, day: Day) -> Result<Txt, AllocError>
    ensures { IfOk result (λ t. t ≡ day_text day) }
{
    Txt::from_slice(alloc, &day_bytes(day))
}
