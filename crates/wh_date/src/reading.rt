ghost use Rattle.std.specs.Prelude.{◌≡◌, ◌≤◌, ◌<◌, ◌^◌, length, IfSome, Some};
ghost use Rattle.wh_base.specs.DayTexts.{day_of, day_of_date, has_date_form};
ghost use Rattle.wh_base.specs.Values.{digits_number};

use jiff_core::civil::Date;
use wh_base::day::Day;

// Whether these are ten bytes, of which the fifth and the eighth are `-`.
fn has_date_form(text: &[u8]) -> bool
    ensures { result ≡ has_date_form text.now }
{
    text.len() == 10 && text[4] == b'-' && text[7] == b'-'
}

// The number that at most four digits spell; none where there is no byte or one that is no digit.
fn number_of(digits: &[u8]) -> Option<u16>
    requires { length digits.now ≤ 4 }
    ensures number { result ≡ digits_number digits.now }
    ensures small { IfSome result (λ n. n < 10 ^ length digits.now) }
{
    if digits.is_empty() {
        return None;
    }
    let mut number = 0u16;
    for digit in digits {
        if !digit.is_ascii_digit() {
            return None;
        }
        number = number * 10 + u16::from(*digit - b'0');
    }
    Some(number)
}

// The day of a year, a month and a day of the month, where the calendar has it. The kit's calendar has a year 0 before the
// year 1, and no `Day` lies in it.
#[tactic(auto, using(crate::proofs::Civil::reading))]
fn day_of_date(year: u16, month: u16, day: u16) -> Option<Day>
    requires year_in { year < 10000 }
    requires month_in { month < 100 }
    requires day_in { day < 100 }
    ensures { result ≡ day_of_date (Some (record { year = year; month = month; day = day })) }
{
    let Ok(date) = Date::new(year as i16, month as i8, day as i8) else {
        return None;
    };
    Day::new(i64::from(date.to_unix_epoch_day()))
}

/// The day that a text YYYY-MM-DD names, as in a date literal of the SQL language; `None` exactly where it names none: where it
/// has another form, or the proleptic Gregorian calendar has no such date from 0001-01-01 to 9999-12-31. Takes no memory.
pub fn day_of(text: &[u8]) -> Option<Day>
    ensures { result ≡ day_of text.now }
{
    if !has_date_form(text) {
        return None;
    }
    let year = number_of(&text[..4])?;
    let month = number_of(&text[5..7])?;
    let day = number_of(&text[8..])?;
    day_of_date(year, month, day)
}
