ghost use Rattle.std.specs.Prelude.{◌≡◌, ◌↔◌, IsTrue};
ghost use Rattle.wh_base.specs.DayTexts.{NamesItsDay, IsItsText, CountsDays, CountsDates};
ghost use Rattle.wh_base.specs.Days.{is_day};
ghost use Rattle.wh_base.specs.Lists.{where_true};

use std::marker::Model;

/// The number of 0001-01-01, the first day that there is, counted from 1970-01-01.
const FIRST: i64 = -719_162;

/// The number of 9999-12-31, the last day.
const LAST: i64 = 2_932_896;

/// A day of the calendar from 0001-01-01 to 9999-12-31, which contracts see as its number, counted from 1970-01-01.
#[derive(Clone, Copy, Debug, PartialEq, Eq, Hash)]
pub struct Day {
    number: i64,
}

impl Model for Day {
    ghost use Rattle.std.specs.Prelude.{ℤ, IsTrue, refl};
    ghost use Rattle.wh_base.specs.Days.{is_day};

    ghost Value = { ℤ };

    ghost view = { λ d. d.number };

    ghost invariant = { λ d. IsTrue (is_day d.number) };

    ghost inverse = { λ n. record { number = n } };

    ghost inverse_ok = { λ d h. refl };
}

impl Day {
    /// The day of this number; `None` exactly where there is none.
    pub fn new(number: i64) -> Option<Day>
        ensures { result ≡ where_true (is_day number) number }
    {
        if number < FIRST || number > LAST {
            return None;
        }
        Some(Day { number })
    }

    /// Its number, counted from 1970-01-01.
    pub fn number(self) -> i64
        ensures number { result ≡ self }
        ensures within { IsTrue (is_day result) }
    {
        self.number
    }

    /// Whether the two are one day.
    pub fn is(self, other: Day) -> bool
        ensures { IsTrue result ↔ (self ≡ other) }
    {
        self.number == other.number
    }
}

/// The calendar's laws: numbers and dates of days go back and forth, and so do numbers and texts.
pub fn calendar_laws()
    ensures days { CountsDays }
    ensures dates { CountsDates }
    ensures names { NamesItsDay }
    ensures only { IsItsText }
{}
