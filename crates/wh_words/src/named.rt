ghost use Rattle.std.specs.Prelude.{◌≡◌, ◌≤◌, length, option_map};
ghost use Rattle.wh_base.specs.Values.{digits_number};
ghost use Rattle.def_output.specs.Output.{gen_number};
ghost use Rattle.wh_words.specs.Words.{built_form, form_meant, words_at};

use crate::Words;
use crate::places::Placed;
use itoa::Buffer;
use wh_base::values::Version;

/// How many digits the largest number of sales has.
const MOST_DIGITS: usize = 6;

/// The number that a few digits stand for, and nothing where a byte is no digit or there is none.
fn number_of(digits: &[u8]) -> Option<u32>
    requires { length digits.now ≤ 6 }
    ensures { result ≡ digits_number digits.now }
{
    if digits.is_empty() {
        return None;
    }
    let mut number = 0u32;
    for digit in digits {
        if !digit.is_ascii_digit() {
            return None;
        }
        number = number * 10 + u32::from(*digit - b'0');
    }
    Some(number)
}

/// The number of sales that a word stands for: 1 to 100000 in decimal, without a sign or a leading zero.
#[tactic(auto, using(crate::proofs::Sales::sales))]
fn sales_of(word: &[u8]) -> Option<u32>
    ensures { result ≡ gen_number word.now }
{
    if word.len() > MOST_DIGITS {
        return None;
    }
    let number = number_of(word)?;
    let mut buffer = Buffer::new();
    let is_written = buffer.format(number).as_bytes() == word;
    if 1 <= number && number <= 100_000 && is_written {
        Some(number)
    } else {
        None
    }
}

/// The form that the words at their places name, where it runs so far.
pub(crate) fn named(placed: Placed<'_>) -> Option<Words>
    ensures { option_map form_meant result ≡ built_form (words_at placed.entry) }
{
    match placed.number {
        None if placed.form == "order" => Some(Words::Order(Version::Two)),
        None => None,
        Some(number) if placed.form == "gen" => {
            let sales = sales_of(number.as_bytes())?;
            Some(Words::Generate(sales))
        }
        Some(number) if placed.form == "order" => {
            if number == "1" {
                Some(Words::Order(Version::One))
            } else {
                None
            }
        }
        Some(_) => None,
    }
}
