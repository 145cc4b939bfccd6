ghost use Rattle.def_grammar.specs.Reading.{◌>>◌, bracketed, mapped, mark, maybe, name, number, quoted, word};
ghost use Rattle.def_grammar.specs.Query.{date, literal, signed};
ghost use Rattle.std.specs.Prelude.{None, Some, codes, neg_ℤ, pos};
ghost use Rattle.wh_base.specs.declared.statements.RawKind.TheVariants.{Bytes, Days, Digits};
ghost use Rattle.wh_base.specs.declared.values.Literal.TheVariants.{Number, Quoted};

use crate::parser::{ParseFault, Parser};
use crate::rule::{Bracketed, Either, Maybe, Rule};
use wh_base::statements::RawKind;
use wh_base::txt::Txt;
use wh_base::values::Literal;
use wh_base::wide::Wide;
use wh_date::day_of;

/// A name.
pub struct PlainName;

impl Rule for PlainName {
    type Output = Txt;

    ghost reads = { name };

    fn read(parser: &mut Parser<'_>) -> Result<Txt, ParseFault> {
        parser.name()
    }
}

/// A number without a sign.
pub struct Unsigned;

impl Rule for Unsigned {
    type Output = i128;

    ghost reads = { mapped pos number };

    fn read(parser: &mut Parser<'_>) -> Result<i128, ParseFault> {
        parser.integer()
    }
}

/// A minus and a number.
pub struct Negative;

impl Rule for Negative {
    type Output = i128;

    ghost reads = { mark (codes "-") >> mapped (λ n. neg_ℤ (pos n)) number };

    fn read(parser: &mut Parser<'_>) -> Result<i128, ParseFault> {
        parser.mark(b"-")?;
        let n = parser.integer()?;
        Ok(-n)
    }
}

/// A number with or without a minus.
pub type Signed = Either<Negative, Unsigned>;

/// A number as a literal.
pub struct NumberLiteral;

impl Rule for NumberLiteral {
    type Output = Literal;

    ghost reads = { mapped Number signed };

    fn read(parser: &mut Parser<'_>) -> Result<Literal, ParseFault> {
        let number = Signed::read(parser)?;
        Ok(Literal::Number(Wide::new(number)))
    }
}

/// A text in quotes as a literal.
pub struct QuotedLiteral;

impl Rule for QuotedLiteral {
    type Output = Literal;

    ghost reads = { mapped Quoted quoted };

    fn read(parser: &mut Parser<'_>) -> Result<Literal, ParseFault> {
        let text = parser.quoted()?;
        Ok(Literal::Quoted(text))
    }
}

/// DATE and the text of a day. A text that names no day is no literal.
pub struct DateLiteral;

impl Rule for DateLiteral {
    type Output = Literal;

    ghost reads = { date };

    fn read(parser: &mut Parser<'_>) -> Result<Literal, ParseFault> {
        parser.word(b"DATE")?;
        let text = parser.quoted()?;
        match day_of(text.as_slice()) {
            Some(day) => Ok(Literal::Dated(day)),
            None => Err(ParseFault::Syntax),
        }
    }
}

/// A number, a text or a date.
pub type AnyLiteral = Either<NumberLiteral, Either<QuotedLiteral, DateLiteral>>;

/// NULL in a row.
pub struct Null;

impl Rule for Null {
    type Output = Option<Literal>;

    ghost reads = { mapped (λ t. None) (word (codes "NULL")) };

    fn read(parser: &mut Parser<'_>) -> Result<Option<Literal>, ParseFault> {
        parser.word(b"NULL")?;
        Ok(None)
    }
}

/// A literal in a row.
pub struct GivenLiteral;

impl Rule for GivenLiteral {
    type Output = Option<Literal>;

    ghost reads = { mapped Some literal };

    fn read(parser: &mut Parser<'_>) -> Result<Option<Literal>, ParseFault> {
        let literal = AnyLiteral::read(parser)?;
        Ok(Some(literal))
    }
}

/// A literal or NULL, as a row of INSERT has them.
pub type RowValue = Either<Null, GivenLiteral>;

/// NUMBER with its digits, which may be left out.
pub struct NumberKind;

impl Rule for NumberKind {
    type Output = RawKind;

    ghost reads = { mapped Digits (word (codes "NUMBER") >> maybe (bracketed (mapped pos number))) };

    fn read(parser: &mut Parser<'_>) -> Result<RawKind, ParseFault> {
        parser.word(b"NUMBER")?;
        let digits = Maybe::<Bracketed<Unsigned>>::read(parser)?;
        Ok(RawKind::Digits(digits))
    }
}

/// VARCHAR2 with its bytes.
pub struct TextKind;

impl Rule for TextKind {
    type Output = RawKind;

    ghost reads = { mapped Bytes (word (codes "VARCHAR2") >> bracketed (mapped pos number)) };

    fn read(parser: &mut Parser<'_>) -> Result<RawKind, ParseFault> {
        parser.word(b"VARCHAR2")?;
        let bytes = Bracketed::<Unsigned>::read(parser)?;
        Ok(RawKind::Bytes(bytes))
    }
}

/// DATE.
pub struct DateKind;

impl Rule for DateKind {
    type Output = RawKind;

    ghost reads = { mapped (λ t. Days) (word (codes "DATE")) };

    fn read(parser: &mut Parser<'_>) -> Result<RawKind, ParseFault> {
        parser.word(b"DATE")?;
        Ok(RawKind::Days)
    }
}

/// What a column holds.
pub type Kind = Either<NumberKind, Either<TextKind, DateKind>>;
