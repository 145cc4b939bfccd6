ghost use Rattle.def_grammar.specs.Query.{column, marker, plain_name, product_or_column, rowid_as, signed};
ghost use Rattle.def_grammar.specs.Reading.{◌>>◌, mapped, mark};
ghost use Rattle.std.specs.Prelude.{◌≡◌, codes};
ghost use Rattle.wh_base.specs.declared.queries.NamePart.TheVariants.{MarkName, RowIdName};
ghost use Rattle.wh_base.specs.declared.queries.RawExpr.TheVariants as raw;
ghost use Rattle.wh_query_text.specs.Parse.{Gives};
ghost use Rattle.wh_query_text.specs.Pieces.{column_expression, dotted_name};

use crate::parser::{ParseFault, Parser};
use crate::rule::{Bracketed, Either, Maybe, Rule};
use crate::rules::Signed;
use wh_base::queries::{ColName, NamePart, RawExpr};
use wh_base::txt::Txt;

/// A name and the dot behind it.
pub struct DottedName;

impl Rule for DottedName {
    type Output = Txt;

    ghost reads = { dotted_name };

    fn read(parser: &mut Parser<'_>) -> Result<Txt, ParseFault> {
        let name = parser.name()?;
        parser.mark(b".")?;
        Ok(name)
    }
}

/// The qualifier of a column, which may be left out.
pub type Qualifier = Maybe<DottedName>;

// ROWID with its qualifier, as this part.
fn rowid_as(parser: &mut Parser<'_>, part: NamePart) -> Result<ColName, ParseFault>
    ensures { Gives result parser.new (rowid_as part parser.old) }
{
    let qualifier = Qualifier::read(parser)?;
    parser.word(b"ROWID")?;
    Ok(ColName { qualifier, part })
}

/// ROWID with its qualifier.
pub struct RowIdColumn;

impl Rule for RowIdColumn {
    type Output = ColName;

    ghost reads = { rowid_as RowIdName };

    fn read(parser: &mut Parser<'_>) -> Result<ColName, ParseFault> {
        rowid_as(parser, NamePart::RowIdName)
    }
}

/// The ROWID that a partition marker is of.
pub struct MarkedRowId;

impl Rule for MarkedRowId {
    type Output = ColName;

    ghost reads = { rowid_as MarkName };

    fn read(parser: &mut Parser<'_>) -> Result<ColName, ParseFault> {
        rowid_as(parser, NamePart::MarkName)
    }
}

/// DBMS_MVIEW.PMARKER of a ROWID.
pub struct Marker;

impl Rule for Marker {
    type Output = ColName;

    ghost reads = { marker };

    fn read(parser: &mut Parser<'_>) -> Result<ColName, ParseFault> {
        parser.word(b"DBMS_MVIEW")?;
        parser.mark(b".")?;
        parser.word(b"PMARKER")?;
        Bracketed::<MarkedRowId>::read(parser)
    }
}

/// A name with its qualifier.
pub struct NamedColumn;

impl Rule for NamedColumn {
    type Output = ColName;

    ghost reads = { plain_name };

    fn read(parser: &mut Parser<'_>) -> Result<ColName, ParseFault> {
        let qualifier = Qualifier::read(parser)?;
        let name = parser.name()?;
        Ok(ColName {
            qualifier,
            part: NamePart::Plain(name),
        })
    }
}

/// A column: a partition marker, ROWID, or a name.
pub type Column = Either<Marker, Either<RowIdColumn, NamedColumn>>;

/// A number as an expression.
pub struct ConstantExpression;

impl Rule for ConstantExpression {
    type Output = RawExpr;

    ghost reads = { mapped raw.Constant signed };

    fn read(parser: &mut Parser<'_>) -> Result<RawExpr, ParseFault> {
        let n = Signed::read(parser)?;
        Ok(RawExpr::Constant(n))
    }
}

/// The second factor of a product, behind its mark.
pub struct Factor;

impl Rule for Factor {
    type Output = ColName;

    ghost reads = { mark (codes "*") >> column };

    fn read(parser: &mut Parser<'_>) -> Result<ColName, ParseFault> {
        parser.mark(b"*")?;
        Column::read(parser)
    }
}

fn product_or_column(first: ColName, second: Option<ColName>) -> RawExpr
    ensures { result ≡ product_or_column first second }
{
    match second {
        None => RawExpr::Column(first),
        Some(second) => RawExpr::Times(first, second),
    }
}

/// A column, or the product of two.
pub struct ColumnExpression;

impl Rule for ColumnExpression {
    type Output = RawExpr;

    ghost reads = { column_expression };

    fn read(parser: &mut Parser<'_>) -> Result<RawExpr, ParseFault> {
        let first = Column::read(parser)?;
        let second = Maybe::<Factor>::read(parser)?;
        Ok(product_or_column(first, second))
    }
}

/// What an aggregate ranges over.
pub type Expression = Either<ConstantExpression, ColumnExpression>;
