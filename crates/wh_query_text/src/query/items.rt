ghost use Rattle.def_grammar.specs.Query.{aggregate, column, item};
ghost use Rattle.def_grammar.specs.Reading.{◌>>◌, mapped, name, word};
ghost use Rattle.std.specs.Prelude.{codes};
ghost use Rattle.wh_base.specs.declared.queries.RawWhat.TheVariants as what;

use crate::parser::{ParseFault, Parser};
use crate::query::aggregates::Aggregate;
use crate::query::columns::Column;
use crate::rule::{Either, Maybe, Rule};
use crate::rules::PlainName;
use wh_base::queries::{RawItem, RawWhat};
use wh_base::txt::Txt;

/// An aggregate as what an item is.
pub struct ComputedItem;

impl Rule for ComputedItem {
    type Output = RawWhat;

    ghost reads = { mapped what.Computed aggregate };

    fn read(parser: &mut Parser<'_>) -> Result<RawWhat, ParseFault> {
        let aggregate = Aggregate::read(parser)?;
        Ok(RawWhat::Computed(aggregate))
    }
}

/// A column as what an item is.
pub struct PlainItem;

impl Rule for PlainItem {
    type Output = RawWhat;

    ghost reads = { mapped what.Plain column };

    fn read(parser: &mut Parser<'_>) -> Result<RawWhat, ParseFault> {
        let column = Column::read(parser)?;
        Ok(RawWhat::Plain(column))
    }
}

/// AS and a name.
pub struct NameBehindAs;

impl Rule for NameBehindAs {
    type Output = Txt;

    ghost reads = { word (codes "AS") >> name };

    fn read(parser: &mut Parser<'_>) -> Result<Txt, ParseFault> {
        parser.word(b"AS")?;
        parser.name()
    }
}

/// The alias of an item, which may be left out, as may its AS.
pub type Alias = Maybe<Either<NameBehindAs, PlainName>>;

/// An item of SELECT.
pub struct Item;

impl Rule for Item {
    type Output = RawItem;

    ghost reads = { item };

    fn read(parser: &mut Parser<'_>) -> Result<RawItem, ParseFault> {
        let what = Either::<ComputedItem, PlainItem>::read(parser)?;
        match Alias::read(parser) {
            Ok(alias) => Ok(RawItem { what, alias }),
            Err(fault) => {
                drop(what);
                Err(fault)
            }
        }
    }
}
