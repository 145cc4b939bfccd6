ghost use Rattle.def_grammar.specs.Query.{aggregate, all_of, column, condition, from_tables, join, joined_table, order_key, select, table, table_with, test};
ghost use Rattle.def_grammar.specs.Reading.{◌>>◌, ◌or◌, gives, listed, mapped, mark, number, word};
ghost use Rattle.std.specs.Prelude.{◌≡◌, None, codes, false, pos, true};
ghost use Rattle.wh_base.specs.declared.queries.RawOrder.TheVariants as order;

use crate::parser::{ParseFault, Parser};
use crate::query::aggregates::Aggregate;
use crate::query::columns::Column;
use crate::query::conditions::{Condition, Operator};
use crate::query::items::Item;
use crate::query::pieces::{AllOf, OptionalList, skip_word};
use crate::rule::{Bracketed, Either, Listed, Many, Maybe, Rule, with_first};
use crate::rules::{AnyLiteral, PlainName};
use wh_base::queries::{
    ColName, RawCondition, RawJoin, RawKey, RawOrder, RawQuery, RawTable, RawTest,
};
use wh_base::seq::Seq;
use wh_base::txt::Txt;

/// A column, and another that it is equal to.
pub struct Join;

impl Rule for Join {
    type Output = RawJoin;

    ghost reads = { join };

    fn read(parser: &mut Parser<'_>) -> Result<RawJoin, ParseFault> {
        let left = Column::read(parser)?;
        parser.mark(b"=")?;
        let right = Column::read(parser)?;
        Ok(RawJoin { left, right })
    }
}

/// What stands behind ON: a join, with or without parentheses.
pub type OnJoin = Either<Bracketed<Join>, Join>;

/// A table of FROM and its alias.
pub struct AliasedTable;

impl Rule for AliasedTable {
    type Output = (Txt, Option<Txt>);

    ghost reads = { table };

    fn read(parser: &mut Parser<'_>) -> Result<(Txt, Option<Txt>), ParseFault> {
        let name = parser.name()?;
        let alias = Maybe::<PlainName>::read(parser)?;
        Ok((name, alias))
    }
}

fn table_with(on: Option<RawJoin>, named: (Txt, Option<Txt>)) -> RawTable
    ensures { result ≡ table_with on named }
{
    let (table, alias) = named;
    RawTable { table, alias, on }
}

/// A table that is joined by JOIN.
pub struct JoinedTable;

impl Rule for JoinedTable {
    type Output = RawTable;

    ghost reads = { joined_table };

    fn read(parser: &mut Parser<'_>) -> Result<RawTable, ParseFault> {
        skip_word(parser, b"INNER");
        parser.word(b"JOIN")?;
        let named = AliasedTable::read(parser)?;
        parser.word(b"ON")?;
        let on = OnJoin::read(parser)?;
        Ok(table_with(Some(on), named))
    }
}

/// A comma, and a table whose joins stand in WHERE.
pub struct ListedTable;

impl Rule for ListedTable {
    type Output = RawTable;

    ghost reads = { mapped (table_with None) (mark (codes ",") >> table) };

    fn read(parser: &mut Parser<'_>) -> Result<RawTable, ParseFault> {
        parser.mark(b",")?;
        let named = AliasedTable::read(parser)?;
        Ok(table_with(None, named))
    }
}

/// The tables of FROM.
pub struct FromTables;

impl Rule for FromTables {
    type Output = Seq<RawTable>;

    ghost reads = { from_tables };

    fn read(parser: &mut Parser<'_>) -> Result<Seq<RawTable>, ParseFault> {
        let named = AliasedTable::read(parser)?;
        let more = Many::<Either<ListedTable, JoinedTable>>::read(parser)?;
        with_first(parser.alloc(), table_with(None, named), more)
    }
}

/// The SCN of AS OF.
pub struct AsOfScn;

impl Rule for AsOfScn {
    type Output = i128;

    ghost reads = { word (codes "AS") >> word (codes "OF") >> word (codes "SCN") >> mapped pos number };

    fn read(parser: &mut Parser<'_>) -> Result<i128, ParseFault> {
        parser.word(b"AS")?;
        parser.word(b"OF")?;
        parser.word(b"SCN")?;
        parser.integer()
    }
}

/// WHERE and its conditions.
pub struct WhereConditions;

impl Rule for WhereConditions {
    type Output = Seq<RawCondition>;

    ghost reads = { word (codes "WHERE") >> all_of condition };

    fn read(parser: &mut Parser<'_>) -> Result<Seq<RawCondition>, ParseFault> {
        parser.word(b"WHERE")?;
        AllOf::<Condition>::read(parser)
    }
}

/// WHERE and its conditions, which may be left out.
pub type Where = OptionalList<WhereConditions>;

/// GROUP BY and its columns.
pub struct GroupColumns;

impl Rule for GroupColumns {
    type Output = Seq<ColName>;

    ghost reads = { word (codes "GROUP") >> word (codes "BY") >> listed column };

    fn read(parser: &mut Parser<'_>) -> Result<Seq<ColName>, ParseFault> {
        parser.word(b"GROUP")?;
        parser.word(b"BY")?;
        Listed::<Column>::read(parser)
    }
}

/// A condition of HAVING.
pub struct Test;

impl Rule for Test {
    type Output = RawTest;

    ghost reads = { test };

    fn read(parser: &mut Parser<'_>) -> Result<RawTest, ParseFault> {
        let agg = Aggregate::read(parser)?;
        match Operator::read(parser) {
            Ok(op) => match AnyLiteral::read(parser) {
                Ok(literal) => Ok(RawTest { agg, op, literal }),
                Err(fault) => {
                    drop(agg);
                    Err(fault)
                }
            },
            Err(fault) => {
                drop(agg);
                Err(fault)
            }
        }
    }
}

/// HAVING and its conditions.
pub struct HavingTests;

impl Rule for HavingTests {
    type Output = Seq<RawTest>;

    ghost reads = { word (codes "HAVING") >> all_of test };

    fn read(parser: &mut Parser<'_>) -> Result<Seq<RawTest>, ParseFault> {
        parser.word(b"HAVING")?;
        AllOf::<Test>::read(parser)
    }
}

/// The position of an item as a key.
pub struct PositionKey;

impl Rule for PositionKey {
    type Output = RawOrder;

    ghost reads = { mapped (λ n. order.Position (pos n)) number };

    fn read(parser: &mut Parser<'_>) -> Result<RawOrder, ParseFault> {
        let n = parser.number()?;
        Ok(RawOrder::Position(n as i128))
    }
}

/// An aggregate as a key.
pub struct ComputedKey;

impl Rule for ComputedKey {
    type Output = RawOrder;

    ghost reads = { mapped order.Computed aggregate };

    fn read(parser: &mut Parser<'_>) -> Result<RawOrder, ParseFault> {
        let aggregate = Aggregate::read(parser)?;
        Ok(RawOrder::Computed(aggregate))
    }
}

/// A column or an alias as a key.
pub struct ColumnKey;

impl Rule for ColumnKey {
    type Output = RawOrder;

    ghost reads = { mapped order.Column column };

    fn read(parser: &mut Parser<'_>) -> Result<RawOrder, ParseFault> {
        let column = Column::read(parser)?;
        Ok(RawOrder::Column(column))
    }
}

/// What a key of ORDER BY is.
pub type AnyKey = Either<PositionKey, Either<ComputedKey, ColumnKey>>;

/// ASC or DESC, where ASC may be left out: whether it is DESC.
pub struct Direction;

impl Rule for Direction {
    type Output = bool;

    ghost reads = { (word (codes "ASC") >> gives false) or (word (codes "DESC") >> gives true) or gives false };

    fn read(parser: &mut Parser<'_>) -> Result<bool, ParseFault> {
        if parser.word(b"ASC").is_ok() {
            return Ok(false);
        }
        Ok(parser.word(b"DESC").is_ok())
    }
}

/// A key of ORDER BY.
pub struct OrderKey;

impl Rule for OrderKey {
    type Output = RawKey;

    ghost reads = { order_key };

    fn read(parser: &mut Parser<'_>) -> Result<RawKey, ParseFault> {
        let what = AnyKey::read(parser)?;
        match Direction::read(parser) {
            Ok(descending) => Ok(RawKey { what, descending }),
            Err(fault) => {
                drop(what);
                Err(fault)
            }
        }
    }
}

/// ORDER BY and its keys.
pub struct OrderKeys;

impl Rule for OrderKeys {
    type Output = Seq<RawKey>;

    ghost reads = { word (codes "ORDER") >> word (codes "BY") >> listed order_key };

    fn read(parser: &mut Parser<'_>) -> Result<Seq<RawKey>, ParseFault> {
        parser.word(b"ORDER")?;
        parser.word(b"BY")?;
        Listed::<OrderKey>::read(parser)
    }
}

/// A whole query.
pub struct Select;

impl Rule for Select {
    type Output = RawQuery;

    ghost reads = { select };

    fn read(parser: &mut Parser<'_>) -> Result<RawQuery, ParseFault> {
        parser.word(b"SELECT")?;
        let items = Listed::<Item>::read(parser)?;
        parser.word(b"FROM")?;
        let tables = FromTables::read(parser)?;
        let as_of = Maybe::<AsOfScn>::read(parser)?;
        let conditions = Where::read(parser)?;
        let groups = OptionalList::<GroupColumns>::read(parser)?;
        let having = OptionalList::<HavingTests>::read(parser)?;
        let order = OptionalList::<OrderKeys>::read(parser)?;
        Ok(RawQuery {
            items,
            tables,
            as_of,
            conditions,
            groups,
            having,
            order,
        })
    }
}
