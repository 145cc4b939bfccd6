use crate::columns::{Agg, ColRef};
use crate::seq::Seq;
use crate::txt::Txt;
use crate::values::{Literal, Op, Value};

/// What a query selects: a column or an aggregate.
#[derive(Clone, Copy, Debug)]
pub enum Item {
    Col(ColRef),
    Agg(Agg),
}

/// A condition of WHERE on one column.
#[derive(Drop)]
pub enum Condition {
    Compare(ColRef, Op, Value),
    OneOf(ColRef, Seq<Value>),
    IsNull(ColRef),
    NotNull(ColRef),
}

/// A join, directed outwards from the root: `to` is a key of the far table.
#[derive(Clone, Copy, Debug)]
pub struct Edge {
    pub from: ColRef,
    pub to: ColRef,
}

/// A condition of HAVING.
#[derive(Drop)]
pub struct Test {
    pub agg: Agg,
    pub op: Op,
    pub value: Value,
}

/// A key of ORDER BY: the place of an item, counted from 0, and whether it is DESC.
#[derive(Clone, Copy, Debug)]
pub struct OrderKey {
    pub item: u32,
    pub descending: bool,
}

/// A query in star form: its tables in tree order, of which the first is the root, and the join that reaches each
/// other one. `grouped` says that it has GROUP BY, HAVING or an aggregate.
#[derive(Drop)]
pub struct StarQuery {
    pub root: u32,
    pub tables: Seq<u32>,
    pub edges: Seq<Edge>,
    pub conditions: Seq<Condition>,
    pub grouped: bool,
    pub keys: Seq<ColRef>,
    pub items: Seq<Item>,
    pub having: Seq<Test>,
    pub order: Seq<OrderKey>,
    pub as_of: Option<i128>,
}

// The same as it is written.

/// What a column is written as: a name, ROWID, or DBMS_MVIEW.PMARKER of a ROWID.
#[derive(Drop)]
pub enum NamePart {
    Plain(Txt),
    RowIdName,
    MarkName,
}

/// A column as it is written, with its qualifier; that of PMARKER is the qualifier of its ROWID.
#[derive(Drop)]
pub struct ColName {
    pub qualifier: Option<Txt>,
    pub part: NamePart,
}

/// What an aggregate ranges over, as it is written.
#[derive(Drop)]
pub enum RawExpr {
    Column(ColName),
    Times(ColName, ColName),
    Constant(i128),
}

/// An aggregate as it is written; `CountRows` is COUNT(*).
#[derive(Drop)]
pub enum RawAgg {
    CountRows,
    CountOf(RawExpr),
    SumOf(RawExpr),
    AvgOf(RawExpr),
    MinOf(RawExpr),
    MaxOf(RawExpr),
}

/// A column or an aggregate, as it is written.
#[derive(Drop)]
pub enum RawWhat {
    Plain(ColName),
    Computed(RawAgg),
}

/// An item of SELECT with its alias.
#[derive(Drop)]
pub struct RawItem {
    pub what: RawWhat,
    pub alias: Option<Txt>,
}

/// What stands after ON.
#[derive(Drop)]
pub struct RawJoin {
    pub left: ColName,
    pub right: ColName,
}

/// A table of FROM, with its alias, and with what stands after ON where it is joined by JOIN.
#[derive(Drop)]
pub struct RawTable {
    pub table: Txt,
    pub alias: Option<Txt>,
    pub on: Option<RawJoin>,
}

/// A condition of WHERE, as it is written.
#[derive(Drop)]
pub enum RawCondition {
    Compare(ColName, Op, Literal),
    Between(ColName, Literal, Literal),
    Equal(ColName, ColName),
    OneOf(ColName, Seq<Literal>),
    IsNull(ColName),
    NotNull(ColName),
}

/// A condition of HAVING, as it is written.
#[derive(Drop)]
pub struct RawTest {
    pub agg: RawAgg,
    pub op: Op,
    pub literal: Literal,
}

/// What a key of ORDER BY is written as: a position of an item, counted from 1, a column or an alias, or an aggregate.
#[derive(Drop)]
pub enum RawOrder {
    Position(i128),
    Column(ColName),
    Computed(RawAgg),
}

/// A key of ORDER BY, as it is written.
#[derive(Drop)]
pub struct RawKey {
    pub what: RawOrder,
    pub descending: bool,
}

/// A SELECT as it is written, one field for each of its parts.
#[derive(Drop)]
pub struct RawQuery {
    pub items: Seq<RawItem>,
    pub tables: Seq<RawTable>,
    pub as_of: Option<i128>,
    pub conditions: Seq<RawCondition>,
    pub groups: Seq<ColName>,
    pub having: Seq<RawTest>,
    pub order: Seq<RawKey>,
}

/// What is kept of an aggregate for a group: how many rows there are, and of the values that aren't NULL the count, the
/// sum, the least and the greatest.
#[derive(Drop)]
pub struct Acc {
    pub rows: u64,
    pub count: u64,
    pub sum: i128,
    pub least: Value,
    pub greatest: Value,
}

/// A group with its key, and an `Acc` for each aggregate of the items and then of HAVING.
#[derive(Drop)]
pub struct Group {
    pub key: Seq<Value>,
    pub parts: Seq<Acc>,
}
