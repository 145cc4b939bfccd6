use crate::columns::ColRef;
use crate::logs::LogFacts;
use crate::queries::StarQuery;
use crate::seq::Seq;
use crate::statements::Method;
use crate::tables::{TableDef, Touch};
use crate::tokens::Token;
use crate::txt::Txt;
use crate::values::Value;

/// What a view stores for a group or a tuple; the key is empty in a join view.
#[derive(Drop)]
pub struct ViewEntry {
    pub key: Seq<Value>,
    pub row: Seq<Value>,
}

pub type ViewRows = Seq<ViewEntry>;

/// A view's definition. `tokens` are those of its query as it is written, and `tables` are in tree order. Over another view
/// the query is the composed one, over base tables, and `beneath` is the number of the view beneath.
#[derive(Drop)]
pub struct ViewDef {
    pub view: u64,
    pub name: Txt,
    pub query: StarQuery,
    pub tables: Seq<TableDef>,
    pub tokens: Seq<Token>,
    pub method: Method,
    pub on_commit: bool,
    pub rewrite: bool,
    pub beneath: Option<u64>,
}

#[derive(Drop)]
pub struct TableFacts {
    pub log: Option<LogFacts>,
    pub inserted: u64,
    pub removed: u64,
    pub maintained: u64,
    pub touches: Seq<Touch>,
}

#[derive(Drop)]
pub struct RefreshFacts {
    pub point: Option<u64>,
    pub registered: bool,
    pub tables: Seq<TableFacts>,
}

/// Why a view can't be refreshed by its log or by partitions, with the table and the column.
#[derive(Clone, Copy)]
pub enum Restriction {
    F1,
    F2,
    F3(u32),
    F4(u32),
    F5(u32, u32),
    F6(u32),
    F7,
    F8(u32),
    F9,
    F10(u32),
    F11(u32),
    F12(u32),
    F13(u32),
    P1,
    P2,
    P3(u32),
}

#[derive(Clone, Copy)]
pub enum ViewState {
    Unbuilt,
    Fresh,
    Partly,
    Stale,
}

/// The kinds of rewrite.
#[derive(Clone, Copy)]
pub enum Class {
    Full,
    Partial,
    General,
    JoinBack,
    Concat,
}

/// A table joined back by its column `by` over the available column `source`; `columns` is what it gains.
#[derive(Drop)]
pub struct Back {
    pub table: u32,
    pub by: ColRef,
    pub source: ColRef,
    pub level: bool,
    pub columns: Seq<u32>,
}

/// What a view has to meet to answer a query, in the order in which it is told.
#[derive(Clone, Copy)]
pub enum Requirement {
    /// View and query have one root.
    E1,
    /// They join the tables that both have in the same way.
    E2,
    /// The column by which a table of the query alone is joined is available.
    E3,
    /// The tables of the view alone lose no row.
    E4,
    /// The query's conditions imply the view's.
    E5,
    /// What the view lacks of a table can be joined back.
    E6,
    /// The query's aggregates can be computed from the view's.
    E7,
    /// The view is as fresh as the session asks.
    E8,
    /// The view is built, it and the session have query rewrite enabled, and the query has no AS OF.
    E9,
}

/// How far a query's tables can be had from a view: the requirement that fails, where one does, and the tables joined back.
#[derive(Drop)]
pub struct Reach {
    pub failed: Option<Requirement>,
    pub back: Seq<Back>,
}

/// A plan over a view, by the view's number and name and its point.
#[derive(Drop)]
pub struct ViewPlan {
    pub class: Class,
    pub view: u64,
    pub name: Txt,
    pub point: u64,
    pub back: Seq<Back>,
}

#[derive(Drop)]
pub enum Plan {
    Base,
    View(ViewPlan),
}

/// Whether a view can answer a query: as this class, or not, with the first requirement that fails.
#[derive(Clone, Copy)]
pub enum Serving {
    Serves(Class),
    Fails(Requirement),
}

/// What EXPLAIN REWRITE says of a view.
#[derive(Drop)]
pub struct Verdict {
    pub view: Txt,
    pub serving: Serving,
}
