use crate::boxed::Boxed;
use crate::queries::{RawCondition, RawQuery};
use crate::seq::Seq;
use crate::shared::Shared;
use crate::tokens::Token;
use crate::txt::Txt;
use crate::values::Literal;

/// QUERY_REWRITE_INTEGRITY: how answers may use what is only declared and what is stale.
#[derive(Clone, Copy)]
pub enum Level {
    Enforced,
    Trusted,
    StaleTolerated,
}

/// How a view is refreshed.
#[derive(Clone, Copy)]
pub enum Method {
    Fast,
    Complete,
    Partition,
    Force,
}

/// A SELECT with the tokens that it is read from.
#[derive(Drop)]
pub struct Asked {
    pub query: RawQuery,
    pub tokens: Seq<Token>,
}

/// INSERT: its table, the columns where they are listed, and the rows; `None` in a row is NULL.
#[derive(Drop)]
pub struct InsertRows {
    pub table: Txt,
    pub columns: Option<Seq<Txt>>,
    pub rows: Seq<Seq<Option<Literal>>>,
}

/// What UPDATE sets a column to: a literal or NULL, or the old value of a column and what is added to it.
#[derive(Drop)]
pub enum NewValue {
    Given(Option<Literal>),
    Moved(Txt, i128),
}

/// A column that UPDATE sets.
#[derive(Drop)]
pub struct SetColumn {
    pub column: Txt,
    pub value: NewValue,
}

/// UPDATE.
#[derive(Drop)]
pub struct UpdateRows {
    pub table: Txt,
    pub sets: Seq<SetColumn>,
    pub conditions: Seq<RawCondition>,
}

/// DELETE.
#[derive(Drop)]
pub struct DeleteRows {
    pub table: Txt,
    pub conditions: Seq<RawCondition>,
}

/// LOAD: the fields of each of its records.
#[derive(Drop)]
pub struct LoadRows {
    pub table: Txt,
    pub rows: Seq<Seq<Txt>>,
}

/// What a column is declared to hold, as it is written: NUMBER with its digits, VARCHAR2 with its bytes, or DATE.
#[derive(Drop)]
pub enum RawKind {
    Digits(Option<i128>),
    Bytes(i128),
    Days,
}

/// REFERENCES; without a column it is the primary key of the table.
#[derive(Drop)]
pub struct Reference {
    pub table: Txt,
    pub column: Option<Txt>,
    pub rely: bool,
}

/// What may stand behind a column's kind.
#[derive(Drop)]
pub enum ColumnMark {
    NotNull,
    PrimaryKey,
    Unique,
    References(Reference),
}

/// A column of CREATE TABLE.
#[derive(Drop)]
pub struct NewColumn {
    pub name: Txt,
    pub kind: RawKind,
    pub marks: Seq<ColumnMark>,
}

/// PRIMARY KEY or UNIQUE as a part of CREATE TABLE by itself.
#[derive(Drop)]
pub struct NewKey {
    pub column: Txt,
    pub primary: bool,
}

/// FOREIGN KEY as a part of CREATE TABLE by itself.
#[derive(Drop)]
pub struct NewForeign {
    pub column: Txt,
    pub reference: Reference,
}

/// A part of CREATE TABLE.
#[derive(Drop)]
pub enum TablePart {
    Column(NewColumn),
    Key(NewKey),
    Foreign(NewForeign),
}

/// A partition as it is written; no bound is MAXVALUE.
#[derive(Drop)]
pub struct NewRange {
    pub name: Txt,
    pub below: Option<Literal>,
}

/// PARTITION BY RANGE: its column, and its partitions from the lowest on.
#[derive(Drop)]
pub struct Partitioning {
    pub column: Txt,
    pub ranges: Seq<NewRange>,
}

/// CREATE TABLE; `movement` is ENABLE ROW MOVEMENT.
#[derive(Drop)]
pub struct NewTable {
    pub name: Txt,
    pub parts: Seq<TablePart>,
    pub partitioning: Option<Partitioning>,
    pub movement: bool,
}

/// SPLIT PARTITION: its name, the bound between the two new partitions, and their names.
#[derive(Drop)]
pub struct SplitPart {
    pub name: Txt,
    pub at: Literal,
    pub lower: Txt,
    pub upper: Txt,
}

/// MERGE PARTITIONS: the names of the two, and that of the new one.
#[derive(Drop)]
pub struct MergeParts {
    pub lower: Txt,
    pub upper: Txt,
    pub name: Txt,
}

/// What ALTER TABLE does with partitions, or to let rows move from one to another.
#[derive(Drop)]
pub enum PartChange {
    Add(NewRange),
    DropPart(Txt),
    Truncate(Txt),
    Split(SplitPart),
    Merge(MergeParts),
    Movement(bool),
}

/// ALTER TABLE.
#[derive(Drop)]
pub struct Altered {
    pub table: Txt,
    pub change: PartChange,
}

/// CREATE MATERIALIZED VIEW LOG.
#[derive(Drop)]
pub struct NewLog {
    pub table: Txt,
    pub rowid: bool,
    pub sequence: bool,
    pub columns: Seq<Txt>,
    pub new_values: bool,
}

/// CREATE MATERIALIZED VIEW, with the query that it is defined as.
#[derive(Drop)]
pub struct NewView {
    pub name: Txt,
    pub deferred: bool,
    pub method: Method,
    pub on_commit: bool,
    pub rewrite: bool,
    pub asked: Boxed<Asked>,
}

/// ALTER MATERIALIZED VIEW: ENABLE or DISABLE QUERY REWRITE.
#[derive(Drop)]
pub struct ViewSwitch {
    pub name: Txt,
    pub rewrite: bool,
}

/// LEVEL of CREATE DIMENSION: its name and its column.
#[derive(Drop)]
pub struct NewLevel {
    pub name: Txt,
    pub table: Txt,
    pub column: Txt,
}

/// JOIN KEY of a hierarchy: its column, and the level that it refers to.
#[derive(Drop)]
pub struct JoinKey {
    pub table: Txt,
    pub column: Txt,
    pub parent: Txt,
}

/// The levels of a hierarchy, the lowest first, with its join keys.
#[derive(Drop)]
pub struct NewHierarchy {
    pub name: Txt,
    pub levels: Seq<Txt>,
    pub joins: Seq<JoinKey>,
}

/// A column of a table, by both names.
#[derive(Drop)]
pub struct TableColumn {
    pub table: Txt,
    pub column: Txt,
}

/// ATTRIBUTE of CREATE DIMENSION: a level and the columns that it determines.
#[derive(Drop)]
pub struct NewAttribute {
    pub level: Txt,
    pub columns: Seq<TableColumn>,
}

/// CREATE DIMENSION.
#[derive(Drop)]
pub struct NewDimension {
    pub name: Txt,
    pub levels: Seq<NewLevel>,
    pub hierarchies: Seq<NewHierarchy>,
    pub attributes: Seq<NewAttribute>,
}

/// DBMS_MVIEW.REFRESH of a view, or of a list of views, of which `more` are those after the first; without a method each
/// view's own holds.
#[derive(Drop)]
pub struct RefreshView {
    pub name: Txt,
    pub method: Option<Method>,
    pub more: Seq<Txt>,
}

/// A statement that changes rows; one by itself is a block of one statement.
#[derive(Drop)]
pub enum ChangeStatement {
    Insert(InsertRows),
    Update(UpdateRows),
    Delete(DeleteRows),
    Load(LoadRows),
}

/// A statement on a table's definition.
#[derive(Drop)]
pub enum TableStatement {
    CreateTable(Boxed<NewTable>),
    AlterTable(Boxed<Altered>),
}

/// A statement on a materialized view log, by its table.
#[derive(Drop)]
pub enum LogStatement {
    CreateLog(NewLog),
    DropLog(Txt),
}

/// A statement on a materialized view, by its name.
#[derive(Drop)]
pub enum ViewStatement {
    CreateView(NewView),
    AlterView(ViewSwitch),
    DropView(Txt),
    Unregister(Txt),
}

/// A statement on a dimension, by its name.
#[derive(Drop)]
pub enum DimensionStatement {
    CreateDimension(Boxed<NewDimension>),
    DropDimension(Txt),
}

/// A purge: of the log of a table, or of the row versions that ended at or before an SCN.
#[derive(Drop)]
pub enum PurgeStatement {
    PurgeLog(Txt),
    PurgeUndo(i128),
}

/// A statement that shows something of the catalog: SHOW VIEW, SHOW LOG, EXPLAIN MVIEW and VALIDATE DIMENSION.
#[derive(Drop)]
pub enum ShowStatement {
    ShowView(Txt),
    ShowLog(Txt),
    ExplainView(Txt),
    ValidateDimension(Txt),
}

/// A statement on the session itself: SET TRANSACTION READ ONLY, the COMMIT that ends it, and the two settings.
#[derive(Drop)]
pub enum SessionStatement {
    ReadOnly,
    EndReadOnly,
    SetLevel(Level),
    SetRewrite(bool),
}

/// A statement, by what it is about.
#[derive(Drop)]
pub enum Statement {
    Select(Boxed<Asked>),
    Change(ChangeStatement),
    Table(TableStatement),
    Log(LogStatement),
    View(ViewStatement),
    Dimension(DimensionStatement),
    Refresh(RefreshView),
    Purge(PurgeStatement),
    Show(ShowStatement),
    ExplainQuery(Boxed<Asked>),
    Session(SessionStatement),
}

/// The statements between BEGIN and COMMIT, or one that changes rows by itself.
#[derive(Drop)]
pub struct Block {
    pub statements: Seq<Statement>,
}

/// A command of a session: a block, any other statement, or SUBMIT of a refresh of one view, which a worker does.
#[derive(Drop)]
pub enum Command {
    Block(Block),
    Other(Statement),
    Submit(Statement),
}

/// An entry of the journal: a part of a command of a session. Session 0 is the setup; commands and parts are numbered
/// from 1. The worker is 0 where the session does the part itself, and else the one that does it.
#[derive(Clone, Copy, Debug)]
pub struct Entry {
    pub session: u32,
    pub command: u32,
    pub part: u32,
    pub worker: u32,
}

/// A command of a session by its number, counted from 1, and the worker that does it as a job, 0 for the session itself.
#[derive(Clone, Copy, Debug)]
pub struct Id {
    pub session: u32,
    pub command: u32,
    pub worker: u32,
}

/// An entry of the journal with its command beside it. A trace is a list of these.
#[derive(Drop)]
pub struct Event {
    pub entry: Entry,
    pub command: Shared<Command>,
}

/// The commands of a session, 0 for the setup. Each is shared with the journal that it enters.
#[derive(Drop)]
pub struct Section {
    pub session: u32,
    pub commands: Seq<Shared<Command>>,
}

/// A script: its sections, the sessions whose next part is taken in turn, and how many workers do its jobs.
#[derive(Drop)]
pub struct Script {
    pub sections: Seq<Section>,
    pub order: Seq<u32>,
    pub workers: u32,
}

/// What is wrong with a script.
#[derive(Clone, Copy, Debug, PartialEq, Eq)]
pub enum ScriptKind {
    NotUtf8,
    BadCharacter,
    OpenQuote,
    UnknownDirective,
    Misplaced,
    SessionNumber,
    Syntax,
    OpenStatement,
    OpenBlock,
    OpenLoad,
    LoadShape,
    OrderUnknown,
    OrderTooLong,
    NoEnd,
    AfterEnd,
    NotBuilt,
}

/// The first fault of a script, and its line, counted from 1.
#[derive(Clone, Copy, Debug, PartialEq, Eq)]
pub struct BadScript {
    pub line: u64,
    pub kind: ScriptKind,
}
