use crate::logs::LogRow;
use crate::seq::Seq;
use crate::statements::Method;
use crate::txt::Txt;
use crate::values::{Interval, Rows};
use crate::views::{Class, Requirement, Verdict, ViewState};

/// What there may be too many of.
#[derive(Clone, Copy)]
pub enum Counted {
    Tables,
    Views,
    Dimensions,
    Columns,
    Partitions,
}

/// A restriction, as it prints.
#[derive(Drop)]
pub struct Restricted {
    pub code: Code,
    pub place: Place,
}

/// What a restriction names: nothing but the view itself, a table, or a column of a table.
#[derive(Drop)]
pub enum Place {
    View,
    Table(Txt),
    Column(Txt, Txt),
}

/// The codes of the restrictions of a refresh: F by its log, P by partitions.
#[derive(Clone, Copy)]
pub enum Code {
    F1,
    F2,
    F3,
    F4,
    F5,
    F6,
    F7,
    F8,
    F9,
    F10,
    F11,
    F12,
    F13,
    P1,
    P2,
    P3,
}

/// Why a command is refused: one variant for each code, with its details. docs/refusals.md has the codes.
#[derive(Drop)]
pub enum Refusal {
    NameTaken(Txt),
    NoSuchObject(Txt),
    NoSuchColumn(Txt),
    ValueDoesNotFit(Txt, Txt),
    NullNotAllowed(Txt, Txt),
    DuplicateKey(Txt, Txt),
    ParentMissing(Txt, Txt),
    ChildExists(Txt, Txt),
    NoPartition(Txt),
    RowMovement(Txt),
    PartitionBound(Txt, Txt),
    LastPartition(Txt),
    KeysReferenced(Txt, Txt),
    TableFull(Txt),
    VersionsFull(Txt),
    TooManyObjects(Counted),
    NotStar,
    NotGrouped,
    SelectInBlock,
    NoLog(Txt),
    LogExists(Txt),
    FastRefused(Restricted),
    PartitionRefused(Restricted),
    Overtaken(Txt, Option<u64>, Option<u64>),
    SnapshotTooOld(i128, u64),
    FutureScn(i128, u64),
    NotAKey(Txt, Txt),
    StillUsed(Txt),
    OnlyReading,
    BeneathUnbuilt(Txt),
    NotNested(Txt),
}

/// What a commit did with one of its views.
#[derive(Drop)]
pub enum Refreshed {
    By(Method),
    Suspended(Restricted),
}

/// What a commit did with one of its ON COMMIT views.
#[derive(Drop)]
pub struct ViewLine {
    pub view: Txt,
    pub done: Refreshed,
}

/// The reply to a block: the SCN after it, how many changes it made, how many base rows it read, and its views.
#[derive(Drop)]
pub struct Committed {
    pub scn: u64,
    pub rows: u64,
    pub read: u64,
    pub views: Seq<ViewLine>,
}

/// The reply to a catalog or session statement: the SCN after it, and how many base rows it read.
#[derive(Drop)]
pub struct Done {
    pub scn: u64,
    pub read: u64,
}

/// The reply to a purge: the SCN, and how many log rows or row versions it removed.
#[derive(Drop)]
pub struct Purged {
    pub scn: u64,
    pub rows: u64,
}

/// The plan as it prints.
#[derive(Drop)]
pub enum PlanLine {
    BasePlan,
    ViewAt(Class, Txt, u64, Seq<Txt>),
}

/// The reply to a SELECT: the SCN of its answer, the plan, how many base rows it read, and its rows.
#[derive(Drop)]
pub struct Answered {
    pub scn: u64,
    pub plan: PlanLine,
    pub read: u64,
    pub rows: Rows,
}

/// The reply to a refresh: the method used, the SCN of its begin, how many base rows it read, and how many entries the
/// view holds.
#[derive(Drop)]
pub struct RefreshDone {
    pub method: Method,
    pub scn: u64,
    pub read: u64,
    pub holds: u64,
}

/// What a refresh of a list did with one of its views: the method used, and how many entries the view holds.
#[derive(Drop)]
pub struct ListLine {
    pub view: Txt,
    pub method: Method,
    pub holds: u64,
}

/// The reply to a refresh of a list: the SCN of its begin, how many base rows it read, and its views in the order of the
/// list.
#[derive(Drop)]
pub struct ListDone {
    pub scn: u64,
    pub read: u64,
    pub views: Seq<ListLine>,
}

/// The reply to SHOW VIEW.
#[derive(Drop)]
pub struct ShownView {
    pub view: Txt,
    pub point: Option<u64>,
    pub state: ViewState,
    pub registered: bool,
    pub suspended: bool,
    pub intervals: Seq<Interval>,
    pub rows: Rows,
}

/// The reply to SHOW LOG: the SCN of its birth, FROM, and its rows.
#[derive(Drop)]
pub struct ShownLog {
    pub table: Txt,
    pub born: u64,
    pub from: u64,
    pub rows: Seq<LogRow>,
}

/// Why a name of EXPLAIN MVIEW says N: a restriction of its refresh, a requirement of rewrite that the view can't meet, or that
/// the view is over another view.
#[derive(Drop)]
pub enum Reason {
    Refresh(Restricted),
    Rewrite(Requirement),
    Nested,
}

/// The nine lines in order, None for Y.
#[derive(Drop)]
pub struct ExplainedView {
    pub view: Txt,
    pub lines: Seq<Option<Reason>>,
}

/// The reply to EXPLAIN REWRITE.
#[derive(Drop)]
pub struct ExplainedQuery {
    pub scn: u64,
    pub plan: PlanLine,
    pub verdicts: Seq<Verdict>,
}

/// A row that breaks a declared relation, by the relation's number and its rowid.
#[derive(Clone, Copy)]
pub struct Broken {
    pub relation: u64,
    pub rowid: u64,
}

/// The reply to VALIDATE DIMENSION.
#[derive(Drop)]
pub struct Validated {
    pub dimension: Txt,
    pub scn: u64,
    pub read: u64,
    pub broken: Seq<Broken>,
}

/// A refusal, with the number of the statement in a block.
#[derive(Drop)]
pub struct Refused {
    pub code: Refusal,
    pub at: Option<u32>,
    pub read: u64,
}

/// One variant for each row of the table of replies.
#[derive(Drop)]
pub enum Reply {
    Commit(Committed),
    Catalog(Done),
    Purge(Purged),
    Answer(Answered),
    Refresh(RefreshDone),
    View(ShownView),
    Log(ShownLog),
    Explain(ExplainedView),
    Rewrite(ExplainedQuery),
    Validate(Validated),
    Refuse(Refused),
    RefreshList(ListDone),
    Submit,
}
