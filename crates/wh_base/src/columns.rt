ghost use Rattle.std.specs.Prelude.{◌≡◌};
ghost use Rattle.wh_base.specs.Columns.{same_part, same_column, same_expr, same_agg_by, same_item};

use crate::queries::Item;

/// What of a table's row a column names: a column by its place, counted from 0, the rowid, or the number of the partition.
#[derive(Clone, Copy, Debug)]
pub enum ColPart {
    Col(u32),
    RowId,
    Mark,
}

/// A column of a table, by the table's number, counted from 0 in the order of creation.
#[derive(Clone, Copy, Debug)]
pub struct ColRef {
    pub table: u32,
    pub part: ColPart,
}

/// What an aggregate ranges over: a column, a product of two, or a number.
#[derive(Clone, Copy, Debug)]
pub enum Expr {
    Col(ColRef),
    Product(ColRef, ColRef),
    Lit(i128),
}

/// An aggregate; `CountAll` is COUNT(*).
#[derive(Clone, Copy, Debug)]
pub enum Agg {
    CountAll,
    Count(Expr),
    Sum(Expr),
    Avg(Expr),
    Min(Expr),
    Max(Expr),
}

impl ColPart {
    /// Whether the two name the same.
    pub fn is(self, other: ColPart) -> bool
        ensures { result ≡ same_part self other }
    {
        match (self, other) {
            (ColPart::Col(m), ColPart::Col(n)) => m == n,
            (ColPart::RowId, ColPart::RowId) => true,
            (ColPart::Mark, ColPart::Mark) => true,
            _ => false,
        }
    }
}

impl ColRef {
    /// Whether the two are one column.
    pub fn is(self, other: ColRef) -> bool
        ensures { result ≡ same_column self other }
    {
        self.table == other.table && self.part.is(other.part)
    }
}

impl Expr {
    /// Whether the two are the same word for word.
    pub fn is(self, other: Expr) -> bool
        ensures { result ≡ same_expr self other }
    {
        match (self, other) {
            (Expr::Col(a), Expr::Col(b)) => a.is(b),
            (Expr::Product(a, b), Expr::Product(c, d)) => a.is(c) && b.is(d),
            (Expr::Lit(m), Expr::Lit(n)) => m == n,
            _ => false,
        }
    }
}

impl Agg {
    /// Whether the two are the same word for word.
    pub fn is(self, other: Agg) -> bool
        ensures { result ≡ same_agg_by same_expr self other }
    {
        match (self, other) {
            (Agg::CountAll, Agg::CountAll) => true,
            (Agg::Count(e), Agg::Count(f)) => e.is(f),
            (Agg::Sum(e), Agg::Sum(f)) => e.is(f),
            (Agg::Avg(e), Agg::Avg(f)) => e.is(f),
            (Agg::Min(e), Agg::Min(f)) => e.is(f),
            (Agg::Max(e), Agg::Max(f)) => e.is(f),
            _ => false,
        }
    }
}

impl Item {
    /// Whether the two are the same word for word.
    pub fn is(self, other: Item) -> bool
        ensures { result ≡ same_item self other }
    {
        match (self, other) {
            (Item::Col(a), Item::Col(b)) => a.is(b),
            (Item::Agg(a), Item::Agg(b)) => a.is(b),
            _ => false,
        }
    }
}
