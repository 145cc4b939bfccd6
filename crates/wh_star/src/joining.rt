ghost use Rattle.std.specs.List.{All};
ghost use Rattle.std.specs.Prelude.{◌≡◌, ◌+◌, ◌<◌, ◌≤◌, ◌∷◌, [], ◌^◌, IfOk, OnOk, Some, None, cond, drop, length};
ghost use Rattle.def_meaning.specs.Joined.{column_value, conditions_true, joined_over};
ghost use Rattle.def_meaning.specs.Ranges.{admitted_parts, reads_over};
ghost use Rattle.wh_base.specs.Lists.{option_case};
ghost use Rattle.wh_base.specs.Tables.{rows_shown};
ghost use Rattle.wh_star.specs.Found.{HaveKeys, IsJoinTree};
ghost use Rattle.wh_star.specs.Marked.{CanPrune};
ghost use Rattle.wh_star.specs.Lookups.{completed_by, far_reads, far_rows, indexed, indexes_of, root_rows, rows_seen, seen_in, tuples_from};

use crate::key_index::KeyIndex;
use crate::pruning::query_range;
use crate::scan::{read_table, sort_by_rowid};
use std::alloc::{AllocError, Global};
use std::marker::Model;
use wh_base::columns::{ColPart, ColRef};
use wh_base::queries::{Condition, Edge, StarQuery};
use wh_base::reads::Reads;
use wh_base::rows_of::RowsOf;
use wh_base::tables::Part;
use wh_base::values::Value;
use wh_tuple::{TupleRow, TupleSource, cell_of, condition_holds};

// The numbers of the partitions of the root that the conditions admit, where this is the place of its partition key.
#[tactic(auto, using(crate::proofs::Admitted::parts))]
fn admitted_parts(
    alloc: Global,
    query: &StarQuery,
    parts: &[Part],
    key: u32,
) -> Result<Vec<u64>, AllocError>
    ensures { IfOk result (λ numbers. numbers.items ≡ admitted_parts query.now parts.now key) }
{
    let column = ColRef {
        table: query.root,
        part: ColPart::Col(key),
    };
    let range = query_range(alloc, query, column)?;
    let mut numbers = Vec::new(alloc);
    let mut lo: Option<&Value> = None;
    for part in parts {
        let hi = part.below.as_ref();
        if !range.misses(lo, hi) {
            numbers.push(part.number)?;
        }
        lo = hi;
    }
    Ok(numbers)
}

// The rows of the root in its admitted partitions, each read once, in the order of their places.
fn read_root<'a, L, R: RowsOf<L>>(
    alloc: Global,
    query: &StarQuery,
    rows: &'a R,
    reads: &mut Reads<L>,
) -> Result<Vec<TupleRow<'a>>, AllocError>
    requires table { query.now.root < length (R.tables rows.now) }
    requires room { reads.old < 2 ^ 63 + 2 ^ 62 }
    ensures rows { IfOk result (λ found. found.items ≡ root_rows query.now (R.tables rows.now) (R.keys rows.now) (R.partitions rows.now)) }
    ensures raised { OnOk result (reads.new ≡ reads.old + length (root_rows query.now (R.tables rows.now) (R.keys rows.now) (R.partitions rows.now))) }
    ensures least { reads.old ≤ reads.new }
    ensures most { reads.new ≤ reads.old + length (root_rows query.now (R.tables rows.now) (R.keys rows.now) (R.partitions rows.now)) }
{
    match rows.part_key(query.root) {
        None => {
            let found = read_table(alloc, rows, query.root, None, reads)?;
            Ok(found)
        }
        Some(key) => {
            let parts = rows.parts(query.root).as_slice();
            let numbers = admitted_parts(alloc, query, parts, key)?;
            let found = read_table(alloc, rows, query.root, Some(numbers.as_slice()), reads)?;
            Ok(found)
        }
    }
}

// These rows by their values in a column.
#[tactic(auto, using(crate::proofs::Joins::indexing))]
fn index_rows<'a>(
    alloc: Global,
    part: ColPart,
    rows: &[TupleRow<'a>],
) -> Result<KeyIndex<'a>, AllocError>
    ensures { IfOk result (λ index. index ≡ indexed part rows.now) }
{
    let mut index = KeyIndex::new(alloc);
    for row in rows {
        index.add(alloc, part, row.again())?;
    }
    Ok(index)
}

// The rows of the table that a join leads to by their values in the far column, each read once.
#[tactic(auto, using(crate::proofs::Joins::whole))]
fn read_index<'a, L, R: RowsOf<L>>(
    alloc: Global,
    edge: Edge,
    rows: &'a R,
    reads: &mut Reads<L>,
) -> Result<KeyIndex<'a>, AllocError>
    requires table { edge.to.table < length (R.tables rows.now) }
    requires room { reads.old < 2 ^ 63 + 2 ^ 62 }
    ensures index { IfOk result (λ index. index ≡ indexed edge.to.part (far_rows (R.tables rows.now) edge)) }
    ensures raised { OnOk result (reads.new ≡ reads.old + length (far_rows (R.tables rows.now) edge)) }
    ensures least { reads.old ≤ reads.new }
    ensures most { reads.new ≤ reads.old + length (far_rows (R.tables rows.now) edge) }
{
    let found = read_table(alloc, rows, edge.to.table, None, reads)?;
    index_rows(alloc, edge.to.part, found.as_slice())
}

// An index for each of these joins.
#[tactic(auto, using(crate::proofs::Joins::indexes))]
fn read_indexes<'a, L, R: RowsOf<L>>(
    alloc: Global,
    edges: &[Edge],
    rows: &'a R,
    reads: &mut Reads<L>,
) -> Result<Vec<KeyIndex<'a>>, AllocError>
    requires tables { All (λ e. e.to.table < length (R.tables rows.now)) edges.now }
    requires room { reads.old + far_reads (R.tables rows.now) edges.now < 2 ^ 63 + 2 ^ 62 }
    ensures indexes { IfOk result (λ indexes. indexes.items ≡ indexes_of (R.tables rows.now) edges.now) }
    ensures raised { OnOk result (reads.new ≡ reads.old + far_reads (R.tables rows.now) edges.now) }
    ensures least { reads.old ≤ reads.new }
    ensures most { reads.new ≤ reads.old + far_reads (R.tables rows.now) edges.now }
{
    let mut indexes = Vec::new(alloc);
    for edge in edges {
        let index = read_index(alloc, *edge, rows, reads)?;
        indexes.push(index)?;
    }
    Ok(indexes)
}

// Completes a row of the first of these tables by a row of each further one; false where a join leads to none.
#[tactic(auto, using(crate::proofs::Joins::completing))]
fn complete<'a>(
    tables: &[u32],
    edges: &[Edge],
    indexes: &[KeyIndex<'a>],
    tuple: &mut Vec<TupleRow<'a>>,
) -> Result<bool, AllocError>
    requires { length indexes.now ≡ length edges.now }
    ensures { IfOk result (λ found. completed_by indexes.now tables.now tuple.old.items edges.now ≡ cond found (Some tuple.new.items) None) }
{
    for at in 0..edges.len() {
        let near = cell_of(tables, tuple.as_slice(), edges[at].from);
        let Some(row) = indexes[at].row(near) else {
            return Ok(false);
        };
        tuple.push(row.again())?;
    }
    Ok(true)
}

// Whether every condition is true in the tuple.
fn conditions_hold(tables: &[u32], tuple: &[TupleRow<'_>], conditions: &[Condition]) -> bool
    ensures { result ≡ conditions_true (column_value tables.now tuple.now) conditions.now }
{
    conditions
        .iter()
        .all(|condition| condition_holds(tables, tuple, condition))
}

// Makes the tuple of a row of the root; false where there is none in which every condition is true.
#[tactic(auto, using(crate::proofs::Joins::finding))]
fn find_tuple<'a>(
    query: &StarQuery,
    indexes: &[KeyIndex<'a>],
    root: &TupleRow<'a>,
    tuple: &mut Vec<TupleRow<'a>>,
) -> Result<bool, AllocError>
    requires { length indexes.now ≡ length query.now.edges }
    ensures { IfOk result (λ found. tuples_from query.now indexes.now (root.now ∷ []) ≡ cond found (tuple.new.items ∷ []) []) }
{
    let tables = query.tables.as_slice();
    tuple.clear();
    tuple.push(root.again())?;
    if !complete(tables, query.edges.as_slice(), indexes, tuple)? {
        return Ok(false);
    }
    Ok(conditions_hold(tables, tuple.as_slice(), query.conditions.as_slice()))
}

// Goes on from a place among these rows of the root to the next one that has a tuple, makes that, and gives the place behind the
// row; none where no further row has one.
#[tactic(auto, using(crate::proofs::Joins::joining))]
fn next_tuple<'a>(
    query: &StarQuery,
    indexes: &[KeyIndex<'a>],
    roots: &[TupleRow<'a>],
    from: usize,
    tuple: &mut Vec<TupleRow<'a>>,
) -> Result<Option<usize>, AllocError>
    requires { length indexes.now ≡ length query.now.edges }
    ensures { IfOk result (λ place. tuples_from query.now indexes.now (drop from roots.now) ≡ option_case place [] (λ n. tuple.new.items ∷ tuples_from query.now indexes.now (drop n roots.now))) }
{
    for at in from..roots.len() {
        if find_tuple(query, indexes, &roots[at], tuple)? {
            return Ok(Some(at + 1));
        }
    }
    Ok(None)
}

/// The tuples of a star query, found one after another. Contracts see those that are still to come.
#[derive(Drop)]
pub struct Joining<'a> {
    query: &'a StarQuery,
    indexes: Vec<KeyIndex<'a>>,
    roots: Vec<TupleRow<'a>>,
    next: usize,
}

impl<'a> Model for Joining<'a> {
    ghost use Rattle.std.specs.Prelude.{◌≡◌, List, drop, length};
    ghost use Rattle.wh_base.specs.declared.tables.RowAt.{RowAt};
    ghost use Rattle.wh_star.specs.Lookups.{tuples_from};

    ghost Value = { List (List RowAt) };

    ghost view = { λ j. tuples_from j.query.now j.indexes.items (drop j.next j.roots.items) };

    ghost invariant = { λ j. length j.indexes.items ≡ length j.query.now.edges };
}

impl<'a> TupleSource<'a> for Joining<'a> {
    ghost left = { λ j. j };

    fn next(&mut self, tuple: &mut Vec<TupleRow<'a>>) -> Result<bool, AllocError> {
        let indexes = self.indexes.as_slice();
        match next_tuple(self.query, indexes, self.roots.as_slice(), self.next, tuple)? {
            Some(next) => {
                self.next = next;
                Ok(true)
            }
            None => Ok(false),
        }
    }
}

/// The tuples of a star query over a store: for each row of the root's admitted partitions, by ascending rowid, the row of each
/// further table that its join leads to, where there is one and every condition is true. By the SQL language, in which a
/// comparison with NULL isn't true, this is the filtered cross product of these rows; and that of all rows, where each row of
/// the root stands in the partition of its key, as the Data Warehousing Guide has it of the pruning of partitions. Each row
/// of the root's admitted partitions and each row of every other table is read once. An error says that memory ran out.
pub fn joined<'a, L, R: RowsOf<L>>(
    alloc: Global,
    query: &'a StarQuery,
    rows: &'a R,
    reads: &mut Reads<L>,
) -> Result<Joining<'a>, AllocError>
    requires tree { IsJoinTree query.now }
    requires tables { All (λ n. n < length (R.tables rows.now)) query.now.tables }
    requires keys { HaveKeys query.now.edges (rows_shown (R.tables rows.now)) }
    requires room { reads.old ≤ 2 ^ 63 }
    ensures tuples { IfOk result (λ tuples. tuples ≡ joined_over query.now (rows_seen query.now (seen_in (R.tables rows.now) (R.keys rows.now) (R.partitions rows.now)))) }
    ensures all { CanPrune query.now (seen_in (R.tables rows.now) (R.keys rows.now) (R.partitions rows.now)) → IfOk result (λ tuples. tuples ≡ joined_over query.now (rows_shown (R.tables rows.now))) }
    ensures raised { OnOk result (reads.new ≡ reads.old + reads_over query.now (seen_in (R.tables rows.now) (R.keys rows.now) (R.partitions rows.now))) }
    ensures least { reads.old ≤ reads.new }
    ensures most { reads.new ≤ reads.old + reads_over query.now (seen_in (R.tables rows.now) (R.keys rows.now) (R.partitions rows.now)) }
{
    let indexes = read_indexes(alloc, query.edges.as_slice(), rows, reads)?;
    let mut roots = read_root(alloc, query, rows, reads)?;
    sort_by_rowid(&mut roots)?;
    Ok(Joining {
        query,
        indexes,
        roots,
        next: 0,
    })
}
