ghost use Rattle.def_meaning.specs.Accumulated.{item_aggs, query_aggs};
ghost use Rattle.def_meaning.specs.Joined.{column_value};
ghost use Rattle.std.specs.List.{All, list_all};
ghost use Rattle.std.specs.Prelude.{◌≡◌, ◌≤◌, ◌^◌, ◌++◌, flat_map, length, map, IfOk, IsTrue, OnErr, OnOk};
ghost use Rattle.wh_group.specs.Tallies.{AreSmallTuples, HasRoom, HasSmallAggs, HaveRoom, IsBounded, begun, change_group, counted, first_groups, groups_with, is_small_agg, kept_groups, merged_each, merged_tallies, tallies_with};
ghost use Rattle.wh_tuple.specs.Meant.{IsSmallTuple, cell_value};

use crate::key::KeyPart;
use crate::tally::Tally;
use indexmap::IndexMap;
use std::alloc::{AllocError, Global};
use std::marker::Model;
use wh_base::columns::{Agg, ColRef};
use wh_base::queries::{Item, StarQuery};
use wh_base::seq::Seq;
use wh_tuple::{Cell, TupleRow, TupleSource, cell_of, expr_cell};

/// What is kept of a group: a tally for each aggregate of the query's items, and then for each of HAVING.
#[derive(Drop)]
pub struct Tallies {
    list: Vec<Tally>,
}

impl Model for Tallies {
    ghost use Rattle.std.specs.Prelude.{List};
    ghost use Rattle.std.specs.Coded.{coded_list};
    ghost use Rattle.wh_group.specs.declared.tally.Tally.{Tally};
    ghost use Rattle.wh_group.specs.contracts.tally.Tally.{the_row};

    ghost Value = { List Tally };

    ghost coded = { coded_list the_row.coded };

    ghost view = { λ t. t.list.items };
}

/// Groups by their keys, in the order in which the keys came first. The values of a key stand where the rows of its tuples do.
pub type Groups<'a> = IndexMap<Seq<KeyPart<'a>>, Tallies>;

// The aggregates among the items.
fn push_selected(aggs: &mut Vec<Agg>, items: &[Item]) -> Result<(), AllocError>
    ensures { OnOk result (aggs.new.items ≡ aggs.old.items ++ flat_map item_aggs items.now) }
{
    for item in items {
        if let Item::Agg(agg) = item {
            aggs.push(*agg)?;
        }
    }
    Ok(())
}

/// All aggregates of a query: those of the items, and then those of HAVING. An error says that memory ran out.
pub fn query_aggs(alloc: Global, query: &StarQuery) -> Result<Vec<Agg>, AllocError>
    ensures { IfOk result (λ aggs. aggs.items ≡ query_aggs query.now) }
{
    let mut aggs = Vec::new(alloc);
    push_selected(&mut aggs, query.items.as_slice())?;
    for test in query.having.as_slice() {
        aggs.push(test.agg)?;
    }
    Ok(aggs)
}

// What an aggregate counts in a tuple.
fn counted_cell<'a>(tables: &[u32], tuple: &[TupleRow<'a>], agg: Agg) -> Cell<'a>
    requires { IsSmallTuple tuple.now }
    ensures { cell_value result ≡ counted (column_value tables.now tuple.now) agg }
{
    match agg {
        Agg::CountAll => Cell::Null,
        Agg::Count(expr) | Agg::Sum(expr) | Agg::Avg(expr) | Agg::Min(expr) | Agg::Max(expr) => {
            expr_cell(tables, tuple, expr)
        }
    }
}

// The same of an aggregate without large numbers.
#[tactic(auto, using(crate::proofs::Rooms::bounds))]
fn counted<'a>(tables: &[u32], tuple: &[TupleRow<'a>], agg: Agg) -> Cell<'a>
    requires tuple { IsSmallTuple tuple.now }
    requires agg { IsTrue (is_small_agg agg) }
    ensures value { cell_value result ≡ counted (column_value tables.now tuple.now) agg }
    ensures bounded { IsBounded (cell_value result) }
{
    counted_cell(tables, tuple, agg)
}

// One more tuple for each of the tallies.
#[tactic(auto, using(crate::proofs::Adding::adding))]
fn add_each(
    alloc: Global,
    tallies: &mut [Tally],
    tables: &[u32],
    tuple: &[TupleRow<'_>],
    aggs: &[Agg],
) -> Result<(), AllocError>
    requires room { All HasRoom tallies.old }
    requires tuple { IsSmallTuple tuple.now }
    requires aggs { IsTrue (list_all is_small_agg aggs.now) }
    ensures { OnOk result (tallies.new ≡ tallies_with (counted (column_value tables.now tuple.now)) aggs.now tallies.old) }
{
    for at in 0..aggs.len() {
        if at >= tallies.len() {
            return Ok(());
        }
        tallies[at].add(alloc, counted(tables, tuple, aggs[at]))?;
    }
    Ok(())
}

// The tallies of two parts put together, one by one. An error says that memory ran out, that a count leaves 64 bits, or a sum
// 128.
#[tactic(auto, using(crate::proofs::Adding::merging))]
fn merge_tallies(alloc: Global, tallies: &mut [Tally], others: &[Tally]) -> Result<(), AllocError>
    ensures { OnOk result (tallies.new ≡ merged_each tallies.old others.now) }
{
    for at in 0..others.len() {
        if at >= tallies.len() {
            return Ok(());
        }
        tallies[at].merge(alloc, &others[at])?;
    }
    Ok(())
}

impl Tallies {
    /// What is kept before the first tuple. An error says that memory ran out.
    pub fn begun(alloc: Global, aggs: &[Agg]) -> Result<Tallies, AllocError>
        ensures { IfOk result (λ t. t ≡ begun aggs.now) }
    {
        let mut list = Vec::with_capacity(alloc, aggs.len())?;
        for agg in aggs {
            list.push(Tally::begun(*agg))?;
        }
        Ok(Tallies { list })
    }

    /// The tallies.
    pub fn as_slice(&self) -> &[Tally]
        ensures { result.now ≡ self.now }
    {
        self.list.as_slice()
    }

    /// Puts what is kept of two parts of a group together. An error says that memory ran out, that a count leaves 64 bits, or a
    /// sum 128.
    pub fn merge(&mut self, alloc: Global, other: Tallies) -> Result<(), AllocError>
        ensures { OnOk result (self.new ≡ merged_tallies self.old other) }
    {
        if self.list.is_empty() {
            *self = other;
            return Ok(());
        }
        merge_tallies(alloc, self.list.as_mut_slice(), other.list.as_slice())
    }

    // One more tuple. An error says that memory ran out.
    fn add(
        &mut self,
        alloc: Global,
        tables: &[u32],
        tuple: &[TupleRow<'_>],
        aggs: &[Agg],
    ) -> Result<(), AllocError>
        requires room { All HasRoom self.old }
        requires tuple { IsSmallTuple tuple.now }
        requires aggs { IsTrue (list_all is_small_agg aggs.now) }
        ensures { OnOk result (self.new ≡ tallies_with (counted (column_value tables.now tuple.now)) aggs.now self.old) }
    {
        add_each(alloc, self.list.as_mut_slice(), tables, tuple, aggs)
    }
}

// The key of a tuple: its values of the group columns, where they stand. An error says that memory ran out.
fn key_of<'a>(
    alloc: Global,
    tables: &[u32],
    tuple: &[TupleRow<'a>],
    keys: &[ColRef],
) -> Result<Seq<KeyPart<'a>>, AllocError>
    ensures { IfOk result (λ key. key ≡ map (column_value tables.now tuple.now) keys.now) }
{
    let mut key = Vec::with_capacity(alloc, keys.len())?;
    for column in keys {
        key.push(KeyPart::new(cell_of(tables, tuple, *column)))?;
    }
    Seq::from_vec(key)
}

// One more tuple: the group of its key goes on, or a new one comes last. An error says that memory ran out.
#[tactic(auto, using(crate::proofs::Steps::steps, crate::proofs::Rooms::begun_room))]
fn add_to_group<'a>(
    alloc: Global,
    groups: &mut Groups<'a>,
    key: Seq<KeyPart<'a>>,
    tables: &[u32],
    tuple: &[TupleRow<'_>],
    aggs: &[Agg],
) -> Result<(), AllocError>
    requires room { HaveRoom groups.old.entries }
    requires tuple { IsSmallTuple tuple.now }
    requires aggs { IsTrue (list_all is_small_agg aggs.now) }
    ensures { OnOk result (groups.new.entries ≡ change_group key.entry (tallies_with (counted (column_value tables.now tuple.now)) aggs.now) (begun aggs.now) groups.old.entries) }
{
    match groups.get_mut(&key) {
        Some(tallies) => tallies.add(alloc, tables, tuple, aggs)?,
        None => {
            let mut tallies = Tallies::begun(alloc, aggs)?;
            tallies.add(alloc, tables, tuple, aggs)?;
            groups.insert(key, tallies)?;
        }
    }
    Ok(())
}

// The same of a tuple of a query.
fn add_tuple<'a>(
    alloc: Global,
    groups: &mut Groups<'a>,
    query: &StarQuery,
    aggs: &[Agg],
    tuple: &[TupleRow<'a>],
) -> Result<(), AllocError>
    requires room { HaveRoom groups.old.entries }
    requires tuple { IsSmallTuple tuple.now }
    requires aggs { IsTrue (list_all is_small_agg aggs.now) }
    ensures { OnOk result (groups.new.entries ≡ groups_with query.now aggs.now tuple.now groups.old.entries) }
{
    let tables = query.tables.as_slice();
    let key = key_of(alloc, tables, tuple, query.keys.as_slice())?;
    add_to_group(alloc, groups, key, tables, tuple, aggs)
}

// The groups before the first tuple: none where there are group columns, and else the one group of all tuples.
fn no_tuples<'a>(alloc: Global, keys: &[ColRef], aggs: &[Agg]) -> Result<Groups<'a>, AllocError>
    ensures { IfOk result (λ groups. groups.entries ≡ first_groups keys.now aggs.now) }
{
    let mut groups = IndexMap::new(alloc);
    if keys.is_empty() {
        groups.insert(Seq::new(alloc), Tallies::begun(alloc, aggs)?)?;
    }
    Ok(groups)
}

/// The groups of a query over the tuples that come from a source, in the order in which their keys come first. A tuple has one row
/// of each of the query's tables. As in the SQL language, rows whose keys are NULL are one group, COUNT(*) counts all tuples, and
/// the other aggregates leave out NULL; without group columns there is one group, also over nothing. Each number in the tuples
/// and in the aggregates is below 10^15 in size, so that no sum leaves 128 bits. An error says that memory ran out.
pub fn group<'a, S: TupleSource<'a>>(
    alloc: Global,
    query: &StarQuery,
    source: &mut S,
) -> Result<Groups<'a>, AllocError>
    requires few { length (S.left source.old) ≤ 262144 }
    requires tuples { AreSmallTuples (S.left source.old) }
    requires aggs { HasSmallAggs query.now }
    ensures { IfOk result (λ groups. groups.entries ≡ kept_groups (column_value query.now.tables) query.now (S.left source.old)) }
{
    let aggs = query_aggs(alloc, query)?;
    let mut groups = no_tuples(alloc, query.keys.as_slice(), aggs.as_slice())?;
    let mut tuple = Vec::with_capacity(alloc, query.tables.len())?;
    'tuples: while source.next(&mut tuple)? {
        add_tuple(alloc, &mut groups, query, aggs.as_slice(), tuple.as_slice())?;
    }
    Ok(groups)
}
