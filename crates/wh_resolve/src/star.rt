ghost use Rattle.std.specs.Prelude.{◌≡◌, ◌∷◌, ◌<◌, ◌^◌, IfOk, OnOk, [], Some, length};
ghost use Rattle.def_resolve.specs.Star.{branch_to, directed, is_key_column, is_repeated_number, leads_to, next_branch, spanning, star_of, tree_from, turned, with_branch};
ghost use Rattle.wh_base.specs.Lists.{first_of, has_number};
ghost use Rattle.wh_base.specs.Tables.{is_key};
ghost use Rattle.wh_resolve.specs.Repeats.{repeats_later};

use std::alloc::{AllocError, Global};
use std::marker::Model;
use wh_base::columns::{ColPart, ColRef};
use wh_base::queries::Edge;
use wh_base::seq::Seq;
use wh_base::tables::TableDef;

/// A tree as far as it has grown: its tables in order, and for each but the root the join that reached it.
#[derive(Drop)]
pub struct Tree {
    tables: Seq<u32>,
    edges: Seq<Edge>,
}

impl Model for Tree {
    ghost use Rattle.def_resolve.specs.Star as star;

    ghost Value = { star.Tree };

    ghost view = { λ t. record { tables = t.tables; edges = t.edges } };
}

impl Tree {
    /// The root alone. An error says that memory ran out.
    fn at(alloc: Global, root: u32) -> Result<Tree, AllocError>
        ensures tables { IfOk result (λ t. t.tables ≡ root ∷ []) }
        ensures edges { IfOk result (λ t. t.edges ≡ []) }
    {
        let mut tables = Seq::new(alloc);
        tables.push(root)?;
        Ok(Tree {
            tables,
            edges: Seq::new(alloc),
        })
    }

    /// The tables in tree order.
    pub fn tables(&self) -> &[u32]
        ensures { result.now ≡ self.now.tables }
    {
        self.tables.as_slice()
    }

    /// The table that this join reaches. An error says that memory ran out.
    fn add(&mut self, branch: Edge) -> Result<(), AllocError>
        ensures { OnOk result (self.new ≡ with_branch self.old (Some branch)) }
    {
        self.tables.push(branch.to.table)?;
        self.edges.push(branch)?;
        Ok(())
    }

    /// The tables, and the joins that reach all but the first.
    pub fn into_parts(self) -> (Seq<u32>, Seq<Edge>)
        ensures tables { result.0 ≡ self.tables }
        ensures edges { result.1 ≡ self.edges }
    {
        let Tree { tables, edges } = self;
        (tables, edges)
    }
}

fn has_number(numbers: &[u32], number: u32) -> bool
    ensures { result ≡ has_number numbers.now number }
{
    for n in numbers {
        if *n == number {
            return true;
        }
    }
    false
}

/// Whether a number stands twice.
#[tactic(auto, using(crate::proofs::Repeats::repeats))]
fn is_repeated_number(numbers: &[u32]) -> bool
    ensures { result ≡ is_repeated_number numbers.now }
{
    let repeats = repeats_later(numbers);
    repeats
}

// The same, by the order of the numbers.
fn repeats_later(numbers: &[u32]) -> bool
    ensures { result ≡ repeats_later [] numbers.now }
{
    for at in 0..numbers.len() {
        if has_number(&numbers[..at], numbers[at]) {
            return true;
        }
    }
    false
}

fn is_key(def: &TableDef, column: u32) -> bool
    ensures { result ≡ is_key def.now column }
{
    has_number(def.keys.as_slice(), column)
}

/// Whether a column is a key of its table; ROWID and PMARKER are none.
fn is_key_column(defs: &[TableDef], column: ColRef) -> bool
    ensures { result ≡ is_key_column defs.now column }
{
    match column.part {
        ColPart::Col(at) => match defs.get(column.table as usize) {
            Some(def) => is_key(def, at),
            None => false,
        },
        ColPart::RowId | ColPart::Mark => false,
    }
}

fn turned(join: Edge) -> Edge
    ensures { result ≡ turned join }
{
    Edge {
        from: join.to,
        to: join.from,
    }
}

/// Whether a join leads from a table of the tree to this one, over a column that is a key of this one.
fn leads_to(defs: &[TableDef], tree: &Tree, table: u32, join: Edge) -> bool
    ensures { result ≡ leads_to defs.now tree.now table join }
{
    has_number(tree.tables(), join.from.table)
        && join.to.table == table
        && is_key_column(defs, join.to)
}

/// A join, directed so that it leads from the tree to this table, where it can be.
fn directed(defs: &[TableDef], tree: &Tree, table: u32, join: Edge) -> Option<Edge>
    ensures { result ≡ directed defs.now tree.now table join }
{
    if leads_to(defs, tree, table, join) {
        return Some(join);
    }
    if leads_to(defs, tree, table, turned(join)) {
        return Some(turned(join));
    }
    None
}

fn first_directed(defs: &[TableDef], joins: &[Edge], tree: &Tree, table: u32) -> Option<Edge>
    ensures { result ≡ first_of (directed defs.now tree.now table) joins.now }
{
    for join in joins {
        if let Some(branch) = directed(defs, tree, table, *join) {
            return Some(branch);
        }
    }
    None
}

/// The join over which a table can be added to the tree; none where it is in the tree.
fn branch_to(defs: &[TableDef], joins: &[Edge], tree: &Tree, table: u32) -> Option<Edge>
    ensures { result ≡ branch_to defs.now joins.now tree.now table }
{
    if has_number(tree.tables(), table) {
        return None;
    }
    first_directed(defs, joins, tree, table)
}

/// The join to the first table of FROM that can be added.
fn next_branch(defs: &[TableDef], joins: &[Edge], from: &[u32], tree: &Tree) -> Option<Edge>
    ensures { result ≡ next_branch defs.now joins.now from.now tree.now }
{
    for table in from {
        if let Some(branch) = branch_to(defs, joins, tree, *table) {
            return Some(branch);
        }
    }
    None
}

/// The tree that grows from this root: again and again the first table of FROM that can be added.
#[tactic(auto, using(crate::proofs::Growing::growing))]
fn tree_from(
    alloc: Global,
    defs: &[TableDef],
    joins: &[Edge],
    from: &[u32],
    root: u32,
) -> Result<Tree, AllocError>
    ensures { IfOk result (λ t. t ≡ tree_from defs.now joins.now from.now root) }
{
    let mut tree = Tree::at(alloc, root)?;
    for turn in 0..from.len() {
        let _ = turn;
        let Some(branch) = next_branch(defs, joins, from, &tree) else {
            return Ok(tree);
        };
        tree.add(branch)?;
    }
    Ok(tree)
}

/// The tree from this root, where it reaches all tables.
fn spanning(
    alloc: Global,
    defs: &[TableDef],
    joins: &[Edge],
    from: &[u32],
    root: u32,
) -> Result<Option<Tree>, AllocError>
    ensures { IfOk result (λ t. t ≡ spanning defs.now joins.now from.now root) }
{
    let tree = tree_from(alloc, defs, joins, from, root)?;
    if tree.tables().len() == from.len() {
        return Ok(Some(tree));
    }
    Ok(None)
}

fn first_spanning(
    alloc: Global,
    defs: &[TableDef],
    joins: &[Edge],
    from: &[u32],
) -> Result<Option<Tree>, AllocError>
    ensures { IfOk result (λ t. t ≡ first_of (spanning defs.now joins.now from.now) from.now) }
{
    for root in from {
        if let Some(tree) = spanning(alloc, defs, joins, from, *root)? {
            return Ok(Some(tree));
        }
    }
    Ok(None)
}

/// The tree of a query by its joins and its tables: no table stands twice, there is one join fewer than tables, and the
/// root is the first table of FROM from which the joins lead to all others. None where there is no such root; an error
/// says that memory ran out.
pub fn star_of(
    alloc: Global,
    defs: &[TableDef],
    joins: &[Edge],
    from: &[u32],
) -> Result<Option<Tree>, AllocError>
    requires { length joins.now < 2 ^ 32 }
    ensures { IfOk result (λ t. t ≡ star_of defs.now joins.now from.now) }
{
    if is_repeated_number(from) || joins.len() + 1 != from.len() {
        return Ok(None);
    }
    first_spanning(alloc, defs, joins, from)
}
