//! The third step of a statement: whether its keys and foreign keys hold, and those of the tables that refer to it.
ghost use Rattle.std.specs.List.{enumerate_from, list_any, position_or_len};
ghost use Rattle.std.specs.Prelude.{◌≡◌, ◌<◌, ◌==◌, ◌^◌, IfOk, IfSome, None, false, is_none, is_some, length, slice_get};
ghost use Rattle.std.specs.FinMap as map;
ghost use Rattle.wh_base.specs.Lists.{option_case};
ghost use Rattle.wh_base.specs.Tables.{column_name, def_at};
ghost use Rattle.wh_constraints.specs.Constraints.{AreRight, Tells, child_left, children_refusal, is_absent, is_left, key_index, key_number, keys_refusal, parent_lost, parent_missing, parents_refusal};
ghost use Rattle.wh_dml.specs.Placed.{ArePlaced, all_made};
ghost use Rattle.wh_keys.specs.Indexes.{entry_in};
ghost use Rattle.wh_keys.specs.Made.{foreign_at, indexes_at, keys_made};
ghost use Rattle.wh_table.specs.Kept.{with_change};

use law_keys::{foreign_keys_are_told, keys_are_told};
use std::alloc::{AllocError, Global};
use wh_base::replies::Refusal;
use wh_base::seq::Seq;
use wh_base::tables::{ForeignDef, TableDef};
use wh_base::txt::Txt;
use wh_base::values::Value;
use wh_dml::{PlacedRow, RowChange};
use wh_keys::{Keys, entry_of};
use wh_table::Tables;

// ---- the index of a key

/// The number of the key in a column among the keys of a table.
fn key_number(def: &TableDef, column: u32) -> Option<usize>
    ensures { result ≡ key_number def.now column }
{
    let at = key_place(def.keys.as_slice(), column);
    if at < def.keys.len() {
        return Some(at);
    }
    None
}

/// The place of a column among others, or how many there are.
fn key_place(keys: &[u32], column: u32) -> usize
    ensures { result ≡ position_or_len (λ k. k == column) keys.now }
{
    for at in 0..keys.len() {
        if keys[at] == column {
            return at;
        }
    }
    keys.len()
}

/// Whether no row of a table has the value in its key in a column.
#[tactic(auto, using(crate::proofs::Indexed::absent))]
fn is_absent(defs: &Seq<TableDef>, keys: &Keys, table: u32, column: u32, value: &Value) -> bool
    ensures { result ≡ is_none (map.get (key_index defs.now keys.now.now table column) value.now) }
{
    match defs.get(table as usize) {
        Some(def) => match key_number(def, column) {
            Some(number) => keys.find(table, number, value).is_none(),
            None => true,
        },
        None => true,
    }
}

// ---- parents

/// Whether a row that comes has a value in the foreign key that no row of the parent has in its key.
fn is_orphan(
    defs: &Seq<TableDef>,
    keys: &Keys,
    foreign: &ForeignDef,
    row: &Option<PlacedRow>,
) -> bool
    ensures { result ≡ option_case (option_case row.now None (entry_in foreign.now.column)) false (is_absent (key_index defs.now keys.now.now foreign.now.table foreign.now.to)) }
{
    match entry_of(foreign.column, row) {
        Some(entry) => is_absent(defs, keys, foreign.table, foreign.to, entry.value),
        None => false,
    }
}

/// Whether a row that comes has no parent by this foreign key.
#[tactic(auto, using(crate::proofs::Turns::comes))]
fn parent_missing(
    defs: &Seq<TableDef>,
    keys: &Keys,
    foreign: &ForeignDef,
    changes: &[RowChange],
) -> bool
    ensures { result ≡ parent_missing defs.now keys.now.now changes.now foreign.now }
{
    for change in changes {
        if is_orphan(defs, keys, foreign, &change.new) {
            return true;
        }
    }
    false
}

/// The first enabled foreign key of the table with this number, in the order of declaration, by which a row that comes has
/// no parent. The indexes are those after the changes of the keys. An error says that memory ran out.
fn parents_refusal(
    alloc: Global,
    defs: &Seq<TableDef>,
    keys: &Keys,
    table: u32,
    changes: &[RowChange],
) -> Result<Option<Refusal>, AllocError>
    requires { table < length defs.now }
    ensures { IfOk result (λ r. r ≡ parents_refusal defs.now keys.now.now table changes.now) }
{
    let def = def_at(defs, table);
    for foreign in def.foreign.as_slice() {
        if !foreign.rely && parent_missing(defs, keys, foreign, changes) {
            let name = def.name.copy(alloc)?;
            let column = name_of(alloc, def, foreign.column)?;
            return Ok(Some(Refusal::ParentMissing(name, column)));
        }
    }
    Ok(None)
}

// ---- children

/// Whether a row that goes has a value in the key that no row has there any more, but children have in this foreign key of
/// theirs: the one with this number in the table `child`.
fn is_left(
    defs: &Seq<TableDef>,
    keys: &Keys,
    child: u32,
    number: usize,
    foreign: &ForeignDef,
    row: &Option<PlacedRow>,
) -> bool
    ensures { result ≡ option_case (option_case row.now None (entry_in foreign.now.to)) false (is_left (key_index defs.now keys.now.now foreign.now.table foreign.now.to) (foreign_at (indexes_at keys.now.now child).foreign number)) }
{
    match entry_of(foreign.to, row) {
        Some(entry) => {
            if !is_absent(defs, keys, foreign.table, foreign.to, entry.value) {
                return false;
            }
            keys.children(child, number, entry.value) > 0
        }
        None => false,
    }
}

/// Whether a row that goes leaves children by this foreign key.
#[tactic(auto, using(crate::proofs::Turns::goes))]
fn parent_lost(
    defs: &Seq<TableDef>,
    keys: &Keys,
    child: u32,
    number: usize,
    foreign: &ForeignDef,
    changes: &[RowChange],
) -> bool
    ensures { result ≡ parent_lost (key_index defs.now keys.now.now foreign.now.table foreign.now.to) (foreign_at (indexes_at keys.now.now child).foreign number) changes.now foreign.now }
{
    for change in changes {
        if is_left(defs, keys, child, number, foreign, &change.old) {
            return true;
        }
    }
    false
}

/// Whether a foreign key is enabled, refers to this table, and lost a parent.
fn child_left(
    defs: &Seq<TableDef>,
    keys: &Keys,
    table: u32,
    changes: &[RowChange],
    child: u32,
    number: usize,
    foreign: &ForeignDef,
) -> bool
    ensures { result ≡ child_left defs.now keys.now.now table changes.now child (number, foreign.now) }
{
    if foreign.rely || foreign.table != table {
        return false;
    }
    parent_lost(defs, keys, child, number, foreign, changes)
}

/// Whether a foreign key of the table `child` is so.
#[tactic(auto)]
fn has_left(
    defs: &Seq<TableDef>,
    keys: &Keys,
    table: u32,
    changes: &[RowChange],
    child: u32,
    foreign: &[ForeignDef],
) -> bool
    ensures { result ≡ list_any (child_left defs.now keys.now.now table changes.now child) (enumerate_from 0 foreign.now) }
{
    for number in 0..foreign.len() {
        if child_left(defs, keys, table, changes, child, number, &foreign[number]) {
            return true;
        }
    }
    false
}

/// The first table, in the order of creation, with an enabled foreign key to this table that lost a parent. The indexes are
/// those after all changes. An error says that memory ran out.
#[tactic(auto)]
fn children_refusal(
    alloc: Global,
    defs: &Seq<TableDef>,
    keys: &Keys,
    table: u32,
    changes: &[RowChange],
) -> Result<Option<Refusal>, AllocError>
    requires there { table < length defs.now }
    requires few { length defs.now < 2 ^ 32 }
    ensures { IfOk result (λ r. r ≡ children_refusal defs.now keys.now.now table changes.now) }
{
    let children = defs.as_slice();
    for number in 0..children.len() {
        let child = &children[number];
        if has_left(
            defs,
            keys,
            table,
            changes,
            number as u32,
            child.foreign.as_slice(),
        ) {
            let name = def_at(defs, table).name.copy(alloc)?;
            return Ok(Some(Refusal::ChildExists(name, child.name.copy(alloc)?)));
        }
    }
    Ok(None)
}

// ---- a statement

/// The definition of the table with this number.
fn def_at(defs: &Seq<TableDef>, table: u32) -> &TableDef
    requires { table < length defs.now }
    ensures { result.now ≡ def_at defs.now table }
{
    match defs.get(table as usize) {
        Some(def) => def,
        None => unreachable!(),
    }
}

/// The name of a column; none past the last. An error says that memory ran out.
fn name_of(alloc: Global, def: &TableDef, column: u32) -> Result<Txt, AllocError>
    ensures { IfOk result (λ name. name ≡ column_name def.now column) }
{
    match def.columns.get(column as usize) {
        Some(column) => column.name.copy(alloc),
        None => Ok(Txt::new(alloc)),
    }
}

/// That two rows of a table would have one value in a column.
fn duplicate_key(alloc: Global, def: &TableDef, column: u32) -> Result<Refusal, AllocError>
    ensures { IfOk result (λ r. r ≡ Refusal.DuplicateKey def.now.name (column_name def.now column)) }
{
    let name = def.name.copy(alloc)?;
    Ok(Refusal::DuplicateKey(name, name_of(alloc, def, column)?))
}

/// What the indexes tell of changes of a table, which they then have.
#[tactic(auto, using(crate::proofs::Indexed::changed))]
fn told_refusal(
    alloc: Global,
    defs: &Seq<TableDef>,
    keys: &mut Keys,
    table: u32,
    changes: &[RowChange],
) -> Result<Option<Refusal>, AllocError>
    requires there { table < length defs.now }
    requires few { length defs.now < 2 ^ 32 }
    requires indexed { table < length keys.old.now }
    requires keys { length (def_at defs.now table).keys ≡ length (indexes_at keys.old.now table).keys }
    requires foreign { length (def_at defs.now table).foreign ≡ length (indexes_at keys.old.now table).foreign }
    ensures same { keys.new.before ≡ keys.old.before }
    ensures told { IfOk result (λ r. Tells defs.now table changes.now (keys_made table (def_at defs.now table).keys changes.now keys.old.now) r keys.new.now) }
{
    let def = def_at(defs, table);
    if let Some(column) = keys.change_keys(alloc, table, def.keys.as_slice(), changes)? {
        return Ok(Some(duplicate_key(alloc, def, column)?));
    }
    if let Some(refusal) = parents_refusal(alloc, defs, keys, table, changes)? {
        return Ok(Some(refusal));
    }
    keys.change_foreign(alloc, table, def.foreign.as_slice(), changes)?;
    let refusal = children_refusal(alloc, defs, keys, table, changes)?;
    Ok(refusal)
}

/// The refusals that keys and foreign keys give to changes of the table with this number, in the order of the definition:
/// two rows with one value in a key (MV-06), a row that comes without a parent (MV-07), and a table with rows that refer to
/// a value that is gone (MV-08). A foreign key that is RELY is asked nothing. Only what changes is looked up, in the indexes
/// of all tables; where nothing is refused, these are then those of the tables with the changes made. An error says that
/// memory ran out, or that the block has more changes than the indexes can take back.
pub fn keys_refusal<L>(
    alloc: Global,
    tables: &Tables<L>,
    keys: &mut Keys,
    table: u32,
    changes: &[RowChange],
) -> Result<Option<Refusal>, AllocError>
    requires there { table < length tables.now.tables.items }
    requires right { AreRight tables.now.scn tables.now.tables.items keys.old.now }
    requires placed { IfSome (slice_get tables.now.tables.items table) (λ t. ArePlaced tables.now.scn t changes.now) }
    ensures same { keys.new.before ≡ keys.old.before }
    ensures refusal { IfOk result (λ r. r ≡ keys_refusal tables.now.scn tables.now.tables.items table changes.now) }
    ensures right { IfOk result (λ r. r ≡ None → AreRight tables.now.scn (with_change table (all_made tables.now.scn changes.now) tables.now.tables.items) keys.new.now) }
{
    keys_are_told();
    foreign_keys_are_told();
    let refusal = told_refusal(alloc, tables.defs(), keys, table, changes)?;
    Ok(refusal)
}
