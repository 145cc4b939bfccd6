ghost use Rattle.std.specs.Prelude.{◌≡◌, ◌+◌, ◌-◌, ◌<◌, ◌≤◌, ◌^◌, [], ◌∷◌, ◌++◌, IfOk, IfSome, OnErr, OnOk, Some, length, map, slice_get};
ghost use Rattle.wh_base.specs.Tables.{most_live};
ghost use Rattle.wh_table.specs.Kept.{AreKept, LivesIn, defs_of, differ_at, few_at, no_key, no_part, small_at, tables_at, with_change};
ghost use Rattle.wh_table.specs.Stored.{IsSmallRow, begun, deleted, inserted, last_scn, live_count, updated};

use crate::def_copy::copied_def;
use crate::table::Table;
use std::alloc::{AllocError, Global};
use wh_base::reads::Reads;
use wh_base::rows_of::RowsOf;
use wh_base::seq::Seq;
use wh_base::shared::Shared;
use wh_base::tables::{Part, TableDef};
use wh_base::values::Value;

/// How many tables there are at the most: a number of one fits a `u32`.
const MOST: usize = 0xffff_ffff;

/// The tables at an SCN, by their numbers in the order of creation. A change is made at this SCN and is seen at once; a
/// copy goes on from here on its own, and its SCN can be raised.
#[derive(Drop)]
pub struct Tables<L> {
    pub scn: u64,
    pub tables: Vec<Table<L>>,
    defs: Shared<Seq<TableDef>>,
    no_parts: Seq<Part>,
    ghost kept: { AreKept scn tables.items defs no_parts },
}

impl<L> Tables<L> {
    /// No tables, at SCN 0. An error says that memory ran out.
    pub fn new(alloc: Global) -> Result<Tables<L>, AllocError>
        ensures scn { IfOk result (λ t. t.scn ≡ 0) }
        ensures tables { IfOk result (λ t. t.tables.items ≡ []) }
    {
        Ok(Tables {
            scn: 0,
            tables: Vec::new(alloc),
            defs: Shared::new(alloc, Seq::new(alloc))?,
            no_parts: Seq::new(alloc),
        })
    }

    /// The SCN at which the tables are read and changed.
    pub fn scn(&self) -> u64
        ensures { result ≡ self.now.scn }
    {
        self.scn
    }

    /// How many tables there are.
    pub fn len(&self) -> usize
        ensures count { result ≡ length self.now.tables.items }
        ensures few { result < 2 ^ 32 }
    {
        self.tables.len()
    }

    /// The table with a number.
    pub fn table(&self, number: u32) -> &Table<L>
        requires { number < length self.now.tables.items }
        ensures { slice_get self.now.tables.items number ≡ Some result.now }
    {
        match self.tables.get(number as usize) {
            Some(table) => table,
            None => unreachable!(),
        }
    }

    /// The definitions of the tables, by their numbers.
    pub fn defs(&self) -> &Seq<TableDef>
        ensures { result.now ≡ defs_of self.now.tables.items }
    {
        self.defs.get()
    }

    /// The SCN of the last change of the table with a number, as by `Table::changed`.
    pub fn changed(&self, number: u32) -> u64
        requires { number < length self.now.tables.items }
        ensures { IfSome (slice_get self.now.tables.items number) (λ t. result ≡ last_scn t.versions) }
    {
        self.table(number).changed()
    }

    /// The same tables, which share their definitions and the chunks of their versions: it costs the lists of chunks alone.
    /// An error says that memory ran out.
    pub fn copy(&self, alloc: Global) -> Result<Tables<L>, AllocError>
        ensures scn { IfOk result (λ t. t.scn ≡ self.now.scn) }
        ensures tables { IfOk result (λ t. t.tables.items ≡ self.now.tables.items) }
    {
        let tables = copied_tables(alloc, self.tables.as_slice())?;
        Ok(Tables {
            scn: self.scn,
            tables,
            defs: self.defs.share()?,
            no_parts: Seq::new(alloc),
        })
    }

    /// One table more, without rows and with the next number. After an error, which says that memory ran out or that there
    /// are 2^32 - 1 tables, they are as they were.
    #[tactic(auto, using(crate::proofs::Changing::changing))]
    pub fn push_table(&mut self, alloc: Global, def: TableDef) -> Result<(), AllocError>
        ensures scn { self.new.scn ≡ self.old.scn }
        ensures ok { OnOk result (self.new.tables.items ≡ self.old.tables.items ++ begun def ∷ []) }
        ensures err { OnErr result (self.new.tables.items ≡ self.old.tables.items) }
    {
        let defs = defs_with(alloc, self.defs.get(), &def)?;
        let table = Table::new(alloc, def)?;
        push_to(&mut self.tables, table)?;
        self.defs = defs;
        Ok(())
    }

    /// A new row in a table from the SCN of the tables on, as by `Table::insert`; gives its place. After an error the tables
    /// are as they were.
    #[tactic(auto, using(crate::proofs::Changing::changing))]
    pub fn insert(&mut self, number: u32, values: Seq<Value>) -> Result<u64, AllocError>
        requires table { number < length self.old.tables.items }
        requires room { IfSome (slice_get self.old.tables.items number) (λ t. live_count t < most_live) }
        requires small { IsSmallRow values }
        ensures scn { self.new.scn ≡ self.old.scn }
        ensures place { IfSome (slice_get self.old.tables.items number) (λ t. IfOk result (λ place. place ≡ length t.versions)) }
        ensures ok { OnOk result (self.new.tables.items ≡ with_change number (inserted self.old.scn values) self.old.tables.items) }
        ensures err { OnErr result (self.new.tables.items ≡ self.old.tables.items) }
    {
        let place = insert_into(&mut self.tables, number as usize, values, self.scn)?;
        Ok(place)
    }

    /// Takes the row at a place of a table away from the SCN of the tables on, as by `Table::delete`. After an error the
    /// tables are as they were.
    #[tactic(auto, using(crate::proofs::Changing::changing))]
    pub fn delete(&mut self, number: u32, place: u64) -> Result<(), AllocError>
        requires table { number < length self.old.tables.items }
        requires lives { LivesIn self.old.tables.items number place }
        ensures scn { self.new.scn ≡ self.old.scn }
        ensures ok { OnOk result (self.new.tables.items ≡ with_change number (deleted self.old.scn place) self.old.tables.items) }
        ensures err { OnErr result (self.new.tables.items ≡ self.old.tables.items) }
    {
        delete_from(&mut self.tables, number as usize, place, self.scn)?;
        Ok(())
    }

    /// New values in the row at a place of a table from the SCN of the tables on, as by `Table::update`; gives its new place.
    /// After an error the tables are as they were.
    #[tactic(auto, using(crate::proofs::Changing::changing))]
    pub fn update(&mut self, number: u32, place: u64, values: Seq<Value>) -> Result<u64, AllocError>
        requires table { number < length self.old.tables.items }
        requires lives { LivesIn self.old.tables.items number place }
        requires small { IsSmallRow values }
        ensures scn { self.new.scn ≡ self.old.scn }
        ensures place { IfSome (slice_get self.old.tables.items number) (λ t. IfOk result (λ place. place ≡ length t.versions)) }
        ensures ok { OnOk result (self.new.tables.items ≡ with_change number (updated self.old.scn place values) self.old.tables.items) }
        ensures err { OnErr result (self.new.tables.items ≡ self.old.tables.items) }
    {
        let place = update_in(&mut self.tables, number as usize, place, values, self.scn)?;
        Ok(place)
    }

    /// The next SCN: further changes are made there, and what there is stays as it is.
    #[tactic(auto, using(crate::proofs::Changing::changing))]
    pub fn raise(&mut self)
        requires { self.old.scn < 2 ^ 64 - 1 }
        ensures scn { self.new.scn ≡ self.old.scn + 1 }
        ensures tables { self.new.tables.items ≡ self.old.tables.items }
    {
        self.scn += 1;
    }
}

/// The same tables. An error says that memory ran out.
fn copied_tables<L>(alloc: Global, tables: &[Table<L>]) -> Result<Vec<Table<L>>, AllocError>
    ensures { IfOk result (λ copies. copies.items ≡ tables.now) }
{
    let mut copies = Vec::with_capacity(alloc, tables.len())?;
    for table in tables {
        copies.push(table.copy()?)?;
    }
    Ok(copies)
}

/// The definitions with one more. An error says that memory ran out or that there are 2^32 - 1 of them.
fn defs_with(
    alloc: Global,
    defs: &Seq<TableDef>,
    def: &TableDef,
) -> Result<Shared<Seq<TableDef>>, AllocError>
    ensures { IfOk result (λ all. all ≡ defs.now ++ def.now ∷ []) }
{
    let mut all = Seq::new(alloc);
    for one in defs.as_slice() {
        push_copy(alloc, &mut all, one)?;
    }
    push_copy(alloc, &mut all, def)?;
    Shared::new(alloc, all)
}

/// The definitions with a copy of one more. An error says that memory ran out or that there are 2^32 - 1 of them.
fn push_copy(alloc: Global, defs: &mut Seq<TableDef>, def: &TableDef) -> Result<(), AllocError>
    ensures { OnOk result (defs.new ≡ defs.old ++ def.now ∷ []) }
{
    defs.push(copied_def(alloc, def)?)
}

/// One table more. After an error, which says that memory ran out or that there are 2^32 - 1 tables, they are as they were.
fn push_to<L>(tables: &mut Vec<Table<L>>, table: Table<L>) -> Result<(), AllocError>
    ensures ok { OnOk result (tables.new.items ≡ tables.old.items ++ table ∷ []) }
    ensures few { OnOk result (length tables.old.items < 2 ^ 32 - 1) }
    ensures err { OnErr result (tables.new.items ≡ tables.old.items) }
{
    if tables.len() >= MOST {
        return Err(AllocError);
    }
    tables.push(table)?;
    Ok(())
}

/// `Table::insert` at the table with this number.
fn insert_into<L>(
    tables: &mut Vec<Table<L>>,
    number: usize,
    values: Seq<Value>,
    scn: u64,
) -> Result<u64, AllocError>
    requires table { number < length tables.old.items }
    requires after { IfSome (slice_get tables.old.items number) (λ t. last_scn t.versions ≤ scn) }
    requires room { IfSome (slice_get tables.old.items number) (λ t. live_count t < most_live) }
    requires small { IsSmallRow values }
    ensures place { IfSome (slice_get tables.old.items number) (λ t. IfOk result (λ place. place ≡ length t.versions)) }
    ensures few { OnOk result (IfSome (slice_get tables.old.items number) (λ t. length t.versions < 2 ^ 32 - 1)) }
    ensures ok { OnOk result (tables.new.items ≡ with_change number (inserted scn values) tables.old.items) }
    ensures err { OnErr result (tables.new.items ≡ tables.old.items) }
{
    let place = tables[number].insert(values, scn)?;
    Ok(place)
}

/// `Table::delete` at the table with this number.
fn delete_from<L>(
    tables: &mut Vec<Table<L>>,
    number: usize,
    place: u64,
    scn: u64,
) -> Result<(), AllocError>
    requires table { number < length tables.old.items }
    requires after { IfSome (slice_get tables.old.items number) (λ t. last_scn t.versions ≤ scn) }
    requires lives { LivesIn tables.old.items number place }
    ensures ok { OnOk result (tables.new.items ≡ with_change number (deleted scn place) tables.old.items) }
    ensures err { OnErr result (tables.new.items ≡ tables.old.items) }
{
    tables[number].delete(place, scn)?;
    Ok(())
}

/// `Table::update` at the table with this number.
fn update_in<L>(
    tables: &mut Vec<Table<L>>,
    number: usize,
    place: u64,
    values: Seq<Value>,
    scn: u64,
) -> Result<u64, AllocError>
    requires table { number < length tables.old.items }
    requires after { IfSome (slice_get tables.old.items number) (λ t. last_scn t.versions ≤ scn) }
    requires lives { LivesIn tables.old.items number place }
    requires small { IsSmallRow values }
    ensures place { IfSome (slice_get tables.old.items number) (λ t. IfOk result (λ place. place ≡ length t.versions)) }
    ensures few { OnOk result (IfSome (slice_get tables.old.items number) (λ t. length t.versions < 2 ^ 32 - 1)) }
    ensures ok { OnOk result (tables.new.items ≡ with_change number (updated scn place values) tables.old.items) }
    ensures err { OnErr result (tables.new.items ≡ tables.old.items) }
{
    let place = tables[number].update(place, values, scn)?;
    Ok(place)
}

impl<L> RowsOf<L> for Tables<L> {
    ghost tables = { λ i. tables_at i.scn i.tables.items };

    ghost keys = { λ i. map no_key i.tables.items };

    ghost partitions = { λ i. map no_part i.tables.items };

    ghost few = { λ i n. few_at i.scn i.tables.items n i.kept.stored };

    ghost differ = { λ i n. differ_at i.scn i.tables.items n i.kept.stored };

    ghost small = { λ i n. small_at i.scn i.tables.items n i.kept.stored };

    #[tactic(auto, using(crate::proofs::Reading::reading))]
    fn places(&self, table: u32) -> u64 {
        self.table(table).places()
    }

    #[tactic(auto, using(crate::proofs::Reading::reading))]
    fn lives(&self, table: u32, place: u64) -> bool {
        self.table(table).visible(place, self.scn)
    }

    #[tactic(auto, using(crate::proofs::Reading::reading))]
    fn rowid(&self, table: u32, place: u64) -> u64 {
        self.table(table).rowid(place)
    }

    #[tactic(auto, using(crate::proofs::Reading::reading))]
    fn part(&self, table: u32, place: u64) -> u64 {
        let _ = self.table(table);
        let _ = place;
        0
    }

    #[tactic(auto, using(crate::proofs::Reading::reading))]
    fn part_key(&self, table: u32) -> Option<u32> {
        let _ = self.table(table);
        None
    }

    #[tactic(auto, using(crate::proofs::Reading::reading))]
    fn parts(&self, table: u32) -> &Seq<Part> {
        let _ = self.table(table);
        &self.no_parts
    }

    #[tactic(auto, using(crate::proofs::Reading::reading))]
    fn row(&self, table: u32, place: u64, reads: &mut Reads<L>) -> &Seq<Value> {
        self.table(table).row(place, reads)
    }
}
