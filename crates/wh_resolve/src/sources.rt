ghost use Rattle.std.specs.Prelude.{◌≡◌, ◌<◌, ◌^◌, IfOk, length, unwrap_or};
ghost use Rattle.def_resolve.specs.Names.{source_of, sources_of, table_refusal};
ghost use Rattle.wh_base.specs.Tables.{table_number};

use std::alloc::{AllocError, Global};
use std::marker::Model;
use wh_base::queries::{RawQuery, RawTable};
use wh_base::replies::Refusal;
use wh_base::tables::TableDef;
use wh_base::txt::Txt;

/// A table of FROM: the name that qualifies its columns, its number, and its definition.
#[derive(Drop)]
pub struct Source<'a> {
    label: &'a Txt,
    table: u32,
    def: &'a TableDef,
}

impl<'a> Model for Source<'a> {
    ghost use Rattle.def_resolve.specs.Names as names;

    ghost Value = { names.Source };

    ghost view = { λ s. record { label = s.label.now; table = s.table; def = s.def.now } };
}

impl<'a> Source<'a> {
    /// The table with this number as FROM names it: its label is its alias, or its name where it has none.
    pub fn new(label: &'a Txt, table: u32, def: &'a TableDef) -> Source<'a>
        ensures label { result.label ≡ label.now }
        ensures table { result.table ≡ table }
        ensures def { result.def ≡ def.now }
    {
        Source { label, table, def }
    }

    /// The name that qualifies its columns.
    pub fn label(&self) -> &Txt
        ensures { result.now ≡ self.now.label }
    {
        self.label
    }

    /// Its number, counted from 0.
    pub fn table(&self) -> u32
        ensures { result ≡ self.now.table }
    {
        self.table
    }

    /// Its definition.
    pub fn def(&self) -> &TableDef
        ensures { result.now ≡ self.now.def }
    {
        self.def
    }
}

/// The number of the table of this name.
#[tactic(auto, using(crate::proofs::Places::places))]
fn table_number(defs: &[TableDef], name: &Txt) -> Option<u32>
    requires { length defs.now < 2 ^ 32 }
    ensures { result ≡ table_number defs.now name.now }
{
    for at in 0..defs.len() {
        if defs[at].name.same_as(name) {
            return Some(at as u32);
        }
    }
    None
}

/// The first table of FROM that isn't there.
pub fn table_refusal(
    alloc: Global,
    defs: &[TableDef],
    query: &RawQuery,
) -> Result<Option<Refusal>, AllocError>
    requires { length defs.now < 2 ^ 32 }
    ensures { IfOk result (λ r. r ≡ table_refusal defs.now query.now) }
{
    for table in query.tables.as_slice() {
        if table_number(defs, &table.table).is_none() {
            return Ok(Some(Refusal::NoSuchObject(table.table.copy(alloc)?)));
        }
    }
    Ok(None)
}

/// The table of FROM, where there is one of this name.
fn source_of<'a>(defs: &'a [TableDef], table: &'a RawTable) -> Option<Source<'a>>
    requires { length defs.now < 2 ^ 32 }
    ensures { result ≡ source_of defs.now table.now }
{
    match table_number(defs, &table.table) {
        Some(number) => match defs.get(number as usize) {
            Some(def) => Some(Source::new(label_of(table), number, def)),
            None => None,
        },
        None => None,
    }
}

fn label_of(table: &RawTable) -> &Txt
    ensures { result.now ≡ unwrap_or table.now.alias table.now.table }
{
    match &table.alias {
        Some(alias) => alias,
        None => &table.table,
    }
}

/// The tables of FROM that are there.
pub fn sources_of<'a>(
    alloc: Global,
    defs: &'a [TableDef],
    query: &'a RawQuery,
) -> Result<Vec<Source<'a>>, AllocError>
    requires { length defs.now < 2 ^ 32 }
    ensures { IfOk result (λ s. s.items ≡ sources_of defs.now query.now) }
{
    let mut sources = Vec::with_capacity(alloc, query.tables.len())?;
    for table in query.tables.as_slice() {
        if let Some(source) = source_of(defs, table) {
            sources.push(source)?;
        }
    }
    Ok(sources)
}
