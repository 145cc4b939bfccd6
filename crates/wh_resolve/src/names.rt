ghost use Rattle.std.specs.Prelude.{◌≡◌, IfOk};
ghost use Rattle.def_resolve.specs.Names.{column_in, column_named, column_of, is_qualified_by, name_refusal, name_text, part_named, part_text};
ghost use Rattle.wh_base.specs.Tables.{column_number};

use crate::sources::Source;
use std::alloc::{AllocError, Global};
use wh_base::columns::{ColPart, ColRef};
use wh_base::queries::{ColName, NamePart};
use wh_base::replies::Refusal;
use wh_base::tables::TableDef;
use wh_base::txt::Txt;

/// The place of the column of this name, counted from 0.
#[tactic(auto, using(crate::proofs::Places::places))]
pub fn column_number(def: &TableDef, name: &Txt) -> Option<u32>
    ensures { result ≡ column_number def.now name.now }
{
    for at in 0..def.columns.len() {
        if def.columns.as_slice()[at].name.same_as(name) {
            return Some(at as u32);
        }
    }
    None
}

/// What a name stands for in a table: a column, where there is one of this name; each table has ROWID and PMARKER.
fn part_named(def: &TableDef, part: &NamePart) -> Option<ColPart>
    ensures { result ≡ part_named def.now part.now }
{
    match part {
        NamePart::Plain(name) => match column_number(def, name) {
            Some(at) => Some(ColPart::Col(at)),
            None => None,
        },
        NamePart::RowIdName => Some(ColPart::RowId),
        NamePart::MarkName => Some(ColPart::Mark),
    }
}

/// Whether a qualifier picks this table of FROM; without one all are looked in.
fn is_qualified_by(qualifier: &Option<Txt>, source: &Source<'_>) -> bool
    ensures { result ≡ is_qualified_by qualifier.now source.now }
{
    match qualifier {
        Some(qualifier) => qualifier.same_as(source.label()),
        None => true,
    }
}

/// The column that a name stands for in this table of FROM.
fn column_in(name: &ColName, source: &Source<'_>) -> Option<ColRef>
    ensures { result ≡ column_in name.now source.now }
{
    if !is_qualified_by(&name.qualifier, source) {
        return None;
    }
    match part_named(source.def(), &name.part) {
        Some(part) => Some(ColRef {
            table: source.table(),
            part,
        }),
        None => None,
    }
}

/// The column that a name stands for; none where it is unknown or in two tables.
pub fn column_of(sources: &[Source<'_>], name: &ColName) -> Option<ColRef>
    ensures { result ≡ column_of sources.now name.now }
{
    let mut found = None;
    for source in sources {
        if let Some(column) = column_in(name, source) {
            if found.is_some() {
                return None;
            }
            found = Some(column);
        }
    }
    found
}

/// The column that a known name stands for; ROWID of the first table stands for one that isn't known.
pub fn column_named(sources: &[Source<'_>], name: &ColName) -> ColRef
    ensures { result ≡ column_named sources.now name.now }
{
    match column_of(sources, name) {
        Some(column) => column,
        None => ColRef {
            table: 0,
            part: ColPart::RowId,
        },
    }
}

// PMARKER prints as the ROWID in it.
fn part_text(part: &NamePart) -> &[u8]
    ensures { result.now ≡ part_text part.now }
{
    match part {
        NamePart::Plain(name) => name.as_slice(),
        NamePart::RowIdName | NamePart::MarkName => b"ROWID",
    }
}

/// A name as a refusal of it prints: with the qualifier that is written.
fn name_text(alloc: Global, name: &ColName) -> Result<Txt, AllocError>
    ensures { IfOk result (λ t. t ≡ name_text name.now) }
{
    match &name.qualifier {
        None => Txt::from_slice(alloc, part_text(&name.part)),
        Some(qualifier) => {
            let mut text = Vec::from_slice(alloc, qualifier.as_slice())?;
            text.push(b'.')?;
            text.extend_from_slice(part_text(&name.part))?;
            Txt::from_vec(text)
        }
    }
}

/// That a name is unknown or in two tables. An error says that memory ran out.
pub fn name_refusal(
    alloc: Global,
    sources: &[Source<'_>],
    name: &ColName,
) -> Result<Option<Refusal>, AllocError>
    ensures { IfOk result (λ r. r ≡ name_refusal sources.now name.now) }
{
    if column_of(sources, name).is_some() {
        return Ok(None);
    }
    Ok(Some(Refusal::NoSuchColumn(name_text(alloc, name)?)))
}
