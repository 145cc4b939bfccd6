ghost use Rattle.std.specs.List.{list_any};
ghost use Rattle.std.specs.Prelude.{◌≡◌, ◌≤◌, ◌++◌, ◌&&◌, IfOk, OnOk, filter_map, find, flat_map, length, option_and_then};
ghost use Rattle.def_effect.specs.Define.{keys_clash, mark_key, new_key_refusal, part_keys};
ghost use Rattle.def_resolve.specs.Earlier.{first_in_turn};
ghost use Rattle.wh_base.specs.Lists.{same_text};
ghost use Rattle.wh_define.specs.Places.{place_in};

use crate::columns::{ColumnAt, is_no_column, place_of};
use std::alloc::{AllocError, Global};
use std::marker::Model;
use wh_base::replies::Refusal;
use wh_base::seq::Seq;
use wh_base::statements::{ColumnMark, NewColumn, TablePart};
use wh_base::txt::Txt;

/// A key of the statement, at its column or by itself: the name of its column, and whether it is the primary key.
#[derive(Drop)]
pub struct KeyAt<'a> {
    column: &'a Txt,
    primary: bool,
}

impl<'a> Model for KeyAt<'a> {
    ghost use Rattle.wh_base.specs.declared.statements.NewKey as new;

    ghost Value = { new.NewKey };

    ghost view = { λ k. record { column = k.column.now; primary = k.primary } };
}

impl<'a> KeyAt<'a> {
    fn new(column: &'a Txt, primary: bool) -> KeyAt<'a>
        ensures column { result.column ≡ column.now }
        ensures primary { result.primary ≡ primary }
    {
        KeyAt { column, primary }
    }

    /// The name of its column.
    fn column(&self) -> &Txt
        ensures { result.now ≡ self.now.column }
    {
        self.column
    }

    /// Whether it is the primary key.
    fn is_primary(&self) -> bool
        ensures { result ≡ self.now.primary }
    {
        self.primary
    }
}

/// The keys that stand at a column, behind those before them. After an error, which says that memory ran out, some of
/// them are there.
fn push_marked<'a>(keys: &mut Vec<KeyAt<'a>>, column: &'a NewColumn) -> Result<(), AllocError>
    ensures { OnOk result (keys.new.items ≡ keys.old.items ++ flat_map (mark_key column.now.name) column.now.marks) }
{
    for mark in column.marks.as_slice() {
        match mark {
            ColumnMark::PrimaryKey => keys.push(KeyAt::new(&column.name, true))?,
            ColumnMark::Unique => keys.push(KeyAt::new(&column.name, false))?,
            ColumnMark::NotNull | ColumnMark::References(_) => {}
        }
    }
    Ok(())
}

/// The keys of the statement in the order of declaration.
pub fn keys_of<'a>(alloc: Global, parts: &'a [TablePart]) -> Result<Vec<KeyAt<'a>>, AllocError>
    ensures { IfOk result (λ keys. keys.items ≡ flat_map part_keys parts.now) }
{
    let mut keys = Vec::new(alloc);
    for part in parts {
        match part {
            TablePart::Column(column) => push_marked(&mut keys, column)?,
            TablePart::Key(key) => keys.push(KeyAt::new(&key.column, key.primary))?,
            TablePart::Foreign(_) => {}
        }
    }
    Ok(keys)
}

/// Whether two keys can't stand together: both are primary, or both are on one column.
fn keys_clash(one: &KeyAt<'_>, other: &KeyAt<'_>) -> bool
    ensures { result ≡ keys_clash one.now other.now }
{
    (one.is_primary() && other.is_primary()) || one.column().same_as(other.column())
}

/// Whether a key can't stand together with one of those before it.
fn clashes(earlier: &[KeyAt<'_>], key: &KeyAt<'_>) -> bool
    ensures { result ≡ list_any (λ j. keys_clash j key.now) earlier.now }
{
    for one in earlier {
        if keys_clash(one, key) {
            return true;
        }
    }
    false
}

/// That the column of a key is unknown, or that the key clashes with an earlier one.
fn key_refusal(
    alloc: Global,
    columns: &[ColumnAt<'_>],
    earlier: &[KeyAt<'_>],
    key: &KeyAt<'_>,
) -> Result<Option<Refusal>, AllocError>
    ensures { IfOk result (λ r. r ≡ new_key_refusal columns.now earlier.now key.now) }
{
    if is_no_column(columns, key.column()) {
        return Ok(Some(Refusal::NoSuchColumn(key.column().copy(alloc)?)));
    }
    if clashes(earlier, key) {
        return Ok(Some(Refusal::NameTaken(key.column().copy(alloc)?)));
    }
    Ok(None)
}

/// The first refusal of a key, each asked with those before it.
#[tactic(auto, using(crate::proofs::Turns::turns))]
pub fn keys_refusal(
    alloc: Global,
    columns: &[ColumnAt<'_>],
    keys: &[KeyAt<'_>],
) -> Result<Option<Refusal>, AllocError>
    ensures { IfOk result (λ r. r ≡ first_in_turn (new_key_refusal columns.now) keys.now) }
{
    for at in 0..keys.len() {
        if let Some(refusal) = key_refusal(alloc, columns, &keys[..at], &keys[at])? {
            return Ok(Some(refusal));
        }
    }
    Ok(None)
}

/// Whether the column of this name is the primary key.
pub fn is_primary(keys: &[KeyAt<'_>], name: &Txt) -> bool
    ensures { result ≡ list_any (λ k. k.primary && same_text k.column name.now) keys.now }
{
    for key in keys {
        if key.is_primary() && key.column().same_as(name) {
            return true;
        }
    }
    false
}

/// The places of the columns of the keys.
pub fn key_places(
    alloc: Global,
    columns: &[ColumnAt<'_>],
    keys: &[KeyAt<'_>],
) -> Result<Seq<u32>, AllocError>
    requires { length columns.now ≤ 16 }
    ensures { IfOk result (λ places. places ≡ filter_map (λ k. place_in columns.now k.column) keys.now) }
{
    let mut places = Seq::from_vec(Vec::with_capacity(alloc, keys.len())?)?;
    for key in keys {
        if let Some(place) = place_of(columns, key.column()) {
            places.push(place)?;
        }
    }
    Ok(places)
}

/// The place of the column of the primary key.
pub fn primary_place(columns: &[ColumnAt<'_>], keys: &[KeyAt<'_>]) -> Option<u32>
    requires { length columns.now ≤ 16 }
    ensures { result ≡ option_and_then (λ k. place_in columns.now k.column) (find (λ k. k.primary) keys.now) }
{
    for key in keys {
        if key.is_primary() {
            return place_of(columns, key.column());
        }
    }
    None
}
