ghost use Rattle.std.specs.Prelude.{◌≡◌, ◌++◌, OnOk, decimal, drop};
ghost use Rattle.wh_base.specs.Values.{int_text};
ghost use Rattle.def_transcript.specs.Texts.{code_text, counted_text, place_words, point_text, refusal_words, restricted_text};
ghost use Rattle.wh_render.specs.Pieces.{first_word, more_words, spaced, statement_words};

use crate::fields::Printed;
use crate::words::{push_count, push_number_word, push_point, push_printed, push_word};
use std::alloc::AllocError;
use wh_base::replies::{Code, Counted, Place, Refusal, Restricted};
use wh_base::txt::Txt;

/// The code of a restriction.
fn code_text(code: Code) -> &'static str
    ensures { result.now ≡ code_text code }
{
    match code {
        Code::F1 => "F1",
        Code::F2 => "F2",
        Code::F3 => "F3",
        Code::F4 => "F4",
        Code::F5 => "F5",
        Code::F6 => "F6",
        Code::F7 => "F7",
        Code::F8 => "F8",
        Code::F9 => "F9",
        Code::F10 => "F10",
        Code::F11 => "F11",
        Code::F12 => "F12",
        Code::F13 => "F13",
        Code::P1 => "P1",
        Code::P2 => "P2",
        Code::P3 => "P3",
    }
}

/// The names that a restriction has.
fn push_restricted_place(out: &mut Vec<u8>, place: &Place) -> Result<(), AllocError>
    ensures { OnOk result (out.new.items ≡ out.old.items ++ more_words (place_words place.now)) }
{
    match place {
        Place::View => {}
        Place::Table(table) => push_name(out, table)?,
        Place::Column(table, column) => push_names(out, table, column)?,
    }
    Ok(())
}

impl Printed for Restricted {
    ghost text = { restricted_text };

    fn push_text(&self, out: &mut Vec<u8>) -> Result<(), AllocError> {
        out.extend_from_slice(code_text(self.code).as_bytes())?;
        push_restricted_place(out, &self.place)?;
        Ok(())
    }
}

/// The name of what there may be too many of.
fn counted_text(kind: Counted) -> &'static str
    ensures { result.now ≡ counted_text kind }
{
    match kind {
        Counted::Tables => "TABLES",
        Counted::Views => "VIEWS",
        Counted::Dimensions => "DIMENSIONS",
        Counted::Columns => "COLUMNS",
        Counted::Partitions => "PARTITIONS",
    }
}

/// The code of a refusal.
pub fn refusal_code(refusal: &Refusal) -> &'static str
    ensures { result.now ≡ first_word (refusal_words refusal.now) }
{
    match refusal {
        Refusal::NameTaken(_) => "MV-01",
        Refusal::NoSuchObject(_) => "MV-02",
        Refusal::NoSuchColumn(_) => "MV-03",
        Refusal::ValueDoesNotFit(_, _) => "MV-04",
        Refusal::NullNotAllowed(_, _) => "MV-05",
        Refusal::DuplicateKey(_, _) => "MV-06",
        Refusal::ParentMissing(_, _) => "MV-07",
        Refusal::ChildExists(_, _) => "MV-08",
        Refusal::NoPartition(_) => "MV-09",
        Refusal::RowMovement(_) => "MV-10",
        Refusal::PartitionBound(_, _) => "MV-11",
        Refusal::LastPartition(_) => "MV-12",
        Refusal::KeysReferenced(_, _) => "MV-13",
        Refusal::TableFull(_) => "MV-14",
        Refusal::VersionsFull(_) => "MV-15",
        Refusal::TooManyObjects(_) => "MV-16",
        Refusal::NotStar => "MV-17",
        Refusal::NotGrouped => "MV-18",
        Refusal::SelectInBlock => "MV-19",
        Refusal::NoLog(_) => "MV-20",
        Refusal::LogExists(_) => "MV-21",
        Refusal::FastRefused(_) => "MV-22",
        Refusal::PartitionRefused(_) => "MV-23",
        Refusal::Overtaken(_, _, _) => "MV-24",
        Refusal::SnapshotTooOld(_, _) => "MV-25",
        Refusal::FutureScn(_, _) => "MV-26",
        Refusal::NotAKey(_, _) => "MV-27",
        Refusal::StillUsed(_) => "MV-28",
        Refusal::OnlyReading => "MV-29",
        Refusal::BeneathUnbuilt(_) => "MV-30",
        Refusal::NotNested(_) => "MV-31",
    }
}

/// A name as the one detail of a refusal.
fn push_name(out: &mut Vec<u8>, name: &Txt) -> Result<(), AllocError>
    ensures { OnOk result (out.new.items ≡ out.old.items ++ spaced name.now) }
{
    push_word(out, name.as_slice())
}

/// Two names as the details of a refusal.
fn push_names(out: &mut Vec<u8>, table: &Txt, column: &Txt) -> Result<(), AllocError>
    ensures { OnOk result (out.new.items
        ≡ out.old.items ++ (spaced table.now ++ spaced column.now)) }
{
    push_word(out, table.as_slice())?;
    push_word(out, column.as_slice())?;
    Ok(())
}

/// The details of a refusal.
pub fn push_details(out: &mut Vec<u8>, refusal: &Refusal) -> Result<(), AllocError>
    ensures { OnOk result (out.new.items
        ≡ out.old.items ++ more_words (drop 1 (refusal_words refusal.now))) }
{
    match refusal {
        Refusal::NameTaken(name)
        | Refusal::NoSuchObject(name)
        | Refusal::NoSuchColumn(name)
        | Refusal::NoPartition(name)
        | Refusal::RowMovement(name)
        | Refusal::LastPartition(name)
        | Refusal::TableFull(name)
        | Refusal::VersionsFull(name)
        | Refusal::NoLog(name)
        | Refusal::LogExists(name)
        | Refusal::StillUsed(name)
        | Refusal::BeneathUnbuilt(name)
        | Refusal::NotNested(name) => push_name(out, name)?,
        Refusal::ValueDoesNotFit(table, column)
        | Refusal::NullNotAllowed(table, column)
        | Refusal::DuplicateKey(table, column)
        | Refusal::ParentMissing(table, column)
        | Refusal::ChildExists(table, column)
        | Refusal::PartitionBound(table, column)
        | Refusal::KeysReferenced(table, column)
        | Refusal::NotAKey(table, column) => push_names(out, table, column)?,
        Refusal::TooManyObjects(kind) => push_word(out, counted_text(*kind).as_bytes())?,
        Refusal::FastRefused(restriction) | Refusal::PartitionRefused(restriction) => {
            push_printed(out, restriction)?
        }
        Refusal::Overtaken(view, begun, now) => push_overtaken(out, view, *begun, *now)?,
        Refusal::SnapshotTooOld(asked, scn) | Refusal::FutureScn(asked, scn) => {
            push_scns(out, *asked, *scn)?
        }
        Refusal::NotStar | Refusal::NotGrouped | Refusal::SelectInBlock | Refusal::OnlyReading => {}
    }
    Ok(())
}

/// The view, and its points at begin and now.
fn push_overtaken(
    out: &mut Vec<u8>,
    view: &Txt,
    begun: Option<u64>,
    now: Option<u64>,
) -> Result<(), AllocError>
    ensures { OnOk result (out.new.items
        ≡ out.old.items ++ (spaced view.now ++ spaced (point_text begun) ++ spaced (point_text now))) }
{
    push_word(out, view.as_slice())?;
    push_point(out, begun)?;
    push_point(out, now)?;
    Ok(())
}

/// The SCN that was asked for, and the one that it is held against.
fn push_scns(out: &mut Vec<u8>, asked: i128, scn: u64) -> Result<(), AllocError>
    ensures { OnOk result (out.new.items
        ≡ out.old.items ++ (spaced (int_text asked) ++ spaced (decimal scn))) }
{
    push_number_word(out, asked)?;
    push_number_word(out, scn)?;
    Ok(())
}

/// The number of the refused statement in its block.
pub fn push_place(out: &mut Vec<u8>, at: Option<u32>) -> Result<(), AllocError>
    ensures { OnOk result (out.new.items ≡ out.old.items ++ more_words (statement_words at)) }
{
    match at {
        Some(number) => push_count(out, b"AT", number),
        None => Ok(()),
    }
}
