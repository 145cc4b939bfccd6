ghost use Rattle.std.specs.Prelude.{◌≡◌, ◌++◌, List, ℕ, OnOk, map, flat_map};
ghost use Rattle.wh_base.specs.Values.{value_text, versioned_day, escaped_byte, parted_by};
ghost use Rattle.wh_base.specs.declared.values.Version.{Version};
ghost use Rattle.def_transcript.specs.Texts.{row_text, lines_text};
ghost use Rattle.wh_render.specs.Pieces.{behind, more_parts};

use crate::words::push_number;
use std::alloc::AllocError;
use wh_base::day::Day;
use wh_base::seq::Seq;
use wh_base::txt::Txt;
use wh_base::values::{Value, Version};
use wh_date::day_bytes;

/// What prints as a text, which is the same in each version of transcripts.
pub trait Printed {
    ghost text: { Self → List ℕ };

    /// The text at the end of `out`. An error says that memory ran out.
    fn push_text(&self, out: &mut Vec<u8>) -> Result<(), AllocError>
        ensures { OnOk result (out.new.items ≡ out.old.items ++ text self.now) };
}

/// What prints as a text in each version of transcripts: what may have a day in it.
pub trait Versioned {
    ghost text: { Version → Self → List ℕ };

    /// The text in this version at the end of `out`. An error says that memory ran out.
    fn push_text_in(&self, out: &mut Vec<u8>, version: Version) -> Result<(), AllocError>
        ensures { OnOk result (out.new.items ≡ out.old.items ++ text version self.now) };
}

/// The texts of the items, each behind the mark.
pub fn push_more<T: Printed>(out: &mut Vec<u8>, mark: u8, items: &[T]) -> Result<(), AllocError>
    ensures { OnOk result (out.new.items
        ≡ out.old.items ++ more_parts mark (map T.text items.now)) }
{
    for item in items {
        out.push(mark)?;
        item.push_text(out)?;
    }
    Ok(())
}

/// The texts of the items, with the mark between each two.
#[tactic(auto, using(crate::proofs::Parted::parted))]
pub fn push_parted<T: Printed>(out: &mut Vec<u8>, mark: u8, items: &[T]) -> Result<(), AllocError>
    ensures { OnOk result (out.new.items ≡ out.old.items ++ parted_by mark (map T.text items.now)) }
{
    let Some((first, rest)) = items.split_first() else {
        return Ok(());
    };
    first.push_text(out)?;
    push_more(out, mark, rest)?;
    Ok(())
}

/// The text of each item as a line.
pub fn push_lines<T: Printed>(out: &mut Vec<u8>, items: &[T]) -> Result<(), AllocError>
    ensures { OnOk result (out.new.items ≡ out.old.items ++ lines_text (map T.text items.now)) }
{
    for item in items {
        item.push_text(out)?;
        out.push(b'\n')?;
    }
    Ok(())
}

/// The text of each item in this version as a line.
pub fn push_lines_in<T: Versioned>(
    out: &mut Vec<u8>,
    version: Version,
    items: &[T],
) -> Result<(), AllocError>
    ensures { OnOk result (out.new.items
        ≡ out.old.items ++ lines_text (map (T.text version) items.now)) }
{
    for item in items {
        item.push_text_in(out, version)?;
        out.push(b'\n')?;
    }
    Ok(())
}

impl Printed for Txt {
    ghost text = { λ t. t };

    fn push_text(&self, out: &mut Vec<u8>) -> Result<(), AllocError> {
        out.extend_from_slice(self.as_slice())
    }
}

impl Printed for Seq<Txt> {
    ghost text = { λ names. parted_by 44 names };

    fn push_text(&self, out: &mut Vec<u8>) -> Result<(), AllocError> {
        push_parted(out, b',', self.as_slice())
    }
}

/// A text with a backslash before each backslash and each bar.
fn push_escaped(out: &mut Vec<u8>, text: &[u8]) -> Result<(), AllocError>
    ensures { OnOk result (out.new.items ≡ out.old.items ++ flat_map escaped_byte text.now) }
{
    for byte in text {
        if *byte == b'\\' || *byte == b'|' {
            out.push(b'\\')?;
        }
        out.push(*byte)?;
    }
    Ok(())
}

/// A day: YYYY-MM-DD, and its number in the first version.
fn push_day(out: &mut Vec<u8>, version: Version, day: Day) -> Result<(), AllocError>
    ensures { OnOk result (out.new.items ≡ out.old.items ++ versioned_day version day) }
{
    match version {
        Version::One => push_number(out, day.number()),
        Version::Two => out.extend_from_slice(&day_bytes(day)),
    }
}

/// A value as it prints in this version.
pub fn push_value(out: &mut Vec<u8>, version: Version, value: &Value) -> Result<(), AllocError>
    ensures { OnOk result (out.new.items ≡ out.old.items ++ value_text version value.now) }
{
    match value {
        Value::Null => Ok(()),
        Value::Num(number) => push_number(out, *number),
        Value::Text(text) => push_escaped(out, text.as_slice()),
        Value::Ratio(pair) => {
            push_number(out, pair.sum())?;
            out.push(b'/')?;
            push_number(out, pair.count())
        }
        Value::Day(day) => push_day(out, version, *day),
    }
}

/// The values, each behind a bar.
pub fn push_values(out: &mut Vec<u8>, version: Version, values: &[Value]) -> Result<(), AllocError>
    ensures { OnOk result (out.new.items
        ≡ out.old.items ++ more_parts 124 (map (value_text version) values.now)) }
{
    for value in values {
        out.push(b'|')?;
        push_value(out, version, value)?;
    }
    Ok(())
}

/// The values with a bar between each two.
#[tactic(auto, using(crate::proofs::Parted::parted))]
fn push_row(out: &mut Vec<u8>, version: Version, values: &[Value]) -> Result<(), AllocError>
    ensures { OnOk result (out.new.items ≡ out.old.items ++ row_text version values.now) }
{
    let Some((first, rest)) = values.split_first() else {
        return Ok(());
    };
    push_value(out, version, first)?;
    push_values(out, version, rest)?;
    Ok(())
}

impl Versioned for Seq<Value> {
    ghost text = { row_text };

    fn push_text_in(&self, out: &mut Vec<u8>, version: Version) -> Result<(), AllocError> {
        push_row(out, version, self.as_slice())
    }
}
