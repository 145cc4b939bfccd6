ghost use Rattle.std.specs.Prelude.{◌≡◌, ◌++◌, ◌∷◌, List, OnOk, [], decimal, length, map, ℕ, ◌<◌, slice_get, Some, zip};
ghost use Rattle.wh_base.specs.Lists.{option_case};
ghost use Rattle.wh_base.specs.Values.{value_text};
ghost use Rattle.def_transcript.specs.Texts.{bound_text, broken_text, explain_line, explain_names, interval_text, lines_after, lines_text, list_line_text, log_row_text, number_field, op_text, reason_text, refreshed_text, side_text, verdict_text, view_line_text};

use crate::fields::{Printed, Versioned, push_lines, push_lines_in, push_value, push_values};
use crate::plans::{method_text, requirement_text, serving_text};
use crate::words::{push_number, push_printed};
use itoa::Integer;
use std::alloc::AllocError;
use wh_base::logs::{LogOp, LogRow, LogSide};
use wh_base::replies::{Broken, ListLine, Reason, Refreshed, Reply, ViewLine};
use wh_base::values::{Interval, Value, Version};
use wh_base::views::Verdict;

/// What a commit did with a view.
impl Printed for Refreshed {
    ghost text = { refreshed_text };

    fn push_text(&self, out: &mut Vec<u8>) -> Result<(), AllocError> {
        match self {
            Refreshed::By(method) => {
                out.extend_from_slice(method_text(*method).as_bytes())?;
                Ok(())
            }
            Refreshed::Suspended(restriction) => {
                out.extend_from_slice(b"SUSPENDED")?;
                push_printed(out, restriction)?;
                Ok(())
            }
        }
    }
}

impl Printed for ViewLine {
    ghost text = { view_line_text };

    fn push_text(&self, out: &mut Vec<u8>) -> Result<(), AllocError> {
        out.extend_from_slice(self.view.as_slice())?;
        out.push(b'|')?;
        self.done.push_text(out)?;
        Ok(())
    }
}

/// A bound, and nothing where there is none.
fn push_bound(out: &mut Vec<u8>, version: Version, bound: &Option<Value>) -> Result<(), AllocError>
    ensures { OnOk result (out.new.items ≡ out.old.items ++ bound_text version bound.now) }
{
    match bound {
        Some(value) => {
            push_value(out, version, value)?;
            Ok(())
        }
        None => Ok(()),
    }
}

impl Versioned for Interval {
    ghost text = { interval_text };

    fn push_text_in(&self, out: &mut Vec<u8>, version: Version) -> Result<(), AllocError> {
        push_bound(out, version, &self.lo)?;
        out.push(b'|')?;
        push_bound(out, version, &self.hi)?;
        Ok(())
    }
}

/// The letter of what a log row tells of.
fn op_text(op: LogOp) -> &'static str
    ensures { result.now ≡ op_text op }
{
    match op {
        LogOp::I => "I",
        LogOp::U => "U",
        LogOp::D => "D",
    }
}

/// The letter of the side that a log row keeps.
fn side_text(side: LogSide) -> &'static str
    ensures { result.now ≡ side_text side }
{
    match side {
        LogSide::O => "O",
        LogSide::N => "N",
    }
}

/// A field behind a bar.
fn push_field(out: &mut Vec<u8>, field: &str) -> Result<(), AllocError>
    ensures { OnOk result (out.new.items ≡ out.old.items ++ 124 ∷ field.now) }
{
    out.push(b'|')?;
    out.extend_from_slice(field.as_bytes())?;
    Ok(())
}

/// A number as a field behind a bar, empty where there is none.
fn push_number_field<N: Integer>(out: &mut Vec<u8>, number: Option<N>) -> Result<(), AllocError>
    ensures { OnOk result (out.new.items ≡ out.old.items ++ 124 ∷ option_case number [] N.text) }
{
    out.push(b'|')?;
    match number {
        Some(number) => {
            push_number(out, number)?;
            Ok(())
        }
        None => Ok(()),
    }
}

/// The SCN of a log row, its number and its rowid.
fn push_log_numbers(out: &mut Vec<u8>, row: &LogRow) -> Result<(), AllocError>
    ensures { OnOk result (out.new.items
        ≡ out.old.items ++ (decimal row.now.scn ++ (124 ∷ number_field row.now.seq) ++ (124 ∷ number_field row.now.rowid))) }
{
    push_number(out, row.scn)?;
    push_number_field(out, row.seq)?;
    push_number_field(out, row.rowid)?;
    Ok(())
}

impl Versioned for LogRow {
    ghost text = { log_row_text };

    fn push_text_in(&self, out: &mut Vec<u8>, version: Version) -> Result<(), AllocError> {
        push_log_numbers(out, self)?;
        push_field(out, op_text(self.op))?;
        push_field(out, side_text(self.side))?;
        push_values(out, version, self.values.as_slice())?;
        Ok(())
    }
}

/// What the refresh of a list did with one of its views.
impl Printed for ListLine {
    ghost text = { list_line_text };

    fn push_text(&self, out: &mut Vec<u8>) -> Result<(), AllocError> {
        out.extend_from_slice(self.view.as_slice())?;
        push_field(out, method_text(self.method))?;
        out.push(b'|')?;
        push_number(out, self.holds)?;
        Ok(())
    }
}

impl Printed for Reason {
    ghost text = { reason_text };

    fn push_text(&self, out: &mut Vec<u8>) -> Result<(), AllocError> {
        match self {
            Reason::Refresh(restriction) => {
                restriction.push_text(out)?;
                Ok(())
            }
            Reason::Rewrite(requirement) => {
                out.extend_from_slice(requirement_text(*requirement).as_bytes())?;
                Ok(())
            }
            Reason::Nested => {
                out.extend_from_slice(b"MV-31")?;
                Ok(())
            }
        }
    }
}

impl Printed for Verdict {
    ghost text = { verdict_text };

    fn push_text(&self, out: &mut Vec<u8>) -> Result<(), AllocError> {
        out.extend_from_slice(self.view.as_slice())?;
        push_field(out, serving_text(self.serving))?;
        Ok(())
    }
}

impl Printed for Broken {
    ghost text = { broken_text };

    fn push_text(&self, out: &mut Vec<u8>) -> Result<(), AllocError> {
        push_number(out, self.relation)?;
        out.push(b'|')?;
        push_number(out, self.rowid)?;
        Ok(())
    }
}

/// How many lines EXPLAIN MVIEW has.
const EXPLAIN_LINES: usize = 9;

/// The name of a line of EXPLAIN MVIEW.
fn explain_name(at: usize) -> &'static str
    requires { at < EXPLAIN_LINES }
    ensures { slice_get explain_names at ≡ Some result.now }
{
    match at {
        0 => "REFRESH_COMPLETE",
        1 => "REFRESH_FAST_AFTER_INSERT",
        2 => "REFRESH_FAST_AFTER_ONETAB_DML",
        3 => "REFRESH_FAST_AFTER_ANY_DML",
        4 => "REFRESH_FAST_PCT",
        5 => "REWRITE_FULL_TEXT_MATCH",
        6 => "REWRITE_PARTIAL_TEXT_MATCH",
        7 => "REWRITE_GENERAL",
        _ => "REWRITE_PCT",
    }
}

/// A name of EXPLAIN MVIEW and its answer.
fn push_explain_line(
    out: &mut Vec<u8>,
    name: &str,
    reason: &Option<Reason>,
) -> Result<(), AllocError>
    ensures { OnOk result (out.new.items ≡ out.old.items ++ explain_line (name.now, reason.now)) }
{
    out.extend_from_slice(name.as_bytes())?;
    match reason {
        None => {
            out.extend_from_slice(b"|Y|")?;
            Ok(())
        }
        Some(reason) => {
            out.extend_from_slice(b"|N|")?;
            reason.push_text(out)?;
            Ok(())
        }
    }
}

/// The lines of EXPLAIN MVIEW.
fn push_explain_lines(out: &mut Vec<u8>, reasons: &[Option<Reason>]) -> Result<(), AllocError>
    ensures { OnOk result (out.new.items
        ≡ out.old.items ++ lines_text (map explain_line (zip explain_names reasons.now))) }
{
    for at in 0..reasons.len().min(EXPLAIN_LINES) {
        push_explain_line(out, explain_name(at), &reasons[at])?;
        out.push(b'\n')?;
    }
    Ok(())
}

/// The lines after the header.
pub fn push_lines_after(
    out: &mut Vec<u8>,
    version: Version,
    reply: &Reply,
) -> Result<(), AllocError>
    ensures { OnOk result (out.new.items
        ≡ out.old.items ++ lines_text (lines_after version reply.now)) }
{
    match reply {
        Reply::Commit(committed) => push_lines(out, committed.views.as_slice())?,
        Reply::Answer(answered) => push_lines_in(out, version, answered.rows.as_slice())?,
        Reply::View(shown) => {
            push_lines_in(out, version, shown.intervals.as_slice())?;
            push_lines_in(out, version, shown.rows.as_slice())?;
        }
        Reply::Log(shown) => push_lines_in(out, version, shown.rows.as_slice())?,
        Reply::Explain(explained) => push_explain_lines(out, explained.lines.as_slice())?,
        Reply::Rewrite(explained) => push_lines(out, explained.verdicts.as_slice())?,
        Reply::Validate(validated) => push_lines(out, validated.broken.as_slice())?,
        Reply::RefreshList(done) => push_lines(out, done.views.as_slice())?,
        Reply::Catalog(_)
        | Reply::Purge(_)
        | Reply::Refresh(_)
        | Reply::Refuse(_)
        | Reply::Submit => {}
    }
    Ok(())
}
