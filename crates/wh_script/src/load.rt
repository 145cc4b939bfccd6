ghost use Rattle.csv.specs.Records.{fields_of};
ghost use Rattle.def_grammar.specs.Script.{is_uneven, records};
ghost use Rattle.std.specs.List.{list_any};
ghost use Rattle.std.specs.Prelude.{◌≡◌, ◌<◌, ◌^◌, ◌==◌, [], IfOk, get_or, length, not};

use csv::{ByteRecord, ReaderBuilder};
use std::alloc::{AllocError, Global};
use wh_base::seq::Seq;
use wh_base::txt::Txt;

/// The records of a LOAD block, given as its bytes: each a list of its fields, as `csv` reads them with its default
/// settings and no header row, of whatever lengths.
///
/// An error says that memory ran out.
pub fn records(alloc: Global, block: &[u8]) -> Result<Seq<Seq<Txt>>, AllocError>
    requires { length block.now < 2 ^ 32 }
    ensures { IfOk result (λ rows. rows ≡ records block.now) }
{
    let mut reader = ReaderBuilder::new()
        .has_headers(false)
        .flexible(true)
        .from_reader(alloc, block);
    let mut line = ByteRecord::new(alloc);
    let mut rows = Seq::new(alloc);
    for turn in 0..block.len() + 1 {
        let _ = turn;
        match reader.read_byte_record(&mut line) {
            Ok(true) => rows.push(row_of(alloc, &line)?)?,
            Ok(false) => return Ok(rows),
            Err(_) => return Err(AllocError),
        }
    }
    Ok(rows)
}

// The fields of a record.
fn row_of(alloc: Global, line: &ByteRecord) -> Result<Seq<Txt>, AllocError>
    ensures { IfOk result (λ row. row ≡ fields_of line.now) }
{
    let mut row = Seq::new(alloc);
    for at in 0..line.len() {
        row.push(Txt::from_slice(alloc, field_of(line, at))?)?;
    }
    Ok(row)
}

#[tactic(auto, using(crate::proofs::Records::fields))]
fn field_of(line: &ByteRecord, at: usize) -> &[u8]
    requires { at < length (fields_of line.now) }
    ensures { result.now ≡ get_or (fields_of line.now) at [] }
{
    match line.get(at) {
        Some(field) => field,
        None => unreachable!(),
    }
}

/// Whether a record has another number of fields than the first.
pub fn is_uneven(rows: &[Seq<Txt>]) -> bool
    ensures { result ≡ is_uneven rows.now }
{
    let Some((first, rest)) = rows.split_first() else {
        return false;
    };
    has_other_length(first.len(), rest)
}

fn has_other_length(len: usize, rows: &[Seq<Txt>]) -> bool
    ensures { result ≡ list_any (λ s. not (length s == len)) rows.now }
{
    for row in rows {
        if row.len() != len {
            return true;
        }
    }
    false
}
