ghost use Rattle.std.specs.Prelude.{◌≡◌, length, IfOk};

use crate::MvLog;
use std::alloc::{AllocError, Global};
use std::test::Fail;
use wh_base::logs::{LogFacts, LogRow};
use wh_base::seq::Seq;
use wh_base::tables::Change;
use wh_base::values::Value;

/// A row of three columns.
fn row(alloc: Global, first: i128, last: i128) -> Result<Seq<Value>, AllocError>
    ensures { IfOk result (λ r. length r ≡ 3) }
{
    let mut values = Seq::new(alloc);
    values.push(Value::Num(first))?;
    values.push(Value::Null)?;
    values.push(Value::Num(last))?;
    Ok(values)
}

/// The rows as text, each ended by a semicolon.
fn shown(alloc: Global, rows: &[LogRow]) -> Result<String, AllocError> {
    let mut text = String::new(alloc);
    for row in rows {
        let line = format!(in alloc;
            "{} {:?} {:?} {:?}{:?} {:?};",
            row.scn,
            row.seq,
            row.rowid,
            row.op,
            row.side,
            row.values.as_slice()
        )?;
        text.push_str(line.as_str())?;
    }
    Ok(text)
}

/// An insert, a purge and a delete in a log of two columns, the last one first.
#[test]
#[tactic(auto, using(crate::proofs::Noted::noted))]
fn goes_on_over_a_purge(rt: HostRuntime) -> Result<(), Fail> {
    let alloc = rt.alloc();
    let columns = Seq::from_vec(Vec::from_slice(alloc, [2, 0].as_slice())?)?;
    let mut log = MvLog::new(
        alloc,
        LogFacts {
            rowid: true,
            sequence: true,
            new_values: true,
            columns,
            from: 2,
        },
    );
    log.reserve(2)?;
    let inserted = Change {
        rowid: 7,
        old: None,
        new: Some(row(alloc, 1, 10)?),
    };
    log.note(inserted, 3);
    assert_eq!(rt;
        shown(alloc, log.rows())?.as_str(),
        "3 Some(1) Some(7) IN [Num(10), Num(1)];"
    );
    assert_eq!(rt; log.purge(3), 1);
    assert_eq!(rt; (log.born(), log.facts().from), (2, 3));
    let deleted = Change {
        rowid: 7,
        old: Some(row(alloc, 1, 10)?),
        new: None,
    };
    log.note(deleted, 6);
    assert_eq!(rt;
        shown(alloc, log.rows())?.as_str(),
        "6 Some(2) Some(7) DO [Num(10), Num(1)];"
    );
    Ok(())
}

/// An update in a log that keeps all.
#[test]
#[tactic(auto, using(crate::proofs::Noted::noted))]
fn keeps_both_sides(rt: HostRuntime) -> Result<(), Fail> {
    let alloc = rt.alloc();
    let columns = Seq::from_vec(Vec::from_slice(alloc, [0, 2].as_slice())?)?;
    let mut log = MvLog::new(
        alloc,
        LogFacts {
            rowid: true,
            sequence: true,
            new_values: true,
            columns,
            from: 0,
        },
    );
    log.reserve(2)?;
    let updated = Change {
        rowid: 7,
        old: Some(row(alloc, 1, 10)?),
        new: Some(row(alloc, 2, 20)?),
    };
    log.note(updated, 4);
    let both = "4 Some(1) Some(7) UO [Num(1), Num(10)];4 Some(2) Some(7) UN [Num(2), Num(20)];";
    assert_eq!(rt; shown(alloc, log.suffix(3, 4))?.as_str(), both);
    assert_eq!(rt; log.suffix(4, 9).len(), 0, "above 4");
    assert_eq!(rt; log.suffix(0, 3).len(), 0, "up to 3");
    Ok(())
}
