ghost use Rattle.std.specs.Prelude.{◌≡◌, ◌≤◌, ◌^◌, length, All, IfOk};

use crate::top::{Status, top_order};
use std::alloc::{AllocError, Global};
use std::test::Fail;
use wh_base::reads::Reads;
use wh_base::seq::Seq;
use wh_base::txt::Txt;
use wh_io::{MemorySink, MemorySource};

#[derive(Drop)]
struct Mark;

const COUNTERS: usize = 65;

fn counters(alloc: Global) -> Result<Vec<Reads<Mark>>, AllocError>
    ensures counters { IfOk result (λ reads. length reads.items ≡ 65) }
    ensures low { IfOk result (λ reads. All (λ n. n ≤ 2 ^ 62) reads.items) }
{
    let mut reads = Vec::new(alloc);
    for place in 0..COUNTERS {
        let _ = place;
        reads.push(Reads::new(Mark))?;
    }
    Ok(reads)
}

fn texts(alloc: Global, words: &[&str]) -> Result<Seq<Txt>, AllocError> {
    let mut texts = Seq::new(alloc);
    for word in words {
        texts.push(Txt::from_slice(alloc, word.as_bytes())?)?;
    }
    Ok(texts)
}

const TOTALS: &str =
    "@setup\nCREATE TABLE T (G VARCHAR2(4), A NUMBER);\nINSERT INTO T VALUES ('P',10),('P',5),('Q',NULL);\nSELECT G, SUM(A), COUNT(*) FROM T GROUP BY G;\n@end\n";

const TOTALS_WRITTEN: &str =
    "mviewdb 2\n0.1 DONE SCN 1 READ 0\n0.2 COMMITTED SCN 2 ROWS 3 READ 0 VIEWS 0\n0.3 ANSWER SCN 2 PLAN BASE READ 3 ROWS 2\nP|15|2\nQ||1\njournal 0.1.1 0.2.1 0.3.1\n";

const DAYS: &str =
    "@setup\nCREATE TABLE H (D DATE NOT NULL, A NUMBER);\nINSERT INTO H VALUES (DATE '2024-02-28', 1);\nUPDATE H SET D = D + 2;\nSELECT D, SUM(A) FROM H GROUP BY D;\n@end\n";

const DAYS_WRITTEN: &str =
    "mviewdb 2\n0.1 DONE SCN 1 READ 0\n0.2 COMMITTED SCN 2 ROWS 1 READ 0 VIEWS 0\n0.3 COMMITTED SCN 3 ROWS 1 READ 1 VIEWS 0\n0.4 ANSWER SCN 3 PLAN BASE READ 1 ROWS 1\n2024-03-01|1\njournal 0.1.1 0.2.1 0.3.1 0.4.1\n";

const DAYS_WRITTEN_FIRST: &str =
    "0.1 DONE SCN 1 READ 0\n0.2 COMMITTED SCN 2 ROWS 1 READ 0 VIEWS 0\n0.3 COMMITTED SCN 3 ROWS 1 READ 1 VIEWS 0\n0.4 ANSWER SCN 3 PLAN BASE READ 1 ROWS 1\n19783|1\njournal 0.1.1 0.2.1 0.3.1 0.4.1\n";

// One run over a source that gives 7 bytes at a time and a sink that takes 4, with the numbers of the read and of the
// write that fail, 0 for none: how it ends, what is written, and how many rows the setup has read.
struct Case {
    words: &'static [&'static str],
    script: &'static str,
    read_fails: u64,
    write_fails: u64,
    status: Status,
    written: &'static str,
    rows: u64,
}

fn holds(alloc: Global, case: &Case) -> Result<bool, AllocError> {
    let mut reads = counters(alloc)?;
    let bytes = Vec::from_slice(alloc, case.script.as_bytes())?;
    let mut source = MemorySource::new(bytes, 7, Vec::from_array(alloc, [case.read_fails])?);
    let mut sink = MemorySink::new(alloc, 4, Vec::from_array(alloc, [case.write_fails])?);
    let words = texts(alloc, case.words)?;
    let status = top_order(alloc, &words, &mut source, &mut sink, reads.as_mut_slice());
    Ok(
        status == case.status
            && sink.bytes() == case.written.as_bytes()
            && reads[0].count() == case.rows
            && reads[1].count() == 0,
    )
}

const CASES: &[Case] = &[
    Case {
        words: &["order"],
        script: "@end\n",
        read_fails: 0,
        write_fails: 0,
        status: Status::Done,
        written: "mviewdb 2\njournal\n",
        rows: 0,
    },
    Case {
        words: &["order", "1"],
        script: "@end\n",
        read_fails: 0,
        write_fails: 0,
        status: Status::Done,
        written: "journal\n",
        rows: 0,
    },
    Case {
        words: &["order", "2"],
        script: "@end\n",
        read_fails: 0,
        write_fails: 0,
        status: Status::BadWords,
        written: "",
        rows: 0,
    },
    Case {
        words: &["order"],
        script: "@end\n",
        read_fails: 0,
        write_fails: 2,
        status: Status::WriteFault,
        written: "mvie",
        rows: 0,
    },
    Case {
        words: &["order"],
        script: "@end\n",
        read_fails: 1,
        write_fails: 0,
        status: Status::ReadFault,
        written: "",
        rows: 0,
    },
    Case {
        words: &["order"],
        script: TOTALS,
        read_fails: 3,
        write_fails: 0,
        status: Status::ReadFault,
        written: "",
        rows: 0,
    },
    Case {
        words: &["order"],
        script: TOTALS,
        read_fails: 0,
        write_fails: 0,
        status: Status::Done,
        written: TOTALS_WRITTEN,
        rows: 3,
    },
    Case {
        words: &["order"],
        script: DAYS,
        read_fails: 0,
        write_fails: 0,
        status: Status::Done,
        written: DAYS_WRITTEN,
        rows: 2,
    },
    Case {
        words: &["order", "1"],
        script: DAYS,
        read_fails: 0,
        write_fails: 0,
        status: Status::Done,
        written: DAYS_WRITTEN_FIRST,
        rows: 2,
    },
];

/// Sources and sinks that give and take a few bytes at a time, and fail or don't.
#[test]
fn failing_sources_and_sinks(rt: HostRuntime) -> Result<(), Fail> {
    let alloc = rt.alloc();
    for case in CASES {
        let is_so = holds(alloc, case)?;
        assert!(rt; is_so, "{}", case.script);
    }
    Ok(())
}
