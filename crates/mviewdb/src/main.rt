//! The program: with the word `order` a script from standard input, its transcript to standard output, in the second version,
//! and with `order 1` in the first; with `gen` and a number from 1 to 100000 the summary of the generated script with so many
//! sales, to standard output.
//!
//! All that it does is `top_order` of the crate `wh_top`; here are only the real words, counters, input and output that
//! it is given, and the exit status and the line on standard error that say how it ended.
#![tactic(auto)]

ghost use Rattle.std.specs.Prelude.{◌≡◌, ◌≤◌, ◌^◌, length, All, IfOk};

use std::alloc::{AllocError, Global};
use std::env;
use std::io::ErrorKind;
use std::process::ExitCode;
use std::rt::Env;
use wh_base::reads::Reads;
use wh_base::seq::Seq;
use wh_base::txt::Txt;
use wh_io::{StdSink, StdSource};
use wh_top::{Status, top_order};

/// What marks the counters that this program makes. No other code can make one.
#[derive(Drop)]
struct Mark;

/// How many counters there are: one for the setup and one for each of 64 sessions.
const COUNTERS: usize = 65;

/// The counters, all at 0. An error says that memory ran out.
fn counters(alloc: Global) -> Result<Vec<Reads<Mark>>, AllocError>
    ensures counters { IfOk result (λ reads. length reads.items ≡ 65) }
    ensures low { IfOk result (λ reads. All (λ n. n ≤ 2 ^ 62) reads.items) }
{
    let mut reads = Vec::new(alloc);
    for place in 0..COUNTERS {
        let _ = place;
        reads.push(Reads::new(Mark))?;
    }
    Ok(reads)
}

/// The words behind the program's name; none where one isn't UTF-8. An error says that memory ran out.
fn words<R: Env + AllocGlobal>(rt: &R) -> Result<Option<Seq<Txt>>, AllocError> {
    let args = match env::args(rt) {
        Ok(args) => args,
        Err(error) if error.kind() == ErrorKind::OutOfMemory => return Err(AllocError),
        Err(_) => return Ok(None),
    };
    let mut words = Seq::new(rt.alloc());
    for word in args.skip(1) {
        words.push(Txt::from_slice(rt.alloc(), word.as_bytes())?)?;
    }
    Ok(Some(words))
}

/// The exit status.
fn number(status: Status) -> u8 {
    match status {
        Status::Done => 0,
        Status::NoMemory => 1,
        Status::BadWords => 2,
        Status::ReadFault => 3,
        Status::WriteFault => 4,
        Status::BadScript { .. } => 5,
        Status::TooLong => 6,
    }
}

/// Says on standard error how the run ended, where it didn't end well. That this fails can't be told to anybody.
fn tell(rt: &impl Eprint, status: Status) {
    let _ = match status {
        Status::Done => Ok(()),
        Status::NoMemory => rt.eprintln("mviewdb: no memory"),
        Status::BadWords => rt.eprintln("mviewdb: bad words"),
        Status::ReadFault => rt.eprintln("mviewdb: read fault"),
        Status::WriteFault => rt.eprintln("mviewdb: write fault"),
        Status::BadScript { line, kind } => {
            rt.eprintln(format_args!("mviewdb: line {line}: {kind:?}"))
        }
        Status::TooLong => rt.eprintln("mviewdb: too long"),
    };
}

fn run(rt: &HostRuntime) -> Result<Status, AllocError> {
    let mut reads = counters(rt.alloc())?;
    let Some(words) = words(rt)? else {
        return Ok(Status::BadWords);
    };
    let mut source = StdSource::new(rt.stdin());
    let mut sink = StdSink::new(rt.stdout());
    Ok(top_order(
        rt.alloc(),
        &words,
        &mut source,
        &mut sink,
        reads.as_mut_slice(),
    ))
}

fn main(rt: HostRuntime) -> ExitCode {
    let status = match run(&rt) {
        Ok(status) => status,
        Err(AllocError) => Status::NoMemory,
    };
    tell(&rt, status);
    ExitCode::from(number(status))
}
