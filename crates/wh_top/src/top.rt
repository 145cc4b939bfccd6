ghost use Rattle.std.specs.Prelude.{◌≡◌, ◌≤◌, ◌^◌, length, [], All, Err, IfSome, IsSome, IsSomeAnd, IsTrue, None, Some, false, ℕ};
ghost use Rattle.std.specs.Io.KnownBytes.{Appends, IsAtEnd};
ghost use Rattle.def_built.specs.Form.{built_script};
ghost use Rattle.def_output.specs.Output.{Generating, Ordering, is_too_long};
ghost use Rattle.def_output.specs.Program.{Counted, HasFault, IfInput, IsWithin, OnOutput, ReadsInput};
ghost use Rattle.wh_base.specs.declared.statements.ScriptKind.TheVariants.{NotBuilt};
ghost use Rattle.wh_base.specs.declared.values.Version.{Version};
ghost use Rattle.wh_io.specs.Causes.{Rose, AppendsPart};
ghost use Rattle.wh_top.specs.Endings.{IfBadScript, IsBegun, IsOfBytes, IsOfGen, IsOfSource, IsSilent, IsUnbegun, IsUnread, IsWritten};
ghost use Rattle.wh_top.specs.Top.{script_built};
ghost use Rattle.wh_words.specs.Words.{built_form};

use crate::input::{InputFault, read_input};
use crate::output::output;
use crate::summary::summary;
use std::alloc::{AllocError, Global};
use wh_base::reads::Reads;
use wh_base::seq::Seq;
use wh_base::statements::{BadScript, ScriptKind};
use wh_base::txt::Txt;
use wh_base::values::Version;
use wh_io::{Sink, Source, write_all};
use wh_words::{Words, form};

/// How a call ended.
#[derive(Clone, Copy, Debug, PartialEq, Eq)]
pub enum Status {
    /// All is written: the transcript, or the summary.
    Done,
    /// Memory ran out; or more than 2^63 rows were read, or one of the other bounds was met that no run reaches and that
    /// `Session::run_step` names.
    NoMemory,
    /// The words are none of `order`, `order 1`, and `gen` with a number from 1 to 100000.
    BadWords,
    /// The source failed.
    ReadFault,
    /// The sink failed; it has a part of what was to be written.
    WriteFault,
    /// The bytes are no script: their first fault, and its line, counted from 1.
    BadScript { line: u64, kind: ScriptKind },
    /// The source has more than 8,388,608 bytes.
    TooLong,
}

/// Does all that the program does so far, and always returns. Under `order` it reads a script from the source, at most
/// 8,388,608 bytes of it, runs it and writes its transcript to the sink, in the second version, and under `order 1` in the
/// first. Under `gen N` it makes the script with N sales, runs it and writes its summary; then it reads nothing. The words,
/// and the form of scripts, transcripts and summaries, are this project's own; what statements mean is as in the Data
/// Warehousing Guide.
///
/// `reads` has a counter for the setup and one for each of 64 sessions; each rises by the base rows that the replies to
/// its session say were read.
pub fn top_order<S: Source, K: Sink, L>(
    alloc: Global,
    words: &Seq<Txt>,
    source: &mut S,
    sink: &mut K,
    reads: &mut [Reads<L>],
) -> Status
    requires counters { length reads.old ≡ 65 }
    requires low { All (λ n. n ≤ 2 ^ 62) reads.old }

    // The sink holds what it held, and then the output of the form: under `order` the transcript of the script that the
    // source's bytes are, which is one of forms that are built, and under `gen` the summary, whatever the source is.
    ensures done { result ≡ Status.Done → IfSome (built_form words.now) (λ f. IfInput f (S.left source.old) (λ bytes.
        OnOutput f bytes (λ text. Appends (K.holds sink.old) (K.holds sink.new) text))) }
    ensures built { IsWritten result → (version : Version) → built_form words.now ≡ Some (Ordering version)
        → IfSome (S.left source.old) (λ bytes. IsSome (script_built bytes)) }
    ensures end { result ≡ Status.Done → (version : Version) → built_form words.now ≡ Some (Ordering version) → IsAtEnd (S.left source.new) }
    ensures no_source { (n : ℕ) → built_form words.now ≡ Some (Generating n) → source.new ≡ source.old }

    // Each answer but Done has its cause. Where the words are no form that runs, nothing is begun; that is told by
    // BadWords, unless memory runs out before it is known.
    ensures bad_words { result ≡ Status.BadWords → built_form words.now ≡ None }
    ensures unbegun { built_form words.now ≡ None → IsUnbegun result }
    ensures untouched { built_form words.now ≡ None → source.new ≡ source.old }
    ensures unraised { built_form words.now ≡ None → reads.new ≡ reads.old }
    ensures of_source { IsOfSource result → IsSomeAnd (built_form words.now) ReadsInput }
    ensures read_fault { result ≡ Status.ReadFault → Rose (S.faults source.old) (S.faults source.new) }
    ensures too_long { result ≡ Status.TooLong → IfSome (built_form words.now) (λ f. IfInput f (S.left source.old) (λ bytes. IsTrue (is_too_long f bytes))) }
    ensures within { IsOfBytes result → IfSome (built_form words.now) (λ f. IfInput f (S.left source.old) (λ bytes. IsWithin f bytes)) }
    ensures write_fault { result ≡ Status.WriteFault → Rose (K.faults sink.old) (K.faults sink.new) }
    ensures part { result ≡ Status.WriteFault → IfSome (built_form words.now) (λ f. IfInput f (S.left source.old) (λ bytes.
        OnOutput f bytes (λ text. AppendsPart (K.holds sink.old) (K.holds sink.new) text))) }

    // The fault of the bytes is that of the script as far as forms are built; another than a form that isn't built is the
    // fault that the form has.
    ensures bad_script { IfBadScript result (λ line kind. IfSome (S.left source.old) (λ bytes.
        built_script bytes false ≡ Err (record { line = line; kind = kind }))) }
    ensures fault { IfBadScript result (λ line kind. (kind ≡ NotBuilt → ⊥) → IfSome (built_form words.now) (λ f. IfInput f (S.left source.old) (λ bytes.
        HasFault f bytes (record { line = line; kind = kind })))) }

    // Nothing is written and no fault is passed over otherwise.
    ensures silent { IsSilent result → sink.new ≡ sink.old }

    // The counters rise by the rows that the replies say were read.
    ensures counted { IsWritten result → IfSome (built_form words.now) (λ f. IfInput f (S.left source.old) (λ bytes. Counted f bytes reads.old reads.new)) }
    ensures uncounted { IsUnread result → reads.new ≡ reads.old }
{
    match form(alloc, words.as_slice()) {
        Ok(Some(Words::Order(version))) => order(alloc, version, source, sink, reads),
        Ok(Some(Words::Generate(sales))) => generate(alloc, sales, sink, reads),
        Ok(None) => Status::BadWords,
        Err(AllocError) => Status::NoMemory,
    }
}

/// The form `order`: reads a script, runs it and writes its transcript in this version.
fn order<S: Source, K: Sink, L>(
    alloc: Global,
    version: Version,
    source: &mut S,
    sink: &mut K,
    reads: &mut [Reads<L>],
) -> Status
    requires counters { length reads.old ≡ 65 }
    ensures begun { IsBegun result }
    ensures done { result ≡ Status.Done → IfSome (S.left source.old) (λ bytes.
        OnOutput (Ordering version) bytes (λ text. Appends (K.holds sink.old) (K.holds sink.new) text)) }
    ensures built { IsWritten result → IfSome (S.left source.old) (λ bytes. IsSome (script_built bytes)) }
    ensures end { result ≡ Status.Done → IsAtEnd (S.left source.new) }
    ensures read_fault { result ≡ Status.ReadFault → Rose (S.faults source.old) (S.faults source.new) }
    ensures too_long { result ≡ Status.TooLong → IfSome (S.left source.old) (λ bytes. IsTrue (is_too_long (Ordering version) bytes)) }
    ensures within { IsOfBytes result → IfSome (S.left source.old) (λ bytes. IsWithin (Ordering version) bytes) }
    ensures bad_script { IfBadScript result (λ line kind. IfSome (S.left source.old) (λ bytes.
        built_script bytes false ≡ Err (record { line = line; kind = kind }))) }
    ensures fault { IfBadScript result (λ line kind. (kind ≡ NotBuilt → ⊥) → IfSome (S.left source.old) (λ bytes.
        HasFault (Ordering version) bytes (record { line = line; kind = kind }))) }
    ensures write_fault { result ≡ Status.WriteFault → Rose (K.faults sink.old) (K.faults sink.new) }
    ensures part { result ≡ Status.WriteFault → IfSome (S.left source.old) (λ bytes.
        OnOutput (Ordering version) bytes (λ text. AppendsPart (K.holds sink.old) (K.holds sink.new) text)) }
    ensures silent { IsSilent result → sink.new ≡ sink.old }
    ensures counted { IsWritten result → IfSome (S.left source.old) (λ bytes. Counted (Ordering version) bytes reads.old reads.new) }
    ensures uncounted { IsUnread result → reads.new ≡ reads.old }
{
    let script = match read_input(alloc, source) {
        Ok(script) => script,
        Err(InputFault::Memory) => return Status::NoMemory,
        Err(InputFault::Failed) => return Status::ReadFault,
        Err(InputFault::TooLong) => return Status::TooLong,
        Err(InputFault::Bad(BadScript { line, kind })) => return Status::BadScript { line, kind },
    };
    let Ok(text) = output(alloc, version, script, reads) else {
        return Status::NoMemory;
    };
    match write_all(sink, text.as_slice()) {
        Ok(()) => Status::Done,
        Err(_) => Status::WriteFault,
    }
}

/// The form `gen N`: makes the script with so many sales, runs it and writes its summary.
fn generate<K: Sink, L>(alloc: Global, sales: u32, sink: &mut K, reads: &mut [Reads<L>]) -> Status
    requires counters { length reads.old ≡ 65 }
    ensures own { IsOfGen result }
    ensures done { result ≡ Status.Done → OnOutput (Generating sales) [] (λ text. Appends (K.holds sink.old) (K.holds sink.new) text) }
    ensures write_fault { result ≡ Status.WriteFault → Rose (K.faults sink.old) (K.faults sink.new) }
    ensures part { result ≡ Status.WriteFault → OnOutput (Generating sales) [] (λ text. AppendsPart (K.holds sink.old) (K.holds sink.new) text) }
    ensures silent { IsSilent result → sink.new ≡ sink.old }
    ensures counted { IsWritten result → Counted (Generating sales) [] reads.old reads.new }
{
    let Ok(text) = summary(alloc, sales, reads) else {
        return Status::NoMemory;
    };
    let Ok(()) = write_all(sink, text.as_slice()) else {
        return Status::WriteFault;
    };
    Status::Done
}
