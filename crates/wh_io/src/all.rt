ghost use Rattle.std.specs.Prelude.{◌≡◌, ◌≤◌, ◌<◌, ◌^◌, length, IfOk, OnOk, OnErr, IfSome, IsErrOf, vec_len};
ghost use Rattle.std.specs.Io.KnownBytes.{Consumes, IsAtEnd, Appends};
ghost use Rattle.wh_io.specs.Causes.{Rose, ConsumesSome, AppendsPart};

use crate::outside::{Failed, Sink, Source};
use std::alloc::Global;

/// Why not all was read.
#[derive(Clone, Copy, Debug, PartialEq, Eq)]
pub enum ReadFault {
    /// There was no memory for the bytes.
    Memory,
    /// A read failed.
    Failed,
    /// There are more bytes than the limit.
    TooLong,
}

/// Reads a source to its end, and answers all its bytes.
///
/// `limit` is the most bytes that may come. `TooLong` comes only where the source has more, and `Failed` only where
/// the source's count of faults rose in this call. After an error a front of the bytes is lost.
pub fn read_all<S: Source>(
    alloc: Global,
    source: &mut S,
    limit: usize,
) -> Result<Vec<u8>, ReadFault>
    requires { limit < 2 ^ 62 }
    ensures bytes { IfOk result (λ all. Consumes (S.left source.old) (S.left source.new) all.items) }
    ensures end { OnOk result (IsAtEnd (S.left source.new)) }
    ensures short { IfOk result (λ all. vec_len all ≤ limit) }
    ensures lost { OnErr result (ConsumesSome (S.left source.old) (S.left source.new)) }
    ensures later { S.faults source.old ≤ S.faults source.new }
    ensures failed { IsErrOf result ReadFault.Failed → Rose (S.faults source.old) (S.faults source.new) }
    ensures too_long { IsErrOf result ReadFault.TooLong → IfSome (S.left source.old) (λ bytes. limit < length bytes) }
{
    let mut all = Vec::new(alloc);
    let mut buf = [0u8; 4096];
    'pieces: while all.len() <= limit {
        let Ok(count) = source.read(&mut buf) else {
            return Err(ReadFault::Failed);
        };
        if count == 0 {
            return Ok(all);
        }
        if all.extend_from_slice(&buf[..count]).is_err() {
            return Err(ReadFault::Memory);
        }
    }
    Err(ReadFault::TooLong)
}

/// Writes all the bytes.
///
/// `Failed` comes only where the sink's count of faults rose in this call. A front of the bytes, and never all of
/// them, was written then.
pub fn write_all<K: Sink>(sink: &mut K, bytes: &[u8]) -> Result<(), Failed>
    ensures all { OnOk result (Appends (K.holds sink.old) (K.holds sink.new) bytes.now) }
    ensures part { OnErr result (AppendsPart (K.holds sink.old) (K.holds sink.new) bytes.now) }
    ensures later { K.faults sink.old ≤ K.faults sink.new }
    ensures failed { OnErr result (Rose (K.faults sink.old) (K.faults sink.new)) }
{
    let mut at = 0;
    while at < bytes.len() {
        at += sink.write(&bytes[at..])?;
    }
    Ok(())
}
