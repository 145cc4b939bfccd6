use crate::{
    Failed, MemorySink, MemorySource, ReadFault, Sink, StdSink, StdSource, SteadySink,
    SteadySource, read_all, write_all,
};
use std::alloc::Global;
use std::io::{Error, ErrorKind, Write};
use std::test::Fail;

const TEXT: &str = "abcdefgh";

/// A writer of std that fails in one way.
#[derive(Clone, Copy)]
enum Broken {
    Error,
    NoByte,
    Flush,
}

impl Write for Broken {
    fn write(&mut self, buf: &[u8]) -> std::io::Result<usize> {
        match self {
            Broken::Error => Err(Error::from(ErrorKind::BrokenPipe)),
            Broken::NoByte => Ok(0),
            Broken::Flush => Ok(buf.len()),
        }
    }

    fn flush(&mut self) -> std::io::Result<()> {
        match self {
            Broken::Flush => Err(Error::from(ErrorKind::BrokenPipe)),
            _ => Ok(()),
        }
    }
}

/// The text is read, and then what is left of it. `failing` is the number of the call that fails, 0 for none.
#[test]
fn reads(rt: HostRuntime) -> Result<(), Fail> {
    let alloc = rt.alloc();
    for (piece, failing, limit, want, left) in [
        (3, 0, 8, Ok(TEXT), ""),
        (100, 0, 100, Ok(TEXT), ""),
        (3, 2, 8, Err(ReadFault::Failed), "defgh"),
        (1, 8, 8, Err(ReadFault::Failed), "h"),
        (8, 2, 8, Err(ReadFault::Failed), ""),
        (3, 0, 7, Err(ReadFault::TooLong), ""),
        (3, 0, 5, Err(ReadFault::TooLong), "gh"),
    ] {
        let bytes = Vec::from_slice(alloc, TEXT.as_bytes())?;
        let mut source = MemorySource::new(bytes, piece, Vec::from_array(alloc, [failing])?);
        let all = read_all(alloc, &mut source, limit);
        let found = all
            .as_ref()
            .map(|bytes| bytes.as_slice())
            .map_err(|fault| *fault);
        assert_eq!(rt;
            found,
            want.map(|text| text.as_bytes()),
            "piece {piece} failing {failing} limit {limit}"
        );
        let rest = read_all(alloc, &mut source, 100);
        let found = rest
            .as_ref()
            .map(|bytes| bytes.as_slice())
            .map_err(|fault| *fault);
        assert_eq!(rt;
            found,
            Ok(left.as_bytes()),
            "left, piece {piece} failing {failing} limit {limit}"
        );
    }
    let mut steady = SteadySource::new(Vec::from_slice(alloc, TEXT.as_bytes())?);
    let Ok(all) = read_all(alloc, &mut steady, 8) else {
        assert!(rt; false, "a steady source failed");
        return Ok(());
    };
    assert_eq!(rt; all.as_slice(), TEXT.as_bytes());
    Ok(())
}

/// The text is written, and then one byte more. `failing` is the number of the call that fails, 0 for none.
#[test]
fn writes(rt: HostRuntime) -> Result<(), Fail> {
    let alloc = rt.alloc();
    for (piece, failing, want, held) in [
        (3, 0, Ok(()), "abcdefgh."),
        (100, 0, Ok(()), "abcdefgh."),
        (3, 2, Err(Failed), "abc."),
        (1, 8, Err(Failed), "abcdefg."),
        (100, 1, Err(Failed), "."),
    ] {
        let mut sink = MemorySink::new(alloc, piece, Vec::from_array(alloc, [failing])?);
        assert_eq!(rt;
            write_all(&mut sink, TEXT.as_bytes()),
            want,
            "piece {piece} failing {failing}"
        );
        assert_eq!(rt;
            write_all(&mut sink, b"."),
            Ok(()),
            "after, piece {piece} failing {failing}"
        );
        assert_eq!(rt;
            sink.bytes(),
            held.as_bytes(),
            "held, piece {piece} failing {failing}"
        );
    }
    let mut steady = SteadySink;
    assert_eq!(rt; write_all(&mut steady, TEXT.as_bytes()), Ok(()));
    Ok(())
}

#[test]
fn adapters(rt: HostRuntime) -> Result<(), Fail> {
    let alloc = rt.alloc();
    let mut source = StdSource::new(TEXT.as_bytes());
    let Ok(all) = read_all(alloc, &mut source, 8) else {
        assert!(rt; false, "a slice failed");
        return Ok(());
    };
    assert_eq!(rt; all.as_slice(), TEXT.as_bytes());
    let mut held = Vec::new(alloc);
    let mut sink = StdSink::new(&mut held);
    assert_eq!(rt; write_all(&mut sink, TEXT.as_bytes()), Ok(()));
    assert_eq!(rt; held.as_slice(), TEXT.as_bytes());
    for broken in [Broken::Error, Broken::NoByte, Broken::Flush] {
        assert_eq!(rt;
            write_all(&mut StdSink::new(broken), TEXT.as_bytes()),
            Err(Failed)
        );
    }
    assert_eq!(rt; StdSink::new(Broken::NoByte).write(b""), Ok(0));
    Ok(())
}
