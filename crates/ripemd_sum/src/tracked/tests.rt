use super::Tracked;
use crate::tests::doubles::{PageWriter, SliceReader};
use std::io::{ErrorKind, Read, Write};

const HELLO: &[u8] = b"Hello world!";

/// A read of at most eight bytes: its answer, `taken()` and `failed()`.
fn read_once<R: Read>(tracked: &mut Tracked<R>) -> (Result<usize, ErrorKind>, u128, bool) {
    let answer = match tracked.read(&mut [0; 8]) {
        Ok(count) => Ok(count),
        Err(error) => Err(error.kind()),
    };
    (answer, tracked.taken(), tracked.failed())
}

// A read adds its count; one that fails is marked and adds nothing. Each, also the one that finds the end, is one call
// of the reader.
#[test]
fn tracks_reads(rt: HostRuntime) {
    let reader = SliceReader::new(HELLO, 5).failing_at(3, ErrorKind::TimedOut);
    let mut tracked = Tracked::new(reader);
    let reads = [
        (Ok(5), 5, false),
        (Ok(5), 10, false),
        (Err(ErrorKind::TimedOut), 10, true),
        (Ok(2), 12, true),
        (Ok(0), 12, true),
    ];
    for read in reads {
        let (answer, taken, failed) = read_once(&mut tracked);
        assert!(rt; (answer, taken, failed) == read, "{taken} bytes");
    }
    assert_eq!(rt; tracked.into_inner().calls, 5);
}

/// A write: its error, `taken()` and `failed()`.
fn write_once<W: Write>(tracked: &mut Tracked<W>, bytes: &[u8]) -> (Option<ErrorKind>, u128, bool) {
    let answer = match tracked.write_all(bytes) {
        Ok(()) => None,
        Err(error) => Some(error.kind()),
    };
    (answer, tracked.taken(), tracked.failed())
}

// A write adds nothing, and one that fails is marked. Each is one call of the writer.
#[test]
fn tracks_writes(rt: HostRuntime) {
    let writer = PageWriter::new(64).failing_at(2, ErrorKind::StorageFull);
    let mut tracked = Tracked::new(writer);
    assert!(rt; write_once(&mut tracked, b"abc") == (None, 0, false));
    assert!(rt; write_once(&mut tracked, b"def") == (Some(ErrorKind::StorageFull), 0, true));
    assert!(rt; write_once(&mut tracked, b"ghi") == (None, 0, true));
    let writer = tracked.into_inner();
    assert!(rt; writer.written() == b"abcghi".as_slice() && writer.calls == 3);
}
