//! What a run reads.

use super::doubles::{PageWriter, SliceReader};
use super::{AMPLE, DIGESTS, Finished, HELLO, finish};
use crate::variant::Variant;
use std::io::ErrorKind;
use std::test::Fail;

/// The run over "Hello world!", a byte a read.
fn run_over_hello(variant: Variant, limit: u64) -> Finished<'static> {
    let reader = SliceReader::new(HELLO, 1);
    finish(variant, None, reader, PageWriter::new(100), limit)
}

// Each read, also the one that finds the end, is one call of the reader. The line goes out by one write. The limit is
// the greatest length that gives a line.
#[test]
fn reads_to_the_end(rt: HostRuntime) {
    for (variant, digest) in DIGESTS {
        let done = run_over_hello(variant, 12);
        assert!(rt; done.gives(digest) && done.reader.calls == 13 && done.writer.calls == 1);
        assert!(rt; run_over_hello(variant, 11).was_too_long());
    }
}

// A million times "a", in full pieces. The digest is the authors'.
#[test]
fn reads_a_million_bytes(rt: HostRuntime) -> Result<(), Fail> {
    let letters = vec![in rt.alloc(); b'a'; 1_000_000]?;
    let reader = SliceReader::new(letters.as_slice(), usize::MAX);
    let done = finish(Variant::R160, None, reader, PageWriter::new(100), AMPLE);
    assert!(rt; done.gives("52783243c1697bdbe16d37f97f68f08325dc1528"));
    Ok(())
}

/// The run over "Hello world!", a byte a read; read `n` fails.
fn run_failing_at(n: usize, kind: ErrorKind, limit: u64) -> Finished<'static> {
    let reader = SliceReader::new(HELLO, 1).failing_at(n, kind);
    finish(Variant::R160, None, reader, PageWriter::new(100), limit)
}

// Whichever read fails, also the one that would find the end, its error is the answer, and no read follows, not even
// after an interruption.
#[test]
fn answers_a_read_that_fails(rt: HostRuntime) -> Result<(), Fail> {
    for kind in [ErrorKind::TimedOut, ErrorKind::Interrupted] {
        for n in 1..=13 {
            let done = run_failing_at(n, kind, 12);
            let failed = done.failed_reading(rt.alloc(), kind)?;
            assert!(rt; failed && done.reader.calls == n, "read {n}");
        }
    }
    Ok(())
}

// Of an error and a byte past the limit, the first in the stream is the answer.
#[test]
fn answers_what_comes_first(rt: HostRuntime) -> Result<(), Fail> {
    let kind = ErrorKind::ConnectionReset;
    let done = run_failing_at(4, kind, 3);
    assert!(rt; done.failed_reading(rt.alloc(), kind)? && done.reader.calls == 4);
    let done = run_failing_at(5, kind, 3);
    assert!(rt; done.was_too_long() && done.reader.calls == 4);
    Ok(())
}

/// The run over "Hi There" under twenty bytes 0x0b; this read fails.
fn run_under_a_key(failing: usize, limit: u64) -> Finished<'static> {
    let reader = SliceReader::new(b"Hi There", 3).failing_at(failing, ErrorKind::TimedOut);
    let writer = PageWriter::new(100);
    finish(Variant::R160, Some(&[0x0b; 20]), reader, writer, limit)
}

// The tag is from RFC 2286. The limit is that of the message alone.
#[test]
fn reads_under_a_key(rt: HostRuntime) -> Result<(), Fail> {
    let done = run_under_a_key(0, 8);
    assert!(rt; done.gives("24cb4bd67d20fc1a5d2ed7732dcc39377f0a5668") && done.writer.calls == 1);
    assert!(rt; run_under_a_key(0, 7).was_too_long());
    let done = run_under_a_key(3, 8);
    assert!(rt; done.failed_reading(rt.alloc(), ErrorKind::TimedOut)? && done.reader.calls == 3);
    Ok(())
}
