//! What is written.

use super::doubles::{PageWriter, SliceReader};
use super::{AMPLE, DIGESTS, Finished, HELLO, HELLO_160, finish};
use crate::variant::Variant;
use std::io::ErrorKind;
use std::test::Fail;

/// The run over "Hello world!" with this writer.
fn written_to(variant: Variant, writer: PageWriter) -> Finished<'static> {
    finish(variant, None, SliceReader::new(HELLO, 100), writer, AMPLE)
}

// A writer that takes one byte a call gets the same line.
#[test]
fn writes_in_any_pieces(rt: HostRuntime) {
    for (variant, digest) in DIGESTS {
        let done = written_to(variant, PageWriter::new(1));
        assert!(rt; done.gives(digest) && done.writer.calls == digest.len() + 1);
    }
}

// Whichever write fails, other than by an interruption, its error is the answer, and no write follows.
#[test]
fn answers_a_write_that_fails(rt: HostRuntime) -> Result<(), Fail> {
    for kind in [ErrorKind::BrokenPipe, ErrorKind::StorageFull] {
        for (variant, digest) in DIGESTS {
            for written in 0..=digest.len() {
                let call = written.saturating_add(1);
                let done = written_to(variant, PageWriter::new(1).failing_at(call, kind));
                let failed = done.failed_writing(rt.alloc(), kind)?;
                assert!(rt; failed && done.writer.calls == call, "write {call}");
                assert!(rt; Some(done.writer.written()) == digest.as_bytes().get(..written));
            }
        }
    }
    let writer = PageWriter::new(1).failing_at(20, ErrorKind::BrokenPipe);
    let reader = SliceReader::new(HELLO, 100);
    let done = finish(Variant::R160, Some(b"key"), reader, writer, AMPLE);
    assert!(rt; done.failed_writing(rt.alloc(), ErrorKind::BrokenPipe)?);
    assert!(rt; done.writer.calls == 20);
    Ok(())
}

// An interrupted write is tried again, as by the library's `write_all`.
#[test]
fn goes_on_after_an_interrupted_write(rt: HostRuntime) {
    for call in [1, 20, 41] {
        let writer = PageWriter::new(1).failing_at(call, ErrorKind::Interrupted);
        let done = written_to(Variant::R160, writer);
        assert!(rt;
            done.gives(HELLO_160) && done.writer.calls == 42,
            "write {call}"
        );
    }
}
