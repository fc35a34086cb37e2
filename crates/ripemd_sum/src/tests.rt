mod arguments;
pub mod doubles;
mod hashing;
mod reading;
mod writing;

use crate::engine::{run, run_mac};
use crate::fault::RunFault;
use crate::tracked::Tracked;
use crate::variant::Variant;
use doubles::{PLANNED, PageWriter, SliceReader};
use std::alloc::{AllocError, Global};
use std::io;
use std::io::ErrorKind;

// A limit that no message here comes near.
const AMPLE: u64 = (1 << 61) - 1;

const HELLO: &[u8] = b"Hello world!";

// Digests of "Hello world!" that at least four other implementations give.
const DIGESTS: [(Variant, &str); 4] = [
    (Variant::R128, "d917d92bc5591a0915f70acebbc2b126"),
    (Variant::R160, HELLO_160),
    (
        Variant::R256,
        "2700f1122c7bd5df165b0615efbbbc54f551aef2401738811a5aea19ccb9233a",
    ),
    (
        Variant::R320,
        "f1c1c231d301abcf2d7daae0269ff3e7bc68e623ad723aa068d316b056d26b7d1bb6f0cc0f28336d",
    ),
];

const HELLO_160: &str = "7f772647d88750add82d8e1a7a3e5c0902a346a3";

/// What a run left.
#[derive(Drop)]
struct Finished<'a> {
    outcome: Result<(), RunFault>,
    reader: SliceReader<'a>,
    writer: PageWriter,
}

/// A run, under a key if there is one.
fn finish<'a>(
    variant: Variant,
    key: Option<&[u8]>,
    reader: SliceReader<'a>,
    writer: PageWriter,
    limit: u64,
) -> Finished<'a> {
    let mut reader = Tracked::new(reader);
    let mut writer = Tracked::new(writer);
    let outcome = match key {
        None => run(variant, &mut reader, &mut writer, limit),
        Some(key) => run_mac(variant, key, &mut reader, &mut writer, limit),
    };
    Finished {
        outcome,
        reader: reader.into_inner(),
        writer: writer.into_inner(),
    }
}

impl Finished<'_> {
    /// Whether the run wrote this digest or tag, and a newline.
    fn gives(&self, digits: &str) -> bool {
        self.outcome.is_ok()
            && self.writer.written().split_last() == Some((&b'\n', digits.as_bytes()))
    }

    /// Whether the input was too long, and nothing was written.
    fn was_too_long(&self) -> bool {
        matches!(&self.outcome, Err(RunFault::TooLong)) && self.writer.calls == 0
    }

    /// Whether a read failed with a planned error of this kind, and nothing was written.
    fn failed_reading(&self, alloc: Global, kind: ErrorKind) -> Result<bool, AllocError> {
        match &self.outcome {
            Err(RunFault::Read(error)) if self.writer.calls == 0 => is_planned(alloc, error, kind),
            _ => Ok(false),
        }
    }

    /// Whether the write failed with a planned error of this kind.
    fn failed_writing(&self, alloc: Global, kind: ErrorKind) -> Result<bool, AllocError> {
        match &self.outcome {
            Err(RunFault::Write(error)) => is_planned(alloc, error, kind),
            _ => Ok(false),
        }
    }
}

/// Whether a double made this error, of this kind.
fn is_planned(alloc: Global, error: &io::Error, kind: ErrorKind) -> Result<bool, AllocError> {
    let text = format!(in alloc; "{error}")?;
    Ok(error.kind() == kind && text.as_str() == PLANNED)
}
