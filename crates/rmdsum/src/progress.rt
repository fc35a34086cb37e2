//! Shows on a terminal how far a file is read.

use crate::quoting::{Charset, quotef};
use std::alloc::{AllocError, Global};
use std::io;
use std::io::Write;
use std::time::{Duration, Instant};

// Milliseconds before a line is shown, and then between lines.
const DELAY: u64 = 1000;

const INTERVAL: u64 = 500;

// The most bytes of a name that are shown, from its end.
const SHOWN: usize = 50;

// Goes to the start of the line, and erases it.
const ERASE: &[u8] = b"\r\x1b[K";

/// How far a file is read.
#[derive(Drop)]
pub struct Progress {
    rt: HostRuntime,
    label: Vec<u8>,
    size: Option<u64>,
    taken: u64,
    start: Instant,
    due: Duration,
    is_shown: bool,
}

impl Progress {
    /// For a file of this name, and size in bytes if known.
    pub fn new(rt: &HostRuntime, name: &[u8], size: Option<u64>) -> io::Result<Progress> {
        Ok(Progress {
            rt: *rt,
            label: label(rt.alloc(), Charset::of(rt), name)?,
            size,
            taken: 0,
            start: Instant::now(rt)?,
            due: Duration::from_millis(DELAY),
            is_shown: false,
        })
    }

    /// Counts bytes that were read, and shows a line if one is due.
    pub fn advance(&mut self, count: usize) {
        self.taken = self.taken.saturating_add(count as u64);
        let Ok(elapsed) = self.start.elapsed(&self.rt) else {
            return;
        };
        if elapsed >= self.due {
            self.due = elapsed.saturating_add(Duration::from_millis(INTERVAL));
            self.is_shown = true;
            let _ = self.show();
        }
    }

    /// Erases the line.
    pub fn clear(&mut self) {
        if self.is_shown {
            self.is_shown = false;
            let _ = self.rt.stderr().write_all(ERASE);
        }
    }

    fn show(&self) -> io::Result<()> {
        let mut line = Vec::from_slice(self.rt.alloc(), ERASE)?;
        line.extend_from_slice(self.label.as_slice())?;
        let taken = self.taken / 1_000_000;
        match self.size {
            Some(size) if size >= self.taken && size != 0 => {
                let percent = u128::from(self.taken) * 100 / u128::from(size);
                let size = size / 1_000_000;
                write!(line, ": {percent}% ({taken} of {size} MB)")?;
            }
            _ => write!(line, ": {taken} MB")?,
        }
        self.rt.stderr().write_all(line.as_slice())
    }
}

// A name as by `quotef`, or `...` and the end of a long one.
fn label(alloc: Global, charset: Charset, name: &[u8]) -> Result<Vec<u8>, AllocError> {
    let mut quoted = Vec::new(alloc);
    quotef(&mut quoted, charset, name)?;
    if quoted.len() <= SHOWN {
        return Ok(quoted);
    }
    let mut label = Vec::from_slice(alloc, b"...")?;
    let end = &quoted[quoted.len() - SHOWN..];
    label.extend_from_slice(from_character(end))?;
    Ok(label)
}

// A text without the rest of a character that begins before it.
fn from_character(text: &[u8]) -> &[u8] {
    for (place, byte) in text.iter().enumerate() {
        if byte & 0xc0 != 0x80 {
            return &text[place..];
        }
    }
    &[]
}
