//! A reader and a writer that give and take little at a call, and fail when told to.

use std::io;
use std::io::{ErrorKind, Read, Write};

/// The text of the errors made here.
pub const PLANNED: &str = "planned by the test";

/// Which call fails, counted from 1, or 0 for none, and with which kind of error.
#[derive(Clone, Copy)]
struct Failure {
    call: usize,
    kind: ErrorKind,
}

/// Gives the bytes of a slice, at most `step` at a call, and counts its calls.
#[derive(Drop)]
pub struct SliceReader<'a> {
    rest: &'a [u8],
    step: usize,
    failure: Option<Failure>,
    pub calls: usize,
}

impl<'a> SliceReader<'a> {
    pub fn new(bytes: &'a [u8], step: usize) -> Self {
        SliceReader {
            rest: bytes,
            step,
            failure: None,
            calls: 0,
        }
    }

    /// The reader, failing at this call.
    pub fn failing_at(self, call: usize, kind: ErrorKind) -> Self {
        SliceReader {
            failure: Some(Failure { call, kind }),
            ..self
        }
    }
}

impl Read for SliceReader<'_> {
    fn read(&mut self, buf: &mut [u8]) -> io::Result<usize> {
        begin_call(&mut self.calls, self.failure)?;
        let count = buf.len().min(self.rest.len()).min(self.step);
        let (given, rest) = self.rest.split_at(count);
        buf[..count].copy_from_slice(given);
        self.rest = rest;
        Ok(count)
    }
}

/// Keeps what it takes, at most `step` bytes at a call and 100 in all, and counts its calls.
#[derive(Drop)]
pub struct PageWriter {
    page: [u8; 100],
    len: usize,
    step: usize,
    failure: Option<Failure>,
    pub calls: usize,
}

impl PageWriter {
    pub fn new(step: usize) -> Self {
        PageWriter {
            page: [0; 100],
            len: 0,
            step,
            failure: None,
            calls: 0,
        }
    }

    /// The writer, failing at this call.
    pub fn failing_at(self, call: usize, kind: ErrorKind) -> Self {
        PageWriter {
            failure: Some(Failure { call, kind }),
            ..self
        }
    }

    /// What it took.
    pub fn written(&self) -> &[u8] {
        &self.page[..self.len.min(100)]
    }
}

impl Write for PageWriter {
    fn write(&mut self, buf: &[u8]) -> io::Result<usize> {
        begin_call(&mut self.calls, self.failure)?;
        let free = &mut self.page[self.len.min(100)..];
        let count = buf.len().min(free.len()).min(self.step);
        free[..count].copy_from_slice(&buf[..count]);
        self.len = self.len.saturating_add(count);
        Ok(count)
    }

    fn flush(&mut self) -> io::Result<()> {
        begin_call(&mut self.calls, self.failure)
    }
}

// Counts a call, and fails if it is to.
fn begin_call(calls: &mut usize, failure: Option<Failure>) -> io::Result<()> {
    *calls = calls.saturating_add(1);
    match failure {
        Some(Failure { call, kind }) if call == *calls => Err(io::Error::new(kind, PLANNED)),
        _ => Ok(()),
    }
}
