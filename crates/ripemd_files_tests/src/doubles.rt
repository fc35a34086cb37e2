//! A folder, a list and a log in memory, which fail when they are told to.

ghost use Rattle.std.specs.Prelude.{◌≡◌, false, IfErr, IfOk, None, OnOk, Some, ⊤};
ghost use Rattle.ripemd_files.specs.Splitting.{state_of};
ghost use Rattle.ripemd_files.specs.declared.piece.Stage.TheVariants.{Among};
ghost use Rattle.std.specs.Io.{ReadsAtMost};

use ripemd_files::folder::Folder;
use ripemd_files::log::{Complaint, Log};
use ripemd_files::piece::List;
use std::alloc::{AllocError, Global};
use std::cell::Cell;
use std::io;
use std::io::{BufReader, ErrorKind, Read};

/// Counts calls, one of which fails: 1 is the first, 0 none.
#[derive(Drop)]
pub struct Calls {
    made: Cell<usize>,
    failing: usize,
}

impl Calls {
    /// This call fails.
    pub fn failing_at(failing: usize) -> Calls {
        Calls {
            made: Cell::new(0),
            failing,
        }
    }

    /// How many calls were made.
    pub fn made(&self) -> usize {
        self.made.get()
    }

    fn make(&self) -> io::Result<()> {
        self.made.set(self.made.get().saturating_add(1));
        if self.made.get() == self.failing {
            return Err(io::Error::from(ErrorKind::PermissionDenied));
        }
        Ok(())
    }
}

/// Files by their names.
#[derive(Drop)]
pub struct Memory<'a> {
    pub files: &'a [(&'a [u8], &'a [u8])],
    pub calls: Calls,
}

/// What an opened file has left, and whether it was read to its end or to a failed read.
#[derive(Drop)]
pub struct Opened<'a> {
    rest: &'a [u8],
    is_over: bool,
}

impl<'a> Folder for Memory<'a> {
    type File = Opened<'a>;

    ghost place = { λ memory. record {
      opens = λ name file. ⊤;
      refuses = λ name error. ⊤;
      left = λ file. None;
      readable = λ file. file.is_over ≡ false;
      may_fail = λ file error. ⊤;
    } };

    fn open(&self, name: &[u8]) -> io::Result<Opened<'a>> {
        self.calls.make()?;
        for (known, bytes) in self.files {
            if **known == *name {
                return Ok(Opened {
                    rest: bytes,
                    is_over: false,
                });
            }
        }
        Err(io::Error::from(ErrorKind::NotFound))
    }

    fn is_short(&self, name: &[u8]) -> bool {
        for (known, bytes) in self.files {
            if **known == *name {
                return bytes.len() < 1 << 16;
            }
        }
        false
    }

    fn read(&self, file: &mut Opened<'a>, buffer: &mut [u8]) -> io::Result<usize> {
        file.is_over = true;
        self.calls.make()?;
        let count = take(&mut file.rest, buffer)?;
        file.is_over = count == 0;
        Ok(count)
    }
}

// Takes as many bytes from the front as there is room for.
fn take(rest: &mut &[u8], buffer: &mut [u8]) -> io::Result<usize>
    ensures { ReadsAtMost result buffer.new }
{
    rest.read(buffer)
}

/// The bytes of a list.
#[derive(Drop)]
pub struct Bytes<'a> {
    rest: &'a [u8],
    calls: Calls,
}

impl Read for Bytes<'_> {
    fn read(&mut self, buffer: &mut [u8]) -> io::Result<usize> {
        self.calls.make()?;
        take(&mut self.rest, buffer)
    }
}

/// A list of these bytes, at most `at_hand` of them at hand. Its read number `failing` fails.
pub fn list_of(
    alloc: Global,
    rest: &[u8],
    at_hand: usize,
    failing: usize,
) -> io::Result<List<Bytes<'_>>>
    ensures { IfOk result (λ list. (state_of (λ bytes. None) list).stage ≡ Among) }
{
    let bytes = Bytes {
        rest,
        calls: Calls::failing_at(failing),
    };
    Ok(List::new(BufReader::with_capacity(alloc, at_hand, bytes)?))
}

/// Keeps lines, the number of unreadable files, and complaints.
#[derive(Drop)]
pub struct Page {
    pub bytes: Vec<u8>,
    pub unreadable: usize,
    pub complaints: Vec<Complaint>,
    pub calls: Calls,
    pub failure: Option<io::Error>,
}

impl Page {
    /// An empty page, this call of which fails.
    pub fn new(alloc: Global, failing: usize) -> Page
        ensures { result.failure ≡ None }
    {
        Page {
            bytes: Vec::new(alloc),
            unreadable: 0,
            complaints: Vec::new(alloc),
            calls: Calls::failing_at(failing),
            failure: None,
        }
    }

    // Makes a call, and keeps its error.
    fn make(&mut self) -> io::Result<()>
        ensures ok { OnOk result (self.new.failure ≡ self.old.failure) }
        ensures err { IfErr result (λ error. self.new.failure ≡ Some error) }
    {
        let outcome = self.calls.make();
        if let Err(error) = &outcome {
            self.failure = Some(*error);
        }
        outcome
    }

    // Keeps that there is no memory left.
    fn forget(&mut self) -> io::Error
        ensures { self.new.failure ≡ Some result }
    {
        let error = io::Error::from(ErrorKind::OutOfMemory);
        self.failure = Some(error);
        error
    }
}

impl Log for Page {
    ghost told = { λ page. record { items = None; failure = page.failure } };

    fn write(&mut self, lines: &[u8]) -> io::Result<()> {
        self.make()?;
        match self.bytes.extend_from_slice(lines) {
            Ok(()) => Ok(()),
            Err(_) => Err(self.forget()),
        }
    }

    fn unreadable(&mut self, _name: &[u8], _error: io::Error) -> io::Result<()> {
        self.make()?;
        self.unreadable = self.unreadable.saturating_add(1);
        Ok(())
    }

    fn complain(&mut self, complaint: Complaint) -> io::Result<()> {
        self.make()?;
        match self.complaints.push(complaint) {
            Ok(()) => Ok(()),
            Err(_) => Err(self.forget()),
        }
    }
}

/// So many bytes "a".
pub fn letters(alloc: Global, count: usize) -> Result<Vec<u8>, AllocError> {
    vec![in alloc; b'a'; count]
}
