//! What the program says on standard error.

ghost use Rattle.std.specs.Prelude.{◌≡◌, IfErr, List, None, OnOk, Option, Some, ℕ, ⊤};
ghost use Rattle.ripemd_files.specs.Said.{Adds, AddsFirst};

use crate::arguments::program;
use crate::quoting::{Charset, quoteaf, quotef};
use crate::refusals::Misuse;
use ripemd_files::Variant;
use ripemd_files::fault::Fault;
use ripemd_files::log::{Complaint, Log};
use std::io;
use std::io::{ErrorKind, Stdout, Write};

/// What is said, after the program's name.
#[derive(Clone, Copy)]
pub enum Message<'a> {
    /// These arguments are refused.
    Misuse(&'a Misuse),
    /// This fault ends the run.
    Fault(&'a Fault),
    /// The file of this name can't be opened or read.
    Unreadable(&'a [u8], io::Error),
    /// A complaint about the list of this name and hash.
    List(&'a [u8], &'a str, Complaint),
    /// The file of names of this name can't be opened.
    NamesUnopened(&'a [u8], io::Error),
    /// It can't be read to its end.
    NamesUnread(&'a [u8], io::Error),
    /// Its name of this number is empty.
    EmptyName(&'a [u8], u64),
    /// Standard input has the names, and `-` is one of them.
    InputName,
}

/// Says something. A closed pipe is an error; other failures are ignored.
pub fn say(rt: &HostRuntime, message: Message<'_>) -> io::Result<()> {
    match try_say(rt, message) {
        Err(error) if error.kind() == ErrorKind::BrokenPipe => Err(error),
        _ => Ok(()),
    }
}

fn try_say(rt: &HostRuntime, message: Message<'_>) -> io::Result<()> {
    let program = program(rt, rt.alloc())?;
    let mut text = Vec::from_slice(rt.alloc(), program.as_slice())?;
    text.extend_from_slice(b": ")?;
    push_message(rt, &mut text, program.as_slice(), message)?;
    text.push(b'\n')?;
    rt.stderr().write_all(text.as_slice())
}

fn push_message(
    rt: &HostRuntime,
    text: &mut Vec<u8>,
    program: &[u8],
    message: Message<'_>,
) -> io::Result<()> {
    let charset = Charset::of(rt);
    match message {
        Message::Misuse(misuse) => {
            misuse.push_text(text, charset)?;
            text.extend_from_slice(b"\nTry '")?;
            text.extend_from_slice(program)?;
            text.extend_from_slice(b" --help' for more information.")?;
            Ok(())
        }
        Message::Fault(fault) => {
            write!(text, "{fault}")?;
            if let Fault::Write(error) = fault {
                push_error(rt, text, *error)?;
            }
            Ok(())
        }
        Message::Unreadable(name, error) => {
            quotef(text, charset, name)?;
            push_error(rt, text, error)
        }
        Message::List(list, hash, complaint) => push_complaint(
            text, charset, list, hash, complaint,
        ),
        Message::NamesUnopened(name, error) => {
            text.extend_from_slice(b"cannot open ")?;
            quoteaf(text, charset, name)?;
            text.extend_from_slice(b" for reading")?;
            push_error(rt, text, error)
        }
        Message::NamesUnread(name, error) => {
            quotef(text, charset, name)?;
            text.extend_from_slice(b": read error")?;
            push_error(rt, text, error)
        }
        Message::EmptyName(name, number) => {
            quotef(text, charset, name)?;
            write!(text, ":{number}: invalid zero-length file name")
        }
        Message::InputName => write!(
            text,
            "when reading file names from stdin, no file name of '-' allowed"
        ),
    }
}

fn push_complaint(
    text: &mut Vec<u8>,
    charset: Charset,
    list: &[u8],
    hash: &str,
    complaint: Complaint,
) -> io::Result<()> {
    let what = match complaint {
        Complaint::MisformattedLines(count) => {
            let lines = if count == 1 { "line is" } else { "lines are" };
            return write!(text, "WARNING: {count} {lines} improperly formatted");
        }
        Complaint::UnreadableFiles(count) => {
            let s = plural(count);
            return write!(text, "WARNING: {count} listed file{s} could not be read");
        }
        Complaint::Mismatches(count) => {
            let s = plural(count);
            return write!(text, "WARNING: {count} computed checksum{s} did NOT match");
        }
        Complaint::Misformatted(number) => {
            quotef(text, charset, list)?;
            return write!(
                text,
                ": {number}: improperly formatted {hash} checksum line"
            );
        }
        Complaint::NoLines => "no properly formatted checksum lines found",
        Complaint::NothingVerified => "no file was verified",
        Complaint::Unreadable => "read error",
    };
    quotef(text, charset, list)?;
    write!(text, ": {what}")
}

fn plural(count: u64) -> &'static str {
    if count == 1 { "" } else { "s" }
}

// Adds a colon and the text of an error.
fn push_error(rt: &HostRuntime, text: &mut Vec<u8>, error: io::Error) -> io::Result<()> {
    let whole = format!(in rt.alloc(); ": {error}")?;
    text.extend_from_slice(without_number(whole.as_str()).as_bytes())?;
    Ok(())
}

// Cuts the number off the text of an error.
fn without_number(text: &str) -> &str {
    text.split_once(" (os error ")
        .map_or(text, |(words, _)| words)
}

/// Writes lines to standard output and remarks to standard error.
#[derive(Drop)]
pub struct Console<'a> {
    rt: &'a HostRuntime,
    list: &'a [u8],
    hash: &'static str,
    failure: Option<io::Error>,
}

impl<'a> Console<'a> {
    /// For a list and its files, or with no name for files that none names. `only`: the one hash of its lines.
    pub fn new(rt: &'a HostRuntime, list: &'a [u8], only: Option<Variant>) -> Console<'a>
        ensures { result.failure ≡ None }
    {
        Console {
            rt,
            list,
            hash: only.map_or("RIPEMD", Variant::label),
            failure: None,
        }
    }

    // Keeps the error of a failed call.
    fn keep(&mut self, outcome: io::Result<()>) -> io::Result<()>
        ensures ok { OnOk result (self.new.failure ≡ self.old.failure) }
        ensures err { IfErr result (λ error. self.new.failure ≡ Some error) }
    {
        if let Err(error) = &outcome {
            self.failure = Some(*error);
        }
        outcome
    }
}

impl Log for Console<'_> {
    ghost told = { λ console. record { items = None; failure = console.failure } };

    fn write(&mut self, lines: &[u8]) -> io::Result<()> {
        let outcome = write_lines(&mut self.rt.stdout(), lines);
        self.keep(outcome)
    }

    fn unreadable(&mut self, name: &[u8], error: io::Error) -> io::Result<()> {
        let outcome = say(self.rt, Message::Unreadable(name, error));
        self.keep(outcome)
    }

    fn complain(&mut self, complaint: Complaint) -> io::Result<()> {
        let outcome = say(self.rt, Message::List(self.list, self.hash, complaint));
        self.keep(outcome)
    }
}

// A buffered stream.
trait Output {
    // The bytes that were put, where that is known, and whether the buffer is empty.
    ghost sent: { Self → Option (List ℕ) } = { λ output. None };

    ghost is_flushed: { Self → Type 0 } = { λ output. ⊤ };

    // Writes bytes, perhaps only to the buffer.
    fn put(&mut self, bytes: &[u8]) -> io::Result<()>
        ensures first { AddsFirst (sent self.old) (sent self.new) bytes.now }
        ensures all { OnOk result (Adds (sent self.old) (sent self.new) bytes.now) };

    fn flush(&mut self) -> io::Result<()>
        ensures sent { sent self.new ≡ sent self.old }
        ensures flushed { OnOk result (is_flushed self.new) };
}

impl Output for Stdout {
    fn put(&mut self, bytes: &[u8]) -> io::Result<()> {
        self.write_all(bytes)
    }

    fn flush(&mut self) -> io::Result<()> {
        Write::flush(self)
    }
}

fn write_lines<O: Output>(out: &mut O, lines: &[u8]) -> io::Result<()>
    ensures first { AddsFirst (O.sent out.old) (O.sent out.new) lines.now }
    ensures all { OnOk result (Adds (O.sent out.old) (O.sent out.new) lines.now) }
    ensures flushed { OnOk result (O.is_flushed out.new) }
{
    out.put(lines)?;
    out.flush()
}
