//! `rmdsum` prints RIPEMD digests of files and checks lists of them, as coreutils' `sha256sum` does
//! for SHA-256.
#![tactic(auto)]

ghost use Rattle.std.specs.Prelude.{◌≡◌, ◌↔◌, true, false, if◌then◌else◌, None};

mod arguments;
mod facts;
mod help;
mod messages;
mod names;
mod progress;
mod quoting;
mod refusals;
mod request;
mod switches;
mod system;
mod worker;

use help::{HELP, VERSION};
use messages::{Console, Message, say};
use names::{Batch, Names, Wrong};
use refusals::Misuse;
use request::NameSource;
use ripemd_files::Layout;
use ripemd_files::checking::check_list;
use ripemd_files::fault::Fault;
use ripemd_files::list::Rules;
use ripemd_files::piece::List;
use ripemd_files::printing::{Style, print_digests};
use ripemd_files::verdict::Options;
use std::alloc::{AllocError, Global};
use std::env;
use std::env::VarError;
use std::io::{ErrorKind, Write};
use std::process::ExitCode;
use system::{Source, System, buffered};
use worker::{Worker, run};

// The status after a write to a closed pipe: what a shell shows for SIGPIPE.
const CLOSED: u8 = 128 + 13;

// The bytes of names.
fn slices_of(alloc: Global, names: &[Vec<u8>]) -> Result<Vec<&[u8]>, AllocError> {
    let mut slices = Vec::with_capacity(alloc, names.len())?;
    for name in names {
        slices.push(name.as_slice())?;
    }
    Ok(slices)
}

// Writes the parts of a text to standard output.
fn write_text(rt: &HostRuntime, parts: &[&[u8]]) -> Result<(), Fault> {
    for part in parts {
        rt.stdout().write_all(part).map_err(Fault::Write)?;
    }
    Ok(())
}

// The worker over the system's files and streams.
#[derive(Drop)]
struct Host<'a> {
    rt: &'a HostRuntime,
    names: Names<Source>,
    progress: bool,
    // The layout of untagged lines, once one is known.
    layout: Option<Layout>,
}

impl Worker for Host<'_> {
    ghost done = { λ host. None };

    fn refuse(&mut self, misuse: Misuse) -> Result<(), Fault> {
        say(self.rt, Message::Misuse(&misuse)).map_err(Fault::Write)
    }

    fn show_help(&mut self) -> Result<(), Fault> {
        let program = arguments::program(self.rt, self.rt.alloc())?;
        write_text(self.rt, &[b"Usage: ", program.as_slice(), HELP.as_bytes()])
    }

    fn show_version(&mut self) -> Result<(), Fault> {
        write_text(self.rt, &[VERSION.as_bytes()])
    }

    fn open(&mut self, names: NameSource, progress: bool) -> Result<bool, Fault> {
        self.progress = progress;
        match Names::open(self.rt, names)? {
            None => Ok(false),
            Some(names) => {
                self.names = names;
                Ok(true)
            }
        }
    }

    fn next(&mut self) -> Result<Batch, Fault> {
        self.names.next(self.rt.alloc())
    }

    fn print(&mut self, style: Style, names: &[Vec<u8>]) -> Result<bool, Fault> {
        print_digests(
            self.rt.alloc(),
            &System::new(self.rt, self.progress),
            style,
            &slices_of(self.rt.alloc(), names)?,
            &mut Console::new(self.rt, b"", None),
        )
    }

    fn check(&mut self, rules: Rules, options: Options, name: &[u8]) -> Result<bool, Fault> {
        let source = match Source::open(self.rt, name) {
            Ok(source) => source,
            Err(error) => {
                say(self.rt, Message::Unreadable(name, error)).map_err(Fault::Write)?;
                return Ok(false);
            }
        };
        let shown = if rules.from_input {
            b"standard input"
        } else {
            name
        };
        check_list(
            self.rt.alloc(),
            &System::new(self.rt, self.progress),
            options,
            rules,
            &mut self.layout,
            &mut List::new(buffered(self.rt, source)?),
            &mut Console::new(self.rt, shown, rules.only),
        )
    }

    fn tell(&mut self, wrong: Option<Wrong>) -> Result<bool, Fault> {
        self.names.tell(self.rt, wrong)
    }
}

// Runs the program, and returns whether all could be done.
fn run_here(rt: &HostRuntime) -> Result<bool, Fault> {
    let mut host = Host {
        rt,
        names: Names::of(rt.alloc(), Vec::new(rt.alloc())),
        progress: false,
        layout: None,
    };
    let operands_last = !matches!(env::var(rt, "POSIXLY_CORRECT"), Err(VarError::NotPresent));
    let arguments = arguments::collect(rt, rt.alloc())?;
    run(rt.alloc(), &mut host, operands_last, arguments.as_slice())
}

// Whether a write found its pipe closed.
fn is_closed(fault: &Fault) -> bool {
    matches!(fault, Fault::Write(error) if error.kind() == ErrorKind::BrokenPipe)
}

// The status of a run. `is_said` is false if a pipe was closed, in the run or as its fault was told.
fn status(outcome: &Result<bool, Fault>, is_said: bool) -> u8
    ensures done { (result ≡ 0) ↔ (outcome.now ≡ Ok true) }
    ensures not { outcome.now ≡ Ok false → result ≡ 1 }
    ensures fault { (fault : Fault) → outcome.now ≡ Err fault → result ≡ (if is_said then 1 else 141) }
{
    match outcome {
        Ok(true) => 0,
        Ok(false) => 1,
        Err(_) if is_said => 1,
        Err(_) => CLOSED,
    }
}

fn main(rt: HostRuntime) -> ExitCode {
    let outcome = run_here(&rt);
    let is_said = match &outcome {
        Err(fault) => !is_closed(fault) && say(&rt, Message::Fault(fault)).is_ok(),
        Ok(_) => true,
    };
    ExitCode::from(status(&outcome, is_said))
}
