//! `ripemd_sum` reads standard input to its end and writes its RIPEMD digest, or its tag under a key, as one line.
#![tactic(auto)]

mod any_hasher;
mod arguments;
mod engine;
mod facts;
mod fault;
#[cfg(test)]
mod tests;
mod tracked;
mod variant;

ghost use Rattle.std.specs.Prelude.{◌≡◌, ◌↔◌, ℕ, List, IsNone, IfNone, IfSome, false, map, string_bytes};
ghost use Rattle.ripemd_sum.specs.Arguments.{Chooses, ChoosesMac, HasKey, AsksNothing};
ghost use Rattle.ripemd_sum.specs.Runs.{Ready, digest_line, tag_line, most_bytes, most_bytes_under_a_key};
ghost use Rattle.ripemd_sum.specs.Faults.{IsRun};
ghost use Rattle.ripemd_sum.specs.Types.{Variant};

use arguments::{choose, choose_mac};
use engine::{run, run_mac};
use fault::RunFault;
use std::io::{BufReader, Read, Write};
use std::process::ExitCode;
use std::{env, io};
use tracked::Tracked;

/// Printed, with status 2, if the arguments are not known.
pub const USAGE: &str = "usage: ripemd_sum [128|160|256|320]";

/// Printed, with status 3, if the program cannot take its arguments or has no memory for its input.
pub const NO_MEMORY: &str = "ripemd_sum: out of memory";

/// The size of a read of the input.
const BUFFER: usize = 1 << 16;

/// The greatest length of the input, 2^61 - 1 bytes: in bits, a longer one does not fit into 64 bits.
const LIMIT: u64 = u64::MAX / 8;

/// The greatest length of the input under a key, whose 64-byte block is hashed before it.
const MAC_LIMIT: u64 = LIMIT - 64;

// The arguments after the program's name.
fn collect_arguments(rt: &HostRuntime) -> io::Result<Vec<String>> {
    Ok(env::args(rt)?.skip(1).collect(rt.alloc())?)
}

// Prints a line to standard error. If that fails, there is nowhere to report it.
fn complain(rt: &HostRuntime, line: &str) {
    let _ = eprintln!(rt; "{line}");
}

// Does what the arguments ask for. `None` exactly if that is nothing; then nothing is read or written.
fn perform<R: Read, W: Write>(
    arguments: &[String],
    reader: &mut Tracked<R>,
    writer: &mut Tracked<W>,
) -> Option<Result<(), RunFault>>
    requires { Ready reader.old writer.old }
    ensures digest { (v : Variant) → Chooses (map string_bytes arguments.now) v
        → IfSome result (IsRun R.remaining W.contents reader.old reader.new writer.old writer.new
        most_bytes (digest_line v)) }
    ensures tag { (v : Variant) (count : ℕ) (key : List ℕ)
        → ChoosesMac (map string_bytes arguments.now) v count
        → HasKey (map string_bytes arguments.now) key
        → IfSome result (IsRun R.remaining W.contents reader.old reader.new writer.old writer.new
        most_bytes_under_a_key (tag_line v key)) }
    ensures none { IsNone result ↔ AsksNothing (map string_bytes arguments.now) }
    ensures untouched { IfNone result ((reader.new ≡ reader.old) × (writer.new ≡ writer.old)) }
{
    if let Some(variant) = choose(arguments) {
        return Some(run(variant, reader, writer, LIMIT));
    }
    let mut key = [0; 64];
    let (variant, length) = choose_mac(arguments, &mut key)?;
    Some(run_mac(variant, &key[..length], reader, writer, MAC_LIMIT))
}

fn main(rt: HostRuntime) -> ExitCode {
    let Ok(arguments) = collect_arguments(&rt) else {
        complain(&rt, NO_MEMORY);
        return ExitCode::from(3);
    };
    let Ok(input) = BufReader::with_capacity(rt.alloc(), BUFFER, rt.stdin().lock()) else {
        complain(&rt, NO_MEMORY);
        return ExitCode::from(3);
    };
    let mut reader = Tracked::new(input);
    let mut writer = Tracked::new(rt.stdout());
    let outcome = perform(arguments.as_slice(), &mut reader, &mut writer);
    let _ = reader.into_inner();
    let _ = writer.into_inner();
    match outcome {
        Some(Ok(())) => ExitCode::SUCCESS,
        Some(Err(fault)) => {
            complain(&rt, fault.message());
            ExitCode::from(1)
        }
        None => {
            complain(&rt, USAGE);
            ExitCode::from(2)
        }
    }
}
