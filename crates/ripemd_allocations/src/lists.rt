//! Lists of commands for `replay`, and their answers.

use crate::print_outcome;
use ripemd::block_api::AlgorithmName;
use ripemd::digest::SerializableState;
use ripemd::replay::Command::{Fork, Import, Load, New, Reset, Save};
use ripemd::replay::{Command, ReplayError, replay};
use ripemd::{Digest, Ripemd160, Ripemd320};
use ripemd_tests::bytes::{rest_of, tail_of};
use ripemd_tests::digits::{HELLO_160, HELLO_320, OF_160, OF_320, are_written, bytes_of};
use std::alloc::Global;
use std::io;

// Whether the commands give these digests or this error; `None` if they are refused memory.
fn is_answer<D: Digest + SerializableState>(
    alloc: Global,
    commands: &[Command],
    digests: &[&str],
    error: Option<&ReplayError>,
) -> Option<bool> {
    match (replay::<D>(alloc, commands), error) {
        (Err(ReplayError::OutOfMemory), _) => None,
        (Ok(found), None) => Some(are_written::<D>(found.as_slice(), digests)),
        (Err(found), Some(error)) => Some(found == *error),
        _ => Some(false),
    }
}

// Prints the outcome of a list with these digests or this error.
fn print_outcome_of<D: Digest + SerializableState + AlgorithmName>(
    rt: &HostRuntime,
    name: &str,
    commands: &[Command],
    digests: &[&str],
    error: Option<ReplayError>,
) -> io::Result<()> {
    print!(rt; "replay by {} of {name}", D::ALG_NAME)?;
    let call = || is_answer::<D>(rt.alloc(), commands, digests, error.as_ref());
    print_outcome(rt, call)
}

fn update<'a>(hasher: usize, bytes: &'a [u8]) -> Command<'a> {
    Command::Update { hasher, bytes }
}

fn finish<'a>(hasher: usize) -> Command<'a> {
    Command::Finish { hasher }
}

// Prints the outcomes by a hasher with these digests of no bytes, of "abc" and of "Hello world!".
fn print_outcomes_by<'a, D: Digest + SerializableState + AlgorithmName>(
    rt: &HostRuntime,
    empty: &'a str,
    abc: &'a str,
    hello: &'a str,
) -> io::Result<()> {
    // Two hashers do not share a message.
    let list = [New, New, update(1, b"abc"), finish(0), finish(1)];
    print_outcome_of::<D>(rt, "two hashers", &list, &[empty, abc], None)?;
    // A fork and its original are independent, and a finished hasher is new.
    let list = [
        New,
        update(0, b"Hello "),
        Fork { hasher: 0 },
        update(0, b"world!"),
        finish(0),
        update(1, b"world!"),
        finish(1),
        finish(0),
    ];
    print_outcome_of::<D>(rt, "forks", &list, &[hello, hello, empty], None)?;
    // A saved state outlives the reset of its hasher.
    let list = [
        New,
        update(0, b"Hello "),
        Save { hasher: 0 },
        Reset { hasher: 0 },
        Load { saved: 0 },
        update(1, b"world!"),
        finish(1),
    ];
    print_outcome_of::<D>(rt, "a saved state", &list, &[hello], None)?;
    // A saved state stays as it was.
    let list = [
        New,
        Save { hasher: 0 },
        update(0, b"abc"),
        Load { saved: 0 },
        finish(1),
        finish(0),
    ];
    print_outcome_of::<D>(rt, "an early state", &list, &[empty, abc], None)?;
    // A refusal before the first bad command is the answer.
    let list = [New, finish(3), Load { saved: 5 }];
    let error = ReplayError::NoHasher { at: 1, hasher: 3 };
    print_outcome_of::<D>(rt, "a bad command", &list, &[], Some(error))?;
    // These allocate nothing.
    print_outcome_of::<D>(rt, "nothing", &[], &[], None)?;
    let error = ReplayError::NoSaved { at: 0, saved: 0 };
    let list = [Load { saved: 0 }];
    print_outcome_of::<D>(rt, "a load of nothing", &list, &[], Some(error))
}

// The words of a hasher of RIPEMD-160 after 64 letters "a", from another implementation; the digest
// of 65 letters, from others.
const WORDS_OF_LETTERS: &str = "f03923d46f9f5bce75a07428f1aa67df1cbec1c6";

const LETTERS: &str = "99724bb11811e7166af38f671b6a082d8ab4960b";

// A saved hasher of RIPEMD-160.
fn state_160(words: &str, block_count: u64, tail: &[u8]) -> [u8; 92] {
    let mut bytes = [0; 92];
    let rest = rest_of(block_count, tail.len().min(63) as u8, &tail_of(tail));
    bytes[..20].copy_from_slice(&bytes_of::<20>(words));
    bytes[20..].copy_from_slice(&rest);
    bytes
}

// Prints the outcomes of imported states: after "abc", after 65 letters "a", after 2^55 blocks
// (2^64 bits), and of a bad one, which asks for no memory.
fn print_outcomes_of_imports(rt: &HostRuntime) -> io::Result<()> {
    let [abc, empty] = [OF_160.abc, OF_160.empty];
    // The imported hasher is finished, and is then new.
    let state = state_160(OF_160.start, 0, b"abc");
    let list = [Import { bytes: &state }, finish(0), finish(0)];
    print_outcome_of::<Ripemd160>(rt, "a state, finished", &list, &[abc, empty], None)?;
    let long = state_160(OF_160.start, 1 << 55, b"");
    let list = [Import { bytes: &long }, finish(0), finish(0)];
    print_outcome_of::<Ripemd160>(rt, "a long state, finished", &list, &[empty, empty], None)?;
    // A saved state of the imported hasher stays as it was.
    let letters = state_160(WORDS_OF_LETTERS, 1, b"a");
    for (name, state, digest) in [
        ("a state, saved again", &state, abc),
        ("a block and a tail, saved again", &letters, LETTERS),
    ] {
        let list = [
            Import { bytes: state },
            Save { hasher: 0 },
            update(0, b"x"),
            Load { saved: 0 },
            finish(1),
        ];
        print_outcome_of::<Ripemd160>(rt, name, &list, &[digest], None)?;
    }
    let list = [Import { bytes: &[0; 91] }];
    let error = ReplayError::BadState { at: 0 };
    print_outcome_of::<Ripemd160>(rt, "a bad state", &list, &[], Some(error))
}

/// Prints the outcome of each list.
pub(crate) fn print_outcomes(rt: &HostRuntime) -> io::Result<()> {
    print_outcomes_by::<Ripemd160>(rt, OF_160.empty, OF_160.abc, HELLO_160)?;
    print_outcomes_by::<Ripemd320>(rt, OF_320.empty, OF_320.abc, HELLO_320)?;
    print_outcomes_of_imports(rt)
}
