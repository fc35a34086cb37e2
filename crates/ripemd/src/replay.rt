//! Lists of commands over numbered hashers, and the digests that they give.

ghost use Rattle.std.specs.Prelude.{◌≡◌, [], ◌∷◌, ◌++◌, map, IfOk, IfErr, OnOk, MatchResult};
ghost use Rattle.ripemd.specs.Replay.{Machine, Does, Gives, Explains, Stops};
ghost use Rattle.ripemd.specs.Held.{Holds};

use crate::digest::Digest;
use ripemd_block::block_api::SerializableState;
use std::alloc::Global;
use thiserror::Error;

/// A command to hashers and saved states, each numbered from 0 in the order in which they are made.
#[derive(Clone, Copy, Debug)]
pub enum Command<'a> {
    /// Makes the next hasher, of the empty message.
    New,
    /// Updates a hasher with bytes.
    Update { hasher: usize, bytes: &'a [u8] },
    /// Resets a hasher.
    Reset { hasher: usize },
    /// Adds the digest of a hasher to the answer, and resets it.
    Finish { hasher: usize },
    /// Makes the next hasher, a copy of this one.
    Fork { hasher: usize },
    /// Makes the next saved state, of this hasher.
    Save { hasher: usize },
    /// Makes the next hasher from a saved state.
    Load { saved: usize },
    /// Makes the next hasher from the bytes of a state saved elsewhere.
    Import { bytes: &'a [u8] },
}

/// Why a list of commands has no answer; `at` is the place, counted from 0, of the first bad one.
#[derive(PartialEq, Eq, Debug, Drop, Error)]
pub enum ReplayError {
    /// There is no such hasher.
    #[error("command {at}: no hasher {hasher}")]
    NoHasher { at: usize, hasher: usize },
    /// There is no such saved state.
    #[error("command {at}: no saved state {saved}")]
    NoSaved { at: usize, saved: usize },
    /// The bytes to import are no saved state.
    #[error("command {at}: bad state")]
    BadState { at: usize },
    /// An allocation failed, before any bad command.
    #[error("out of memory")]
    OutOfMemory,
}

/// Runs commands in order, from no hashers and no saved states, and gives the digests of the finished hashers, in that
/// order.
///
/// Each digest is the hash of the bytes that its hasher got since `New`, `Reset` or `Finish`. A forked or loaded hasher
/// has the bytes of its original. After `Import`, the digest is that of the imported state, updated with the bytes
/// since.
///
/// # Errors
///
/// `NoHasher`, `NoSaved` or `BadState` at the first bad command; those before it ran. `OutOfMemory` if an allocation
/// fails first. A bad command and an empty list allocate nothing.
pub fn replay<D: Digest + SerializableState>(
    alloc: Global,
    commands: &[Command],
) -> Result<Vec<D::Output>, ReplayError>
    ensures digests { IfOk result (λ digests. Gives D.start D.step D.output D.is_valid D.state_bytes
        commands.now (map D.bytes_of digests.items)) }
    ensures error { IfErr result
        (Stops D.start D.step D.output D.is_valid D.state_bytes commands.now) }
{
    let mut hashers: Vec<D> = Vec::new(alloc);
    let mut arrays: Vec<D::Saved> = Vec::new(alloc);
    let mut digests: Vec<D::Output> = Vec::new(alloc);
    for (at, command) in commands.iter().enumerate() {
        match apply(&mut hashers, &mut arrays, &mut digests, at, command) {
            Ok(()) => {}
            Err(error) => return Err(error),
        }
    }
    Ok(digests)
}

// Runs the command at place `at`, as the machine does.
fn apply<D: Digest + SerializableState>(
    hashers: &mut Vec<D>,
    arrays: &mut Vec<D::Saved>,
    digests: &mut Vec<D::Output>,
    at: usize,
    command: &Command,
) -> Result<(), ReplayError>
    requires { (m : Machine)
        × Holds D.step D.is_valid D.state_bytes D.meaning D.saved_bytes D.bytes_of
        hashers.old.items arrays.old.items digests.old.items m }
    ensures { (m : Machine)
        → Holds D.step D.is_valid D.state_bytes D.meaning D.saved_bytes D.bytes_of
        hashers.old.items arrays.old.items digests.old.items m
        → MatchResult result
        (λ _. (n : Machine)
        × Does D.start D.step D.output D.is_valid D.state_bytes command.now m n
        × Holds D.step D.is_valid D.state_bytes D.meaning D.saved_bytes D.bytes_of
        hashers.new.items arrays.new.items digests.new.items n)
        (Explains D.start D.step D.output D.is_valid D.state_bytes m at command.now) }
{
    match *command {
        Command::New => add(hashers, D::new()),
        Command::Update { hasher, bytes } if hasher < hashers.len() => {
            hashers[hasher].update(bytes);
            Ok(())
        }
        Command::Reset { hasher } if hasher < hashers.len() => {
            hashers[hasher].reset();
            Ok(())
        }
        Command::Finish { hasher } if hasher < hashers.len() => {
            let digest = hashers[hasher].finalize_reset();
            add(digests, digest)
        }
        Command::Fork { hasher } if hasher < hashers.len() => {
            let copy = hashers[hasher].duplicate();
            add(hashers, copy)
        }
        Command::Save { hasher } if hasher < hashers.len() => {
            let array = hashers[hasher].serialize();
            add(arrays, array)
        }
        Command::Load { saved } if saved < arrays.len() => {
            let loaded = D::deserialize(&arrays[saved]).unwrap();
            add(hashers, loaded)
        }
        Command::Import { bytes } => match D::load_slice(bytes) {
            Ok(imported) => add(hashers, imported),
            Err(_) => Err(ReplayError::BadState { at }),
        },
        Command::Update { hasher, .. }
        | Command::Reset { hasher }
        | Command::Finish { hasher }
        | Command::Fork { hasher }
        | Command::Save { hasher } => Err(ReplayError::NoHasher { at, hasher }),
        Command::Load { saved } => Err(ReplayError::NoSaved { at, saved }),
    }
}

fn add<T: Drop>(all: &mut Vec<T>, value: T) -> Result<(), ReplayError>
    ensures ok { OnOk result (all.new.items ≡ all.old.items ++ value ∷ []) }
    ensures err { IfErr result (λ e. e ≡ ReplayError.OutOfMemory) }
{
    match all.push(value) {
        Ok(()) => Ok(()),
        Err(_) => Err(ReplayError::OutOfMemory),
    }
}
