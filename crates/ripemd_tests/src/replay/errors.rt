//! The errors of lists with a bad command.

use ripemd::digest::SerializableState;
use ripemd::replay::Command::{Finish, Fork, Import, Load, New, Save, Update};
use ripemd::replay::{Command, ReplayError, replay};
use ripemd::{Digest, Ripemd160};
use std::alloc::{AllocError, Global};
use std::test::Fail;

// Whether the commands stop with this error, which has this text.
fn stop(
    alloc: Global,
    commands: &[Command],
    error: ReplayError,
    text: &str,
) -> Result<bool, AllocError> {
    let is_right = match replay::<Ripemd160>(alloc, commands) {
        Ok(_) => false,
        Err(found) => found == error,
    };
    Ok(is_right && format!(in alloc; "{error}")?.as_str() == text)
}

#[test]
fn bad_commands(rt: HostRuntime) -> Result<(), Fail> {
    let alloc = rt.alloc();
    let bytes = b"x";
    let error = ReplayError::NoHasher { at: 0, hasher: 0 };
    let commands = [Update { hasher: 0, bytes }];
    assert!(rt; stop(alloc, &commands, error, "command 0: no hasher 0")?);
    let error = ReplayError::NoHasher { at: 2, hasher: 1 };
    let commands = [New, Finish { hasher: 0 }, Fork { hasher: 1 }];
    assert!(rt; stop(alloc, &commands, error, "command 2: no hasher 1")?);
    let error = ReplayError::NoSaved { at: 1, saved: 0 };
    let commands = [New, Load { saved: 0 }];
    assert!(rt; stop(alloc, &commands, error, "command 1: no saved state 0")?);
    let error = ReplayError::NoSaved { at: 2, saved: 1 };
    let commands = [New, Save { hasher: 0 }, Load { saved: 1 }];
    assert!(rt; stop(alloc, &commands, error, "command 2: no saved state 1")?);
    Ok(())
}

// Whether the bytes are a bad state, in the first and in the second command.
fn is_bad_state(alloc: Global, bytes: &[u8]) -> Result<bool, AllocError> {
    let commands = [New, Import { bytes }];
    let first = ReplayError::BadState { at: 0 };
    let second = ReplayError::BadState { at: 1 };
    Ok(
        stop(alloc, &commands[1..], first, "command 0: bad state")?
            && stop(alloc, &commands, second, "command 1: bad state")?,
    )
}

#[test]
fn bad_states(rt: HostRuntime) -> Result<(), Fail> {
    let alloc = rt.alloc();
    let abc = Ripemd160::new_with_prefix(b"abc").serialize();
    let mut too_far = abc;
    too_far[28] = 64;
    assert!(rt; is_bad_state(alloc, &[])?);
    assert!(rt; is_bad_state(alloc, &[0; 91])?);
    assert!(rt; is_bad_state(alloc, &[0; 93])?);
    assert!(rt; is_bad_state(alloc, &too_far)?);
    let bytes = b"x";
    let commands = [Import { bytes: &abc }, Update { hasher: 1, bytes }];
    let error = ReplayError::NoHasher { at: 1, hasher: 1 };
    assert!(rt; stop(alloc, &commands, error, "command 1: no hasher 1")?);
    Ok(())
}
