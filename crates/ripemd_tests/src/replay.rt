//! Lists of commands. `ripemd_allocations` has those whose allocations fail.

mod errors;

use crate::digits::{OF_160, are_written};
use ripemd::digest::SerializableState;
use ripemd::replay::{Command, replay};
use ripemd::{Digest, Ripemd160};
use std::alloc::{AllocError, Global};
use std::test::Fail;

// Whether the commands give these digests.
fn gives(alloc: Global, commands: &[Command], wanted: &[&str]) -> bool {
    match replay::<Ripemd160>(alloc, commands) {
        Ok(digests) => are_written::<Ripemd160>(digests.as_slice(), wanted),
        Err(_) => false,
    }
}

// Hundreds of hashers, and hundreds of saved states of the last, which took in "abc".
fn many_commands(alloc: Global) -> Result<Vec<Command<'static>>, AllocError> {
    let mut commands = Vec::new(alloc);
    for _ in 0..300 {
        commands.push(Command::New)?;
    }
    let bytes = b"abc";
    commands.push(Command::Update { hasher: 299, bytes })?;
    for _ in 0..300 {
        commands.push(Command::Save { hasher: 299 })?;
    }
    commands.push(Command::Load { saved: 299 })?;
    commands.push(Command::Finish { hasher: 300 })?;
    Ok(commands)
}

#[test]
fn many_hashers(rt: HostRuntime) -> Result<(), Fail> {
    let commands = many_commands(rt.alloc())?;
    assert!(rt; gives(rt.alloc(), commands.as_slice(), &[OF_160.abc]));
    Ok(())
}

// Each command, of hashers that began from an imported state.
#[test]
fn imported_hashers(rt: HostRuntime) {
    let state = Ripemd160::new_with_prefix(b"ab").serialize();
    let bytes = b"c";
    let commands = [
        Command::Import { bytes: &state },
        Command::Fork { hasher: 0 },
        Command::Save { hasher: 1 },
        Command::Reset { hasher: 0 },
        Command::Load { saved: 0 },
        Command::Update { hasher: 2, bytes },
        Command::Finish { hasher: 0 },
        Command::Update { hasher: 1, bytes },
        Command::Finish { hasher: 1 },
        Command::Finish { hasher: 2 },
        Command::Finish { hasher: 2 },
    ];
    let wanted = [OF_160.empty, OF_160.abc, OF_160.abc, OF_160.empty];
    assert!(rt; gives(rt.alloc(), &commands, &wanted));
}
