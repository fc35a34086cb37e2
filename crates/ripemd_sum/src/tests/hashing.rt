//! What `hash_reader` reads, and its digest.

use super::doubles::SliceReader;
use super::{AMPLE, HELLO, HELLO_160, is_planned};
use crate::engine::hash_reader;
use crate::fault::ReadFault;
use crate::tracked::Tracked;
use ripemd::Ripemd160;
use std::alloc::{AllocError, Global};
use std::io::ErrorKind;
use std::test::Fail;

fn hash(reader: SliceReader, limit: u64) -> Result<[u8; 20], ReadFault> {
    let mut reader = Tracked::new(reader);
    let outcome = hash_reader::<Ripemd160, SliceReader>(&mut reader, limit);
    let _ = reader.into_inner();
    outcome
}

/// Whether a message has this digest if the limit is its length, and is too long for a limit one lower, if there is
/// one.
fn keeps_its_limit(alloc: Global, message: &[u8], digits: &str) -> Result<bool, AllocError> {
    let limit = message.len() as u64;
    let Ok(digest) = hash(SliceReader::new(message, usize::MAX), limit) else {
        return Ok(false);
    };
    if hex::encode(alloc, &digest)?.as_str() != digits {
        return Ok(false);
    }
    let Some(lower) = limit.checked_sub(1) else {
        return Ok(true);
    };
    let outcome = hash(SliceReader::new(message, usize::MAX), lower);
    Ok(matches!(outcome, Err(ReadFault::TooLong)))
}

// Some have more letters than one read takes. At least four other implementations give these digests.
#[test]
fn keeps_limits(rt: HostRuntime) -> Result<(), Fail> {
    let letters = [b'a'; 4097];
    for (message, digits) in [
        (HELLO, HELLO_160),
        (b"", "9c1185a5c5e9fc54612808977ee8f548b2258d31"),
        (b"a", "0bdc9d2d256b3ee9daae347be6f4dc835a467ffe"),
        (&letters[..4096], "e296be12671b8befb23b617baa53f7277d91e9ba"),
        (&letters[..], "185bb56774193212988f030c0f1e976284a4821f"),
    ] {
        assert!(rt; keeps_its_limit(rt.alloc(), message, digits)?, "{digits}");
    }
    Ok(())
}

// What was read before the error gives no digest.
#[test]
fn answers_a_read_that_fails(rt: HostRuntime) -> Result<(), Fail> {
    let kind = ErrorKind::TimedOut;
    let reader = SliceReader::new(HELLO, 3).failing_at(2, kind);
    match hash(reader, AMPLE) {
        Err(ReadFault::Read(error)) => assert!(rt; is_planned(rt.alloc(), &error, kind)?),
        _ => assert!(rt; false, "no error of a read"),
    }
    Ok(())
}
