//! The callers that the documents show.

use crate::digits::{OF_160, Ripemd160Function, bytes_of};
use crate::tags::PUBLISHED;
use ripemd::block_api::SerializableState;
use ripemd::replay::Command;
use ripemd::state::DeserializeStateError;
use ripemd::{Ripemd128, Ripemd160};
use ripemd_uses::batch;
use ripemd_uses::block::{digest_of_short, loaded_core};
use ripemd_uses::calling::{
    collision_of_160, digest_of, digest_of_reader, digest_of_saved, digest_of_three,
    digest_put_aside, digests_of, has_digest, has_digest_by, places_of_collision, prefixed_digest,
    prefixed_digest_160, saved_has_digest, start_saved, toy_digest, toy_put_aside, toy_replay,
    update_saved,
};
use ripemd_uses::commands::digests_of_ends;
use ripemd_uses::readme::digest_of_two;
use ripemd_uses::tags::{
    derived_key, has_tag, has_tag_by, saved_after, tag_of_saved, tag_of_two, tags_of_two, toy_tag,
};
use std::io;
use std::io::{ErrorKind, Read};

// The authors' digest of "abc" by RIPEMD-160.
fn abc() -> [u8; 20] {
    bytes_of(OF_160.abc)
}

// That by RIPEMD-128.
const ABC_128: [u8; 16] = [
    0xc1, 0x4a, 0x12, 0x19, 0x9c, 0x66, 0xe4, 0xba, 0x84, 0x63, 0x6b, 0x0f, 0x69, 0x14, 0x4c, 0x77,
];

// The first tag of RFC 2286.
fn hi_there() -> [u8; 20] {
    bytes_of(PUBLISHED[0].4)
}

#[test]
fn digests(rt: HostRuntime) {
    assert!(rt; digest_of_short(b"abc") == abc());
    assert!(rt; digest_of(b"abc") == abc());
    let (by_128, by_160, _, _) = digests_of(b"abc");
    assert!(rt; by_128 == ABC_128 && by_160 == abc());
    assert!(rt; digest_of_two(b"a", b"bc") == abc());
    assert!(rt; digest_of_three(b"a", b"", b"bc") == abc());
    assert!(rt; prefixed_digest_160(b"ab", b"c") == abc());
    assert!(rt; prefixed_digest::<Ripemd128>(b"ab", b"c") == ABC_128);
}

#[test]
fn commands(rt: HostRuntime) {
    let digests = digests_of_ends(rt.alloc(), b"a", b"bc", b"bc");
    assert!(rt; digests.is_ok_and(|digests| digests.as_slice() == [abc(), abc()].as_slice()));
}

#[test]
fn comparisons(rt: HostRuntime) {
    assert!(rt; has_digest(b"abc", &abc()));
    assert!(rt; !has_digest(b"abd", &abc()));
    assert!(rt; has_digest_by::<Ripemd128>(b"abc", &ABC_128));
    assert!(rt; !has_digest_by::<Ripemd128>(b"abc", &ABC_128[..15]));
    assert!(rt; !has_digest_by::<Ripemd128>(b"abc", &abc()));
}

// What is saved after some pieces.
fn saved_after_pieces(pieces: &[&[u8]]) -> Result<[u8; 92], DeserializeStateError> {
    let mut saved = start_saved();
    for piece in pieces {
        saved = update_saved(&saved, piece)?;
    }
    Ok(saved)
}

#[test]
fn saved_states(rt: HostRuntime) {
    let saved = saved_after_pieces(&[b"a", b"", b"bc"]).unwrap_or([0xff; 92]);
    assert!(rt; digest_of_saved(&saved) == Ok(abc()));
    assert!(rt; saved_has_digest(&saved, &abc()) == Ok(true));
    assert!(rt; saved_has_digest(&start_saved(), &abc()) == Ok(false));
    assert!(rt; update_saved(&[0xff; 92], b"a").is_err());
    assert!(rt; digest_of_saved(&[0xff; 92]).is_err());
    assert!(rt; saved_has_digest(&[0xff; 92], &abc()).is_err());
    assert!(rt; loaded_core(&[7; 28]).serialize() == [7; 28]);
}

/// A reader whose reads all fail.
#[derive(Drop)]
struct Broken;

impl Read for Broken {
    fn read(&mut self, _buf: &mut [u8]) -> io::Result<usize> {
        Err(io::Error::from(ErrorKind::TimedOut))
    }
}

#[test]
fn readers(rt: HostRuntime) {
    for (limit, digest) in [(3, Some(abc())), (2, None)] {
        let mut reader: &[u8] = b"abc";
        assert!(rt;
            digest_of_reader(&mut reader, limit).ok() == Some(digest),
            "{limit} bytes"
        );
    }
    let failed = digest_of_reader(&mut Broken, 3);
    assert!(rt; failed.is_err_and(|error| error.kind() == ErrorKind::TimedOut));
}

// The page's block function reads only the first byte of each block.
#[test]
fn collisions(rt: HostRuntime) {
    assert!(rt; collision_of_160(b"abc", b"abd").is_none());
    assert!(rt; collision_of_160(b"abc", b"abc").is_none());
    assert!(rt; places_of_collision(b"abc", b"axx") == Some((0, 0)));
    assert!(rt; places_of_collision(b"abc", b"xbc").is_none());
    let mut a = [0; 65];
    a[0] = 1;
    a[64] = 2;
    let mut b = [0; 65];
    b[0] = 2;
    b[64] = 1;
    assert!(rt; places_of_collision(&a, &b) == Some((1, 1)));
}

// The toy's digest is the exclusive or of the first byte of each block; 64 bytes have a second block.
#[test]
fn toys(rt: HostRuntime) {
    assert!(rt; toy_digest(b"a", b"bc") == [b'a']);
    assert!(rt; toy_digest(&[b'x'; 60], &[b'x'; 4]) == [b'x' ^ 0x80]);
    assert!(rt; toy_put_aside(b"a", b"bc") == [b'a']);
    assert!(rt; toy_put_aside(&[b'x'; 60], &[b'x'; 4]) == [b'x' ^ 0x80]);
    assert!(rt; digest_put_aside::<Ripemd160>(b"a", b"bc") == abc());
}

// A saved and loaded hasher.
static LOADED: [Command; 5] = [
    Command::New,
    Command::Update {
        hasher: 0,
        bytes: b"abc",
    },
    Command::Save { hasher: 0 },
    Command::Load { saved: 0 },
    Command::Finish { hasher: 1 },
];

#[test]
fn toy_commands(rt: HostRuntime) {
    let digests = toy_replay(rt.alloc(), &LOADED);
    assert!(rt; digests.is_ok_and(|digests| digests.as_slice() == [[b'a']].as_slice()));
}

#[test]
fn tags(rt: HostRuntime) {
    let key = [0x0b; 20];
    let tag_128: [u8; 16] = bytes_of(PUBLISHED[0].3);
    assert!(rt; tag_of_two(&key, b"Hi", b" There") == hi_there());
    assert!(rt; has_tag(&key, b"Hi There", &hi_there()));
    assert!(rt; !has_tag(&key, b"Hi There", &hi_there()[..19]));
    assert!(rt; !has_tag(&key, b"Hi there", &hi_there()));
    assert!(rt; has_tag_by::<Ripemd128>(&key[..16], b"Hi There", &tag_128));
}

#[test]
fn tags_of_many(rt: HostRuntime) {
    let (first, second) = tags_of_two(&[0x0b; 20], b"Hi There", b"Hi There");
    assert!(rt; first == hi_there() && second == hi_there());
    let saved = saved_after::<Ripemd160Function>(&[0x0b; 20], b"Hi");
    let loaded = tag_of_saved::<Ripemd160Function>(&saved, b" There");
    assert!(rt; loaded.is_ok_and(|tag| tag == hi_there()));
}

// The expected values come from Python's `hmac` over a textbook program of the toy.
#[test]
fn toy_tags(rt: HostRuntime) {
    assert!(rt; toy_tag(&[0x0b; 20], b"Hi There") == [0x22]);
    assert!(rt; toy_tag(&[], &[]) == [0xea]);
}

// The keys that OpenSSL derives from "password" and "salt", and from "secret" and "pepper".
static KEYS: [&str; 2] = [
    "768dcc27b7bfdef794a1ff9d935090fcf598555e66913180b9ce363c615e9ed9",
    "d92ac58575f940a39c429575de3180045194d5488ed8de5ccd0ddf67fb81e548",
];

#[test]
fn keys(rt: HostRuntime) {
    assert!(rt; derived_key(b"password", b"salt", 2) == Ok(bytes_of(KEYS[0])));
    assert!(rt; derived_key(b"password", b"salt", 0).is_err());
}

#[test]
fn keys_of_many(rt: HostRuntime) {
    let passwords: [&[u8]; 2] = [b"password", b"secret"];
    let salts: [&[u8]; 2] = [b"salt", b"pepper"];
    let mut keys = [0; 64];
    assert!(rt; batch::keys_of(&passwords, &salts, 2, &mut keys).is_ok());
    let wanted: [[u8; 32]; 2] = [bytes_of(KEYS[0]), bytes_of(KEYS[1])];
    assert!(rt; keys.as_chunks::<32>().0 == wanted.as_slice());
    assert!(rt; batch::keys_of(&passwords, &salts, 0, &mut keys).is_err());
}

// Records with right, wrong and missing digests, and their tags.
#[test]
fn records(rt: HostRuntime) {
    let mut found = [[0; 20]; 2];
    assert!(rt; batch::have_digests(&[b"abc", b"abc"], &[abc(), abc()], &mut found));
    assert!(rt; !batch::have_digests(&[b"abc", b"abd"], &[abc(), abc()], &mut found));
    assert!(rt; !batch::have_digests(&[b"abc", b"abc"], &[abc()], &mut found));
    let mut tags = [[0; 20]; 2];
    batch::tags_of(&[0x0b; 20], &[b"Hi There", b"Hi There"], &mut tags);
    assert!(rt; tags == [hi_there(), hi_there()]);
}
