//! Digests of many messages, and tags of many texts under one key.

use crate::bytes::{counted, in_turn};
use crate::digits::{
    OF_128, OF_160, OF_256, OF_320, Ripemd128Function, Ripemd160Function, Ripemd256Function,
    Ripemd320Function, Vectors, are_written,
};
use crate::tags::PUBLISHED;
use ripemd::block_api::ByteArray;
use ripemd::{BlockHasher, Digest};
use ripemd_batch::ListHasher;
use ripemd_batch::groups::BatchFunction;
use ripemd_mac::Hmac;

// The digest of a message, or its tag under a key.
fn alone<F: BatchFunction>(key: Option<&[u8]>, message: &[u8]) -> F::Digest {
    match key {
        None => BlockHasher::<F>::digest(message),
        Some(key) => {
            let mut mac = Hmac::<BlockHasher<F>>::new(key);
            mac.update(message);
            mac.finalize()
        }
    }
}

// Whether a list, by eights and by fours, has the digests and the tags of its messages alone.
fn agrees<F: BatchFunction>(messages: &[&[u8]], places: &mut [F::Digest]) -> bool {
    let Some(outputs) = places.get_mut(..messages.len()) else {
        return false;
    };
    for key in [None, Some(b"key".as_slice())] {
        for lanes in [8, 4] {
            let hasher: ListHasher<BlockHasher<F>> = match key {
                None => ListHasher::new(),
                Some(key) => ListHasher::keyed(key),
            };
            hasher.in_vectors_of(lanes).hash_each(messages, outputs);
            for (output, message) in outputs.iter().zip(messages) {
                if output.as_bytes() != alone::<F>(key, message).as_bytes() {
                    return false;
                }
            }
        }
    }
    true
}

// Lengths around those where a message needs another block.
const LENGTHS: [usize; 20] = [
    0, 1, 32, 55, 56, 57, 63, 64, 65, 118, 119, 120, 121, 127, 128, 129, 184, 320, 447, 448,
];

// Whether lists of up to 40 messages of mixed lengths agree.
fn mixed_agree<F: BatchFunction>(places: &mut [F::Digest]) -> bool {
    let bytes: [u8; 500] = counted(0);
    let mut messages: [&[u8]; 40] = [&[]; 40];
    for i in 0..40usize {
        let length = LENGTHS[i.wrapping_mul(7) % 20];
        let Some(message) = bytes.get(i..i.saturating_add(length)) else {
            return false;
        };
        messages[i] = message;
    }
    for count in [0, 1, 2, 3, 4, 5, 8, 9, 12, 13, 24, 31, 40] {
        if !agrees::<F>(&messages[..count], places) {
            return false;
        }
    }
    true
}

// Whether lists of one length and another agree: some go by eights, some by fours, some one by one.
fn uneven_agree<F: BatchFunction>(places: &mut [F::Digest]) -> bool {
    let bytes: [u8; 6_400] = counted(0);
    for (first, length, count, other) in [
        (1, 4_448, 8, 1_824),
        (1, 4_448, 8, 1_888),
        (1, 2_528, 5, 1_888),
        (4, 3_168, 8, 0),
        (1, 6_400, 32, 0),
    ] {
        let (Some(long), Some(short)) = (bytes.get(..length), bytes.get(..other)) else {
            return false;
        };
        let mut messages: [&[u8]; 32] = [short; 32];
        for message in messages.iter_mut().take(first) {
            *message = long;
        }
        match messages.get(..count) {
            Some(messages) if agrees::<F>(messages, places) => {}
            _ => return false,
        }
    }
    true
}

fn all_agree<F: BatchFunction>(places: &mut [F::Digest]) -> bool {
    mixed_agree::<F>(places) && uneven_agree::<F>(places)
}

#[test]
fn lists_agree(rt: HostRuntime) {
    assert!(rt; all_agree::<Ripemd128Function>(&mut [[0; 16]; 40]));
    assert!(rt; all_agree::<Ripemd160Function>(&mut [[0; 20]; 40]));
    assert!(rt; all_agree::<Ripemd256Function>(&mut [[0; 32]; 40]));
    assert!(rt; all_agree::<Ripemd320Function>(&mut [[0; 40]; 40]));
}

fn have_outputs<F: BatchFunction>(
    hasher: &ListHasher<BlockHasher<F>>,
    messages: &[&[u8]],
    wanted: &[&str],
    places: &mut [F::Digest],
) -> bool {
    if messages.len() != places.len() {
        return false;
    }
    hasher.hash_each(messages, places);
    are_written::<BlockHasher<F>>(places, wanted)
}

// Nine messages, eight at once and one alone.
fn have_digests<F: BatchFunction>(of: &Vectors, places: &mut [F::Digest]) -> bool {
    let messages: [&[u8]; 9] = [b"", b"a", b"abc", b"", b"a", b"abc", b"", b"a", b"abc"];
    let [empty, a, abc] = [of.empty, of.a, of.abc];
    let wanted = [empty, a, abc, empty, a, abc, empty, a, abc];
    have_outputs::<F>(&ListHasher::new(), &messages, &wanted, places)
}

#[test]
fn published_digests(rt: HostRuntime) {
    assert!(rt; have_digests::<Ripemd128Function>(&OF_128, &mut [[0; 16]; 9]));
    assert!(rt; have_digests::<Ripemd160Function>(&OF_160, &mut [[0; 20]; 9]));
    assert!(rt; have_digests::<Ripemd256Function>(&OF_256, &mut [[0; 32]; 9]));
    assert!(rt; have_digests::<Ripemd320Function>(&OF_320, &mut [[0; 40]; 9]));
}

// Two texts in turn under a key.
fn have_tags<F: BatchFunction>(
    key: &[u8],
    texts: [&[u8]; 2],
    tags: [&str; 2],
    places: &mut [F::Digest],
) -> bool {
    let texts = in_turn(texts[0], texts[1]);
    let wanted = in_turn(tags[0], tags[1]);
    have_outputs::<F>(&ListHasher::keyed(key), &texts, &wanted, places)
}

// The last two texts of RFC 2286.
#[test]
fn published_tags(rt: HostRuntime) {
    let (key, _, a, a_128, a_160) = PUBLISHED[5];
    let (_, _, b, b_128, b_160) = PUBLISHED[6];
    assert!(rt; have_tags::<Ripemd128Function>(key, [a, b], [a_128, b_128], &mut [[0; 16]; 9]));
    assert!(rt; have_tags::<Ripemd160Function>(key, [a, b], [a_160, b_160], &mut [[0; 20]; 9]));
}
