//! Hashers saved as bytes: which bytes, and which are taken.

use crate::assert_each;
use crate::bytes::{rest_of, tail_of};
use crate::digits::is_written;
use crate::hashers::finishes;
use ripemd::block_api::{BlockCore, ByteArray, Ripemd160Core};
use ripemd::digest::SerializableState;
use ripemd::state::DeserializeStateError;
use ripemd::{BlockHasher, Digest, ResumableFunction};

// The saved hasher with the start words, this count, length and tail.
fn saved_with<F: ResumableFunction>(
    count: u64,
    len: u8,
    tail: &[u8; 63],
) -> Option<F::SavedHasher> {
    let saved = BlockHasher::<F>::new().serialize();
    let (words, _) = saved.as_bytes().split_last_chunk::<72>()?;
    F::SavedHasher::from_slices(words, &rest_of(count, len, tail))
}

// The hasher of the start words, this count and this tail.
fn load_with<F: ResumableFunction>(count: u64, tail: &[u8]) -> Option<BlockHasher<F>> {
    let len = tail.len().min(63) as u8;
    BlockHasher::deserialize(&saved_with::<F>(count, len, &tail_of(tail))?).ok()
}

// Whether a new core is saved as the start words and the count 0, and a new hasher as that and 64
// zero bytes.
fn new_is_saved<F: ResumableFunction>(start: &str) -> bool {
    let core = BlockCore::<F>::default().serialize();
    let hasher = BlockHasher::<F>::new().serialize();
    let (Some((words, count)), Some((same, rest))) = (
        core.as_bytes().split_last_chunk::<8>(),
        hasher.as_bytes().split_last_chunk::<72>(),
    ) else {
        return false;
    };
    is_written(words, start) && same == words && *count == [0; 8] && *rest == [0; 72]
}

#[test]
fn new_hashers(rt: HostRuntime) {
    assert_each!(rt; new_is_saved(start));
}

// Whether these bytes lead from the count and tail `before` to those `after`.
fn goes_on<F: ResumableFunction>(before: (u64, &[u8]), bytes: &[u8], after: (u64, &[u8])) -> bool {
    let Some(mut hasher) = load_with::<F>(before.0, before.1) else {
        return false;
    };
    hasher.update(bytes);
    let rest = rest_of(after.0, after.1.len().min(63) as u8, &tail_of(after.1));
    hasher.serialize().as_bytes().ends_with(&rest)
}

// The last count begins again, and a tail of 63 bytes with one more is a block.
fn counts_and_tails<F: ResumableFunction>() -> bool {
    goes_on::<F>((0, b""), b"abc", (0, b"abc"))
        && goes_on::<F>((0, b""), &[b'a'; 64], (1, b""))
        && goes_on::<F>((0, b""), &[b'a'; 65], (1, b"a"))
        && goes_on::<F>((u64::MAX, b""), &[b'a'; 65], (0, b"a"))
        && goes_on::<F>((0, &[0xff; 63]), b"a", (1, b""))
}

// Whether a hasher loaded after "abc" has its digest.
fn loaded_finishes<F: ResumableFunction>(abc: &str) -> bool {
    load_with::<F>(0, b"abc").is_some_and(|hasher| finishes::<BlockHasher<F>>(hasher, abc))
}

// Whether bytes were taken; none if the hasher saves to others.
fn was_taken<F: ResumableFunction>(
    loaded: Result<BlockHasher<F>, DeserializeStateError>,
    bytes: &[u8],
) -> Option<bool> {
    match loaded {
        Ok(hasher) if hasher.serialize().as_bytes() == bytes => Some(true),
        Ok(_) => None,
        Err(DeserializeStateError) => Some(false),
    }
}

// Whether a saved hasher with this length and tail is taken, just if `wanted`, as an array and as a
// slice.
fn is_taken_if<F: ResumableFunction>(wanted: bool, len: u8, tail: &[u8; 63]) -> bool {
    let Some(saved) = saved_with::<F>(0, len, tail) else {
        return false;
    };
    let bytes = saved.as_bytes();
    was_taken::<F>(BlockHasher::deserialize(&saved), bytes) == Some(wanted)
        && was_taken::<F>(BlockHasher::load_slice(bytes), bytes) == Some(wanted)
}

// Of a tail of zeros, only lengths below 64 are taken.
fn lengths_below_64<F: ResumableFunction>() -> bool {
    for len in 0..=255_u8 {
        if !is_taken_if::<F>(len < 64, len, &[0; 63]) {
            return false;
        }
    }
    true
}

// A tail with one nonzero byte is taken only if its length reaches that byte.
fn bytes_of_the_tail<F: ResumableFunction>() -> bool {
    for len in 0..63_u8 {
        for place in 0..63_u8 {
            let mut tail = [0; 63];
            tail[place as usize] = 1;
            if !is_taken_if::<F>(place < len, len, &tail) {
                return false;
            }
        }
    }
    true
}

// What is saved after "abc" is taken, also with a length that takes in a zero byte.
fn abc_alone<F: ResumableFunction>() -> bool {
    let tail = tail_of(b"abc");
    is_taken_if::<F>(true, 3, &tail)
        && is_taken_if::<F>(true, 4, &tail)
        && is_taken_if::<F>(false, 2, &tail)
        && is_taken_if::<F>(false, 64, &tail)
        && is_taken_if::<F>(false, 3, &tail_of(b"abc\x01"))
}

#[test]
fn saved_and_loaded(rt: HostRuntime) {
    assert_each!(rt; counts_and_tails(), loaded_finishes(abc));
    assert_each!(rt; lengths_below_64(), bytes_of_the_tail(), abc_alone());
    assert!(rt; Ripemd160Core::load_slice(&[7; 28]).is_ok());
    assert!(rt; Ripemd160Core::load_slice(&[7; 27]).is_err());
    assert!(rt; Ripemd160Core::load_slice(&[7; 29]).is_err());
    assert!(rt; Ripemd160Core::load_slice(&[7; 92]).is_err());
}
