//! Counts of blocks from 2^55 - 1 on: no message of today is so long.

use super::cores::gives;
use crate::assert_each;
use ripemd_block::block_api::{
    BlockCore, ByteArray, FixedOutputCore, ResumableFunction, SerializableState, UpdateCore,
};
use ripemd_block::buffer::Buffer;

// So many blocks have 2^64 bits.
const WRAPPING: u64 = 1 << 55;

// The core of the start words and this count.
fn core_with<F: ResumableFunction>(count: u64) -> Option<BlockCore<F>> {
    let saved = BlockCore::<F>::default().serialize();
    let (words, _) = saved.as_bytes().split_last_chunk::<8>()?;
    let saved = F::SavedCore::from_slices(words, &count.to_le_bytes())?;
    BlockCore::deserialize(&saved).ok()
}

// Whether the core is saved as these words and this count.
fn is_saved_as<F: ResumableFunction>(core: &BlockCore<F>, words: &F::Digest, count: u64) -> bool {
    match core.serialize().as_bytes().split_last_chunk::<8>() {
        Some((saved, last)) => saved == words.as_bytes() && *last == count.to_le_bytes(),
        None => false,
    }
}

// Whether the core of this count finishes by one step from the start words, with the tail padded by
// this length in bits. The core must stay as it was.
fn digest_is<F: ResumableFunction>(count: u64, tail: &[u8], bit_len: u64) -> bool {
    let (Some(mut core), Some(mut buffer), Some(mut same)) = (
        core_with::<F>(count),
        Buffer::try_new(tail),
        Buffer::try_new(tail),
    ) else {
        return false;
    };
    let mut digest = F::Digest::zeros();
    core.finalize_fixed_core(&mut buffer, &mut digest);
    let mut last = BlockCore::<F>::default();
    let block = same.len64_padding_le(bit_len).first;
    last.update_blocks(&[block]);
    is_saved_as(&last, &digest, 1) && is_saved_as(&core, &F::output(F::start()), count)
}

// Whether the length in bits is taken modulo 2^64: 512 times each count is 2^64 - 512.
fn lengths_wrap<F: ResumableFunction>() -> bool {
    for count in [WRAPPING - 1, 2 * WRAPPING - 1, u64::MAX] {
        if !digest_is::<F>(count, b"", 0xffff_ffff_ffff_fe00)
            || !digest_is::<F>(count, b"a", 0xffff_ffff_ffff_fe08)
        {
            return false;
        }
    }
    digest_is::<F>(WRAPPING, b"", 0)
}

#[test]
fn large_counts_are_kept_whole(rt: HostRuntime) {
    assert_each!(rt; lengths_wrap());
}

// Whether 2^55 blocks have the digest `empty`, and the last count with the tail "a" the digest
// `last`, and whether the count then begins again.
fn counts_wrap<F: ResumableFunction>(empty: &str, last: &str) -> bool {
    let (Some(mut wrapping), Some(mut core)) = (core_with::<F>(WRAPPING), core_with::<F>(u64::MAX))
    else {
        return false;
    };
    let gives_last = gives(&mut core, b"a", last);
    let block = [b'a'; 64];
    core.update_blocks(&[block]);
    let words = F::output(F::step(F::start(), &block));
    gives(&mut wrapping, b"", empty) && gives_last && is_saved_as(&core, &words, 0)
}

#[test]
fn counts_begin_again(rt: HostRuntime) {
    assert_each!(rt; counts_wrap(empty, last_count));
}
