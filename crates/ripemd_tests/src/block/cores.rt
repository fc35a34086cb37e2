//! The block cores, and walks by the block functions alone.

use crate::assert_each;
use crate::bytes::counted;
use crate::digits::{HELLO_320, TWO_BLOCKS, is_written};
use ripemd_block::block_api::{
    BlockCore, BlockFunction, BufferKindUser, ByteArray, Eager, FixedOutputCore, HashMarker,
    HashMeaning, ListBlockFunction, Reset, ResumableFunction, Ripemd128Core, Ripemd160Core,
    Ripemd256Core, Ripemd320Core, UpdateCore, walk_digest, walk_message,
};
use ripemd_block::buffer::Buffer;
use ripemd_block::padding::{block_count, pad_block};

// Whether a core with this tail gives this digest.
pub(crate) fn gives<F: ListBlockFunction>(
    core: &mut BlockCore<F>,
    tail: &[u8],
    digits: &str,
) -> bool {
    let Some(mut buffer) = Buffer::try_new(tail) else {
        return false;
    };
    let mut out = F::Digest::zeros();
    core.finalize_fixed_core(&mut buffer, &mut out);
    is_written(out.as_bytes(), digits)
}

// A digest leaves the core as it was.
fn finishes<F: ListBlockFunction>(empty: &str, abc: &str) -> bool {
    let mut core = BlockCore::<F>::default();
    gives(&mut core, b"", empty) && gives(&mut core, b"abc", abc) && gives(&mut core, b"", empty)
}

// Whether each way to walk through a padded message has this output, which gives the state back.
fn walks<F: ResumableFunction>(two_blocks: &str) -> bool {
    let mut state = BlockCore::<F>::start();
    for place in 0..block_count(TWO_BLOCKS) {
        let Some(block) = pad_block(TWO_BLOCKS, place) else {
            return false;
        };
        state = BlockCore::<F>::step(state, &block);
    }
    let output = BlockCore::<F>::output(state);
    is_written(output.as_bytes(), two_blocks)
        && F::from_output(output) == Some(state)
        && walk_digest::<F>(F::start(), 0, TWO_BLOCKS) == state
        && walk_message::<F>(F::start(), 0, TWO_BLOCKS) == state
}

// A million times "a" is 15,625 blocks.
fn takes_a_million<F: ListBlockFunction>(million: &str) -> bool {
    let blocks = [[b'a'; 64]; 125];
    let mut core = BlockCore::<F>::default();
    for _ in 0..125 {
        core.update_blocks(&blocks[..0]);
        core.update_blocks(&blocks[..100]);
        core.update_blocks(&blocks[100..]);
    }
    gives(&mut core, b"", million)
}

// A duplicate and a clone keep the block, and a reset core has none.
fn copies<F: ListBlockFunction>(empty: &str, counted_digest: &str) -> bool {
    let mut core = BlockCore::<F>::default();
    core.update_blocks(&[counted(0)]);
    let mut duplicate = core.duplicate();
    let Ok(mut clone) = core.clone() else {
        return false;
    };
    core.reset();
    gives(&mut core, b"", empty)
        && gives(&mut duplicate, b"", counted_digest)
        && gives(&mut clone, b"", counted_digest)
}

#[test]
fn digests_of_others(rt: HostRuntime) {
    assert_each!(rt; finishes(empty, abc), walks(two_blocks), takes_a_million(million), copies(empty, counted));
    assert!(rt; gives(&mut Ripemd320Core::default(), b"Hello world!", HELLO_320));
}

// A type with all traits of cores: this compiles only with `Eager`.
fn is_core<C>() -> bool
where
    C: FixedOutputCore<BufferKind = Eager>
        + UpdateCore
        + Reset
        + HashMarker
        + HashMeaning
        + BufferKindUser,
{
    C::BLOCK_SIZE == 64
}

#[test]
fn traits(rt: HostRuntime) {
    assert!(rt; is_core::<Ripemd128Core>() && is_core::<Ripemd160Core>());
    assert!(rt; is_core::<Ripemd256Core>() && is_core::<Ripemd320Core>());
}
