//! The hashers.

use crate::assert_each;
use crate::digits::{HELLO_160, HELLO_320, OF_160, TWO_BLOCKS, is_written};
use ripemd::block_api::{
    BlockSizeUser, OutputSizeUser, Reset, Ripemd128Core, Ripemd160Core, Ripemd256Core,
    Ripemd320Core,
};
use ripemd::{BlockHasher, Digest, ListBlockFunction, Ripemd128, Ripemd160, Ripemd256, Ripemd320};

// Whether the hasher has this digest.
pub(crate) fn finishes<D: Digest>(hasher: D, digits: &str) -> bool {
    is_written(D::output_bytes(&hasher.finalize()), digits)
}

fn has_digest<D: Digest>(message: &[u8], digits: &str) -> bool {
    is_written(D::output_bytes(&D::digest(message)), digits)
}

fn digests<F: ListBlockFunction>(empty: &str, abc: &str, two_blocks: &str) -> bool {
    has_digest::<BlockHasher<F>>(b"", empty)
        && has_digest::<BlockHasher<F>>(b"abc", abc)
        && has_digest::<BlockHasher<F>>(TWO_BLOCKS, two_blocks)
}

// A hasher after so many pieces and the rest; if `around`, with empty pieces around them.
fn fed_in_pieces<D: Digest>(piece: &[u8], times: usize, rest: &[u8], around: bool) -> D {
    let mut hasher = D::new();
    for _ in 0..times {
        if around {
            hasher.update(b"");
        }
        hasher.update(piece);
    }
    hasher.update(rest);
    if around {
        hasher.update(b"");
    }
    hasher
}

// Whether a million times "a" has this digest, in pieces of these sizes.
fn takes_a_million<F: ListBlockFunction>(million: &str) -> bool {
    let letters = [b'a'; 1_000];
    for size in [1, 63, 64, 65, 1_000] {
        let rest = &letters[..1_000_000 % size];
        for around in [false, true] {
            let piece = &letters[..size];
            let hasher = fed_in_pieces::<BlockHasher<F>>(piece, 1_000_000 / size, rest, around);
            if !finishes::<BlockHasher<F>>(hasher, million) {
                return false;
            }
        }
    }
    true
}

// Whether each call that ends a message gives its digest, and leaves a hasher as new.
fn begins_again<F: ListBlockFunction>(empty: &str, abc: &str) -> bool {
    let mut hasher = BlockHasher::<F>::new_with_prefix(b"")
        .chain_update(b"a")
        .chain_update(b"")
        .chain_update(b"bc");
    let first = hasher.finalize_reset();
    let second = hasher.finalize_reset();
    let mut third = second;
    hasher.update(b"abc");
    hasher.finalize_into_reset(&mut third);
    let mut last = second;
    hasher.update(b"abc");
    hasher.finalize_into(&mut last);
    is_written(BlockHasher::<F>::output_bytes(&first), abc)
        && is_written(BlockHasher::<F>::output_bytes(&second), empty)
        && is_written(BlockHasher::<F>::output_bytes(&third), abc)
        && is_written(BlockHasher::<F>::output_bytes(&last), abc)
}

// Whether a duplicate goes on as its hasher is reset.
fn go_apart<F: ListBlockFunction>(empty: &str, abc: &str) -> bool {
    let mut hasher = BlockHasher::<F>::new_with_prefix(b"ab");
    let copy = hasher.duplicate();
    hasher.update(b"x");
    Digest::reset(&mut hasher);
    let is_abc = finishes::<BlockHasher<F>>(copy.chain_update(b"c"), abc);
    let is_empty = finishes::<BlockHasher<F>>(hasher, empty);
    is_abc && is_empty
}

// Whether a clone goes on as its hasher changes.
fn is_cloned<F: ListBlockFunction>(abc: &str) -> bool {
    let mut hasher = BlockHasher::<F>::new_with_prefix(b"ab");
    let cloned: Result<_, _> = hasher.clone();
    hasher.update(b"x");
    let block = [b'a'; 64];
    let after_a_block: Result<_, _> = BlockHasher::<F>::new_with_prefix(&block).clone();
    let digest = BlockHasher::<F>::digest(&block);
    match (cloned, after_a_block) {
        (Ok(hasher), Ok(other)) => {
            finishes::<BlockHasher<F>>(hasher.chain_update(b"c"), abc)
                && BlockHasher::<F>::output_bytes(&other.finalize())
                    == BlockHasher::<F>::output_bytes(&digest)
        }
        _ => false,
    }
}

#[test]
fn digests_of_others(rt: HostRuntime) {
    assert_each!(rt;
        digests(empty, abc, two_blocks),
        takes_a_million(million),
        begins_again(empty, abc),
        go_apart(empty, abc),
        is_cloned(abc)
    );
    assert!(rt; has_digest::<Ripemd160>(b"Hello world!", HELLO_160));
    assert!(rt; has_digest::<Ripemd320>(b"Hello world!", HELLO_320));
}

// The hasher by `default`, made new by the trait `Reset`.
#[test]
fn reset_by_trait(rt: HostRuntime) {
    let mut hasher = Ripemd160::default();
    hasher.update(&[b'a'; 100]);
    Reset::reset(&mut hasher);
    hasher.update(b"abc");
    assert!(rt; finishes::<Ripemd160>(hasher, OF_160.abc));
}

// Whether core and hasher have digests of this size and blocks of 64 bytes.
fn have_sizes<C, D>(size: usize) -> bool
where
    C: BlockSizeUser + OutputSizeUser,
    D: Digest + BlockSizeUser,
{
    C::BLOCK_SIZE == 64
        && D::BLOCK_SIZE == 64
        && C::OUTPUT_SIZE == size
        && D::OUTPUT_SIZE == size
        && D::output_size() == size
}

#[test]
fn sizes(rt: HostRuntime) {
    assert!(rt; have_sizes::<Ripemd128Core, Ripemd128>(16));
    assert!(rt; have_sizes::<Ripemd160Core, Ripemd160>(20));
    assert!(rt; have_sizes::<Ripemd256Core, Ripemd256>(32));
    assert!(rt; have_sizes::<Ripemd320Core, Ripemd320>(40));
}
