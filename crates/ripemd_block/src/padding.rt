//! The padding, that of MD4 (RFC 1320), and the blocks of a padded message, which need not be stored.

ghost use Rattle.std.specs.Prelude.{◌≡◌, ◌-◌, ◌%◌, ◌<◌, ◌≤◌, ◌↔◌, ◌∷◌, ◌++◌, length, take, replicate, []};
ghost use Rattle.std.specs.List.{slice_get};
ghost use Rattle.ripemd_block.specs.Standard.{block_size, eight_bytes, word_bytes, length_place, with_padding, padded_message, blocks, partial_block};

use crate::arrays::{read_words, write_short};
use std::simd::prelude::*;

/// The last one or two blocks of a padded message.
#[derive(Clone, Copy, PartialEq, Eq, Debug)]
pub struct Padded {
    /// The block that begins with the tail.
    pub first: [u8; 64],
    /// The block after it, if the tail has 56 bytes or more.
    pub second: Option<[u8; 64]>,
}

/// The whole blocks of a message and its tail, the 0 to 63 bytes after them. Neither is copied.
#[inline(always)]
#[tactic(auto, unfolding(crate::specs::Standard::Hashing::blocks, crate::specs::Standard::Hashing::partial_block))]
pub fn whole_blocks(message: &[u8]) -> (&[[u8; 64]], &[u8])
    ensures whole { result.0.now ≡ blocks message.now }
    ensures tail { result.1.now ≡ partial_block message.now }
    ensures tail_len { length result.1.now ≡ length message.now % block_size }
{
    message.as_chunks::<64>()
}

/// How many blocks a padded message has (RFC 1320, section 3.1): its whole blocks and one more, or two if its tail has
/// 56 bytes or more.
#[tactic(auto, using(crate::proofs::PaddedBlocks::counts))]
pub fn block_count(message: &[u8]) -> usize
    ensures { result ≡ length (blocks (padded_message message.now)) }
{
    let (whole, tail) = whole_blocks(message);
    whole.len() + if tail.len() < 56 { 1 } else { 2 }
}

/// The padded message's block at `place`, counted from 0 (RFC 1320, section 3.1); `None` from `block_count(message)`
/// on.
#[tactic(auto, using(crate::proofs::PaddedBlocks::whole_block))]
pub fn pad_block(message: &[u8], place: usize) -> Option<[u8; 64]>
    ensures { result ≡ slice_get (blocks (padded_message message.now)) place }
{
    let (whole, tail) = whole_blocks(message);
    if place < whole.len() {
        return Some(whole[place]);
    }
    let bit_len = (message.len() as u64).wrapping_mul(8);
    let mut zeros = [[0; 64]; 2];
    let last = last_blocks(tail, bit_len, &mut zeros);
    let behind = place - whole.len();
    if behind < last.len() {
        Some(last[behind])
    } else {
        None
    }
}

/// The last one or two blocks of a message of `bit_len` bits: the tail, the byte 0x80, the fewest zero bytes that leave
/// room for the length, and the length in 8 bytes, least first (RFC 1320, sections 3.1 and 3.2). They are made in place
/// of `zeros`, two blocks of zero bytes.
#[inline(always)]
#[tactic(auto, using(crate::proofs::LastBlocks::with_padding_short, crate::proofs::LastBlocks::with_padding_long))]
pub fn last_blocks<'a>(tail: &[u8], bit_len: u64, zeros: &'a mut [[u8; 64]; 2]) -> &'a [[u8; 64]]
    requires short { length tail.now < block_size }
    requires zeros { zeros.old ≡ replicate 2 (replicate block_size 0) }
    ensures value { result.now ≡ blocks (with_padding tail.now bit_len) }
    ensures two { (length result.now ≡ 2) ↔ (length_place ≤ length tail.now) }
    ensures some { (0 < length result.now) × (length result.now ≤ 2) }
{
    write_marked(&mut zeros[0], tail);
    if tail.len() < 56 {
        write_length(&mut zeros[0], bit_len);
        &zeros[..1]
    } else {
        write_length(&mut zeros[1], bit_len);
        &zeros[..2]
    }
}

// Writes a tail and then 0x80.
#[inline(always)]
#[tactic(auto, using(crate::proofs::LastBlocks::marked_block))]
fn write_marked(block: &mut [u8; 64], tail: &[u8])
    requires short { length tail.now < block_size }
    requires zeros { block.old ≡ replicate block_size 0 }
    ensures { block.new ≡ tail.now ++ 0x80 ∷ replicate (63 - length tail.now) 0 }
{
    let len = tail.len();
    write_short(block, tail);
    block[len] = 0x80;
}

#[inline(always)]
fn write_length(block: &mut [u8; 64], bit_len: u64)
    ensures { block.new ≡ take length_place block.old ++ eight_bytes bit_len }
{
    block[56..].copy_from_slice(&bit_len.to_le_bytes());
}

// The last block, if the tail is fewer than fourteen whole words. It is assembled from words: a load of a block waits
// long for recent stores of smaller parts.
#[inline(always)]
pub(crate) fn padded_words(tail: &[u8], bit_len: u64) -> [u8; 64]
    requires words { length tail.now % 4 ≡ 0 }
    requires short { length tail.now < length_place }
    ensures { result ∷ [] ≡ blocks (with_padding tail.now bit_len) }
{
    let mut words = [0; 16];
    let (front, back) = words.split_at_mut(tail.len() / 4);
    let (behind, length) = back.split_at_mut(back.len() - 2);
    read_words(tail, front);
    behind[0] = 0x80;
    read_words(&bit_len.to_le_bytes(), length);
    block_of(&words)
}

// By vectors: the compiler does not join stores of single words.
#[inline(always)]
fn block_of(words: &[u32]) -> [u8; 64]
    requires { length words.now ≡ 16 }
    ensures { result ≡ word_bytes words.now }
{
    u32x16::from_slice(words).to_le_bytes().to_array()
}
