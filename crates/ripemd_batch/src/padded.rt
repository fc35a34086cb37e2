//! The blocks of a message with its padding; the whole blocks are not copied.

ghost use Rattle.std.specs.Prelude.{◌≡◌, ◌-◌, ◌^◌, ◌<◌, [], ◌∷◌, ◌++◌, length, take, replicate, slice_index_or, ℕ, List};
ghost use Rattle.ripemd_block.specs.Standard.{block_size, eight_bytes, length_place, with_padding, blocks};
ghost use Rattle.ripemd_batch.specs.Lanes.{padded_after};

use ripemd::padding::{last_blocks, whole_blocks};
use std::marker::Model;

/// The whole blocks, and the last one or two. Contracts see the list of all.
#[derive(Drop)]
pub(crate) struct MessageBlocks<'a, 'b> {
    whole: &'a [[u8; 64]],
    last: &'b [[u8; 64]],
}

impl<'a, 'b> Model for MessageBlocks<'a, 'b> {
    ghost Value = { List (List ℕ) };

    ghost view = { λ b. b.whole.now ++ b.last.now };

    ghost invariant = { λ b. 0 < length b.last.now };
}

impl<'a, 'b> MessageBlocks<'a, 'b> {
    /// The blocks of a message. Its length field also counts the `before` bytes before it. `zeros` takes the last
    /// blocks.
    #[tactic(auto, using(ripemd_block::specs::Laws::Pieces::with_padding_rest))]
    #[inline(always)]
    pub(crate) fn of(
        before: u64,
        message: &'a [u8],
        zeros: &'b mut [[u8; 64]; 2],
    ) -> MessageBlocks<'a, 'b>
        requires { zeros.old ≡ replicate 2 (replicate block_size 0) }
        ensures { result ≡ blocks (padded_after before message.now) }
    {
        let (whole, tail) = whole_blocks(message);
        let bit_len = before.wrapping_add(message.len() as u64).wrapping_mul(8);
        MessageBlocks {
            whole,
            last: last_blocks(tail, bit_len, zeros),
        }
    }

    /// A block of zero bytes, if there is no message.
    #[inline(always)]
    pub(crate) fn none(zeros: &'b mut [[u8; 64]; 2]) -> MessageBlocks<'a, 'b>
        requires { zeros.old ≡ replicate 2 (replicate block_size 0) }
    {
        MessageBlocks {
            whole: &[],
            last: &zeros[..1],
        }
    }

    /// The number of blocks.
    #[inline(always)]
    pub(crate) fn count(&self) -> usize
        ensures value { result ≡ length self.now }
        ensures fits { result < 2 ^ 64 - 1 }
    {
        self.whole.len() + self.last.len()
    }

    /// Block `i`, or one of the last blocks if there is none.
    #[inline(always)]
    pub(crate) fn at(&self, i: usize) -> &[u8; 64]
        ensures { i < length self.now → result.now ≡ slice_index_or self.now i [] }
    {
        if i < self.whole.len() {
            return &self.whole[i];
        }
        let place = i - self.whole.len();
        if place < self.last.len() {
            &self.last[place]
        } else {
            &self.last[0]
        }
    }
}
