//! The message words of a block of each message.

ghost use Rattle.std.specs.Prelude.{◌≡◌, ◌<◌, ◌≤◌, ◌+◌, ◌*◌, ℕ, [], ◌∷◌, length, map, slice_index, slice_index_or};
ghost use Rattle.ripemd_block.specs.Standard.{message_word};
ghost use Rattle.ripemd_batch.specs.Lanes.{HasWords, list_at, targets};

use crate::four::Four;
use crate::lanes::Lanes;

/// The sixteen message words of the first `COUNT` blocks.
#[inline(always)]
pub(crate) fn message_words<V: Lanes>(blocks: &[&[u8; 64]; 8]) -> [V; 16]
    ensures { (j : ℕ) → j < V.COUNT
        → HasWords (map V.words result) j (list_at (targets blocks.now) j) }
{
    let [x0, x1, x2, x3] = V::four_message_words(blocks, 0);
    let [x4, x5, x6, x7] = V::four_message_words(blocks, 1);
    let [x8, x9, x10, x11] = V::four_message_words(blocks, 2);
    let [x12, x13, x14, x15] = V::four_message_words(blocks, 3);
    [
        x0, x1, x2, x3, x4, x5, x6, x7, x8, x9, x10, x11, x12, x13, x14, x15,
    ]
}

/// Message words `4 * i` to `4 * i + 3` of the four blocks from block `from` on.
#[inline(always)]
pub(crate) fn transposed_words(blocks: &[&[u8; 64]; 8], from: usize, i: usize) -> [Four; 4]
    requires blocks { from ≤ 4 }
    requires words { i < 4 }
    ensures { (k : ℕ) → k < 4 → slice_index_or result k []
        ≡ message_word (list_at (targets blocks.now) from) (4 * i + k)
        ∷ message_word (list_at (targets blocks.now) (from + 1)) (4 * i + k)
        ∷ message_word (list_at (targets blocks.now) (from + 2)) (4 * i + k)
        ∷ message_word (list_at (targets blocks.now) (from + 3)) (4 * i + k) ∷ [] }
{
    Four::transposed(
        words_of_block(blocks, from, i),
        words_of_block(blocks, from + 1, i),
        words_of_block(blocks, from + 2, i),
        words_of_block(blocks, from + 3, i),
    )
}

// Message words `4 * i` to `4 * i + 3` of block `j`.
#[inline(always)]
fn words_of_block(blocks: &[&[u8; 64]; 8], j: usize, i: usize) -> Four
    requires block { j < 8 }
    requires words { i < 4 }
    ensures { (k : ℕ) → k < 4 → slice_index result k
        ≡ message_word (list_at (targets blocks.now) j) (4 * i + k) }
{
    Four::of_block(blocks[j], i)
}
