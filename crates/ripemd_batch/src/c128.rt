//! The compression function of RIPEMD-128 (1996, pseudo-code) over many messages: both lines start
//! from the whole state and exchange nothing.

ghost use Rattle.std.specs.Prelude.{◌≡◌, ◌<◌, ℕ, List, map};
ghost use Rattle.ripemd_block.specs.Standard.{joint_state, compress, ripemd128};
ghost use Rattle.ripemd_batch.specs.Lanes.{HasWords, lane_of};

use crate::lanes::Lanes;
use crate::lines::{VectorLines, round};

#[inline(always)]
fn joint_state<V: Lanes>(state: [V; 4], lines: VectorLines<[V; 4]>) -> [V; 4]
    ensures { (j : ℕ) → j < V.COUNT → lane_of 4 j (map V.words result)
        ≡ joint_state (lane_of 4 j (map V.words state)) (lane_of 4 j (map V.words lines.left))
        (lane_of 4 j (map V.words lines.right)) }
{
    let left = lines.left;
    let right = lines.right;
    [
        state[1].add(left[2]).add(right[3]),
        state[2].add(left[3]).add(right[0]),
        state[3].add(left[0]).add(right[1]),
        state[0].add(left[1]).add(right[2]),
    ]
}

/// The states after a block of each message.
#[tactic(auto, unfolding(ripemd_block::specs::Standard::Compression::compress, ripemd_block::specs::Standard::Compression::lines_after))]
pub(crate) fn compress<V: Lanes>(state: [V; 4], words: &[V; 16]) -> [V; 4]
    ensures { (j : ℕ) → j < V.COUNT → (block : List ℕ) → HasWords (map V.words words.now) j block
        → lane_of 4 j (map V.words result)
        ≡ compress ripemd128 (lane_of 4 j (map V.words state)) block }
{
    let lines = VectorLines {
        left: state,
        right: state,
    };
    let lines = round::<[V; 4], 0>(words, lines);
    let lines = round::<[V; 4], 1>(words, lines);
    let lines = round::<[V; 4], 2>(words, lines);
    let lines = round::<[V; 4], 3>(words, lines);
    joint_state(state, lines)
}
