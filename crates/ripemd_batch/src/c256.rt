//! The compression function of RIPEMD-256 (1996, extension to 256 bits) over many messages: each line starts from its
//! half of the state, and after each round the lines exchange a register: A, B, C, D in turn.

ghost use Rattle.std.specs.Prelude.{◌≡◌, ◌<◌, ℕ, List, map};
ghost use Rattle.ripemd_block.specs.Standard.{lines_from, double_state, compress, ripemd256};
ghost use Rattle.ripemd_block.specs.Code.{both_lines};
ghost use Rattle.ripemd_batch.specs.Lanes.{HasWords, lane_of};

use crate::lanes::Lanes;
use crate::lines::{VectorLines, exchange, round};

#[inline(always)]
fn lines_from<V: Lanes>(state: [V; 8]) -> VectorLines<[V; 4]>
    ensures { (j : ℕ) → j < V.COUNT → both_lines (lane_of 4 j (map V.words result.left))
        (lane_of 4 j (map V.words result.right))
        ≡ lines_from ripemd256 (lane_of 8 j (map V.words state)) }
{
    VectorLines {
        left: [state[0], state[1], state[2], state[3]],
        right: [state[4], state[5], state[6], state[7]],
    }
}

#[tactic(auto, using(crate::proofs::OneLane::word_in))]
#[inline(always)]
fn double_state<V: Lanes>(state: [V; 8], lines: VectorLines<[V; 4]>) -> [V; 8]
    ensures { (j : ℕ) → j < V.COUNT → lane_of 8 j (map V.words result)
        ≡ double_state (lane_of 8 j (map V.words state)) (lane_of 4 j (map V.words lines.left))
        (lane_of 4 j (map V.words lines.right)) }
{
    let left = lines.left;
    let right = lines.right;
    [
        state[0].add(left[0]),
        state[1].add(left[1]),
        state[2].add(left[2]),
        state[3].add(left[3]),
        state[4].add(right[0]),
        state[5].add(right[1]),
        state[6].add(right[2]),
        state[7].add(right[3]),
    ]
}

/// The states after a block of each message.
pub(crate) fn compress<V: Lanes>(state: [V; 8], words: &[V; 16]) -> [V; 8]
    ensures { (j : ℕ) → j < V.COUNT → (block : List ℕ) → HasWords (map V.words words.now) j block
        → lane_of 8 j (map V.words result)
        ≡ compress ripemd256 (lane_of 8 j (map V.words state)) block }
{
    let lines = lines_from(state);
    let lines = exchange(0, round::<[V; 4], 0>(words, lines));
    let lines = exchange(1, round::<[V; 4], 1>(words, lines));
    let lines = exchange(2, round::<[V; 4], 2>(words, lines));
    let lines = exchange(3, round::<[V; 4], 3>(words, lines));
    double_state(state, lines)
}
