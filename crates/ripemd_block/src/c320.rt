//! The compression function of RIPEMD-320 (1996, extension to 320 bits): each line starts from its
//! half of the state, and after each round the lines exchange a register: B, D, A, C and E in turn.

ghost use Rattle.std.specs.Prelude.{◌≡◌};
ghost use Rattle.ripemd_block.specs.Standard.{compress, ripemd320};
ghost use Rattle.ripemd_block.specs.States.{AreWords};

use crate::chaining::{double_state_of_five, lines_of_320};
use crate::two_lanes::{lane_of_five, lanes_of_five, lines_after};

/// Takes one block into the state.
#[tactic(auto, using(crate::proofs::Stepping::word_sums_fit))]
pub(crate) fn compress(state: &mut [u32; 10], block: &[u8; 64])
    ensures state { state.new ≡ compress ripemd320 state.old block.now }
    ensures old_words { AreWords 10 state.old }
    ensures new_words { AreWords 10 state.new }
{
    let (left, right) = lines_of_320(*state);
    let start = lanes_of_five(left, right);
    let end = lines_after(&[1, 3, 0, 2, 4], block, start);
    *state = double_state_of_five(*state, lane_of_five(end, 0), lane_of_five(end, 1));
}
