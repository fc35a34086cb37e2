//! The compression function of RIPEMD-256 (1996, extension to 256 bits): each line starts from its
//! half of the state, and after each round the lines exchange a register: A, B, C and D in turn.

ghost use Rattle.std.specs.Prelude.{◌≡◌};
ghost use Rattle.ripemd_block.specs.Standard.{compress, ripemd256};
ghost use Rattle.ripemd_block.specs.States.{AreWords};

use crate::chaining::{double_state_of_four, lines_of_256};
use crate::two_lanes::{lane_of_four, lanes_of_four, lines_after};

/// Takes one block into the state.
#[tactic(auto, using(crate::proofs::Stepping::word_sums_fit))]
pub(crate) fn compress(state: &mut [u32; 8], block: &[u8; 64])
    ensures state { state.new ≡ compress ripemd256 state.old block.now }
    ensures old_words { AreWords 8 state.old }
    ensures new_words { AreWords 8 state.new }
{
    let (left, right) = lines_of_256(*state);
    let start = lanes_of_four(left, right);
    let end = lines_after(&[0, 1, 2, 3], block, start);
    *state = double_state_of_four(*state, lane_of_four(end, 0), lane_of_four(end, 1));
}
