//! The compression function of RIPEMD-128 (1996, pseudo-code): both lines start from the whole
//! state and exchange nothing.

ghost use Rattle.std.specs.Prelude.{◌≡◌};
ghost use Rattle.ripemd_block.specs.Standard.{compress, ripemd128};
ghost use Rattle.ripemd_block.specs.States.{AreWords};

use crate::chaining::joint_state_of_four;
use crate::two_lanes::{lane_of_four, lanes_of_four, lines_after};

/// Takes one block into the state.
#[tactic(auto, using(crate::proofs::Stepping::word_sums_fit))]
pub(crate) fn compress(state: &mut [u32; 4], block: &[u8; 64])
    ensures state { state.new ≡ compress ripemd128 state.old block.now }
    ensures old_words { AreWords 4 state.old }
    ensures new_words { AreWords 4 state.new }
{
    let start = lanes_of_four(*state, *state);
    let end = lines_after(&[], block, start);
    *state = joint_state_of_four(*state, lane_of_four(end, 0), lane_of_four(end, 1));
}
