//! The compression function of RIPEMD-160 (1996, pseudo-code): both lines start from the whole
//! state, and nothing is exchanged between them.

ghost use Rattle.std.specs.Prelude.{◌≡◌};
ghost use Rattle.ripemd_block.specs.Standard.{compress, ripemd160};
ghost use Rattle.ripemd_block.specs.States.{AreWords};

use crate::chaining::joint_state_of_five;
use crate::two_lanes::{lane_of_five, lanes_of_five, lines_after};

/// Takes one block into the state.
#[tactic(auto, using(crate::proofs::Stepping::word_sums_fit))]
pub(crate) fn compress(state: &mut [u32; 5], block: &[u8; 64])
    ensures state { state.new ≡ compress ripemd160 state.old block.now }
    ensures old_words { AreWords 5 state.old }
    ensures new_words { AreWords 5 state.new }
{
    let start = lanes_of_five(*state, *state);
    let end = lines_after(&[], block, start);
    *state = joint_state_of_five(*state, lane_of_five(end, 0), lane_of_five(end, 1));
}
