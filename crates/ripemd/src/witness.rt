//! From a collision of a hash to a collision of its block function.
//!
//! Two messages are hashed side by side, the one with more blocks ahead, so that both end together. If they end in one
//! state, the last place where their states or their blocks differ is a collision of the block function.

ghost use Rattle.std.specs.Prelude.{◌≡◌, ◌≢◌, ◌<◌, ◌≤◌, ◌^◌, ◌↔◌, ◌⊎◌, IsTrue, IsNone, IfSome, [], length, take, slice_index_or};
ghost use Rattle.ripemd_block.specs.Standard.{padded_message, blocks, walk, hash};
ghost use Rattle.ripemd.specs.Collisions.{pair_of, state_after, IsCollision, IsOnlyCollision};

pub use ripemd_block::block_api::BlockFunction;
use ripemd_block::padding::{block_count, pad_block};

/// A block of a padded message, and the state before it.
#[derive(Clone, Copy, PartialEq, Eq, Debug)]
pub struct Meeting<S> {
    /// The place of the block, counted from 0.
    pub place: usize,
    /// The state before the block.
    pub state: S,
    /// The block.
    pub block: [u8; 64],
}

/// Two meetings, one in each of two messages.
#[derive(Clone, Copy, PartialEq, Eq, Debug)]
pub struct Collision<S> {
    /// The one in the first message.
    pub left: Meeting<S>,
    /// The one in the second message.
    pub right: Meeting<S>,
}

/// Gives the collision of the block function to which two different messages with the same hash lead: a place in each,
/// equally far from the end, where the pairs of state and block differ, the block function takes both to one state, and
/// all later pairs agree. There is exactly one.
///
/// `None` exactly if the messages are equal or their hashes differ. Each message has fewer than 2^61 bytes, since
/// longer ones of different lengths can end in the same length in bits. It hashes both messages once and allocates
/// nothing.
pub fn collision_witness<F: BlockFunction>(a: &[u8], b: &[u8]) -> Option<Collision<F::State>>
    requires a_short { length a.now < 2 ^ 61 }
    requires b_short { length b.now < 2 ^ 61 }
    ensures none { IsNone result ↔ ((a.now ≡ b.now)
        ⊎ (hash F.start_of F.step_of F.output_of a.now
        ≢ hash F.start_of F.step_of F.output_of b.now)) }
    ensures some { IfSome result (IsCollision F.start_of F.step_of a.now b.now) }
    ensures only { IsOnlyCollision F.start_of F.step_of a.now b.now result }
{
    let left_count = block_count(a);
    let right_count = block_count(b);
    let left_ahead = left_count.saturating_sub(right_count);
    let right_ahead = right_count.saturating_sub(left_count);
    let mut left_state = state_at::<F>(a, left_ahead);
    let mut right_state = state_at::<F>(b, right_ahead);
    let mut last_difference = None;
    for i in 0..left_count - left_ahead {
        let left = meet(a, left_ahead + i, left_state);
        let right = meet(b, right_ahead + i, right_state);
        if !same_pair::<F>(&left, &right) {
            last_difference = Some(Collision { left, right });
        }
        left_state = F::step(left.state, &left.block);
        right_state = F::step(right.state, &right.block);
    }
    if left_state == right_state {
        last_difference
    } else {
        None
    }
}

/// Whether the two pairs of state and block differ, and the block function takes both to one state. Places do not
/// count.
pub fn check_collision<F: BlockFunction>(collision: &Collision<F::State>) -> bool
    ensures { IsTrue result
        ↔ ((pair_of collision.now.left ≢ pair_of collision.now.right)
        × (state_after F.step_of (pair_of collision.now.left)
        ≡ state_after F.step_of (pair_of collision.now.right))) }
{
    let left = collision.left;
    let right = collision.right;
    !same_pair::<F>(&left, &right)
        && F::step(left.state, &left.block) == F::step(right.state, &right.block)
}

// The state before the block at a place, or at the end.
fn state_at<F: BlockFunction>(message: &[u8], place: usize) -> F::State
    requires { place ≤ length (blocks (padded_message message.now)) }
    ensures value { result
        ≡ walk F.step_of F.start_of (take place (blocks (padded_message message.now))) }
    ensures valid { F.is_state result }
{
    let mut state = F::start();
    for i in 0..place {
        state = F::step(state, &meet(message, i, state).block);
    }
    state
}

fn meet<S: Copy>(message: &[u8], place: usize, state: S) -> Meeting<S>
    requires { place < length (blocks (padded_message message.now)) }
    ensures place { result.place ≡ place }
    ensures state { result.state ≡ state }
    ensures block { result.block
        ≡ slice_index_or (blocks (padded_message message.now)) place [] }
{
    Meeting {
        place,
        state,
        block: pad_block(message, place).unwrap(),
    }
}

fn same_pair<F: BlockFunction>(left: &Meeting<F::State>, right: &Meeting<F::State>) -> bool
    ensures { IsTrue result ↔ (pair_of left.now ≡ pair_of right.now) }
{
    left.state == right.state && left.block == right.block
}
