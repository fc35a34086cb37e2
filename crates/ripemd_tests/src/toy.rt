//! A hash function with a state and a digest of two bytes, so that collisions are easy to make.

ghost use Rattle.std.specs.Prelude.{◌+◌, ◌/◌, ◌%◌, [], ◌∷◌, slice_index, ⊤};
ghost use Rattle.std.specs.List.{fold};
ghost use Rattle.ripemd.specs.States.{HashState, IsHashState};

use crate::bytes::sum_from;
use ripemd::digest::{BlockDigest, BlockFunction, Digest, HashMeaning, OutputSizeUser};
use ripemd::witness::{Collision, Meeting, check_collision};
use ripemd::{BlockHasher, ListBlockFunction};
use std::marker::Model;

/// The block function: a step adds all bytes of the block to the first byte of the state, and the last to half of the
/// second.
pub enum SumsFunction {}

impl BlockFunction for SumsFunction {
    type State = [u8; 2];

    type Digest = [u8; 2];

    ghost is_state = { λ _. ⊤ };

    ghost start_of = { 0 ∷ 0 ∷ [] };

    ghost step_of = { λ state block.
        fold (λ sum byte. (sum + byte) % 256) (slice_index state 0) block
        ∷ (slice_index state 1 / 2 + slice_index block 63) % 256 ∷ [] };

    ghost output_of = { λ state. state };

    fn start() -> [u8; 2] {
        [0, 0]
    }

    fn step(state: [u8; 2], block: &[u8; 64]) -> [u8; 2] {
        let last = (state[1] / 2).wrapping_add(block[63]);
        [sum_from(state[0], block), last]
    }

    fn output(state: [u8; 2]) -> [u8; 2] {
        state
    }

    ghost use Rattle.std.proofs.lemmas.Slice.Eq.{bytes_eq-Decides};

    ghost output_injective = { λ s t _ _ same. same };

    ghost same_state = { λ s t same. (bytes_eq-Decides s t).0 same };
}

impl ListBlockFunction for SumsFunction {
    ghost list = { λ state. state };

    ghost are_words = { Self.is_state };

    ghost step = { Self.step_of };

    ghost output = { Self.output_of };

    ghost use Rattle.std.proofs.Common.{rules};
    ghost use Rattle.ripemd.specs.OverLists.{of_arrays};

    ghost over_lists = { of_arrays };

    ghost digest_most = { Prim.search rules };
}

/// The hasher, which implements `Digest` and `BlockDigest` itself, as any crate can.
#[derive(Drop)]
pub struct Sums {
    hasher: BlockHasher<SumsFunction>,
}

impl Model for Sums {
    ghost Value = { HashState };

    ghost view = { λ sums. sums.hasher };
}

impl HashMeaning for Sums {
    ghost meaning = { λ h. h };

    ghost is_valid = { IsHashState (λ _. ⊤) };
}

impl OutputSizeUser for Sums {
    type Output = [u8; 2];

    ghost bytes_of = { λ digest. digest };

    ghost OUTPUT_SIZE = { 2 };

    const OUTPUT_SIZE: usize = 2;

    ghost same_digest = { λ c d same. same };
}

impl Digest for Sums {
    ghost start = { 0 ∷ 0 ∷ [] };

    ghost step = { λ state block.
        fold (λ sum byte. (sum + byte) % 256) (slice_index state 0) block
        ∷ (slice_index state 1 / 2 + slice_index block 63) % 256 ∷ [] };

    ghost output = { λ state. state };

    fn new() -> Sums {
        Sums {
            hasher: BlockHasher::new(),
        }
    }

    fn update(&mut self, bytes: &[u8]) {
        self.hasher.update(bytes);
    }

    fn finalize_reset(&mut self) -> [u8; 2] {
        self.hasher.finalize_reset()
    }

    fn reset(&mut self) {
        self.hasher.reset();
    }

    fn duplicate(&self) -> Sums {
        Sums {
            hasher: self.hasher.duplicate(),
        }
    }

    fn output_bytes(out: &[u8; 2]) -> &[u8] {
        out
    }

    ghost use Rattle.ripemd.specs.Laws.{fed_nothing};

    ghost fed_nothing = { λ h valid. fed_nothing _ h valid.count valid.tail.short };
}

impl BlockDigest for Sums {
    type Core = SumsFunction;

    ghost use Rattle.std.specs.Prelude.{refl};

    ghost digest_is = { λ message. refl };
}

/// One of the two meetings of a collision: the place, the state, and how the block begins.
pub type Side = (usize, [u8; 2], [u8; 2]);

fn is_side(meeting: &Meeting<[u8; 2]>, side: Side, next: [u8; 2]) -> bool {
    (meeting.place, meeting.state) == (side.0, side.1)
        && meeting.block.starts_with(&side.2)
        && SumsFunction::step(meeting.state, &meeting.block) == next
}

/// Whether a collision has these sides and leads to this state, and the check takes it.
pub fn is_collision(found: &Collision<[u8; 2]>, left: Side, right: Side, next: [u8; 2]) -> bool {
    check_collision::<SumsFunction>(found)
        && is_side(&found.left, left, next)
        && is_side(&found.right, right, next)
}
