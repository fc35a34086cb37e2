//! What a hasher and an HMAC have in common.

ghost use Rattle.std.specs.Prelude.{◌≡◌, ℕ, List, [], ◌++◌, ⊤};
ghost use Rattle.ripemd_block.specs.Standard.{hash};
ghost use Rattle.ripemd_block.specs.States.{initial_state, fed, finish};
ghost use Rattle.ripemd.specs.Laws as laws;

use crate::digest::{Digest, OutputSizeUser};
use crate::hashers::BlockHasher;
use ripemd_block::block_api::ListBlockFunction;

/// A hasher or an HMAC: it takes a message in pieces, and gives its digest or tag. How the message is cut makes no
/// difference. No call allocates or fails.
pub trait Incremental: Sized + Drop {
    /// The hash function that gives the outputs.
    type Hash: Digest;

    // The key of an HMAC; nothing for a hasher.
    ghost Origin: { Type 0 };

    // The state before the first byte.
    ghost new_state: { Origin → Self };

    // The state after more bytes.
    ghost fed: { Self → List ℕ → Self };

    // The output of a state.
    ghost finish: { Self → List ℕ };

    // The digest or the tag of a whole message.
    ghost whole: { Origin → List ℕ → List ℕ };

    /// Appends bytes to the message.
    fn update(&mut self, bytes: &[u8])
        ensures { self.new ≡ fed self.old bytes.now };

    /// Gives the digest or tag.
    fn finalize(self) -> <Self::Hash as OutputSizeUser>::Output
        ensures { Self.Hash.bytes_of result ≡ finish self };

    ghost fed_nothing: { (o : Origin) → fed (new_state o) [] ≡ new_state o };

    ghost fed_twice: { (s : Self) (x y : List ℕ) → fed (fed s x) y ≡ fed s (x ++ y) };

    ghost finish_fed: { (o : Origin) (message : List ℕ)
        → finish (fed (new_state o) message) ≡ whole o message };
}

impl<F: ListBlockFunction> Incremental for BlockHasher<F> {
    type Hash = BlockHasher<F>;

    ghost Origin = { ⊤ };

    ghost new_state = { λ _. initial_state (F.list F.start_of) };

    ghost fed = { fed F.step };

    ghost finish = { finish F.step F.output };

    ghost whole = { λ _. hash (F.list F.start_of) F.step F.output };

    fn update(&mut self, bytes: &[u8]) {
        Digest::update(self, bytes);
    }

    fn finalize(self) -> F::Digest {
        Digest::finalize(self)
    }

    ghost fed_nothing = { λ _. laws.fed_nothing_at_first F.step (F.list F.start_of) };

    ghost fed_twice = { laws.fed_twice F.step };

    ghost finish_fed = { λ _. laws.finish_fed (F.list F.start_of) F.step F.output };
}
