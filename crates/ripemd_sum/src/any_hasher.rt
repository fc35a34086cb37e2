//! A hasher of any hash function, for a run.

ghost use Rattle.std.specs.Prelude.{◌≡◌, ⊤};
ghost use Rattle.ripemd.specs.Standard.{hash};
ghost use Rattle.ripemd.specs.States.{HashState, initial_state, fed, finish};
ghost use Rattle.ripemd.specs.Laws as laws;

use ripemd::Digest;
use ripemd::incremental::Incremental;
use std::marker::Model;

/// A hasher that contracts see as its hash state.
#[derive(Drop)]
pub struct AnyHasher<D: Digest> {
    hasher: D,
}

impl<D: Digest> Model for AnyHasher<D> {
    ghost Value = { HashState };

    ghost view = { λ any. D.meaning any.hasher };
}

impl<D: Digest> AnyHasher<D> {
    /// A hasher of the empty message.
    pub fn new() -> AnyHasher<D>
        ensures { result ≡ initial_state D.start }
    {
        AnyHasher { hasher: D::new() }
    }
}

impl<D: Digest> Incremental for AnyHasher<D> {
    type Hash = D;

    ghost Origin = { ⊤ };

    ghost new_state = { λ _. initial_state D.start };

    ghost fed = { fed D.step };

    ghost finish = { finish D.step D.output };

    ghost whole = { λ _. hash D.start D.step D.output };

    fn update(&mut self, bytes: &[u8]) {
        self.hasher.update(bytes);
    }

    fn finalize(self) -> D::Output {
        self.hasher.finalize()
    }

    ghost fed_nothing = { λ _. laws.fed_nothing_at_first D.step D.start };

    ghost fed_twice = { laws.fed_twice D.step };

    ghost finish_fed = { λ _. laws.finish_fed D.start D.step D.output };
}
