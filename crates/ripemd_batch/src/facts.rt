//! Facts of the definitions of lists of messages and keys. The functions do nothing: their contracts are the facts.

ghost use Rattle.std.specs.Prelude.{◌≡◌, ℕ, List, [], ◌∷◌, ◌++◌};
ghost use Rattle.std.specs.Borrow.{Bor};
ghost use Rattle.ripemd_mac.specs.Pbkdf2.{pbkdf2};
ghost use Rattle.ripemd_batch.specs.Pbkdf2.{pbkdf2_each};
ghost use Rattle.ripemd_batch.specs.Lanes.{targets};

/// The messages of two references are what these point at, in order.
pub fn two_messages()
    ensures { (a b : Bor (List ℕ)) → targets (a ∷ b ∷ []) ≡ a.now ∷ b.now ∷ [] }
{}

/// A list of two keys is the first key, then the second.
#[tactic(auto, unfolding(crate::specs::Pbkdf2::pbkdf2_each))]
pub fn two_keys()
    ensures { (PRF : List ℕ → List ℕ → List ℕ) → (P1 P2 S1 S2 : List ℕ) → (hLen c dkLen : ℕ)
        → pbkdf2_each PRF hLen (P1 ∷ P2 ∷ []) (S1 ∷ S2 ∷ []) c dkLen
        ≡ pbkdf2 PRF hLen P1 S1 c dkLen ++ pbkdf2 PRF hLen P2 S2 c dkLen }
{}
