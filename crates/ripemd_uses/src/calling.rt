// The callers of ripemd's README and BLOCK_FUNCTIONS.md.

ghost use Rattle.std.specs.Prelude.{◌≡◌, ◌++◌};
ghost use Rattle.ripemd.specs.Standard.{ripemd128, ripemd160, ripemd256, ripemd320, ripemd};

use ripemd::{Digest, Ripemd128, Ripemd160, Ripemd256, Ripemd320};

/// The RIPEMD-160 digest of a message.
pub fn digest_of(message: &[u8]) -> [u8; 20]
    ensures { result ≡ ripemd ripemd160 message.now }
{
    Ripemd160::digest(message)
}

/// The digests of a message by each of the four hash functions.
pub fn digests_of(message: &[u8]) -> ([u8; 16], [u8; 20], [u8; 32], [u8; 40])
    ensures of128 { result.0 ≡ ripemd ripemd128 message.now }
    ensures of160 { result.1 ≡ ripemd ripemd160 message.now }
    ensures of256 { result.2 ≡ ripemd ripemd256 message.now }
    ensures of320 { result.3 ≡ ripemd ripemd320 message.now }
{
    (
        Ripemd128::digest(message),
        Ripemd160::digest(message),
        Ripemd256::digest(message),
        Ripemd320::digest(message),
    )
}

/// The RIPEMD-160 digest of a message that comes in three pieces.
pub fn digest_of_three(first: &[u8], second: &[u8], third: &[u8]) -> [u8; 20]
    ensures { result ≡ ripemd ripemd160 (first.now ++ second.now ++ third.now) }
{
    let mut hasher = Ripemd160::new();
    hasher.update(first);
    hasher.update(second);
    hasher.update(third);
    hasher.finalize()
}

ghost use Rattle.std.specs.Prelude.{◌↔◌, IsTrue};

/// Whether a message has the RIPEMD-160 digest that came with it.
pub fn has_digest(message: &[u8], expected: &[u8; 20]) -> bool
    ensures { IsTrue result ↔ (ripemd ripemd160 message.now ≡ expected.now) }
{
    Ripemd160::digest(message) == *expected
}

ghost use Rattle.ripemd.specs.Standard.{hash};

/// The digest of a prefix and then a message, by any hash function.
pub fn prefixed_digest<D: Digest>(prefix: &[u8], message: &[u8]) -> D::Output
    ensures { D.bytes_of result ≡ hash D.start D.step D.output (prefix.now ++ message.now) }
{
    D::new_with_prefix(prefix).chain_update(message).finalize()
}

/// Whether a message has the digest that came with it, by any hash function.
pub fn has_digest_by<D: Digest>(message: &[u8], expected: &[u8]) -> bool
    ensures { IsTrue result ↔ (hash D.start D.step D.output message.now ≡ expected.now) }
{
    let digest = D::digest(message);
    D::output_bytes(&digest) == expected
}

/// The RIPEMD-160 digest of a prefix and then a message.
pub fn prefixed_digest_160(prefix: &[u8], message: &[u8]) -> [u8; 20]
    ensures { result ≡ ripemd ripemd160 (prefix.now ++ message.now) }
{
    prefixed_digest::<Ripemd160>(prefix, message)
}

ghost use Rattle.std.specs.Prelude.{List, [], IfOk, IfErr};
ghost use Rattle.ripemd.specs.Laws.{IsSavedAfter};

use ripemd::digest::SerializableState;
use ripemd::state::DeserializeStateError;

/// What to save before the first piece of a message.
#[tactic(auto, using(ripemd::specs::Laws::saved_first))]
pub fn start_saved() -> [u8; 92]
    ensures { IsSavedAfter ripemd160 [] result }
{
    Ripemd160::new().serialize()
}

/// What to save after the next piece of a message, given what was saved before it.
///
/// # Errors
///
/// `DeserializeStateError`, only if no message leads to these bytes.
#[tactic(auto, using(ripemd::specs::Laws::saved_next, ripemd::specs::Laws::saved_after_none))]
pub fn update_saved(saved: &[u8; 92], piece: &[u8]) -> Result<[u8; 92], DeserializeStateError>
    ensures ok { IfOk result (λ next. (message : List ℕ)
        → IsSavedAfter ripemd160 message saved.now
        → IsSavedAfter ripemd160 (message ++ piece.now) next) }
    ensures err { IfErr result (λ _. (message : List ℕ)
        → ¬ IsSavedAfter ripemd160 message saved.now) }
{
    let mut hasher = Ripemd160::deserialize(saved)?;
    hasher.update(piece);
    Ok(hasher.serialize())
}

/// The RIPEMD-160 digest of the message, given what was saved after its last piece.
///
/// # Errors
///
/// `DeserializeStateError`, only if no message leads to these bytes.
#[tactic(auto, using(ripemd::specs::Laws::saved_digest, ripemd::specs::Laws::saved_after_none))]
pub fn digest_of_saved(saved: &[u8; 92]) -> Result<[u8; 20], DeserializeStateError>
    ensures ok { IfOk result (λ digest. (message : List ℕ)
        → IsSavedAfter ripemd160 message saved.now
        → digest ≡ ripemd ripemd160 message) }
    ensures err { IfErr result (λ _. (message : List ℕ)
        → ¬ IsSavedAfter ripemd160 message saved.now) }
{
    let hasher = Ripemd160::deserialize(saved)?;
    Ok(hasher.finalize())
}

/// Whether the message has the RIPEMD-160 digest that came with it.
///
/// # Errors
///
/// `DeserializeStateError`, only if no message leads to these bytes.
pub fn saved_has_digest(
    saved: &[u8; 92],
    expected: &[u8; 20],
) -> Result<bool, DeserializeStateError>
    ensures ok { IfOk result (λ answer. (message : List ℕ)
        → IsSavedAfter ripemd160 message saved.now
        → (IsTrue answer ↔ (ripemd ripemd160 message ≡ expected.now))) }
    ensures err { IfErr result (λ _. (message : List ℕ)
        → ¬ IsSavedAfter ripemd160 message saved.now) }
{
    let digest = digest_of_saved(saved)?;
    Ok(digest == *expected)
}

/// The digest of a message in two pieces, saved between them, by any hash function.
pub fn digest_put_aside<D: Digest + SerializableState>(first: &[u8], second: &[u8]) -> D::Output
    ensures { D.bytes_of result ≡ hash D.start D.step D.output (first.now ++ second.now) }
{
    let saved = D::new_with_prefix(first).serialize();
    let hasher = D::deserialize(&saved).unwrap();
    hasher.chain_update(second).finalize()
}

ghost use Rattle.std.specs.Prelude.{ℕ, ◌<◌, ◌≤◌, length, IfSome, IfNone, OnErr};
ghost use Rattle.std.specs.Io.KnownBytes.{Consumes, IsAtEnd};

use std::io;
use std::io::Read;

/// The RIPEMD-160 digest of all that a reader gives, or `None` if that is more than `limit` bytes.
///
/// # Errors
///
/// The error of the first read that fails.
pub fn digest_of_reader<R: Read>(reader: &mut R, limit: u64) -> io::Result<Option<[u8; 20]>>
    ensures some { IfOk result (λ answer. IfSome answer (λ digest. (message : List ℕ)
        × Consumes (R.remaining reader.old) (R.remaining reader.new) message
        × IsAtEnd (R.remaining reader.new)
        × (length message ≤ limit)
        × (digest ≡ ripemd ripemd160 message))) }
    ensures none { IfOk result (λ answer. IfNone answer ((message : List ℕ)
        × Consumes (R.remaining reader.old) (R.remaining reader.new) message
        × (limit < length message))) }
    ensures err { OnErr result ((message : List ℕ)
        × Consumes (R.remaining reader.old) (R.remaining reader.new) message
        × (length message ≤ limit)) }
{
    let mut hasher = Ripemd160::new();
    let mut chunk = [0; 4096];
    let mut left = limit;
    'reads: loop {
        let count = reader.read(&mut chunk)?;
        if count == 0 {
            return Ok(Some(hasher.finalize()));
        }
        if count as u64 > left {
            return Ok(None);
        }
        hasher.update(&chunk[..count]);
        left -= count as u64;
    }
}

ghost use Rattle.std.specs.Prelude.{◌≢◌, ◌⊎◌, ◌^◌, IsNone};
ghost use Rattle.ripemd.specs.Standard.{compress};
ghost use Rattle.ripemd.specs.Collisions.{IsCollision};

use ripemd::block_api::Ripemd160Core;
use ripemd::witness::{Collision, collision_witness};

/// From two messages with the same RIPEMD-160 digest, the last collision of its compression function
/// that they meet; `None` exactly if the messages are equal or their digests differ.
pub fn collision_of_160(a: &[u8], b: &[u8]) -> Option<Collision<[u32; 5]>>
    requires a_short { length a.now < 2 ^ 61 }
    requires b_short { length b.now < 2 ^ 61 }
    ensures none { IsNone result
        ↔ ((a.now ≡ b.now) ⊎ (ripemd ripemd160 a.now ≢ ripemd ripemd160 b.now)) }
    ensures some { IfSome result
        (IsCollision ripemd160.start (compress ripemd160) a.now b.now) }
{
    collision_witness::<Ripemd160Core>(a, b)
}

ghost use Rattle.std.specs.Prelude.{◌∷◌, ℕ, slice_index, bit_xor};
ghost use Rattle.ripemd.specs.Standard.{padded_message, blocks};
ghost use Rattle.ripemd.specs.Collisions.{CollideAt};

use ripemd::witness::BlockFunction;

/// A block function that is easy to break: its state is a byte, and it reads the first byte of each
/// block alone.
pub enum FirstBytes {}

impl BlockFunction for FirstBytes {
    type State = [u8; 1];

    type Digest = [u8; 1];

    ghost is_state = { λ state. length state ≡ 1 };

    ghost start_of = { 0 ∷ [] };

    ghost step_of = { λ state block. bit_xor (slice_index state 0) (slice_index block 0) ∷ [] };

    ghost output_of = { λ state. state };

    fn start() -> [u8; 1] {
        [0]
    }

    fn step(state: [u8; 1], block: &[u8; 64]) -> [u8; 1] {
        [state[0] ^ block[0]]
    }

    fn output(state: [u8; 1]) -> [u8; 1] {
        state
    }

    ghost use Rattle.std.proofs.lemmas.Slice.Eq.{bytes_eq-Decides};

    ghost output_injective = { λ s t _ _ same. same };

    ghost same_state = { λ s t same. (bytes_eq-Decides s t).0 same };
}

/// The places at which two messages collide under this block function.
pub fn places_of_collision(a: &[u8], b: &[u8]) -> Option<(usize, usize)>
    requires a_short { length a.now < 2 ^ 61 }
    requires b_short { length b.now < 2 ^ 61 }
    ensures { IfSome result (λ places.
        CollideAt (0 ∷ []) (λ state block. bit_xor (slice_index state 0) (slice_index block 0) ∷ [])
        (blocks (padded_message a.now)) (blocks (padded_message b.now)) places.0 places.1) }
{
    let collision = collision_witness::<FirstBytes>(a, b)?;
    Some((collision.left.place, collision.right.place))
}

use ripemd::{BlockHasher, ListBlockFunction};

/// Its hasher.
pub type Toy = BlockHasher<FirstBytes>;

impl ListBlockFunction for FirstBytes {
    ghost list = { λ state. state };

    ghost are_words = { Self.is_state };

    ghost step = { Self.step_of };

    ghost output = { Self.output_of };

    ghost use Rattle.std.proofs.Common.{rules};
    ghost use Rattle.ripemd.specs.OverLists.{of_arrays};

    ghost over_lists = { of_arrays };

    ghost digest_most = { Prim.search rules };
}

/// The toy digest of a message that comes in two pieces.
pub fn toy_digest(first: &[u8], second: &[u8]) -> [u8; 1]
    ensures { result ≡ hash (0 ∷ [])
        (λ state block. bit_xor (slice_index state 0) (slice_index block 0) ∷ []) (λ state. state)
        (first.now ++ second.now) }
{
    Toy::new_with_prefix(first).chain_update(second).finalize()
}

use ripemd::ResumableFunction;

impl ResumableFunction for FirstBytes {
    type SavedCore = [u8; 9];

    type SavedHasher = [u8; 73];

    type SavedHmac = [u8; 146];

    fn from_output(output: [u8; 1]) -> Option<[u8; 1]> {
        Some(output)
    }

    ghost use Rattle.std.specs.Prelude.{refl};

    ghost injective_output = { record { size = λ xs valid. valid; injective = λ xs ys _ _ same. same } };

    ghost saved_core_size = { refl };

    ghost saved_hasher_size = { refl };

    ghost saved_hmac_size = { refl };
}

/// The toy digest of a message in two pieces, saved between them.
pub fn toy_put_aside(first: &[u8], second: &[u8]) -> [u8; 1]
    ensures { result ≡ hash (0 ∷ [])
        (λ state block. bit_xor (slice_index state 0) (slice_index block 0) ∷ []) (λ state. state)
        (first.now ++ second.now) }
{
    digest_put_aside::<Toy>(first, second)
}

ghost use Rattle.ripemd.specs.States.{IsHashState, core_and_tail};
ghost use Rattle.ripemd.specs.Replay.{Gives};

use ripemd::replay::{Command, ReplayError, replay};
use std::alloc::Global;

/// The toy digests of a list of commands.
///
/// # Errors
///
/// Those of `replay`.
pub fn toy_replay(alloc: Global, commands: &[Command]) -> Result<Vec<[u8; 1]>, ReplayError>
    ensures { IfOk result (λ digests. Gives (0 ∷ [])
        (λ state block. bit_xor (slice_index state 0) (slice_index block 0) ∷ []) (λ state. state)
        (IsHashState (λ state. length state ≡ 1)) (core_and_tail (λ state. state))
        commands.now digests.items) }
{
    replay::<Toy>(alloc, commands)
}
