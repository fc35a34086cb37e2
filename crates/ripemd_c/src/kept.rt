//! Hashers and HMACs as callers keep them between the pieces of a message: in their saved form, except that any bytes
//! may stand after a tail.

ghost use Rattle.std.specs.Prelude.{◌≡◌, ◌≢◌, ℕ, ◌+◌, ◌%◌, ◌≤◌, ◌<◌, List, [], length, IfSome, IfNone, IfOk, IfErr, IsTrue, IsFalse};
ghost use Rattle.std.specs.List.{All};
ghost use Rattle.ripemd.specs.Standard.{block_size};
ghost use Rattle.ripemd.specs.States.{HashState, IsHashState, core_and_tail, fed, initial_state};
ghost use Rattle.ripemd_mac.specs.Hmac.{keyed_state};
ghost use Rattle.ripemd_mac.specs.Saved.{IsKeyedState, hmac_bytes};
ghost use Rattle.ripemd_c.specs.KeptBytes.{HasTail, IsAppended, cleared, cleared_hmac};
ghost use Rattle.ripemd.specs.Laws.{fed_nothing_at_first, core_and_tail_injective};
ghost use Rattle.ripemd_mac.specs.Laws.{fed_nothing, hmac_bytes_injective};

use ripemd::block_api::{BlockCore, ByteArray, SerializableState, update_saved, write_short};
use ripemd::buffer::{Buffer, fill_block};
use ripemd::incremental::Incremental;
use ripemd::padding::whole_blocks;
use ripemd::state::{DeserializeStateError, put_tail};
use ripemd::{BlockHasher, Digest, ResumableFunction};
use ripemd_mac::Hmac;
use std::slice::from_ref;

/// A hasher or an HMAC that a caller keeps as bytes.
pub(crate) trait Kept: Incremental {
    /// The saved bytes, an array.
    type Saved: ByteArray;

    // The states that can occur.
    ghost is_valid: { Self → Type 0 };

    // The saved form of a state.
    ghost state_bytes: { Self → List ℕ };

    // The saved form of kept bytes.
    ghost cleared: { List ℕ → List ℕ };

    // The state before the first byte, under this key; a hasher has only one.
    ghost first: { List ℕ → Self };

    /// The state before the first byte.
    fn begin(key: &[u8]) -> Self
        ensures { result ≡ first key.now };

    // The mark before the kept bytes: the size of a digest, plus 128 for an HMAC.
    ghost mark: { ℕ };

    /// The mark.
    fn mark() -> u8
        ensures { result ≡ mark };

    /// Loads the state with this saved form, which may be kept as it is.
    ///
    /// # Errors
    ///
    /// `DeserializeStateError` if no state has this saved form.
    fn load_from(saved: &[u8]) -> Result<Self, DeserializeStateError>
        ensures ok { IfOk result (λ loaded. state_bytes loaded ≡ saved.now) }
        ensures valid { IfOk result is_valid }
        ensures size { IfOk result (λ _. length saved.now ≡ Self.Saved.LEN) }
        ensures kept { IfOk result (λ _. cleared saved.now ≡ saved.now) }
        ensures err { IfErr result (λ _. (s : Self) → is_valid s → state_bytes s ≢ saved.now) };

    /// Keeps the state as bytes.
    fn keep(&self, kept: &mut [u8])
        requires { length kept.old ≡ Self.Saved.LEN }
        ensures kept { state_bytes self.now ≡ cleared kept.new }
        ensures valid { is_valid self.now };

    /// The state that is kept as these bytes; `None` exactly if there is none.
    fn load_kept(kept: &[u8]) -> Option<Self>
        requires { length kept.now ≡ Self.Saved.LEN }
        ensures some { IfSome result (λ loaded. state_bytes loaded ≡ cleared kept.now) }
        ensures valid { IfSome result is_valid }
        ensures none { IfNone result ((s : Self) → is_valid s → state_bytes s ≢ cleared kept.now) };

    /// Writes zeros after the tails of kept bytes: they are then the saved form.
    fn clear(kept: &mut [u8])
        requires { length kept.old ≡ Self.Saved.LEN }
        ensures { kept.new ≡ cleared kept.old };

    /// Appends bytes to the message of a kept state. False, and nothing is written, exactly if there is none.
    fn update_kept(kept: &mut [u8], bytes: &[u8]) -> bool
        requires { length kept.old ≡ Self.Saved.LEN }
        ensures appended { IsTrue result → IsAppended is_valid state_bytes Self.fed
            (cleared kept.old) bytes.now (cleared kept.new) }
        ensures refused { IsFalse result → (s : Self) → is_valid s → state_bytes s ≢ cleared kept.old }
        ensures unchanged { IsFalse result → kept.new ≡ kept.old };

    ghost fed_nothing: { (key : List ℕ) → Self.Incremental.fed (first key) [] ≡ first key };

    ghost injective: { (s t : Self) → is_valid s → is_valid t
        → state_bytes s ≡ state_bytes t → s ≡ t };
}

impl<F: ResumableFunction> Kept for BlockHasher<F> {
    type Saved = F::SavedHasher;

    ghost is_valid = { IsHashState F.are_words };

    ghost state_bytes = { core_and_tail F.output };

    ghost cleared = { cleared F.SavedCore.LEN };

    ghost first = { λ _. initial_state (F.list F.start_of) };

    fn begin(_key: &[u8]) -> BlockHasher<F> {
        BlockHasher::new()
    }

    ghost mark = { F.Digest.LEN % 256 };

    fn mark() -> u8 {
        <F::Digest as ByteArray>::LEN as u8
    }

    #[tactic(auto, using(crate::proofs::KeptBytes::saving))]
    fn load_from(saved: &[u8]) -> Result<BlockHasher<F>, DeserializeStateError> {
        BlockHasher::load_slice(saved)
    }

    #[inline(always)]
    fn keep(&self, kept: &mut [u8]) {
        let (core, tail) = self.parts();
        let (front, behind) = kept.split_at_mut(<F::SavedCore as ByteArray>::LEN);
        // All of the rest, but so the compiler knows its size.
        let (back, _) = behind.split_at_mut(64);
        front.copy_from_slice(core.serialize().as_bytes());
        put_tail(tail, back);
    }

    #[inline(always)]
    #[tactic(auto, using(crate::proofs::KeptBytes::kept_length, crate::proofs::KeptBytes::cleared_front, ripemd_block::proofs::Absorbing::slice_from), unfolding(ripemd_block::specs::States::output_and_count, ripemd_block::specs::States::core_and_tail))]
    fn load_kept(kept: &[u8]) -> Option<BlockHasher<F>> {
        let (core, tail) = kept.split_at(<F::SavedCore as ByteArray>::LEN);
        let Ok(core) = BlockCore::<F>::load_slice(core) else {
            return None;
        };
        let Some(buffer) = Buffer::try_front(&tail[1..], tail[0] as usize) else {
            return None;
        };
        Some(BlockHasher::from_parts(core, buffer))
    }

    fn clear(kept: &mut [u8]) {
        let (_, tail) = kept.split_at_mut(<F::SavedCore as ByteArray>::LEN);
        let (len, rest) = tail.split_at_mut(1);
        let held = (len[0] as usize).min(rest.len());
        let (_, behind) = rest.split_at_mut(held);
        behind.fill(0);
    }

    #[inline(always)]
    fn update_kept(kept: &mut [u8], bytes: &[u8]) -> bool {
        let Some(len) = tail_len::<F>(kept) else {
            return false;
        };
        if len + bytes.len() < 64 {
            append_kept::<F>(kept, len, bytes);
        } else {
            absorb_kept::<F>(kept, len, bytes);
        }
        true
    }

    ghost fed_nothing = { λ _. fed_nothing_at_first F.step (F.list F.start_of) };

    ghost injective = { core_and_tail_injective F.injective_output };
}

// The length of the tail of a kept hasher; `None` exactly if there is none.
#[inline(always)]
#[tactic(auto, using(crate::proofs::KeptBytes::kept_length))]
fn tail_len<F: ResumableFunction>(kept: &[u8]) -> Option<usize>
    requires { length kept.now ≡ F.SavedHasher.LEN }
    ensures some { IfSome result (λ len. HasTail (IsHashState F.are_words) (core_and_tail F.output)
        (cleared F.SavedCore.LEN kept.now) len) }
    ensures none { IfNone result ((h : HashState) → IsHashState F.are_words h
        → core_and_tail F.output h ≢ cleared F.SavedCore.LEN kept.now) }
{
    let (core, tail) = kept.split_at(<F::SavedCore as ByteArray>::LEN);
    let Ok(_core) = BlockCore::<F>::load_slice(core) else {
        return None;
    };
    let len = tail[0] as usize;
    if len >= 64 {
        return None;
    }
    bytes_in_range(&tail[1..1 + len]);
    Some(len)
}

// Appends bytes that complete no block to a kept hasher with a tail of `len` bytes.
#[inline(always)]
fn append_kept<F: ResumableFunction>(kept: &mut [u8], len: usize, bytes: &[u8])
    requires size { length kept.old ≡ F.SavedHasher.LEN }
    requires kept { HasTail (IsHashState F.are_words) (core_and_tail F.output)
        (cleared F.SavedCore.LEN kept.old) len }
    requires short { len + length bytes.now < block_size }
    ensures { IsAppended (IsHashState F.are_words) (core_and_tail F.output) (fed F.step)
        (cleared F.SavedCore.LEN kept.old) bytes.now (cleared F.SavedCore.LEN kept.new) }
{
    bytes_in_range(bytes);
    let (_, tail) = kept.split_at_mut(<F::SavedCore as ByteArray>::LEN);
    let (held, room) = tail.split_at_mut(1 + len);
    write_short(room, bytes);
    held[0] = (len + bytes.len()) as u8;
}

// Appends bytes that complete a block or more. Not inlined, so that short pieces take none of its stack.
#[inline(never)]
fn absorb_kept<F: ResumableFunction>(kept: &mut [u8], len: usize, bytes: &[u8])
    requires size { length kept.old ≡ F.SavedHasher.LEN }
    requires kept { HasTail (IsHashState F.are_words) (core_and_tail F.output)
        (cleared F.SavedCore.LEN kept.old) len }
    requires filled { block_size ≤ len + length bytes.now }
    ensures { IsAppended (IsHashState F.are_words) (core_and_tail F.output) (fed F.step)
        (cleared F.SavedCore.LEN kept.old) bytes.now (cleared F.SavedCore.LEN kept.new) }
{
    let (core, behind) = kept.split_at_mut(<F::SavedCore as ByteArray>::LEN);
    // All of the rest, but so the compiler knows its size.
    let (back, _) = behind.split_at_mut(64);
    let mut rest = bytes;
    if len > 0 {
        let (_, held) = back.split_at(1);
        let mut block = [0; 64];
        rest = fill_block(&mut block, held, len, bytes);
        update_saved::<F>(core, from_ref(&block));
    }
    let (whole, left) = whole_blocks(rest);
    update_saved::<F>(core, whole);
    bytes_in_range(left);
    put_tail(left, back);
}

// Proof only: bytes are below 256.
fn bytes_in_range(bytes: &[u8])
    ensures { All (λ b. b < 256) bytes.now }
{}

impl<F: ResumableFunction> Kept for Hmac<BlockHasher<F>> {
    type Saved = F::SavedHmac;

    ghost is_valid = { IsKeyedState F.are_words };

    ghost state_bytes = { hmac_bytes F.output };

    ghost cleared = { cleared_hmac F.SavedCore.LEN };

    ghost first = { keyed_state (F.list F.start_of) F.step F.output };

    fn begin(key: &[u8]) -> Hmac<BlockHasher<F>> {
        Hmac::new(key)
    }

    ghost mark = { (128 + F.Digest.LEN) % 256 };

    fn mark() -> u8 {
        128u8.wrapping_add(<F::Digest as ByteArray>::LEN as u8)
    }

    #[tactic(auto, using(crate::proofs::KeptHmac::saving_hmac))]
    fn load_from(saved: &[u8]) -> Result<Hmac<BlockHasher<F>>, DeserializeStateError> {
        Hmac::load_slice(saved)
    }

    #[inline(always)]
    fn keep(&self, kept: &mut [u8]) {
        let hashers = self.hashers();
        let (inner, outer) = kept.split_at_mut(<F::SavedHasher as ByteArray>::LEN);
        hashers.0.keep(inner);
        hashers.1.keep(outer);
    }

    #[inline(always)]
    #[tactic(auto, using(crate::proofs::KeptHmac::inner_half, crate::proofs::KeptHmac::outer_half))]
    fn load_kept(kept: &[u8]) -> Option<Hmac<BlockHasher<F>>> {
        let (inner, outer) = kept.split_at(<F::SavedHasher as ByteArray>::LEN);
        Some(Hmac::from_hashers(
            BlockHasher::load_kept(inner)?,
            BlockHasher::load_kept(outer)?,
        ))
    }

    fn clear(kept: &mut [u8]) {
        let (inner, outer) = kept.split_at_mut(<F::SavedHasher as ByteArray>::LEN);
        BlockHasher::<F>::clear(inner);
        BlockHasher::<F>::clear(outer);
    }

    #[tactic(auto, using(crate::proofs::KeptHmac::inner_half, crate::proofs::KeptHmac::outer_half))]
    fn update_kept(kept: &mut [u8], bytes: &[u8]) -> bool {
        let (inner, outer) = kept.split_at_mut(<F::SavedHasher as ByteArray>::LEN);
        match tail_len::<F>(outer) {
            Some(_len) => BlockHasher::<F>::update_kept(inner, bytes),
            None => false,
        }
    }

    ghost fed_nothing = { fed_nothing (F.list F.start_of) F.step F.output };

    ghost injective = { hmac_bytes_injective F.injective_output };
}
