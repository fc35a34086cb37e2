//! Calls on a state that a caller keeps, of a hash or an HMAC: a mark, and then the bytes of
//! [`Kept`](crate::kept::Kept). A call that answers false writes nothing.

ghost use Rattle.std.specs.Prelude.{◌≡◌, ◌↔◌, ℕ, ◌+◌, ◌<◌, List, [], length, drop, slice_index, IsTrue, IsFalse};
ghost use Rattle.ripemd_c.specs.KeptBytes.{IsSaved};
ghost use Rattle.ripemd_c.specs.KeptStates.{Keeps, Updates, WithOutput, WithState, kept_in};
ghost use Rattle.ripemd_c.specs.Variants.{Refuses, Writes};

use crate::kept::Kept;
use crate::write;
use ripemd::Digest;
use ripemd::block_api::ByteArray;
use ripemd_mac::hmac::all_equal;

// Keeps the state before the first byte, after its mark.
pub(crate) fn init_kept<S: Kept>(key: &[u8], state: &mut [u8]) -> bool
    requires room { S.Saved.LEN < length state.old }
    ensures yes { IsTrue result }
    ensures marked { slice_index state.new 0 ≡ S.mark }
    ensures kept { IsSaved S.is_valid S.state_bytes (S.fed (S.first key.now) [])
        (S.cleared (kept_in S.Saved.LEN state.new)) }
    ensures behind { drop (1 + S.Saved.LEN) state.new ≡ drop (1 + S.Saved.LEN) state.old }
{
    let (first, rest) = state.split_at_mut(1);
    let (place, _) = rest.split_at_mut(<S::Saved as ByteArray>::LEN);
    first[0] = S::mark();
    S::begin(key).keep(place);
    true
}

// Keeps the state with this saved form, after its mark. False exactly if there is none.
pub(crate) fn load_saved<S: Kept>(saved: &[u8], state: &mut [u8]) -> bool
    requires room { S.Saved.LEN < length state.old }
    ensures { WithState (IsSaved S.is_valid S.state_bytes) saved.now
        (λ s. Keeps (λ s kept. IsSaved S.is_valid S.state_bytes s (S.cleared kept)) S.mark S.Saved.LEN s
        state.old state.new result)
        (Refuses state.old state.new result) }
{
    let Ok(_loaded) = S::load_from(saved) else {
        return false;
    };
    put(saved, S::mark(), state);
    true
}

// Writes a mark and then bytes.
fn put(bytes: &[u8], mark: u8, state: &mut [u8])
    requires room { length bytes.now < length state.old }
    ensures marked { slice_index state.new 0 ≡ mark }
    ensures kept { kept_in (length bytes.now) state.new ≡ bytes.now }
    ensures behind { drop (1 + length bytes.now) state.new ≡ drop (1 + length bytes.now) state.old }
{
    let (first, rest) = state.split_at_mut(1);
    let (place, _) = rest.split_at_mut(bytes.len());
    first[0] = mark;
    place.copy_from_slice(bytes);
}

// Writes the saved form of a kept state to `saved`, if that has its size. False also if no state is kept.
pub(crate) fn save_kept<S: Kept>(state: &[u8], saved: &mut [u8]) -> bool
    requires room { S.Saved.LEN < length state.now }
    ensures { WithState (λ s kept. IsSaved S.is_valid S.state_bytes s (S.cleared kept))
        (kept_in S.Saved.LEN state.now)
        (λ s. Writes (length saved.old ≡ S.Saved.LEN) (S.state_bytes s) saved.old saved.new result)
        (Refuses saved.old saved.new result) }
{
    let kept = &state[1..1 + <S::Saved as ByteArray>::LEN];
    if S::load_kept(kept).is_none() || saved.len() != kept.len() {
        return false;
    }
    saved.copy_from_slice(kept);
    S::clear(saved);
    true
}

// Appends bytes to the message of a kept state. False exactly if there is none.
pub(crate) fn update_kept<S: Kept>(state: &mut [u8], bytes: &[u8]) -> bool
    requires room { S.Saved.LEN < length state.old }
    ensures updates { Updates (λ s kept. IsSaved S.is_valid S.state_bytes s (S.cleared kept)) S.fed
        (kept_in S.Saved.LEN state.old) bytes.now (kept_in S.Saved.LEN state.new) result }
    ensures mark { slice_index state.new 0 ≡ slice_index state.old 0 }
    ensures behind { drop (1 + S.Saved.LEN) state.new ≡ drop (1 + S.Saved.LEN) state.old }
    ensures unchanged { IsFalse result → state.new ≡ state.old }
{
    let (_, rest) = state.split_at_mut(1);
    let (kept, _) = rest.split_at_mut(<S::Saved as ByteArray>::LEN);
    S::update_kept(kept, bytes)
}

// Writes the digest or the tag of a kept state to `output`, if that has its size. False also if no state is kept.
pub(crate) fn final_kept<S: Kept>(state: &[u8], output: &mut [u8]) -> bool
    requires room { S.Saved.LEN < length state.now }
    ensures { WithOutput (λ s kept. IsSaved S.is_valid S.state_bytes s (S.cleared kept)) S.new_state S.fed
        S.finish S.whole (kept_in S.Saved.LEN state.now)
        (λ out. Writes (length output.old ≡ S.Hash.OUTPUT_SIZE) out output.old output.new result)
        (Refuses output.old output.new result) }
{
    match S::load_kept(&state[1..1 + <S::Saved as ByteArray>::LEN]) {
        Some(kept) => write(S::Hash::output_bytes(&kept.finalize()), output),
        None => false,
    }
}

// Whether `output` is the whole digest or tag of a kept state. False also if no state is kept.
pub(crate) fn verify_kept<S: Kept>(state: &[u8], output: &[u8]) -> bool
    requires room { S.Saved.LEN < length state.now }
    ensures { WithOutput (λ s kept. IsSaved S.is_valid S.state_bytes s (S.cleared kept)) S.new_state S.fed
        S.finish S.whole (kept_in S.Saved.LEN state.now)
        (λ out. IsTrue result ↔ (output.now ≡ out)) (IsFalse result) }
{
    match S::load_kept(&state[1..1 + <S::Saved as ByteArray>::LEN]) {
        Some(kept) => all_equal(S::Hash::output_bytes(&kept.finalize()), output),
        None => false,
    }
}
