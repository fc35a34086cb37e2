// The callers of ripemd_mac's README.

ghost use Rattle.std.specs.Prelude.{◌≡◌, ◌↔◌, ◌++◌, IsTrue};
ghost use Rattle.ripemd.specs.Standard.{ripemd160, ripemd};
ghost use Rattle.ripemd_mac.specs.Hmac.{hmac};

use ripemd::Ripemd160;
use ripemd_mac::Hmac;

/// The tag of a text that comes in two pieces, by RIPEMD-160.
pub fn tag_of_two(key: &[u8], first: &[u8], second: &[u8]) -> [u8; 20]
    ensures { result ≡ hmac (ripemd ripemd160) key.now (first.now ++ second.now) }
{
    let mut mac = Hmac::<Ripemd160>::new(key);
    mac.update(first);
    mac.update(second);
    mac.finalize()
}

/// Whether a text has the tag that came with it, by RIPEMD-160.
pub fn has_tag(key: &[u8], text: &[u8], tag: &[u8]) -> bool
    ensures { IsTrue result ↔ (tag.now ≡ hmac (ripemd ripemd160) key.now text.now) }
{
    let mut mac = Hmac::<Ripemd160>::new(key);
    mac.update(text);
    mac.verify(tag)
}

ghost use Rattle.ripemd.specs.Standard.{hash};

use ripemd::digest::BlockDigest;

/// Whether a text has the tag that came with it, by any hash function.
pub fn has_tag_by<D: BlockDigest>(key: &[u8], text: &[u8], tag: &[u8]) -> bool
    ensures { IsTrue result ↔ (tag.now ≡ hmac (hash D.start D.step D.output) key.now text.now) }
{
    let mut mac = Hmac::<D>::new(key);
    mac.update(text);
    mac.verify(tag)
}

ghost use Rattle.std.specs.Prelude.{ℕ, List, []};
ghost use Rattle.ripemd_mac.specs.Hmac.{StandsFor};

/// The tag of a text, given the state of a key and the empty text.
pub fn tag_under<D: BlockDigest>(keyed: &Hmac<D>, text: &[u8]) -> D::Output
    ensures { (key : List ℕ) → StandsFor D.start D.step D.output key [] keyed.now
        → D.bytes_of result ≡ hmac (hash D.start D.step D.output) key text.now }
{
    let mut mac = keyed.duplicate();
    mac.update(text);
    mac.finalize()
}

/// The tags of two texts under one key, by RIPEMD-160.
pub fn tags_of_two(key: &[u8], first: &[u8], second: &[u8]) -> ([u8; 20], [u8; 20])
    ensures first { result.0 ≡ hmac (ripemd ripemd160) key.now first.now }
    ensures second { result.1 ≡ hmac (ripemd ripemd160) key.now second.now }
{
    let keyed = Hmac::<Ripemd160>::new(key);
    (
        tag_under::<Ripemd160>(&keyed, first),
        tag_under::<Ripemd160>(&keyed, second),
    )
}

ghost use Rattle.std.specs.Prelude.{IfOk, IfErr};
ghost use Rattle.ripemd_mac.specs.Saved.{IsSavedFor};

use ripemd::state::DeserializeStateError;
use ripemd::{BlockHasher, ResumableFunction};

/// What to save of the tag of a text after its first piece.
pub fn saved_after<F: ResumableFunction>(key: &[u8], first: &[u8]) -> F::SavedHmac
    ensures { IsSavedFor (F.list F.start_of) F.step F.output F.are_words key.now first.now
        (F.SavedHmac.bytes result) }
{
    let mut mac = Hmac::<BlockHasher<F>>::new(key);
    mac.update(first);
    mac.save()
}

/// The tag of a text, given what was saved before its last piece, and this piece.
///
/// # Errors
///
/// `DeserializeStateError` if no state is saved as these bytes.
pub fn tag_of_saved<F: ResumableFunction>(
    saved: &F::SavedHmac,
    last: &[u8],
) -> Result<F::Digest, DeserializeStateError>
    ensures ok { IfOk result (λ tag. (key text : List ℕ)
        → IsSavedFor (F.list F.start_of) F.step F.output F.are_words key text
        (F.SavedHmac.bytes saved.now)
        → F.Digest.bytes tag
        ≡ hmac (hash (F.list F.start_of) F.step F.output) key (text ++ last.now)) }
    ensures err { IfErr result (λ _. (key text : List ℕ)
        → ¬ IsSavedFor (F.list F.start_of) F.step F.output F.are_words key text
        (F.SavedHmac.bytes saved.now)) }
{
    let mut mac = Hmac::<BlockHasher<F>>::load(saved)?;
    mac.update(last);
    Ok(mac.finalize())
}

ghost use Rattle.std.specs.Prelude.{◌∷◌, slice_index, bit_xor};

use crate::calling::Toy;

/// The tag of a text by the toy.
pub fn toy_tag(key: &[u8], text: &[u8]) -> [u8; 1]
    ensures { result ≡ hmac (hash (0 ∷ [])
        (λ state block. bit_xor (slice_index state 0) (slice_index block 0) ∷ []) (λ state. state))
        key.now text.now }
{
    let mut mac = Hmac::<Toy>::new(key);
    mac.update(text);
    mac.finalize()
}

ghost use Rattle.ripemd_mac.specs.Pbkdf2.{pbkdf2};

use ripemd_mac::{Pbkdf2Error, pbkdf2_hmac};

/// The key of 32 bytes that is derived from a password and a salt, with HMAC over RIPEMD-160.
///
/// # Errors
///
/// `Pbkdf2Error::NoRounds` if `rounds` is 0.
pub fn derived_key(password: &[u8], salt: &[u8], rounds: u32) -> Result<[u8; 32], Pbkdf2Error>
    ensures ok { IfOk result (λ key. key
        ≡ pbkdf2 (hmac (ripemd ripemd160)) 20 password.now salt.now rounds 32) }
{
    let mut key = [0; 32];
    pbkdf2_hmac::<Ripemd160>(password, salt, rounds, &mut key)?;
    Ok(key)
}
