//! The tag of a text under a key (RFC 2104).

ghost use Rattle.std.specs.Prelude.{◌≡◌, ◌≢◌, ◌≤◌, ◌↔◌, ℕ, List, [], ◌++◌, length, IsTrue, IfOk, IfErr, ⊤};
ghost use Rattle.ripemd.specs.Standard.{hash};
ghost use Rattle.ripemd_mac.specs.Hmac.{
  KeyedState,
  StandsFor,
  fed_text,
  filled,
  hmac,
  key_block,
  keyed_state,
  masked,
  tag_of,
};
ghost use Rattle.ripemd_mac.specs.Saved.{IsKeyedState, IsSavedFor, hmac_bytes};
ghost use Rattle.ripemd_mac.specs.Laws as laws;

use ripemd::block_api::{ByteArray, write_short};
use ripemd::digest::{BlockDigest, Digest, SerializableState};
use ripemd::incremental::Incremental;
use ripemd::state::DeserializeStateError;
use ripemd::{BlockHasher, ListBlockFunction, ResumableFunction};
use std::alloc::AllocError;
use std::marker::Model;

/// An HMAC state of a key and a text, by any hash function (RFC 2104). How the text is cut into pieces makes no
/// difference. No call allocates, and only `load` and `load_slice` can fail.
#[derive(Drop)]
pub struct Hmac<D: Digest> {
    inner: D,
    outer: D,
}

impl<D: Digest> Model for Hmac<D> {
    ghost Value = { KeyedState };

    ghost view = { λ h. record { inner = D.meaning h.inner; outer = D.meaning h.outer } };
}

impl<D: BlockDigest> Hmac<D> {
    /// The state of a key, of any length, and the empty text. A key longer than 64 bytes counts as its digest.
    pub fn new(key: &[u8]) -> Hmac<D>
        ensures state { result ≡ keyed_state D.start D.step D.output key.now }
        ensures text { StandsFor D.start D.step D.output key.now [] result }
    {
        let keys = masked_keys::<D>(key);
        Hmac {
            inner: D::new_with_prefix(&keys.inner),
            outer: D::new_with_prefix(&keys.outer),
        }
    }

    /// The state of two hashers: the inner takes in the text, the outer the inner digest.
    #[inline(always)]
    pub fn from_hashers(inner: D, outer: D) -> Hmac<D>
        ensures inner { result.inner ≡ D.meaning inner }
        ensures outer { result.outer ≡ D.meaning outer }
    {
        Hmac { inner, outer }
    }

    /// The inner and the outer hasher, as secret as the key.
    #[inline(always)]
    pub fn hashers(&self) -> (&D, &D)
        ensures inner { D.meaning result.0.now ≡ self.now.inner }
        ensures outer { D.meaning result.1.now ≡ self.now.outer }
    {
        (&self.inner, &self.outer)
    }

    /// Appends bytes to the text.
    pub fn update(&mut self, bytes: &[u8])
        ensures state { self.new ≡ fed_text D.step self.old bytes.now }
        ensures text { (key text : List ℕ) → StandsFor D.start D.step D.output key text self.old
            → StandsFor D.start D.step D.output key (text ++ bytes.now) self.new }
    {
        self.inner.update(bytes);
    }

    /// An independent copy. To tag many texts under one key, copy the state of the empty text: the key is then hashed
    /// once.
    pub fn duplicate(&self) -> Hmac<D>
        ensures { result ≡ self.now }
    {
        Hmac {
            inner: self.inner.duplicate(),
            outer: self.outer.duplicate(),
        }
    }

    /// Gives the tag.
    pub fn finalize(self) -> D::Output
        ensures state { D.bytes_of result ≡ tag_of D.step D.output self }
        ensures text { (key text : List ℕ) → StandsFor D.start D.step D.output key text self
            → D.bytes_of result ≡ hmac (hash D.start D.step D.output) key text }
        ensures size { length (D.bytes_of result) ≡ D.OUTPUT_SIZE }
    {
        let inner = self.inner.finalize();
        self.outer.chain_update(D::output_bytes(&inner)).finalize()
    }

    /// Whether these bytes are the whole tag. It compares all bytes of a tag of the right length, whatever they are,
    /// and refuses another length at once. Constant time is not proved.
    pub fn verify(self, tag: &[u8]) -> bool
        ensures state { IsTrue result ↔ (tag.now ≡ tag_of D.step D.output self) }
        ensures text { (key text : List ℕ) → StandsFor D.start D.step D.output key text self
            → IsTrue result ↔ (tag.now ≡ hmac (hash D.start D.step D.output) key text) }
    {
        let whole = self.finalize();
        all_equal(D::output_bytes(&whole), tag)
    }
}

impl<D: BlockDigest> Clone for Hmac<D> {
    ghost is_clone = { λ x y. y ≡ x };

    ghost is_infallible = { λ _. ⊤ };

    fn clone(&self) -> Result<Hmac<D>, AllocError> {
        Ok(self.duplicate())
    }
}

impl<F: ListBlockFunction> Incremental for Hmac<BlockHasher<F>> {
    type Hash = BlockHasher<F>;

    ghost Origin = { List ℕ };

    ghost new_state = { keyed_state (F.list F.start_of) F.step F.output };

    ghost fed = { fed_text F.step };

    ghost finish = { tag_of F.step F.output };

    ghost whole = { hmac (hash (F.list F.start_of) F.step F.output) };

    fn update(&mut self, bytes: &[u8]) {
        Hmac::update(self, bytes);
    }

    fn finalize(self) -> F::Digest {
        Hmac::finalize(self)
    }

    ghost fed_nothing = { laws.fed_nothing (F.list F.start_of) F.step F.output };

    ghost fed_twice = { laws.fed_twice F.step };

    ghost finish_fed = { laws.tag_of_text (F.list F.start_of) F.step F.output };
}

impl<F: ResumableFunction> Hmac<BlockHasher<F>> {
    /// Saves the state: the saved bytes of the inner hasher and then of the outer. They are as secret as the key:
    /// whoever has them can make tags.
    pub fn save(&self) -> F::SavedHmac
        ensures bytes { F.SavedHmac.bytes result ≡ hmac_bytes F.output self.now }
        ensures valid { IsKeyedState F.are_words self.now }
        ensures text { (key text : List ℕ)
            → StandsFor (F.list F.start_of) F.step F.output key text self.now
            → IsSavedFor (F.list F.start_of) F.step F.output F.are_words key text
            (F.SavedHmac.bytes result) }
    {
        let inner = self.inner.serialize();
        let outer = self.outer.serialize();
        F::SavedHmac::from_slices(inner.as_bytes(), outer.as_bytes()).unwrap()
    }

    /// Loads a saved state.
    ///
    /// # Errors
    ///
    /// `DeserializeStateError` if no state has these saved bytes.
    pub fn load(saved: &F::SavedHmac) -> Result<Hmac<BlockHasher<F>>, DeserializeStateError>
        ensures ok { IfOk result (λ mac. hmac_bytes F.output mac ≡ F.SavedHmac.bytes saved.now) }
        ensures valid { IfOk result (IsKeyedState F.are_words) }
        ensures text { IfOk result (λ mac. (key text : List ℕ)
            → IsSavedFor (F.list F.start_of) F.step F.output F.are_words key text
            (F.SavedHmac.bytes saved.now)
            → StandsFor (F.list F.start_of) F.step F.output key text mac) }
        ensures err { IfErr result (λ _. (state : KeyedState) → IsKeyedState F.are_words state
            → hmac_bytes F.output state ≢ F.SavedHmac.bytes saved.now) }
    {
        Self::load_slice(saved.as_bytes())
    }

    /// Loads a state from its saved bytes.
    ///
    /// # Errors
    ///
    /// `DeserializeStateError` if no state has these saved bytes, so for any other number of them.
    pub fn load_slice(bytes: &[u8]) -> Result<Hmac<BlockHasher<F>>, DeserializeStateError>
        ensures ok { IfOk result (λ mac. hmac_bytes F.output mac ≡ bytes.now) }
        ensures valid { IfOk result (IsKeyedState F.are_words) }
        ensures text { IfOk result (λ mac. (key text : List ℕ)
            → IsSavedFor (F.list F.start_of) F.step F.output F.are_words key text bytes.now
            → StandsFor (F.list F.start_of) F.step F.output key text mac) }
        ensures err { IfErr result (λ _. (state : KeyedState) → IsKeyedState F.are_words state
            → hmac_bytes F.output state ≢ bytes.now) }
    {
        if bytes.len() != <F::SavedHmac as ByteArray>::LEN {
            return Err(DeserializeStateError);
        }
        let (inner, outer) = bytes.split_at(<F::SavedHasher as ByteArray>::LEN);
        Ok(Hmac {
            inner: BlockHasher::load_slice(inner)?,
            outer: BlockHasher::load_slice(outer)?,
        })
    }
}

/// Whether bytes are equal. If their lengths are, it compares all bytes, whatever they are.
#[tactic(auto, using(crate::proofs::Differences::difference_more, crate::proofs::Differences::same_or_none))]
pub fn all_equal(a: &[u8], b: &[u8]) -> bool
    ensures { IsTrue result ↔ (a.now ≡ b.now) }
{
    if a.len() != b.len() {
        return false;
    }
    let mut difference = 0;
    for i in 0..a.len() {
        difference |= a[i] ^ b[i];
    }
    difference == 0
}

/// A key as the two blocks that are hashed first, as secret as the key.
#[derive(Clone, Copy)]
pub struct MaskedKeys {
    /// The block before the text.
    pub inner: [u8; 64],
    /// The block before the inner digest.
    pub outer: [u8; 64],
}

/// The key, or its digest if longer than 64 bytes, filled with zeros to 64 bytes, each byte xored with 0x36 for `inner`
/// and with 0x5c for `outer` (RFC 2104). The tag of a text is `hash(outer ++ hash(inner ++ text))`.
pub fn masked_keys<D: BlockDigest>(key: &[u8]) -> MaskedKeys
    ensures inner { result.inner
        ≡ masked 0x36 (key_block (hash D.start D.step D.output) key.now) }
    ensures outer { result.outer
        ≡ masked 0x5c (key_block (hash D.start D.step D.output) key.now) }
{
    let block = key_block::<D>(key);
    MaskedKeys {
        inner: masked(&block, 0x36),
        outer: masked(&block, 0x5c),
    }
}

#[tactic(auto, unfolding(crate::specs::Hmac::key_block))]
fn key_block<D: BlockDigest>(key: &[u8]) -> [u8; 64]
    ensures { result ≡ key_block (hash D.start D.step D.output) key.now }
{
    if key.len() > 64 {
        let digest = D::digest(key);
        filled(D::output_bytes(&digest))
    } else {
        filled(key)
    }
}

/// At most 64 bytes, filled with zeros to a block.
#[inline(always)]
#[tactic(auto, using(crate::proofs::Deriving::rest_of_zeros))]
pub fn filled(bytes: &[u8]) -> [u8; 64]
    requires { length bytes.now ≤ 64 }
    ensures { result ≡ filled bytes.now }
{
    let mut block = [0; 64];
    write_short(&mut block, bytes);
    block
}

fn masked(block: &[u8; 64], mask: u8) -> [u8; 64]
    ensures { result ≡ masked mask block.now }
{
    let mut bytes = *block;
    for byte in bytes.iter_mut() {
        *byte ^= mask;
    }
    bytes
}
