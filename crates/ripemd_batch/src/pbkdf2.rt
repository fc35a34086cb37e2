//! Keys derived from passwords (PBKDF2 with HMAC, RFC 8018, section 5.2): up to eight blocks at once.

ghost use Rattle.std.specs.Prelude.{◌≡◌, ◌≢◌, ◌↔◌, ℕ, ◌<◌, ◌≤◌, ◌+◌, ◌-◌, ◌*◌, ◌%◌, ◌^◌, ◌++◌, length, slice_index, IfOk, IfErr};
ghost use Rattle.std.specs.Int.{w32, to_be_bytes, div_ceil};
ghost use Rattle.ripemd_block.specs.Standard.{hash};
ghost use Rattle.ripemd_mac.specs.Hmac.{filled, hmac};
ghost use Rattle.ripemd_mac.specs.Pbkdf2.{F, pbkdf2};
ghost use Rattle.ripemd_batch.specs.Pbkdf2.{HasBlocks, InGroup, IsFilled, block_at, combined_tags, pbkdf2_each, tag_after, total, KeyList};
ghost use Rattle.ripemd_batch.specs.Lanes.{hash_after, list_at, targets};

use crate::groups::{BatchDigest, StateOf, digest_of_digest, state_of_digest};
use crate::lane_states::LaneStates;
use crate::lanes::Lanes;
use crate::lists::state_after;
use ripemd::digest::Digest;
use ripemd_block::block_api::{BlockFunction, ByteArray};
use ripemd_mac::Pbkdf2Error;
use ripemd_mac::hmac::{filled, masked_keys};
use ripemd_mac::pbkdf2::{allowed, combined, write_front};
use std::marker::Model;

/// Derives a key from a password and a salt as [`ripemd_mac::pbkdf2_hmac`] does, up to eight blocks at once, and writes
/// it to `key`. Nothing is allocated.
///
/// # Errors
///
/// `NoRounds` if `rounds` is 0, else `KeyTooLong` if `key` is longer than 2^32 - 1 digests. Nothing is written then.
#[tactic(auto, unfolding(crate::specs::Pbkdf2::pbkdf2_each))]
pub fn pbkdf2_hmac<D: BatchDigest>(
    password: &[u8],
    salt: &[u8],
    rounds: u32,
    key: &mut [u8],
) -> Result<(), Pbkdf2Error>
    ensures ok { IfOk result (λ _. key.new ≡ pbkdf2 (hmac (hash D.start D.step D.output))
        D.OUTPUT_SIZE password.now salt.now rounds (length key.old)) }
    ensures fits { IfOk result (λ _. (rounds ≢ 0)
        × (length key.old ≤ (2 ^ 32 - 1) * D.OUTPUT_SIZE)) }
    ensures no_rounds { IfErr result (λ why. (why ≡ Pbkdf2Error.NoRounds) ↔ (rounds ≡ 0)) }
    ensures too_long { IfErr result (λ why. why ≡ Pbkdf2Error.KeyTooLong
        → (2 ^ 32 - 1) * D.OUTPUT_SIZE < length key.old) }
    ensures unchanged { IfErr result (λ _. key.new ≡ key.old) }
{
    let size = key.len();
    pbkdf2_hmac_each::<D>(&[password], &[salt], rounds, size, key)
}

/// Derives a key of `size` bytes from each password and the salt in its place, up to eight blocks at once, and writes
/// the keys to `keys`, one after another. There must be as many salts as passwords, and room for exactly as many keys.
/// Nothing is allocated.
///
/// # Errors
///
/// `NoRounds` if `rounds` is 0, else `KeyTooLong` if `size` is more than 2^32 - 1 digests. Nothing is written then.
#[tactic(auto, using(crate::proofs::KeyBlocks::count_fits, crate::proofs::KeyBlocks::all_fit, std::proofs::lemmas::List::take_all), unfolding(crate::specs::Pbkdf2::pbkdf2_each))]
pub fn pbkdf2_hmac_each<D: BatchDigest>(
    passwords: &[&[u8]],
    salts: &[&[u8]],
    rounds: u32,
    size: usize,
    keys: &mut [u8],
) -> Result<(), Pbkdf2Error>
    requires salts { length salts.now ≡ length passwords.now }
    requires room { length keys.old ≡ size * length passwords.now }
    ensures ok { IfOk result (λ _. keys.new ≡ pbkdf2_each (hmac (hash D.start D.step D.output))
        D.OUTPUT_SIZE (targets passwords.now) (targets salts.now) rounds size) }
    ensures fits { IfOk result (λ _. (rounds ≢ 0) × (size ≤ (2 ^ 32 - 1) * D.OUTPUT_SIZE)) }
    ensures no_rounds { IfErr result (λ why. (why ≡ Pbkdf2Error.NoRounds) ↔ (rounds ≡ 0)) }
    ensures too_long { IfErr result (λ why. why ≡ Pbkdf2Error.KeyTooLong
        → (2 ^ 32 - 1) * D.OUTPUT_SIZE < size) }
    ensures unchanged { IfErr result (λ _. keys.new ≡ keys.old) }
{
    let digest = digest_size::<D>();
    allowed(rounds, digest, size)?;
    let of = KeyBlocks {
        passwords,
        salts,
        rounds,
        count: size.div_ceil(digest),
    };
    let mut group = [[0; 64]; 8];
    for i in 0..passwords.len() {
        of.write_key::<D>(i, &mut group, &mut keys[size * i..size * i + size]);
    }
    Ok(())
}

// The blocks of the keys of a list, `count` of each.
#[derive(Drop)]
struct KeyBlocks<'a> {
    passwords: &'a [&'a [u8]],
    salts: &'a [&'a [u8]],
    rounds: u32,
    count: usize,
}

impl<'a> Model for KeyBlocks<'a> {
    ghost Value = { KeyList };

    ghost view = { λ k. record {
      passwords = targets k.passwords.now;
      salts = targets k.salts.now;
      rounds = k.rounds;
      count = k.count;
    } };

    ghost invariant = { λ k. (0 < k.rounds) × (length k.salts.now ≡ length k.passwords.now)
        × (k.count < 2 ^ 32) × (k.count * length k.passwords.now < 2 ^ 63) };
}

impl<'a> KeyBlocks<'a> {
    fn total(&self) -> usize
        ensures value { result ≡ total self.now }
        ensures fits { result < 2 ^ 63 }
    {
        self.count * self.passwords.len()
    }

    // Writes key `i`. `group` has the eight blocks around the next one, unless that begins a group.
    fn write_key<D: BatchDigest>(&self, i: usize, group: &mut [[u8; 64]; 8], key: &mut [u8])
        requires pair { i < length self.now.passwords }
        requires count { self.now.count ≡ div_ceil (length key.old) D.OUTPUT_SIZE }
        requires group { InGroup D.OUTPUT_SIZE (hmac (hash D.start D.step D.output)) self.now
            (self.now.count * i) group.old }
        ensures key { key.new ≡ pbkdf2 (hmac (hash D.start D.step D.output)) D.OUTPUT_SIZE
            (list_at self.now.passwords i) (list_at self.now.salts i) self.now.rounds
            (length key.old) }
        ensures group { InGroup D.OUTPUT_SIZE (hmac (hash D.start D.step D.output)) self.now
            (self.now.count * (i + 1)) group.new }
    {
        let size = digest_size::<D>();
        for b in 0..self.count {
            let k = self.count * i + b;
            self.begin_group::<D>(k, group);
            let end = key.len().min(size * b + size);
            write_front(&group[k % 8], &mut key[size * b..end]);
        }
    }

    // Derives the group of eight that begins with block `k`, if one does. A last block alone takes no lanes.
    fn begin_group<D: BatchDigest>(&self, k: usize, group: &mut [[u8; 64]; 8])
        requires { k < total self.now }
        ensures { InGroup D.OUTPUT_SIZE (hmac (hash D.start D.step D.output)) self.now k group.old
            → HasBlocks D.OUTPUT_SIZE (hmac (hash D.start D.step D.output)) self.now (k - k % 8)
            group.new }
    {
        if 0 < k % 8 {
            return;
        }
        let live = self.total() - k;
        if live == 1 {
            let block = one_by_one::<D>(self.chain_at::<D>(k), self.rounds);
            group[0] = block;
        } else if live <= 4 {
            let blocks = self.blocks_at_once::<D, D::Four>(k);
            *group = blocks;
        } else {
            let blocks = self.blocks_at_once::<D, D::Eight>(k);
            *group = blocks;
        }
    }

    // The blocks from `k` on, one in each lane, filled with zeros. If there are fewer than eight, the rest is any.
    fn blocks_at_once<D: BatchDigest, S: LaneStates<Function = D::Function>>(
        &self,
        k: usize,
    ) -> [[u8; 64]; 8]
        requires inside { k < total self.now }
        requires lanes { (j : ℕ) → j < 8 → k + j < total self.now → j < S.Vector.COUNT }
        ensures { (from : ℕ) → from ≡ k
            → HasBlocks D.OUTPUT_SIZE (hmac (hash D.start D.step D.output)) self.now from result }
    {
        let live = (self.total() - k).min(8);
        let start = S::splat(D::Function::start());
        let mut inner = start;
        let mut outer = start;
        let mut first = start;
        for j in 0..live {
            let chain = self.chain_at::<D>(k + j);
            let lane = only_lane(j);
            inner = S::select(lane, S::splat(chain.inner), inner);
            outer = S::select(lane, S::splat(chain.outer), outer);
            first = S::select(lane, S::splat(chain.first), first);
        }
        let sums = combined_tags(inner, outer, first, self.rounds);
        // Proof only: its contract gives the size of a digest.
        digest_size::<D>();
        blocks_of(&sums, live)
    }

    fn chain_at<D: BatchDigest>(&self, k: usize) -> Chain<D>
        requires { k < total self.now }
        ensures inner { D.Function.is_state result.inner }
        ensures outer { D.Function.is_state result.outer }
        ensures block { combined_tags (tag_after D.step D.output
            (D.Function.list result.inner) (D.Function.list result.outer)) self.now.rounds
            (D.output (D.Function.list result.first))
            ≡ block_at (hmac (hash D.start D.step D.output)) self.now k }
    {
        let i = k / self.count;
        chain_of::<D>(
            self.passwords[i],
            self.salts[i],
            (k % self.count) as u32 + 1,
        )
    }
}

// All bits in lane `j`, and 0 in the others.
fn only_lane<V: Lanes>(j: usize) -> V
    requires { j < 8 }
    ensures yes { j < V.COUNT → slice_index (V.words result) j ≡ 0xffff_ffff }
    ensures no { (i : ℕ) → i < V.COUNT → i ≢ j → slice_index (V.words result) i ≡ 0 }
{
    let mut lanes = [0; 8];
    lanes[j] = 0xffff_ffff;
    V::of(lanes)
}

// The chain of tags of a block: the states after the two masked keys, and the state that gives the first tag.
#[derive(Drop)]
struct Chain<D: BatchDigest> {
    inner: StateOf<D>,
    outer: StateOf<D>,
    first: StateOf<D>,
}

// The chain of block `number` of a key.
fn chain_of<D: BatchDigest>(password: &[u8], salt: &[u8], number: u32) -> Chain<D>
    ensures inner { D.Function.is_state result.inner }
    ensures outer { D.Function.is_state result.outer }
    ensures block { (rounds : ℕ) → combined_tags (tag_after D.step D.output
        (D.Function.list result.inner) (D.Function.list result.outer)) rounds
        (D.output (D.Function.list result.first))
        ≡ F (hmac (hash D.start D.step D.output)) password.now salt.now rounds number }
{
    let keys = masked_keys::<D>(password);
    let digest = inner_digest::<D>(&keys.inner, salt, number);
    let outer = state_after::<D::Function>(keys.outer);
    Chain {
        inner: state_after::<D::Function>(keys.inner),
        outer,
        first: state_of_digest::<D::Function>(outer, D::output_bytes(&digest)),
    }
}

fn inner_digest<D: Digest>(inner_key: &[u8; 64], salt: &[u8], number: u32) -> D::Output
    ensures { D.bytes_of result ≡ hash D.start D.step D.output
        (inner_key.now ++ salt.now ++ to_be_bytes w32 number) }
{
    let mut hasher = D::new_with_prefix(inner_key);
    hasher.update(salt);
    hasher.update(&number.to_be_bytes());
    hasher.finalize()
}

// The exclusive or of the first `rounds` tags of a chain, filled with zeros.
fn one_by_one<D: BatchDigest>(chain: Chain<D>, rounds: u32) -> [u8; 64]
    requires rounds { 0 < rounds }
    requires inner { D.Function.is_state chain.inner }
    requires outer { D.Function.is_state chain.outer }
    ensures { IsFilled D.OUTPUT_SIZE result (combined_tags (tag_after D.step D.output
        (D.Function.list chain.inner) (D.Function.list chain.outer)) rounds
        (D.output (D.Function.list chain.first))) }
{
    let mut tag = D::Function::output(chain.first);
    let mut sum = filled(D::output_bytes(&tag));
    for k in 1..rounds {
        let inner = digest_of_digest::<D::Function>(chain.inner, D::output_bytes(&tag));
        let next = digest_of_digest::<D::Function>(chain.outer, D::output_bytes(&inner));
        tag = next;
        sum = combined(&sum, &filled(D::output_bytes(&next)));
    }
    sum
}

/// How many bytes a digest has.
pub fn digest_size<D: BatchDigest>() -> usize
    ensures size { result ≡ D.OUTPUT_SIZE }
    ensures array { result ≡ D.Output.LEN }
    ensures some { 0 < result }
    ensures most { result ≤ 64 }
{
    let zeros = D::Output::zeros();
    // Proof only: their contracts give the size of the array.
    zeros.as_bytes();
    D::output_bytes(&zeros);
    D::OUTPUT_SIZE
}

// The digests of the first `live` messages, filled with zeros.
#[inline(always)]
fn blocks_of<S: LaneStates>(states: &S, live: usize) -> [[u8; 64]; 8]
    requires { live ≤ S.Vector.COUNT }
    ensures { (j : ℕ) → j < 8 → j < live → IsFilled S.Function.Digest.LEN (list_at result j)
        (S.Function.output (S.words_of j states.now)) }
{
    [
        digest_block(states, 0, live),
        digest_block(states, 1, live),
        digest_block(states, 2, live),
        digest_block(states, 3, live),
        digest_block(states, 4, live),
        digest_block(states, 5, live),
        digest_block(states, 6, live),
        digest_block(states, 7, live),
    ]
}

// The digest of message `j`, filled with zeros, or only zeros from `live` on.
#[inline(never)]
fn digest_block<S: LaneStates>(states: &S, j: usize, live: usize) -> [u8; 64]
    requires { live ≤ S.Vector.COUNT }
    ensures { j < live → IsFilled S.Function.Digest.LEN result
        (S.Function.output (S.words_of j states.now)) }
{
    if j < live {
        filled(states.digest_of(j).as_bytes())
    } else {
        [0; 64]
    }
}

// The states that give the exclusive or of `rounds` tags: the outputs of `first`, their tags, the tags of these, and so
// on.
#[tactic(auto, using(crate::proofs::Chaining::next_tag, crate::proofs::Chaining::next_combined), unfolding(crate::specs::Pbkdf2::combined_tags))]
#[inline(never)]
fn combined_tags<S: LaneStates>(inner: S, outer: S, first: S, rounds: u32) -> S
    requires { 0 < rounds }
    ensures { (j : ℕ) → j < S.Vector.COUNT → S.Function.output (S.words_of j result)
        ≡ combined_tags (tag_after S.Function.step S.Function.output (S.words_of j inner)
        (S.words_of j outer)) rounds (S.Function.output (S.words_of j first)) }
{
    let mut tag = first;
    let mut sum = first;
    for k in 1..rounds {
        let next = tag_after(inner, outer, tag);
        tag = next;
        let added = sum.xor(next);
        sum = added;
    }
    sum
}

// The states that give the tags of the outputs of `text`. Both halves go through one call, so that the compiler writes
// out its rounds.
#[inline(always)]
fn tag_after<S: LaneStates>(inner: S, outer: S, text: S) -> S
    ensures { (j : ℕ) → j < S.Vector.COUNT → S.Function.output (S.words_of j result)
        ≡ tag_after S.Function.step S.Function.output (S.words_of j inner) (S.words_of j outer)
        (S.Function.output (S.words_of j text)) }
{
    let mut digest = text;
    for half in 0..2 {
        let next = digest_after(first_of_half(half, inner, outer), digest);
        digest = next;
    }
    digest
}

// Where the inner or the outer half of a tag starts.
#[inline(always)]
fn first_of_half<S: LaneStates>(half: usize, inner: S, outer: S) -> S
    ensures inner { (j : ℕ) → j < S.Vector.COUNT → half ≡ 0
        → S.words_of j result ≡ S.words_of j inner }
    ensures outer { (j : ℕ) → j < S.Vector.COUNT → half ≡ 1
        → S.words_of j result ≡ S.words_of j outer }
{
    if half == 0 { inner } else { outer }
}

// The states that give the digests of the outputs of `digest` after one block, which led to `first`.
#[tactic(auto, using(crate::proofs::Chaining::hash_of_one))]
#[inline(always)]
fn digest_after<S: LaneStates>(first: S, digest: S) -> S
    ensures { (j : ℕ) → j < S.Vector.COUNT → S.Function.output (S.words_of j result)
        ≡ hash_after 64 (S.words_of j first) S.Function.step S.Function.output
        (S.Function.output (S.words_of j digest)) }
{
    first.compress(&digest.last_words())
}
