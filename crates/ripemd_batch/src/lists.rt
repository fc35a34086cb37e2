//! Digests of many messages, and tags of many texts under one key.

ghost use Rattle.std.specs.Prelude.{◌≡◌, ◌+◌, ◌*◌, ◌^◌, ◌<◌, ◌≤◌, length, map, option_map, IfSome};
ghost use Rattle.std.specs.List.{flat_map};
ghost use Rattle.ripemd_block.specs.Standard.{hash};
ghost use Rattle.ripemd_mac.specs.Hmac.{hmac};
ghost use Rattle.ripemd_batch.specs.Lanes.{PutFrom, made_by, targets, ListStates};

use crate::groups::{
    BatchDigest, StateOf, count_blocks, digest_of_digest, digest_one, group_end, message_at,
    walk_messages,
};
use crate::lane_states::LaneStates;
use crate::places::{Arrays, Bytes, Places};
use ripemd_block::block_api::{BlockFunction, ByteArray, ListBlockFunction, walk};
use ripemd_mac::hmac::masked_keys;
use std::marker::Model;

// A group takes eight lanes if it has at least this many times the blocks of its longest message: five messages of one
// length take less time in eight lanes of AVX2 than four at once and one alone.
const FOR_EIGHT: usize = 5;

// A group takes four lanes if it has more than this many times the blocks of its longest message: four lanes take
// nearly as long as two messages one after another.
const FOR_FOUR: usize = 2;

/// Writes the digest of message `i` to `digests[i]`. There must be as many digests as messages. Nothing is allocated.
///
/// Messages go in groups of eight as they come, and a group takes as long as its longest message: neighbours of like
/// length are fastest. A group that would leave most lanes idle goes by fours, or one by one.
pub fn digest_each<D: BatchDigest>(messages: &[&[u8]], digests: &mut [D::Output])
    requires { length digests.old ≡ length messages.now }
    ensures { map D.bytes_of digests.new
        ≡ map (hash D.start D.step D.output) (targets messages.now) }
{
    ListHasher::<D>::new().hash_each(messages, digests);
}

/// Writes the tag of text `i` under the key (RFC 2104) to `tags[i]`, as `Hmac` makes it. The key has any length. There
/// must be as many tags as texts. Nothing is allocated.
///
/// The key is hashed once. The texts go in groups, as messages do in [`digest_each`].
pub fn tag_each<D: BatchDigest>(key: &[u8], texts: &[&[u8]], tags: &mut [D::Output])
    requires { length tags.old ≡ length texts.now }
    ensures { map D.bytes_of tags.new
        ≡ map (hmac (hash D.start D.step D.output) key.now) (targets texts.now) }
{
    ListHasher::<D>::keyed(key).hash_each(texts, tags);
}

/// Makes the digest of each message of a list, or its tag under a key (RFC 2104), for any number of lists. Contracts
/// see the states from which it hashes.
#[derive(Drop)]
pub struct ListHasher<D: BatchDigest> {
    // The state from which messages are hashed, and how many bytes led to it.
    first: StateOf<D>,
    before: u64,
    // For tags, the state after the outer masked key.
    outer: Option<StateOf<D>>,
    // Whether at most four messages go at once.
    by_fours: bool,
}

impl<D: BatchDigest> Model for ListHasher<D> {
    ghost Value = { ListStates };

    ghost view = { λ h. record {
      before = h.before;
      first = D.Function.list h.first;
      outer = option_map D.Function.list h.outer;
    } };

    ghost invariant = { λ h. D.Function.is_state h.first
        × IfSome h.outer D.Function.is_state };
}

impl<D: BatchDigest> ListHasher<D> {
    /// A hasher that makes digests.
    #[tactic(auto, using(crate::proofs::Chaining::hash_after_start))]
    pub fn new() -> ListHasher<D>
        ensures { made_by D.step D.output result ≡ hash D.start D.step D.output }
    {
        ListHasher {
            first: D::Function::start(),
            before: 0,
            outer: None,
            by_fours: false,
        }
    }

    /// A hasher that makes tags under a key of any length, which is hashed here, once for all lists.
    pub fn keyed(key: &[u8]) -> ListHasher<D>
        ensures { made_by D.step D.output result ≡ hmac (hash D.start D.step D.output) key.now }
    {
        let keys = masked_keys::<D>(key);
        ListHasher {
            first: state_after::<D::Function>(keys.inner),
            before: 64,
            outer: Some(state_after::<D::Function>(keys.outer)),
            by_fours: false,
        }
    }

    /// The hasher for a processor with vectors of so many words. With fewer than eight, at most four messages go at
    /// once: on a Xeon of Cascade Lake eight took longer than twice four.
    pub fn in_vectors_of(self, words: u32) -> ListHasher<D>
        ensures { result ≡ self }
    {
        ListHasher {
            first: self.first,
            before: self.before,
            outer: self.outer,
            by_fours: words < 8,
        }
    }

    /// Writes the output of message `i` to `outputs[i]`. There must be as many outputs as messages. Nothing is
    /// allocated.
    #[inline(always)]
    pub fn hash_each(&self, messages: &[&[u8]], outputs: &mut [D::Output])
        requires { length outputs.old ≡ length messages.now }
        ensures { map D.bytes_of outputs.new
            ≡ map (made_by D.step D.output self.now) (targets messages.now) }
    {
        self.put_each::<Arrays>(messages, outputs);
    }

    /// Writes the outputs of the messages to `bytes`, one after another. `bytes` must have exactly their size. Nothing
    /// is allocated.
    #[inline(always)]
    #[tactic(auto, using(crate::proofs::Chunks::count_chunks))]
    pub fn write_joined(&self, messages: &[&[u8]], bytes: &mut [u8])
        requires { length bytes.old ≡ length messages.now * D.Output.LEN }
        ensures { bytes.new ≡ flat_map (made_by D.step D.output self.now) (targets messages.now) }
    {
        self.put_each::<Bytes>(messages, bytes);
    }

    // Puts the output of each message in its place. One or two messages go one by one: they would leave most lanes
    // idle.
    #[inline(always)]
    fn put_each<P: Places<D::Output>>(&self, messages: &[&[u8]], places: &mut [P::Element])
        requires { length (P.list places.old) ≡ length messages.now }
        ensures { P.list places.new
            ≡ map (made_by D.Function.step D.Function.output self.now) (targets messages.now) }
    {
        if messages.len() <= 2 {
            self.put_one_by_one::<P>(messages, 0, places);
        } else {
            self.put_groups::<P>(messages, 0, places);
        }
    }

    // Puts the outputs in the places from `at` on, in groups of eight. Not inlined, so that few messages take none of
    // its stack; without the loop over groups in it, the compiler does not inline the rounds.
    #[inline(never)]
    fn put_groups<P: Places<D::Output>>(
        &self,
        messages: &[&[u8]],
        at: usize,
        places: &mut [P::Element],
    )
        requires fits { at + length messages.now < 2 ^ 64 }
        requires room { at + length messages.now ≤ length (P.list places.old) }
        ensures { PutFrom at (map (made_by D.Function.step D.Function.output self.now)
            (targets messages.now)) (P.list places.old) (P.list places.new) }
    {
        for g in 0..messages.len().div_ceil(8) {
            let end = group_end(messages.len(), 8 * g, 8);
            self.put_group::<P>(&messages[8 * g..end], at + 8 * g, places);
        }
    }

    // Puts the outputs of at most eight messages: at once if that is faster, else by fours.
    fn put_group<P: Places<D::Output>>(
        &self,
        messages: &[&[u8]],
        at: usize,
        places: &mut [P::Element],
    )
        requires few { length messages.now ≤ 8 }
        requires fits { at + length messages.now < 2 ^ 64 }
        requires room { at + length messages.now ≤ length (P.list places.old) }
        ensures { PutFrom at (map (made_by D.Function.step D.Function.output self.now)
            (targets messages.now)) (P.list places.old) (P.list places.new) }
    {
        if !self.by_fours {
            let (all, longest) = count_blocks(messages);
            if all >= longest.saturating_mul(FOR_EIGHT) {
                self.put_lanes::<P, D::Eight>(messages, at, places);
                return;
            }
        }
        for g in 0..messages.len().div_ceil(4) {
            let end = group_end(messages.len(), 4 * g, 4);
            self.put_four::<P>(&messages[4 * g..end], at + 4 * g, places);
        }
    }

    // Puts the outputs of at most four messages: at once if that is faster, else one by one.
    fn put_four<P: Places<D::Output>>(
        &self,
        messages: &[&[u8]],
        at: usize,
        places: &mut [P::Element],
    )
        requires few { length messages.now ≤ 4 }
        requires fits { at + length messages.now < 2 ^ 64 }
        requires room { at + length messages.now ≤ length (P.list places.old) }
        ensures { PutFrom at (map (made_by D.Function.step D.Function.output self.now)
            (targets messages.now)) (P.list places.old) (P.list places.new) }
    {
        let (all, longest) = count_blocks(messages);
        if all > longest.saturating_mul(FOR_FOUR) {
            self.put_lanes::<P, D::Four>(messages, at, places);
        } else {
            self.put_one_by_one::<P>(messages, at, places);
        }
    }

    // Puts the outputs of messages hashed at once.
    fn put_lanes<P: Places<D::Output>, S: LaneStates<Function = D::Function>>(
        &self,
        messages: &[&[u8]],
        at: usize,
        places: &mut [P::Element],
    )
        requires few { length messages.now ≤ S.Vector.COUNT }
        requires fits { at + length messages.now < 2 ^ 64 }
        requires room { at + length messages.now ≤ length (P.list places.old) }
        ensures { PutFrom at (map (made_by D.Function.step D.Function.output self.now)
            (targets messages.now)) (P.list places.old) (P.list places.new) }
    {
        let states: S = walk_messages(self.first, self.before, self.outer, messages);
        // Eight turns: so the compiler knows the lane of each.
        for j in 0..8 {
            if j < messages.len() {
                let output = states.digest_of(j);
                P::put(places, at + j, output);
            }
        }
    }

    #[inline(always)]
    fn put_one_by_one<P: Places<D::Output>>(
        &self,
        messages: &[&[u8]],
        at: usize,
        places: &mut [P::Element],
    )
        requires fits { at + length messages.now < 2 ^ 64 }
        requires room { at + length messages.now ≤ length (P.list places.old) }
        ensures { PutFrom at (map (made_by D.Function.step D.Function.output self.now)
            (targets messages.now)) (P.list places.old) (P.list places.new) }
    {
        for j in 0..messages.len() {
            let output = self.hash_one(message_at(messages, j));
            P::put(places, at + j, output);
        }
    }

    #[inline(always)]
    fn hash_one(&self, message: &[u8]) -> D::Output
        ensures { D.Output.bytes result
            ≡ made_by D.Function.step D.Function.output self.now message.now }
    {
        let digest = digest_one::<D::Function>(self.first, self.before, message);
        match self.outer {
            Some(outer) => digest_of_digest::<D::Function>(outer, digest.as_bytes()),
            None => digest,
        }
    }
}

// The state after a block, from the start.
pub(crate) fn state_after<F: ListBlockFunction>(block: [u8; 64]) -> F::State
    ensures value { F.list result ≡ F.step (F.list F.start_of) block }
    ensures valid { F.is_state result }
{
    walk::<F>(F::start(), &[block])
}
