//! Vectors with a word of each of four or eight messages.

ghost use Rattle.std.specs.Prelude.{◌≡◌, ◌<◌, ◌≤◌, ◌+◌, ◌*◌, ◌^◌, ℕ, List, slice_index, slice_index_or, bit_xor, bit_and};
ghost use Rattle.std.specs.Int.{w32, bit_not};
ghost use Rattle.std.specs.Mem.{type_size};
ghost use Rattle.ripemd_block.specs.Standard.{◌⊞◌, message_word, rol};
ghost use Rattle.ripemd_batch.specs.Lanes.{list_at, targets};

/// Vectors with a word of each message. Not exported, so that no other crate can call it.
pub trait Lanes: Copy {
    ghost words: { Self → List ℕ };

    ghost COUNT: { ℕ };

    /// The first words of an array.
    fn of(array: [u32; 8]) -> Self
        ensures { (j : ℕ) → j < COUNT → slice_index (words result) j ≡ slice_index array j };

    /// The word of message `j`.
    fn word(self, j: usize) -> u32
        requires { j < COUNT }
        ensures { result ≡ slice_index (words self) j };

    /// One word for all messages.
    fn splat(word: u32) -> Self
        ensures { (j : ℕ) → j < COUNT → slice_index (words result) j ≡ word };

    /// The same vector, with the fact that its words are below 2^32.
    fn known(self) -> Self
        ensures same { result ≡ self }
        ensures words { (j : ℕ) → j < COUNT → slice_index (words result) j < 2 ^ 32 };

    /// The sums of the words, modulo 2^32.
    fn add(self, other: Self) -> Self
        ensures { (j : ℕ) → j < COUNT → slice_index (words result) j
            ≡ slice_index (words self) j ⊞ slice_index (words other) j };

    /// The exclusive or of the words.
    fn xor(self, other: Self) -> Self
        ensures value { (j : ℕ) → j < COUNT → slice_index (words result) j
            ≡ bit_xor (slice_index (words self) j) (slice_index (words other) j) }
        ensures words { (j : ℕ) → j < COUNT → slice_index (words self) j < 2 ^ 32 }
        ensures other_words { (j : ℕ) → j < COUNT → slice_index (words other) j < 2 ^ 32 };

    /// The bitwise and of the words.
    fn and(self, other: Self) -> Self
        ensures value { (j : ℕ) → j < COUNT → slice_index (words result) j
            ≡ bit_and (slice_index (words self) j) (slice_index (words other) j) }
        ensures words { (j : ℕ) → j < COUNT → slice_index (words self) j < 2 ^ 32 };

    /// The complement of each word.
    fn not(self) -> Self
        ensures value { (j : ℕ) → j < COUNT → slice_index (words result) j
            ≡ bit_not w32 (slice_index (words self) j) }
        ensures words { (j : ℕ) → j < COUNT → slice_index (words self) j < 2 ^ 32 };

    /// Each word rotated to the left by `by` bits.
    fn rotate(self, by: u32) -> Self
        requires { (0 < by) × (by < 32) }
        ensures { (j : ℕ) → j < COUNT → slice_index (words result) j
            ≡ rol (slice_index (words self) j) by };

    /// Message words `4 * i` to `4 * i + 3` of the first `COUNT` blocks.
    fn four_message_words(blocks: &[&[u8; 64]; 8], i: usize) -> [Self; 4]
        requires { i < 4 }
        ensures { (k : ℕ) → k < 4 → (j : ℕ) → j < COUNT → (d : Self)
            → slice_index (words (slice_index_or result k d)) j
            ≡ message_word (list_at (targets blocks.now) j) (4 * i + k) };

    ghost few: { COUNT ≤ 8 };

    // Sixteen vectors can lie in memory.
    ghost small: { 16 * type_size Self.row < 2 ^ 63 };
}

/// The new word where that in `live` has all bits set, and the old one where it is 0.
#[tactic(auto, using(crate::proofs::Factored::selects_new, crate::proofs::Factored::selects_old))]
#[inline(always)]
pub(crate) fn select<V: Lanes>(live: V, new: V, old: V) -> V
    ensures taken { (j : ℕ) → j < V.COUNT → slice_index (V.words live) j ≡ 0xffff_ffff
        → slice_index (V.words result) j ≡ slice_index (V.words new) j }
    ensures kept { (j : ℕ) → j < V.COUNT → slice_index (V.words live) j ≡ 0
        → slice_index (V.words result) j ≡ slice_index (V.words old) j }
{
    old.xor(new.xor(old).and(live))
}
