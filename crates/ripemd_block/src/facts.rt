//! Facts of the definitions, published values and laws, as contracts of functions that do nothing.

ghost use Rattle.std.specs.Prelude.{◌≡◌, ℕ, ◌+◌, ◌-◌, ◌*◌, ◌%◌, ◌^◌, ◌<◌, List, [], ◌++◌, length, drop, slice_index_or};
ghost use Rattle.ripemd_block.specs.Standard.{block_size, word_bytes, eight_bytes, Parameters, compress, ripemd128, ripemd160, ripemd256, ripemd320, length_place, zero_count, padded_message, blocks, hash, ripemd};
ghost use Rattle.ripemd_block.specs.States.{HashState, AreWords, initial_state, new_state, fed, finish};
ghost use Rattle.ripemd_block.specs.Published.{DigestsOfEmpty, DigestsOfAbc, DigestsOfTwoBlocks, DigestsOfDigits, OrderOfLeftLine, OrderOfRightLine, ConstantsOfLines, AreWholeRoots, SavedCores, SavedHasher, SavedBlockAndTail, EndsOfLongMessages, StatesThatOccur};

/// In each of the four variants, the definitions give the published digests of the empty message, of "abc", of a
/// message of 56 bytes, whose padding needs a second block, and of "1234567890" eight times.
pub fn published_digests()
    ensures empty { DigestsOfEmpty }
    ensures abc { DigestsOfAbc }
    ensures two_blocks { DigestsOfTwoBlocks }
    ensures digits { DigestsOfDigits }
{}

/// The definitions give the published orders of the message words and the published constants. Each constant is its
/// root, rounded down.
pub fn published_tables()
    ensures left { OrderOfLeftLine }
    ensures right { OrderOfRightLine }
    ensures constants { ConstantsOfLines }
    ensures roots_of_two { AreWholeRoots 0 }
    ensures roots_of_three { AreWholeRoots 1 }
    ensures roots_of_five { AreWholeRoots 2 }
    ensures roots_of_seven { AreWholeRoots 3 }
{}

/// The definitions give the saved bytes of new cores of the four variants, of a RIPEMD-160 hasher that was fed "abc",
/// and, behind the words, of one that was fed 65 bytes.
#[tactic(auto, unfolding(crate::specs::Standard::Compression::registers_after, crate::specs::Standard::Compression::lines_after, crate::specs::Standard::Compression::compress, crate::specs::Standard::Hashing::blocks, crate::specs::Standard::Hashing::partial_block, crate::specs::States::fed, crate::specs::States::output_and_count, crate::specs::States::core_and_tail))]
pub fn saved_states()
    ensures cores { SavedCores }
    ensures hasher { SavedHasher }
    ensures block_and_tail { SavedBlockAndTail }
{}

/// The definitions give OpenSSL's digests where the length in bits or the count of blocks passes 2^64.
#[tactic(auto, unfolding(crate::specs::Standard::Compression::registers_after, crate::specs::Standard::Compression::lines_after, crate::specs::Standard::Compression::compress, crate::specs::Standard::Hashing::with_padding, crate::specs::Standard::Hashing::blocks, crate::specs::Standard::Hashing::partial_block, crate::specs::States::fed, crate::specs::States::finish))]
pub fn long_messages()
    ensures { EndsOfLongMessages }
{}

/// The greatest words, count and tail of RIPEMD-160 can occur; no greater ones can, nor another number of words.
pub fn states()
    ensures { StatesThatOccur }
{}

/// Each variant starts from as many words as its state has.
pub fn start_words()
    ensures of128 { AreWords 4 ripemd128.start }
    ensures of160 { AreWords 5 ripemd160.start }
    ensures of256 { AreWords 8 ripemd256.start }
    ensures of320 { AreWords 10 ripemd320.start }
{}

/// The padding has the fewest zero bytes that bring the length to the end of a block. A padded message is whole blocks
/// and, below 2^61 bytes, ends in its length in bits. Different messages have different padded messages; those of
/// different lengths below 2^61 bytes differ in the last block.
#[tactic(auto, using(crate::proofs::PaddedBlocks::whole_padded_message, crate::proofs::PaddedBlocks::end_padded_message, crate::proofs::PaddedBlocks::one_message, crate::proofs::PaddedBlocks::one_length))]
pub fn padding_laws()
    ensures zeros { (n : ℕ) → (n + 1 + zero_count n) % block_size ≡ length_place }
    ensures fewest { (n : ℕ) → zero_count n < block_size }
    ensures whole { (message : List ℕ) → length (padded_message message) % block_size ≡ 0 }
    ensures length { (message : List ℕ) → length message < 2 ^ 61
        → drop (length (padded_message message) - 8) (padded_message message)
        ≡ eight_bytes (8 * length message) }
    ensures one_message { (a b : List ℕ) → padded_message a ≡ padded_message b → a ≡ b }
    ensures one_length { (a b : List ℕ) → length a < 2 ^ 61 → length b < 2 ^ 61
        → slice_index_or (blocks (padded_message a)) (length (blocks (padded_message a)) - 1) []
        ≡ slice_index_or (blocks (padded_message b)) (length (blocks (padded_message b)) - 1) []
        → length a ≡ length b }
{}

/// However a message is cut into pieces, its state is that of the whole message, and finishing it gives the hash, for
/// every block function over lists of numbers and every length. For the four variants this is the digest.
pub fn state_laws()
    ensures nothing { (step : List ℕ → List ℕ → List ℕ) (h : HashState)
        → h.count < 2 ^ 64 → length h.tail < block_size → fed step h [] ≡ h }
    ensures joined { (step : List ℕ → List ℕ → List ℕ) (h : HashState) (x y : List ℕ)
        → fed step (fed step h x) y ≡ fed step h (x ++ y) }
    ensures finished { (start : List ℕ) (step : List ℕ → List ℕ → List ℕ) (output : List ℕ → List ℕ)
        (message : List ℕ)
        → finish step output (fed step (initial_state start) message)
        ≡ hash start step output message }
    ensures digest { (v : Parameters) (message : List ℕ)
        → finish (compress v) word_bytes (fed (compress v) (new_state v) message) ≡ ripemd v message }
{}
