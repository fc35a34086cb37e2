//! Facts of the definitions. The functions do nothing, or call one that does nothing: their contracts are the facts.

ghost use Rattle.std.specs.Prelude.{◌≡◌, [], ◌∷◌, ◌++◌, replicate};
ghost use Rattle.ripemd_c.specs.Records.{records};
ghost use Rattle.ripemd_c.specs.Worked.{WorkedDigests, WorkedHmacStates, WorkedKept, WorkedKeyLists, WorkedKeys, WorkedLists, WorkedStates, WorkedTags};

/// Digests, tags and keys: what is written, and what is refused.
pub fn worked_calls()
    ensures digests { WorkedDigests }
    ensures tags { WorkedTags }
    ensures keys { WorkedKeys }
{}

/// Kept bytes, with zeros after the tails.
pub fn kept_bytes()
    ensures { WorkedKept }
{}

/// States of RIPEMD-160 and of HMAC over it: what they are kept as, what comes of them, and bytes that are none.
pub fn worked_states()
    ensures states { WorkedStates }
    ensures hmac_states { WorkedHmacStates }
{
    ripemd_mac::facts::saved_tag();
}

/// Three records of two bytes, and a byte after them; two that are longer than a block; and two empty ones.
pub fn worked_records()
    ensures short { records 0 3 2 (1 ∷ 2 ∷ 3 ∷ 4 ∷ 5 ∷ 6 ∷ 7 ∷ [])
        ≡ (1 ∷ 2 ∷ []) ∷ (3 ∷ 4 ∷ []) ∷ (5 ∷ 6 ∷ []) ∷ [] }
    ensures long { records 0 2 65 (1 ∷ replicate 65 2 ++ 3 ∷ replicate 63 4)
        ≡ (1 ∷ replicate 64 2) ∷ (2 ∷ 3 ∷ replicate 63 4) ∷ [] }
    ensures empty { records 0 2 0 [] ≡ [] ∷ [] ∷ [] }
{}

/// Digests, tags and keys of records and lists: what is written, and what is refused.
pub fn worked_lists()
    ensures lists { WorkedLists }
    ensures keys { WorkedKeyLists }
{}
