//! Hashers saved as bytes, and loaded.

ghost use Rattle.std.specs.Prelude.{◌≡◌, ◌+◌, ◌<◌, ◌↔◌, ◌∷◌, ◌++◌, length, drop, replicate, IsTrue};
ghost use Rattle.ripemd_block.specs.Standard.{block_size};
ghost use Rattle.ripemd_block.specs.States.{core_and_tail};
ghost use Rattle.ripemd_block.specs.Laws.Saved.{core_and_tail_injective};

use crate::hashers::BlockHasher;
pub use ripemd_block::block_api::DeserializeStateError;
use ripemd_block::block_api::{
    BlockCore, ByteArray, ResumableFunction, SerializableState, write_short,
};
use ripemd_block::buffer::Buffer;

impl<F: ResumableFunction> SerializableState for BlockHasher<F> {
    type Saved = F::SavedHasher;

    ghost saved_bytes = { F.SavedHasher.bytes };

    ghost state_bytes = { core_and_tail F.output };

    fn serialize(&self) -> F::SavedHasher {
        let core = self.core.serialize();
        let mut tail = [0; 64];
        put_tail(self.buffer.get_data(), &mut tail);
        F::SavedHasher::from_slices(core.as_bytes(), &tail).unwrap()
    }

    fn deserialize(saved: &F::SavedHasher) -> Result<BlockHasher<F>, DeserializeStateError> {
        BlockHasher::load_slice(saved.as_bytes())
    }

    fn load_slice(bytes: &[u8]) -> Result<BlockHasher<F>, DeserializeStateError> {
        if bytes.len() != <F::SavedHasher as ByteArray>::LEN {
            return Err(DeserializeStateError);
        }
        let (core, tail) = bytes.split_at(<F::SavedCore as ByteArray>::LEN);
        let Ok(core) = BlockCore::<F>::load_slice(core) else {
            return Err(DeserializeStateError);
        };
        let len = tail[0] as usize;
        let Some(buffer) = Buffer::try_front(&tail[1..], len) else {
            return Err(DeserializeStateError);
        };
        if are_zeros(&tail[1 + len..]) {
            Ok(BlockHasher { core, buffer })
        } else {
            Err(DeserializeStateError)
        }
    }

    ghost state_injective = { core_and_tail_injective F.injective_output };

    ghost same_saved = { F.SavedHasher.same_array };
}

/// Writes the length of a tail and its bytes to the front of `place`.
#[inline(always)]
pub fn put_tail(tail: &[u8], place: &mut [u8])
    requires short { length tail.now < block_size }
    requires size { length place.old ≡ block_size }
    ensures { place.new ≡ length tail.now ∷ tail.now ++ drop (1 + length tail.now) place.old }
{
    let (len, rest) = place.split_at_mut(1);
    len[0] = tail.len() as u8;
    write_short(rest, tail);
}

fn are_zeros(bytes: &[u8]) -> bool
    ensures { IsTrue result ↔ (bytes.now ≡ replicate (length bytes.now) 0) }
{
    bytes.iter().all(|byte| *byte == 0)
}
