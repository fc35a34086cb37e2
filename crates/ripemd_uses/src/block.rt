// The callers of ripemd_block's README.

ghost use Rattle.std.specs.Prelude.{◌≡◌, ◌<◌, length};
ghost use Rattle.ripemd_block.specs.Standard.{block_size, ripemd160, ripemd};

use ripemd_block::block_api::{FixedOutputCore, Ripemd160Core};
use ripemd_block::buffer::Buffer;

/// The RIPEMD-160 digest of a message shorter than a block.
#[tactic(auto, using(ripemd_block::specs::Laws::Pieces::finish_short))]
pub fn digest_of_short(message: &[u8]) -> [u8; 20]
    requires { length message.now < block_size }
    ensures { result ≡ ripemd ripemd160 message.now }
{
    let mut core = Ripemd160Core::default();
    let mut tail = Buffer::try_new(message).unwrap();
    let mut digest = [0; 20];
    core.finalize_fixed_core(&mut tail, &mut digest);
    digest
}

ghost use Rattle.ripemd_block.specs.States.{core_bytes};

use ripemd_block::block_api::SerializableState;

/// The core that is saved as these bytes. Any 28 bytes are one.
pub fn loaded_core(saved: &[u8; 28]) -> Ripemd160Core
    ensures { core_bytes result ≡ saved.now }
{
    Ripemd160Core::deserialize(saved).unwrap()
}
