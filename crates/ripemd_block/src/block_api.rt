//! The block cores, block functions, and their traits.

pub use crate::arrays::{ByteArray, write_short};
pub use crate::block_core::{
    BlockCore, digest_message, update_saved, walk, walk_digest, walk_message,
};
pub use crate::traits::{
    AlgorithmName, BlockFunction, BlockSizeUser, BufferKindUser, DeserializeStateError, Eager,
    FixedOutputCore, HashMarker, HashMeaning, ListBlockFunction, OutputSizeUser, Reset,
    ResumableFunction, SerializableState, UpdateCore,
};
pub use crate::variants::{
    Ripemd128Core, Ripemd128Function, Ripemd160Core, Ripemd160Function, Ripemd256Core,
    Ripemd256Function, Ripemd320Core, Ripemd320Function,
};
