//! The hashers of RIPEMD-128, RIPEMD-160, RIPEMD-256 and RIPEMD-320 (Dobbertin, Bosselaers and
//! Preneel, 1996), and their trait [`Digest`].
#![tactic(auto)]

pub mod digest;
pub mod facts;
pub mod hashers;
pub mod incremental;
pub mod replay;
pub mod state;
pub mod witness;

pub use digest::Digest;
pub use hashers::{BlockHasher, Ripemd128, Ripemd160, Ripemd256, Ripemd320};
pub use ripemd_block::block_api::{ListBlockFunction, ResumableFunction};
pub use ripemd_block::{block_api, buffer, padding};
