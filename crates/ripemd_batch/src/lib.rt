//! Digests of many messages, tags of many texts under one key, and keys from passwords: up to eight at once, one in
//! each lane of a vector.
#![tactic(auto)]

mod c128;
mod c160;
mod c256;
mod c320;
mod eight;
pub mod facts;
mod four;
pub mod groups;
mod lane_states;
mod lanes;
mod lines;
pub mod lists;
mod message;
mod padded;
pub mod pbkdf2;
mod places;

pub use groups::BatchDigest;
pub use lists::{ListHasher, digest_each, tag_each};
pub use pbkdf2::{pbkdf2_hmac, pbkdf2_hmac_each};
