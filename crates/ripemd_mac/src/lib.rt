//! HMAC (RFC 2104) and PBKDF2 (RFC 8018) over any hash function of `ripemd`, and the reduction of
//! HMAC's collisions to the block function's.
#![tactic(auto)]

pub mod facts;
pub mod hmac;
pub mod pbkdf2;
pub mod reduction;

pub use hmac::{Hmac, MaskedKeys, masked_keys};
pub use pbkdf2::{Pbkdf2Error, pbkdf2_hmac};
pub use reduction::{MacCollision, mac_collision};
