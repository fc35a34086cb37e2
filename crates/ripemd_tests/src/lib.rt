//! The tests of `ripemd_block`, `ripemd`, `ripemd_mac` and `ripemd_batch`, which call these as any other crate does, and of
//! the callers in `ripemd_uses`; and what other tests share.
#![tactic(auto)]

#[cfg(test)]
mod block;
pub mod bytes;
pub mod digits;
#[cfg(test)]
mod hashers;
#[cfg(test)]
mod lists;
#[cfg(test)]
mod names;
#[cfg(test)]
mod passwords;
#[cfg(test)]
mod replay;
#[cfg(test)]
mod state;
#[cfg(test)]
mod tags;
pub mod toy;
#[cfg(test)]
mod uses;
#[cfg(test)]
mod witness;
