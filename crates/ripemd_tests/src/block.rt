//! The parts of `ripemd_block`.

mod cores;
mod counts;
mod tails;
