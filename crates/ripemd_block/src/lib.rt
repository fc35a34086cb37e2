//! The block functions of RIPEMD-128, RIPEMD-160, RIPEMD-256 and RIPEMD-320 (Dobbertin, Bosselaers
//! and Preneel, 1996): textbook definitions, and proved code for each.
#![tactic(auto)]

mod arrays;
pub mod block_api;
mod block_core;
pub mod buffer;
mod c128;
mod c160;
mod c256;
mod c320;
mod chaining;
pub mod facts;
pub mod message;
pub mod padding;
mod registers;
pub mod textbook;
mod traits;
mod two_lanes;
mod variants;
