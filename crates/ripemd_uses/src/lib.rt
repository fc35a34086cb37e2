//! The callers that the pages of `ripemd`, `ripemd_block`, `ripemd_mac` and `ripemd_batch` show,
//! word for word.
#![tactic(auto)]

pub mod batch;
pub mod block;
pub mod calling;
pub mod commands;
pub mod readme;
pub mod tags;
