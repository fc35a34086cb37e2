//! Digests of files by RIPEMD-128, RIPEMD-160, RIPEMD-256 and RIPEMD-320, printed and checked as
//! `sha256sum` does.
#![tactic(auto)]

pub mod agreement;
pub mod check_facts;
pub mod checking;
pub mod digests;
pub mod facts;
pub mod fault;
pub mod folder;
mod layout;
pub mod line;
pub mod list;
pub mod list_facts;
pub mod log;
pub mod outcome;
pub mod piece;
pub mod printing;
pub mod reading;
pub mod verdict;
pub mod writing;

pub use line::{Ending, Form, Layout, Line, Variant};
pub use reading::parse_line;
pub use writing::write_line;
