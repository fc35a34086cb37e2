//! The tests of `ripemd_files`, which call it as any other crate does.
#![tactic(auto)]

#[cfg(test)]
mod checks;
#[cfg(test)]
mod doubles;
#[cfg(test)]
mod lines;
#[cfg(test)]
mod prints;
