//! The calls that allocate, `replay` and `mac_collision`, with lists and texts whose answers are
//! known. Each call has to give the right answer or, if an allocation fails, the error of memory,
//! and then the right answer when it is made again.
//!
//! First it allocates and frees once for each byte on standard input. So the allocation that fails,
//! the same in each run, can be any of the calls'.
#![tactic(auto)]

mod lists;
mod texts;

use std::alloc::Global;
use std::io;
use std::io::Read;

// Prints what became of a call, which tells whether its answer is right, or `None` if it was refused memory.
fn print_outcome<F: Fn() -> Option<bool>>(rt: &HostRuntime, call: F) -> io::Result<()>
    requires { F.IsAlwaysCallable call }
{
    let outcome = match call() {
        Some(true) => "answered",
        None if call() == Some(true) => "refused",
        _ => "WRONG",
    };
    println!(rt; ": {outcome}")
}

// Allocates, if it can, and frees.
fn take_memory(alloc: Global) {
    let mut bytes = Vec::new(alloc);
    let _ = bytes.push(0u8);
}

fn main(rt: HostRuntime) -> io::Result<()> {
    let alloc = rt.alloc();
    let mut before = [0; 64];
    for _ in 0..rt.stdin().read(&mut before)? {
        take_memory(alloc);
    }
    lists::print_outcomes(&rt)?;
    texts::print_outcomes(&rt)
}
