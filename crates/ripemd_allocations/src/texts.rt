//! Pairs of texts for `mac_collision`, and their collisions under the empty key.

ghost use Rattle.std.specs.Prelude.{◌-◌, ◌<◌, ◌^◌, length};

use crate::print_outcome;
use ripemd_mac::{MacCollision, mac_collision};
use ripemd_tests::toy::{Side, Sums, is_collision};
use std::alloc::Global;
use std::io;

// What a collision must have: inner messages or not, its sides, and the state to which they lead.
type Wanted = Option<(bool, Side, Side, [u8; 2])>;

// Whether the collision of two texts, if any, is as wanted; `None` if the call was refused memory.
fn is_answer(alloc: Global, a: &[u8], b: &[u8], wanted: Wanted) -> Option<bool>
    requires a_short { length a.now < 2 ^ 61 - 64 }
    requires b_short { length b.now < 2 ^ 61 - 64 }
{
    let (is_inner, collision) = match mac_collision::<Sums>(alloc, &[], a, b).ok()? {
        Some(MacCollision::Inner(collision)) => (true, collision),
        Some(MacCollision::Outer(collision)) => (false, collision),
        None => return Some(wanted.is_none()),
    };
    let (inner, left, right, next) = match wanted {
        Some(wanted) => wanted,
        None => return Some(false),
    };
    Some(is_inner == inner && is_collision(&collision, left, right, next))
}

// Prints the outcome of a pair of texts with this collision.
fn print_outcome_of(
    rt: &HostRuntime,
    name: &str,
    a: &[u8],
    b: &[u8],
    wanted: Wanted,
) -> io::Result<()>
    requires a_short { length a.now < 2 ^ 61 - 64 }
    requires b_short { length b.now < 2 ^ 61 - 64 }
{
    print!(rt; "mac_collision of {name}")?;
    print_outcome(rt, || is_answer(rt.alloc(), a, b, wanted))
}

// A collision of the second blocks of inner messages, after the masked key.
fn inner(left: [u8; 2], right: [u8; 2], next: [u8; 2]) -> Wanted {
    let state = [128, 54];
    Some((true, (1, state, left), (1, state, right), next))
}

// Zeros, but for a byte.
fn zeros_but<const N: usize>(place: usize, byte: u8) -> [u8; N] {
    let mut bytes = [0; N];
    if let Some(changed) = bytes.get_mut(place) {
        *changed = byte;
    }
    bytes
}

// Prints the outcome of texts of 5,000 bytes.
fn print_outcome_of_long(rt: &HostRuntime) -> io::Result<()> {
    let side = (66, [128, 0], [0, 0]);
    let a: [u8; 5_000] = zeros_but(4_200, 1);
    let b: [u8; 5_000] = zeros_but(4_201, 1);
    print_outcome_of(rt, "long texts", &a, &b, Some((true, side, side, [129, 0])))
}

/// Prints the outcome of each pair of texts. Only collisions of inner messages ask for memory. The
/// blocks of outer messages begin with the digests of the inner ones. The expected values come from
/// a textbook program of HMAC and of collisions.
pub(crate) fn print_outcomes(rt: &HostRuntime) -> io::Result<()> {
    let wanted = inner([1, 2], [2, 1], [21, 27]);
    print_outcome_of(rt, "two bytes", &[1, 2], &[2, 1], wanted)?;
    let wanted = inner([0x80, 0], [0xf8, 0x80], [2, 27]);
    print_outcome_of(rt, "no byte and one", &[], &[0xf8], wanted)?;
    print_outcome_of_long(rt)?;
    let left = (1, [0, 92], [6, 13]);
    let right = (1, [0, 92], [5, 14]);
    let a: [u8; 64] = zeros_but(0, 2);
    let b: [u8; 64] = zeros_but(63, 1);
    let wanted = Some((false, left, right, [165, 46]));
    print_outcome_of(rt, "outer messages", &a, &b, wanted)?;
    print_outcome_of(rt, "equal texts", &[1, 2], &[1, 2], None)?;
    print_outcome_of(rt, "two tags", &[1], &[2], None)
}
