//! From the state to the registers of both lines, and back to a state (1996, pseudo-code and
//! extensions).

ghost use Rattle.std.specs.Prelude.{◌≡◌};
ghost use Rattle.ripemd_block.specs.Standard.{lines_from, joint_state, double_state, ripemd256, ripemd320};
ghost use Rattle.ripemd_block.specs.Code.{both_lines};

use std::simd::prelude::*;

#[inline(always)]
pub(crate) fn lines_of_256(state: [u32; 8]) -> ([u32; 4], [u32; 4])
    ensures { both_lines result.0 result.1 ≡ lines_from ripemd256 state }
{
    let [s0, s1, s2, s3, s4, s5, s6, s7] = state;
    ([s0, s1, s2, s3], [s4, s5, s6, s7])
}

#[inline(always)]
pub(crate) fn lines_of_320(state: [u32; 10]) -> ([u32; 5], [u32; 5])
    ensures { both_lines result.0 result.1 ≡ lines_from ripemd320 state }
{
    let [s0, s1, s2, s3, s4, s5, s6, s7, s8, s9] = state;
    ([s0, s1, s2, s3, s4], [s5, s6, s7, s8, s9])
}

/// The new state of RIPEMD-128, as one vector: the lines may need nearly all general registers.
#[inline(always)]
pub(crate) fn joint_state_of_four(state: [u32; 4], left: [u32; 4], right: [u32; 4]) -> [u32; 4]
    ensures { result ≡ joint_state state left right }
{
    let [s0, s1, s2, s3] = state;
    let [l0, l1, l2, l3] = left;
    let [r0, r1, r2, r3] = right;
    let sums = u32x4::from_array([s1, s2, s3, s0])
        + u32x4::from_array([l2, l3, l0, l1])
        + u32x4::from_array([r3, r0, r1, r2]);
    sums.to_array()
}

/// The new state of RIPEMD-160.
#[inline(always)]
pub(crate) fn joint_state_of_five(state: [u32; 5], left: [u32; 5], right: [u32; 5]) -> [u32; 5]
    ensures { result ≡ joint_state state left right }
{
    let [l0, l1, l2, l3, l4] = left;
    let [r0, r1, r2, r3, r4] = right;
    [
        state[1].wrapping_add(l2).wrapping_add(r3),
        state[2].wrapping_add(l3).wrapping_add(r4),
        state[3].wrapping_add(l4).wrapping_add(r0),
        state[4].wrapping_add(l0).wrapping_add(r1),
        state[0].wrapping_add(l1).wrapping_add(r2),
    ]
}

/// The new state of RIPEMD-256.
#[inline(always)]
pub(crate) fn double_state_of_four(state: [u32; 8], left: [u32; 4], right: [u32; 4]) -> [u32; 8]
    ensures { result ≡ double_state state left right }
{
    let [l0, l1, l2, l3] = left;
    let [r0, r1, r2, r3] = right;
    [
        state[0].wrapping_add(l0),
        state[1].wrapping_add(l1),
        state[2].wrapping_add(l2),
        state[3].wrapping_add(l3),
        state[4].wrapping_add(r0),
        state[5].wrapping_add(r1),
        state[6].wrapping_add(r2),
        state[7].wrapping_add(r3),
    ]
}

/// The new state of RIPEMD-320.
#[inline(always)]
pub(crate) fn double_state_of_five(state: [u32; 10], left: [u32; 5], right: [u32; 5]) -> [u32; 10]
    ensures { result ≡ double_state state left right }
{
    let [l0, l1, l2, l3, l4] = left;
    let [r0, r1, r2, r3, r4] = right;
    [
        state[0].wrapping_add(l0),
        state[1].wrapping_add(l1),
        state[2].wrapping_add(l2),
        state[3].wrapping_add(l3),
        state[4].wrapping_add(l4),
        state[5].wrapping_add(r0),
        state[6].wrapping_add(r1),
        state[7].wrapping_add(r2),
        state[8].wrapping_add(r3),
        state[9].wrapping_add(r4),
    ]
}
