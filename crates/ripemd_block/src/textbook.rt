//! The tables of 1996 as code, each entry equal to its definition in `specs/Standard/`.

ghost use Rattle.std.specs.Prelude.{◌≡◌, ◌<◌, ◌≤◌, ℕ};
ghost use Rattle.ripemd_block.specs.Standard.{left_line, right_line, rotation};

// Message words of the left line, by round and step (1996, ordering of the message words).
static LEFT_ORDER: [[usize; 16]; 5] = [
    [0, 1, 2, 3, 4, 5, 6, 7, 8, 9, 10, 11, 12, 13, 14, 15],
    [7, 4, 13, 1, 10, 6, 15, 3, 12, 0, 9, 5, 2, 14, 11, 8],
    [3, 10, 14, 4, 9, 15, 8, 1, 2, 7, 0, 6, 13, 11, 5, 12],
    [1, 9, 11, 10, 0, 8, 12, 4, 13, 3, 7, 15, 14, 5, 6, 2],
    [4, 0, 5, 9, 7, 12, 2, 10, 14, 1, 3, 8, 11, 6, 15, 13],
];

// Message words of the right line, by round and step.
static RIGHT_ORDER: [[usize; 16]; 5] = [
    [5, 14, 7, 0, 9, 2, 11, 4, 13, 6, 15, 8, 1, 10, 3, 12],
    [6, 11, 3, 7, 0, 13, 5, 10, 14, 15, 8, 12, 4, 9, 1, 2],
    [15, 5, 1, 3, 7, 14, 6, 9, 11, 8, 12, 2, 10, 0, 4, 13],
    [8, 6, 4, 1, 3, 11, 15, 0, 5, 12, 2, 13, 9, 7, 10, 14],
    [12, 15, 10, 4, 1, 5, 8, 7, 6, 2, 13, 14, 0, 3, 9, 11],
];

// Rotations, by round and message word (1996, shifts).
static ROTATIONS: [[u32; 16]; 5] = [
    [11, 14, 15, 12, 5, 8, 7, 9, 11, 13, 14, 15, 6, 7, 9, 8],
    [12, 13, 11, 15, 6, 9, 9, 7, 12, 15, 11, 13, 7, 8, 7, 7],
    [13, 15, 14, 11, 7, 7, 6, 8, 13, 14, 13, 12, 5, 5, 6, 9],
    [14, 11, 12, 14, 8, 6, 5, 5, 15, 12, 15, 14, 9, 9, 8, 6],
    [15, 12, 13, 13, 9, 5, 8, 6, 14, 11, 12, 11, 8, 6, 5, 5],
];

// The constants of the left line's rounds (1996, constants).
static LEFT_CONSTANTS: [u32; 5] = [0, 0x5a82_7999, 0x6ed9_eba1, 0x8f1b_bcdc, 0xa953_fd4e];

// The constants of the right line's rounds, except the last, which has none.
static RIGHT_CONSTANTS: [u32; 4] = [0x50a2_8be6, 0x5c4d_d124, 0x6d70_3ef3, 0x7a6d_76e9];

/// The number of the left line's message word in step `i` of round `r`.
#[inline(always)]
pub fn left_number(r: usize, i: usize) -> usize
    requires round { r < 5 }
    requires step { i < 16 }
    ensures value { result ≡ left_line.word_number r i }
    ensures small { result < 16 }
{
    LEFT_ORDER[r][i]
}

/// The number of the right line's message word in step `i` of round `r`, for any number of rounds.
#[inline(always)]
pub fn right_number(r: usize, i: usize) -> usize
    requires round { r < 5 }
    requires step { i < 16 }
    ensures value { (rounds : ℕ) → result ≡ (right_line rounds).word_number r i }
    ensures small { result < 16 }
{
    RIGHT_ORDER[r][i]
}

/// By how many bits a step of round `r` with message word `j` rotates.
#[inline(always)]
pub fn rotation(r: usize, j: usize) -> u32
    requires round { r < 5 }
    requires word { j < 16 }
    ensures value { result ≡ rotation r j }
    ensures range { (0 < result) × (result < 32) }
{
    ROTATIONS[r][j]
}

/// The constant of round `r` of the left line.
#[inline(always)]
pub fn left_constant(r: usize) -> u32
    requires { r < 5 }
    ensures { result ≡ left_line.constant r }
{
    LEFT_CONSTANTS[r]
}

/// The constant of round `r` of the right line, which has `rounds` rounds.
#[inline(always)]
pub fn right_constant(rounds: usize, r: usize) -> u32
    requires round { r < rounds }
    requires most { rounds ≤ 5 }
    ensures { result ≡ (right_line rounds).constant r }
{
    if r + 1 < rounds {
        RIGHT_CONSTANTS[r]
    } else {
        0
    }
}
