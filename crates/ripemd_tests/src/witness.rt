//! Collisions of two messages.

ghost use Rattle.std.specs.Prelude.{◌<◌, ◌^◌, length};

use crate::assert_each;
use crate::toy::{Side, SumsFunction, is_collision};
use ripemd::ListBlockFunction;
use ripemd::block_api::BlockCore;
use ripemd::witness::{BlockFunction, Collision, Meeting, check_collision, collision_witness};

// Whether two messages have this collision.
fn collide(a: &[u8], b: &[u8], left: Side, right: Side, next: [u8; 2]) -> bool
    requires a_short { length a.now < 2 ^ 61 }
    requires b_short { length b.now < 2 ^ 61 }
{
    match collision_witness::<SumsFunction>(a, b) {
        Some(collision) => is_collision(&collision, left, right, next),
        None => false,
    }
}

// Zeros, but for a byte in each block.
fn two_blocks(first: (usize, u8), second: (usize, u8)) -> [u8; 128]
    requires first_in { first.0 < 64 }
    requires second_in { second.0 < 64 }
{
    let mut message = [0; 128];
    message[first.0] = first.1;
    message[64 + second.0] = second.1;
    message
}

// Two messages of one block, of two, and of different numbers of blocks.
#[test]
fn finds_the_collision(rt: HostRuntime) {
    let left = (0, [0, 0], [1, 2]);
    assert!(rt; collide(&[1, 2], &[2, 1], left, (0, [0, 0], [2, 1]), [147, 0]));
    let short = (0, [0, 0], [0x80, 0]);
    assert!(rt; collide(&[], &[0xf8], short, (0, [0, 0], [0xf8, 0x80]), [128, 0]));

    let mut a = [0; 64];
    a[0] = 1;
    let mut b = [0; 64];
    b[1] = 1;
    assert!(rt; collide(&a, &b, (0, [0, 0], [1, 0]), (0, [0, 0], [0, 1]), [1, 0]));
    a[0] = 0xfe;
    let long = (1, [254, 0], [0x80, 0]);
    assert!(rt; collide(&[], &a, short, long, [128, 0]));
    assert!(rt; collide(&a, &[], long, short, [128, 0]));
}

// The collision is the last place where the walks differ, in block, state or both.
#[test]
fn finds_the_last_difference(rt: HostRuntime) {
    let a = two_blocks((0, 1), (0, 2));
    let b = two_blocks((0, 2), (0, 1));
    assert!(rt; collide(&a, &b, (1, [1, 0], [2, 0]), (1, [2, 0], [1, 0]), [3, 0]));
    let a = two_blocks((0, 1), (0, 1));
    let b = two_blocks((1, 1), (1, 1));
    assert!(rt; collide(&a, &b, (1, [1, 0], [1, 0]), (1, [1, 0], [0, 1]), [2, 0]));
    let a = two_blocks((0, 1), (0, 0));
    let b = two_blocks((1, 1), (0, 0));
    assert!(rt; collide(&a, &b, (0, [0, 0], [1, 0]), (0, [0, 0], [0, 1]), [1, 0]));
    let a = two_blocks((0, 1), (0, 3));
    let b = two_blocks((63, 1), (0, 3));
    assert!(rt; collide(&a, &b, (1, [1, 0], [3, 0]), (1, [1, 1], [3, 0]), [4, 0]));
}

// Whether these messages have no collision.
fn is_none<F: BlockFunction>(a: &[u8], b: &[u8]) -> bool
    requires a_short { length a.now < 2 ^ 61 }
    requires b_short { length b.now < 2 ^ 61 }
{
    collision_witness::<F>(a, b).is_none()
}

fn abc_has_none<F: ListBlockFunction>() -> bool {
    is_none::<BlockCore<F>>(b"abc", b"abc") && is_none::<BlockCore<F>>(b"abc", b"abd")
}

// Equal messages, and messages with different hashes, have none.
#[test]
fn finds_none(rt: HostRuntime) {
    assert!(rt; is_none::<SumsFunction>(&[1, 2], &[1, 2]));
    assert!(rt; is_none::<SumsFunction>(&[], &[]));
    assert!(rt; is_none::<SumsFunction>(&[1], &[2]));
    assert!(rt; is_none::<SumsFunction>(&[0; 55], &[0; 56]));
    assert_each!(rt; abc_has_none());
}

// The meeting at this place with this state and a block that begins with this byte.
fn meeting(place: usize, state: u8, byte: u8) -> Meeting<[u8; 2]> {
    let mut meeting = Meeting {
        place,
        state: [state, 0],
        block: [0; 64],
    };
    meeting.block[0] = byte;
    meeting
}

fn meetings_collide(left: Meeting<[u8; 2]>, right: Meeting<[u8; 2]>) -> bool {
    check_collision::<SumsFunction>(&Collision { left, right })
}

// One meeting twice is no collision, nor are two whose steps differ.
#[test]
fn checks_a_collision(rt: HostRuntime) {
    let left = meeting(0, 5, 0);
    let right = meeting(0, 0, 5);
    assert!(rt; meetings_collide(left, right));
    assert!(rt; !meetings_collide(left, meeting(0, 0, 6)));
    assert!(rt; !meetings_collide(left, left) && !meetings_collide(right, right));
    assert!(rt; !meetings_collide(left, meeting(9, 5, 0)));
}
