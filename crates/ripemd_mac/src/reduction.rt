//! From two texts with the same tag under one key to a collision of the block function.

ghost use Rattle.std.specs.Prelude.{◌≡◌, ◌≢◌, ◌+◌, ◌-◌, ◌<◌, ◌^◌, ◌↔◌, ◌⊎◌, ◌++◌, length, IsNone, IfOk, IfSome, OnErr};
ghost use Rattle.ripemd.specs.Standard.{hash};
ghost use Rattle.ripemd.specs.Collisions.{IsCollision, IsOnlyCollision};
ghost use Rattle.ripemd.specs.declared.witness.Collision.{Collision};
ghost use Rattle.ripemd_mac.specs.declared.reduction.MacCollision.{MacCollision};
ghost use Rattle.ripemd_mac.specs.Hmac.{hmac};
ghost use Rattle.ripemd_mac.specs.MacCollisions.{InnerAgree, IsMacCollision};

use crate::hmac::masked_keys;
use ripemd::digest::BlockDigest;
use ripemd::witness::{BlockFunction, Collision, collision_witness};
use std::alloc::{AllocError, Global};

/// A collision of the block function, from two texts with the same tag.
#[derive(Clone, Copy, PartialEq, Eq, Debug)]
pub enum MacCollision<S> {
    /// In the inner messages: masked key, then text.
    Inner(Collision<S>),
    /// In the outer messages: masked key, then inner digest.
    Outer(Collision<S>),
}

/// From two different texts with the same tag under one key, the collision of the block function that
/// `collision_witness` gives for the inner messages if their digests are equal, else for the outer ones.
///
/// `None` exactly if the texts are equal or their tags differ. The key has any length. Texts have fewer than 2^61 - 64
/// bytes, so that inner messages have fewer than 2^61.
///
/// # Errors
///
/// `AllocError` if the inner messages cannot be allocated. If their digests differ or the texts are equal, nothing is
/// allocated.
pub fn mac_collision<D: BlockDigest>(
    alloc: Global,
    key: &[u8],
    a: &[u8],
    b: &[u8],
) -> Result<Option<MacCollision<<D::Core as BlockFunction>::State>>, AllocError>
    requires a_short { length a.now < 2 ^ 61 - 64 }
    requires b_short { length b.now < 2 ^ 61 - 64 }
    ensures none { (result ≡ Ok None) ↔ ((a.now ≡ b.now)
        ⊎ (hmac (hash D.start D.step D.output) key.now a.now
        ≢ hmac (hash D.start D.step D.output) key.now b.now)) }
    ensures some { IfOk result (λ answer. IfSome answer
        (IsMacCollision (hash D.start D.step D.output) D.Core.start_of D.Core.step_of
        key.now a.now b.now)) }
    ensures only { IfOk result (λ answer. IfSome answer (λ found. (other : MacCollision _)
        → IsMacCollision (hash D.start D.step D.output) D.Core.start_of D.Core.step_of
        key.now a.now b.now other → other ≡ found)) }
    ensures err { OnErr result ((a.now ≢ b.now)
        × InnerAgree (hash D.start D.step D.output) key.now a.now b.now) }
{
    if a == b {
        return Ok(None);
    }
    let keys = masked_keys::<D>(key);
    let a_digest = prefixed_digest::<D>(&keys.inner, a);
    let b_digest = prefixed_digest::<D>(&keys.inner, b);
    let a_bytes = D::output_bytes(&a_digest);
    let b_bytes = D::output_bytes(&b_digest);
    if a_bytes == b_bytes {
        let mut left = vec![in alloc; 0; 64 + a.len()]?;
        let mut right = vec![in alloc; 0; 64 + b.len()]?;
        let collision = prefixed_collision::<D>(&keys.inner, a, b, &mut left, &mut right);
        return Ok(collision.map(MacCollision::Inner));
    }
    let mut left = [0; 128];
    let mut right = [0; 128];
    let left = &mut left[..64 + a_bytes.len()];
    let right = &mut right[..64 + b_bytes.len()];
    let collision = prefixed_collision::<D>(&keys.outer, a_bytes, b_bytes, left, right);
    Ok(collision.map(MacCollision::Outer))
}

fn prefixed_digest<D: BlockDigest>(masked_key: &[u8; 64], bytes: &[u8]) -> D::Output
    ensures { D.bytes_of result ≡ hash D.start D.step D.output (masked_key.now ++ bytes.now) }
{
    D::new_with_prefix(masked_key)
        .chain_update(bytes)
        .finalize()
}

// The collision of two messages, each a masked key and then bytes, written to `left` and `right`.
fn prefixed_collision<D: BlockDigest>(
    masked_key: &[u8; 64],
    a: &[u8],
    b: &[u8],
    left: &mut [u8],
    right: &mut [u8],
) -> Option<Collision<<D::Core as BlockFunction>::State>>
    requires a_short { length a.now < 2 ^ 61 - 64 }
    requires b_short { length b.now < 2 ^ 61 - 64 }
    requires left_size { length left.old ≡ 64 + length a.now }
    requires right_size { length right.old ≡ 64 + length b.now }
    ensures none { IsNone result ↔ ((a.now ≡ b.now)
        ⊎ (hash D.start D.step D.output (masked_key.now ++ a.now)
        ≢ hash D.start D.step D.output (masked_key.now ++ b.now))) }
    ensures some { IfSome result (IsCollision D.Core.start_of D.Core.step_of
        (masked_key.now ++ a.now) (masked_key.now ++ b.now)) }
    ensures only { IsOnlyCollision D.Core.start_of D.Core.step_of
        (masked_key.now ++ a.now) (masked_key.now ++ b.now) result }
{
    join(masked_key, a, left);
    join(masked_key, b, right);
    collision_witness::<D::Core>(left, right)
}

fn join(masked_key: &[u8; 64], bytes: &[u8], out: &mut [u8])
    requires { length out.old ≡ 64 + length bytes.now }
    ensures { out.new ≡ masked_key.now ++ bytes.now }
{
    let (front, back) = out.split_at_mut(64);
    front.copy_from_slice(masked_key);
    back.copy_from_slice(bytes);
}
