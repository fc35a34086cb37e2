// The callers of ripemd_batch's README.

ghost use Rattle.std.specs.Prelude.{◌≡◌, ◌↔◌, length, map, IsTrue};
ghost use Rattle.ripemd.specs.Standard.{ripemd160, ripemd};
ghost use Rattle.ripemd_batch.specs.Lanes.{targets};

use ripemd::Ripemd160;
use ripemd_batch::digest_each;

/// Writes the RIPEMD-160 digest of each record to its place.
#[tactic(auto, using(ripemd_batch::specs::Laws::own_bytes))]
pub fn digests_of(records: &[&[u8]], digests: &mut [[u8; 20]])
    requires { length digests.old ≡ length records.now }
    ensures { digests.new ≡ map (ripemd ripemd160) (targets records.now) }
{
    digest_each::<Ripemd160>(records, digests);
}

/// Whether the records are those that these RIPEMD-160 digests were made of, one for each. The
/// digests of the records are written to `found`.
pub fn have_digests(records: &[&[u8]], wanted: &[[u8; 20]], found: &mut [[u8; 20]]) -> bool
    requires { length found.old ≡ length records.now }
    ensures { IsTrue result ↔ (map (ripemd ripemd160) (targets records.now) ≡ wanted.now) }
{
    digests_of(records, found);
    *found == *wanted
}

ghost use Rattle.ripemd_mac.specs.Hmac.{hmac};

use ripemd_batch::tag_each;

/// Writes the tag of each record under the key, by RIPEMD-160, to its place.
#[tactic(auto, using(ripemd_batch::specs::Laws::own_bytes))]
pub fn tags_of(key: &[u8], records: &[&[u8]], tags: &mut [[u8; 20]])
    requires { length tags.old ≡ length records.now }
    ensures { tags.new ≡ map (hmac (ripemd ripemd160) key.now) (targets records.now) }
{
    tag_each::<Ripemd160>(key, records, tags);
}

ghost use Rattle.std.specs.Prelude.{◌*◌, IfOk};
ghost use Rattle.ripemd_batch.specs.Pbkdf2.{pbkdf2_each};

use ripemd_batch::pbkdf2_hmac_each;
use ripemd_mac::Pbkdf2Error;

/// Writes a key of 32 bytes from each password and the salt in its place, one after another.
///
/// # Errors
///
/// `Pbkdf2Error::NoRounds` if `rounds` is 0.
pub fn keys_of(
    passwords: &[&[u8]],
    salts: &[&[u8]],
    rounds: u32,
    keys: &mut [u8],
) -> Result<(), Pbkdf2Error>
    requires salts { length salts.now ≡ length passwords.now }
    requires room { length keys.old ≡ 32 * length passwords.now }
    ensures ok { IfOk result (λ _. keys.new ≡ pbkdf2_each (hmac (ripemd ripemd160)) 20
        (targets passwords.now) (targets salts.now) rounds 32) }
{
    pbkdf2_hmac_each::<Ripemd160>(passwords, salts, rounds, 32, keys)
}
