//! Keys from passwords.

use crate::assert_each;
use crate::bytes::{counted, in_turn};
use crate::digits::is_written;
use ripemd::{BlockHasher, Ripemd160};
use ripemd_batch::groups::BatchFunction;
use ripemd_batch::pbkdf2_hmac_each;
use ripemd_mac::{Pbkdf2Error, pbkdf2_hmac};

// Whether this is the key by three rounds of the password of bytes 1 to 8 and the salt of bytes 0 to 7: alone, in
// lanes, and as every other of nine. The others exchange salt and password.
fn derives<F: BatchFunction>(digits: &str) -> bool {
    let password: &[u8] = &counted::<8>(1);
    let salt: &[u8] = &counted::<8>(0);
    let mut room = [7; 127];
    let Some(key) = room.get_mut(..digits.len() / 2) else {
        return false;
    };
    let mut of_nine = [7; 9 * 40];
    let passwords = in_turn(password, salt);
    let salts = in_turn(salt, password);
    let mut exchanged = [7; 40];
    if pbkdf2_hmac_each::<BlockHasher<F>>(&passwords, &salts, 3, 40, &mut of_nine).is_err()
        || pbkdf2_hmac::<BlockHasher<F>>(salt, password, 3, &mut exchanged).is_err()
    {
        return false;
    }
    let parts = of_nine.as_chunks::<40>().0;
    for i in 0..parts.len() {
        let is_right = match i % 2 {
            0 => is_written(&parts[i], digits.get(..80).unwrap_or("")),
            _ => parts[i] == exchanged,
        };
        if !is_right {
            return false;
        }
    }
    pbkdf2_hmac::<BlockHasher<F>>(password, salt, 3, key).is_ok()
        && is_written(key, digits)
        && ripemd_batch::pbkdf2_hmac::<BlockHasher<F>>(salt, password, 1, key).is_ok()
        && ripemd_batch::pbkdf2_hmac::<BlockHasher<F>>(password, salt, 3, key).is_ok()
        && is_written(key, digits)
}

#[test]
fn keys_of_others(rt: HostRuntime) {
    assert_each!(rt; derives(key));
}

// No rounds: an error, even for no bytes, and nothing is written.
#[test]
fn no_rounds(rt: HostRuntime) {
    let mut key = [7; 20];
    let derived = pbkdf2_hmac::<Ripemd160>(b"password", b"salt", 0, &mut key);
    assert!(rt; derived == Err(Pbkdf2Error::NoRounds) && key == [7; 20]);
    assert!(rt; pbkdf2_hmac::<Ripemd160>(b"password", b"salt", 0, &mut []).is_err());
    assert!(rt; pbkdf2_hmac::<Ripemd160>(b"password", b"salt", 1, &mut []).is_ok());
}
