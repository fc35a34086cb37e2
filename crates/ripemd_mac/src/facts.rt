//! Worked examples of the definitions, as contracts of functions that do nothing.

ghost use Rattle.ripemd_mac.specs.Worked.{WorkedTags, WorkedSaved, WorkedKeys, WorkedMacCollisions};

/// The definition gives the tags of RFC 2286 under keys shorter and longer than a block, and OpenSSL's under a key of a
/// block.
pub fn tags()
    ensures { WorkedTags }
{}

/// A saved HMAC state of RIPEMD-160, with OpenSSL's chaining values.
pub fn saved_tag()
    ensures { WorkedSaved }
{}

/// Collisions of a small block function, in the inner and in the outer messages.
pub fn mac_collisions()
    ensures { WorkedMacCollisions }
{}

/// The definition gives OpenSSL's keys, and a key by a constant function.
pub fn keys()
    ensures { WorkedKeys }
{}
