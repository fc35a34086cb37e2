//! Worked examples of the definitions, as contracts of functions that do nothing.

ghost use Rattle.ripemd.specs.Worked.{WorkedPlaces, WorkedCollisions, WorkedReplay};

use crate::digest::Digest;
use ripemd_block::block_api::SerializableState;

/// Collisions of a block function on one bit, and answers that are none because one part is wrong.
pub fn collisions()
    ensures places { WorkedPlaces }
    ensures answers { WorkedCollisions }
{}

/// What the digests of a list of commands are of, and errors of others.
pub fn commands<D: Digest + SerializableState>()
    ensures { WorkedReplay D.start D.step D.output D.is_valid D.state_bytes }
{}
