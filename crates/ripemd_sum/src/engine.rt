//! The run of the program, over any reader and any writer.

ghost use Rattle.std.specs.Prelude.{◌≡◌, ◌+◌, ◌*◌, ◌≤◌, ◌++◌, ℕ, List, false, true, length, codes, IfOk, OnOk, IfErr};
ghost use Rattle.hex.specs.Hex.{encode_lower};
ghost use Rattle.ripemd.specs.Standard.{hash};
ghost use Rattle.ripemd_mac.specs.Hmac.{hmac};
ghost use Rattle.ripemd_sum.specs.Runs.{digest_line, tag_line, Ready, GivesAll, Gets};
ghost use Rattle.ripemd_sum.specs.Faults.{ExplainsReading, ExplainsRun, IsRun};

use crate::any_hasher::AnyHasher;
use crate::fault::{ReadFault, RunFault};
use crate::tracked::Tracked;
use crate::variant::Variant;
use ripemd::block_api::{
    ByteArray, Ripemd128Function, Ripemd160Function, Ripemd256Function, Ripemd320Function,
};
use ripemd::digest::OutputSizeUser;
use ripemd::incremental::Incremental;
use ripemd::{BlockHasher, Digest, ListBlockFunction};
use ripemd_mac::Hmac;
use std::io;
use std::io::{Read, Write};

/// The most bytes that a read asks for.
const CHUNK_SIZE: usize = 4096;

/// The longest line: 40 bytes in hexadecimal, and a newline.
const LONGEST_LINE: usize = 81;

/// Reads to the end, and writes the digest of what the reader gave, as a line in lowercase hexadecimal.
///
/// The reader has given nothing yet, and neither it nor the writer has failed. Nothing is written before the reader has
/// ended, and nothing is allocated.
///
/// # Errors
///
/// - `Read`: a read failed. It is not tried again.
/// - `TooLong`: the reader gave more than `limit` bytes, by at most 4,096.
/// - `Write`: the write failed. How much of the line went out is not known.
///
/// The first to happen is the answer.
pub fn run<R: Read, W: Write>(
    variant: Variant,
    reader: &mut Tracked<R>,
    writer: &mut Tracked<W>,
    limit: u64,
) -> Result<(), RunFault>
    requires { Ready reader.old writer.old }
    ensures { IsRun R.remaining W.contents reader.old reader.new writer.old writer.new limit
        (digest_line variant) result }
{
    match variant {
        Variant::R128 => run_digest::<Ripemd128Function, R, W>(reader, writer, limit),
        Variant::R160 => run_digest::<Ripemd160Function, R, W>(reader, writer, limit),
        Variant::R256 => run_digest::<Ripemd256Function, R, W>(reader, writer, limit),
        Variant::R320 => run_digest::<Ripemd320Function, R, W>(reader, writer, limit),
    }
}

/// As [`run`], errors too, but writes the tag (HMAC, RFC 2104) under a key of any length.
pub fn run_mac<R: Read, W: Write>(
    variant: Variant,
    key: &[u8],
    reader: &mut Tracked<R>,
    writer: &mut Tracked<W>,
    limit: u64,
) -> Result<(), RunFault>
    requires { Ready reader.old writer.old }
    ensures { IsRun R.remaining W.contents reader.old reader.new writer.old writer.new limit
        (tag_line variant key.now) result }
{
    match variant {
        Variant::R128 => run_tag::<Ripemd128Function, R, W>(key, reader, writer, limit),
        Variant::R160 => run_tag::<Ripemd160Function, R, W>(key, reader, writer, limit),
        Variant::R256 => run_tag::<Ripemd256Function, R, W>(key, reader, writer, limit),
        Variant::R320 => run_tag::<Ripemd320Function, R, W>(key, reader, writer, limit),
    }
}

fn run_digest<F: ListBlockFunction, R: Read, W: Write>(
    reader: &mut Tracked<R>,
    writer: &mut Tracked<W>,
    limit: u64,
) -> Result<(), RunFault>
    requires fits { 2 * F.Digest.LEN + 1 ≤ 81 }
    requires ready { Ready reader.old writer.old }
    ensures { IsRun R.remaining W.contents reader.old reader.new writer.old writer.new limit
        (λ message. encode_lower (hash (F.list F.start_of) F.step F.output message) ++ codes "\n")
        result }
{
    let digest = hash_reader::<BlockHasher<F>, R>(reader, limit)?;
    write_line(digest.as_bytes(), writer).map_err(RunFault::Write)
}

fn run_tag<F: ListBlockFunction, R: Read, W: Write>(
    key: &[u8],
    reader: &mut Tracked<R>,
    writer: &mut Tracked<W>,
    limit: u64,
) -> Result<(), RunFault>
    requires fits { 2 * F.Digest.LEN + 1 ≤ 81 }
    requires ready { Ready reader.old writer.old }
    ensures { IsRun R.remaining W.contents reader.old reader.new writer.old writer.new limit
        (λ message. encode_lower (hmac (hash (F.list F.start_of) F.step F.output) key.now message)
        ++ codes "\n") result }
{
    let tag = read_to_end::<Hmac<BlockHasher<F>>, R>(Hmac::new(key), reader, limit)?;
    write_line(tag.as_bytes(), writer).map_err(RunFault::Write)
}

/// The digest of all that the reader gives.
///
/// The reader has not failed and has given nothing yet. It is read at most 4,096 bytes at a time; nothing is allocated.
///
/// # Errors
///
/// - `Read`: a read failed. It is not tried again.
/// - `TooLong`: the reader gave more than `limit` bytes, by at most 4,096.
///
/// The first to happen is the answer.
pub fn hash_reader<D: Digest, R: Read>(
    reader: &mut Tracked<R>,
    limit: u64,
) -> Result<D::Output, ReadFault>
    requires works { reader.old.failed ≡ false }
    requires fresh { reader.old.taken ≡ 0 }
    ensures ok { IfOk result (λ digest. (message : List ℕ)
        × GivesAll R.remaining reader.old reader.new limit message
        × (D.bytes_of digest ≡ hash D.start D.step D.output message)) }
    ensures fault { IfErr result (ExplainsReading R.remaining reader.old reader.new limit) }
{
    read_to_end::<AnyHasher<D>, R>(AnyHasher::new(), reader, limit)
}

// The digest or tag of all that the reader gives, by a new hasher or `Hmac`.
fn read_to_end<S: Incremental, R: Read>(
    state: S,
    reader: &mut Tracked<R>,
    limit: u64,
) -> Result<<S::Hash as OutputSizeUser>::Output, ReadFault>
    requires works { reader.old.failed ≡ false }
    requires fresh { reader.old.taken ≡ 0 }
    ensures ok { IfOk result (λ output. (message : List ℕ)
        × GivesAll R.remaining reader.old reader.new limit message
        × ((o : S.Origin) → state ≡ S.new_state o → S.Hash.bytes_of output ≡ S.whole o message)) }
    ensures fault { IfErr result (ExplainsReading R.remaining reader.old reader.new limit) }
{
    let mut state = state;
    let mut chunk = [0; CHUNK_SIZE];
    'reads: loop {
        match reader.read(&mut chunk) {
            Err(error) => return Err(ReadFault::Read(error)),
            Ok(0) => return Ok(state.finalize()),
            Ok(count) => state.update(&chunk[..count]),
        }
        if reader.taken() > limit as u128 {
            return Err(ReadFault::TooLong);
        }
    }
}

// Writes bytes in hexadecimal, as a line.
fn write_line<W: Write>(bytes: &[u8], writer: &mut Tracked<W>) -> io::Result<()>
    requires fits { 2 * length bytes.now + 1 ≤ 81 }
    requires works { writer.old.failed ≡ false }
    ensures ok { OnOk result (Gets W.contents writer.old writer.new (encode_lower bytes.now ++ codes "\n")) }
    ensures err { IfErr result (λ _. writer.new.failed ≡ true) }
{
    let mut buffer = [0; LONGEST_LINE];
    let line = &mut buffer[..2 * bytes.len() + 1];
    let end = line.len() - 1;
    hex::encode_to_slice(bytes, &mut line[..end]).unwrap();
    line[end] = b'\n';
    writer.write_all(line)
}
