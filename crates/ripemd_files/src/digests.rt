//! The digests of files, several at once.

ghost use Rattle.std.specs.Prelude.{◌≡◌, ◌+◌, ◌<◌, ◌≤◌, ◌^◌, ◌++◌, ◌⊎◌, ◌*◌, ◌≢◌, ℕ, List, [], length, map, take, IfOk, IfErr};
ghost use Rattle.std.specs.IoError.{error_kind};
ghost use Rattle.std.specs.declared.io.ErrorKind.TheVariants.{FileTooLarge};
ghost use Rattle.std.specs.Io.KnownBytes.{Consumes, IsAtEnd};
ghost use Rattle.ripemd_block.specs.Standard.{hash};
ghost use Rattle.ripemd.specs.Standard.{ripemd};
ghost use Rattle.ripemd_batch.specs.Lanes.{targets};
ghost use Rattle.ripemd_files.specs.Files.{Breaks, ComesTo, Follows, Gave, Gives, IsContent, OfFirst, Place, message_in, parameters_of};
ghost use Rattle.std.specs.List.{AllZip};

use crate::folder::Folder;
use crate::line::Variant;
use crate::outcome::Outcome;
use ripemd::block_api::ByteArray;
use ripemd::{Digest, Ripemd128, Ripemd160, Ripemd256, Ripemd320};
use ripemd_batch::{BatchDigest, digest_each};
use std::alloc::{AllocError, Global};
use std::io;

// A message of this length in bytes is too long: its length in bits does not fit into 64 bits.
const TOO_LONG: u64 = 1 << 61;

// The most files that are hashed at once.
pub(crate) const FILES_AT_ONCE: usize = 8;

// A message shorter than the buffer, which is hashed with others, or what came of the file.
#[derive(Drop)]
enum Content {
    Short(Vec<u8>),
    Read(Outcome),
}

// Reads until the file ends or the buffer is full. How many bytes.
fn fill<F: Folder>(folder: &F, file: &mut F::File, buffer: &mut [u8]) -> Result<usize, io::Error>
    requires readable { (F.place folder.now).readable file.old }
    ensures ok { IfOk result (λ count. (count ≤ length buffer.new)
        × Consumes ((F.place folder.now).left file.old) ((F.place folder.now).left file.new) (take count buffer.new)
        × (count < length buffer.new → IsAtEnd ((F.place folder.now).left file.new))
        × (count ≡ length buffer.new → (F.place folder.now).readable file.new)) }
    ensures err { IfErr result (λ error. (bytes : List ℕ) × (now : F.File) × Consumes ((F.place folder.now).left file.old) ((F.place folder.now).left now) bytes
        × (F.place folder.now).may_fail now error) }
    ensures room { length buffer.new ≡ length buffer.old }
{
    let mut count = 0;
    while count < buffer.len() {
        match folder.read(file, &mut buffer[count..])? {
            0 => return Ok(count),
            more => count += more,
        }
    }
    Ok(count)
}

// The digest of the bytes in the buffer and the rest of the file.
#[tactic(auto, using(crate::proofs::Cutting::consumed))]
fn hash_rest<D: Digest, F: Folder>(
    folder: &F,
    file: &mut F::File,
    buffer: &mut [u8],
) -> Result<D::Output, io::Error>
    requires readable { (F.place folder.now).readable file.old }
    requires room { 0 < length buffer.old }
    ensures ok { IfOk result (λ digest. (rest : List ℕ) × Consumes ((F.place folder.now).left file.old) ((F.place folder.now).left file.new) rest
        × IsAtEnd ((F.place folder.now).left file.new) × (length (buffer.old ++ rest) < 2 ^ 61)
        × (D.bytes_of digest ≡ hash D.start D.step D.output (buffer.old ++ rest))) }
    ensures err { IfErr result (λ error. (rest : List ℕ) × (now : F.File) × Consumes ((F.place folder.now).left file.old) ((F.place folder.now).left now) rest
        × ((F.place folder.now).may_fail now error ⊎ ((2 ^ 61 ≤ length (buffer.old ++ rest)) × (error_kind error ≡ FileTooLarge)))) }
    ensures room { length buffer.new ≡ length buffer.old }
{
    let mut hasher = D::new_with_prefix(buffer);
    let mut length = buffer.len() as u64;
    while length < TOO_LONG {
        match folder.read(file, buffer)? {
            0 => return Ok(hasher.finalize()),
            count => {
                hasher.update(&buffer[..count]);
                length += count as u64;
            }
        }
    }
    Err(too_large())
}

fn too_large() -> io::Error
    ensures { error_kind result ≡ FileTooLarge }
{
    io::Error::from(io::ErrorKind::FileTooLarge)
}

// What the file of a name gave.
fn read_file<D: Digest, F: Folder>(
    alloc: Global,
    folder: &F,
    name: &[u8],
    buffer: &mut [u8],
) -> Result<Content, AllocError>
    requires room { 0 < length buffer.old }
    ensures content { IfOk result (IsContent (F.place folder.now) (hash D.start D.step D.output) name.now) }
    ensures room { length buffer.new ≡ length buffer.old }
{
    let mut file = match folder.open(name) {
        Ok(file) => file,
        Err(error) => return Ok(Content::Read(Outcome::Refused(error))),
    };
    match fill(folder, &mut file, buffer) {
        Ok(count) => {
            if count as u64 >= TOO_LONG {
                return Ok(Content::Read(Outcome::Broken(too_large())));
            }
            if count < buffer.len() {
                let message = Vec::from_slice(alloc, &buffer[..count])?;
                return Ok(Content::Short(message));
            }
        }
        Err(error) => return Ok(Content::Read(Outcome::Broken(error))),
    }
    match hash_rest::<D, F>(folder, &mut file, buffer) {
        Ok(digest) => {
            let bytes = Vec::from_slice(alloc, D::output_bytes(&digest))?;
            Ok(Content::Read(Outcome::Digest(bytes)))
        }
        Err(error) => Ok(Content::Read(Outcome::Broken(error))),
    }
}

// Reads the files of the first names: one, or several short ones.
fn read_files<D: Digest, F: Folder>(
    alloc: Global,
    folder: &F,
    names: &[&[u8]],
    buffer: &mut [u8],
) -> Result<Vec<Content>, AllocError>
    requires room { 0 < length buffer.old }
    ensures { IfOk result (λ contents. OfFirst (IsContent (F.place folder.now) (hash D.start D.step D.output)) (targets names.now) contents.items) }
{
    let mut contents = Vec::with_capacity(alloc, FILES_AT_ONCE)?;
    for name in names {
        let short = contents.len() < FILES_AT_ONCE && folder.is_short(name);
        if !short && !contents.is_empty() {
            return Ok(contents);
        }
        let content = read_file::<D, F>(alloc, folder, name, buffer)?;
        contents.push(content)?;
        if !short {
            return Ok(contents);
        }
    }
    Ok(contents)
}

// The message of a short file, else the empty one.
fn message_of(content: &Content) -> &[u8]
    ensures { result.now ≡ message_in content.now }
{
    match content {
        Content::Short(message) => message.as_slice(),
        _ => &[],
    }
}

fn messages_of(alloc: Global, contents: &[Content]) -> Result<Vec<&[u8]>, AllocError>
    ensures { IfOk result (λ messages. targets messages.items ≡ map message_in contents.now) }
{
    let mut messages = Vec::with_capacity(alloc, contents.len())?;
    for content in contents {
        messages.push(message_of(content))?;
    }
    Ok(messages)
}

// The outcome of a file, by its content and the digest of its message.
fn outcome_of<D: Digest>(
    alloc: Global,
    content: Content,
    digest: &D::Output,
) -> Result<Outcome, AllocError>
    requires made { D.bytes_of digest.now ≡ hash D.start D.step D.output (message_in content) }
    ensures { IfOk result (Follows (hash D.start D.step D.output) content) }
{
    match content {
        Content::Short(_) => {
            let bytes = Vec::from_slice(alloc, D::output_bytes(digest))?;
            Ok(Outcome::Digest(bytes))
        }
        Content::Read(outcome) => Ok(outcome),
    }
}

fn outcomes_of<D: Digest>(
    alloc: Global,
    contents: Vec<Content>,
    digests: &[D::Output],
) -> Result<Vec<Outcome>, AllocError>
    requires made { map D.bytes_of digests.now ≡ map (hash D.start D.step D.output) (map message_in contents.items) }
    ensures { IfOk result (λ outcomes. AllZip (Follows (hash D.start D.step D.output)) contents.items outcomes.items) }
{
    let mut outcomes = Vec::with_capacity(alloc, contents.len())?;
    for content in contents {
        let digest = &digests[outcomes.len()];
        let outcome = outcome_of::<D>(alloc, content, digest)?;
        outcomes.push(outcome)?;
    }
    Ok(outcomes)
}

// Reads and hashes the files of the first names.
fn read_group<D: BatchDigest, F: Folder>(
    alloc: Global,
    folder: &F,
    names: &[&[u8]],
    buffer: &mut [u8],
) -> Result<Vec<Outcome>, AllocError>
    requires room { 0 < length buffer.old }
    ensures { IfOk result (λ outcomes. OfFirst (ComesTo (F.place folder.now) (hash D.start D.step D.output)) (targets names.now) outcomes.items) }
{
    let contents = read_files::<D, F>(alloc, folder, names, buffer)?;
    let messages = messages_of(alloc, contents.as_slice())?;
    let mut digests = vec![in alloc; D::Output::zeros(); messages.len()]?;
    digest_each::<D>(messages.as_slice(), digests.as_mut_slice());
    drop(messages);
    outcomes_of::<D>(alloc, contents, digests.as_slice())
}

/// Reads and hashes the files of the first names, in order: one, or up to eight [short](Folder::is_short) ones. Each
/// is read to the buffer, which must have room; those that leave room there are hashed at once.
pub fn read_digests<F: Folder>(
    alloc: Global,
    folder: &F,
    variant: Variant,
    names: &[&[u8]],
    buffer: &mut [u8],
) -> Result<Vec<Outcome>, AllocError>
    requires room { 0 < length buffer.old }
    ensures { IfOk result (λ outcomes. OfFirst (ComesTo (F.place folder.now) (ripemd (parameters_of variant))) (targets names.now) outcomes.items) }
{
    match variant {
        Variant::R128 => read_group::<Ripemd128, F>(alloc, folder, names, buffer),
        Variant::R160 => read_group::<Ripemd160, F>(alloc, folder, names, buffer),
        Variant::R256 => read_group::<Ripemd256, F>(alloc, folder, names, buffer),
        Variant::R320 => read_group::<Ripemd320, F>(alloc, folder, names, buffer),
    }
}
