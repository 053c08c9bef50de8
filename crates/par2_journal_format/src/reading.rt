//! Decoding a journal. Each reader returns a part from the front of the bytes, and the bytes after it; `Gives`: it
//! returns what its definition in `specs/Journals.antt` reads, JournalInvalid if that reads nothing, or Memory.
//! `decode_untested` splits the digest off and reads heading, fingerprint, cursor, entries and halfway part; `decode`
//! tests the digest first.
#![tactic(auto, using(crate::proofs::Whole::reading))]

ghost use Rattle.std.specs.Prelude.{◌≡◌, ◌↔◌, IfErr, IfOk, IsTrue, Err, MatchResult};
ghost use Rattle.par2_spec.specs.Prelude.{Journal as Defined, Spells};
ghost use Rattle.par2_files.specs.Folders.{change_of};
ghost use Rattle.par2_journal_format.specs.Journals.{Gives, IsRefusal, IsSealed, IsUntested, behind_length_at, block_at, change_at, entry_at, halfway_at, halfway_of, heading_at, journal_of, many_at, name_at, number_at, parts_at};
ghost use Rattle.par2_spec.specs.declared.JournalFault.TheVariants.{JournalInvalid, Memory};

use crate::journal::heading;
use crate::{HalfwayPart, Journal};
use md5::{Digest, Md5};
use par2_files::{Bytes, Change, Changes, Name};
use par2_spec::{JournalFault, Version};
use std::alloc::{AllocFailed, Global};

// A part from the front, and the bytes after it.
type Read<'a, T> = Result<(T, &'a [u8]), JournalFault>;

// The first `len` bytes, borrowed, so that nothing is allocated for a length that is only claimed. JournalInvalid if
// there are fewer.
#[tactic(auto, unfolding(crate::specs::Journals::block_at))]
fn read_block(bytes: &[u8], len: usize) -> Result<(&[u8], &[u8]), JournalFault>
    ensures { Gives (λ x. (x.0.now, x.1.now)) result (block_at len bytes.now) }
{
    let blocks = bytes.split_at_checked(len);
    blocks.ok_or(JournalFault::JournalInvalid)
}

// A number of eight bytes, little-endian: a length, a count or the cursor.
#[tactic(auto, unfolding(crate::specs::Journals::number_at))]
fn read_number(bytes: &[u8]) -> Result<(u64, &[u8]), JournalFault>
    ensures { Gives (λ x. (x.0, x.1.now)) result (number_at bytes.now) }
{
    let Some((number, rest)) = bytes.split_first_chunk() else {
        return Err(JournalFault::JournalInvalid);
    };
    Ok((u64::from_le_bytes(*number), rest))
}

// A folder's fingerprint, at the front or in the halfway part; `split_digest` reads the digest at the end.
#[tactic(auto, unfolding(crate::specs::Journals::block_at))]
fn read_digest(bytes: &[u8]) -> Result<([u8; 16], &[u8]), JournalFault>
    ensures { Gives (λ x. (x.0, x.1.now)) result (block_at 16 bytes.now) }
{
    let Some((digest, rest)) = bytes.split_first_chunk() else {
        return Err(JournalFault::JournalInvalid);
    };
    Ok((*digest, rest))
}

// A file name: its length in one byte, then its bytes. JournalInvalid if they aren't a `Name`.
#[tactic(auto, unfolding(crate::specs::Journals::name_at))]
fn read_name(bytes: &[u8]) -> Result<(Name, &[u8]), JournalFault>
    ensures { Gives (λ x. (x.0, x.1.now)) result (name_at bytes.now) }
{
    let [len, rest @ ..] = bytes else {
        return Err(JournalFault::JournalInvalid);
    };
    let (encoded, rest) = read_block(rest, *len as usize)?;
    match Name::from_bytes(encoded) {
        Some(name) => Ok((name, rest)),
        None => Err(JournalFault::JournalInvalid),
    }
}

// The bytes of a file, copied: their number in eight bytes, then the bytes.
#[tactic(auto, unfolding(crate::specs::Journals::behind_length_at))]
fn read_bytes(alloc: Global, bytes: &[u8]) -> Result<(Bytes, &[u8]), JournalFault>
    ensures { Gives (λ x. (x.0, x.1.now)) result (behind_length_at bytes.now) }
{
    let (len, rest) = read_number(bytes)?;
    let (content, rest) = read_block(rest, len as usize)?;
    Ok((Bytes::copy_of(alloc, content)?, rest))
}

// One change: its kind in one byte (1 write, 2 replace, 3 rename, 4 remove), its name, and the bytes or the new name.
#[tactic(auto, unfolding(crate::specs::Journals::change_at))]
fn read_change(alloc: Global, bytes: &[u8]) -> Result<(Change, &[u8]), JournalFault>
    ensures { Gives (λ x. (change_of x.0, x.1.now)) result (change_at bytes.now) }
{
    let [kind, rest @ ..] = bytes else {
        return Err(JournalFault::JournalInvalid);
    };
    let (name, rest) = read_name(rest)?;
    match kind {
        1 => {
            let (content, rest) = read_bytes(alloc, rest)?;
            Ok((Change::Write(name, content), rest))
        }
        2 => {
            let (content, rest) = read_bytes(alloc, rest)?;
            Ok((Change::Replace(name, content), rest))
        }
        3 => {
            let (to, rest) = read_name(rest)?;
            Ok((Change::Rename(name, to), rest))
        }
        4 => Ok((Change::Remove(name), rest)),
        _ => Err(JournalFault::JournalInvalid),
    }
}

// `count` changes one after the other. The list grows by changes that were read, so that no memory is taken for a count
// that is only claimed.
fn read_changes(alloc: Global, count: u64, bytes: &[u8]) -> Result<(Changes, &[u8]), JournalFault>
    ensures { Gives (λ x. (x.0, x.1.now)) result (many_at change_at count bytes.now) }
{
    let mut changes = Changes::new(alloc);
    let mut rest = bytes;
    for _ in 0..count {
        let (change, behind) = read_change(alloc, rest)?;
        changes.push(change)?;
        rest = behind;
    }
    Ok((changes, rest))
}

// One entry of the history, an undo or a redo: the number of its changes, then the changes.
#[tactic(auto, unfolding(crate::specs::Journals::entry_at))]
fn read_entry(alloc: Global, bytes: &[u8]) -> Result<(Changes, &[u8]), JournalFault>
    ensures { Gives (λ x. (x.0, x.1.now)) result (entry_at bytes.now) }
{
    let (count, rest) = read_number(bytes)?;
    read_changes(alloc, count, rest)
}

// `count` entries of the history, the oldest first. The list grows by entries that were read.
fn read_entries(alloc: Global, count: u64, bytes: &[u8]) -> Read<'_, Vec<Changes>>
    ensures { Gives (λ x. (x.0.items, x.1.now)) result (many_at entry_at count bytes.now) }
{
    let mut entries = Vec::new(alloc);
    let mut rest = bytes;
    for _ in 0..count {
        let (entry, behind) = read_entry(alloc, rest)?;
        let pushed = entries.push(entry);
        pushed.map_err(|_: AllocFailed<Changes>| JournalFault::Memory)?;
        rest = behind;
    }
    Ok((entries, rest))
}

// `count` fingerprints, those after each change of a halfway command. The list grows by fingerprints that were read.
fn read_digests(alloc: Global, count: u64, bytes: &[u8]) -> Read<'_, Vec<[u8; 16]>>
    ensures { Gives (λ x. (x.0.items, x.1.now)) result (many_at (block_at 16) count bytes.now) }
{
    let mut digests = Vec::new(alloc);
    let mut rest = bytes;
    for _ in 0..count {
        let (digest, behind) = read_digest(rest)?;
        let pushed = digests.push(digest);
        pushed.map_err(|_: AllocFailed<[u8; 16]>| JournalFault::Memory)?;
        rest = behind;
    }
    Ok((digests, rest))
}

// The halfway part: a 0 if no command is halfway; otherwise a 1, a count that isn't 0, this many fingerprints, and as
// many changes that take the command back.
#[tactic(auto, unfolding(crate::specs::Journals::halfway_at, crate::specs::Journals::many_at))]
fn read_halfway(alloc: Global, bytes: &[u8]) -> Result<(Option<HalfwayPart>, &[u8]), JournalFault>
    ensures { Gives (λ x. (halfway_of x.0, x.1.now)) result (halfway_at bytes.now) }
{
    match bytes {
        [0, rest @ ..] => Ok((None, rest)),
        [1, rest @ ..] => {
            let (count, rest) = read_number(rest)?;
            if count == 0 {
                return Err(JournalFault::JournalInvalid);
            }
            let (fingerprints, rest) = read_digests(alloc, count, rest)?;
            let (back, rest) = read_changes(alloc, count, rest)?;
            Ok((Some(HalfwayPart { fingerprints, back }), rest))
        }
        _ => Err(JournalFault::JournalInvalid),
    }
}

// The version, by the first eight bytes. JournalInvalid if they are no known heading.
#[tactic(auto, unfolding(crate::specs::Journals::heading_at))]
fn read_heading(bytes: &[u8]) -> Result<(Version, &[u8]), JournalFault>
    ensures { Gives (λ x. (x.0, x.1.now)) result (heading_at bytes.now) }
{
    let (front, rest) = read_block(bytes, 8)?;
    if front == heading(Version::One) {
        Ok((Version::One, rest))
    } else if front == heading(Version::Two) {
        Ok((Version::Two, rest))
    } else {
        Err(JournalFault::JournalInvalid)
    }
}

// The whole journal, from its bytes without the digest at the end. Version 1 has no cursor: all its entries are undos.
// JournalInvalid if the cursor is above the number of entries, or if bytes are left.
#[tactic(auto, unfolding(crate::specs::Journals::parts_at, crate::specs::Journals::cursor_at))]
fn read_parts(alloc: Global, bytes: &[u8]) -> Result<Journal, JournalFault>
    ensures { Gives journal_of result (parts_at bytes.now) }
{
    let (version, rest) = read_heading(bytes)?;
    let (fingerprint, rest) = read_digest(rest)?;
    let (read, rest) = match version {
        Version::One => (0, rest),
        Version::Two => read_number(rest)?,
    };
    let (count, rest) = read_number(rest)?;
    let (entries, rest) = read_entries(alloc, count, rest)?;
    let (halfway, rest) = read_halfway(alloc, rest)?;
    let cursor = match version {
        Version::One => count,
        Version::Two => read,
    };
    if cursor > count || !rest.is_empty() {
        return Err(JournalFault::JournalInvalid);
    }
    Ok(Journal {
        version,
        fingerprint,
        cursor: cursor as usize,
        entries,
        halfway,
    })
}

/// Whether the bytes end with the MD5 of all bytes before it (`IsSealed`), as every journal does. It allocates nothing.
pub fn is_sealed(bytes: &[u8]) -> bool
    ensures { IsTrue result ↔ IsSealed bytes.now }
{
    match bytes.split_last_chunk::<16>() {
        Some((body, end)) => end.as_slice() == Md5::digest(body).as_slice(),
        None => false,
    }
}

/// The journal that the bytes spell. If they don't end with their digest, nothing is read or allocated. Otherwise
/// memory is taken only for bytes that are there.
pub fn decode(alloc: Global, bytes: &[u8]) -> Result<Journal, JournalFault>
    ensures found { IfOk result (λ journal. Spells bytes.now (journal_of journal)) }
    ensures only { (j : Defined) → Spells bytes.now j
        → MatchResult result (λ journal. journal_of journal ≡ j) (λ fault. fault ≡ Memory) }
    ensures refused { IfErr result (IsRefusal bytes.now) }
    ensures unsealed { ¬ (IsSealed bytes.now) → result ≡ Err JournalInvalid }
{
    if !is_sealed(bytes) {
        return Err(JournalFault::JournalInvalid);
    }
    Ok(decode_untested(alloc, bytes)?.journal)
}

/// A journal that was decoded before the digest at its end is tested.
#[derive(Drop)]
pub struct Untested<'a> {
    pub journal: Journal,
    /// All bytes but the digest.
    pub body: &'a [u8],
    /// The digest that the body should have.
    pub digest: &'a [u8],
}

/// The journal that the bytes spell if they end with their digest. The caller tests that, because it can compute it
/// side by side with other digests. Memory is taken as in [`decode`], but also for bytes with a wrong digest.
pub fn decode_untested(alloc: Global, bytes: &[u8]) -> Result<Untested<'_>, JournalFault>
    ensures found { IfOk result (IsUntested bytes.now) }
    ensures refused { IfErr result (IsRefusal bytes.now) }
{
    let Some((body, digest)) = bytes.split_last_chunk::<16>() else {
        return Err(JournalFault::JournalInvalid);
    };
    let journal = read_parts(alloc, body)?;
    Ok(Untested {
        journal,
        body,
        digest: digest.as_slice(),
    })
}
