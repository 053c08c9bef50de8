//! Encoding a journal. `encode` writes a settled one. For an action, `begin` writes the halfway one up to its entries
//! while they are as before the action, and `finish_both` writes the rest of it and the settled one. The `append_`
//! functions each append one part to `out`; `Appends`: exactly these bytes are added if the call returns Ok.
ghost use Rattle.std.specs.Prelude.{◌≡◌, ◌∷◌, ◌++◌, length, flat_map, OnOk, IfOk, IfSome, IsTrue, Some};
ghost use Rattle.std.specs.Int.{w64, to_le_bytes};
ghost use Rattle.std.specs.List.{concat, AllByRecursion};
ghost use Rattle.md5.specs.Md5.{md5};
ghost use Rattle.par2_spec.specs.Answers.{Appends};
ghost use Rattle.par2_spec.specs.Prelude.{is_name, behind_length, IsChange, IsDigest, IsEntry, IsFileBytes, IsHalfwayPart, Spells, change_bytes, entry_bytes, halfway_bytes, name_bytes};
ghost use Rattle.par2_files.specs.Folders.{change_of};
ghost use Rattle.par2_journal_format.specs.Journals.{Begins, Continues, Finishes, changes_in, journal_from, part_from};

use crate::journal::heading;
use crate::{HalfwayPartView, JournalView};
use md5::{Digest, Md5};
use par2_files::{Bytes, Change, Changes, Name};
use par2_md5_lanes::buffer_digests;
use par2_spec::{Result, Version};
use std::alloc::Global;

// Appends a length, a count or the cursor: eight bytes, little-endian.
fn append_number(out: &mut Vec<u8>, number: u64) -> Result<()>
    ensures { Appends (to_le_bytes w64 number) out.old out.new result }
{
    out.extend_from_slice(&number.to_le_bytes())
}

// Appends a file name: its length in one byte, then its bytes. For the prover: the name is a valid one.
fn append_name(out: &mut Vec<u8>, name: &Name) -> Result<()>
    ensures bytes { Appends (name_bytes name.now) out.old out.new result }
    ensures name { IsTrue (is_name name.now) }
{
    let string = name.as_str();
    out.push(string.len() as u8)?;
    out.extend_from_slice(string.as_bytes())
}

// Appends the bytes of a file: their number in eight bytes, then the bytes. For the prover: their number fits.
fn append_bytes(out: &mut Vec<u8>, bytes: &Bytes) -> Result<()>
    ensures bytes { Appends (behind_length bytes.now) out.old out.new result }
    ensures fits { IsFileBytes bytes.now }
{
    let content = bytes.as_slice();
    append_number(out, content.len() as u64)?;
    out.extend_from_slice(content)
}

// Appends one change: its kind in one byte (1 write, 2 replace, 3 rename, 4 remove), its name, and the bytes or the new
// name. `IsChange`: a journal can hold it.
fn append_change(out: &mut Vec<u8>, change: &Change) -> Result<()>
    ensures bytes { Appends (change_bytes (change_of change.now)) out.old out.new result }
    ensures change { OnOk result (IsChange (change_of change.now)) }
{
    let (kind, name) = match change {
        Change::Write(name, _) => (1, name),
        Change::Replace(name, _) => (2, name),
        Change::Rename(from, _) => (3, from),
        Change::Remove(name) => (4, name),
    };
    out.push(kind)?;
    append_name(out, name)?;
    match change {
        Change::Write(_, bytes) | Change::Replace(_, bytes) => append_bytes(out, bytes),
        Change::Rename(_, to) => append_name(out, to),
        Change::Remove(_) => Ok(()),
    }
}

// Appends changes one after the other, without their number, which the caller has appended.
fn append_changes(out: &mut Vec<u8>, changes: &[Change]) -> Result<()>
    ensures each { Appends (flat_map change_bytes (changes_in changes.now)) out.old out.new result }
    ensures changes { OnOk result (IsEntry (changes_in changes.now)) }
{
    for change in changes {
        append_change(out, change)?;
    }
    Ok(())
}

// Appends entries of the history, the oldest first: for each, the number of its changes, then the changes.
fn append_entries(out: &mut Vec<u8>, entries: &[Changes]) -> Result<()>
    ensures bytes { Appends (flat_map entry_bytes entries.now) out.old out.new result }
    ensures entries { OnOk result (AllByRecursion IsEntry entries.now) }
{
    for entry in entries {
        append_number(out, entry.len() as u64)?;
        append_changes(out, entry.as_slice())?;
    }
    Ok(())
}

// Appends the fingerprints of the folder after each change of the halfway command, without their number.
#[tactic(auto, using(std::proofs::lemmas::List::Concat::concat_is))]
fn append_digests(out: &mut Vec<u8>, digests: &[[u8; 16]]) -> Result<()>
    ensures bytes { Appends (concat digests.now) out.old out.new result }
    ensures digests { AllByRecursion IsDigest digests.now }
{
    out.extend_from_slice(digests.as_flattened())
}

// Appends the halfway part: a 0 if there is none, otherwise a 1, the number of changes, the fingerprint after each
// change of the command, and the changes that take it back.
fn append_halfway(out: &mut Vec<u8>, halfway: Option<&HalfwayPartView<'_>>) -> Result<()>
    ensures bytes { Appends (halfway_bytes (part_from halfway.entry)) out.old out.new result }
    ensures halfway { OnOk result (IfSome (part_from halfway.entry) IsHalfwayPart) }
{
    let Some(halfway) = halfway else {
        return out.extend_from_slice(&[0]);
    };
    out.push(1)?;
    append_number(out, halfway.back.len() as u64)?;
    append_digests(out, halfway.fingerprints)?;
    append_changes(out, halfway.back.as_slice())
}

/// The first step of an action's journals: the bytes of the halfway one up to its entries, for [`finish_both`].
#[tactic(auto, unfolding(crate::specs::Journals::front_bytes))]
pub fn begin(alloc: Global, parts: &JournalView<'_>) -> Result<Vec<u8>>
    ensures { IfOk result (λ front. Begins front.items (journal_from parts.now)) }
{
    let mut out = Vec::new(alloc);
    out.extend_from_slice(heading(Version::Two))?;
    out.extend_from_slice(&parts.fingerprint)?;
    append_number(&mut out, parts.cursor as u64)?;
    append_number(&mut out, (parts.entries.len() + parts.newer.len()) as u64)?;
    append_entries(&mut out, parts.entries)?;
    append_entries(&mut out, parts.newer)?;
    Ok(out)
}

// All but the digest of a journal: its front, which `begin` wrote, and its halfway part. `Continues`: this holds for
// each journal that the front begins.
#[tactic(auto, unfolding(par2_spec::specs::Journals::journal_bytes, crate::specs::Journals::front_bytes))]
fn body(mut front: Vec<u8>, halfway: Option<&HalfwayPartView<'_>>) -> Result<Vec<u8>>
    ensures { IfOk result (λ body. Continues front.items (part_from halfway.entry) body.items) }
{
    // A full vector isn't doubled for one byte and the digest.
    front.reserve_exact(17)?;
    append_halfway(&mut front, halfway)?;
    Ok(front)
}

// The last step of a journal: appends `digest`, which the caller computed as the MD5 of all bytes before it.
fn append_digest(out: &mut Vec<u8>, digest: [u8; 16]) -> Result<()>
    requires { digest ≡ md5 out.old.items }
    ensures { OnOk result (out.new.items ≡ out.old.items ++ md5 out.old.items) }
{
    out.reserve_exact(16)?;
    out.extend_from_slice(&digest)
}

/// The bytes of the settled journal with these parts, its digest included. Err if memory runs out.
pub fn encode(alloc: Global, parts: &JournalView<'_>) -> Result<Vec<u8>>
    ensures { IfOk result (λ bytes. Spells bytes.items (journal_from parts.now)) }
{
    let mut bytes = body(begin(alloc, parts)?, None)?;
    let digest = Md5::digest(&bytes);
    append_digest(&mut bytes, digest)?;
    Ok(bytes)
}

/// The bytes of the two journals of a command.
#[derive(Drop)]
pub struct JournalBytes {
    /// While it is halfway.
    pub halfway: Vec<u8>,
    /// Afterwards.
    pub after: Vec<u8>,
}

/// Both journals of a command: the halfway one that `front` begins, and the one afterwards with the parts `after`.
/// Their digests are computed side by side.
pub fn finish_both(
    alloc: Global,
    front: Vec<u8>,
    halfway: &HalfwayPartView<'_>,
    after: &JournalView<'_>,
) -> Result<JournalBytes>
    ensures halfway { IfOk result
        (λ both. Finishes front.items (part_from (Some halfway.entry)) both.halfway.items) }
    ensures after { IfOk result (λ both. Spells both.after.items (journal_from after.now)) }
{
    let mut halfway = body(front, Some(halfway))?;
    let mut after = body(begin(alloc, after)?, None)?;
    let digests = buffer_digests(alloc, &[halfway.as_slice(), after.as_slice()])?;
    append_digest(&mut halfway, digests[0])?;
    append_digest(&mut after, digests[1])?;
    Ok(JournalBytes { halfway, after })
}
