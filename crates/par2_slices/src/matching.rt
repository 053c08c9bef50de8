//! Whether files are intact, by their lengths and the checksums of their slices, and which of the candidates is a target's match.

ghost use Rattle.std.specs.Prelude.{◌≡◌, ◌↔◌, ◌≤◌, ◌<◌, ◌+◌, ℕ, List, All, IfOk, IsTrue, length};
ghost use Rattle.std.specs.Option.{ForSome};
ghost use Rattle.par2_spec.specs.Prelude.{Folder};
ghost use Rattle.par2_spec.specs.Search as search;
ghost use Rattle.par2_spec.specs.Sets as sets;
ghost use Rattle.par2_spec.specs.Slices as slices;
ghost use Rattle.par2_slices.specs.Matching.{HaveCrc32s, HaveMd5s, AreFirst, Describe, Describes, IsFirst, NumbersAreNames, first_intact, matched_numbers, without_number, buffers_of};

use crate::checksum::{Pair, SliceGroup, slice_count, slice_crc32, slice_md5s};
use par2_md5_lanes::LANES;
use par2_spec::Result;
use std::alloc::Global;

// A file, and the pairs that its first slices of `s` bytes are to have.
#[derive(Clone, Copy)]
struct Comparison<'a> {
    bytes: &'a [u8],
    s: u64,
    pairs: &'a [Pair],
    ghost some: { 1 ≤ s },
    ghost count: { length pairs.now ≤ slices.slice_count s (length bytes.now) },
}

// Whether each pair j has the CRC-32 of slice j of the file. `is_intact` asks this first.
fn have_crc32s(compared: Comparison) -> bool
    ensures { let its = compared.entry in IsTrue result ↔ HaveCrc32s its.s its.bytes.now its.pairs.now }
{
    for (j, pair) in compared.pairs.iter().enumerate() {
        if slice_crc32(compared.bytes, compared.s, j as u64) != pair.1 {
            return false;
        }
    }
    true
}

// Whether the pairs with the numbers of these slices have their MD5s.
fn group_has_md5s(group: SliceGroup, pairs: &[Pair]) -> bool
    requires { group.first + group.count ≤ length pairs.now }
    ensures { let its = group.entry in
        IsTrue result ↔ HaveMd5s its.s its.bytes.now pairs.now its.first (its.first + its.count) }
{
    let md5s = slice_md5s(group);
    for lane in 0..group.count {
        if md5s[lane] != pairs[group.first + lane].0 {
            return false;
        }
    }
    true
}

// Whether each pair j has the MD5 of slice j of the file, sixteen side by side.
fn have_md5s(compared: Comparison) -> bool
    ensures { let its = compared.entry in
        IsTrue result ↔ HaveMd5s its.s its.bytes.now its.pairs.now 0 (length its.pairs.now) }
{
    for group in 0..compared.pairs.len().div_ceil(LANES) {
        let first = group * LANES;
        let count = LANES.min(compared.pairs.len() - first);
        let group = SliceGroup {
            bytes: compared.bytes,
            s: compared.s,
            first,
            count,
        };
        if !group_has_md5s(group, compared.pairs) {
            return false;
        }
    }
    true
}

/// Whether these are the bytes of a target of this size and these pairs, by their length and the checksums of their
/// slices of `s` bytes.
pub fn is_intact(bytes: &[u8], s: u64, size: u64, pairs: &[Pair]) -> bool
    requires { 1 ≤ s }
    ensures { (t : sets.Target) → t.length ≡ size → t.pairs ≡ pairs.now
        → result ≡ search.is_intact s t bytes.now }
{
    if bytes.len() as u64 != size {
        return false;
    }
    let count = pairs.len().min(slice_count(size, s) as usize);
    let pairs = &pairs[..count];
    let compared = Comparison { bytes, s, pairs };
    // All CRC-32s are compared first, because one of them reveals damage before any MD5 is computed.
    have_crc32s(compared) && have_md5s(compared)
}

/// A target: the length of its file and the checksums of its slices.
#[derive(Clone, Copy, Drop)]
pub struct Target<'a> {
    pub length: u64,
    pub pairs: &'a [Pair],
}

// The CRC-32 of the file's first slice, if some target has the length of the file; otherwise no target needs it.
fn first_crc32(bytes: &[u8], s: u64, targets: &[Target]) -> Option<u32>
    requires { 1 ≤ s }
    ensures { ForSome result (IsFirst s bytes.now) }
{
    let len = bytes.len() as u64;
    let is_needed = targets.iter().any(|target| target.length == len);
    if is_needed && !bytes.is_empty() {
        Some(slice_crc32(bytes, s, 0))
    } else {
        None
    }
}

// The CRC-32s of the files' first slices. A file that has the length of many targets is compared with each of them,
// and the first slice mostly shows that they differ.
fn first_crc32s(
    alloc: Global,
    buffers: &[&[u8]],
    s: u64,
    targets: &[Target],
) -> Result<Vec<Option<u32>>>
    requires { 1 ≤ s }
    ensures { IfOk result (λ firsts. AreFirst s (buffers_of buffers.now) firsts.items) }
{
    let firsts = buffers.iter().map(|bytes| first_crc32(bytes, s, targets));
    firsts.collect(alloc)
}

// Whether the file is intact for the target. If the CRC-32 of its first slice is known and differs, no other slice is
// read.
fn is_intact_by(bytes: &[u8], first: Option<u32>, s: u64, target: &Target) -> bool
    requires size { 1 ≤ s }
    requires first { ForSome first (IsFirst s bytes.now) }
    ensures { (t : sets.Target) → Describes target.now t → result ≡ search.is_intact s t bytes.now }
{
    if let Some(crc) = first {
        if !target.pairs.is_empty() && target.pairs[0].1 != crc {
            return false;
        }
    }
    is_intact(bytes, s, target.length, target.pairs)
}

// The files that are compared with targets, with the CRC-32s of their first slices.
#[derive(Clone, Copy)]
struct Candidates<'a> {
    buffers: &'a [&'a [u8]],
    firsts: &'a [Option<u32>],
    s: u64,
    ghost some: { 1 ≤ s },
    ghost crcs: { AreFirst s (buffers_of buffers.now) firsts.now },
}

// The number of the first of the free files that is intact for the target. `Describes`: a target has this length
// and these pairs.
fn first_intact(files: Candidates, target: &Target, free: &[usize]) -> Option<usize>
    requires { All (λ i. i < length files.buffers.now) free.now }
    ensures { (t : sets.Target) → Describes target.now t
        → result ≡ first_intact files.entry.s (buffers_of files.entry.buffers.now) t free.now }
{
    for &i in free {
        if is_intact_by(files.buffers[i], files.firsts[i], files.s, target) {
            return Some(i);
        }
    }
    None
}

// Takes the number of the first of the free files that is intact for the target, so that no other target gets it.
fn take_first(files: Candidates, target: &Target, free: &mut Vec<usize>) -> Option<usize>
    requires { All (λ i. i < length files.buffers.now) free.old.items }
    ensures first { (t : sets.Target) → Describes target.now t
        → let bytes = buffers_of files.entry.buffers.now in
        result ≡ first_intact files.entry.s bytes t free.old.items }
    ensures left { free.new.items ≡ without_number result free.old.items }
{
    let first = first_intact(files, target, free)?;
    free.retain(move |&i| i != first);
    Some(first)
}

// The numbers of the targets' matches, in order: `matched`, once the CRC-32s of the first slices are known.
fn matched_in(alloc: Global, files: Candidates, targets: &[Target]) -> Result<Vec<Option<usize>>>
    ensures { let its = files.entry in
        IfOk result (λ numbers. (ts : List sets.Target) → Describe targets.now ts
        → numbers.items ≡ matched_numbers its.s (buffers_of its.buffers.now) ts) }
{
    let mut free: Vec<usize> = (0..files.buffers.len()).collect(alloc)?;
    let mut numbers = Vec::with_capacity(alloc, targets.len())?;
    for target in targets {
        numbers.push(take_first(files, target, &mut free))?;
    }
    Ok(numbers)
}

/// For each target, in order, the number of the first buffer that is intact for it. Each buffer is used once.
pub fn matched(
    alloc: Global,
    buffers: &[&[u8]],
    s: u64,
    targets: &[Target],
) -> Result<Vec<Option<usize>>>
    requires { 1 ≤ s }
    ensures { IfOk result (λ numbers. (ts : List sets.Target) → Describe targets.now ts
        → numbers.items ≡ matched_numbers s (buffers_of buffers.now) ts) }
{
    let firsts = first_crc32s(alloc, buffers, s, targets)?;
    let firsts = firsts.as_slice();
    matched_in(alloc, Candidates { buffers, firsts, s }, targets)
}

/// For the prover: if names are distinct, the matches by the numbers of their files are those by their names.
pub fn matches_by_number_are_by_name()
    ensures { (folder : Folder) (s : ℕ) (names : List (List ℕ)) (ts : List sets.Target)
        → NumbersAreNames folder s names ts }
{}
