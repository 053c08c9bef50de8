//! Calls of `par2_recovery` and `par2_solve` that test their conditions first, for tests and benchmarks. They return
//! None if a condition doesn't hold. No product crate uses them.
#![tactic(auto)]

ghost use Rattle.std.specs.Prelude.{◌≡◌, ◌<◌, ◌≤◌, ◌%◌, ℕ, length, slice_index, All, IsTrue, IfSome};
ghost use Rattle.std.specs.List.{AllAdjacentBelow};
ghost use Rattle.std.specs.List.Sorted.{IsStrictlyIncreasing};
ghost use Rattle.par2_solve.specs.Rebuilding.{CanRebuild};

mod outputs;

pub use outputs::{slices_added, slices_written};
use par2_folder::{Bytes, Change, Folder, Name};
use par2_gf16::Gf;
use par2_inputs::input_slices;
use par2_recovery::{
    RebuildFault, RecordFault, SetRecord, Survivors, rank, rebuild, recovery_slice,
    recovery_slices_over,
};
use par2_solve::rebuild_lost;
use std::alloc::{AllocError, Global};

// The most slices of a set (PAR2 2.0).
pub(crate) const MOST_SLICES: usize = 32768;

/// A folder of these files, without those whose name is invalid.
pub fn folder_of(alloc: Global, files: &[(&str, &[u8])]) -> Result<Folder, AllocError> {
    let mut folder = Folder::new(alloc);
    folder.reserve(files.len())?;
    for (string, bytes) in files {
        if let Ok(name) = Name::new(string) {
            let _ = folder.apply(&mut Change::Write(name, Bytes::copy_of(alloc, bytes)?));
        }
    }
    Ok(folder)
}

/// The record of a set of these files with slices of `s` bytes.
pub fn set_of(
    alloc: Global,
    folder: &Folder,
    strings: &[&str],
    s: u64,
) -> Result<Option<Result<SetRecord, RecordFault>>, AllocError> {
    let mut names = Vec::new(alloc);
    for string in strings {
        let Ok(name) = Name::new(string) else {
            return Ok(None);
        };
        names.push(name)?;
    }
    if s == 0 {
        return Ok(None);
    }
    Ok(Some(SetRecord::of_files(alloc, folder, &names, s)))
}

// Whether recovery slices may be computed over this many slices of this size.
fn can_combine(count: usize, size: u64) -> bool
    ensures slices { IsTrue result → count ≤ 32768 }
    ensures even { IsTrue result → size % 2 ≡ 0 }
{
    count <= MOST_SLICES && size % 2 == 0
}

/// The slices of the set's files.
pub fn input_slices_of<'a>(
    alloc: Global,
    set: &SetRecord,
    folder: &'a Folder,
) -> Result<Option<Vec<&'a [u8]>>, AllocError> {
    if set.slice == 0 {
        return Ok(None);
    }
    Ok(Some(input_slices(alloc, &set.files, set.slice, folder)?))
}

/// The recovery slices of these exponents.
pub fn recovery_slices_of(
    alloc: Global,
    gf: &Gf,
    set: &SetRecord,
    folder: &Folder,
    first: u32,
    count: u32,
) -> Result<Option<Vec<Vec<u8>>>, AllocError> {
    let Some(slices) = input_slices_of(alloc, set, folder)? else {
        return Ok(None);
    };
    if !can_combine(slices.len(), set.slice) || first.checked_add(count).is_none() {
        return Ok(None);
    }
    let size = set.slice as usize;
    Ok(Some(recovery_slices_over(alloc, gf, &slices, size, first, count)?))
}

/// The recovery slice of this exponent.
pub fn recovery_slice_of(
    alloc: Global,
    gf: &Gf,
    set: &SetRecord,
    folder: &Folder,
    e: u32,
) -> Result<Option<Vec<u8>>, AllocError> {
    if set.slice == 0 {
        return Ok(None);
    }
    let slices = input_slices(alloc, &set.files, set.slice, folder)?;
    if !can_combine(slices.len(), set.slice) {
        return Ok(None);
    }
    Ok(Some(recovery_slice(alloc, gf, set, folder, e)?))
}

fn known_fits(known: &[Option<&[u8]>], size: usize) -> bool
    ensures { IsTrue result
        → All (λ slice. IfSome slice (λ bytes. length bytes.now ≤ size)) known.now }
{
    known
        .iter()
        .all(|slice| slice.is_none_or(|bytes| bytes.len() <= size))
}

fn recovery_fits(recovery: &[(u32, &[u8])], size: usize) -> bool
    ensures { IsTrue result → All (λ r. length r.1.now ≡ size) recovery.now }
{
    recovery.iter().all(|r| r.1.len() == size)
}

fn exponents_rise(recovery: &[(u32, &[u8])]) -> bool
    ensures { IsTrue result
        → AllAdjacentBelow (λ a b. a.0 < b.0) recovery.now (length recovery.now) }
{
    for i in 1..recovery.len() {
        if recovery[i - 1].0 >= recovery[i].0 {
            return false;
        }
    }
    true
}

// Whether slices may be rebuilt from these.
fn can_rebuild(survivors: &Survivors) -> bool
    ensures { IsTrue result → CanRebuild survivors.now }
{
    let size = survivors.slice;
    if size % 2 != 0 || survivors.known.len() > 32768 {
        return false;
    }
    if !known_fits(&survivors.known, size) || !recovery_fits(&survivors.recovery, size) {
        return false;
    }
    exponents_rise(&survivors.recovery)
}

/// The result of `rebuild`.
pub fn rebuilt(
    alloc: Global,
    gf: &Gf,
    survivors: &Survivors,
) -> Option<Result<Vec<Vec<u8>>, RebuildFault>> {
    if !can_rebuild(survivors) {
        return None;
    }
    Some(rebuild(alloc, gf, survivors))
}

/// The result of `rebuild_lost`.
pub fn lost_rebuilt(
    alloc: Global,
    survivors: &Survivors,
) -> Option<Result<Vec<Vec<u8>>, RebuildFault>> {
    if !can_rebuild(survivors) {
        return None;
    }
    Some(rebuild_lost(alloc, survivors))
}

fn are_slices(numbers: &[u32]) -> bool
    ensures { IsTrue result → (i : ℕ) → slice_index numbers.now i < 32768 }
{
    for i in 0..numbers.len() {
        if numbers[i] >= 32768 {
            return false;
        }
    }
    true
}

fn rise(exponents: &[u32]) -> bool
    ensures { IsTrue result → IsStrictlyIncreasing exponents.now }
{
    for i in 1..exponents.len() {
        if exponents[i - 1] >= exponents[i] {
            return false;
        }
    }
    true
}

/// The result of `rank`.
pub fn rank_of(
    alloc: Global,
    gf: &Gf,
    lost: &[u32],
    exponents: &[u32],
) -> Option<Result<usize, AllocError>> {
    if !are_slices(lost) || !rise(exponents) {
        return None;
    }
    Some(rank(alloc, gf, lost, exponents))
}
