//! The targets without a match, which a repair writes: `restored_files` searches for all slices of a set, lets
//! `par2_solve` rebuild the lost ones, merges both, and cuts the files out of them.

ghost use Rattle.std.specs.Prelude.{◌≡◌, ◌⊎◌, ◌++◌, ◌∷◌, ◌≤◌, ℕ, List, Option, None, [], length, map, take, filter, option_map, IfOk, OnOk};
ghost use Rattle.std.specs.BTreeSet.{contains};
ghost use Rattle.std.specs.Cmp.Lexicographic.{slice_cmp};
ghost use Rattle.std.specs.List.{AllByRecursion, concat};
ghost use Rattle.std.specs.Ordering.{nat_cmp};
ghost use Rattle.std.specs.Slice.Iter.{iter_rest};
ghost use Rattle.par2_spec.specs.Prelude.{FailsFor, Lists, lists_of, all_pairs, files_of_slices, matches, names_without_match, padded, rebuilt_targets};
ghost use Rattle.par2_slices.specs.Matching.{buffers_of};
ghost use Rattle.par2_solve.specs.Rebuilding.{CanRebuild, with_lost_slices};
ghost use Rattle.par2_repair.specs.Repairing.{AreSurvivorsOf, undetermined_fault};

use par2_files::{Bytes, Folder, Name};
use par2_sets::{ParSet, Target};
use par2_slices::found_windows;
use par2_solve::{RebuildFault, Survivors, rebuild_lost};
use par2_spec::rank_laws::{rebuilt_slices_agree, tests_say_the_words};
use par2_spec::repair_laws::written_files_have_their_length;
use par2_spec::{Fault, Result};
use par2_verify::{Incomplete, all_pairs, unmatched};
use std::alloc::Global;
use std::collections::BTreeSet;
use std::marker::Model;
use std::slice::Iter;

/// A target, with the bytes that are cut out of slices for it. They needn't have its MD5.
#[derive(Drop)]
pub struct Restored<'s> {
    pub target: &'s Target,
    pub bytes: Bytes,
}

impl<'s> Model for Restored<'s> {
    ghost use Rattle.std.specs.Prelude.{List, ℕ};
    ghost use Rattle.par2_spec.specs.Sets.{Target as Described};

    ghost Value = { Described × List ℕ };

    ghost view = { λ r. (r.target.now, r.bytes) };
}

impl<'s> Restored<'s> {
    ghost use Rattle.std.specs.Prelude.{◌≡◌};

    /// The MD5 that the set describes for the target.
    pub fn md5(&self) -> [u8; 16]
        ensures { result ≡ self.now.0.md5 }
    {
        self.target.md5()
    }
}

// Appends a slice of `s` bytes with its padding to the first bytes of a file, up to `size`, the file's length in bytes.
#[tactic(auto, using(crate::proofs::Restoring::where_ok, crate::proofs::Restoring::one_more_slice))]
fn push_slice(file: &mut Vec<u8>, slice: &[u8], s: usize, size: usize) -> Result<()>
    requires { length file.old.items ≤ size }
    ensures { OnOk result (file.new.items ≡ take size (file.old.items ++ padded s slice.now)) }
{
    let room = size - file.len();
    file.extend_from_slice(&slice[..room.min(slice.len())])?;
    let room = size - file.len();
    let zeros = s.saturating_sub(slice.len());
    file.resize(file.len() + room.min(zeros), 0)
}

// The first `size` bytes of these slices, joined with their padding: the file of this length that has these slices.
fn joined(alloc: Global, slices: &[&[u8]], slice_size: usize, size: usize) -> Result<Vec<u8>>
    ensures { Lists (take size (concat (map (padded slice_size) (buffers_of slices.now)))) result }
{
    let mut file = Vec::with_capacity(alloc, size)?;
    for slice in slices {
        push_slice(&mut file, slice, slice_size, size)?;
    }
    Ok(file)
}

// The survivors of a set: the slices that are found in the candidates, and its recovery slices. `CanRebuild`: they have
// the sizes and numbers that `rebuild_lost` requires.
fn survivors_of<'a>(
    alloc: Global,
    folder: &'a Folder,
    set: &ParSet<'a>,
    candidates: &[Name],
) -> Result<Survivors<'a>>
    ensures fit { IfOk result CanRebuild }
    ensures are { IfOk result (AreSurvivorsOf folder.now.files set.now candidates.now) }
{
    let slice_size = set.slice_size();
    let buffers = folder.bytes_of_each(candidates)?;
    let pairs = all_pairs(alloc, set)?;
    Ok(Survivors {
        slice: slice_size as usize,
        known: found_windows(alloc, &buffers, slice_size, &pairs)?,
        recovery: Vec::from_slice(alloc, set.recovery())?,
    })
}

// The slice of a window: the found one, or else the next rebuilt one. It is empty if none is left.
fn slice_at<'a>(window: Option<&'a [u8]>, rebuilt: &mut Iter<'a, Vec<u8>>) -> &'a [u8]
    ensures { (windows : List (Option (List ℕ))) →
        let left = with_lost_slices windows (lists_of (iter_rest rebuilt.new)) in
        let all = option_map (λ bytes. bytes.now) window.entry ∷ windows in
        result.now ∷ left ≡ with_lost_slices all (lists_of (iter_rest rebuilt.old)) }
{
    match window {
        Some(bytes) => bytes,
        None => rebuilt.next().map(Vec::as_slice).unwrap_or(&[]),
    }
}

// The found slices, and between them the rebuilt ones: the k-th rebuilt slice takes the place of the k-th `None`.
fn merged<'a>(
    alloc: Global,
    windows: &[Option<&'a [u8]>],
    rebuilt: &'a [Vec<u8>],
) -> Result<Vec<&'a [u8]>>
    ensures { let found = map (option_map (λ bytes. bytes.now)) windows.now in
        let all = with_lost_slices found (lists_of rebuilt.now) in
        IfOk result (λ slices. buffers_of slices.items ≡ all) }
{
    let mut slices = Vec::with_capacity(alloc, windows.len())?;
    let mut left = rebuilt.iter();
    for window in windows {
        slices.push(slice_at(*window, &mut left))?;
    }
    Ok(slices)
}

// The targets whose names are in `among`, in the order of the set, cut out of all its slices, which may lack padding.
fn cut_out<'s>(
    alloc: Global,
    set: &'s ParSet,
    slices: &[&[u8]],
    among: &BTreeSet<Name>,
) -> Result<Vec<Restored<'s>>>
    requires { length slices.now ≡ length (all_pairs set.now) }
    ensures { let all = map (padded set.now.slice_size) (buffers_of slices.now) in
        let files = files_of_slices set.now all in
        Lists (filter (λ c. contains (slice_cmp nat_cmp) among.now c.0.name) files) result }
{
    let mut restored = Vec::with_capacity(alloc, among.len())?;
    let mut first = 0;
    for target in set.targets() {
        let count = target.pairs().len();
        if among.contains(target.name()) {
            let own = &slices[first..first + count];
            let bytes = joined(
                alloc,
                own,
                set.slice_size() as usize,
                target.length() as usize,
            )?;
            let bytes = Bytes::from(bytes);
            restored.push(Restored { target, bytes })?;
        }
        first += count;
    }
    Ok(restored)
}

/// The incomplete targets without a match, in the order of the set, made from slices that are found in the candidates or
/// rebuilt. Their lengths are right, and their MD5s are left to check. If there are none, nothing is searched. It
/// returns `NotRepairable` if the lost slices aren't determined.
pub fn restored_files<'s>(
    alloc: Global,
    folder: &Folder,
    set: &'s ParSet,
    candidates: &[Name],
    incomplete: &[Incomplete],
) -> Result<Vec<Restored<'s>>, Fault>
    requires { incomplete.now ≡ matches folder.now.files set.now candidates.now }
    ensures refused { FailsFor (undetermined_fault folder.now.files set.now candidates.now) result }
    ensures targets { Lists (rebuilt_targets folder.now.files set.now candidates.now) result }
    ensures lengths { IfOk result (λ it. AllByRecursion (λ c. length c.1 ≡ c.0.length) it.items) }
    ensures determined { OnOk result ((names_without_match incomplete.now ≡ [])
        ⊎ (undetermined_fault folder.now.files set.now candidates.now ≡ None)) }
{
    let unmatched = unmatched(alloc, incomplete)?;
    if unmatched.is_empty() {
        return Ok(Vec::new(alloc));
    }
    // For the prover: the rebuilt slices are the only list that agrees, and files that are cut so have their length.
    rebuilt_slices_agree();
    tests_say_the_words();
    written_files_have_their_length();
    let survivors = survivors_of(alloc, folder, set, candidates)?;
    let rebuilt = match rebuild_lost(alloc, &survivors) {
        Ok(rebuilt) => rebuilt,
        Err(RebuildFault::Memory) => return Err(Fault::Memory),
        Err(RebuildFault::NotRepairable { missing, rank }) => {
            return Err(Fault::NotRepairable { missing, rank });
        }
    };
    let slices = merged(alloc, &survivors.known, &rebuilt)?;
    Ok(cut_out(alloc, set, &slices, &unmatched)?)
}
