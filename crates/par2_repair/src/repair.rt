//! The changes of a repair and of a purge, or why they are refused. `draft_repair` reads the set, finds the matches,
//! rebuilds the targets without one, and lists the changes. The written files of a draft aren't checked yet: the caller
//! digests `Draft::buffers`, and `Draft::tested` compares the MD5s and returns the changes.

ghost use Rattle.std.specs.Prelude.{◌≡◌, ◌++◌, ℕ, List, IsTrue, IfErr, IfOk, OnOk, None, Ok, map, filter_map};
ghost use Rattle.std.specs.Option.{option_copied};
ghost use Rattle.par2_spec.specs.Prelude.{are_applicable, AreFew, purge_changes, purge_refusal, matches, rebuilt_targets, FailsFor, Lists, FailsAs, GivesChanges, LeadsAs, RefusesEarly, SucceedsAs, repair_of, set_in, Purge, Repair};
ghost use Rattle.par2_repair.specs.Repairing.{HasAsides, IsDraft, bytes_written, matches_taken, names_there, place_in, removed, renamed, repair_by, writes};
ghost use Rattle.par2_sets.specs.SetReading.{HoldsOwned, long_aside, own_files};
ghost use Rattle.par2_verify.specs.Findings.{words};
ghost use Rattle.par2_files.specs.Folders.{change_of};

use crate::restored::{Restored, restored_files};
use par2_files::{Change, Changes, Folder, Name};
use par2_sets::{ParSet, asides, par_files};
use par2_spec::{Fault, Result};
use par2_verify::{Incomplete, Reading, candidates, is_incomplete, matches, read};
use std::alloc::Global;
use std::collections::{BTreeMap, BTreeSet};

// The aside of each file that is put aside, by the file's name.
type Asides = BTreeMap<Name, Name>;

// The names of the incomplete targets that are in the folder: their files are put aside.
fn present(alloc: Global, folder: &Folder, targets: &[Incomplete]) -> Result<Vec<Name>>
    ensures { Lists (names_there folder.now.files targets.now) result }
{
    let there = targets.iter().filter(|incomplete| folder.get(incomplete.target.name()).is_some());
    let names = there.map(|incomplete| incomplete.target.name().copied());
    names.collect(alloc)
}

// A map of the asides by the names of the files that are put aside. `asides[k]` is that of `names[k]`.
fn asides_by_name(alloc: Global, names: &[Name], asides: &[Name]) -> Result<Asides>
    ensures { IfOk result (HasAsides names.now asides.now) }
{
    let names = names.iter().zip(asides);
    let pairs = names.map(|(name, aside)| (name.copied(), aside.copied()));
    pairs.collect(alloc)
}

// The names of the matches. A repair that purges doesn't remove these files, because they become targets.
fn matching(alloc: Global, targets: &[Incomplete]) -> Result<BTreeSet<Name>>
    ensures { IfOk result (λ names. HoldsOwned names (filter_map (λ m. m.1) targets.now)) }
{
    let names = targets
        .iter()
        .filter_map(|incomplete| Some(incomplete.found.as_ref()?.copied()));
    names.collect(alloc)
}

// The name of a file once files are put aside: its aside, if it is one of them, and otherwise its own name.
fn now_at(asides: &Asides, name: &Name) -> Name
    ensures { result ≡ place_in asides.now name.now }
{
    match asides.get(name) {
        Some(aside) => aside.copied(),
        None => name.copied(),
    }
}

// Adds the changes that put these files aside, each by a rename.
fn push_asides(changes: &mut Changes, names: &[Name], asides: &Asides) -> Result<()>
    ensures { OnOk result (changes.new ≡ changes.old ++ renamed asides.now names.now) }
{
    for name in names {
        changes.push(Change::Rename(name.copied(), now_at(asides, name)))?;
    }
    Ok(())
}

// Adds the changes that rename each match to its target's name, from its aside if it was put aside.
fn push_matches(changes: &mut Changes, targets: &[Incomplete], asides: &Asides) -> Result<()>
    ensures { OnOk result (changes.new ≡ changes.old ++ matches_taken asides.now targets.now) }
{
    for incomplete in targets {
        if let Some(found) = &incomplete.found {
            let from = now_at(asides, found);
            changes.push(Change::Rename(from, incomplete.target.name().copied()))?;
        }
    }
    Ok(())
}

// Adds the changes that write these targets, in order.
fn push_writes(changes: &mut Changes, restored: Vec<Restored>) -> Result<()>
    ensures { OnOk result (changes.new ≡ changes.old ++ writes restored.entry.items) }
{
    for file in restored {
        changes.push(Change::Write(file.target.name().copied(), file.bytes))?;
    }
    Ok(())
}

// Adds the changes that remove the files of these names under the names that they have by then, except matches.
fn push_removed(
    changes: &mut Changes,
    names: &[Name],
    asides: &Asides,
    matching: &BTreeSet<Name>,
) -> Result<()>
    ensures { OnOk result (changes.new ≡ changes.old ++ removed asides.now matching.now names.now) }
{
    for name in names {
        if !matching.contains(name) {
            changes.push(Change::Remove(now_at(asides, name)))?;
        }
    }
    Ok(())
}

// The changes of a repair: files of incomplete targets are put aside, targets take their matches, and the targets without
// a match, `restored`, are written. A repair that purges then removes the asides that are left and the set's PAR2 files,
// but no match, because it is a target by then. It returns `NameTooLong` if an aside would have more than 255 bytes.
fn repair_changes(
    alloc: Global,
    folder: &Folder,
    reading: &Reading,
    incomplete: &[Incomplete],
    restored: Vec<Restored>,
    purge: bool,
) -> Result<Changes, Fault>
    ensures refused { let names = names_there folder.now.files incomplete.now in
        FailsFor (long_aside folder.now.files reading.now.set names) result }
    ensures short { let names = names_there folder.now.files incomplete.now in
        OnOk result (long_aside folder.now.files reading.now.set names ≡ None) }
    ensures few { OnOk result (AreFew folder.now.files reading.now.set) }
    ensures changes { let set = reading.now.set in (searched : List (List ℕ))
        → reading.now.own_files.items ≡ own_files folder.now.files set.id
        → incomplete.now ≡ matches folder.now.files set searched
        → restored.entry.items ≡ rebuilt_targets folder.now.files set searched
        → IfOk result (λ changes. changes ≡ repair_by purge folder.now.files set searched) }
{
    let put_aside = present(alloc, folder, incomplete)?;
    let others = asides(alloc, folder, &reading.set, &put_aside)?;
    let asides = asides_by_name(alloc, &put_aside, &others)?;
    let mut changes = Changes::new(alloc);
    push_asides(&mut changes, &put_aside, &asides)?;
    push_matches(&mut changes, incomplete, &asides)?;
    push_writes(&mut changes, restored)?;
    if !purge {
        return Ok(changes);
    }
    let matching = matching(alloc, incomplete)?;
    push_removed(&mut changes, &put_aside, &asides, &matching)?;
    let files = par_files(alloc, &reading.set, &reading.own_files)?;
    push_removed(&mut changes, &files, &asides, &matching)?;
    Ok(changes)
}

// The MD5s that the set describes for these targets, in order, with which `Draft::tested` compares.
fn md5s_of(alloc: Global, restored: &[Restored]) -> Result<Vec<[u8; 16]>>
    ensures { Lists (map (λ c. c.0.md5) restored.now) result }
{
    restored.iter().map(Restored::md5).collect(alloc)
}

// The draft of a repair of the set that was read. If it is that of a base, it is refused as the repair of the base is.
fn draft_of(alloc: Global, folder: &Folder, reading: &Reading, purge: bool) -> Result<Draft, Fault>
    ensures refused { (base : List ℕ) → let extras = reading.now.extras.items in
        set_in folder.now.files base extras ≡ Ok reading.now.set
        → FailsAs folder.now.files (Repair base extras purge) result }
    ensures draft { (base : List ℕ) → let extras = reading.now.extras.items in
        set_in folder.now.files base extras ≡ Ok reading.now.set
        → reading.now.own_files.items ≡ own_files folder.now.files reading.now.set.id
        → IfOk result (IsDraft folder.now.files base extras purge) }
{
    let set = &reading.set;
    let candidates = candidates(alloc, folder, set, &reading.extras)?;
    let incomplete = matches(alloc, folder, set, &candidates)?;
    let restored = restored_files(alloc, folder, set, &candidates, &incomplete)?;
    let md5s = md5s_of(alloc, &restored)?;
    let changes = repair_changes(alloc, folder, reading, &incomplete, restored, purge)?;
    Ok(Draft { changes, md5s })
}

/// The draft of a repair. Files of incomplete targets are put aside, targets with a match take it, and the others are
/// written from found or rebuilt slices. With `purge`, the asides that are left and the set's PAR2 files are then
/// removed. The MD5s of the written files are left to check, because `par2_journal` computes them beside fingerprints.
/// A wrong one is the last cause of a refusal. Memory is reported only if an allocation fails.
pub fn draft_repair(
    alloc: Global,
    folder: &Folder,
    base: &str,
    extras: &[String],
    purge: bool,
) -> Result<Draft, Fault>
    // It is refused as the definitions say, or memory ran out; early refusals need no memory.
    ensures refused { FailsAs folder.now.files (repair_of base.now extras.now purge) result }
    ensures early { RefusesEarly folder.now.files (repair_of base.now extras.now purge) result }
    ensures draft { IfOk result (IsDraft folder.now.files base.now (words extras.now) purge) }
{
    let reading = read(alloc, folder, base, extras)?;
    draft_of(alloc, folder, &reading, purge)
}

/// The changes of a repair before the MD5s of the files that it writes are checked, so that these can be computed side
/// by side with other digests.
#[derive(Drop)]
pub struct Draft {
    pub changes: Changes,
    /// The MD5s that the set describes for the written files, in order.
    pub md5s: Vec<[u8; 16]>,
}

// The bytes that a change writes, if it writes any.
fn bytes_of(change: &Change) -> Option<&[u8]>
    ensures { option_copied result ≡ bytes_written (change_of change.now) }
{
    match change {
        Change::Write(_, bytes) => Some(bytes.as_slice()),
        Change::Replace(_, bytes) => Some(bytes.as_slice()),
        Change::Rename(_, _) | Change::Remove(_) => None,
    }
}

impl Draft {
    ghost use Rattle.std.specs.Prelude.{◌≡◌, map, IfOk, IfErr, OnOk, OnErr};
    ghost use Rattle.md5.specs.Md5.{md5};
    ghost use Rattle.par2_md5_lanes.specs.Messages.{buffers_of};
    ghost use Rattle.par2_repair.specs.Repairing.{HasItsMd5s};
    ghost use Rattle.par2_repair.specs.Repairing.{buffers_written};

    /// The bytes of the files that the changes write, in order: the caller computes their MD5s for `tested`.
    pub fn buffers(&self, alloc: Global) -> Result<Vec<&[u8]>>
        ensures { IfOk result (λ all. buffers_of all.items ≡ buffers_written self.now.changes) }
    {
        let mut buffers = Vec::new(alloc);
        for change in self.changes.as_slice() {
            if let Some(bytes) = bytes_of(change) {
                buffers.push(bytes)?;
            }
        }
        Ok(buffers)
    }

    /// The changes, if the MD5s `found` of the written files are those that the set describes (`HasItsMd5s`). Otherwise
    /// it returns `RepairFailed`.
    #[tactic(auto, using(crate::proofs::Steps::tested))]
    pub fn tested(self, found: &[[u8; 16]]) -> Result<Changes, Fault>
        requires { found.now ≡ map md5 (buffers_written self.changes) }
        ensures changes { IfOk result (λ changes. changes ≡ self.changes) }
        ensures right { OnOk result (HasItsMd5s self) }
        ensures wrong { OnErr result (¬ (HasItsMd5s self)) }
        ensures refused { IfErr result (λ fault. fault ≡ Fault.RepairFailed) }
    {
        let Draft { changes, md5s } = self;
        if found == md5s.as_slice() {
            Ok(changes)
        } else {
            Err(Fault::RepairFailed)
        }
    }
}

// The changes of a purge of this set: a removal for each of its PAR2 files, which are `own` without targets. It returns
// `NotComplete` if a target is absent or not intact.
fn purge_of(alloc: Global, folder: &Folder, set: &ParSet, own: &[Name]) -> Result<Changes, Fault>
    requires { own.now ≡ own_files folder.now.files set.now.id }
    ensures refused { FailsFor (purge_refusal folder.now.files set.now) result }
    ensures accepted { OnOk result (purge_refusal folder.now.files set.now ≡ None) }
    ensures changes { IfOk result (λ changes. changes ≡ purge_changes folder.now.files set.now) }
{
    let mut targets = set.targets().iter();
    if targets.any(|target| is_incomplete(folder, set, target)) {
        return Err(Fault::NotComplete);
    }
    let files = par_files(alloc, set, own)?;
    let mut changes = Changes::new(alloc);
    for name in &files {
        changes.push(Change::Remove(name.copied()))?;
    }
    Ok(changes)
}

/// The changes of a purge, which removes the set's PAR2 files if all targets are complete, and is refused otherwise.
/// Memory is reported only if an allocation fails.
pub fn plan_purge(alloc: Global, folder: &Folder, base: &str) -> Result<Changes, Fault>
    // It is refused as the definitions say, or memory ran out; early refusals need no memory.
    ensures refused { FailsAs folder.now.files (Purge base.now) result }
    ensures accepted { SucceedsAs folder.now.files (Purge base.now) result }
    ensures early { RefusesEarly folder.now.files (Purge base.now) result }
    // The changes are those of the definitions. They apply in order and lead to their folder.
    ensures changes { GivesChanges folder.now.files (Purge base.now) result }
    ensures applies { IfOk result (λ changes. IsTrue (are_applicable folder.now.files changes)) }
    ensures leads { LeadsAs folder.now.files (Purge base.now) result }
{
    let reading = read(alloc, folder, base, &[])?;
    purge_of(alloc, folder, &reading.set, &reading.own_files)
}
