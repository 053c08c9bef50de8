//! The report of a verify, and its verdict. `check` reads the set. `report_of` searches for its files and slices,
//! reports each target, numbers the lost slices, and computes the rank of the surviving recovery slices in them. Only the
//! slices of incomplete targets without a match are searched for.

ghost use Rattle.std.specs.Prelude.{◌≡◌, ℕ, List, IfOk, Ok, ◌≤◌, ◌<◌, length, map, filter, not, is_none};
ghost use Rattle.std.specs.BTreeMap.{get};
ghost use Rattle.std.specs.BTreeSet.{contains};
ghost use Rattle.std.specs.Cmp.Lexicographic.{slice_cmp};
ghost use Rattle.std.specs.List.{list_all, list_any};
ghost use Rattle.std.specs.Option.{option_map_or};
ghost use Rattle.std.specs.Ordering.{eq_by_cmp, nat_cmp};
ghost use Rattle.par2_spec.specs.Prelude.{Pair, report_in, verdict_of, IsVerdictIn, RefusedAsReported, Complete, is_complete, incomplete_state, FailsIn, RefusesEarly, verify_of, set_in, Lists, has, bytes_of, survivors, found, all_pairs};
ghost use Rattle.par2_sets.specs.SetReading.{count_cmp};
ghost use Rattle.par2_verify.specs.ReportViews.{report_view, state_view, target_report_of};
ghost use Rattle.par2_verify.specs.Findings.{words, numbers_of_lost, said_of, pairs_sought};
ghost use Rattle.par2_spec.specs.Folders as folders;
ghost use Rattle.par2_spec.specs.Rank as ranks;

use crate::matching::{Matches, candidates, matches, matches_by_name, unmatched};
use crate::reading::read;
use par2_files::{Folder, Name};
use par2_gf16::Gf;
use par2_matrix::{rank_by_equations, rank_by_runs};
use par2_sets::{ParSet, Target};
use par2_slices::{Pair, found_windows};
use par2_spec::{Fault, Result, Verdict};
use std::alloc::Global;
use std::collections::BTreeSet;

// The report on this set, whose files and slices are searched for in the files of its targets and in the extras. If it
// is the set of a base, this is the report of that base.
fn report_of(alloc: Global, folder: &Folder, set: &ParSet, extras: &[Name]) -> Result<Report>
    ensures { (base : List ℕ) → set_in folder.now.files base extras.now ≡ Ok set.now →
        let answer = report_in folder.now.files base extras.now in
        IfOk result (λ report. answer ≡ Ok (report_view report)) }
{
    let candidates = candidates(alloc, folder, set, extras)?;
    let incomplete = matches(alloc, folder, set, &candidates)?;
    let unmatched = unmatched(alloc, &incomplete)?;
    let lost = lost_pairs(alloc, folder, set, &unmatched, &candidates)?;
    let matches = matches_by_name(alloc, &incomplete)?;
    let report = |target: &Target| target_report(folder, target, &matches, &lost);
    let targets = set.targets().iter().map(report).collect(alloc)?;
    let (count, rank) = count_and_rank(alloc, set, &lost)?;
    Ok(Report {
        set_id: set.id(),
        targets,
        lost: count,
        rank,
    })
}

/// The report of a verify on the set of a base, whose slices are searched for in the files of its targets and in the
/// extras. Its verdict is complete if and only if no target is incomplete; else repairable if and only if the surviving
/// recovery slices determine the lost slices. A repair is refused as not repairable if and only if the verdict is that.
/// Memory is reported only if an allocation fails.
pub fn check(alloc: Global, folder: &Folder, base: &str, extras: &[String]) -> Result<Report, Fault>
    ensures refused { FailsIn (report_in folder.now.files base.now (words extras.now)) result }
    ensures early { RefusesEarly folder.now.files (verify_of base.now extras.now) result }
    ensures report { let answer = report_in folder.now.files base.now (words extras.now) in
        IfOk result (λ report. answer ≡ Ok (report_view report)) }
    ensures verdict { let is_verdict = IsVerdictIn folder.now.files base.now (words extras.now) in
        IfOk result (λ report. is_verdict (verdict_of (report_view report))) }
    ensures repair { let others = words extras.now in
        let is_refused = RefusedAsReported folder.now.files base.now others in
        IfOk result (λ report. is_refused (report_view report)) }
{
    let reading = read(alloc, folder, base, extras)?;
    Ok(report_of(alloc, folder, &reading.set, &reading.extras)?)
}

/// The state of a target.
#[derive(Drop)]
pub enum State {
    /// Its file is intact.
    Complete,
    /// Its file is absent or not intact, and the file of this name is intact for the target.
    Misplaced(Name),
    /// Its file isn't intact, and no other file is intact for the target.
    Damaged,
    /// Its file is absent, and no other is intact for the target.
    Missing,
}

/// The report on a target.
#[derive(Drop)]
pub struct TargetReport {
    pub name: Name,
    pub state: State,
    /// How many of its slices are found.
    pub found: usize,
    /// How many slices it has.
    pub total: usize,
}

/// The report on a set, which a verify prints.
#[derive(Drop)]
pub struct Report {
    /// The Recovery Set ID.
    pub set_id: [u8; 16],
    /// In the order of the set.
    pub targets: Vec<TargetReport>,
    /// How many slices are lost.
    pub lost: usize,
    /// The rank of the surviving recovery slices in the lost ones, at most `lost`. If it is `lost`, they can be
    /// rebuilt.
    pub rank: usize,
}

// Whether each target is complete, which is the verdict `Complete`.
fn are_complete(targets: &[TargetReport]) -> bool
    ensures { result ≡ list_all (λ target. is_complete (state_view target.state)) targets.now }
{
    let is_complete = |target: &TargetReport| matches!(target.state, State::Complete);
    targets.iter().all(is_complete)
}

impl Report {
    /// Complete, repairable or neither. A report on a set is repairable if and only if a target is incomplete and the
    /// surviving recovery slices determine the lost slices, that is, if the rank is the number of lost slices. It
    /// allocates nothing.
    pub fn verdict(&self) -> Verdict
        ensures answer { result ≡ verdict_of (report_view self.now) }
        ensures words { (folder : folders.Folder) (base : List ℕ) (extras : List (List ℕ))
            → report_in folder base extras ≡ Ok (report_view self.now)
            → IsVerdictIn folder base extras result }
    {
        if are_complete(&self.targets) {
            Verdict::Complete
        } else if self.rank == self.lost {
            Verdict::Repairable
        } else {
            Verdict::NotRepairable
        }
    }
}

// The state of a target. It is complete if it isn't in `matches`, which has the match of each incomplete one.
fn state_of(folder: &Folder, target: &Target, matches: &Matches) -> State
    ensures { let is_there = has folder.now.files target.now.name in
        let found = get (slice_cmp nat_cmp) matches.now target.now.name in
        state_view result ≡ option_map_or (incomplete_state is_there) found Complete }
{
    match matches.get(target.name()) {
        None => State::Complete,
        Some(Some(name)) => State::Misplaced(name.copied()),
        Some(None) if folder.get(target.name()).is_some() => State::Damaged,
        Some(None) => State::Missing,
    }
}

// How many of the slices with these checksums are found.
fn count_found(pairs: &[Pair], lost: &BTreeSet<Pair>) -> usize
    ensures { result ≡ length (filter (λ pair. not (contains count_cmp lost.now pair)) pairs.now) }
{
    pairs.iter().filter(|pair| !lost.contains(*pair)).count()
}

// The report on a target. `lost` has the checksums of the lost slices.
fn target_report(
    folder: &Folder,
    target: &Target,
    matches: &Matches,
    lost: &BTreeSet<Pair>,
) -> TargetReport
    ensures { let said = said_of folder.now.files matches.now (contains count_cmp lost.now) in
        target_report_of result ≡ said target.now }
{
    TargetReport {
        name: target.name().copied(),
        state: state_of(folder, target, matches),
        found: count_found(target.pairs(), lost),
        total: target.pairs().len(),
    }
}

// The numbers of the lost slices, increasing. They count the slices of the set, which have these checksums, from 0.
fn lost_numbers(alloc: Global, pairs: &[Pair], lost: &BTreeSet<Pair>) -> Result<Vec<u32>>
    requires { length pairs.now ≤ 32768 }
    ensures { Lists (numbers_of_lost 0 (contains count_cmp lost.now) pairs.now) result }
{
    let mut numbers = Vec::new(alloc);
    for i in 0..pairs.len() {
        if lost.contains(&pairs[i]) {
            numbers.push(i as u32)?;
        }
    }
    Ok(numbers)
}

// The exponents of recovery slices, which are all that their rank depends on.
fn exponents(alloc: Global, recovery: &[(u32, &[u8])]) -> Result<Vec<u32>>
    ensures { IfOk result (λ list. list.items ≡ map (λ slice. slice.0) recovery.now) }
{
    let exponents = recovery.iter().map(|slice| slice.0);
    exponents.collect(alloc)
}

// The rank of the set's recovery slices in the lost slices of these numbers: how many of their equations are linearly
// independent. The field's tables are built only if runs of exponents don't determine it.
fn rank_of(alloc: Global, set: &ParSet, lost: &[u32]) -> Result<usize>
    ensures { IfOk result (λ n. n ≡ ranks.rank lost.now (survivors set.now)) }
{
    let exponents = exponents(alloc, set.recovery())?;
    match rank_by_runs(lost, &exponents) {
        Some(rank) => Ok(rank),
        None => rank_by_equations(alloc, &Gf::new(alloc)?, lost, &exponents),
    }
}

// How many slices of the set are lost, those with these checksums, and the rank of its recovery slices in them.
fn count_and_rank(alloc: Global, set: &ParSet, lost: &BTreeSet<Pair>) -> Result<(usize, usize)>
    requires { length (all_pairs set.now) ≤ 32768 }
    ensures { let numbers = numbers_of_lost 0 (contains count_cmp lost.now) (all_pairs set.now) in
        let rank = ranks.rank numbers (survivors set.now) in
        IfOk result (λ r. (r.0 ≡ length numbers) × (r.1 ≡ rank)) }
{
    let numbers = lost_numbers(alloc, &all_pairs(alloc, set)?, lost)?;
    Ok((numbers.len(), rank_of(alloc, set, &numbers)?))
}

/// The checksums of all slices of a set, in order, by which the slices are searched.
pub fn all_pairs(alloc: Global, set: &ParSet) -> Result<Vec<Pair>>
    ensures { Lists (all_pairs set.now) result }
{
    let pairs = set.targets().iter().flat_map(Target::pairs);
    pairs.copied().collect(alloc)
}

// The slice checksums of the targets with these names, in the order of the set: those that are searched for.
fn sought_pairs(alloc: Global, set: &ParSet, names: &BTreeSet<Name>) -> Result<Vec<Pair>>
    ensures { Lists (pairs_sought (λ t. contains (slice_cmp nat_cmp) names.now t.name)
        set.now.targets) result }
{
    let targets = set.targets().iter();
    let sought = targets.filter(|target| names.contains(target.name()));
    let pairs = sought.flat_map(Target::pairs);
    pairs.copied().collect(alloc)
}

/// The checksums of those slices of the targets with these names that aren't found in the candidates.
pub fn lost_pairs(
    alloc: Global,
    folder: &Folder,
    set: &ParSet,
    names: &BTreeSet<Name>,
    candidates: &[Name],
) -> Result<BTreeSet<Pair>>
    ensures { let buffers = map (bytes_of folder.now.files) candidates.now in
        let sought = pairs_sought (λ t. contains (slice_cmp nat_cmp) names.now t.name)
        set.now.targets in
        let lost_ones = filter (λ p. is_none (found set.now.slice_size buffers p)) sought in
        IfOk result (λ lost. (pair : Pair) →
        contains count_cmp lost pair ≡ list_any (eq_by_cmp count_cmp pair) lost_ones) }
{
    let pairs = sought_pairs(alloc, set, names)?;
    let buffers = folder.bytes_of_each(candidates)?;
    let windows = found_windows(alloc, &buffers, set.slice_size(), &pairs)?;
    let both = pairs.iter().zip(&windows);
    let lost = both.filter_map(|(pair, window)| window.is_none().then_some(*pair));
    lost.collect(alloc)
}
