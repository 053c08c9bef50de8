//! The incomplete targets of a set, and which candidates (targets in the folder, then extra files) are intact for them:
//! their matches. `matches` divides the targets, leaves out the names of intact ones, and matches the others with the
//! files of the remaining names.
//! `candidates` has the names of the files that a verify and a repair search.

ghost use Rattle.std.specs.Prelude.{◌≡◌, ◌≤◌, ℕ, List, not, map, filter, IfOk, option_and_then, slice_get};
ghost use Rattle.std.specs.List.{IsDistinct};
ghost use Rattle.std.specs.Str.{bytes_eq};
ghost use Rattle.par2_spec.specs.Prelude.{intact_names, Lists, is_among, distinct, HoldsNames, names_without_match};
ghost use Rattle.par2_sets.specs.SetReading.{HoldsOwned};
ghost use Rattle.par2_verify.specs.Findings.{HoldsMatches};
ghost use Rattle.par2_slices.specs.Matching.{buffers_of, matched_numbers};
ghost use Rattle.par2_spec.specs.Search as search;

use par2_files::{Folder, Name};
use par2_sets::{ParSet, Target};
use par2_slices::{is_intact, matched, matches_by_number_are_by_name};
use par2_spec::Result;
use std::alloc::Global;
use std::collections::{BTreeMap, BTreeSet};
use std::marker::Model;

/// A target whose file is absent or not intact. A file is intact for a target if it has its length and its slices'
/// checksums.
#[derive(Drop)]
pub struct Incomplete<'s> {
    pub target: &'s Target,
    /// The name of its match, if it has one: of another file that is intact for it.
    pub found: Option<Name>,
}

/// The match of each incomplete target, if it has one, by the target's name.
pub type Matches = BTreeMap<Name, Option<Name>>;

impl<'s> Model for Incomplete<'s> {
    ghost use Rattle.std.specs.Prelude.{List, ℕ, Option};
    ghost use Rattle.par2_spec.specs.Sets.{Target as Described};

    ghost Value = { Described × Option (List ℕ) };

    ghost view = { λ n. (n.target.now, n.found) };
}

/// Whether the file of the target's name is absent or doesn't have the target's length and slice checksums.
pub fn is_incomplete(folder: &Folder, set: &ParSet, target: &Target) -> bool
    ensures { result ≡ search.is_incomplete folder.now.files set.now target.now }
{
    match folder.get(target.name()) {
        Some(bytes) => !is_intact(bytes, set.slice_size(), target.length(), target.pairs()),
        None => true,
    }
}

// The incomplete targets of a set, in order, and a tree of the names of the others.
fn parted<'s>(
    alloc: Global,
    folder: &Folder,
    set: &'s ParSet,
) -> Result<(Vec<&'s Target>, BTreeSet<&'s Name>)>
    ensures incomplete { let incomplete = search.incomplete folder.now.files set.now in
        IfOk result (λ parted. map (λ t. t.now) parted.0.items ≡ incomplete) }
    ensures intact { IfOk result (λ p. HoldsNames p.1 (intact_names folder.now.files set.now)) }
{
    let mut incomplete = Vec::new(alloc);
    let mut intact = BTreeSet::new(alloc);
    for target in set.targets() {
        if is_incomplete(folder, set, target) {
            incomplete.push(target)?;
        } else {
            intact.insert(target.name())?;
        }
    }
    Ok((incomplete, intact))
}

// The candidates that aren't names of intact targets, in order. A file that is in its place is no match.
fn free_names<'n>(alloc: Global, intact: BTreeSet<&'n Name>, names: &'n [Name]) -> Result<Vec<Name>>
    ensures { (all : List (List ℕ)) → HoldsNames intact.entry all →
        Lists (filter (λ name. not (is_among all name)) names.now) result }
{
    let mut free = Vec::new(alloc);
    for name in names {
        if !intact.contains(&name) {
            free.push(name.copied())?;
        }
    }
    Ok(free)
}

// For each target the number of the file that is its match, if it has one, for slices of `s` bytes.
fn numbers_of(alloc: Global, s: u64, files: &[&[u8]], ts: &[&Target]) -> Result<Vec<Option<usize>>>
    requires { 1 ≤ s }
    ensures { let targets = map (λ t. t.now) ts.now in
        Lists (matched_numbers s (buffers_of files.now) targets) result }
{
    let targets = ts.iter().map(|target| par2_slices::Target {
        length: target.length(),
        pairs: target.pairs(),
    });
    let targets: Vec<par2_slices::Target> = targets.collect(alloc)?;
    matched(alloc, files, s, &targets)
}

// The name with this number, counted from 0 in the searched names, if the target has a match.
fn name_at(names: &[Name], number: Option<usize>) -> Option<Name>
    ensures { result ≡ option_and_then (slice_get names.now) number }
{
    names.get(number?).map(Name::copied)
}

/// The incomplete targets of a set, in target order, with their matches, which are among the candidates that aren't
/// names of intact targets. Candidates must be distinct, because a file is the match of one target at most.
pub fn matches<'s>(
    alloc: Global,
    folder: &Folder,
    set: &'s ParSet,
    candidates: &'s [Name],
) -> Result<Vec<Incomplete<'s>>>
    requires { IsDistinct bytes_eq candidates.now }
    ensures { Lists (search.matches folder.now.files set.now candidates.now) result }
{
    // For the prover: matches by number are matches by name.
    matches_by_number_are_by_name();
    let (incomplete, intact) = parted(alloc, folder, set)?;
    let free = free_names(alloc, intact, candidates)?;
    let buffers = folder.bytes_of_each(&free)?;
    let numbers = numbers_of(alloc, set.slice_size(), &buffers, &incomplete)?;
    let numbered = incomplete.iter().zip(&numbers);
    let matches = numbered.map(|(target, number)| Incomplete {
        target,
        found: name_at(&free, *number),
    });
    matches.collect(alloc)
}

/// The names of the incomplete targets that have no match: their files are written from slices. `HoldsOwned`: the tree
/// has exactly these names.
pub fn unmatched(alloc: Global, incomplete: &[Incomplete]) -> Result<BTreeSet<Name>>
    ensures { IfOk result (λ tree. HoldsOwned tree (names_without_match incomplete.now)) }
{
    let unmatched = incomplete.iter().filter(|one| one.found.is_none());
    let names = unmatched.map(|one| one.target.name().copied());
    names.collect(alloc)
}

/// The matches of incomplete targets, whose names are distinct, by these names.
pub fn matches_by_name(alloc: Global, incomplete: &[Incomplete]) -> Result<Matches>
    ensures { IsDistinct bytes_eq (map (λ m. m.0.name) incomplete.now)
        → IfOk result (HoldsMatches incomplete.now) }
{
    let named = |m: &Incomplete| (m.target.name().copied(), m.found.as_ref().map(Name::copied));
    incomplete.iter().map(named).collect(alloc)
}

// Each name once, in the order of first occurrence: an extra file may be named twice or be a target.
fn distinct(alloc: Global, names: &[&Name]) -> Result<Vec<Name>>
    ensures { IfOk result (λ list. list.items ≡ distinct (map (λ name. name.now) names.now)) }
{
    let mut seen = BTreeSet::new(alloc);
    let mut list = Vec::new(alloc);
    for name in names {
        if seen.insert(*name)? {
            list.push(name.copied())?;
        }
    }
    Ok(list)
}

/// The names of the targets that are in the folder, then the extra names, each once.
pub fn candidates(alloc: Global, folder: &Folder, set: &ParSet, extra: &[Name]) -> Result<Vec<Name>>
    ensures { Lists (search.candidates folder.now.files set.now extra.now) result }
{
    let targets = set.targets().iter().map(Target::name);
    let present = targets.filter(|name| folder.get(name).is_some());
    let mut names: Vec<&Name> = present.collect(alloc)?;
    names.extend(extra)?;
    distinct(alloc, &names)
}
