//! Verify, repair and purge first call `read`: it checks that the base and the extra files exist, and reads the set of
//! the base's packets.
ghost use Rattle.std.specs.Prelude.{◌≡◌, ◌<◌, Some, None, not, position, string_bytes, is_some, IfOk, IfSome, MatchResult};
ghost use Rattle.par2_spec.specs.Prelude.{has, RefusesEarly, verify_of, absent_file, set_in};
ghost use Rattle.par2_verify.specs.Findings.{words};
ghost use Rattle.par2_sets.specs.SetReading.{Returns, own_files};

use par2_files::{Folder, Name};
use par2_sets::{ParSet, ReadSet, set_of};
use par2_spec::{Fault, Result};
use std::alloc::Global;

/// The result of `read`: the set of a base, the files that have packets of the set alone, and the extra files.
#[derive(Drop)]
pub struct Reading<'a> {
    pub set: ParSet<'a>,
    pub own_files: Vec<Name>,
    pub extras: Vec<Name>,
}

// The word as a name, if a file of the folder has this name.
#[tactic(auto, using(crate::proofs::Steps::present))]
fn present(folder: &Folder, word: &str) -> Option<Name>
    ensures variant { is_some result ≡ has folder.now.files word.now }
    ensures value { IfSome result (λ name. name ≡ word.now) }
{
    // For the prover: names in a folder are valid.
    let _ = folder.vacant();
    let name = Name::new(word).ok()?;
    folder.get(&name).is_some().then_some(name)
}

// The index, from 0, of the first extra word that isn't the name of a file in the folder.
fn first_absent(folder: &Folder, words: &[String]) -> Option<usize>
    ensures place { result
        ≡ position (λ word. not (has folder.now.files (string_bytes word))) words.now }
    ensures fits { IfSome result (λ place. place < usize.MAX) }
{
    let is_absent = |word: &String| present(folder, word).is_none();
    words.iter().position(is_absent)
}

// The name of the base, if it and all extra words are names of files in the folder. `NoSuchFile` has the number of the
// first absent file: 0 for the base, then the extras.
#[tactic(auto, using(crate::proofs::Steps::base_name))]
fn base_name(folder: &Folder, base: &str, extras: &[String]) -> Result<Name, Fault>
    ensures { let absent = absent_file folder.now.files base.now (words extras.now) in
        MatchResult result (λ name. (name ≡ base.now) × (absent ≡ None)) (λ e. absent ≡ Some e) }
{
    let name = present(folder, base).ok_or(Fault::NoSuchFile(0))?;
    match first_absent(folder, extras) {
        Some(place) => Err(Fault::NoSuchFile(place + 1)),
        None => Ok(name),
    }
}

/// Reads the set of the base. A file that is absent is the first fault, and finding it takes no memory.
pub fn read<'a>(
    alloc: Global,
    folder: &'a Folder,
    base: &str,
    extras: &[String],
) -> Result<Reading<'a>, Fault>
    ensures set { let set = set_in folder.now.files base.now (words extras.now) in
        Returns (λ reading. reading.set) result set }
    ensures early { RefusesEarly folder.now.files (verify_of base.now extras.now) result }
    ensures own { IfOk result (λ r. r.own_files.items ≡ own_files folder.now.files r.set.id) }
    ensures extras { IfOk result (λ r. r.extras.items ≡ words extras.now) }
{
    let base = base_name(folder, base, extras)?;
    let extras = extras.iter().filter_map(|word| present(folder, word));
    let extras = extras.collect(alloc)?;
    let ReadSet { set, own_files } = set_of(alloc, folder, &base)?;
    Ok(Reading {
        set,
        own_files,
        extras,
    })
}
