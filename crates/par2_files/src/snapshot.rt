//! Borrowed files of a folder, to which changes are applied without changing the folder, splits among names, and MD5
//! states that absorb the files between two splits. `walk` applies the planned changes one by one, and `pending_between`
//! returns a state with the files that it is to absorb next.
ghost use Rattle.std.specs.Prelude.{◌≤◌, length, map};
ghost use Rattle.par2_files.specs.Folders.{AreFolderFiles, file_of};

use crate::{Bytes, Change, Name};
use par2_md5_lanes::{LANES, Midstate, Part, Pending, absorb_each};
use par2_spec::Result;
use std::alloc::Global;

/// A file: its name and its bytes, borrowed.
pub type BorrowedFile<'a> = (&'a Name, &'a Bytes);

/// The files of a folder, borrowed and sorted by name.
#[derive(Drop)]
pub struct Snapshot<'a> {
    pub files: Vec<BorrowedFile<'a>>,
    ghost kept: { AreFolderFiles (map file_of files.items) },
}

#[tactic(auto, using(crate::proofs::SortedFiles::not_absent), unfolding(par2_spec::specs::Changes::is_applicable, par2_spec::specs::Changes::effect))]
impl<'a> Snapshot<'a> {
    ghost use Rattle.std.specs.FinMap.{insert, remove};
    ghost use Rattle.std.specs.Prelude.{◌≡◌, IfOk, OnOk, IsTrue, map};
    ghost use Rattle.par2_spec.specs.Folders.{has, bytes_of};
    ghost use Rattle.par2_spec.specs.Changes.{is_applicable, effect};
    ghost use Rattle.par2_files.specs.Folders.{IsSearched, change_of};
    ghost use Rattle.par2_files.specs.Checkpoints.{AbsorbsTo, IsFront, IsFurther, bytes_before, files_in, folder_in as folder, is_before};
    ghost use Rattle.par2_md5_lanes.specs.Messages.{HasAbsorbed};

    // Ok with the position of the file with this name, or Err with the position where it would be inserted.
    fn search(&self, name: &Name) -> Result<usize, usize>
        ensures { IsSearched (files_in self.now) name.now result }
    {
        self.files.binary_search_by(|file| file.0.cmp(name))
    }

    // Inserts the file, or replaces the one that has its name.
    fn insert(&mut self, name: &'a Name, bytes: &'a Bytes) -> Result<()>
        ensures { OnOk result (folder self.new ≡ insert (folder self.old) name.now bytes.now) }
    {
        // For the prover: the name is valid, and the length of the bytes fits.
        let (_bytes, _slice) = (name.as_str(), bytes.as_slice());
        match self.search(name) {
            Ok(at) => self.files[at] = (name, bytes),
            Err(at) => self.files.insert(at, (name, bytes))?,
        }
        Ok(())
    }

    // Removes the file, and returns its bytes.
    fn take_out(&mut self, name: &Name) -> &'a Bytes
        requires { IsTrue (has (folder self.old) name.now) }
        ensures bytes { result.now ≡ bytes_of (folder self.old) name.now }
        ensures folder { folder self.new ≡ remove (folder self.old) name.now }
    {
        match self.search(name) {
            Ok(at) => self.files.remove(at).1,
            Err(_) => unreachable!(),
        }
    }

    /// Becomes the snapshot of the folder after the change, whose names and bytes it borrows.
    pub fn apply(&mut self, change: &'a Change) -> Result<()>
        requires { IsTrue (is_applicable (folder self.old) (change_of change.now)) }
        ensures { OnOk result (folder self.new ≡ effect (folder self.old) (change_of change.now)) }
    {
        match change {
            Change::Write(name, bytes) | Change::Replace(name, bytes) => self.insert(name, bytes),
            Change::Rename(from, to) => {
                let bytes = self.take_out(from);
                self.insert(to, bytes)
            }
            Change::Remove(name) => {
                self.take_out(name);
                Ok(())
            }
        }
    }

    // The number of files whose names are before the split: `IsFront`, exactly the first ones.
    fn count_before(&self, split: Split<'_>) -> usize
        ensures { IsFront (is_before split.entry) (files_in self.now) result }
    {
        match split {
            Split::Beginning => 0,
            Split::At(name) => match self.search(name) {
                Ok(at) | Err(at) => at,
            },
            Split::End => self.files.len(),
        }
    }

    /// The state at the split `from`, with the files from there to the split `to` still to absorb, so that several
    /// states are absorbed side by side. Each name and each file's bytes are preceded by their length. `AbsorbsTo`: once
    /// it has absorbed its parts, it has absorbed exactly the bytes before `to`.
    pub fn pending_between(
        &self,
        alloc: Global,
        state: Midstate,
        from: Split<'_>,
        to: Split<'_>,
    ) -> Result<Pending<'a>>
        requires { IsFurther from to }
        ensures { HasAbsorbed state (bytes_before from.entry (folder self.now))
            → IfOk result (λ pending. AbsorbsTo pending (bytes_before to.entry (folder self.now))) }
    {
        let start = self.count_before(from);
        let files = &self.files[start..self.count_before(to)];
        let mut parts = Vec::with_capacity(alloc, files.len().saturating_mul(4))?;
        for file in files {
            let (name, bytes) = (file.0.as_str().as_bytes(), file.1.as_slice());
            parts.extend_from_slice(&[
                Part::Length(name.len() as u64),
                Part::Bytes(name),
                Part::Length(bytes.len() as u64),
                Part::Bytes(bytes),
            ])?;
        }
        Ok(Pending { state, parts })
    }
}

/// A position among sorted names: before all of them, before one, or after all. A fingerprint is computed from split to
/// split.
#[derive(Clone, Copy)]
pub enum Split<'a> {
    Beginning,
    At(&'a Name),
    End,
}

impl<'a> Split<'a> {
    ghost use Rattle.std.specs.Prelude.{◌≡◌, IsTrue};
    ghost use Rattle.par2_files.specs.Folders.{change_of};
    ghost use Rattle.par2_files.specs.Checkpoints.{IsFurther, comes_before, touches};
    ghost use Rattle.par2_files.specs.declared.snapshot.Split.TheVariants.{At};

    /// Whether the split is before the one at the name. It is strict, unlike `IsFurther`.
    pub fn comes_before(self, name: &Name) -> bool
        ensures which { result ≡ comes_before self.entry name.now }
        ensures further { IsTrue result → IsFurther self.entry (At name.entry) }
    {
        match self {
            Split::Beginning => true,
            Split::At(before) => before < name,
            Split::End => false,
        }
    }

    /// Whether the change touches a name before the split. If it doesn't, the files there are equal before and after it.
    pub fn is_after(self, change: &Change) -> bool
        ensures { result ≡ touches self.entry (change_of change.now) }
    {
        match self {
            Split::Beginning => false,
            Split::At(next) => &change.first_name() < next,
            Split::End => true,
        }
    }
}

/// MD5 states: those that are finished, and then those that still have parts to absorb, at most sixteen.
#[derive(Drop)]
pub struct Absorbing<'a> {
    states: Vec<Midstate>,
    pendings: Vec<Pending<'a>>,
    ghost few: { length pendings.items ≤ 16 },
}

impl<'a> Absorbing<'a> {
    ghost use Rattle.std.specs.Prelude.{◌≡◌, ◌++◌, ◌∷◌, [], ℕ, List, IfOk, OnOk};
    ghost use Rattle.par2_files.specs.Checkpoints.{AbsorbsTo, AreTo, HaveAbsorbed};

    /// One state. `AreTo`: state k, finished ones first, has absorbed message k or will.
    pub fn with_first(alloc: Global, first: Pending<'a>) -> Result<Absorbing<'a>>
        ensures { (bytes : List ℕ) → AbsorbsTo first.entry bytes
            → IfOk result (λ absorbing. AreTo absorbing (bytes ∷ [])) }
    {
        let (states, mut pendings) = (Vec::new(alloc), Vec::new(alloc));
        pendings.push(first)?;
        Ok(Absorbing { states, pendings })
    }

    // Absorbs all parts by one `absorb_each` and appends the states to the finished ones.
    fn absorb_all(&mut self) -> Result<()>
        ensures empty { OnOk result (self.new.pendings.items ≡ []) }
        ensures buffers { (l : List (List ℕ)) → AreTo self.old l → OnOk result (AreTo self.new l) }
    {
        let states = absorb_each(&self.pendings);
        self.states
            .extend_from_slice(&states[..self.pendings.len()])?;
        self.pendings.clear();
        Ok(())
    }

    /// Adds a state with the parts that it still has to absorb. If sixteen are pending, it absorbs them first.
    pub fn push(&mut self, pending: Pending<'a>) -> Result<()>
        ensures { (buffers : List (List ℕ)) (bytes : List ℕ)
            → AreTo self.old buffers → AbsorbsTo pending.entry bytes
            → OnOk result (AreTo self.new (buffers ++ bytes ∷ [])) }
    {
        if self.pendings.len() == LANES {
            self.absorb_all()?;
        }
        Ok(self.pendings.push(pending)?)
    }

    /// The states once all parts are absorbed, in the order in which they were added.
    pub fn finish(mut self) -> Result<Vec<Midstate>>
        ensures { (buffers : List (List ℕ)) → AreTo self.entry buffers
            → IfOk result (λ states. HaveAbsorbed states.items buffers) }
    {
        self.absorb_all()?;
        Ok(self.states)
    }
}
