//! A file's bytes, a change of a folder, and a list of changes. A plan builds a list with `Changes::push`.
//! `Changes::apply_and_invert` applies it to a folder, and the list becomes the way back.
ghost use Rattle.std.specs.Prelude.{◌≡◌, map, IfOk};
ghost use Rattle.par2_files.specs.Folders.{change_of};

use crate::{Folder, Name};
use par2_spec::Result;
use std::alloc::Global;
use std::cmp::min;
use std::marker::Model;

/// The bytes of a file: a vector that contracts see as a list.
#[derive(Drop)]
pub struct Bytes {
    items: Vec<u8>,
}

impl Model for Bytes {
    ghost use Rattle.std.specs.Prelude.{List, ℕ};

    ghost Value = { List ℕ };

    ghost view = { λ a. a.items.items };
}

impl From<Vec<u8>> for Bytes {
    ghost use Rattle.std.specs.Prelude.{◌≡◌};

    ghost from_gives = { λ items bytes. bytes ≡ items.items };

    fn from(items: Vec<u8>) -> Self {
        Bytes { items }
    }
}

impl Bytes {
    ghost use Rattle.std.specs.Prelude.{◌≡◌, IfOk, ◌<◌, ◌^◌, length};

    /// The bytes as a slice.
    pub fn as_slice(&self) -> &[u8]
        ensures bytes { result.now ≡ self.now }
        ensures fits { length self.now < 2 ^ 64 }
    {
        self.items.as_slice()
    }

    /// A copy of the bytes, because a change owns the bytes that it writes.
    pub fn copy_of(alloc: Global, items: &[u8]) -> Result<Self>
        ensures { IfOk result (λ bytes. bytes ≡ items.now) }
    {
        Ok(items.to_vec(alloc)?.into())
    }
}

/// A change of one folder.
#[derive(Drop)]
pub enum Change {
    /// A new file.
    Write(Name, Bytes),
    /// New bytes for a file.
    Replace(Name, Bytes),
    /// A new name for a file; no other file may have it.
    Rename(Name, Name),
    /// The removal of a file.
    Remove(Name),
}

impl Change {
    ghost use Rattle.std.specs.Prelude.{◌≡◌, IfOk};
    ghost use Rattle.par2_files.specs.Folders.{change_of};
    ghost use Rattle.par2_files.specs.Checkpoints.{first_name};

    // A copy of the change and of the bytes that it owns.
    fn copied(&self, alloc: Global) -> Result<Change>
        ensures { IfOk result (λ copy. change_of copy ≡ change_of self.now) }
    {
        let copy = |bytes: &Bytes| Bytes::copy_of(alloc, bytes.as_slice());
        Ok(match self {
            Change::Write(name, bytes) => Change::Write(name.copied(), copy(bytes)?),
            Change::Replace(name, bytes) => Change::Replace(name.copied(), copy(bytes)?),
            Change::Rename(from, to) => Change::Rename(from.copied(), to.copied()),
            Change::Remove(name) => Change::Remove(name.copied()),
        })
    }

    // The least of the names that the change touches. Files with lesser names are equal before and after it, so a
    // fingerprint can start from a checkpoint whose name isn't above this one.
    pub(crate) fn first_name(&self) -> Name
        ensures { result ≡ first_name (change_of self.now) }
    {
        match self {
            Self::Rename(from, to) => min(from.copied(), to.copied()),
            Self::Write(name, _) | Self::Replace(name, _) | Self::Remove(name) => name.copied(),
        }
    }
}

/// Changes, in the order in which they are applied: a vector that contracts see as a list.
#[derive(Drop)]
pub struct Changes {
    items: Vec<Change>,
}

impl Model for Changes {
    ghost use Rattle.std.specs.Prelude.{List, map};
    ghost use Rattle.std.specs.Coded.{coded_list};
    ghost use Rattle.par2_spec.specs.Changes as defined;
    ghost use Rattle.par2_spec.specs.Codes.{change_code};
    ghost use Rattle.par2_files.specs.Folders.{change_of};

    ghost Value = { List defined.Change };

    ghost coded = { coded_list change_code };

    ghost view = { λ a. map change_of a.items.items };
}

impl Changes {
    ghost use Rattle.std.specs.Prelude.{◌≡◌, ◌↔◌, ◌++◌, ◌∷◌, [], length, map, IsTrue, OnOk, OnErr};
    ghost use Rattle.std.specs.Borrow.{sem};
    ghost use Rattle.par2_spec.specs.Changes.{takes_all, state_after_all, way_back};
    ghost use Rattle.par2_files.specs.Folders.{change_of};
    ghost use Rattle.par2_files.specs.Lending.{LendsChanges};

    /// The empty list.
    pub fn new(alloc: Global) -> Self
        ensures { result ≡ [] }
    {
        let items = Vec::new(alloc);
        Changes { items }
    }

    /// Adds a change at the end.
    pub fn push(&mut self, change: Change) -> Result<()>
        ensures ok { OnOk result (self.new ≡ self.old ++ change_of change ∷ []) }
        ensures err { OnErr result (self.new ≡ self.old) }
    {
        Ok(self.items.push(change)?)
    }

    /// The changes in order.
    pub fn as_slice(&self) -> &[Change]
        ensures { map change_of result.now ≡ self.now }
    {
        &self.items
    }

    /// The changes in order, to be applied and inverted one by one. `LendsChanges`: once the borrow ends, the list has
    /// the changes that the slice then holds.
    pub fn as_mut_slice(&mut self) -> &mut [Change]
        ensures* writes_back { sem 𝓛 (LendsChanges self.entry result) }
        ensures value { map change_of result.now ≡ self.old }
    {
        &mut self.items
    }

    /// The number of changes.
    pub fn len(&self) -> usize
        ensures { result ≡ length self.now }
    {
        self.items.len()
    }

    /// Whether there are no changes.
    pub fn is_empty(&self) -> bool
        ensures { IsTrue result ↔ (self.now ≡ []) }
    {
        self.items.is_empty()
    }

    /// Applies the changes in order, and becomes the way back: the inverses in reverse order. It doesn't allocate,
    /// because `takes_all` says that each change applies and that each file written has a vacant place.
    pub fn apply_and_invert(&mut self, folder: &mut Folder)
        requires { IsTrue (takes_all folder.old self.old) }
        ensures folder { folder.new ≡ state_after_all folder.old self.old }
        ensures way_back { self.new ≡ way_back folder.old.files self.old }
    {
        folder.apply_all(&mut self.items)
    }
}

/// Copies of the changes and their bytes, in order. Opening a halfway journal applies the changes that lead back to the
/// folder in memory, which replaces them by their inverses, and needs the copies for the store.
pub fn copies_of(alloc: Global, changes: &[Change]) -> Result<Vec<Change>>
    ensures { IfOk result (λ copies. map change_of copies.items ≡ map change_of changes.now) }
{
    let mut copies = Vec::new(alloc);
    for change in changes {
        copies.push(change.copied(alloc)?)?;
    }
    Ok(copies)
}
