//! A flat folder in memory: a vector of files that is sorted by name. `Folder::apply` finds the position of a name by
//! `search` and edits the vector there by `insert_at`, `remove_at` or `exchange_at`.
ghost use Rattle.std.specs.FinMap.{get, insert, remove};
ghost use Rattle.std.specs.Prelude.{◌≡◌, ℕ, ◌+◌, ◌<◌, List, Some, None, vec_len, vec_capacity};
ghost use Rattle.par2_files.specs.Folders.{AreFilesOf, AreFolderFiles, IsFileAt, IsGapFor, IsSearched, folder_of};

use crate::snapshot::Snapshot;
use crate::walk::{Checkpoints, fingerprints};
use crate::{Bytes, Change, Name};
use par2_spec::{ChangeFault, Result};
use std::alloc::Global;
use std::marker::Model;
use std::mem;

/// A flat folder: files by name, and memory reserved for more of them.
#[derive(Drop)]
pub struct Folder {
    files: Vec<(Name, Bytes)>,
}

impl Model for Folder {
    ghost use Rattle.std.specs.Prelude.{◌-◌, vec_len, vec_capacity};
    ghost use Rattle.par2_spec.specs.Changes.{FolderState};
    ghost use Rattle.par2_spec.specs.Codes.{folder_state_code};
    ghost use Rattle.par2_files.specs.Folders.{AreFolderFiles, folder_of};

    ghost Value = { FolderState };

    ghost coded = { folder_state_code };

    ghost view = { λ a. record {
      files = folder_of a.files.items;
      vacant = vec_capacity a.files -
          vec_len a.files;
    } };

    ghost invariant = { λ a. AreFolderFiles a.files.items };
}

#[tactic(auto, using(crate::proofs::SortedFiles::folder_laws), unfolding(par2_spec::specs::Changes::change_refusal, par2_spec::specs::Changes::effect, par2_spec::specs::Changes::inverse))]
impl Folder {
    ghost use Rattle.std.specs.Prelude.{◌≡◌, ◌<◌, ◌^◌, Some, None, length, max, map, is_some, option_copied, IsTrue, IfOk, IfErr, OnOk, OnErr, IfSome};
    ghost use Rattle.std.specs.FinMap.{empty, get};
    ghost use Rattle.par2_md5_lanes.specs.Messages.{buffers_of};
    ghost use Rattle.par2_spec.specs.Folders.{bytes_of, has, names, fingerprint, IsFolder};
    ghost use Rattle.par2_spec.specs.Changes.{Rename, change_refusal, state_after, inverse, takes_all, state_after_all, way_back};
    ghost use Rattle.par2_files.specs.Folders.{change_of};
    ghost use Rattle.par2_files.specs.Checkpoints.{folder_in};

    /// The empty folder. It has no vacant places.
    pub fn new(alloc: Global) -> Self
        ensures files { result.files ≡ empty }
        ensures vacant { result.vacant ≡ 0 }
    {
        let files = Vec::new(alloc);
        Folder { files }
    }

    /// The number of files.
    pub fn len(&self) -> usize
        ensures count { result ≡ length (names self.now.files) }
        ensures fits { result < 2 ^ 63 }
    {
        self.files.as_slice().len()
    }

    /// How many more files can be written without allocating.
    pub fn vacant(&self) -> usize
        ensures vacant { result ≡ self.now.vacant }
        ensures folder { IsFolder self.now.files }
    {
        self.files.capacity() - self.files.len()
    }

    /// Reserves places for at least `n` more files, so that changes which write up to `n` files don't allocate.
    pub fn reserve(&mut self, n: usize) -> Result<()>
        ensures files { self.new.files ≡ self.old.files }
        ensures ok { OnOk result (self.new.vacant ≡ max self.old.vacant n) }
        ensures err { OnErr result (self.new ≡ self.old) }
    {
        self.files.reserve_exact(n)
    }

    /// The bytes of a file.
    pub fn get(&self, name: &Name) -> Option<&[u8]>
        ensures value { option_copied result ≡ get self.now.files name.now }
        ensures variant { is_some result ≡ has self.now.files name.now }
        ensures folder { IsFolder self.now.files }
    {
        match search(&self.files, name) {
            Ok(at) => Some(self.files[at].1.as_slice()),
            Err(_) => None,
        }
    }

    /// The bytes of a file, or an empty slice if there is no such file.
    pub fn bytes_of(&self, name: &Name) -> &[u8]
        ensures { result.now ≡ bytes_of self.now.files name.now }
    {
        self.get(name).unwrap_or(&[])
    }

    /// The bytes of each named file, in the order of the names. An absent file has no bytes.
    pub fn bytes_of_each(&self, names: &[Name]) -> Result<Vec<&[u8]>>
        ensures { IfOk result (λ l. buffers_of l.items ≡ map (bytes_of self.now.files) names.now) }
    {
        let all = names.iter().map(|name| self.bytes_of(name));
        all.collect(*self.files.allocator())
    }

    /// The names of the files, in the order of their bytes.
    pub fn names(&self) -> Result<Vec<Name>>
        ensures { IfOk result (λ list. list.items ≡ names self.now.files) }
    {
        let names = self.files.iter().map(|file| file.0.copied());
        names.collect(*self.files.allocator())
    }

    /// The MD5 of all names and bytes, in the order of the names. Each name and each file's bytes follow their length
    /// in eight bytes, so that different folders hash different messages.
    pub fn fingerprint(&self) -> Result<[u8; 16]>
        ensures { IfOk result (λ digest. digest ≡ fingerprint self.now.files) }
    {
        let alloc = *self.files.allocator();
        Ok(fingerprints(alloc, self, &[], &Checkpoints::none(alloc), &[])?.along[0])
    }

    // Borrows all files, so that the folders after planned changes can be fingerprinted without changing this one.
    pub(crate) fn snapshot(&self) -> Result<Snapshot<'_>>
        ensures { IfOk result (λ snapshot. folder_in snapshot ≡ self.now.files) }
    {
        let files = self.files.iter().map(|file| (&file.0, &file.1));
        let files = files.collect(*self.files.allocator())?;
        Ok(Snapshot { files })
    }

    /// Applies the change and replaces it by its inverse, without allocating. After an error both are as before.
    pub fn apply(&mut self, change: &mut Change) -> Result<(), ChangeFault>
        ensures refused { IfErr result (λ fault. change_refusal self.old (change_of change.old)
            ≡ Some fault) }
        ensures unchanged { OnErr result ((self.new ≡ self.old) × (change.new ≡ change.old)) }
        ensures accepted { OnOk result (change_refusal self.old (change_of change.old) ≡ None) }
        ensures folder { OnOk result (self.new ≡ state_after self.old (change_of change.old)) }
        ensures inverse { OnOk result (change_of change.new
            ≡ inverse self.old.files (change_of change.old)) }
    {
        match change {
            Change::Write(name, _) => {
                let Err(at) = search(&self.files, name) else {
                    return Err(ChangeFault::NameTaken);
                };
                if self.vacant() == 0 {
                    return Err(ChangeFault::NoRoom);
                }
                let inverse = Change::Remove(name.copied());
                let Change::Write(name, bytes) = mem::replace(change, inverse) else {
                    unreachable!()
                };
                insert_at(&mut self.files, at, name, bytes);
                Ok(())
            }
            Change::Replace(name, bytes) => {
                let at = search(&self.files, name).or(Err(ChangeFault::NoSuchName))?;
                exchange_at(&mut self.files, at, name, bytes);
                Ok(())
            }
            Change::Rename(from, to) => self.rename(from, to),
            Change::Remove(name) => {
                let at = search(&self.files, name).or(Err(ChangeFault::NoSuchName))?;
                let bytes = remove_at(&mut self.files, at, name);
                *change = Change::Write(name.copied(), bytes);
                Ok(())
            }
        }
    }

    // Renames the file and swaps the two names, which makes the inverse rename.
    fn rename(&mut self, from: &mut Name, to: &mut Name) -> Result<(), ChangeFault>
        ensures refused { IfErr result (λ fault. change_refusal self.old (Rename from.old to.old)
            ≡ Some fault) }
        ensures unchanged { OnErr result ((self.new ≡ self.old)
            × (from.new ≡ from.old) × (to.new ≡ to.old)) }
        ensures accepted { OnOk result (change_refusal self.old (Rename from.old to.old) ≡ None) }
        ensures folder { OnOk result (self.new ≡ state_after self.old (Rename from.old to.old)) }
        ensures exchanged { OnOk result ((from.new ≡ to.old) × (to.new ≡ from.old)) }
    {
        let at = search(&self.files, from).or(Err(ChangeFault::NoSuchName))?;
        let Err(_) = search(&self.files, to) else {
            return Err(ChangeFault::NameTaken);
        };
        let bytes = remove_at(&mut self.files, at, from);
        let Err(place) = search(&self.files, to) else {
            unreachable!()
        };
        insert_at(&mut self.files, place, to.copied(), bytes);
        mem::swap(from, to);
        Ok(())
    }

    /// Applies the changes in order and replaces them by the way back, in the order in which it is applied. It
    /// doesn't allocate.
    pub fn apply_all(&mut self, changes: &mut [Change])
        requires { IsTrue (takes_all self.old (map change_of changes.old)) }
        ensures folder { self.new ≡ state_after_all self.old (map change_of changes.old) }
        ensures way_back { map change_of changes.new
            ≡ way_back self.old.files (map change_of changes.old) }
    {
        for change in changes.iter_mut() {
            let Ok(()) = self.apply(change) else {
                unreachable!()
            };
        }
        changes.reverse();
    }
}

// Ok with the position of the file with this name, or Err with the position where it would be inserted.
fn search(files: &[(Name, Bytes)], name: &Name) -> Result<usize, usize>
    requires { AreFolderFiles files.now }
    ensures { IsSearched files.now name.now result }
{
    files.binary_search_by(|file| file.0.cmp(name))
}

// Inserts a file at a position, within the capacity.
fn insert_at(files: &mut Vec<(Name, Bytes)>, at: usize, name: Name, bytes: Bytes)
    // The position is where the name sorts, and there is a vacant place.
    requires kept { AreFolderFiles files.old.items }
    requires gap { IsGapFor files.old.items name at }
    requires room { vec_len files.old < vec_capacity files.old }
    // The folder has the new file.
    ensures files { AreFilesOf files.new.items (insert (folder_of files.old.items) name bytes) }
    // It takes one place and doesn't allocate.
    ensures len { vec_len files.new ≡ vec_len files.old + 1 }
    ensures capacity { vec_capacity files.new ≡ vec_capacity files.old }
{
    // For the prover: the name is valid, and the length of the bytes fits.
    let (_bytes, _slice) = (name.as_str(), bytes.as_slice());
    let Ok(()) = files.insert(at, (name, bytes)) else {
        unreachable!()
    };
}

// Removes the file at a position, and returns its bytes.
fn remove_at(files: &mut Vec<(Name, Bytes)>, at: usize, name: &Name) -> Bytes
    // The file with the name is at the position.
    requires kept { AreFolderFiles files.old.items }
    requires here { IsFileAt files.old.items name.now at }
    ensures bytes { get (folder_of files.old.items) name.now ≡ Some result }
    // The folder is without this file.
    ensures files { AreFilesOf files.new.items (remove (folder_of files.old.items) name.now) }
    // Its place becomes vacant.
    ensures len { vec_len files.new + 1 ≡ vec_len files.old }
    ensures capacity { vec_capacity files.new ≡ vec_capacity files.old }
{
    files.remove(at).1
}

// Swaps the bytes of the file at a position with `bytes`.
fn exchange_at(files: &mut Vec<(Name, Bytes)>, at: usize, name: &Name, bytes: &mut Bytes)
    // The file with the name is at the position.
    requires kept { AreFolderFiles files.old.items }
    requires here { IsFileAt files.old.items name.now at }
    // The caller gets the old bytes, and the file has the caller's.
    ensures bytes { get (folder_of files.old.items) name.now ≡ Some bytes.new }
    ensures files { let folder = folder_of files.old.items in
        AreFilesOf files.new.items (insert folder name.now bytes.old) }
    // The number of files and the capacity don't change.
    ensures len { vec_len files.new ≡ vec_len files.old }
    ensures capacity { vec_capacity files.new ≡ vec_capacity files.old }
{
    // For the prover: the name is valid, and the length of the bytes fits.
    let (_bytes, _slice) = (name.as_str(), bytes.as_slice());
    mem::swap(&mut files[at].1, bytes);
}
