//! What a folder and a decoded journal decide without a session. `ready` tries the entries of a settled journal on the
//! names of the folder's files, and so does `opens_as_is`, for a verify. `way_back` finds by the folder's fingerprint how
//! many changes of a halfway command were made, and `go_back` takes them back in memory.

ghost use Rattle.std.specs.Prelude.{◌≡◌, ◌≤◌, ◌<◌, ◌-◌, IfErr, IfOk, IfSome, IsTrue, OnErr, OnOk, Ok, None, drop, length, map, position, true, false};
ghost use Rattle.std.specs.List.{sum_by};
ghost use Rattle.std.specs.Str.{bytes_eq};
ghost use Rattle.par2_spec.specs.Prelude.{is_valid, leads};
ghost use Rattle.par2_journal_format.specs.Journals.{AreCounted, IsSealed, changes_in};
ghost use Rattle.par2_journal_format.specs.Walking.{EntriesWalk, FailsTest, HasNoPlace, LeadBack, OpensAsIs, WentForth, go_through, place_among, session_at};

use crate::{HalfwayPart, decode};
use par2_files::{Change, Changes, Checkpoints, Folder, Name, copies_of, fingerprints};
use par2_spec::{JournalFault, Result};
use std::alloc::{AllocError, Global};
use std::collections::BTreeMap;

// Changes and entries are tried on the names of files alone.

// The names of a folder's files after some changes.
#[derive(Drop)]
pub struct Names<'a> {
    folder: &'a Folder,
    // For each name that a change touched, whether it has a file.
    touched: BTreeMap<&'a Name, bool>,
}

impl<'a> Names<'a> {
    ghost use Rattle.std.specs.Prelude.{◌≡◌, OnOk, IfOk};
    ghost use Rattle.par2_spec.specs.Changes.{are_applicable, effect, effects, is_applicable};
    ghost use Rattle.par2_spec.specs.Folders.{Folder as Files};
    ghost use Rattle.par2_files.specs.Folders.{change_of};
    ghost use Rattle.par2_journal_format.specs.Journals.{changes_in};
    ghost use Rattle.par2_journal_format.specs.Walking.{AreNamesOf, IsSet, IsTried, names_in};

    // The names before any change.
    fn of(alloc: Global, folder: &'a Folder) -> Names<'a>
        ensures { AreNamesOf folder.now.files (names_in result) }
    {
        let touched = BTreeMap::new(alloc);
        Names { folder, touched }
    }

    // Whether the name has a file after the changes so far.
    fn has(&self, name: &'a Name) -> bool
        ensures { result ≡ names_in self.now name.now }
    {
        match self.touched.get(&name) {
            Some(there) => *there,
            None => self.folder.get(name).is_some(),
        }
    }

    // Records that the name has a file now (`there`), or that it has none; other names stay (`IsSet`).
    fn set(&mut self, name: &'a Name, there: bool) -> Result<()>
        ensures { OnOk result (IsSet (names_in self.old) (names_in self.new) name.now there) }
    {
        self.touched.insert(name, there)?;
        Ok(())
    }

    // Whether the change can be made after the changes so far, by the names alone. `AreNamesOf`: the files have these
    // names.
    #[tactic(auto, unfolding(par2_spec::specs::Changes::is_applicable))]
    fn can_take(&self, change: &'a Change) -> bool
        ensures { (files : Files) → AreNamesOf files (names_in self.now) →
            result ≡ is_applicable files (change_of change.now) }
    {
        match change {
            Change::Write(name, _) => !self.has(name),
            Change::Replace(name, _) | Change::Remove(name) => self.has(name),
            Change::Rename(from, to) => self.has(from) && !self.has(to),
        }
    }

    // Records which names have a file after a change that can be made.
    fn take(&mut self, change: &'a Change) -> Result<()>
        ensures { (files : Files) → AreNamesOf files (names_in self.old) →
            OnOk result (AreNamesOf (effect files (change_of change.now)) (names_in self.new)) }
    {
        match change {
            Change::Write(name, _) => self.set(name, true),
            Change::Replace(name, _) => self.set(name, true),
            Change::Rename(from, to) => {
                self.set(from, false)?;
                self.set(to, true)
            }
            Change::Remove(name) => self.set(name, false),
        }
    }

    // Records the changes in order, up to the first that can't be made. Returns whether all could be. `IsTried`: the
    // result is right, and if it is true, the names are those after all changes.
    fn go_along(&mut self, changes: &'a [Change]) -> Result<bool>
        ensures { let changes = changes_in changes.now in
            let new = names_in self.new in
            (files : Files) → AreNamesOf files (names_in self.old) →
            IfOk result (IsTried (are_applicable files changes) (effects files changes) new) }
    {
        for change in changes {
            if !self.can_take(change) {
                return Ok(false);
            }
            self.take(change)?;
        }
        Ok(true)
    }
}

// Whether the entries' changes can be made one after the other, each entry's on the folder that the one before it
// leaves. They are tried on the folder's names. Opening tries the undos of a journal, and then its redos.
fn can_walk(alloc: Global, folder: &Folder, entries: &[&Changes]) -> Result<bool>
    ensures { IfOk result (λ x. x ≡ leads folder.now.files (map (λ e. e.now) entries.now)) }
{
    let mut names = Names::of(alloc, folder);
    for entry in entries {
        if !names.go_along(entry.as_slice())? {
            return Ok(false);
        }
    }
    Ok(true)
}

// Whether a session on the folder can have these entries and this cursor: all undos can be applied, the newest first,
// and from the same folder all redos.
fn are_valid(alloc: Global, folder: &Folder, entries: &[Changes], cursor: usize) -> Result<bool>
    requires { cursor ≤ length entries.now }
    ensures { IfOk result (λ x. x ≡ is_valid (session_at folder.now.files cursor entries.now)) }
{
    let undos: Vec<&Changes> = entries[..cursor].iter().rev().collect(alloc)?;
    let redos: Vec<&Changes> = entries[cursor..].iter().collect(alloc)?;
    Ok(can_walk(alloc, folder, &undos)? && can_walk(alloc, folder, &redos)?)
}

// How many changes the entries have in all: none adds more than one file, so room for that many files is enough.
fn change_count(entries: &[Changes]) -> usize
    requires { AreCounted entries.now }
    ensures { result ≡ sum_by length entries.now }
{
    let mut count = 0;
    for entry in entries {
        count += entry.len();
    }
    count
}

/// Reserves room for all changes of the entries, and returns whether the entries are valid.
pub fn ready(alloc: Global, folder: &mut Folder, entries: &[Changes], cursor: usize) -> Result<bool>
    // A usize counts the changes, so that room can be reserved for them.
    requires cursor { cursor ≤ length entries.now }
    requires counted { AreCounted entries.now }
    // The folder's files are as before, even if memory runs out.
    ensures files { folder.new.files ≡ folder.old.files }
    ensures vacant { folder.old.vacant ≤ folder.new.vacant }
    // The result says whether the entries are valid. If they are, the folder has room for every
    // undo and redo.
    ensures valid { let session = session_at folder.old.files cursor entries.now in
        IfOk result (λ x. x ≡ is_valid session) }
    ensures walks { result ≡ Ok true → EntriesWalk folder.new cursor entries.now }
{
    folder.reserve(change_count(entries))?;
    are_valid(alloc, folder, entries, cursor)
}

/// For a verify: whether a folder with this journal opens as a session on the folder as it is. Its files aren't
/// digested, so that session has the journal's history or a new one. False says nothing: the folder has to be opened.
pub fn opens_as_is(alloc: Global, folder: &Folder, bytes: &[u8]) -> Result<bool>
    ensures opens { result ≡ Ok true → OpensAsIs folder.now.files bytes.now }
    ensures unsealed { ¬ (IsSealed bytes.now) → result ≡ Ok false }
{
    let journal = match decode(alloc, bytes) {
        Ok(journal) => journal,
        Err(JournalFault::Memory) => return Err(AllocError),
        Err(_) => return Ok(false),
    };
    if journal.halfway.is_some() {
        return Ok(false);
    }
    are_valid(alloc, folder, &journal.entries, journal.cursor)
}

// The way back of a halfway command.

/// Applies the changes `way` to the folder in memory if they lead through folders with the fingerprints `wanted`, one
/// after each change; otherwise the journal is invalid. `WentForth`: `way` becomes the changes that lead forward again.
pub fn go_back(
    alloc: Global,
    folder: &mut Folder,
    way: &mut [Change],
    wanted: &[[u8; 16]],
) -> Result<(), JournalFault>
    requires { length wanted.now ≡ length way.old }
    ensures leads { OnOk result (IsTrue (go_through folder.old.files way.old wanted.now)) }
    ensures went { OnOk result (WentForth folder.old.files folder.new way.old way.new) }
    ensures refused { IfErr result (FailsTest (go_through folder.old.files way.old wanted.now)) }
    ensures files { OnErr result (folder.new.files ≡ folder.old.files) }
{
    folder.reserve(way.len())?;
    if !Names::of(alloc, folder).go_along(way)? {
        return Err(JournalFault::JournalInvalid);
    }
    let found = fingerprints(alloc, folder, way, &Checkpoints::none(alloc), &[])?;
    if &found.along[1..] != wanted {
        return Err(JournalFault::JournalInvalid);
    }
    folder.apply_all(way);
    Ok(())
}

// The first index of the fingerprint in `known`, which has those before a command and after each of its changes: this
// many changes count as made.
fn find_fingerprint(known: &[[u8; 16]], print: &[u8; 16]) -> Option<usize>
    ensures found { result ≡ position (bytes_eq print.now) known.now }
    ensures within { IfSome result (λ at. at < length known.now) }
{
    known
        .iter()
        .position(|one| print.as_slice() == one.as_slice())
}

// The fingerprints to go back by: those before the folder's own, the last one first. None if the folder's isn't among
// them. `first` is the one before the command, and `others` are those after each of its changes. `LeadBack` says so.
fn fingerprints_back(
    alloc: Global,
    folder: &Folder,
    first: [u8; 16],
    others: &[[u8; 16]],
) -> Result<Option<Vec<[u8; 16]>>>
    ensures none { result ≡ Ok None → place_among folder.now.files first others.now ≡ None }
    ensures back { IfOk result (λ x. IfSome x (LeadBack folder.now.files first others.now)) }
{
    let print = folder.fingerprint()?;
    let mut known = Vec::new(alloc);
    known.push(first)?;
    known.extend_from_slice(others)?;
    let Some(done) = find_fingerprint(&known, &print) else {
        return Ok(None);
    };
    known.truncate(done);
    known.reverse();
    Ok(Some(known))
}

/// The fingerprints to go back by, the last one first, and copies of the changes that lead through them, for the store.
/// `first` is the fingerprint before the command. `HasNoPlace`: the folder's isn't in the journal, or memory ran out.
pub fn way_back(
    alloc: Global,
    folder: &Folder,
    first: [u8; 16],
    part: &HalfwayPart,
) -> Result<(Vec<[u8; 16]>, Vec<Change>), JournalFault>
    requires { length part.now.fingerprints.items ≡ length part.now.back }
    ensures wanted { let others = part.now.fingerprints.items in
        IfOk result (λ x. LeadBack folder.now.files first others x.0) }
    ensures back { let all = part.now.back in
        IfOk result (λ x. changes_in x.1.items ≡ drop (length all - length x.0.items) all) }
    ensures refused { IfErr result (HasNoPlace folder.now.files first part.now.fingerprints.items) }
{
    let Some(wanted) = fingerprints_back(alloc, folder, first, &part.fingerprints)? else {
        return Err(JournalFault::FolderChanged { halfway: true });
    };
    let start = part.back.len() - wanted.len();
    let back = copies_of(alloc, &part.back.as_slice()[start..])?;
    Ok((wanted, back))
}
