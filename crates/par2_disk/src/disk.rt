//! The trait of stores, which keep a flat folder and a journal, and the store over a directory. Reading calls share the
//! directory with other readers. A writing call holds it alone and checks, once, that the journal is the one that was
//! read (`hold`), makes one change (`write_new`, `replace_file`, `rename_file`, `remove_file`, `write_at`), and is
//! counted (`counted_write`).
//!
//! The trait of directories has the few calls that a `DiskStore` makes. To write a file it calls `write_temporary`,
//! `sync_temporary`, then `put_temporary` over a file or `name_temporary` at a free location, and `sync`.

ghost use Rattle.std.specs.Prelude.{◌≡◌, ◌+◌, false, true, IfOk, IsErr, IsFalse, List, OnOk, Result, ℕ};
ghost use Rattle.std.specs.declared.fs.attrs.FileType.{FileType};
ghost use Rattle.std.specs.declared.io.Error.{Error};
ghost use Rattle.par2_spec.specs.Prelude.{Write, Replace, Rename, Remove};
ghost use Rattle.par2_disk.specs.Directories.{path_of, over, AddsTemporary, Changes, DirectoryState, FailsToReadFile, Finds, FindsAs, HoldsDirectory, KeepsNames, KeepsTemporary, ListsNames, MakesTemporary, MovesFile, PutsTemporary, ReadsAt, RemembersJournal, Stays, WritesAt, WritesTemporary};
ghost use Rattle.par2_disk.specs.Stores.{CountsFailures, CountsReadFailures, Makes, OnlyReads, PutsJournal, ReadsFile, ReadsJournal, ReadsNames};

use crate::current::{CurrentDirectory, Stamp};
use crate::{Count, ReadFault, Store, StoreFault};
use par2_files::{Change, Folder, Name};
use std::alloc::Global;
use std::fs::{File, FileType, Files};
use std::io;

/// A flat folder of files, and a journal beside it. The contracts about its contents hold if the store is honest: only
/// runs of this program write it, and reads return what was written. A writing call that fails has done all of its
/// work or none. After a writing call that returns Ok, a power cut leaves what the call wrote. After one that fails,
/// or during one, a power cut leaves either the contents before the call or those that the call writes.
pub trait FolderStore: Store {
    /// The names of the files, sorted.
    fn names(&mut self, alloc: Global) -> Result<Vec<Name>, ReadFault>
        ensures names { ReadsNames Self.Store self.old self.new result }
        ensures failures { CountsReadFailures Self.failures self.old self.new result };

    /// The bytes of a file. It fails if no file has the name.
    fn read(&mut self, alloc: Global, name: &Name) -> Result<Vec<u8>, ReadFault>
        ensures file { ReadsFile Self.Store self.old self.new name.now result }
        ensures failures { CountsReadFailures Self.failures self.old self.new result };

    /// The journal, if there is one.
    fn read_journal(&mut self, alloc: Global) -> Result<Option<Vec<u8>>, ReadFault>
        ensures journal { ReadsJournal Self.Store self.old self.new result }
        ensures failures { CountsReadFailures Self.failures self.old self.new result };

    /// Writes a new file. It does nothing and fails if a file has the name.
    fn write(&mut self, name: &Name, bytes: &[u8]) -> Result<(), StoreFault>
        ensures made { Makes Self.Store self.old self.new (Write name.now bytes.now) result };

    /// Replaces the bytes of a file. It does nothing and fails if no file has the name.
    fn replace(&mut self, name: &Name, bytes: &[u8]) -> Result<(), StoreFault>
        ensures made { Makes Self.Store self.old self.new (Replace name.now bytes.now) result };

    /// Renames a file. It does nothing and fails if no file has the first name, or one has the second.
    fn rename(&mut self, from: &Name, to: &Name) -> Result<(), StoreFault>
        ensures made { Makes Self.Store self.old self.new (Rename from.now to.now) result };

    /// Removes a file. It does nothing and fails if no file has the name.
    fn remove(&mut self, name: &Name) -> Result<(), StoreFault>
        ensures made { Makes Self.Store self.old self.new (Remove name.now) result };

    /// Writes the whole journal, over an existing one.
    fn put_journal(&mut self, bytes: &[u8]) -> Result<(), StoreFault>
        ensures put { PutsJournal Self.Store self.old self.new bytes.now result };
}

/// Reads the folder of a store into memory, as the first step of opening it: the names, and then each file in their
/// order. If a store that isn't honest lists a name twice, the bytes that were read first count.
pub fn read_folder<S: FolderStore>(alloc: Global, store: &mut S) -> Result<Folder, ReadFault>
    ensures files { S.honest store.old → IfOk result (λ f. f.files ≡ (S.contents store.old).files) }
    ensures reads { OnlyReads S.Store store.old store.new }
    ensures failures { CountsReadFailures S.failures store.old store.new result }
    ensures possible { S.honest store.old → S.impossible store.new ≡ S.impossible store.old }
{
    let names = store.names(alloc)?;
    let mut folder = Folder::new(alloc);
    folder.reserve(names.len())?;
    for name in &names {
        let bytes = store.read(alloc, name)?;
        let _taken = folder.apply(&mut Change::Write(name.copied(), bytes.into()));
    }
    Ok(folder)
}

/// Where a store looks: a file, the journal, or the temporary file that either is first written to.
#[derive(Clone, Copy, Drop)]
pub enum Location<'a> {
    File(&'a Name),
    Journal,
    Temporary,
}

impl<'a> Location<'a> {
    /// The path of the location.
    pub fn path(self) -> &'a str
        ensures { result.now ≡ path_of self.entry }
    {
        match self {
            Location::File(name) => name.as_str(),
            Location::Journal => ".par2undo",
            Location::Temporary => ".par2undo.tmp",
        }
    }
}

/// What is at a location.
#[derive(Clone, Copy, Drop)]
pub enum Found {
    Nothing,
    /// A regular file.
    File,
    /// A folder, a link or a device.
    Other,
}

/// A flat directory, which may also have entries that aren't files. The contracts hold if it is honest: only runs of
/// this program write it, and reads return what was written. A writing call says what a power cut may leave, and a
/// sync makes the contents durable, so that a power cut leaves nothing else. A run shares the directory with others
/// while it reads, and holds it alone before its first writing call.
pub trait Directory {
    /// The directory as contracts see it. It costs nothing at run time.
    ghost state: { Self → DirectoryState };

    /// Shares the directory with other readers until the run ends. It fails if a run that writes holds the directory.
    fn share(&mut self) -> Result<(), StoreFault>
        ensures stays { Stays (Self.state self.old) (Self.state self.new) }
        ensures counts { CountsFailures (λ it. (Self.state it).failures) self.old self.new result };

    /// Holds the directory alone until the run ends. It fails if another run holds the directory.
    fn hold_alone(&mut self) -> Result<(), StoreFault>
        ensures stays { Stays (Self.state self.old) (Self.state self.new) }
        ensures alone { OnOk result (Self.state self.new).alone }
        ensures counts { CountsFailures (λ it. (Self.state it).failures) self.old self.new result };

    /// The journal's stamp, or None without a journal, while no other run can change it. It is compared with the stamp
    /// of the journal that the run read.
    fn look_at_journal(&mut self) -> Result<Option<Stamp>, StoreFault>
        requires { (Self.state self.old).alone }
        ensures stays { Stays (Self.state self.old) (Self.state self.new) }
        ensures stamp { IfOk result (λ stamp. (Self.state self.new).stamp ≡ stamp) }
        ensures fault { IsErr result → (Self.state self.old).may_fail ReadFault.Store }
        ensures unfailed { (Self.state self.new).failures ≡ (Self.state self.old).failures };

    /// The names of the files, sorted, without the journal and the temporary file.
    fn names(&self, alloc: Global) -> Result<Vec<Name>, ReadFault>
        ensures { ListsNames (Self.state self.now) result };

    /// Finds out whether nothing, a file or something else is at a location. Err if this can't be found out.
    fn find(&self, location: Location<'_>) -> Result<Found, StoreFault>
        ensures { Finds (Self.state self.now) location.entry result };

    /// The bytes of the file at a location, and its stamp.
    fn read(&mut self, alloc: Global, at: Location<'_>) -> Result<(Vec<u8>, Stamp), ReadFault>
        ensures { ReadsAt (Self.state self.old) (Self.state self.new) at.entry result };

    /// Writes the temporary file, which is later moved to the location. Nothing but a file may be at its path: a link
    /// would lead elsewhere.
    fn write_temporary(&mut self, location: Location<'_>, bytes: &[u8]) -> Result<(), StoreFault>
        requires { (Self.state self.old).alone }
        ensures { WritesTemporary (Self.state self.old) (Self.state self.new) bytes.now result };

    /// Syncs the temporary file, which was just written, so that a power cut leaves its bytes whole.
    fn sync_temporary(&mut self) -> Result<(), StoreFault>
        requires { (Self.state self.old).alone }
        ensures { KeepsTemporary (Self.state self.old) (Self.state self.new) result };

    /// Renames the temporary file to a location, over an existing file. It would also replace what isn't a file.
    fn put_temporary(&mut self, location: Location<'_>) -> Result<(), StoreFault>
        requires { (Self.state self.old).alone }
        ensures { PutsTemporary (Self.state self.old) (Self.state self.new) location.entry result };

    /// Moves the temporary file to a free location. It does nothing and fails if something is there.
    fn name_temporary(&mut self, location: Location<'_>) -> Result<(), StoreFault>
        requires { (Self.state self.old).alone }
        ensures { AddsTemporary (Self.state self.old) (Self.state self.new) location.entry result };

    /// Renames a file to a name that nothing has; the caller has checked that.
    fn rename(&mut self, from: &Name, to: &Name) -> Result<(), StoreFault>
        requires { (Self.state self.old).alone }
        ensures { MovesFile Self.state self.old self.new (Rename from.now to.now) result };

    /// Removes a file. The removal is durable only after a `sync`.
    fn remove(&mut self, name: &Name) -> Result<(), StoreFault>
        requires { (Self.state self.old).alone }
        ensures { MovesFile Self.state self.old self.new (Remove name.now) result };

    /// Syncs the directory, so that the names of the files and of the journal are durable.
    fn sync(&mut self) -> Result<(), StoreFault>
        requires { (Self.state self.old).alone }
        ensures { KeepsNames (Self.state self.old) (Self.state self.new) result };
}

/// An entry of a directory.
pub trait Entry {
    /// The results that `kind` may return.
    ghost kind_gives: { Self → Result FileType Error → Type 0 };

    /// The bytes of its name.
    ghost entry_name: { Self → List ℕ };

    /// Whether it is a file, a folder or something else, or an error if that is unknown.
    fn kind(&self) -> io::Result<FileType>
        ensures { kind_gives self.now result };

    /// Its name, which need not be a `Name`.
    fn name(&self) -> &str
        ensures { result.now ≡ entry_name self.now };
}

/// The regular files of a directory, and the journal. Folders, links and devices are not files: they aren't listed,
/// and a call that meets one fails and changes nothing. The store is honest if the directory is.
#[derive(Drop)]
pub struct DiskStore<D: Directory> {
    directory: D,
    // The journal's stamp when it was read, if it was read.
    seen: Option<Option<Stamp>>,
    // Whether the directory is held alone and the journal, if it was read, was found unchanged then.
    is_entered: bool,
    failures: Count,
    // Failures of calls that can't be done, as far as the store has seen that.
    impossible: Count,
    writing_calls: Count,
}

impl<'r, R: Files<File = File> + AllocGlobal> DiskStore<CurrentDirectory<'r, R>> {
    /// The current directory, accessed by the runtime, with no failures yet.
    pub fn new(rt: &'r R) -> DiskStore<CurrentDirectory<'r, R>>
        ensures failures { result.failures.count ≡ 0 }
        ensures impossible { result.impossible.count ≡ 0 }
        ensures writing_calls { result.writing_calls.count ≡ 0 }
        ensures unentered { IsFalse result.is_entered }
    {
        DiskStore {
            directory: CurrentDirectory::new(rt),
            seen: None,
            is_entered: false,
            failures: Count::new(),
            impossible: Count::new(),
            writing_calls: Count::new(),
        }
    }
}

impl From<StoreFault> for ReadFault {
    ghost use Rattle.par2_disk.specs.declared.store.ReadFault.{ReadFault};

    ghost from_gives = { λ _ fault. fault ≡ ReadFault.Store };

    // For `?` after a call of the directory: one that can't be shared or looked at can't be read.
    fn from(_fault: StoreFault) -> Self {
        ReadFault::Store
    }
}

impl<D: Directory> DiskStore<D> {
    // Called first by each writing call: holds the directory alone, and checks once that the journal has the stamp of
    // the one that was read, if it was read. If it hasn't, another run has written the folder meanwhile.
    fn hold(&mut self) -> Result<(), StoreFault>
        ensures { HoldsDirectory D.state self.old self.new result }
    {
        self.directory.hold_alone()?;
        if !self.is_entered
            && let Some(seen) = self.seen
            && self.directory.look_at_journal()? != seen
        {
            return Err(StoreFault);
        }
        self.is_entered = true;
        Ok(())
    }

    // Counts a call that can't be done, such as a read of a name without a file, and returns its fault.
    fn refuse(&mut self) -> StoreFault
        ensures rest { self.new ≡ record self.old { impossible = self.new.impossible } }
        ensures impossible { self.new.impossible.count ≡ self.old.impossible.count + 1 }
    {
        self.impossible.rise();
        StoreFault
    }

    // Checks that a file has the name, for a call that needs one. If none has it, the call can't be done.
    fn find_file(&mut self, name: &Name) -> Result<(), StoreFault>
        ensures { FindsAs D.state self.old self.new name.now true result }
    {
        match self.directory.find(Location::File(name))? {
            Found::File => Ok(()),
            Found::Nothing | Found::Other => Err(self.refuse()),
        }
    }

    // Checks that nothing has the name, for a write or a rename to it. If a file has it, the call can't be done.
    fn find_nothing(&mut self, name: &Name) -> Result<(), StoreFault>
        ensures { FindsAs D.state self.old self.new name.now false result }
    {
        match self.directory.find(Location::File(name))? {
            Found::Nothing => Ok(()),
            Found::File => Err(self.refuse()),
            // No file has the name, but it is not free either.
            Found::Other => Err(StoreFault),
        }
    }

    // Writes the temporary file, which is later moved to the location and gets the mode for it, and syncs it.
    fn make_temporary(&mut self, location: Location<'_>, bytes: &[u8]) -> Result<(), StoreFault>
        requires { (D.state self.old.directory).alone }
        ensures { MakesTemporary D.state self.old self.new bytes.now result }
    {
        if let Found::Other = self.directory.find(Location::Temporary)? {
            return Err(StoreFault);
        }
        self.directory.write_temporary(location, bytes)?;
        self.directory.sync_temporary()
    }

    // Writes a file or the journal at a location, over the one that is there, by way of the temporary file. The bytes
    // are synced before the rename, and the directory is synced before this returns Ok.
    fn write_at(&mut self, location: Location<'_>, bytes: &[u8]) -> Result<(), StoreFault>
        requires { (D.state self.old.directory).alone }
        ensures { WritesAt D.state self.old self.new location.entry bytes.now result }
    {
        if let Found::Other = self.directory.find(location)? {
            return Err(StoreFault);
        }
        self.make_temporary(location, bytes)?;
        self.directory.put_temporary(location)?;
        self.directory.sync()
    }

    // Holds the directory with other readers, and reads a file.
    fn read_file(&mut self, alloc: Global, name: &Name) -> Result<Vec<u8>, ReadFault>
        ensures file { ReadsFile (over D.state) self.old self.new name.now result }
        ensures reason { FailsToReadFile D.state self.old self.new name.now result }
        ensures rest { let impossible = self.new.impossible in
            self.new ≡ record self.old { directory = self.new.directory; impossible = impossible } }
    {
        self.directory.share()?;
        self.find_file(name)?;
        let (bytes, _stamp) = self.directory.read(alloc, Location::File(name))?;
        Ok(bytes)
    }

    // Holds the directory with other readers, reads the journal if there is one, and remembers its stamp. Anything that
    // isn't a file can't be read.
    fn take_journal(&mut self, alloc: Global) -> Result<Option<Vec<u8>>, ReadFault>
        ensures bytes { ReadsJournal (over D.state) self.old self.new result }
        ensures journal { RemembersJournal D.state self.old self.new result }
        ensures failures { self.new.failures ≡ self.old.failures }
    {
        self.directory.share()?;
        match self.directory.find(Location::Journal)? {
            Found::Nothing => {
                self.seen = Some(None);
                Ok(None)
            }
            Found::File => {
                let (bytes, stamp) = self.directory.read(alloc, Location::Journal)?;
                self.seen = Some(Some(stamp));
                Ok(Some(bytes))
            }
            Found::Other => Err(ReadFault::Store),
        }
    }

    // The last step of a reading call, which passes its result on: counts a failure if it returned one. Running out of
    // memory isn't a failure of the store.
    fn counted_read<T>(&mut self, answer: Result<T, ReadFault>) -> Result<T, ReadFault>
        ensures answer { result ≡ answer }
        ensures failures { CountsReadFailures (over D.state).failures self.old self.new result }
        ensures rest { self.new ≡ record self.old { failures = self.new.failures } }
    {
        if let Err(ReadFault::Store) = &answer {
            self.failures.rise();
        }
        answer
    }

    // The last step of a writing call, which passes its result on: counts it, and a failure if it returned one.
    fn counted_write(&mut self, answer: Result<(), StoreFault>) -> Result<(), StoreFault>
        ensures answer { result ≡ answer }
        ensures failures { CountsFailures (over D.state).failures self.old self.new result }
        ensures counted { self.new.writing_calls.count ≡ self.old.writing_calls.count + 1 }
        ensures rest { let calls = self.new.writing_calls in
            self.new ≡ record self.old { failures = self.new.failures; writing_calls = calls } }
    {
        self.writing_calls.rise();
        if answer.is_err() {
            self.failures.rise();
        }
        answer
    }
}

// The changes, each made while the directory is held alone. Only their proofs unfold what a change does.
#[tactic(auto, unfolding(par2_spec::specs::Changes::is_applicable, par2_spec::specs::Changes::effect))]
impl<D: Directory> DiskStore<D> {
    // Writes a file under a name that nothing has. If another file gets the name meanwhile, it isn't overwritten.
    fn write_new(&mut self, name: &Name, bytes: &[u8]) -> Result<(), StoreFault>
        requires { (D.state self.old.directory).alone }
        ensures { Changes D.state self.old self.new (Write name.now bytes.now) result }
    {
        self.find_nothing(name)?;
        self.make_temporary(Location::File(name), bytes)?;
        self.directory.name_temporary(Location::File(name))?;
        self.directory.sync()
    }

    // Replaces the bytes of a file, while the directory is held alone. If no file has the name, the call can't be done.
    fn replace_file(&mut self, name: &Name, bytes: &[u8]) -> Result<(), StoreFault>
        requires { (D.state self.old.directory).alone }
        ensures { Changes D.state self.old self.new (Replace name.now bytes.now) result }
    {
        self.find_file(name)?;
        self.write_at(Location::File(name), bytes)
    }

    // Renames a file to a name that nothing has, while the directory is held alone, and syncs the directory.
    fn rename_file(&mut self, from: &Name, to: &Name) -> Result<(), StoreFault>
        requires { (D.state self.old.directory).alone }
        ensures { Changes D.state self.old self.new (Rename from.now to.now) result }
    {
        self.find_file(from)?;
        self.find_nothing(to)?;
        self.directory.rename(from, to)?;
        self.directory.sync()
    }

    // Removes a file, while the directory is held alone, and syncs the directory.
    fn remove_file(&mut self, name: &Name) -> Result<(), StoreFault>
        requires { (D.state self.old.directory).alone }
        ensures { Changes D.state self.old self.new (Remove name.now) result }
    {
        self.find_file(name)?;
        self.directory.remove(name)?;
        self.directory.sync()
    }
}

impl<D: Directory> Store for DiskStore<D> {
    ghost use Rattle.par2_disk.specs.Directories.{over};

    ghost honest = { (over D.state).honest };

    ghost contents = { (over D.state).contents };

    ghost crash_states = { (over D.state).crash_states };

    ghost failures = { (over D.state).failures };

    ghost impossible = { (over D.state).impossible };

    ghost writing_calls = { (over D.state).writing_calls };
}

// What the trait's contracts don't say: which error of the directory makes a call fail (`FailsToRead` and the like), and
// that what is remembered of the journal stays or is its new stamp (`RemembersJournal`).
impl<D: Directory> FolderStore for DiskStore<D> {
    ghost use Rattle.par2_spec.specs.Changes.{Write, Replace, Rename, Remove};
    ghost use Rattle.par2_disk.specs.Directories.{over, CanMake, CanPut, Fails, FailsToRead, FailsToReadFile, RemembersJournal};
    ghost use Rattle.par2_disk.specs.Stores.{CountsReadFailures, Makes, PutsJournal, ReadsFile, ReadsJournal, ReadsNames};

    fn names(&mut self, alloc: Global) -> Result<Vec<Name>, ReadFault>
        ensures names { ReadsNames (over D.state) self.old self.new result }
        ensures failures { CountsReadFailures (over D.state).failures self.old self.new result }
        ensures seen { self.new.seen ≡ self.old.seen }
        ensures entered { self.new.is_entered ≡ self.old.is_entered }
        ensures reason { FailsToRead D.state self.old self.new result }
    {
        let answer = match self.directory.share() {
            Ok(()) => self.directory.names(alloc),
            Err(StoreFault) => Err(ReadFault::Store),
        };
        self.counted_read(answer)
    }

    fn read(&mut self, alloc: Global, name: &Name) -> Result<Vec<u8>, ReadFault>
        ensures file { ReadsFile (over D.state) self.old self.new name.now result }
        ensures failures { CountsReadFailures (over D.state).failures self.old self.new result }
        ensures seen { self.new.seen ≡ self.old.seen }
        ensures entered { self.new.is_entered ≡ self.old.is_entered }
        ensures reason { FailsToReadFile D.state self.old self.new name.now result }
    {
        let answer = self.read_file(alloc, name);
        self.counted_read(answer)
    }

    fn read_journal(&mut self, alloc: Global) -> Result<Option<Vec<u8>>, ReadFault>
        ensures bytes { ReadsJournal (over D.state) self.old self.new result }
        ensures failures { CountsReadFailures (over D.state).failures self.old self.new result }
        ensures journal { RemembersJournal D.state self.old self.new result }
    {
        let answer = self.take_journal(alloc);
        self.counted_read(answer)
    }

    fn write(&mut self, name: &Name, bytes: &[u8]) -> Result<(), StoreFault>
        ensures made { Makes (over D.state) self.old self.new (Write name.now bytes.now) result }
        ensures reason { Fails D.state self.old self.new (CanMake (Write name.now bytes.now)) result }
    {
        let answer = match self.hold() {
            Ok(()) => self.write_new(name, bytes),
            Err(fault) => Err(fault),
        };
        self.counted_write(answer)
    }

    fn replace(&mut self, name: &Name, bytes: &[u8]) -> Result<(), StoreFault>
        ensures made { Makes (over D.state) self.old self.new (Replace name.now bytes.now) result }
        ensures reason { Fails D.state self.old self.new (CanMake (Replace name.now bytes.now)) result }
    {
        let answer = match self.hold() {
            Ok(()) => self.replace_file(name, bytes),
            Err(fault) => Err(fault),
        };
        self.counted_write(answer)
    }

    fn rename(&mut self, from: &Name, to: &Name) -> Result<(), StoreFault>
        ensures made { Makes (over D.state) self.old self.new (Rename from.now to.now) result }
        ensures reason { Fails D.state self.old self.new (CanMake (Rename from.now to.now)) result }
    {
        let answer = match self.hold() {
            Ok(()) => self.rename_file(from, to),
            Err(fault) => Err(fault),
        };
        self.counted_write(answer)
    }

    fn remove(&mut self, name: &Name) -> Result<(), StoreFault>
        ensures made { Makes (over D.state) self.old self.new (Remove name.now) result }
        ensures reason { Fails D.state self.old self.new (CanMake (Remove name.now)) result }
    {
        let answer = match self.hold() {
            Ok(()) => self.remove_file(name),
            Err(fault) => Err(fault),
        };
        self.counted_write(answer)
    }

    fn put_journal(&mut self, bytes: &[u8]) -> Result<(), StoreFault>
        ensures put { PutsJournal (over D.state) self.old self.new bytes.now result }
        ensures reason { Fails D.state self.old self.new (CanPut Location.Journal) result }
    {
        let answer = match self.hold() {
            Ok(()) => self.write_at(Location::Journal, bytes),
            Err(fault) => Err(fault),
        };
        self.counted_write(answer)
    }
}
