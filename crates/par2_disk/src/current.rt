//! The current directory, by calls of the runtime. Its effects on the disk are tested, not proved: it isn't `honest`
//! for contracts, so a `DiskStore` over it promises no more than a store that may do anything.
//!
//! Functions that take the runtime's results have contracts. Reading a file to its end (`read_within`), writing one
//! (`written_to`), syncing (`sync_opened`), stamps (`stamp_by`), sorted names from a listing (`names_listed`), and the
//! modes of written files: nobody may read more than the files allow that were read. Modes are the permission bits, such
//! as 0o644.

ghost use Rattle.std.specs.Io.KnownBytes.{Appends};
ghost use Rattle.std.specs.Prelude.{◌≡◌, ◌+◌, ◌⊎◌, ◌↔◌, Err, IfErr, IfOk, IfSome, IsErr, IsErrAnd, IsOk, IsTrue, OnErr, bit_and};
ghost use Rattle.std.specs.Cmp.Lexicographic.{slice_cmp};
ghost use Rattle.std.specs.Fs.{metadata_len};
ghost use Rattle.std.specs.Iterator.{IsFinite};
ghost use Rattle.std.specs.List.Sorted.{IsSorted};
ghost use Rattle.std.specs.Ordering.{nat_cmp};
ghost use Rattle.par2_disk.specs.Runtime.{AreNamesOf, FailsBy, FailsToList, GivesNoMore, IsAllowedAt, IsBeside, IsCounted, IsFoundBy, IsNotedAt, IsReportedAs, IsStampedBy};
ghost use Rattle.par2_disk.specs.Stores.{CountsFailures};

use crate::disk::{Directory, Entry, Found, Location};
use crate::{Count, ReadFault, StoreFault};
use par2_files::{BadName, Name, is_reserved};
use std::alloc::{AllocError, AllocFailed, Global};
use std::fs::{DirEntry, File, FileType, Files, Metadata, OpenFile, TryLockError};
use std::io::{Error, ErrorKind, Read, Write};
use std::os::unix::fs::{MetadataExt, OpenOptionsExt, PermissionsExt};
use std::{fs, io};

// The most reads of a file: if it hasn't ended by then, reading it fails.
const READS: u64 = 1 << 32;

/// The current directory, accessed by the runtime. Nothing is promised of its contents, so each method is one or a
/// few calls of the runtime, and functions with contracts interpret the results.
#[derive(Drop)]
pub struct CurrentDirectory<'r, R: Files<File = File> + AllocGlobal> {
    rt: &'r R,
    // The directory itself, open from the first successful `share` or `hold_alone`; None if unreadable or after a
    // failed `hold_alone`. It is locked, shared or alone, until this is dropped.
    folder: Option<File>,
    // Whether it is held alone.
    is_alone: bool,
    // The journal's stamp when it was last looked at.
    looked: Option<Stamp>,
    modes: Modes,
    // The temporary file, from its write to its sync.
    written: Option<File>,
    failures: Count,
}

// Interprets the result of trying a lock: fails only if another run has it. A file system without locks doesn't stop a
// run.
fn unless_locked(answer: Result<(), TryLockError>) -> io::Result<()>
    ensures { IsErr result ↔ (answer ≡ Err TryLockError.WouldBlock) }
{
    match answer {
        Err(TryLockError::WouldBlock) => Err(Error::from(ErrorKind::WouldBlock)),
        Ok(()) | Err(TryLockError::Error(_)) => Ok(()),
    }
}

// Finds out whether nothing, a file or something else is at a path, from `answer`, the runtime's result for it: an
// error of kind NotFound says that nothing is there, and any other is a fault.
fn found_of(answer: io::Result<Metadata>) -> Result<Found, StoreFault>
    ensures found { IfOk result (IsFoundBy answer) }
    ensures fault { IsErr result → IsErr answer }
{
    match answer {
        Ok(metadata) if metadata.is_file() => Ok(Found::File),
        Ok(_) => Ok(Found::Other),
        Err(error) if error.kind() == ErrorKind::NotFound => Ok(Found::Nothing),
        Err(_) => Err(StoreFault),
    }
}

// Reads the opened file of a location to its end, notes its mode in `modes`, and returns its bytes and its stamp.
// `IsReportedAs`: the fault is Memory exactly for an error of kind OutOfMemory.
fn read_noted(
    opened: io::Result<File>,
    modes: &mut Modes,
    alloc: Global,
    location: Location<'_>,
) -> Result<(Vec<u8>, Stamp), ReadFault>
    ensures { IfErr opened (λ error. IsErrAnd result (IsReportedAs error)) }
{
    let mut file = opened?;
    let metadata = file.metadata()?;
    modes.note_at(location, metadata.permissions().mode())?;
    let bytes = read_within(&mut file, alloc, metadata.len() as usize, READS)?;
    Ok((bytes, Stamp::new(&metadata)))
}

// Whether a hard link failed because the file system supports none, so that a rename is tried. A taken name is another
// error.
fn has_no_links(kind: ErrorKind) -> bool
    ensures { IsTrue result ↔ (kind ≡ ErrorKind.PermissionDenied) ⊎ (kind ≡ ErrorKind.Unsupported) }
{
    matches!(kind, ErrorKind::PermissionDenied | ErrorKind::Unsupported)
}

impl<'r, R: Files<File = File> + AllocGlobal> CurrentDirectory<'r, R> {
    /// The current directory, which is opened and locked only by the first `share` or `hold_alone`.
    pub fn new(rt: &'r R) -> CurrentDirectory<'r, R> {
        CurrentDirectory {
            rt,
            folder: None,
            is_alone: false,
            looked: None,
            modes: Modes {
                allowed: ALL,
                files: Vec::new(rt.alloc()),
                journal: ALL,
            },
            written: None,
            failures: Count::new(),
        }
    }

    // Opens the directory itself with a shared lock, for `share`. It fails if a run that writes has the lock.
    fn open_shared(&mut self) -> io::Result<()>
        ensures { self.new ≡ record self.old { folder = self.new.folder } }
    {
        let folder = fs::open(self.rt, ".")?;
        unless_locked(folder.try_lock_shared())?;
        self.folder = Some(folder);
        Ok(())
    }

    // Locks the directory itself alone, for `hold_alone`; it may be open already, with a shared lock. If that fails, it
    // is closed, and no lock is left.
    fn lock_alone(&mut self) -> io::Result<()>
        ensures alone { IsOk result → IsTrue self.new.is_alone }
        ensures failures { self.new.failures ≡ self.old.failures }
    {
        let folder = match self.folder.take() {
            Some(folder) => folder,
            None => fs::open(self.rt, ".")?,
        };
        unless_locked(folder.try_lock())?;
        self.folder = Some(folder);
        self.is_alone = true;
        Ok(())
    }

    // The last step of a call that locks, writes or syncs: counts a failure, for contracts only, if it returned an error.
    fn counted(&mut self, answer: io::Result<()>) -> Result<(), StoreFault>
        ensures made { IsOk result ↔ IsOk answer }
        ensures failed { OnErr result (self.new.failures.count ≡ self.old.failures.count + 1) }
        ensures failures { CountsFailures (λ it. it.failures.count) self.old self.new result }
        ensures rest { self.new ≡ record self.old { failures = self.new.failures } }
    {
        if answer.is_err() {
            self.failures.rise();
        }
        answer.or(Err(StoreFault))
    }

    // Creates the temporary file with a mode, for `write_temporary`. A temporary file that a stop left is removed and
    // not overwritten, because it may also be linked under a name, and may have another mode.
    fn made_anew(&self, mode: u32) -> io::Result<File> {
        let path = Location::Temporary.path();
        let mut options = File::options();
        options.read(true).write(true).create_new(true).mode(mode);
        match options.open(self.rt, path) {
            Err(error) if error.kind() == ErrorKind::AlreadyExists => {
                fs::remove_file(self.rt, path)?;
                options.open(self.rt, path)
            }
            answer => answer,
        }
    }

    // Moves the temporary file to a path that nothing has, by a link, which fails if something has the path. Without
    // links it is renamed, and another file may get the path between the check and the rename.
    fn move_to_free(&self, path: &str) -> io::Result<()> {
        let temporary = Location::Temporary.path();
        match fs::hard_link(self.rt, temporary, path) {
            Ok(()) => fs::remove_file(self.rt, temporary),
            Err(error) if has_no_links(error.kind()) => match fs::symlink_metadata(self.rt, path) {
                Ok(_) => Err(Error::from(ErrorKind::AlreadyExists)),
                Err(error) if error.kind() == ErrorKind::NotFound => {
                    fs::rename(self.rt, temporary, path)
                }
                Err(error) => Err(error),
            },
            Err(error) => Err(error),
        }
    }
}

impl<'r, R: Files<File = File> + AllocGlobal> Directory for CurrentDirectory<'r, R> {
    ghost use Rattle.std.specs.Prelude.{None, IsTrue, ⊤};
    ghost use Rattle.std.specs.FinMap.{empty};

    ghost state = { λ directory. record {
      honest = ⊥;
      alone = IsTrue directory.is_alone;
      stamp = directory.looked;
      contents = record { files = empty; journal = None };
      temporary = None;
      crash_states = λ _. ⊥;
      temporary_crash_states = λ _. ⊥;
      barred = λ _. ⊥;
      may_fail = λ _. ⊤;
      failures = directory.failures.count;
    } };

    fn share(&mut self) -> Result<(), StoreFault> {
        if self.folder.is_some() {
            return Ok(());
        }
        match self.open_shared() {
            // A directory without read permission can't be opened. Its files can be read, but it can't be written.
            Err(error) if error.kind() == ErrorKind::PermissionDenied => Ok(()),
            answer => self.counted(answer),
        }
    }

    // Raises a shared lock. If that fails, none is left. Succeeds where the file system has no locks.
    fn hold_alone(&mut self) -> Result<(), StoreFault> {
        if self.is_alone {
            return Ok(());
        }
        let answer = self.lock_alone();
        self.counted(answer)
    }

    fn look_at_journal(&mut self) -> Result<Option<Stamp>, StoreFault> {
        self.looked = stamp_by(fs::symlink_metadata(self.rt, Location::Journal.path()))?;
        Ok(self.looked)
    }

    fn names(&self, alloc: Global) -> Result<Vec<Name>, ReadFault> {
        names_listed(fs::read_dir(&self.rt, "."), alloc)
    }

    fn find(&self, location: Location<'_>) -> Result<Found, StoreFault> {
        found_of(fs::symlink_metadata(self.rt, location.path()))
    }

    fn read(&mut self, alloc: Global, at: Location<'_>) -> Result<(Vec<u8>, Stamp), ReadFault> {
        read_noted(fs::open(self.rt, at.path()), &mut self.modes, alloc, at)
    }

    fn write_temporary(&mut self, location: Location<'_>, bytes: &[u8]) -> Result<(), StoreFault> {
        match written_to(self.made_anew(self.modes.mode_at(location)), bytes) {
            Ok(file) => {
                self.written = Some(file);
                Ok(())
            }
            Err(error) => self.counted(Err(error)),
        }
    }

    fn sync_temporary(&mut self) -> Result<(), StoreFault> {
        let written = self.written.take().ok_or(Error::from(ErrorKind::NotFound));
        self.counted(sync_opened(written))
    }

    fn put_temporary(&mut self, location: Location<'_>) -> Result<(), StoreFault> {
        self.counted(fs::rename(self.rt, Location::Temporary.path(), location.path()))
    }

    fn name_temporary(&mut self, location: Location<'_>) -> Result<(), StoreFault> {
        self.counted(self.move_to_free(location.path()))
    }

    fn rename(&mut self, from: &Name, to: &Name) -> Result<(), StoreFault> {
        self.counted(fs::rename(self.rt, from.as_str(), to.as_str()))
    }

    fn remove(&mut self, name: &Name) -> Result<(), StoreFault> {
        self.counted(fs::remove_file(self.rt, name.as_str()))
    }

    fn sync(&mut self) -> Result<(), StoreFault> {
        self.counted(sync_opened(fs::open(self.rt, ".")))
    }
}

// Nothing is promised of the kind that the runtime returns.
impl<R: Files + AllocGlobal> Entry for DirEntry<R> {
    ghost use Rattle.std.specs.Prelude.{⊤};
    ghost use Rattle.std.specs.Fs.{dir_entry_name};

    ghost kind_gives = { λ _ _. ⊤ };

    ghost entry_name = { dir_entry_name };

    fn kind(&self) -> io::Result<FileType> {
        self.file_type()
    }

    fn name(&self) -> &str {
        self.file_name()
    }
}

// The name of the file that an item of a listing is, or None if it is no file or belongs to the history. It fails with
// the item's error, with that of asking its kind, or because the file's name isn't a `Name`: a run must not overlook a
// file.
fn name_in<E: Entry + Drop>(item: io::Result<E>) -> io::Result<Option<Name>>
    ensures name { IfOk result (IsCounted E.Entry item) }
    ensures failed { IfErr result (FailsBy E.Entry item) }
{
    let entry = item?;
    let (kind, name) = (entry.kind()?, entry.name());
    if !kind.is_file() {
        return Ok(None);
    }
    match Name::new(name) {
        Ok(name) => Ok(Some(name)),
        Err(BadName) if is_reserved(name.as_bytes()) => Ok(None),
        Err(BadName) => Err(Error::from(ErrorKind::InvalidFilename)),
    }
}

// The sorted names of the regular files of an opened listing, without the files of the history; or the fault for the
// error of the open or of the first item that fails (`FailsToList`), or for memory that ran out.
fn names_listed<I: Iterator<Item = io::Result<E>> + Drop, E: Entry + Drop>(
    opened: io::Result<I>,
    alloc: Global,
) -> Result<Vec<Name>, ReadFault>
    // The listing can be iterated to its end.
    requires { IfOk opened (λ listing. I.can_next listing × IsFinite (I.remaining listing)) }
    // The result has the names of its files, sorted.
    ensures names { IfOk result (λ list. IfOk opened (AreNamesOf E.Entry I.next_gives list.items)) }
    ensures sorted { IfOk result (λ names. IsSorted (slice_cmp nat_cmp) names.items) }
    ensures unopened { IfErr opened (λ error. IsErrAnd result (IsReportedAs error)) }
    ensures failed { IfErr result (λ fault. IfOk opened (FailsToList E.Entry I.next_gives fault)) }
{
    let listing = opened?;
    let mut names = Vec::new(alloc);
    for item in listing {
        if let Some(name) = name_in(item)? {
            let pushed = names.push(name);
            pushed.map_err(|_: AllocFailed<Name>| ReadFault::Memory)?;
        }
    }
    names.sort_unstable();
    Ok(names)
}

// The most bytes that are read at a time.
const BLOCK: usize = 1 << 16;

impl From<AllocError> for ReadFault {
    ghost use Rattle.par2_disk.specs.declared.store.ReadFault.{ReadFault};

    ghost from_gives = { λ _ fault. fault ≡ ReadFault.Memory };

    // For `?` after an allocation. `From<StoreFault>` is in disk.rt.
    fn from(_error: AllocError) -> Self {
        ReadFault::Memory
    }
}

impl From<Error> for ReadFault {
    ghost from_gives = { λ error fault. IsReportedAs error fault };

    // For `?` after a call of the runtime: an error of kind OutOfMemory is Memory, and any other is Store.
    fn from(error: Error) -> Self {
        match error.kind() {
            ErrorKind::OutOfMemory => ReadFault::Memory,
            _ => ReadFault::Store,
        }
    }
}

/// The bytes that a reader has left, to its end. It fails with Store if that takes more than `reads` reads, so that
/// reading ends whatever the reader does. `size`, a hint, is how many bytes are reserved at first.
pub fn read_within<F: Read>(
    file: &mut F,
    alloc: Global,
    size: usize,
    reads: u64,
) -> Result<Vec<u8>, ReadFault>
    ensures bytes { IfOk result (λ b. IfSome (F.remaining file.old) (λ left. b.items ≡ left)) }
{
    let mut bytes = Vec::with_capacity(alloc, size)?;
    let mut block = Vec::from_elem(alloc, 0u8, size.min(BLOCK - 1) + 1)?;
    for _ in 0..reads {
        match file.read(&mut block) {
            Ok(0) => return Ok(bytes),
            Ok(n) => bytes.extend_from_slice(&block[..n])?,
            Err(error) if error.kind() == ErrorKind::Interrupted => {}
            Err(error) => return Err(error.into()),
        }
    }
    Err(ReadFault::Store)
}

/// Writes all bytes to an opened file, and returns it, to be synced; or the error of the open or of a write.
pub fn written_to<F: Write + Drop>(opened: io::Result<F>, bytes: &[u8]) -> io::Result<F>
    ensures bytes { IfOk result (λ file. IfOk opened (λ before.
        Appends (F.contents before) (F.contents file) bytes.now)) }
    ensures unopened { IsErr opened → IsErr result }
{
    let mut written = opened?;
    written.write_all(bytes)?;
    Ok(written)
}

/// Syncs an opened file or directory (fsync), or returns the error of the open.
pub fn sync_opened<F: OpenFile + Drop>(opened: io::Result<F>) -> io::Result<()>
    ensures { IsErr opened → IsErr result }
{
    opened?.sync_all()
}

/// Which file is at a path, and in what state: device, inode, size and time of the last write. A file that is written
/// under another name and then renamed to the path has another stamp. The stamp of the journal that a run read is
/// compared before its first writing call, to see that no other run has written the folder.
#[derive(Clone, Copy, PartialEq, Eq)]
pub struct Stamp {
    device: u64,
    number: u64,
    size: u64,
    seconds: i64,
    nanoseconds: i64,
}

impl Stamp {
    /// The stamp of a file with this metadata. Contracts know only that the size is the file's.
    pub fn new(metadata: &Metadata) -> Stamp
        ensures { result.size ≡ metadata_len metadata.now }
    {
        Stamp {
            device: metadata.dev(),
            number: metadata.ino(),
            size: metadata.len(),
            seconds: metadata.mtime(),
            nanoseconds: metadata.mtime_nsec(),
        }
    }
}

/// The stamp of the file at a path, `None` if nothing is there, from `answer`, the runtime's result for the path. An
/// error other than NotFound is a fault.
pub fn stamp_by(answer: io::Result<Metadata>) -> Result<Option<Stamp>, StoreFault>
    ensures stamp { IfOk result (IsStampedBy answer) }
    ensures fault { IsErr result → IsErr answer }
{
    match answer {
        Ok(metadata) => Ok(Some(Stamp::new(&metadata))),
        Err(error) if error.kind() == ErrorKind::NotFound => Ok(None),
        Err(_) => Err(StoreFault),
    }
}

// The most permissions that a new file may have.
const ALL: u32 = 0o666;

// `permissions`, limited to `others` unless a file of this mode has the permission `read`. For `note_at`.
fn unless_readable(permissions: u32, mode: u32, read: u32, others: u32) -> u32
    ensures closed { bit_and mode read ≡ 0 → result ≡ bit_and permissions others }
    ensures open { (bit_and mode read ≡ 0 → ⊥) → result ≡ permissions }
{
    if mode & read == 0 {
        permissions & others
    } else {
        permissions
    }
}

/// The modes of the files of a directory that were read, and of the journal.
#[derive(Drop)]
pub struct Modes {
    // The permissions that may be given beside all of them.
    allowed: u32,
    files: Vec<(Name, u32)>,
    journal: u32,
}

#[tactic(auto, using(crate::proofs::Steps::permissions))]
impl Modes {
    /// Notes the mode of the file that was read at a location, for `mode_at`. Err if memory runs out; then outputs may
    /// have no more permissions than before.
    pub(crate) fn note_at(&mut self, location: Location<'_>, mode: u32) -> Result<(), AllocError>
        ensures within { GivesNoMore self.new.allowed self.old.allowed }
        ensures beside { IsOk result → IsBeside self.old.allowed self.new.allowed mode }
        ensures location { IsOk result → IsNotedAt location.entry mode self.old self.new }
    {
        let closed = unless_readable(self.allowed, mode, 0o040, !0o070);
        let allowed = unless_readable(closed, mode, 0o004, !0o007);
        match location {
            Location::File(name) => self.files.push((name.copied(), mode))?,
            Location::Journal => self.journal &= mode,
            Location::Temporary => {}
        }
        self.allowed = allowed;
        Ok(())
    }

    /// The mode for a file that is written at a location: 0o666, limited to what may be given beside the files that
    /// were read, and to the mode of the file that was read at the location, if any.
    pub(crate) fn mode_at(&self, location: Location<'_>) -> u32
        ensures all { GivesNoMore result 0o666 }
        ensures allowed { GivesNoMore result self.now.allowed }
        ensures location { IsAllowedAt self.now location.entry result }
    {
        let mut permissions = self.allowed & ALL;
        match location {
            Location::File(name) => {
                for file in &self.files {
                    if file.0 == *name {
                        permissions &= file.1;
                    }
                }
                permissions
            }
            Location::Journal => permissions & self.journal,
            Location::Temporary => permissions,
        }
    }
}
