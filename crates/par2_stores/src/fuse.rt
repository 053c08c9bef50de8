//! A store that passes its first calls on to another store, and then fails, as if the run were stopped there. Each call
//! first takes its fate from `next_call`. Tests stop a run at each of its calls with it.
ghost use Rattle.std.specs.Prelude.{◌≡◌};
ghost use Rattle.par2_stores.specs.Fuse.{fuse, inner_store, fuse_writing_calls, calls_left, change_in, does_work, Becomes, FusesChange};
ghost use Rattle.par2_disk.specs.Stores.{Makes};

use par2_disk::{Count, FolderStore, ReadFault, Store, StoreFault};
use par2_files::Name;
use std::alloc::Global;
use std::mem;

/// A store that passes its first calls on to another store, and fails all later ones. The first call that fails may
/// still do its work.
#[derive(Drop)]
pub struct FuseStore<S: FolderStore> {
    inner: S,
    // How many calls are still passed on.
    left: u64,
    // Whether the first call that fails does its work before it fails. False after that call.
    works: bool,
    failures: Count,
    writing_calls: Count,
}

// A change of a folder, with borrowed names and bytes.
#[derive(Clone, Copy)]
enum BorrowedChange<'a> {
    Write(&'a Name, &'a [u8]),
    Replace(&'a Name, &'a [u8]),
    Rename(&'a Name, &'a Name),
    Remove(&'a Name),
}

// The fate of a call.
#[derive(Clone, Copy, Drop)]
enum Fate {
    // It is passed on.
    Passes,
    // It fails, and does its work first if it is a writing call.
    Works,
    Fails,
}

// Makes the change in the other store, by the one writing call for it. For `make`.
fn make_in<S: FolderStore>(store: &mut S, change: BorrowedChange<'_>) -> Result<(), StoreFault>
    ensures made { Makes S.Store store.old store.new (change_in change.entry) result }
{
    match change {
        BorrowedChange::Write(name, bytes) => store.write(name, bytes),
        BorrowedChange::Replace(name, bytes) => store.replace(name, bytes),
        BorrowedChange::Rename(from, to) => store.rename(from, to),
        BorrowedChange::Remove(name) => store.remove(name),
    }
}

impl<S: FolderStore> FuseStore<S> {
    /// A store that passes `k` calls on to `inner` and fails all later ones. With `works` the first call that fails
    /// does its work all the same, if it is a writing call, like one that was stopped just after its work.
    pub fn new(inner: S, k: u64, works: bool) -> Self
        ensures inner { inner_store result ≡ inner }
        ensures left { calls_left result ≡ k }
        ensures works { does_work result ≡ works }
    {
        FuseStore {
            inner,
            left: k,
            works,
            failures: Count::new(),
            writing_calls: Count::new(),
        }
    }

    /// The other store, as the calls so far left it.
    pub fn into_inner(self) -> S
        ensures { result ≡ inner_store self }
    {
        self.inner
    }

    // Makes no call, but decides what becomes of the next one, which its caller then makes or not: it is passed on if
    // calls are left, and one fewer is left then. Otherwise a failure is counted, and if `works` is set the call does
    // its work before it fails, and `works` is cleared.
    fn next_call(&mut self) -> Fate
        ensures fate { Becomes self.old self.new result }
        ensures inner { inner_store self.new ≡ inner_store self.old }
        ensures writing_calls { fuse_writing_calls self.new ≡ fuse_writing_calls self.old }
    {
        if self.left > 0 {
            self.left -= 1;
            return Fate::Passes;
        }
        self.failures.rise();
        if mem::replace(&mut self.works, false) {
            Fate::Works
        } else {
            Fate::Fails
        }
    }

    // A writing call that makes a change: passes it on, or fails, by its fate. `FusesChange` says which. `fuse` is the
    // ghost state of this store from that of the other.
    fn make(&mut self, change: BorrowedChange<'_>) -> Result<(), StoreFault>
        ensures made { Makes (fuse S.Store) self.old self.new (change_in change.entry) result }
        ensures fused { FusesChange S.Store self.old self.new (change_in change.entry) result }
    {
        self.writing_calls.rise();
        match self.next_call() {
            Fate::Passes => make_in(&mut self.inner, change),
            Fate::Works => {
                let _answer = make_in(&mut self.inner, change);
                Err(StoreFault)
            }
            Fate::Fails => Err(StoreFault),
        }
    }
}

impl<S: FolderStore> Store for FuseStore<S> {
    ghost use Rattle.par2_stores.specs.Fuse.{fuse};

    ghost honest = { (fuse S.Store).honest };

    ghost contents = { (fuse S.Store).contents };

    ghost crash_states = { (fuse S.Store).crash_states };

    ghost failures = { (fuse S.Store).failures };

    ghost impossible = { (fuse S.Store).impossible };

    ghost writing_calls = { (fuse S.Store).writing_calls };
}

// What the trait's contracts don't say (`FusesRead`, `FusesChange`, `FusesJournal`): a call was passed on, or it failed,
// and the first writing call that fails may have done its work.
impl<S: FolderStore> FolderStore for FuseStore<S> {
    ghost use Rattle.par2_spec.specs.Changes.{Write, Replace, Rename, Remove};
    ghost use Rattle.par2_stores.specs.Fuse.{fuse, FusesChange, FusesJournal, FusesRead};
    ghost use Rattle.par2_disk.specs.Stores.{CountsReadFailures, Makes, PutsJournal, ReadsFile, ReadsJournal, ReadsNames};

    fn names(&mut self, alloc: Global) -> Result<Vec<Name>, ReadFault>
        ensures names { ReadsNames (fuse S.Store) self.old self.new result }
        ensures failures { CountsReadFailures (fuse S.Store).failures self.old self.new result }
        ensures fused { FusesRead self.old self.new result }
    {
        match self.next_call() {
            Fate::Passes => self.inner.names(alloc),
            Fate::Works | Fate::Fails => Err(ReadFault::Store),
        }
    }

    fn read(&mut self, alloc: Global, name: &Name) -> Result<Vec<u8>, ReadFault>
        ensures file { ReadsFile (fuse S.Store) self.old self.new name.now result }
        ensures failures { CountsReadFailures (fuse S.Store).failures self.old self.new result }
        ensures fused { FusesRead self.old self.new result }
    {
        match self.next_call() {
            Fate::Passes => self.inner.read(alloc, name),
            Fate::Works | Fate::Fails => Err(ReadFault::Store),
        }
    }

    fn read_journal(&mut self, alloc: Global) -> Result<Option<Vec<u8>>, ReadFault>
        ensures journal { ReadsJournal (fuse S.Store) self.old self.new result }
        ensures failures { CountsReadFailures (fuse S.Store).failures self.old self.new result }
        ensures fused { FusesRead self.old self.new result }
    {
        match self.next_call() {
            Fate::Passes => self.inner.read_journal(alloc),
            Fate::Works | Fate::Fails => Err(ReadFault::Store),
        }
    }

    fn write(&mut self, name: &Name, bytes: &[u8]) -> Result<(), StoreFault>
        ensures made { Makes (fuse S.Store) self.old self.new (Write name.now bytes.now) result }
        ensures fused { FusesChange S.Store self.old self.new (Write name.now bytes.now) result }
    {
        self.make(BorrowedChange::Write(name, bytes))
    }

    fn replace(&mut self, name: &Name, bytes: &[u8]) -> Result<(), StoreFault>
        ensures made { Makes (fuse S.Store) self.old self.new (Replace name.now bytes.now) result }
        ensures fused { FusesChange S.Store self.old self.new (Replace name.now bytes.now) result }
    {
        self.make(BorrowedChange::Replace(name, bytes))
    }

    fn rename(&mut self, from: &Name, to: &Name) -> Result<(), StoreFault>
        ensures made { Makes (fuse S.Store) self.old self.new (Rename from.now to.now) result }
        ensures fused { FusesChange S.Store self.old self.new (Rename from.now to.now) result }
    {
        self.make(BorrowedChange::Rename(from, to))
    }

    fn remove(&mut self, name: &Name) -> Result<(), StoreFault>
        ensures made { Makes (fuse S.Store) self.old self.new (Remove name.now) result }
        ensures fused { FusesChange S.Store self.old self.new (Remove name.now) result }
    {
        self.make(BorrowedChange::Remove(name))
    }

    fn put_journal(&mut self, bytes: &[u8]) -> Result<(), StoreFault>
        ensures put { PutsJournal (fuse S.Store) self.old self.new bytes.now result }
        ensures fused { FusesJournal S.Store self.old self.new bytes.now result }
    {
        self.writing_calls.rise();
        match self.next_call() {
            Fate::Passes => self.inner.put_journal(bytes),
            Fate::Works => {
                let _answer = self.inner.put_journal(bytes);
                Err(StoreFault)
            }
            Fate::Fails => Err(StoreFault),
        }
    }
}
