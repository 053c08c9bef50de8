//! A store in memory, for tests and for users of the libraries. Each writing call is counted; a write takes its memory
//! with `make_place`, and `change` applies any change.
use par2_disk::{Count, FolderStore, ReadFault, Store, StoreFault};
use par2_files::{Bytes, Change, Folder, Name};
use par2_spec::Result;
use std::alloc::{AllocError, Global};

/// A folder and a journal in memory. The store is honest, and a writing call fails if memory runs out. A power cut is
/// not modelled: its only crash state is its contents.
#[derive(Drop)]
pub struct MemoryStore {
    alloc: Global,
    folder: Folder,
    journal: Option<Bytes>,
    failures: Count,
    // Calls that can't be done.
    impossible: Count,
    writing_calls: Count,
}

impl MemoryStore {
    ghost use Rattle.std.specs.Prelude.{◌≡◌, ◌+◌, ◌<◌, ◌≤◌, [], ◌∷◌, None, IfOk, IsErr, IsOk, IsTrue, IsFalse, OnOk, OnErr};
    ghost use Rattle.std.specs.FinMap.{empty};
    ghost use Rattle.par2_spec.specs.Changes.{is_applicable, places_taken};
    ghost use Rattle.par2_spec.specs.Stores.{with_change};
    ghost use Rattle.par2_stores.specs.Memory.{memory_contents, memory_failures, memory_impossible, memory_writing_calls};
    ghost use Rattle.par2_files.specs.Folders.{change_of};

    /// A store without files and without a journal, with no failures yet.
    pub fn new(alloc: Global) -> Self
        ensures files { (memory_contents result).files ≡ empty }
        ensures journal { (memory_contents result).journal ≡ None }
        ensures failures { memory_failures result ≡ 0 }
        ensures impossible { memory_impossible result ≡ 0 }
        ensures writing_calls { memory_writing_calls result ≡ 0 }
    {
        MemoryStore {
            alloc,
            folder: Folder::new(alloc),
            journal: None,
            failures: Count::new(),
            impossible: Count::new(),
            writing_calls: Count::new(),
        }
    }

    // Counts a failure for lack of memory, or of a call that can't be done, and returns the fault to report.
    fn fault(&mut self) -> StoreFault
        ensures failures { self.new.failures.count ≡ self.old.failures.count + 1 }
        ensures rest { self.new ≡ record self.old { failures = self.new.failures } }
    {
        self.failures.rise();
        StoreFault
    }

    // Counts a failure of a call that can't be done, such as a read of a name without a file, and returns the fault.
    fn refuse(&mut self) -> StoreFault
        ensures contents { memory_contents self.new ≡ memory_contents self.old }
        ensures failures { self.new.failures.count ≡ self.old.failures.count + 1 }
        ensures impossible { self.new.impossible.count ≡ self.old.impossible.count + 1 }
        ensures writing_calls { self.new.writing_calls ≡ self.old.writing_calls }
    {
        self.impossible.rise();
        self.fault()
    }

    // For a write: copies the bytes, and reserves a place for the file if none is vacant. It reserves as many places as
    // there are files, so that a series of writes moves each file only a few times.
    fn make_place(&mut self, bytes: &[u8]) -> Result<Bytes>
        // The files, the journal and all counts stay.
        ensures files { self.new.folder.files ≡ self.old.folder.files }
        ensures rest { self.new ≡ record self.old { folder = self.new.folder } }
        // It returns a copy of the bytes, and there is a place for a file.
        ensures copy { IfOk result (λ copy. copy ≡ bytes.now) }
        ensures place { OnOk result (0 < self.new.folder.vacant) }
    {
        let copy = Bytes::copy_of(self.alloc, bytes)?;
        if self.folder.vacant() == 0 {
            self.folder.reserve(self.folder.len().max(1))?;
        }
        Ok(copy)
    }

    // The last step of a writing call: applies a change that there is a place for, or counts a call that can't be done.
    #[tactic(auto, unfolding(par2_spec::specs::Changes::change_refusal, par2_spec::specs::Changes::is_applicable))]
    fn change(&mut self, mut change: Change) -> Result<(), StoreFault>
        requires { places_taken (change_of change ∷ []) ≤ self.old.folder.vacant }
        // An applicable change is made, and any other is refused and changes nothing.
        ensures made { IsTrue (is_applicable (memory_contents self.old).files (change_of change))
            → IsOk result
            × (memory_contents self.new ≡ with_change (memory_contents self.old) (change_of
            change)) }
        ensures refused { IsFalse (is_applicable
            (memory_contents self.old).files (change_of change)) → IsErr result
            × (memory_contents self.new ≡ memory_contents self.old) }
        // A refusal counts as a failure and as a call that can't be done. Writing calls are counted by the caller.
        ensures cause { OnErr result (memory_failures self.new ≡ memory_failures self.old + 1) }
        ensures steady { OnOk result (memory_failures self.new ≡ memory_failures self.old) }
        ensures possible { OnOk result (memory_impossible self.new ≡ memory_impossible self.old) }
        ensures impossible { OnErr result (memory_impossible self.new
            ≡ memory_impossible self.old + 1) }
        ensures writing_calls { memory_writing_calls self.new ≡ memory_writing_calls self.old }
    {
        match self.folder.apply(&mut change) {
            Ok(()) => Ok(()),
            Err(_) => Err(self.refuse()),
        }
    }
}

impl Store for MemoryStore {
    ghost use Rattle.std.specs.Prelude.{◌≡◌};
    ghost use Rattle.par2_stores.specs.Memory.{memory_contents, memory_failures, memory_impossible, memory_writing_calls};

    ghost honest = { λ _. Unit {0} };

    ghost contents = { memory_contents };

    ghost crash_states = { λ store left. left ≡ memory_contents store };

    ghost failures = { memory_failures };

    ghost impossible = { memory_impossible };

    ghost writing_calls = { memory_writing_calls };
}

impl FolderStore for MemoryStore {
    fn names(&mut self, _alloc: Global) -> Result<Vec<Name>, ReadFault> {
        Ok(self.folder.names()?)
    }

    fn read(&mut self, alloc: Global, name: &Name) -> Result<Vec<u8>, ReadFault> {
        match self.folder.get(name) {
            Some(bytes) => Ok(bytes.to_vec(alloc)?),
            None => {
                let _fault = self.refuse();
                Err(ReadFault::Store)
            }
        }
    }

    fn read_journal(&mut self, alloc: Global) -> Result<Option<Vec<u8>>, ReadFault> {
        match &self.journal {
            None => Ok(None),
            Some(bytes) => Ok(Some(bytes.as_slice().to_vec(alloc)?)),
        }
    }

    #[tactic(auto, unfolding(par2_spec::specs::Changes::change_refusal, par2_spec::specs::Changes::is_applicable))]
    fn write(&mut self, name: &Name, bytes: &[u8]) -> Result<(), StoreFault> {
        self.writing_calls.rise();
        match self.make_place(bytes) {
            Ok(copy) => self.change(Change::Write(name.copied(), copy)),
            Err(AllocError) => Err(self.fault()),
        }
    }

    #[tactic(auto, unfolding(par2_spec::specs::Changes::change_refusal, par2_spec::specs::Changes::is_applicable))]
    fn replace(&mut self, name: &Name, bytes: &[u8]) -> Result<(), StoreFault> {
        self.writing_calls.rise();
        match Bytes::copy_of(self.alloc, bytes) {
            Ok(copy) => self.change(Change::Replace(name.copied(), copy)),
            Err(AllocError) => Err(self.fault()),
        }
    }

    #[tactic(auto, unfolding(par2_spec::specs::Changes::change_refusal, par2_spec::specs::Changes::is_applicable))]
    fn rename(&mut self, from: &Name, to: &Name) -> Result<(), StoreFault> {
        self.writing_calls.rise();
        self.change(Change::Rename(from.copied(), to.copied()))
    }

    #[tactic(auto, unfolding(par2_spec::specs::Changes::change_refusal, par2_spec::specs::Changes::is_applicable))]
    fn remove(&mut self, name: &Name) -> Result<(), StoreFault> {
        self.writing_calls.rise();
        self.change(Change::Remove(name.copied()))
    }

    fn put_journal(&mut self, bytes: &[u8]) -> Result<(), StoreFault> {
        self.writing_calls.rise();
        match Bytes::copy_of(self.alloc, bytes) {
            Ok(copy) => {
                self.journal = Some(copy);
                Ok(())
            }
            Err(AllocError) => Err(self.fault()),
        }
    }
}
