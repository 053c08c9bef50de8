//! Runs on a store that has memory for only some reading calls.
ghost use Rattle.std.specs.Prelude.{◌≡◌};

use crate::files::copy_of;
use crate::rows::{show, status_reported};
use anyhow::Result;
use par2_disk::{FolderStore, ReadFault, Store, StoreFault};
use par2_files::Name;
use par2_stores::MemoryStore;
use std::alloc::Global;

// More reading calls than a run below makes of its store.
const MANY_CALLS: u64 = 20;

const OUT_OF_MEMORY: u8 = 8;

// A store in memory that runs out of memory after its first reading calls. Nothing is promised of its contents, because
// it also runs out of memory for a name that no file has.
#[derive(Drop)]
struct WantingStore {
    inner: MemoryStore,
    left: u64,
}

impl WantingStore {
    // A store that passes `k` reading calls on.
    fn new(inner: MemoryStore, k: u64) -> WantingStore {
        WantingStore { inner, left: k }
    }

    // Returns the inner store.
    fn into_inner(self) -> MemoryStore {
        self.inner
    }

    // Whether there is memory for one more reading call.
    fn has_memory(&mut self) -> bool
        ensures { self.new.inner ≡ self.old.inner }
    {
        if self.left == 0 {
            return false;
        }
        self.left -= 1;
        true
    }
}

impl Store for WantingStore {
    ghost use Rattle.std.specs.Prelude.{None};
    ghost use Rattle.std.specs.FinMap.{empty};
    ghost use Rattle.par2_stores.specs.Memory.{memory_failures, memory_impossible, memory_writing_calls};

    ghost honest = { λ _. ⊥ };

    ghost contents = { λ _. record { files = empty; journal = None } };

    ghost crash_states = { λ _ _. ⊥ };

    ghost failures = { λ store. memory_failures store.inner };

    ghost impossible = { λ store. memory_impossible store.inner };

    ghost writing_calls = { λ store. memory_writing_calls store.inner };
}

impl FolderStore for WantingStore {
    fn names(&mut self, alloc: Global) -> Result<Vec<Name>, ReadFault> {
        if self.has_memory() {
            return self.inner.names(alloc);
        }
        Err(ReadFault::Memory)
    }

    fn read(&mut self, alloc: Global, name: &Name) -> Result<Vec<u8>, ReadFault> {
        if self.has_memory() {
            return self.inner.read(alloc, name);
        }
        Err(ReadFault::Memory)
    }

    fn read_journal(&mut self, alloc: Global) -> Result<Option<Vec<u8>>, ReadFault> {
        if self.has_memory() {
            return self.inner.read_journal(alloc);
        }
        Err(ReadFault::Memory)
    }

    fn write(&mut self, name: &Name, bytes: &[u8]) -> Result<(), StoreFault> {
        self.inner.write(name, bytes)
    }

    fn replace(&mut self, name: &Name, bytes: &[u8]) -> Result<(), StoreFault> {
        self.inner.replace(name, bytes)
    }

    fn rename(&mut self, from: &Name, to: &Name) -> Result<(), StoreFault> {
        self.inner.rename(from, to)
    }

    fn remove(&mut self, name: &Name) -> Result<(), StoreFault> {
        self.inner.remove(name)
    }

    fn put_journal(&mut self, bytes: &[u8]) -> Result<(), StoreFault> {
        self.inner.put_journal(bytes)
    }
}

/// Runs words on a copy of the store that runs out of memory from the first of its reading calls on, then from the
/// second, and so on until no run is refused.
pub fn want_memory(rt: &HostRuntime, store: &mut MemoryStore, line: &str) -> Result<()> {
    for passed in 0..MANY_CALLS {
        println!(rt; "{passed} reading calls, then out of memory")?;
        let mut wanting = WantingStore::new(copy_of(rt.alloc(), store)?, passed);
        let status = status_reported(rt, &mut wanting, line)?;
        show(rt, &mut wanting.into_inner())?;
        if status != OUT_OF_MEMORY {
            break;
        }
    }
    Ok(())
}
