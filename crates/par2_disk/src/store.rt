//! Why a call of a store fails, and the ghost state of stores for contracts: traits and definitions cite it, so it stands
//! apart from them.

ghost use Rattle.std.specs.Prelude.{◌≡◌, ℕ, ◌+◌};
ghost use Rattle.std.specs.Borrow.{ftrue};
ghost use Rattle.par2_spec.specs.Prelude.{Contents};

use std::marker::Model;
use thiserror::Error;

/// Why a reading call fails.
#[derive(Debug, Error, Clone, Copy, PartialEq, Eq)]
pub enum ReadFault {
    /// Any cause but memory: no lock, unreadable, too many reads.
    #[error("the folder could not be read")]
    Store,
    #[error("out of memory")]
    Memory,
}

/// A writing call failed.
#[derive(Debug, Error, Clone, Copy, PartialEq, Eq)]
#[error("the folder could not be written")]
pub struct StoreFault;

/// The ghost state of a store. It costs nothing at run time.
pub trait Store {
    /// Whether only runs of this program write it, and reads return what was written.
    ghost honest: { Self → Type 0 };

    /// The files and the journal.
    ghost contents: { Self → Contents };

    /// The contents that a power cut may leave now.
    ghost crash_states: { Self → Contents → Type 0 };

    /// The number of its failures.
    ghost failures: { Self → ℕ };

    /// The number of calls that can't be done: to read, replace, remove or rename a name that no file has, or to write
    /// or rename to a name that is taken.
    ghost impossible: { Self → ℕ };

    /// The number of writing calls, including those that failed.
    ghost writing_calls: { Self → ℕ };
}

/// A ghost count.
#[derive(Drop)]
pub struct Count {
    pub ghost count: { ℕ },
}

impl Model for Count {
    ghost also_owns = { λ _. ftrue };
}

impl Count {
    /// The count before any call: zero. It exists for contracts only, and takes no memory.
    pub fn new() -> Count
        ensures { result.count ≡ 0 }
    {
        Count {}
    }

    // The count after one more, for `rise`. For the prover: a new ghost value, which no code computes.
    fn next(&self) -> Count
        ensures { result.count ≡ self.now.count + 1 }
    {
        Count {}
    }

    /// Counts one more.
    pub fn rise(&mut self)
        ensures { self.new.count ≡ self.old.count + 1 }
    {
        *self = self.next();
    }
}
