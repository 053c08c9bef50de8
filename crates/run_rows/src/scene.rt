//! Makes a call, and prints the state before and after it.

use anyhow::Result;
use par2_folder::{ReadFault, StoreFault};
use par2_journal::{Fault, JournalFault, SessionFault};
use par2_recovery::{RebuildFault, RecordFault};
use std::alloc::{AllocError, Global};

/// Why a call failed.
#[derive(Clone, Copy, PartialEq, Eq, Drop)]
pub enum Refusal {
    Memory,
    Other,
}

impl From<AllocError> for Refusal {
    fn from(_: AllocError) -> Refusal {
        Refusal::Memory
    }
}

impl From<RebuildFault> for Refusal {
    fn from(fault: RebuildFault) -> Refusal {
        match fault {
            RebuildFault::Memory => Refusal::Memory,
            RebuildFault::NotRepairable { .. } => Refusal::Other,
        }
    }
}

impl From<RecordFault> for Refusal {
    fn from(fault: RecordFault) -> Refusal {
        match fault {
            RecordFault::Memory => Refusal::Memory,
            RecordFault::DuplicateId => Refusal::Other,
        }
    }
}

impl From<ReadFault> for Refusal {
    fn from(fault: ReadFault) -> Refusal {
        match fault {
            ReadFault::Memory => Refusal::Memory,
            ReadFault::Store => Refusal::Other,
        }
    }
}

// A store in memory fails only for memory, if the call is possible.
impl From<StoreFault> for Refusal {
    fn from(_: StoreFault) -> Refusal {
        Refusal::Memory
    }
}

impl From<Fault> for Refusal {
    fn from(fault: Fault) -> Refusal {
        match fault {
            Fault::Memory => Refusal::Memory,
            _ => Refusal::Other,
        }
    }
}

impl From<SessionFault> for Refusal {
    fn from(fault: SessionFault) -> Refusal {
        match fault {
            SessionFault::Plan(fault) => Refusal::from(fault),
            _ => Refusal::Other,
        }
    }
}

impl From<JournalFault> for Refusal {
    fn from(fault: JournalFault) -> Refusal {
        match fault {
            JournalFault::Memory => Refusal::Memory,
            _ => Refusal::Other,
        }
    }
}

/// The inputs of calls, and their results.
pub trait Scene {
    /// Makes the call of this name.
    fn call(&mut self, alloc: Global, name: &str) -> Result<(), Refusal>;

    /// Prints the state.
    fn show(&mut self, rt: &HostRuntime) -> Result<()>;
}

fn said(outcome: Result<(), Refusal>) -> &'static str {
    match outcome {
        Ok(()) => "returned",
        Err(Refusal::Memory) => "out of memory",
        Err(Refusal::Other) => "refused",
    }
}

// Makes a call, and returns whether it ran out of memory.
fn is_wanting<S: Scene>(rt: &HostRuntime, scene: &mut S, name: &str) -> Result<bool> {
    println!(rt; "> {name}")?;
    let answer = scene.call(rt.alloc(), name);
    println!(rt; "{}", said(answer))?;
    scene.show(rt)?;
    Ok(answer == Err(Refusal::Memory))
}

/// Makes a call, and again if it ran out of memory, and prints the state before and after it.
pub fn tell<S: Scene + Drop>(rt: &HostRuntime, mut scene: S, name: &str) -> Result<()> {
    scene.show(rt)?;
    if is_wanting(rt, &mut scene, name)? {
        is_wanting(rt, &mut scene, name)?;
    }
    Ok(())
}
