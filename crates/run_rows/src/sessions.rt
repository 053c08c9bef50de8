//! Actions that are performed on one session.

use crate::rows::show;
use crate::stops::failing;
use anyhow::{Error, Result};
use par2_disk::FolderStore;
use par2_stores::MemoryStore;
use par2_tool::{Action, Command, CreateArgs, Outcome, Session, open_store, perform};
use std::alloc::{AllocError, Global};

// The calls of opening a store with one file, of a create, of showing the store's contents, and of the undo's first
// journal.
const CALLS_BEFORE_REMOVAL: u64 = 11;

// Performs a command, and prints its result.
fn step<S: FolderStore>(
    rt: &HostRuntime,
    store: &mut S,
    session: &mut Session,
    command: &Command,
) -> Result<()> {
    match perform(rt.alloc(), store, session, command) {
        Ok(Outcome::Done(steps)) => println!(rt; "performed: {}", steps.len())?,
        Ok(Outcome::Report(report)) => println!(rt; "verified: {:?}", report.verdict())?,
        Err(fault) => println!(rt; "refused: {fault:?}")?,
    }
    println!(rt;
        "  undos {}, redos {}",
        session.undo_depth(),
        session.redo_depth()
    )?;
    show(rt, store)
}

// The arguments of a create of an index over the file `a`.
fn index_args(alloc: Global) -> Result<CreateArgs, AllocError> {
    Ok(CreateArgs {
        slice: 4,
        count: 0,
        first: 0,
        base: String::from_str(alloc, "t.par2")?,
        inputs: vec![in alloc; String::from_str(alloc, "a")?]?,
        overwrite: false,
    })
}

// Opens a store.
fn open<S: FolderStore>(rt: &HostRuntime, store: &mut S) -> Result<Session> {
    let started = open_store(rt.alloc(), store).map_err(|_| Error::msg(
        "the store can't be opened",
    ))?;
    println!(rt; "history dropped: {}", started.dropped)?;
    Ok(started.session)
}

// Opens a store, and performs a create and two undos.
fn create_then_undo<S: FolderStore>(rt: &HostRuntime, store: &mut S) -> Result<()> {
    let mut session = open(rt, store)?;
    let create = Command::Act(Action::Create(index_args(rt.alloc())?));
    step(rt, store, &mut session, &create)?;
    step(rt, store, &mut session, &Command::Act(Action::Undo))?;
    step(rt, store, &mut session, &Command::Act(Action::Undo))
}

/// A create and two undos.
pub fn session(rt: &HostRuntime, store: &mut MemoryStore) -> Result<()> {
    create_then_undo(rt, store)
}

/// A create and two undos, on a store that fails at the call with which the first undo removes the index.
pub fn failing_session(rt: &HostRuntime, store: &mut MemoryStore, works: bool) -> Result<()> {
    let mut failing = failing(rt.alloc(), store, CALLS_BEFORE_REMOVAL, works)?;
    create_then_undo(rt, &mut failing)?;
    *store = failing.into_inner();
    Ok(())
}
