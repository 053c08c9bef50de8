//! One command on an opened store and its session. `perform` prepares it in memory (`Session::prepare`, then
//! `Session::journals`), writes it to the store (`write_down`), and commits it to the session (`Session::commit`).
//!
//! `write_down` puts the halfway journal (`begin`), makes the changes (`write_change`), and puts the final journal.
//! Taking back a halfway command calls it too.

ghost use Rattle.std.specs.Prelude.{IfOk, IfErr};
ghost use Rattle.par2_spec.specs.Prelude.{command_of};
ghost use Rattle.par2_tool.specs.OpenedStores.{KeepsStore, ActsOn, IsPerformed, IsRefused, RefusesAtOnce, failure_for, Begins, WritesDown};
ghost use Rattle.par2_disk.specs.Stores.{Makes};
ghost use Rattle.par2_files.specs.Folders.{change_of};

use par2_disk::{FolderStore, StoreFault};
use par2_files::Change;
use par2_journal::{Journals, Report, Session, SessionFault, Steps, ready_changes_apply};
use par2_spec::{Command, Failure, Fault};
use std::alloc::{AllocError, Global};
use thiserror::Error;

/// The outcome of an accepted command.
#[derive(Drop)]
pub enum Outcome {
    /// Of a verify.
    Report(Report),
    /// Of any other command: the steps of its changes.
    Done(Steps),
}

/// Why a command was not performed.
#[derive(Debug, Error, Clone, Copy, Drop)]
pub enum PerformFault {
    #[error(transparent)]
    Session(SessionFault),
    #[error("a file could not be read or written")]
    Store,
}

impl From<AllocError> for PerformFault {
    ghost use Rattle.std.specs.Prelude.{◌≡◌};
    ghost use Rattle.par2_spec.specs.declared.Fault.TheVariants.{Memory};
    ghost use Rattle.par2_journal.specs.declared.commands.SessionFault.TheVariants.{Plan};
    ghost use Rattle.par2_tool.specs.declared.performing.PerformFault.TheVariants as refused;

    ghost from_gives = { λ _ fault. fault ≡ refused.Session (Plan Memory) };

    // For `?` after an allocation.
    fn from(_: AllocError) -> Self {
        PerformFault::Session(SessionFault::Plan(Fault::Memory))
    }
}

impl From<PerformFault> for Failure {
    ghost use Rattle.std.specs.Prelude.{◌≡◌};
    ghost use Rattle.par2_tool.specs.OpenedStores.{failure_for};

    ghost from_gives = { λ fault failure. failure ≡ failure_for fault };

    // The failure that a run prints if the command isn't performed.
    fn from(fault: PerformFault) -> Self {
        match fault {
            PerformFault::Session(SessionFault::Plan(fault)) => Failure::Refused(fault),
            PerformFault::Session(SessionFault::NothingToUndo) => Failure::NothingToUndo,
            PerformFault::Session(SessionFault::NothingToRedo) => Failure::NothingToRedo,
            PerformFault::Store => Failure::Store,
        }
    }
}

/// Performs a command. A verify returns its report and changes neither store nor session. Any other command is prepared
/// in memory; its changes are then made in the store between two journals, the session is advanced, and the steps are
/// returned. A refusal leaves store and session as they were. After [`PerformFault::Store`] drop the session and open
/// the store again: it opens as the session from before the command or from after it. So does what a power cut leaves
/// at any moment.
pub fn perform<S: FolderStore>(
    _alloc: Global,
    store: &mut S,
    session: &mut Session,
    command: &Command,
) -> Result<Outcome, PerformFault>
    // The session becomes the one after the action, whose changes lead to its folder, with that action's outcome.
    ensures done { IfOk result (IsPerformed (command_of command.now) session.old session.new) }
    // A refusal has a cause and leaves the session as it was. Refusals that need no memory come before any is
    // allocated.
    ensures refused { IfErr result (IsRefused (command_of command.now) session.old session.new) }
    ensures at_once { RefusesAtOnce (command_of command.now) session.old result }
    // What is done to the store, also by a failure or a power cut, and by how many writing calls. A refusal and a verify
    // do nothing to it.
    ensures stored { ActsOn S.Store command.now store.old store.new session.old session.new result }
    // No failure but the store's is counted.
    ensures keeps { KeepsStore S.Store failure_for store.old store.new result }
{
    // For the prover: a store left by a stop opens only if the session's entries can be walked, which the contract of
    // `folder` says. `ready_changes_apply` says that the prepared changes apply.
    let _folder = session.folder();
    ready_changes_apply();
    let action = match command {
        Command::Verify { base, extras } => {
            return match session.verify(base.as_str(), extras.as_slice()) {
                Ok(report) => Ok(Outcome::Report(report)),
                Err(fault) => Err(PerformFault::Session(SessionFault::Plan(fault))),
            };
        }
        Command::Act(action) => action,
    };
    let mut prepared = match session.prepare(action) {
        Ok(prepared) => prepared,
        Err(fault) => return Err(PerformFault::Session(fault)),
    };
    let journals = session.journals(&mut prepared)?;
    match write_down(store, &journals, session.changes(&prepared)) {
        Ok(()) => Ok(Outcome::Done(session.commit(prepared))),
        Err(_) => Err(PerformFault::Store),
    }
}

// Makes one change with one writing call. An impossible change fails, so a file that the listing left out is never
// overwritten.
#[tactic(auto, unfolding(par2_spec::specs::Changes::effect))]
fn write_change<S: FolderStore>(store: &mut S, change: &Change) -> Result<(), StoreFault>
    ensures { Makes S.Store store.old store.new (change_of change.now) result }
{
    match change {
        Change::Write(name, bytes) => store.write(name, bytes.as_slice()),
        Change::Replace(name, bytes) => store.replace(name, bytes.as_slice()),
        Change::Rename(from, to) => store.rename(from, to),
        Change::Remove(name) => store.remove(name),
    }
}

// Puts the halfway journal, if there is one, so that what a stop leaves can be taken back. There is none if nothing is
// changed, or if the changes take a command back: its halfway journal is in the store already.
fn begin<S: FolderStore>(store: &mut S, halfway: &Option<Vec<u8>>) -> Result<(), StoreFault>
    ensures { Begins S.Store store.old store.new halfway.now result }
{
    match halfway {
        Some(bytes) => store.put_journal(bytes),
        None => Ok(()),
    }
}

/// Makes changes in a store, in order, between two journals: the halfway one, if there is one, and the final one.
/// `IsStoppedAt`: a failure or a power cut leaves the store as it was before, after some of the changes, or after all.
pub fn write_down<S: FolderStore>(
    store: &mut S,
    journals: &Journals,
    changes: &[Change],
) -> Result<(), StoreFault>
    ensures { WritesDown S.Store store.old store.new journals.now changes.now result }
{
    begin(store, &journals.halfway)?;
    for change in changes {
        write_change(store, change)?;
    }
    store.put_journal(&journals.after)
}
