//! Calls of folders and sessions, each in a function with few clauses or none. For the prover: it sees only the types
//! of such a call and those clauses.
ghost use Rattle.std.specs.Prelude.{IfOk};
ghost use Rattle.par2_journal.specs.Sessions.{Fits, HasPrintsOf};

use par2_folder::{Change, Changes, Folder, Name};
use par2_journal::{
    Action, CreateArgs, Fault, Halfway, JournalFault, Journals, Next, Opened, Prepared, Session,
    SessionFault, Steps,
};
use par2_plan::plan_create;
use std::alloc::{AllocError, Global};

pub fn applied(folder: &mut Folder, change: &mut Change) -> bool {
    folder.apply(change).is_ok()
}

/// Reserves space for this many more files.
pub fn reserve(folder: &mut Folder, places: usize) -> Result<(), AllocError> {
    folder.reserve(places)
}

pub fn bytes_in<'a>(folder: &'a Folder, name: &Name) -> Option<&'a [u8]> {
    folder.get(name)
}

pub fn fingerprint(folder: &Folder) -> Result<[u8; 16], AllocError> {
    folder.fingerprint()
}

pub fn plan_of(alloc: Global, folder: &Folder, args: &CreateArgs) -> Result<Changes, Fault> {
    plan_create(alloc, folder, args)
}

pub fn new_session(alloc: Global, folder: Folder) -> Session {
    Session::new(alloc, folder)
}

pub fn create(session: &mut Session, args: &CreateArgs) -> Result<Steps, Fault> {
    session.create(args)
}

/// Repairs with only the index `t.par2`.
pub fn repair(session: &mut Session, purge: bool) -> Result<Steps, Fault> {
    session.repair("t.par2", &[], purge)
}

pub fn purge(session: &mut Session) -> Result<Steps, Fault> {
    session.purge("t.par2")
}

pub fn prepare(session: &mut Session, action: &Action) -> Result<Prepared, SessionFault>
    ensures fits { IfOk result (λ prepared. Fits prepared session.new) }
    ensures prints { IfOk result (HasPrintsOf session.new) }
{
    session.prepare(action)
}

/// Whether one change was prepared, with one step.
pub fn is_one_change(session: &Session, prepared: &Prepared) -> bool
    requires { Fits prepared.now session.now }
{
    session.changes(prepared).len() == 1 && prepared.steps().len() == 1
}

pub fn journals_of(session: &mut Session, prepared: &mut Prepared) -> Result<Journals, AllocError>
    requires fits { Fits prepared.old session.old }
    requires prints { HasPrintsOf session.old prepared.old }
    ensures { Fits prepared.new session.new }
{
    session.journals(prepared)
}

/// Returns the number of steps.
pub fn commit(session: &mut Session, prepared: Prepared) -> usize
    requires { Fits prepared session.old }
{
    session.commit(prepared).len()
}

/// Returns whether there was something to undo.
pub fn undo(session: &mut Session) -> bool {
    session.undo().is_ok()
}

pub fn redo(session: &mut Session) -> bool {
    session.redo().is_ok()
}

/// Returns the number of actions that were done.
pub fn play(session: &mut Session, actions: &[Action]) -> usize {
    session.play(actions)
}

/// The numbers of commands that a session can undo and redo.
pub fn depths_of(session: &Session) -> (usize, usize) {
    (session.undo_depth(), session.redo_depth())
}

pub fn folder_in(session: &Session) -> &Folder {
    session.folder()
}

/// The number of files that the session's folder takes without allocating.
pub fn vacant_in(session: &Session) -> usize {
    session.folder().vacant()
}

pub fn encode(session: &Session) -> Result<Vec<u8>, AllocError> {
    session.encode()
}

pub fn open(alloc: Global, folder: Folder, bytes: &[u8]) -> Result<Opened, (JournalFault, Folder)> {
    Session::open(alloc, folder, bytes)
}

pub fn open_before_redo(
    alloc: Global,
    folder: Folder,
    bytes: &[u8],
) -> Result<Opened, (JournalFault, Folder)> {
    Session::open_before(alloc, folder, bytes, Some(Next::Redo))
}

pub fn changes_back(halfway: &Halfway) -> &[Change] {
    halfway.changes()
}

pub fn settled_bytes(halfway: &Halfway) -> Result<Vec<u8>, AllocError> {
    halfway.settled()
}

pub fn taken_back(halfway: Halfway) -> Session {
    halfway.finish()
}
