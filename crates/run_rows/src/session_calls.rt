//! Calls of sessions whose contracts are long, each in a function without a contract. For the prover: it sees only the types of
//! such a call.
ghost use Rattle.std.specs.Prelude.{IfOk};
ghost use Rattle.par2_journal.specs.Sessions.{Fits, HasPrintsOf};

use par2_folder::Folder;
use par2_journal::{
    Action, CreateArgs, Fault, Halfway, JournalFault, Journals, Opened, Prepared, Report, Session,
    SessionFault, Steps,
};
use std::alloc::{AllocError, Global};

pub fn create(session: &mut Session, args: &CreateArgs) -> Result<Steps, Fault> {
    session.create(args)
}

/// Repairs with only `t.par2`.
pub fn repair(session: &mut Session, purge: bool) -> Result<Steps, Fault> {
    session.repair("t.par2", &[], purge)
}

/// Purges the set of `u.par2`, which is complete.
pub fn purge(session: &mut Session) -> Result<Steps, Fault> {
    session.purge("u.par2")
}

pub fn verify(session: &Session) -> Result<Report, Fault> {
    session.verify("t.par2", &[])
}

pub fn prepare(session: &mut Session, action: &Action) -> Result<Prepared, SessionFault>
    ensures fits { IfOk result (λ prepared. Fits prepared session.new) }
    ensures prints { IfOk result (HasPrintsOf session.new) }
{
    session.prepare(action)
}

pub fn journals_of(session: &mut Session, prepared: &mut Prepared) -> Result<Journals, AllocError>
    requires fits { Fits prepared.old session.old }
    requires prints { HasPrintsOf session.old prepared.old }
    ensures { Fits prepared.new session.new }
{
    session.journals(prepared)
}

/// Returns the number of steps.
pub fn commit(session: &mut Session, prepared: Prepared) -> usize
    requires { Fits prepared session.old }
{
    session.commit(prepared).len()
}

/// Returns the number of actions that were done.
pub fn play(session: &mut Session, actions: &[Action]) -> usize {
    session.play(actions)
}

pub fn encode(session: &Session) -> Result<Vec<u8>, AllocError> {
    session.encode()
}

pub fn open(alloc: Global, folder: Folder, bytes: &[u8]) -> Result<Opened, (JournalFault, Folder)> {
    Session::open(alloc, folder, bytes)
}

pub fn settled(halfway: &Halfway) -> Result<Vec<u8>, AllocError> {
    halfway.settled()
}
