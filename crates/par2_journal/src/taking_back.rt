//! Taking back a command that a stop left halfway. `open_halfway` finds by the folder's fingerprint how many of its
//! changes were made (`way_back`), and takes them back in memory (`take_back`). The caller then makes
//! `Halfway::changes` in its store, puts the `settled` journal, and goes on with the session (`finish`).
ghost use Rattle.std.specs.Prelude.{◌≡◌, ◌≤◌, ◌&&◌, ⊤, IfOk, length, Some};
ghost use Rattle.par2_spec.specs.Prelude.{effects, Spells, is_valid, opened_by_part};
ghost use Rattle.par2_journal_format.specs.Journals.{AreCounted, changes_in, halfway_of, journal_of};
ghost use Rattle.par2_journal_format.specs.Walking.{go_through, session_at};
ghost use Rattle.par2_journal.specs.Commands.{AnswersTest, AnswersWhere, session_before, way_left};
ghost use Rattle.par2_journal.specs.Sessions.{kept_journal};

use crate::opening::{Opened, Opening, session_from};
use crate::{Changes, Session};
use par2_files::{Change, Folder};
use par2_journal_format::{HalfwayPart, Journal, go_back, way_back};
use par2_spec::{JournalFault, Result};
use std::alloc::Global;

/// A session before a command that a stop left halfway, and the changes that lead back to it.
#[derive(Drop)]
pub struct Halfway {
    session: Session,
    back: Vec<Change>,
}

impl Halfway {
    /// The changes that take the command back, in order, to be made in the store.
    pub fn changes(&self) -> &[Change]
        ensures { changes_in result.now ≡ way_left self.now }
    {
        self.back.as_slice()
    }

    /// The session before the command. The store has its folder once `changes` are made.
    pub fn finish(self) -> Session
        ensures { result ≡ session_before self }
    {
        self.session
    }

    /// The settled journal of that session, to be put in the store after `changes`. Err if memory runs out.
    pub fn settled(&self) -> Result<Vec<u8>>
        ensures { IfOk result (λ x. Spells x.items (kept_journal (session_before self.now))) }
    {
        self.session.encode()
    }
}

// Applies the changes `way`, which must lead through folders with the fingerprints `wanted`, and opens a session with
// these entries on the folder that they leave, all in memory. A refusal returns the folder as it was.
fn take_back(
    alloc: Global,
    mut folder: Folder,
    way: &mut [Change],
    wanted: &[[u8; 16]],
    entries: Vec<Changes>,
    cursor: usize,
) -> Result<Session, (JournalFault, Folder)>
    requires cursor { cursor ≤ length entries.items }
    requires counted { AreCounted entries.items }
    requires each { length wanted.now ≡ length way.old }
    ensures { let passed = go_through folder.files way.old wanted.now in
        let before = session_at (effects folder.files (changes_in way.old)) cursor entries.items in
        AnswersTest folder (passed && is_valid before) before result }
{
    match go_back(alloc, &mut folder, way, wanted) {
        Ok(()) => {}
        Err(fault) => return Err((fault, folder)),
    }
    match session_from(alloc, folder, entries, cursor) {
        Ok(session) => Ok(session),
        Err((fault, mut after)) => {
            after.apply_all(way);
            Err((fault, after))
        }
    }
}

// Opens the journal of a halfway command, with this halfway part: the session before the command, and the changes that
// lead back to it. It is refused if the folder isn't one that the command passes through.
pub(crate) fn open_halfway(
    alloc: Global,
    folder: Folder,
    journal: Journal,
    mut part: HalfwayPart,
) -> Opening
    requires cursor { journal.cursor ≤ length journal.entries.items }
    requires counted { AreCounted journal.entries.items }
    requires each { length part.fingerprints.items ≡ length part.back }
    ensures { let answer =
        opened_by_part folder.files (journal_of journal) (halfway_of (Some part)) in
        AnswersWhere ⊤ folder.files (λ given. given ≡ answer) result }
{
    let (wanted, back) = match way_back(alloc, &folder, journal.fingerprint, &part) {
        Ok(found) => found,
        Err(fault) => return Err((fault, folder)),
    };
    let start = part.back.len() - wanted.len();
    let (_, way) = part.back.as_mut_slice().split_at_mut(start);
    match take_back(alloc, folder, way, &wanted, journal.entries, journal.cursor) {
        Ok(session) => Ok(Opened::Halfway(Halfway { session, back })),
        Err(refused) => Err(refused),
    }
}
