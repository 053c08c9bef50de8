//! One folder, the changes that lead back, and those that lead forward again. A run opens a session (opening.rt),
//! prepares an action (commands.rt), spells its `journals`, writes `changes`, and calls `commit`. A law about prepared
//! actions is the contract of a function that does nothing.

ghost use Rattle.std.specs.Prelude.{◌≡◌, IsTrue};
ghost use Rattle.par2_spec.specs.Prelude.{takes_all, Action, KeptSession, OnlyGrew, CanWalk, session_of_kept, session_with};
ghost use Rattle.par2_journal.specs.Sessions.{CanBe, IsReady, changes_by_kind, after_commit};
ghost use Rattle.par2_journal.specs.declared.commands.Kind.{Kind};
ghost use Rattle.par2_journal.specs.declared.commands.Prepared.{Prepared};

use crate::commands::{Kind, both};
use crate::{Changes, Journals, Next, Prepared, Steps};
use par2_files::{
    Change, Checkpoints, Digests, Folder, fingerprint_with_checkpoints, fingerprints,
};
use par2_journal_format::{JournalView, begin, encode};
use par2_spec::Result;
use std::alloc::Global;
use std::marker::Model;
use std::slice::from_ref;
use thiserror::Error;

/// There is no command to undo.
#[derive(Debug, Error, Drop)]
#[error("nothing to undo")]
pub struct NothingToUndo;

/// There is no command to redo.
#[derive(Debug, Error, Drop)]
#[error("nothing to redo")]
pub struct NothingToRedo;

/// A session on a folder: the folder, and a list of entries with a cursor. Entries before the cursor are stored as
/// undos apply them, the others as redos do.
#[derive(Drop)]
pub struct Session {
    folder: Folder,
    entries: Vec<Changes>,
    cursor: usize,
    // What its opening computed for the next action: MD5 states from which the fingerprints along changes are computed,
    // and the fingerprints before the changes of the next undo or redo and after each.
    checkpoints: Checkpoints,
    along: Option<(Next, Vec<[u8; 16]>)>,
}

impl Model for Session {
    ghost use Rattle.par2_spec.specs.Sessions.{KeptSession};
    ghost use Rattle.par2_spec.specs.Codes.{kept_session_code};

    ghost Value = { KeptSession };

    ghost coded = { kept_session_code };

    ghost use Rattle.par2_journal.specs.Sessions.{kept_session, IsKeptSession};

    ghost view = { kept_session };

    ghost invariant = { IsKeptSession };
}

impl Session {
    ghost use Rattle.std.specs.Prelude.{◌≡◌, ◌↔◌, ◌<◌, ◌≤◌, ◌+◌, ◌≢◌, [], map, length, IsErr, IfOk, IfSome, OnOk, OnErr, IsTrue, None};
    ghost use Rattle.md5.specs.Md5.{md5};
    ghost use Rattle.par2_md5_lanes.specs.Messages.{buffers_of};
    ghost use Rattle.par2_spec.specs.Changes.{takes_all};
    ghost use Rattle.par2_spec.specs.Folders.{fingerprint};
    ghost use Rattle.par2_spec.specs.Sessions.{CanWalk, OnlyGrew, session_of_kept, kept_done, kept_undone, kept_redone};
    ghost use Rattle.par2_spec.specs.Journals.{Spells};
    ghost use Rattle.par2_files.specs.Checkpoints.{AreCheckpointsOf};
    ghost use Rattle.par2_files.specs.Folders.{change_of};
    ghost use Rattle.par2_journal_format.specs.Journals.{journal_from};
    ghost use Rattle.par2_journal_format.specs.Walking.{EntriesWalk, prints_along, session_at};
    ghost use Rattle.par2_journal.specs.Sessions.{CanBe, Fits, HasPrintsOf, after_commit, changes_by_kind, entries_for, kept_journal, moved, next_changes, next_of};
    ghost use Rattle.par2_journal.specs.Sessions.{SpellsReady};
    ghost use Rattle.par2_journal.specs.declared.commands.Kind.TheVariants.{Changing, Moving};

    /// A session on this folder, without a history: there is no journal, or its history is dropped or not needed.
    pub fn new(alloc: Global, folder: Folder) -> Session
        ensures folder { result.folder ≡ folder }
        ensures undos { result.undos ≡ [] }
        ensures redos { result.redos ≡ [] }
    {
        Session::from_entries(folder, Vec::new(alloc), 0)
    }

    // A session with these entries from a journal that was tried: the first `cursor` are undos, the oldest first, and
    // the others redos. `EntriesWalk`: from the cursor, they apply to the folder one after the other in both
    // directions.
    pub(crate) fn from_entries(folder: Folder, entries: Vec<Changes>, cursor: usize) -> Session
        requires within { cursor ≤ length entries.items }
        requires walks { EntriesWalk folder cursor entries.items }
        ensures folder { result.folder ≡ folder }
        ensures session { session_of_kept result ≡ session_at folder.files cursor entries.items }
    {
        let checkpoints = Checkpoints::none(*entries.allocator());
        Session {
            folder,
            entries,
            cursor,
            checkpoints,
            along: None,
        }
    }

    // The allocator of its entries, which all that it creates uses.
    pub(crate) fn allocator(&self) -> Global {
        *self.entries.allocator()
    }

    // The folder alone, for the caller of an opening that is refused after the session was made.
    pub(crate) fn into_folder(self) -> Folder
        ensures { result ≡ self.folder }
    {
        self.folder
    }

    /// The folder as the commands so far left it. For the prover: its history can be walked both ways.
    pub fn folder(&self) -> &Folder
        ensures folder { result.now ≡ self.now.folder }
        ensures walks { CanWalk self.now }
    {
        &self.folder
    }

    /// How many commands can be undone.
    pub fn undo_depth(&self) -> usize
        ensures { result ≡ length self.now.undos }
    {
        self.cursor
    }

    /// How many commands can be redone.
    pub fn redo_depth(&self) -> usize
        ensures { result ≡ length self.now.redos }
    {
        self.entries.len() - self.cursor
    }

    // Undoes or redoes the next entry: its changes are applied, and their inverse becomes the next one of the other side.
    fn go(&mut self, next: Next)
        requires { entries_for next self.old ≢ [] }
        ensures { self.new ≡ moved next self.old }
    {
        self.checkpoints = Checkpoints::none(self.allocator());
        self.along = None;
        match next {
            Next::Undo => {
                self.cursor -= 1;
                self.entries[self.cursor].apply_and_invert(&mut self.folder);
            }
            Next::Redo => {
                self.entries[self.cursor].apply_and_invert(&mut self.folder);
                self.cursor += 1;
            }
        }
    }

    /// Undoes the newest command on the folder in memory. It allocates nothing. `kept_undone`: the entry's changes are
    /// applied, and their inverse becomes the next redo.
    pub fn undo(&mut self) -> Result<(), NothingToUndo>
        ensures refused { IsErr result ↔ (self.old.undos ≡ []) }
        ensures unchanged { OnErr result (self.new ≡ self.old) }
        ensures undone { OnOk result (self.new ≡ kept_undone self.old (next_of self.old.undos)) }
    {
        if self.undo_depth() == 0 {
            return Err(NothingToUndo);
        }
        self.go(Next::Undo);
        Ok(())
    }

    /// Redoes on the folder in memory the command that was undone last. It allocates nothing. `kept_redone`: the
    /// entry's changes are applied, and their inverse becomes the next undo.
    pub fn redo(&mut self) -> Result<(), NothingToRedo>
        ensures refused { IsErr result ↔ (self.old.redos ≡ []) }
        ensures unchanged { OnErr result (self.new ≡ self.old) }
        ensures redone { OnOk result (self.new ≡ kept_redone self.old (next_of self.old.redos)) }
    {
        if self.redo_depth() == 0 {
            return Err(NothingToRedo);
        }
        self.go(Next::Redo);
        Ok(())
    }

    // The parts of the settled journal, with the folder's fingerprint.
    fn parts(&self, print: [u8; 16]) -> JournalView<'_>
        ensures journal { print ≡ fingerprint self.now.folder.files
            → journal_from result ≡ kept_journal self.now }
        ensures cursor { result.cursor ≤ length result.entries.now + length result.newer.now }
    {
        JournalView {
            fingerprint: print,
            cursor: self.cursor,
            entries: &self.entries,
            newer: &[],
        }
    }

    /// The bytes of the session's settled journal. A run writes it only after taking back a halfway command; the
    /// journals of an action come from [`Session::journals`].
    pub fn encode(&self) -> Result<Vec<u8>>
        ensures { IfOk result (λ bytes. Spells bytes.items (kept_journal self.now)) }
    {
        encode(self.allocator(), &self.parts(self.folder.fingerprint()?))
    }

    // Reserves room for `files` more files and one more entry, so that a commit allocates nothing. `OnlyGrew`: nothing
    // but the room changes.
    pub(crate) fn make_room(&mut self, files: usize) -> Result<()>
        ensures kept { OnlyGrew self.old self.new }
        ensures vacant { OnOk result (files ≤ self.new.folder.vacant) }
        ensures room { OnOk result (0 < self.new.room) }
    {
        self.folder.reserve(files)?;
        self.entries.reserve(1)
    }

    // Commits a command: applies its changes, keeps the way back as the newest entry, and drops all redos.
    #[tactic(auto, unfolding(par2_spec::specs::Sessions::kept_done))]
    fn add(&mut self, mut changes: Changes)
        requires applies { IsTrue (takes_all self.old.folder changes) }
        requires room { 0 < self.old.room }
        ensures { self.new ≡ kept_done self.old changes }
    {
        self.checkpoints = Checkpoints::none(self.allocator());
        self.along = None;
        changes.apply_and_invert(&mut self.folder);
        self.entries.truncate(self.cursor);
        // For the prover: `insert` keeps the capacity, and `push` only says that it doesn't shrink.
        match self.entries.insert(self.cursor, changes) {
            Ok(()) => {}
            Err(_) => unreachable!(),
        }
        self.cursor += 1;
    }

    // The entry that the next undo or redo applies, if there is one.
    pub(crate) fn next_entry(&self, next: Next) -> Option<&Changes>
        ensures none { result ≡ None → entries_for next self.now ≡ [] }
        ensures some { IfSome result (λ entry. entries_for next self.now ≢ []) }
        ensures entry { IfSome result (λ entry. entry.now ≡ next_changes next self.now) }
    {
        match next {
            Next::Undo => self.entries[..self.cursor].last(),
            Next::Redo => self.entries.get(self.cursor),
        }
    }

    // The changes that the next undo or redo applies, or none if there is none.
    fn next_changes(&self, next: Next) -> &[Change]
        ensures { map change_of result.now ≡ next_changes next self.now }
    {
        match self.next_entry(next) {
            Some(entry) => entry.as_slice(),
            None => &[],
        }
    }

    // The folder's checkpoints that an opening computed, if any, for a create, which digests the folder from them.
    pub(crate) fn checkpoints(&self) -> &Checkpoints
        ensures { AreCheckpointsOf self.now.folder.files result.now }
    {
        &self.checkpoints
    }

    // Digests the folder and `bytes`, the journal's body, side by side for an opening. Before an undo or redo (`next`),
    // the fingerprints along its changes are computed with them, which takes little longer, and kept for it. Otherwise
    // checkpoints are kept for the next action: MD5 states at names of the folder.
    pub(crate) fn digests_ahead(
        &mut self,
        next: Option<Next>,
        bytes: &[u8],
    ) -> Result<([u8; 16], [u8; 16])>
        ensures unchanged { self.new ≡ self.old }
        ensures folder { IfOk result (λ x. x.0 ≡ fingerprint self.old.folder.files) }
        ensures bytes { IfOk result (λ x. x.1 ≡ md5 bytes.now) }
    {
        let Some(next) = next else {
            let found = fingerprint_with_checkpoints(self.allocator(), &self.folder, bytes)?;
            let (folder, bytes) = (found.fingerprint, found.digest);
            self.checkpoints = found.checkpoints;
            return Ok((folder, bytes));
        };
        let found = self.digests(self.next_changes(next), None, &[bytes])?;
        let (folder, bytes) = (found.along[0], found.beside[0]);
        self.along = Some((next, found.along));
        Ok((folder, bytes))
    }

    // The fingerprints before changes to the folder and after each, and the MD5s of buffers, all computed side by side:
    // from the checkpoints `from`, or else from those of an opening, if any.
    pub(crate) fn digests(
        &self,
        changes: &[Change],
        from: Option<&Checkpoints>,
        beside: &[&[u8]],
    ) -> Result<Digests>
        requires checkpoints { IfSome from (λ f. AreCheckpointsOf self.now.folder.files f.now) }
        requires applies { IsTrue (takes_all self.now.folder (map change_of changes.now)) }
        ensures along { IfOk result (λ found. found.along.items
            ≡ prints_along self.now.folder.files (map change_of changes.now)) }
        ensures beside { IfOk result (λ x. x.beside.items ≡ map md5 (buffers_of beside.now)) }
    {
        let from = from.unwrap_or(&self.checkpoints);
        fingerprints(self.allocator(), &self.folder, changes, from, beside)
    }

    // The fingerprints along the changes of the next undo or redo, or of none if there is none. Those that an opening
    // computed for it are used once.
    pub(crate) fn fingerprints_next(&mut self, next: Next) -> Result<Vec<[u8; 16]>>
        ensures unchanged { self.new ≡ self.old }
        ensures along { IfOk result (λ along. along.items
            ≡ prints_along self.old.folder.files (next_changes next self.old)) }
    {
        match self.along.take() {
            Some((of, along)) if of == next => Ok(along),
            _ => Ok(self.digests(self.next_changes(next), None, &[])?.along),
        }
    }

    /// The changes that committing makes, in order, to be made in the store first. `Fits`: the action can still be
    /// committed on this session.
    pub fn changes<'a>(&'a self, prepared: &'a Prepared) -> &'a [Change]
        requires { Fits prepared.now self.now }
        ensures { map change_of result.now ≡ changes_by_kind prepared.now.kind self.now }
    {
        match &prepared.kind {
            Kind::Changing(changes) => changes.as_slice(),
            Kind::Moving(next) => self.next_changes(*next),
        }
    }

    // The journals of a command with these changes, along which these are the fingerprints. The changes are applied and
    // taken back, even if memory runs out; their bytes are copied only into the journals.
    fn spell_changes(
        &mut self,
        fingerprints: &[[u8; 16]],
        changes: &mut Changes,
    ) -> Result<Journals>
        requires applies { IsTrue (takes_all self.old.folder changes.old) }
        requires along { fingerprints.now ≡ prints_along self.old.folder.files changes.old }
        ensures unchanged { self.new ≡ self.old }
        ensures changes { changes.new ≡ changes.old }
        ensures spelled { IfOk result (SpellsReady (Changing changes.old) self.old) }
    {
        let alloc = self.allocator();
        let front = begin(alloc, &self.parts(fingerprints[0]))?;
        changes.apply_and_invert(&mut self.folder);
        let after = JournalView {
            fingerprint: fingerprints[fingerprints.len() - 1],
            cursor: self.cursor + 1,
            entries: &self.entries[..self.cursor],
            newer: from_ref(&*changes),
        };
        let answer = both(alloc, front, &fingerprints[1..], changes, &after);
        changes.apply_and_invert(&mut self.folder);
        answer
    }

    // The journals of an undo or redo, along whose changes these are the fingerprints. It is done and taken back, even
    // if memory runs out; the bytes are copied only into the journals.
    fn spell_move(&mut self, fingerprints: &[[u8; 16]], next: Next) -> Result<Journals>
        requires some { entries_for next self.old ≢ [] }
        requires along { fingerprints.now
            ≡ prints_along self.old.folder.files (next_changes next self.old) }
        ensures unchanged { self.new ≡ self.old }
        ensures spelled { IfOk result (SpellsReady (Moving next) self.old) }
    {
        let alloc = *self.entries.allocator();
        let front = begin(alloc, &self.parts(fingerprints[0]))?;
        self.go(next);
        let answer = match self.next_entry(next.opposite()) {
            Some(back) => {
                let after = self.parts(fingerprints[fingerprints.len() - 1]);
                both(alloc, front, &fingerprints[1..], back, &after)
            }
            None => unreachable!(),
        };
        self.go(next.opposite());
        answer
    }

    /// The journals of a prepared action, to be put in the store before and after its changes. The changes are applied
    /// to the folder and taken back, even if memory runs out; their bytes are copied only into the journals.
    /// `HasPrintsOf`: the folder is the one that the action was prepared on. `SpellsReady`: the journals are those of
    /// what is ready, and so, by `ready_changes_apply`, those of each action that it was prepared for.
    pub fn journals(&mut self, prepared: &mut Prepared) -> Result<Journals>
        requires fits { Fits prepared.old self.old }
        requires prints { HasPrintsOf self.old prepared.old }
        ensures unchanged { self.new ≡ self.old }
        ensures prepared { prepared.new ≡ prepared.old }
        ensures spelled { IfOk result (SpellsReady prepared.old.kind self.old) }
    {
        let fingerprints = prepared.fingerprints.as_slice();
        match &mut prepared.kind {
            Kind::Changing(changes) => self.spell_changes(fingerprints, changes),
            Kind::Moving(next) => self.spell_move(fingerprints, *next),
        }
    }

    /// Commits a prepared action to the session, after its changes are made in the store, and returns its steps. It
    /// allocates nothing. `after_commit`: the changes are applied, and their way back is the next undo or redo.
    pub fn commit(&mut self, prepared: Prepared) -> Steps
        requires { Fits prepared self.old }
        ensures session { self.new ≡ after_commit prepared.kind self.old }
        ensures steps { result ≡ prepared.steps }
    {
        let Prepared { kind, steps, .. } = prepared;
        match kind {
            Kind::Changing(changes) => self.add(changes),
            Kind::Moving(next) => self.go(next),
        }
        steps
    }
}

/// `applies`: what can be committed (`CanBe`) applies to the folder if undos and redos can be walked (`CanWalk`).
/// `commits`: committing it on the session for which it was prepared, or on one that only got more room (`OnlyGrew`),
/// leaves the session that its action leads to.
pub fn ready_changes_apply()
    ensures applies { (kind : Kind) (s : KeptSession) → CanWalk s → CanBe kind s
        → IsTrue (takes_all s.folder (changes_by_kind kind s)) }
    ensures commits { (action : Action) (old new : KeptSession) (prepared : Prepared)
        → OnlyGrew old new → IsReady action old prepared new
        → session_of_kept (after_commit prepared.kind new)
        ≡ session_with (session_of_kept new) action (changes_by_kind prepared.kind new) }
{}
