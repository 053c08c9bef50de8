//! Opening a folder with a journal as a session. `open_before` decodes the journal (`open_untested`). A settled one is
//! opened by `open_settled`: `session_from` tries the entries on the folder's names (`ready`), and `test_digests` compares
//! the digests. A halfway one is opened by `open_halfway` (taking_back.rt).

ghost use Rattle.std.specs.Prelude.{◌≡◌, ◌≤◌, ◌⊎◌, if◌then◌else◌, IfErr, OnOk, length, None, true, false};
ghost use Rattle.md5.specs.Md5.{md5};
ghost use Rattle.par2_spec.specs.Prelude.{Opens, is_valid, opened_by_part};
ghost use Rattle.par2_spec.specs.declared.JournalFault.TheVariants.{JournalInvalid, FolderChanged, Memory};
ghost use Rattle.par2_journal_format.specs.Journals.{AreCounted, IsSealed, journal_of};
ghost use Rattle.par2_journal.specs.Commands.{AnswersOpening, AnswersTest, AnswersWhere, IsReportedWhere, has_print};
ghost use Rattle.par2_journal_format.specs.Walking.{session_at};

use crate::taking_back::{Halfway, open_halfway};
use crate::{Changes, Session};
use md5::{Digest, Md5};
use par2_files::Folder;
use par2_journal_format::{Journal, decode_untested, is_sealed, ready};
use par2_spec::{JournalFault, Result};
use std::alloc::{AllocError, Global};

// A session with these entries from a journal if they can be applied to the folder; otherwise JournalInvalid, or
// Memory, and the folder. `AnswersTest`: the session if the test is passed, otherwise a fault and the same files.
pub(crate) fn session_from(
    alloc: Global,
    mut folder: Folder,
    entries: Vec<Changes>,
    cursor: usize,
) -> Result<Session, (JournalFault, Folder)>
    requires cursor { cursor ≤ length entries.items }
    requires counted { AreCounted entries.items }
    ensures answer { let wanted = session_at folder.files cursor entries.items in
        AnswersTest folder (is_valid wanted) wanted result }
    ensures vacant { IfErr result (λ e. folder.vacant ≤ e.1.vacant) }
{
    match ready(alloc, &mut folder, &entries, cursor) {
        Ok(true) => Ok(Session::from_entries(folder, entries, cursor)),
        Ok(false) => Err((JournalFault::JournalInvalid, folder)),
        Err(AllocError) => Err((JournalFault::Memory, folder)),
    }
}

/// The result of opening a folder with a journal.
#[derive(Drop)]
pub enum Opened {
    Settled(Session),
    /// A stop left a command halfway, which is to be taken back.
    Halfway(Halfway),
}

/// A session on the folder, or why there is none, with the folder.
pub type Opening = Result<Opened, (JournalFault, Folder)>;

// The fault of a journal whose entries can't be applied to the folder. `wanted` is the fingerprint in the journal, and
// `digest` the one at its end. A changed folder is the first cause, but it is reported only if the journal's body has
// this digest.
fn why_invalid(folder: &Folder, wanted: [u8; 16], body: &[u8], digest: &[u8]) -> JournalFault
    ensures right { let same = has_print folder.now.files wanted in
        digest.now ≡ md5 body.now →
        (result ≡ Memory) ⊎ (result ≡ (if same then JournalInvalid else FolderChanged false)) }
    ensures reported { IsReportedWhere (digest.now ≡ md5 body.now) result }
{
    let print = match folder.fingerprint() {
        Ok(print) => print,
        Err(AllocError) => return JournalFault::Memory,
    };
    if print.as_slice() == wanted.as_slice() || digest != Md5::digest(body).as_slice() {
        return JournalFault::JournalInvalid;
    }
    JournalFault::FolderChanged { halfway: false }
}

// The last step of opening a settled journal: compares the MD5 of its body with `digest`, the one at its end, and the
// folder's fingerprint with `wanted`, the one in the journal. Fingerprints for `next` are computed on the way.
fn test_digests(
    session: &mut Session,
    wanted: [u8; 16],
    body: &[u8],
    digest: &[u8],
    next: Option<Next>,
) -> Result<(), JournalFault>
    ensures unchanged { session.new ≡ session.old }
    ensures digest { OnOk result (digest.now ≡ md5 body.now) }
    ensures folder { OnOk result (has_print session.old.folder.files wanted ≡ true) }
    ensures reported { IfErr result (IsReportedWhere (digest.now ≡ md5 body.now)) }
    ensures refused { let same = has_print session.old.folder.files wanted in
        digest.now ≡ md5 body.now →
        IfErr result (λ e. (e ≡ Memory) ⊎ ((e ≡ FolderChanged false) × (same ≡ false))) }
{
    let (print, found) = session.digests_ahead(next, body)?;
    if digest != found.as_slice() {
        return Err(JournalFault::JournalInvalid);
    }
    if print.as_slice() != wanted.as_slice() {
        return Err(JournalFault::FolderChanged { halfway: false });
    }
    Ok(())
}

// Opens a settled journal, whose `body` should have this `digest`. `AnswersWhere`: with that digest the result is the
// definitions' or Memory; otherwise nothing opens. Its entries are tried before anything is digested; then its body and
// the folder are digested side by side.
fn open_settled(
    alloc: Global,
    folder: Folder,
    journal: Journal,
    body: &[u8],
    digest: &[u8],
    next: Option<Next>,
) -> Opening
    requires cursor { journal.cursor ≤ length journal.entries.items }
    requires counted { AreCounted journal.entries.items }
    ensures { let answer = opened_by_part folder.files (journal_of journal) None in
        AnswersWhere (digest.now ≡ md5 body.now) folder.files (λ given. given ≡ answer) result }
{
    let fingerprint = journal.fingerprint;
    match session_from(alloc, folder, journal.entries, journal.cursor) {
        Ok(mut session) => match test_digests(&mut session, fingerprint, body, digest, next) {
            Ok(()) => Ok(Opened::Settled(session)),
            Err(fault) => Err((fault, session.into_folder())),
        },
        Err((JournalFault::JournalInvalid, folder)) => {
            Err((why_invalid(&folder, fingerprint, body, digest), folder))
        }
        Err(refused) => Err(refused),
    }
}

// Opens a journal's bytes. Out of memory may be reported although they don't end with their digest: `where_sealed`
// makes that `JournalInvalid`.
fn open_untested(alloc: Global, folder: Folder, bytes: &[u8], next: Option<Next>) -> Opening
    ensures { AnswersWhere (IsSealed bytes.now) folder.files (Opens folder.files bytes.now) result }
{
    let untested = match decode_untested(alloc, bytes) {
        Ok(untested) => untested,
        Err(fault) => return Err((fault, folder)),
    };
    let mut journal = untested.journal;
    match journal.halfway.take() {
        None => open_settled(alloc, folder, journal, untested.body, untested.digest, next),
        Some(part) if is_sealed(bytes) => open_halfway(alloc, folder, journal, part),
        Some(_) => Err((JournalFault::JournalInvalid, folder)),
    }
}

// The fault to report: bytes that don't end with their digest are invalid, even if memory ran out.
fn where_sealed(fault: JournalFault, bytes: &[u8]) -> JournalFault
    ensures sealed { IsSealed bytes.now → result ≡ fault }
    ensures unsealed { let sealed = IsSealed bytes.now in
        ¬ sealed → IsReportedWhere sealed fault → result ≡ JournalInvalid }
{
    match fault {
        JournalFault::Memory if is_sealed(bytes) => fault,
        JournalFault::Memory => JournalFault::JournalInvalid,
        _ => fault,
    }
}

impl Session {
    /// Opens a folder with the bytes of a journal, in either version; a run calls [`Session::open_before`]. A refusal
    /// returns the folder, names and bytes as they were. Bytes that don't end with their digest are invalid, even if
    /// memory runs out.
    pub fn open(alloc: Global, folder: Folder, bytes: &[u8]) -> Opening
        ensures { AnswersOpening folder bytes.now result }
    {
        Session::open_before(alloc, folder, bytes, None)
    }

    /// Opens as [`Session::open`] does. Before an undo or redo (`next`), the fingerprints in its journals are computed
    /// side by side with the folder's own, and [`Session::prepare`] computes none.
    pub fn open_before(alloc: Global, folder: Folder, bytes: &[u8], next: Option<Next>) -> Opening
        ensures { AnswersOpening folder bytes.now result }
    {
        match open_untested(alloc, folder, bytes, next) {
            Err((fault, folder)) => Err((where_sealed(fault, bytes), folder)),
            Ok(opened) => Ok(opened),
        }
    }
}

/// The action that comes next, for which an opening computes fingerprints.
#[derive(Clone, Copy, PartialEq, Eq)]
pub enum Next {
    Undo,
    Redo,
}

impl Next {
    ghost use Rattle.std.specs.Prelude.{◌≡◌};
    ghost use Rattle.par2_journal.specs.Sessions.{opposite};

    // The one that takes it back.
    pub(crate) fn opposite(self) -> Next
        ensures { result ≡ opposite self }
    {
        match self {
            Next::Undo => Next::Redo,
            Next::Redo => Next::Undo,
        }
    }
}
