//! Opening a store as a session. `open_for` reads folder and journal (`read_store`) and opens both (`open_with`), which
//! drops the history of a changed folder (`without_journal`) or takes back a halfway command in the store
//! (`take_back`).
ghost use Rattle.std.specs.Prelude.{◌≡◌, Err, IfErr, IfOk, IsErr, Ok, Some, option_map, true};
ghost use Rattle.par2_journal_format.specs.Walking.{OpensAsIs};
ghost use Rattle.par2_journal.specs.Opening.{session_before, way_left};
ghost use Rattle.par2_spec.specs.Prelude.{new_session, started, session_of_kept};
ghost use Rattle.par2_disk.specs.Stores.{OnlyReads};
ghost use Rattle.par2_tool.specs.OpenedStores.{IsUnopened, IsVerifyGiven, KeepsStore, OpensFor, OpensStore, Starts, TakesWayBack, WasRead, refused_as, started_of, unopened_as};

use crate::performing::write_down;
use par2_disk::{FolderStore, ReadFault, read_folder};
use par2_files::Folder;
use par2_journal::{Halfway, Journals, Next, Opened, Session, opens_as_is};
use par2_spec::{Action, Command, Failure, Fault, JournalFault, Result};
use std::alloc::{AllocError, Global};
use thiserror::Error;

/// An opened store.
#[derive(Drop)]
pub struct Started {
    pub session: Session,
    /// Whether a history was dropped because the folder is not as the journal left it.
    pub dropped: bool,
}

/// Why a store can't be opened.
#[derive(Debug, Error, Clone, Copy, Drop)]
pub enum OpenFault {
    #[error("a file could not be read or written")]
    Store,
    #[error("out of memory")]
    Memory,
    #[error("the journal is not valid")]
    JournalInvalid,
    /// A command is halfway, but the folder isn't the one it was left in, so it can't be taken back.
    #[error("the folder is not as the journal left it")]
    FolderChanged,
}

impl From<AllocError> for OpenFault {
    ghost use Rattle.std.specs.Prelude.{◌≡◌};
    ghost use Rattle.par2_tool.specs.declared.opening.OpenFault.TheVariants.{Memory};

    ghost from_gives = { λ _ unopened. unopened ≡ Memory };

    // For `?` after an allocation.
    fn from(_: AllocError) -> Self {
        OpenFault::Memory
    }
}

impl From<ReadFault> for OpenFault {
    ghost use Rattle.std.specs.Prelude.{◌≡◌};
    ghost use Rattle.par2_disk.specs.declared.store.ReadFault.TheVariants as read;
    ghost use Rattle.par2_tool.specs.declared.opening.OpenFault.TheVariants.{Memory, Store};

    ghost from_gives = { λ e f. (e ≡ read.Store → f ≡ Store) × (e ≡ read.Memory → f ≡ Memory) };

    // For `?` after a reading call of the store.
    fn from(fault: ReadFault) -> Self {
        match fault {
            ReadFault::Store => OpenFault::Store,
            ReadFault::Memory => OpenFault::Memory,
        }
    }
}

impl From<OpenFault> for Failure {
    ghost use Rattle.std.specs.Prelude.{◌≡◌};
    ghost use Rattle.par2_tool.specs.OpenedStores.{unopened_as};

    ghost from_gives = { λ fault failure. failure ≡ unopened_as fault };

    // The failure that a run prints if the store can't be opened.
    fn from(fault: OpenFault) -> Self {
        match fault {
            OpenFault::Store => Failure::Store,
            OpenFault::Memory => Failure::Refused(Fault::Memory),
            OpenFault::JournalInvalid => Failure::JournalInvalid,
            OpenFault::FolderChanged => Failure::FolderChanged,
        }
    }
}

// A new session on the folder, whose history was dropped or never there.
fn without_history(alloc: Global, folder: Folder, dropped: bool) -> Started
    ensures { started_of result ≡ record { session = new_session folder.files; dropped = dropped } }
{
    Started {
        session: Session::new(alloc, folder),
        dropped,
    }
}

// The result of opening if the journal was refused for `fault`: if the folder isn't as a finished command left it, a
// new session whose history was dropped, otherwise the fault, as the definitions say.
fn without_journal(alloc: Global, fault: JournalFault, folder: Folder) -> Result<Started, OpenFault>
    ensures started { IfOk result (λ s. started folder.files (Err fault) ≡ Ok (started_of s)) }
    ensures unopened { IsErr result → started folder.files (Err fault) ≡ Err fault }
    ensures refused { IfErr result (λ refused. refused ≡ refused_as fault) }
{
    match fault {
        JournalFault::FolderChanged { halfway: false } => Ok(without_history(alloc, folder, true)),
        JournalFault::FolderChanged { halfway: true } => Err(OpenFault::FolderChanged),
        JournalFault::JournalInvalid => Err(OpenFault::JournalInvalid),
        JournalFault::Memory => Err(OpenFault::Memory),
    }
}

// The first step of opening: reads the store's folder into memory, and its journal if there is one.
fn read_store<S: FolderStore>(
    alloc: Global,
    store: &mut S,
) -> Result<(Folder, Option<Vec<u8>>), OpenFault>
    ensures read { S.honest store.old → IfOk result (λ read. WasRead (S.contents store.old)
        read.0.files (option_map (λ bytes. bytes.items) read.1)) }
    ensures refused { S.honest store.old
        → IfErr result (IsUnopened (S.contents store.old) (S.contents store.new)) }
    ensures reads { OnlyReads S.Store store.old store.new }
    ensures keeps { KeepsStore S.Store unopened_as store.old store.new result }
    ensures possible { S.honest store.old → S.impossible store.new ≡ S.impossible store.old }
{
    let folder = read_folder(alloc, store)?;
    let journal = store.read_journal(alloc)?;
    Ok((folder, journal))
}

// Takes back a halfway command in the store: makes the changes that lead back (`way_left`), puts the settled journal of
// the session before the command, and returns that session. The halfway journal is already in the store.
fn take_back<S: FolderStore>(store: &mut S, halfway: Halfway) -> Result<Session, OpenFault>
    ensures session { IfOk result (λ session. session ≡ session_before halfway) }
    ensures taken { S.honest store.old → TakesWayBack S.Store store.old store.new
        (session_of_kept (session_before halfway)) (way_left halfway) result }
    ensures keeps { KeepsStore S.Store unopened_as store.old store.new result }
{
    let journals = Journals {
        halfway: None,
        after: halfway.settled()?,
    };
    match write_down(store, &journals, halfway.changes()) {
        Ok(()) => Ok(halfway.finish()),
        Err(_) => Err(OpenFault::Store),
    }
}

// Opens what was read from the store as a session: the folder, and the journal's bytes. The fingerprints for `next`,
// the undo or redo to come, are computed on the way. A halfway command is first taken back in the store.
fn open_with<S: FolderStore>(
    alloc: Global,
    store: &mut S,
    folder: Folder,
    bytes: &[u8],
    next: Option<Next>,
) -> Result<Started, OpenFault>
    ensures opens { S.honest store.old
        → WasRead (S.contents store.old) folder.files (Some bytes.now)
        → Starts S.Store store.old store.new result × OpensStore S.Store store.old store.new result }
    ensures keeps { KeepsStore S.Store unopened_as store.old store.new result }
{
    let opened = match Session::open_before(alloc, folder, bytes, next) {
        Ok(opened) => opened,
        Err((fault, folder)) => return without_journal(alloc, fault, folder),
    };
    let dropped = false;
    match opened {
        Opened::Settled(session) => Ok(Started { session, dropped }),
        Opened::Halfway(halfway) => {
            let session = take_back(store, halfway)?;
            Ok(Started { session, dropped })
        }
    }
}

// Whether the session can do without its history: the command is a verify, which needs only the folder, and a folder
// with this journal (`bytes`) opens as it is, with no command halfway (`OpensAsIs`).
fn needs_no_history(
    alloc: Global,
    command: Option<&Command>,
    folder: &Folder,
    bytes: &[u8],
) -> Result<bool>
    ensures verify { result ≡ Ok true → IsVerifyGiven command.entry }
    ensures opens { result ≡ Ok true → OpensAsIs folder.now.files bytes.now }
{
    match command {
        Some(Command::Verify { .. }) => opens_as_is(alloc, folder, bytes),
        _ => Ok(false),
    }
}

/// Opens a store for a command, if one is given, as [`open_store`] does; a run calls it. For a verify the session is on
/// the same folder but may lack its history, and `dropped` may be false although a history was dropped. Before an undo
/// or redo the fingerprints in its journals are computed on the way.
pub(crate) fn open_for<S: FolderStore>(
    alloc: Global,
    store: &mut S,
    command: Option<&Command>,
) -> Result<Started, OpenFault>
    ensures opened { IfOk result (OpensFor S.Store store.old store.new (IsVerifyGiven command.entry)) }
    ensures opens { S.honest store.old → OpensStore S.Store store.old store.new result }
    ensures keeps { KeepsStore S.Store unopened_as store.old store.new result }
{
    let (folder, journal) = read_store(alloc, store)?;
    let Some(bytes) = journal else {
        return Ok(without_history(alloc, folder, false));
    };
    if needs_no_history(alloc, command, &folder, &bytes)? {
        return Ok(without_history(alloc, folder, false));
    }
    let next = match command {
        Some(Command::Act(Action::Undo)) => Some(Next::Undo),
        Some(Command::Act(Action::Redo)) => Some(Next::Redo),
        _ => None,
    };
    open_with(alloc, store, folder, &bytes, next)
}

/// Opens a store as a session: reads its names, files and journal, and takes back a halfway command. If the folder
/// isn't as the journal of a finished command left it, the session is a new one. Nothing else is done to the store.
/// After [`OpenFault::Store`] and [`OpenFault::Memory`] it opens as it did before. So does what a power cut leaves at
/// any moment, if what was written earlier is durable and the folders that a halfway command passes through have
/// different fingerprints. For users of the library and tests: a run opens for its command, with `open_for`.
pub fn open_store<S: FolderStore>(alloc: Global, store: &mut S) -> Result<Started, OpenFault>
    ensures opened { S.honest store.old → Starts S.Store store.old store.new result }
    ensures opens { S.honest store.old → OpensStore S.Store store.old store.new result }
    ensures keeps { KeepsStore S.Store unopened_as store.old store.new result }
{
    open_for(alloc, store, None)
}
