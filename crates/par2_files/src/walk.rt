//! Fingerprints of a folder before and after each of several changes, computed side by side.
//!
//! Up to a split, two consecutive folders are equal unless the change between them touches a name there. So the
//! folders fall into groups of neighbors that are equal there, and one MD5 state that has absorbed the files before the
//! split serves a whole group. `states_along` goes from split to split by `absorbing_before`, and `fingerprints` takes the
//! digests of all states at the end.
//!
//! Checkpoints: MD5 states within a folder's fingerprint, from which later fingerprints start.
//! `fingerprint_with_checkpoints` records them when a folder is opened, `checkpoint_at` when a create is planned, and
//! `fingerprints` starts from them.

ghost use Rattle.std.specs.Prelude.{false, ◌≡◌, ◌≤◌, ◌++◌, ◌∷◌, [], ℕ, List, length, IfOk, OnOk, map, IsTrue, ◌<◌};
ghost use Rattle.par2_files.specs.Checkpoints.{AbsorbsTo, AreCheckpointsOf, AreTo, HasCheckpoint, HaveAbsorbed, IsAt, IsFurther, bytes_before, files_in, folder_in, group_buffers, touches};
ghost use Rattle.std.specs.List.{All};
ghost use Rattle.md5.specs.Md5.{md5};
ghost use Rattle.par2_md5_lanes.specs.Messages.{HasAbsorbed, buffers_of};
ghost use Rattle.par2_spec.specs.Prelude.{are_applicable, folders_after, takes_all, fingerprint};
ghost use Rattle.par2_files.specs.Folders.{change_of};
ghost use Rattle.par2_files.specs.declared.snapshot.Split.TheVariants.{At, End};
ghost use Rattle.par2_spec.specs.Folders as defined;

use crate::snapshot::{Absorbing, Snapshot, Split};
use crate::{Change, Folder, Name};
use par2_md5_lanes::{Midstate, Part, Pending, absorb_each};
use par2_spec::Result;
use std::alloc::Global;

// The most splits at names: each walks all changes once.
const MOST_SPLITS: usize = 64;

// The states at the split `to`, one for each group of folders that are equal up to it, from those at the earlier split
// `from`. A change that touches a name before a split begins a group there. `group_buffers` has the message of each group.
fn absorbing_before<'a>(
    alloc: Global,
    folder: &'a Folder,
    changes: &'a [Change],
    states: &[Midstate],
    from: Split<'_>,
    to: Split<'_>,
) -> Result<Absorbing<'a>>
    requires further { IsFurther from to }
    requires applicable { IsTrue (are_applicable folder.now.files (map change_of changes.now)) }
    requires absorbed { let changes = map change_of changes.now in
        HaveAbsorbed states.now (group_buffers from folder.now.files changes) }
    ensures { let changes = map change_of changes.now in
        IfOk result (λ x. AreTo x (group_buffers to.entry folder.now.files changes)) }
{
    let mut snapshot = folder.snapshot()?;
    let first = snapshot.pending_between(alloc, states[0], from, to)?;
    let mut absorbing = Absorbing::with_first(alloc, first)?;
    let mut place = 0;
    for change in changes {
        snapshot.apply(change)?;
        if from.is_after(change) {
            place += 1;
        }
        if to.is_after(change) {
            absorbing.push(snapshot.pending_between(alloc, states[place], from, to)?)?;
        }
    }
    Ok(absorbing)
}

/// The state, with these bytes still to absorb: how a buffer is digested beside a fingerprint.
pub fn pending_of_bytes(alloc: Global, state: Midstate, bytes: &[u8]) -> Result<Pending<'_>>
    ensures { (m : List ℕ) → HasAbsorbed state m → IfOk result (λ p. AbsorbsTo p (m ++ bytes.now)) }
{
    let parts = vec![in alloc; Part::Bytes(bytes)]?;
    Ok(Pending { state, parts })
}

/// The MD5 digests of what the states have absorbed, in order. `HaveAbsorbed`: state k has absorbed message k.
pub fn digests_of(alloc: Global, states: &[Midstate]) -> Result<Vec<[u8; 16]>>
    ensures { (buffers : List (List ℕ)) → HaveAbsorbed states.now buffers
        → IfOk result (λ digests. digests.items ≡ map md5 buffers) }
{
    let mut digests = Vec::with_capacity(alloc, states.len())?;
    for state in states {
        digests.push(state.digest())?;
    }
    Ok(digests)
}

/// The finished states, and then those of whole buffers, which are absorbed in the same lanes.
pub fn states_with<'a>(
    alloc: Global,
    mut absorbing: Absorbing<'a>,
    buffers: &[&'a [u8]],
) -> Result<Vec<Midstate>>
    ensures { (before : List (List ℕ)) → AreTo absorbing.entry before
        → IfOk result (λ states. HaveAbsorbed states.items (before ++ buffers_of buffers.now)) }
{
    for bytes in buffers {
        absorbing.push(pending_of_bytes(alloc, Midstate::new(), bytes)?)?;
    }
    absorbing.finish()
}

/// Fingerprints of folders, and the digests of buffers that were computed in the same lanes.
#[derive(Drop)]
pub struct Digests {
    /// The fingerprint of the folder, and those after each change.
    pub along: Vec<[u8; 16]>,
    /// The MD5 digests of the buffers.
    pub beside: Vec<[u8; 16]>,
}

// The states of the folder before the changes and after each of them, and then those of the buffers. The splits are at
// every n-th of the names, from the first on, with the least n that leaves at most `MOST_SPLITS`.
fn states_along(
    alloc: Global,
    folder: &Folder,
    changes: &[Change],
    from: &Checkpoints,
    names: &[Name],
    beside: &[&[u8]],
) -> Result<Vec<Midstate>>
    requires checkpoints { AreCheckpointsOf folder.now.files from.now }
    requires applicable { IsTrue (are_applicable folder.now.files (map change_of changes.now)) }
    ensures { let along = group_buffers End folder.now.files (map change_of changes.now) in
        IfOk result (λ states. HaveAbsorbed states.items (along ++ buffers_of beside.now)) }
{
    let step = names.len().div_ceil(MOST_SPLITS).max(1);
    let (mut split, state) = from.start(changes);
    let mut states = vec![in alloc; state]?;
    for name in names.iter().step_by(step) {
        if split.comes_before(name) {
            let next = Split::At(name);
            states = absorbing_before(alloc, folder, changes, &states, split, next)?.finish()?;
            split = next;
        }
    }
    let absorbing = absorbing_before(alloc, folder, changes, &states, split, Split::End)?;
    states_with(alloc, absorbing, beside)
}

/// The fingerprints of a folder before the changes and after each of them, and the MD5 digests of buffers. All are
/// computed side by side, so that a few buffers take little more time. `from` are the checkpoints to set out from. The
/// files before the last of them that has no changed name before it are not read. The splits are at some of the first
/// names that the changes touch, sorted: see `states_along`.
pub fn fingerprints(
    alloc: Global,
    folder: &Folder,
    changes: &[Change],
    from: &Checkpoints,
    beside: &[&[u8]],
) -> Result<Digests>
    requires checkpoints { AreCheckpointsOf folder.now.files from.now }
    requires taken { IsTrue (takes_all folder.now (map change_of changes.now)) }
    ensures along { let after = folders_after folder.now.files (map change_of changes.now) in
        IfOk result (λ found. found.along.items ≡ map fingerprint (folder.now.files ∷ after)) }
    ensures beside { IfOk result (λ found. found.beside.items ≡ map md5 (buffers_of beside.now)) }
{
    let mut names: Vec<Name> = changes.iter().map(Change::first_name).collect(alloc)?;
    names.sort_unstable();
    let states = states_along(alloc, folder, changes, from, &names, beside)?;
    let mut along = digests_of(alloc, &states)?;
    let beside = along.split_off(along.len() - beside.len())?;
    Ok(Digests { along, beside })
}

/// Checkpoints of one folder's fingerprint, in the order of their names: the state after the files before each name. A
/// fingerprint along changes starts from the last one that has no changed name before it.
#[derive(Drop)]
pub struct Checkpoints {
    list: Vec<(Name, Midstate)>,
}

// Whether no change touches a name before the split; one may touch the split's own name. A state at the split then
// serves the folder after each change.
fn are_behind(at: Split<'_>, changes: &[Change]) -> bool
    ensures behind { IsTrue result → All (λ c. touches at.entry (change_of c) ≡ false) changes.now }
    ensures all { All (λ c. touches at.entry (change_of c) ≡ false) changes.now → IsTrue result }
{
    !changes.iter().any(|change| at.is_after(change))
}

impl Checkpoints {
    /// No checkpoints, so that fingerprints read all files.
    pub fn none(alloc: Global) -> Checkpoints
        ensures { (folder : defined.Folder) → AreCheckpointsOf folder result }
    {
        let list = Vec::new(alloc);
        Checkpoints { list }
    }

    /// Adds a checkpoint at a name, after the others. `state` has absorbed the folder's files before the name.
    pub(crate) fn mark(&mut self, name: &Name, state: Midstate) -> Result<()>
        ensures checkpoints { (folder : defined.Folder) → AreCheckpointsOf folder self.old
            → HasAbsorbed state (bytes_before (At name.entry) folder)
            → OnOk result (AreCheckpointsOf folder self.new) }
        ensures some { OnOk result (0 < length self.new.list.items) }
    {
        Ok(self.list.push((name.copied(), state))?)
    }

    /// The start of fingerprints along the changes: the last checkpoint with no changed name before it or the
    /// beginning, and the state there. It serves the folders before and after each change, so `group_buffers` has one
    /// message.
    pub(crate) fn start(&self, changes: &[Change]) -> (Split<'_>, Midstate)
        ensures behind { All (λ c. touches result.0 (change_of c) ≡ false) changes.now }
        ensures states { (folder : defined.Folder) → AreCheckpointsOf folder self.now
            → HaveAbsorbed (result.1 ∷ [])
            (group_buffers result.0 folder (map change_of changes.now)) }
    {
        let mut start = (Split::Beginning, Midstate::new());
        for (name, state) in &self.list {
            let split = Split::At(name);
            if !are_behind(split, changes) {
                return start;
            }
            start = (split, *state);
        }
        start
    }
}

// The most checkpoints: each takes a name and a state, and interrupts the two messages that are absorbed in lanes.
const MOST_CHECKPOINTS: usize = 64;

/// The results of one pass over a folder and a buffer.
#[derive(Drop)]
pub struct FolderFingerprint {
    /// The folder's fingerprint: see [`Folder::fingerprint`].
    pub fingerprint: [u8; 16],
    /// The MD5 digest of the buffer.
    pub digest: [u8; 16],
    pub checkpoints: Checkpoints,
}

// How far `fingerprint_with_checkpoints` has come: the states of the fingerprint and of the buffer's MD5.
#[derive(Clone, Copy, Drop)]
struct Progress {
    folder: Midstate,
    bytes: Midstate,
    // The number of bytes of the buffer that are absorbed.
    taken: usize,
}

// Absorbs the files from the split `from` to the split `to`, and in a second lane about as many bytes of the buffer, as
// far as it has them. `IsAt`: the files before the split and the first `taken` bytes of the buffer are absorbed.
fn advance_to<'a>(
    alloc: Global,
    snapshot: &Snapshot<'a>,
    bytes: &'a [u8],
    progress: Progress,
    from: Split<'_>,
    to: Split<'_>,
) -> Result<Progress>
    requires further { IsFurther from to }
    requires here { IsAt from (folder_in snapshot.now) bytes.now progress }
    ensures there { IfOk result (IsAt to.entry (folder_in snapshot.now) bytes.now) }
{
    let files = snapshot.pending_between(alloc, progress.folder, from, to)?;
    let lent = files.parts.iter().fold(0, |sum: usize, part| match part {
        Part::Bytes(bytes) => sum.saturating_add(bytes.len()),
        _ => sum,
    });
    let end = bytes.len().min(progress.taken.saturating_add(lent));
    let extra = pending_of_bytes(alloc, progress.bytes, &bytes[progress.taken..end])?;
    let states = absorb_each(&[files, extra]);
    Ok(Progress {
        folder: states[0],
        bytes: states[1],
        taken: end,
    })
}

/// The folder's fingerprint, the MD5 digest of a buffer that is computed beside it, and checkpoints of the folder.
/// Opening a store calls it with the journal's bytes as the buffer. The session's next command uses the checkpoints. They
/// are at every n-th of the folder's names from the first on, with the least n that leaves at most `MOST_CHECKPOINTS`.
pub fn fingerprint_with_checkpoints<'a>(
    alloc: Global,
    folder: &'a Folder,
    bytes: &'a [u8],
) -> Result<FolderFingerprint>
    ensures fingerprint { IfOk result (λ found. found.fingerprint ≡ fingerprint folder.now.files) }
    ensures digest { IfOk result (λ found. found.digest ≡ md5 bytes.now) }
    ensures checkpoints { IfOk result (λ f. AreCheckpointsOf folder.now.files f.checkpoints) }
    ensures some { IfOk result (λ found. HasCheckpoint folder.now.files found.checkpoints) }
{
    let snapshot = folder.snapshot()?;
    let step = snapshot.files.len().div_ceil(MOST_CHECKPOINTS).max(1);
    let mut checkpoints = Checkpoints::none(alloc);
    let mut split = Split::Beginning;
    let mut progress = Progress {
        folder: Midstate::new(),
        bytes: Midstate::new(),
        taken: 0,
    };
    let mut place = 0;
    while place < snapshot.files.len() {
        let name = snapshot.files[place].0;
        if split.comes_before(name) {
            progress = advance_to(alloc, &snapshot, bytes, progress, split, Split::At(name))?;
            checkpoints.mark(name, progress.folder)?;
            split = Split::At(name);
        }
        place += step;
    }
    let mut end = advance_to(alloc, &snapshot, bytes, progress, split, Split::End)?;
    end.bytes.absorb(&[Part::Bytes(&bytes[end.taken..])]);
    Ok(FolderFingerprint {
        fingerprint: end.folder.digest(),
        digest: end.bytes.digest(),
        checkpoints,
    })
}

/// The result of `checkpoint_at`: a checkpoint of a folder, and the digests of buffers that were computed beside it.
#[derive(Drop)]
pub struct Checkpointed {
    pub checkpoints: Checkpoints,
    /// The MD5 digests of the buffers.
    pub beside: Vec<[u8; 16]>,
}

/// A checkpoint of the folder at a name, and the MD5 digests of buffers, computed side by side. The checkpoint starts
/// from the last one in `from` up to the name, and serves fingerprints along changes that touch no lesser name. A create
/// calls it with its index, the least name that it writes, and with the bytes of its inputs.
pub fn checkpoint_at(
    alloc: Global,
    folder: &Folder,
    from: &Checkpoints,
    name: &Name,
    beside: &[&[u8]],
) -> Result<Checkpointed>
    requires { AreCheckpointsOf folder.now.files from.now }
    ensures checkpoints { IfOk result (λ made. AreCheckpointsOf folder.now.files made.checkpoints) }
    ensures some { IfOk result (λ made. HasCheckpoint folder.now.files made.checkpoints) }
    ensures beside { IfOk result (λ made. made.beside.items ≡ map md5 (buffers_of beside.now)) }
{
    // A create's first change is one of this name.
    let (split, state) = from.start(&[Change::Remove(name.copied())]);
    let pending = folder
        .snapshot()?
        .pending_between(alloc, state, split, Split::At(name))?;
    let states = states_with(alloc, Absorbing::with_first(alloc, pending)?, beside)?;
    let beside = digests_of(alloc, &states[1..])?;
    let mut checkpoints = Checkpoints::none(alloc);
    checkpoints.mark(name, states[0])?;
    Ok(Checkpointed {
        checkpoints,
        beside,
    })
}
