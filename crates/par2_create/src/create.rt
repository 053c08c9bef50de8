//! Plans a create: the changes that write its outputs, or the fault for which it is refused. `plan_create` checks the
//! arguments and the inputs, describes the inputs, names the volumes, and lists the changes.
#![tactic(auto)]

ghost use Rattle.std.specs.Prelude.{◌≡◌, map, string_bytes, IfOk, None, ◌++◌, OnOk, ◌≤◌, IsTrue};
ghost use Rattle.par2_spec.specs.Prelude.{create_args_of, bad_name, after, effects, are_applicable, Create, FailsFor, changes_of, FailsAs, RefusesEarly, SucceedsAs};
ghost use Rattle.par2_files.specs.Folders.{change_of};
ghost use Rattle.par2_inputs.specs.Causes.{inputs_fault};
ghost use Rattle.par2_create.specs.Outputs.{put_change, RecordsInputs, as_file};
ghost use Rattle.par2_files.specs.Checkpoints.{AreCheckpointsOf};

use crate::volumes::volume_files;
use par2_files::{Bytes, Change, Changes, Checkpoints, Folder, Name, checkpoint_at};
use par2_inputs::{
    Parts, bad_name, contents_of, existing, file_records, files_fault, index_name, index_of,
    input_names, inputs_in, no_duplicate, sorted_by_id, volumes,
};
use par2_packets::{DuplicateId, FileRecord};
use par2_spec::{CreateArgs, Fault, Result};
use std::alloc::Global;

/// The change that writes a file, or replaces it if it exists already.
pub fn put_change(folder: &Folder, name: Name, bytes: Vec<u8>) -> Change
    ensures { change_of result ≡ put_change folder.now.files (name, bytes.items) }
{
    if folder.get(&name).is_some() {
        Change::Replace(name, Bytes::from(bytes))
    } else {
        Change::Write(name, Bytes::from(bytes))
    }
}

/// Appends the changes that write these files.
pub fn push_files(changes: &mut Changes, folder: &Folder, files: Vec<(Name, Vec<u8>)>) -> Result<()>
    ensures { let added = map (λ file. put_change folder.now.files (as_file file)) files.items in
        OnOk result (changes.new ≡ changes.old ++ added) }
{
    for (name, bytes) in files {
        changes.push(put_change(folder, name, bytes))?;
    }
    Ok(())
}

/// The plan of a create.
#[derive(Drop)]
pub struct Creation {
    pub changes: Changes,
    /// Checkpoints of the folder, for the fingerprints of the folders that these changes lead to. They were computed
    /// side by side with the MD5s of the inputs.
    pub checkpoints: Checkpoints,
}

// The records of the inputs, if nothing is wrong with them. Their MD5s are computed side by side with a checkpoint of
// the folder at `name`, the index, which is the least name that a create writes.
#[tactic(auto, unfolding(par2_inputs::specs::Causes::inputs_fault))]
fn records_of_inputs(
    alloc: Global,
    folder: &Folder,
    args: &CreateArgs,
    from: &Checkpoints,
    name: &Name,
) -> Result<(Vec<FileRecord>, Checkpoints), Fault>
    // The slice size and the names are valid, and `from` has checkpoints of this folder.
    requires slice { 1 ≤ args.now.slice }
    requires words { bad_name (map string_bytes args.now.inputs.items) ≡ None }
    requires checkpoints { AreCheckpointsOf folder.now.files from.now }
    // It fails for the first cause that the inputs give, or for lack of memory, and succeeds only
    // if there is no cause.
    ensures refused { FailsFor (inputs_fault folder.now.files (create_args_of args.now)) result }
    ensures passed { OnOk result (inputs_fault folder.now.files (create_args_of args.now) ≡ None) }
    // The records are in the order of the File IDs, and the checkpoints are of this folder.
    ensures records { IfOk result (λ r. RecordsInputs folder.now.files (create_args_of args.now) r.0.items) }
    ensures checkpoints { IfOk result (λ found. AreCheckpointsOf folder.now.files found.1) }
{
    let names = input_names(alloc, &args.inputs)?;
    no_duplicate(alloc, &names)?;
    let inputs = inputs_in(alloc, folder, &names)?;
    if let Some(fault) = files_fault(folder, &inputs, args.slice) {
        return Err(fault);
    }
    let contents = contents_of(alloc, &inputs)?;
    let checkpointed = checkpoint_at(alloc, folder, from, name, &contents)?;
    let records = file_records(alloc, &inputs, &checkpointed.beside, args.slice)?;
    match sorted_by_id(records) {
        Ok(records) => Ok((records, checkpointed.checkpoints)),
        Err(DuplicateId) => Err(Fault::DuplicateId),
    }
}

/// The changes of a create, which write its outputs in order, or why it is refused. It returns `Memory` only if an
/// allocation fails. The checkpoints in `from` save hashing the files before them again. A session calls it;
/// `par2_plan` has a `plan_create` without checkpoints.
#[tactic(auto, unfolding(par2_spec::specs::Refusals::early_refusal))]
pub fn plan_create(
    alloc: Global,
    folder: &Folder,
    args: &CreateArgs,
    from: &Checkpoints,
) -> Result<Creation, Fault>
    // The checkpoints are of this folder.
    requires { AreCheckpointsOf folder.now.files from.now }
    // It fails for the first cause, or for lack of memory, and succeeds only if there is no cause.
    // An early refusal is never reported as a lack of memory.
    ensures refused { FailsAs folder.now.files (Create (create_args_of args.now)) result }
    ensures accepted { SucceedsAs folder.now.files (Create (create_args_of args.now)) result }
    ensures early { RefusesEarly folder.now.files (Create (create_args_of args.now)) result }
    // The changes are those of the create. They apply to the folder and lead to the one after it.
    ensures changes { IfOk result (λ made. made.changes
        ≡ changes_of folder.now.files (Create (create_args_of args.now))) }
    ensures applies { IfOk result (λ made. IsTrue (are_applicable folder.now.files made.changes)) }
    ensures leads { IfOk result (λ made. effects folder.now.files made.changes
        ≡ after folder.now.files (Create (create_args_of args.now))) }
    // The new checkpoints are of this folder.
    ensures checkpoints { IfOk result (λ made. AreCheckpointsOf folder.now.files made.checkpoints) }
{
    let base = index_name(args)?;
    if let Some(fault) = bad_name(&args.inputs) {
        return Err(fault);
    }
    let (records, checkpoints) = records_of_inputs(alloc, folder, args, from, &base)?;
    let volumes = volumes(alloc, &base, args.first, args.count)?;
    if let Some(fault) = existing(folder, args.overwrite, &base, &volumes) {
        return Err(fault);
    }
    let (set_id, index) = index_of(alloc, args.slice, &records)?;
    let parts = Parts {
        index,
        set_id,
        slice: args.slice,
        files: &records,
        folder,
        volumes: &volumes,
    };
    let files = volume_files(alloc, &parts)?;
    let mut changes = Changes::new(alloc);
    changes.push(put_change(folder, base, parts.index))?;
    push_files(&mut changes, folder, files)?;
    Ok(Creation {
        changes,
        checkpoints,
    })
}
