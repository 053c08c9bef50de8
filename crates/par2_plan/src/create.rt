//! A create without checkpoints, for callers that have no session.
ghost use Rattle.std.specs.Prelude.{IsTrue, IfOk};
ghost use Rattle.par2_spec.specs.Prelude.{are_applicable, Create, FailsAs, GivesChanges, LeadsAs, RefusesEarly, SucceedsAs, create_args_of};

use par2_files::{Changes, Checkpoints, Folder};
use par2_spec::{CreateArgs, Fault};
use std::alloc::Global;

/// The changes of a create, which writes its outputs in order, the index first. Memory is reported only if an
/// allocation fails. Unlike `plan_create` of `par2_create` it neither takes nor returns checkpoints, which spare a session
/// from hashing files again. Only tests call it.
pub fn plan_create(alloc: Global, folder: &Folder, args: &CreateArgs) -> Result<Changes, Fault>
    // It is refused as the definitions say, or memory ran out; early refusals need no memory.
    ensures refused { FailsAs folder.now.files (Create (create_args_of args.now)) result }
    ensures accepted { SucceedsAs folder.now.files (Create (create_args_of args.now)) result }
    ensures early { RefusesEarly folder.now.files (Create (create_args_of args.now)) result }
    // The changes are those of the definitions. They apply in order and lead to their folder.
    ensures changes { GivesChanges folder.now.files (Create (create_args_of args.now)) result }
    ensures applies { IfOk result (λ changes. IsTrue (are_applicable folder.now.files changes)) }
    ensures leads { LeadsAs folder.now.files (Create (create_args_of args.now)) result }
{
    let made = par2_create::plan_create(alloc, folder, args, &Checkpoints::none(alloc))?;
    Ok(made.changes)
}
