//! A repair whose written files are checked, for callers that have no session.

ghost use Rattle.std.specs.Prelude.{◌≡◌, ◌⊎◌, IsTrue, IfErr, IfOk, OnOk};
ghost use Rattle.par2_spec.specs.Prelude.{are_applicable, effects, AreFewFor, RestoresFiles, RestoresInputs, folder_left, FailsAs, GivesChanges, LeadsAs, RefusesEarly, SucceedsAs, repair_of};
ghost use Rattle.par2_repair.specs.Repairing.{HasItsMd5s, WritesAsDescribed};
ghost use Rattle.par2_verify.specs.Findings.{words};

use par2_files::{Changes, Folder};
use par2_laws::answers::{repair_restores_the_files, repair_restores_the_inputs};
use par2_md5_lanes::buffer_digests;
use par2_repair::{Draft, draft_repair};
use par2_spec::{Fault, Result};
use std::alloc::Global;

// The changes of a draft, if the written files have the MD5s that the set describes (`HasItsMd5s`).
fn tested(alloc: Global, draft: Draft) -> Result<Changes, Fault>
    ensures changes { IfOk result (λ changes. changes ≡ draft.changes) }
    ensures right { OnOk result (HasItsMd5s draft) }
    ensures wrong { IfErr result (λ fault. (fault ≡ Fault.Memory) ⊎ ((¬ (HasItsMd5s draft))
        × (fault ≡ Fault.RepairFailed))) }
{
    let md5s = buffer_digests(alloc, &draft.buffers(alloc)?)?;
    draft.tested(&md5s)
}

/// The changes of a repair whose written files have the described MD5s. If the set was made from certain files, and
/// no checksum collides, the changes lead to a folder that has these files. The program doesn't call it,
/// because a session drafts its repairs.
pub fn plan_repair(
    alloc: Global,
    folder: &Folder,
    base: &str,
    extras: &[String],
    purge: bool,
) -> Result<Changes, Fault>
    // It is refused as the definitions say, or memory ran out; early refusals need no memory.
    ensures refused { FailsAs folder.now.files (repair_of base.now extras.now purge) result }
    ensures accepted { SucceedsAs folder.now.files (repair_of base.now extras.now purge) result }
    ensures early { RefusesEarly folder.now.files (repair_of base.now extras.now purge) result }
    // The changes are those of the definitions. They apply in order and lead to their folder.
    ensures changes { GivesChanges folder.now.files (repair_of base.now extras.now purge) result }
    ensures applies { IfOk result (λ changes. IsTrue (are_applicable folder.now.files changes)) }
    ensures leads { LeadsAs folder.now.files (repair_of base.now extras.now purge) result }
    // Each file that is written from slices has the described length and MD5, whatever the folder's
    // files hold. The folder has few enough names to number the asides.
    ensures written { OnOk result (WritesAsDescribed folder.now.files base.now (words extras.now)) }
    ensures few { OnOk result (AreFewFor folder.now.files (repair_of base.now extras.now purge)) }
    // If the set was made from certain files, and no checksum collides, they are in the folder
    // that the changes lead to. RepairFailed isn't returned, and NotRepairable only if other
    // slices, too, agree with all that is found.
    ensures restores { RestoresFiles folder.now.files base.now (words extras.now)
        (folder_left (effects folder.now.files) result) }
    // The same holds for a create's inputs that were damaged after it.
    ensures inputs { RestoresInputs folder.now.files base.now (words extras.now)
        (folder_left (effects folder.now.files) result) }
{
    repair_restores_the_files();
    repair_restores_the_inputs();
    let draft = draft_repair(alloc, folder, base, extras, purge)?;
    tested(alloc, draft)
}
