//! Laws of repair for sets that were made from known files, if no checksum collides: `IsTrueTo`. The contract of `run`
//! of `par2_tool` needs them.

ghost use Rattle.par2_spec.specs.Prelude.{AcceptedRepairLeavesTheFiles, RefusedRepairLeavesAChoice, RepairNeverFails};

/// A repair is never refused as `RepairFailed`, because each rebuilt file is the original one and has its MD5.
pub fn repair_never_fails()
    ensures { RepairNeverFails }
{}

/// An accepted repair leaves each of the original files under its name and with its bytes, also one that purges.
pub fn accepted_repair_leaves_the_files()
    ensures { AcceptedRepairLeavesTheFiles }
{}

/// A repair is refused as not repairable only if slices other than the files' also agree with everything that is found,
/// so a repair can't tell which to write.
pub fn refused_repair_leaves_a_choice()
    ensures { RefusedRepairLeavesAChoice }
{}
