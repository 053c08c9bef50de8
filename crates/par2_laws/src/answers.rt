//! Laws of the result of a repair, whichever call returns it: `plan_repair` of `par2_plan` or `Session::repair` of
//! `par2_journal`, whose contracts need them. The result is the folder that is left, or a fault.

ghost use Rattle.par2_spec.specs.Prelude.{RefusedRepairLeavesTwoLists, RepairLeavesEachFile, RepairRestoresTheFiles, RepairRestoresTheInputs};

/// A repair that returns the result of the definitions restores the files that its set was made from. `RestoresFiles`:
/// an accepted repair leaves them all, no MD5 is wrong, and it is refused only if other slices agree as well.
pub fn repair_restores_the_files()
    ensures { RepairRestoresTheFiles }
{}

/// A repair that returns the result of the definitions restores the inputs of a create, after damage that changes or
/// adds no `.par2` file. `RestoresInputs` says the same of the inputs as `RestoresFiles`.
pub fn repair_restores_the_inputs()
    ensures { RepairRestoresTheInputs }
{}

/// An accepted repair that doesn't purge leaves each file as `HoldsRepaired` says: targets have their bytes, files that
/// were put aside are under their asides, and all others are as before.
pub fn repair_leaves_each_file()
    ensures { RepairLeavesEachFile }
{}

/// If a repair is refused as not repairable, whatever files the set was made from, at least two lists of slices agree
/// with the known slices and with the recovery slices of the kept exponents, even if the surviving recovery slices
/// contradict each other. Nothing calls it.
pub fn refused_repair_leaves_two_lists()
    ensures { RefusedRepairLeavesTwoLists }
{}
