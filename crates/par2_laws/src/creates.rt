//! The guarantee of a create: a later repair that is accepted restores its inputs. `FollowsCreate` has the premises: the
//! create was accepted, the damage changes or adds no `.par2` file, and no checksum collides. `FitsCreate`: the earlier
//! folder is as on a disk, and its other `.par2` files are volumes of these files or have no packets of their set.

ghost use Rattle.par2_spec.specs.Prelude.{CreatedFilesHaveAChoice, CreatedFilesMayBeRefused, RepairGivesTheCreatedFilesBack, CreatedSetIsMadeFromItsFiles};

/// After an accepted create, and after damage that changes or adds no `.par2` file but may remove some, the set of each
/// remaining base was made from the inputs of the create. So the laws of such sets apply to it. Nothing calls it.
pub fn created_set_is_made_from_its_files()
    ensures { CreatedSetIsMadeFromItsFiles }
{}

/// An accepted repair leaves each input as it was at the create, also one that purges. A user who creates recovery
/// files relies on it, and the contract of `run` of `par2_tool` needs it.
pub fn repair_gives_the_created_files_back()
    ensures { RepairGivesTheCreatedFilesBack }
{}

/// A repair after a create is refused only for an absent extra file, too few slices, or too long an aside
/// (`may_refuse`). The set can be read, and rebuilt files have their MD5s.
pub fn repair_of_created_files_is_refused_for_few_causes()
    ensures { CreatedFilesMayBeRefused }
{}

/// A repair after a create is refused as not repairable only if slices other than the inputs' also agree with
/// everything that is found (`HaveAChoice`), so a repair can't tell which to write.
pub fn created_files_not_repairable_have_a_choice()
    ensures { CreatedFilesHaveAChoice }
{}
