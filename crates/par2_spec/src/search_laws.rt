//! The law of sets that can be read. It is the contract of an empty function.

ghost use Rattle.std.specs.Prelude.{◌≡◌, ℕ, List, Ok};
ghost use Rattle.par2_spec.specs.Folders.{Folder};
ghost use Rattle.par2_spec.specs.Sets.{ParSet, set_of, IsSound};

/// Every set that can be read is sound: its names are valid and distinct, its slice size is in the profile, each slice
/// has checksums, and recovery slices have the slice size. `set_of` of `par2_sets` needs it.
pub fn set_is_sound()
    ensures { (f : Folder) (base : List ℕ) (set : ParSet) → set_of f base ≡ Ok set → IsSound set }
{}
