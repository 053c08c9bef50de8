//! Laws of reversible changes to a `FolderState`, which has a folder's files and counts its vacant places. So undoing
//! takes no memory. Each law is the contract of an empty function, which nothing calls.

ghost use Rattle.std.specs.Prelude.{◌≡◌, List, None, IsTrue};
ghost use Rattle.par2_spec.specs.Changes.{Change, FolderState, change_refusal, takes_all};
ghost use Rattle.par2_spec.specs.Laws.{IsReversible, AreReversible};

/// A folder takes the inverse of a change that it took. Files and vacant places are then as before, and the inverse of
/// the inverse is the change.
pub fn kept_folder_takes_a_change_back()
    ensures { (s : FolderState) (x : Change) → change_refusal s x ≡ None → IsReversible s x }
{}

/// A folder takes the way back of changes that it took: their inverses, the last one first. Files and vacant places are
/// then as before, and the way back of the way back is the changes.
pub fn kept_folder_takes_changes_back()
    ensures { (s : FolderState) (xs : List Change) → IsTrue (takes_all s xs) → AreReversible s xs }
{}
