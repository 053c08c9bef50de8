//! Laws of repair: the names of asides, and the files that are cut out of slices. Each law is the contract of an empty
//! function.

ghost use Rattle.par2_spec.specs.Laws.{AsidesAreFound, FilesHaveTheirSize, TrueSlicesAreRebuilt};

/// There is always an aside, the name to which a file is put aside: NAME.n with the least free number. It is valid if
/// it is not too long, and distinct names have distinct asides. `asides` of `par2_sets` needs it.
pub fn aside_is_found()
    ensures { AsidesAreFound }
{}

/// Files that are cut out of slices have the lengths that the set describes, if the slices have its number and size.
/// `restored_files` of `par2_repair` needs it.
pub fn written_files_have_their_length()
    ensures { FilesHaveTheirSize }
{}

/// If a set was made from known files, no checksum collides and the lost slices are determined, the rebuilt slices are
/// those of the files. Nothing calls it.
pub fn true_slices_are_rebuilt()
    ensures { TrueSlicesAreRebuilt }
{}
