//! Laws of sets whose packets or volumes are those of known files: they were made from these files. Nothing calls them.

ghost use Rattle.par2_spec.specs.Prelude.{PacketsTellTheFiles, VolumesTellTheFiles};

/// If a set can be read, and each packet with its Recovery Set ID is one of these files' packets (`AreAllOf`), the set
/// was made from these files, in this order. Another program may have written the packets.
pub fn packets_tell_the_files()
    ensures { PacketsTellTheFiles }
{}

/// If the base is a volume of these files, and each other file whose name ends in `.par2` is one too or has no packet
/// of their set, the set of the base was made from these files. It does not matter which volumes are left, or which
/// creates wrote them.
pub fn volumes_tell_the_files()
    ensures { VolumesTellTheFiles }
{}
