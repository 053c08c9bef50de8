//! A flat folder in memory, changes that are replaced by their inverses when applied, and fingerprints of a folder
//! before and after each change. A session plans `Changes` on a `Folder`, fingerprints the folders that they lead to,
//! because its journal stores these fingerprints, and then applies the changes.
//!
//! Stores, journals, PAR2 sets, create and repair depend on it. It must not know packets, journals or disks.
#![tactic(auto)]

mod change;
mod folder;
mod name;
mod snapshot;
mod walk;

pub use change::{Bytes, Change, Changes, copies_of};
pub use folder::Folder;
pub use name::{BadName, Name, is_reserved};
pub use par2_spec::ChangeFault;
pub use walk::{
    Checkpointed, Checkpoints, Digests, FolderFingerprint, checkpoint_at,
    fingerprint_with_checkpoints, fingerprints,
};
