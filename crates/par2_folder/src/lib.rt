//! Names, a flat folder in memory and its changes, and the stores that keep a folder: in memory, in a directory on
//! disk, and one that fails after some calls. It re-exports `par2_files`, `par2_disk` and `par2_stores`.
//!
//! Tests, figures and users of the libraries depend on it, because it has these types in one place. The program doesn't
//! depend on it. It has no code of its own.
#![tactic(auto)]

pub use par2_disk::{Count, DiskStore, FolderStore, ReadFault, Store, StoreFault, read_folder};
pub use par2_files::{BadName, Bytes, Change, ChangeFault, Changes, Folder, Name, copies_of};
pub use par2_stores::{FuseStore, MemoryStore};
