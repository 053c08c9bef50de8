//! Stores of a flat folder and its journal: what each call does, even if it fails or the power is cut, and the store
//! over a directory on disk.
//!
//! The program and its output depend on it. It must not know what a journal's bytes mean, nor anything of PAR2.
#![tactic(auto)]

mod current;
mod disk;
mod store;

pub use current::read_within;
pub use disk::{DiskStore, FolderStore, read_folder};
pub use store::{Count, ReadFault, Store, StoreFault};
