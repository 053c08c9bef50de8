//! Stores for tests and for users of the libraries: one in memory, and one that passes some calls on and then fails.
//!
//! The program uses neither. They must not know the directory on disk, nor what a journal's bytes mean.
#![tactic(auto)]

mod fuse;
mod memory;

pub use fuse::FuseStore;
pub use memory::MemoryStore;
