//! The set that the PAR2 packets of a folder describe. `par2_verify` calls `set_of` for each command on a set, then
//! `par2_repair` calls `asides` for a repair, and `par_files` for a purge. It searches no slices and repairs nothing: it
//! reads one folder in memory, and names files.
#![tactic(auto)]

mod set;

pub use set::{ParSet, ReadSet, Target, asides, par_files, set_of};
