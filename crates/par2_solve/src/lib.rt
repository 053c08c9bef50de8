//! The mathematics of recovery: computes recovery slices from input slices (`write_recovery_slices`) and rebuilds lost
//! slices from recovery slices (`rebuild_lost`). Creating and repairing sets build on it. It works on bytes in memory and
//! doesn't know files, packets or volumes. `par2_matrix` has the equations, and says by `rank` whether a repair is possible;
//! `par2_transform` computes many recovery slices at once.
#![tactic(auto)]

mod additions;
mod holes;
mod inverse;
mod products;
mod rebuild_slices;
mod room;
mod targets;

pub use additions::{numbers_from, write_recovery_slices};
pub use products::blank;
pub use rebuild_slices::{RebuildFault, Survivors, rebuild, rebuild_lost};
