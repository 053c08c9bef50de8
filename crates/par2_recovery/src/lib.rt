//! The library's calls for recovery, in this order: `SetRecord::of_files` records a set's files, `recovery_slice`
//! computes a recovery slice over them, and `rebuild` rebuilds lost slices from recovery slices. `par2_inputs` makes
//! the records and cuts the slices, and `par2_matrix` and `par2_solve` compute. The program doesn't use this crate;
//! tests and users of the library do. It works on folders in memory and doesn't know stores, packets' bytes or
//! sessions.
#![tactic(auto)]

mod records;
mod slices;

pub use par2_matrix::rank;
pub use par2_solve::{RebuildFault, Survivors, rebuild};
pub use records::{RecordFault, SetRecord};
pub use slices::{recovery_slice, recovery_slices_over};
