//! Plans a create: has `par2_inputs` describe the input files, computes the recovery slices, and returns the changes that
//! write the index and the volumes, or why the command is refused. Sessions (`par2_journal`) build on it. It works on a
//! folder in memory and doesn't know stores, journals or printed lines.
#![tactic(auto)]

mod create;
mod volumes;

pub use create::{Creation, plan_create};
pub use par2_spec::{CreateArgs, Fault};
