//! What a create makes of its arguments and its input files before it computes recovery slices: the names of inputs
//! and volumes, the records of the inputs, their slices and the index; or why it is refused. `par2_create` plans by it,
//! and `par2_recovery` describes sets by it. It works on a folder in memory. It computes no recovery slices, and knows
//! neither changes nor checkpoints.
#![tactic(auto)]

mod inputs;
mod records;

pub use inputs::{
    Input, Volume, bad_name, contents_of, existing, files_fault, index_name, input_names,
    inputs_in, no_duplicate, volumes,
};
pub use records::{Parts, file_record_by_md5, file_records, index_of, input_slices, sorted_by_id};
