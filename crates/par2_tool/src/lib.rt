//! The whole program, generic over its store and its two writers: it opens a store as a session, performs a command on
//! both and prints the outcome. The binary and the tests of whole runs use it. It must not know the bytes of packets
//! and journals, nor the system calls behind a store.
#![tactic(auto)]

mod headline;
mod opening;
mod performing;
mod printing;

pub use headline::{
    run, runs_keep_one_history, start, stores_open_in_one_way, undone_runs_lead_back,
};
pub use opening::{OpenFault, Started, open_store};
pub use par2_arguments::{WordsFault, read_words};
pub use par2_journal::{Report, Session, SessionFault, State, Step, Steps, TargetReport};
pub use par2_output::Printer;
pub use par2_spec::{Action, Command, CreateArgs, Failure, Fault};
pub use performing::{Outcome, PerformFault, perform};
