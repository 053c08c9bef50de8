//! The lines that the program prints: reports, steps, notes and failures, written through a [`Printer`] that counts its
//! writer's failures. par2_tool prints with it. It must not know sessions and stores: it gets names, numbers and
//! verdicts.
#![tactic(auto)]

mod failure;
mod printer;
mod report;

pub use failure::write_failure;
pub use printer::{Printer, WriteFault, Written};
pub use report::{
    PrintedState, PrintedStep, PrintedTarget, write_done, write_note, write_set, write_step,
    write_target, write_verdict,
};
