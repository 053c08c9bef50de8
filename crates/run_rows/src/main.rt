//! Carries out the lines of its input and prints the results. A line has words that are read, words that are run on
//! stores in memory (it prints the files, their lengths and the journal's length), actions on one session, calls on
//! real folders, or calls of the libraries that can return out of memory. Words are also run on stores that fail or run
//! out of memory at the first of their calls, at the second, and so on until none is refused. `tests/commands/run.py`
//! carries out whole commands in any folder.
//!
//! `tests/calls_out_of_memory.py` has this program make calls of which it refuses a growth.
//!
//! Memory suffices unless a store reports otherwise, so the stored output also fails a `run` that always returns out of
//! memory. `rt run` builds the program; `rt try` takes minutes and can't go into real folders.
#![tactic(auto)]

mod buffers;
mod calls;
mod disk;
mod files;
mod folders;
mod growths;
mod inputs;
mod library_calls;
mod library_sessions;
mod lines;
mod openings;
mod rows;
mod scarce_memory;
mod scene;
mod session_calls;
mod sessions;
mod stopping_output;
mod stops;
mod systems;
mod ways_back;
mod words;

use anyhow::Result;
use lines::carry_out_all;

fn main(rt: HostRuntime) -> Result<()> {
    carry_out_all(&rt)
}
