//! The program `par2`: runs in the current directory, on the disk and the standard writers. Everything else is in
//! `par2_tool::start`, which is proved over any store and any two writers.
#![tactic(auto)]

use par2_disk::DiskStore;
use par2_output::Printer;
use par2_tool::start;
use std::env;
use std::process::ExitCode;

// Passes the arguments, the current directory and the standard writers to `start`, and exits with the status that it
// returns. `rt` is the runtime, through which all system calls are made.
fn main(rt: HostRuntime) -> ExitCode {
    let mut out = Printer::new(rt.stdout());
    let mut err = Printer::new(rt.stderr());
    let mut store = DiskStore::new(&rt);
    let given = env::args(&rt);
    ExitCode::from(start(rt.alloc(), given, &mut store, &mut out, &mut err))
}
