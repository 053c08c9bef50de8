//! Library calls that can return out of memory, each on a small input of its own. The state is printed before and after
//! each.
//!
//! `tests/calls_out_of_memory.py` refuses each growth between a line that begins with `>` and the next one. A call that
//! returns out of memory is made once more.

use crate::buffers::Buffers;
use crate::folders::Folders;
use crate::library_sessions::Sessions;
use crate::openings::Openings;
use crate::scene::tell;
use crate::systems::Systems;
use anyhow::{Error, Result};

// The inputs of the calls, and the calls.
const CALLS: &[(&str, &[&str])] = &[
    (
        "buffers",
        &[
            "Gf::new",
            "Wanted::new",
            "find",
            "find_among",
            "Rolling::new",
            "pairs_of",
            "append_main",
            "append_desc",
            "append_ifsc",
            "append_creator",
            "append_recovery",
            "digest_recoveries",
            "SetRecord::of_files",
            "recovery_slice",
            "recovery_slices",
            "recovery_slices_over",
            "write_recovery_slices",
            "add_recovery_slices_at",
            "whole_buffers",
            "rank",
            "rebuild",
            "rebuild_lost",
        ],
    ),
    ("systems", &["System::new", "System::offer"]),
    (
        "folders",
        &[
            "Folder::names",
            "Folder::fingerprint",
            "Folder::reserve",
            "MemoryStore::names",
            "MemoryStore::read",
            "MemoryStore::read_journal",
            "MemoryStore::write",
            "MemoryStore::replace",
            "MemoryStore::put_journal",
            "read_folder",
            "plan_create",
            "plan_repair",
            "plan_purge",
            "check",
        ],
    ),
    (
        "sessions",
        &[
            "Session::create",
            "Session::repair",
            "Session::repair with a purge",
            "Session::purge",
            "Session::verify",
            "Session::prepare",
            "Session::journals",
            "Session::encode",
            "Session::play",
            "Session::play of two",
        ],
    ),
    (
        "openings",
        &["Session::open", "Session::open halfway", "Halfway::settled"],
    ),
];

// Makes a call.
fn call_one(rt: &HostRuntime, place: &str, name: &str) -> Result<()> {
    match place {
        "buffers" => tell(rt, Buffers::new(rt.alloc())?, name),
        "systems" => tell(rt, Systems::new(rt.alloc())?, name),
        "folders" => tell(rt, Folders::new(rt.alloc())?, name),
        "sessions" => tell(rt, Sessions::new(rt.alloc())?, name),
        "openings" => tell(rt, Openings::new(rt.alloc())?, name),
        _ => Err(Error::msg("no such place")),
    }
}

/// Makes the call that a line names: its place in `CALLS`, a space and its name.
pub fn call(rt: &HostRuntime, line: &str) -> Result<()> {
    match line.split_once(' ') {
        Some((place, name)) => call_one(rt, place, name),
        None => Err(Error::msg("no name")),
    }
}

/// Makes all calls, each after a line with its place and name.
pub fn call_all(rt: &HostRuntime) -> Result<()> {
    for (place, names) in CALLS {
        for name in *names {
            println!(rt; "{place}: {name}")?;
            call_one(rt, place, name)?;
        }
    }
    Ok(())
}
