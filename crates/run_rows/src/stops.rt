//! Runs that are stopped because the store fails from some call on, and the runs after them.

use crate::files::{copy_of, fingerprint_of};
use crate::rows::{Answer, answer_of, reported, row, show, status_reported};
use anyhow::Result;
use par2_stores::{FuseStore, MemoryStore};
use std::alloc::Global;

// More calls than a run makes of its store.
const MANY_CALLS: u64 = 20;

const STORE_FAILED: u8 = 6;

/// A copy of a store that fails once this many calls were made, with or without doing its work first.
pub fn failing(
    alloc: Global,
    store: &mut MemoryStore,
    passed: u64,
    works: bool,
) -> Result<FuseStore<MemoryStore>> {
    Ok(FuseStore::new(copy_of(alloc, store)?, passed, works))
}

/// Runs words that come after the number of calls before the store fails.
pub fn stop(rt: &HostRuntime, store: &mut MemoryStore, rest: &str) -> Result<()> {
    let (passed, line) = rest.split_once(' ').unwrap_or(("0", rest));
    let mut failing = failing(rt.alloc(), store, passed.parse()?, false)?;
    let _answer = answer_of(rt.alloc(), &mut failing, line)?;
    *store = failing.into_inner();
    Ok(())
}

/// Runs words as `stop` does, and prints the result.
pub fn reported_stop(rt: &HostRuntime, store: &mut MemoryStore, rest: &str) -> Result<()> {
    let (passed, line) = rest.split_once(' ').unwrap_or(("0", rest));
    let mut failing = failing(rt.alloc(), store, passed.parse()?, false)?;
    reported(rt, &mut failing, line)?;
    *store = failing.into_inner();
    Ok(())
}

// Runs words on a store that fails, and the next words on what it leaves. Returns whether the first run was stopped.
fn is_stopped(
    rt: &HostRuntime,
    mut store: FuseStore<MemoryStore>,
    line: &str,
    next: &str,
) -> Result<bool> {
    let status = status_reported(rt, &mut store, line)?;
    let mut left = store.into_inner();
    show(rt, &mut left)?;
    row(rt, &mut left, next)?;
    Ok(status == STORE_FAILED)
}

/// Stops a run at each of its calls. The run that comes next is after it and a semicolon.
pub fn stop_each(rt: &HostRuntime, store: &mut MemoryStore, rest: &str) -> Result<()> {
    let (line, next) = rest.split_once("; ").unwrap_or((rest, ""));
    for works in [false, true] {
        for passed in 0..MANY_CALLS {
            println!(rt; "{passed} calls, then failures, work done first: {works}")?;
            let failing = failing(rt.alloc(), store, passed, works)?;
            if !is_stopped(rt, failing, line, next)? {
                break;
            }
        }
    }
    Ok(())
}

// Prints the words of a line, the status of its run and the bytes that it wrote.
fn say(rt: &HostRuntime, line: &str, answer: &Answer) -> Result<()> {
    let bytes = answer.bytes(rt.alloc())?;
    println!(rt; "  [{line}] {} {:?}", answer.status, bytes.as_str())?;
    Ok(())
}

// Runs the same words again, which lead to the same folder whether or not they were performed before. Then undoes one
// command.
fn go_on(rt: &HostRuntime, left: &mut MemoryStore, line: &str, wanted: [u8; 16]) -> Result<()> {
    say(rt, line, &answer_of(rt.alloc(), left, line)?)?;
    if fingerprint_of(rt.alloc(), left)? != wanted {
        println!(rt; "  and the files are others")?;
    }
    say(rt, "undo", &answer_of(rt.alloc(), left, "undo")?)
}

// Runs words on a store that fails, and continues with what it leaves. Returns whether the run was stopped.
fn is_repeated(
    rt: &HostRuntime,
    mut store: FuseStore<MemoryStore>,
    line: &str,
    wanted: [u8; 16],
) -> Result<bool> {
    let answer = answer_of(rt.alloc(), &mut store, line)?;
    println!(rt; "{}", answer.status)?;
    if answer.status != STORE_FAILED {
        return Ok(false);
    }
    go_on(rt, &mut store.into_inner(), line, wanted)?;
    Ok(true)
}

// The folder after the words of a line were run on a copy of the store.
fn folder_after(alloc: Global, store: &mut MemoryStore, line: &str) -> Result<[u8; 16]> {
    let mut copy = copy_of(alloc, store)?;
    let _answer = answer_of(alloc, &mut copy, line)?;
    fingerprint_of(alloc, &mut copy)
}

/// Stops a run at each of its calls, until it isn't stopped any more, and runs it again.
pub fn stop_and_repeat(rt: &HostRuntime, store: &mut MemoryStore, line: &str) -> Result<()> {
    let wanted = folder_after(rt.alloc(), store, line)?;
    for works in [false, true] {
        for passed in 0..MANY_CALLS {
            print!(rt; "{passed} calls, then failures, work done first: {works}: ")?;
            let failing = failing(rt.alloc(), store, passed, works)?;
            if !is_repeated(rt, failing, line, wanted)? {
                break;
            }
        }
    }
    Ok(())
}
