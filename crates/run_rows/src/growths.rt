//! Calls that come after a printed line that begins with `>`. `tests/calls_out_of_memory.py` refuses each growth up to
//! the next line.

use crate::calls::{journal_of, print_of};
use crate::files::fingerprint_of;
use crate::rows::{answer_to, parted};
use anyhow::{Error, Result};
use par2_arguments::read_words;
use par2_stores::MemoryStore;
use par2_tool::{Command, Session, open_store, perform};
use std::alloc::Global;

// Prints what a store holds.
fn hold(rt: &HostRuntime, store: &mut MemoryStore) -> Result<()> {
    let files = u128::from_be_bytes(fingerprint_of(rt.alloc(), store)?);
    let journal = journal_of(rt.alloc(), store)?;
    println!(rt; "  {files:032x} {journal:?}")?;
    Ok(())
}

// Prints the state of a session.
fn stand(rt: &HostRuntime, session: &Session) -> Result<()> {
    let files = u128::from_be_bytes(print_of(session.folder())?);
    let (undos, redos) = (session.undo_depth(), session.redo_depth());
    println!(rt; "  {files:032x} {undos} {redos}")?;
    Ok(())
}

// Opens a store, and returns whether that succeeded.
fn is_opened(rt: &HostRuntime, store: &mut MemoryStore) -> Result<bool> {
    match open_store(rt.alloc(), store) {
        Ok(started) => {
            println!(rt; "opened")?;
            stand(rt, &started.session)?;
            Ok(true)
        }
        Err(fault) => {
            println!(rt; "{fault:?}")?;
            Ok(false)
        }
    }
}

// Opens a store, and again if that is refused.
fn open(rt: &HostRuntime, store: &mut MemoryStore) -> Result<()> {
    for _ in 0..2 {
        hold(rt, store)?;
        println!(rt; ">")?;
        if is_opened(rt, store)? {
            break;
        }
    }
    hold(rt, store)
}

// Reads the words of a line, and again if they are refused.
fn read(rt: &HostRuntime, line: &str) -> Result<()> {
    let words = parted(rt.alloc(), line)?;
    for _ in 0..2 {
        println!(rt; ">")?;
        match read_words(rt.alloc(), &words) {
            Ok(command) => return Ok(println!(rt; "{command:?}")?),
            Err(fault) => println!(rt; "{fault:?}")?,
        }
    }
    Ok(())
}

// Runs the words of a line, and opens the store that this leaves.
fn run(rt: &HostRuntime, store: &mut MemoryStore, line: &str) -> Result<()> {
    let words = parted(rt.alloc(), line)?;
    hold(rt, store)?;
    println!(rt; ">")?;
    let answer = answer_to(rt.alloc(), store, &words);
    println!(rt; "{}", answer.status)?;
    hold(rt, store)?;
    is_opened(rt, store)?;
    Ok(())
}

// The command of a line.
fn command_of(alloc: Global, line: &str) -> Result<Command> {
    match read_words(alloc, &parted(alloc, line)?) {
        Ok(command) => Ok(command),
        Err(_) => Err(Error::msg("no command")),
    }
}

// The session that a store opens as.
fn session_of(alloc: Global, store: &mut MemoryStore) -> Result<Session> {
    match open_store(alloc, store) {
        Ok(started) => Ok(started.session),
        Err(_) => Err(Error::msg("the store can't be opened")),
    }
}

// Performs the command of a line, and opens the store that this leaves.
fn act(rt: &HostRuntime, store: &mut MemoryStore, line: &str) -> Result<()> {
    let command = command_of(rt.alloc(), line)?;
    let mut session = session_of(rt.alloc(), store)?;
    hold(rt, store)?;
    println!(rt; ">")?;
    match perform(rt.alloc(), store, &mut session, &command) {
        Ok(_) => println!(rt; "performed")?,
        Err(fault) => println!(rt; "{fault:?}")?,
    }
    hold(rt, store)?;
    stand(rt, &session)?;
    is_opened(rt, store)?;
    Ok(())
}

/// Makes the call whose name comes first in `rest`, on the line after it.
pub fn grow(rt: &HostRuntime, store: &mut MemoryStore, rest: &str) -> Result<()> {
    let (call, line) = rest.split_once(' ').unwrap_or((rest, ""));
    match call {
        "read_words" => read(rt, line),
        "open_store" => open(rt, store),
        "perform" => act(rt, store, line),
        "run" => run(rt, store, line),
        _ => Err(Error::msg("no such call")),
    }
}
