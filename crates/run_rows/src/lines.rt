//! The lines of the input: a word, a space and the word's arguments.

use crate::disk;
use crate::files::{clear, forget, put_bytes, remove};
use crate::growths::grow;
use crate::library_calls::{call, call_all};
use crate::rows::{answer_of, reported, row, show};
use crate::scarce_memory::want_memory;
use crate::sessions::{failing_session, session};
use crate::stopping_output::stop_output;
use crate::stops::{reported_stop, stop, stop_and_repeat, stop_each};
use crate::ways_back::{go_and_return, put_digits, refuse};
use crate::words::read;
use anyhow::{Error, Result};
use par2_stores::MemoryStore;

// Prints a line.
fn say(rt: &HostRuntime, bytes: &str) -> Result<()> {
    println!(rt; "{bytes}")?;
    Ok(())
}

// Runs the words of a line.
fn run(rt: &HostRuntime, store: &mut MemoryStore, line: &str) -> Result<()> {
    let _answer = answer_of(rt.alloc(), store, line)?;
    Ok(())
}

// Sessions, runs on stores that fail or run out of memory, and calls of the libraries.
fn fail(rt: &HostRuntime, store: &mut MemoryStore, word: &str, rest: &str) -> Result<()> {
    match word {
        "session" => session(rt, store),
        "session-failing" => failing_session(rt, store, rest == "after"),
        "stop" => stop(rt, store, rest),
        "stop-told" => reported_stop(rt, store, rest),
        "stop-each" => stop_each(rt, store, rest),
        "stop-and-repeat" => stop_and_repeat(rt, store, rest),
        "want-memory" => want_memory(rt, store, rest),
        "output-fails" => stop_output(rt, store, rest, true),
        "output-full" => stop_output(rt, store, rest, false),
        "grow" => grow(rt, store, rest),
        "call" => call(rt, rest),
        "call-all" => call_all(rt),
        _ => Err(Error::msg("no such word")),
    }
}

// Commands, and the stores that they leave.
fn command(rt: &HostRuntime, store: &mut MemoryStore, word: &str, rest: &str) -> Result<()> {
    match word {
        "run" => run(rt, store, rest),
        "told" => reported(rt, store, rest),
        "row" => row(rt, store, rest),
        "return" => go_and_return(rt, store, rest),
        "refused" => refuse(rt, store, rest),
        _ => fail(rt, store, word, rest),
    }
}

// Carries out a line. Empty lines and lines that begin with `#` are skipped.
fn carry_out(rt: &HostRuntime, store: &mut MemoryStore, line: &str) -> Result<()> {
    let (word, rest) = line.split_once(' ').unwrap_or((line, ""));
    match word {
        "" | "#" => Ok(()),
        "say" => say(rt, rest),
        "new" => clear(rt.alloc(), store),
        "put" => put_bytes(store, rest),
        "remove" => remove(store, rest),
        "journal" => put_digits(rt, store, rest),
        "no-journal" => forget(rt.alloc(), store),
        "show" => show(rt, store),
        "words" => read(rt, rest),
        "disk" => disk::call(rt, rest),
        _ => command(rt, store, word, rest),
    }
}

/// Carries out the lines of the input, on a store in memory that is empty at first.
pub fn carry_out_all(rt: &HostRuntime) -> Result<()> {
    let mut store = MemoryStore::new(rt.alloc());
    for line in rt.lines(rt.alloc()) {
        carry_out(rt, &mut store, line?.as_str())?;
    }
    Ok(())
}
