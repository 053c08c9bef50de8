//! Runs on a store, and their results.

use crate::calls::{journal_of, names_of, read_file};
use anyhow::Result;
use par2_disk::FolderStore;
use par2_files::Name;
use par2_stores::MemoryStore;
use par2_tool::{Printer, run};
use std::alloc::{AllocError, Global};
use std::io::Write;

/// The result of a run.
#[derive(Drop)]
pub struct Answer {
    pub status: u8,
    out: Vec<u8>,
    err: Vec<u8>,
}

impl Answer {
    /// The bytes that the run wrote on its two writers.
    pub fn bytes(&self, alloc: Global) -> Result<String, AllocError> {
        let mut bytes = Vec::from_slice(alloc, &self.out)?;
        bytes.extend_from_slice(&self.err)?;
        String::from_utf8_lossy(alloc, &bytes)
    }
}

/// The words of a line, which spaces separate.
pub fn parted(alloc: Global, line: &str) -> Result<Vec<String>, AllocError> {
    let mut words = Vec::new(alloc);
    for word in line.split_whitespace() {
        words.push(String::from_str(alloc, word)?)?;
    }
    Ok(words)
}

/// A printer over a byte buffer.
pub fn printer(alloc: Global) -> Printer<Vec<u8>> {
    Printer::new(Vec::new(alloc))
}

// The bytes that a printer wrote.
fn bytes_on(printer: Printer<Vec<u8>>) -> Vec<u8> {
    printer.into_inner()
}

/// The status of a run.
pub fn status_of<S: FolderStore, O: Write>(
    alloc: Global,
    words: &[String],
    store: &mut S,
    out: &mut Printer<O>,
    err: &mut Printer<Vec<u8>>,
) -> u8 {
    run(alloc, words, store, out, err)
}

/// Runs words on a store.
pub fn answer_to<S: FolderStore>(alloc: Global, store: &mut S, words: &[String]) -> Answer {
    let mut out = printer(alloc);
    let mut err = printer(alloc);
    let status = status_of(alloc, words, store, &mut out, &mut err);
    Answer {
        status,
        out: bytes_on(out),
        err: bytes_on(err),
    }
}

/// Runs the words of a line on a store.
pub fn answer_of<S: FolderStore>(alloc: Global, store: &mut S, line: &str) -> Result<Answer> {
    let words = parted(alloc, line)?;
    Ok(answer_to(alloc, store, &words))
}

/// Prints what was written to a writer, if anything.
pub fn show_bytes(rt: &HostRuntime, writer: &str, bytes: &[u8]) -> Result<()> {
    if bytes.is_empty() {
        return Ok(());
    }
    let bytes = String::from_utf8_lossy(rt.alloc(), bytes)?;
    println!(rt; "  {writer} {:?}", bytes.as_str())?;
    Ok(())
}

/// Runs the words of a line on a store, and prints the status and what was written. Returns the status.
pub fn status_reported<S: FolderStore>(rt: &HostRuntime, store: &mut S, line: &str) -> Result<u8> {
    let answer = answer_of(rt.alloc(), store, line)?;
    println!(rt; "[{line}] {}", answer.status)?;
    show_bytes(rt, "output", &answer.out)?;
    show_bytes(rt, "error", &answer.err)?;
    Ok(answer.status)
}

/// Runs the words of a line on a store, and prints the status and what was written.
pub fn reported<S: FolderStore>(rt: &HostRuntime, store: &mut S, line: &str) -> Result<()> {
    let _status = status_reported(rt, store, line)?;
    Ok(())
}

// Prints a file with its length, or the reason why it can't be read.
fn show_length<S: FolderStore>(rt: &HostRuntime, store: &mut S, name: &Name) -> Result<()> {
    match read_file(rt.alloc(), store, name) {
        Ok(bytes) => println!(rt; "  file {}: {}", name.as_str(), bytes.len())?,
        Err(fault) => println!(rt; "  file {}: {fault:?}", name.as_str())?,
    }
    Ok(())
}

// Prints the files with their lengths, as far as the store returns them.
fn show_files<S: FolderStore>(rt: &HostRuntime, store: &mut S) -> Result<()> {
    match names_of(rt.alloc(), store) {
        Ok(names) => {
            for name in &names {
                show_length(rt, store, name)?;
            }
        }
        Err(fault) => println!(rt; "  names: {fault:?}")?,
    }
    Ok(())
}

/// Prints the journal's length.
pub fn show_journal<S: FolderStore>(rt: &HostRuntime, store: &mut S) -> Result<()> {
    match journal_of(rt.alloc(), store) {
        Ok(Some(bytes)) => println!(rt; "  journal: {}", bytes.len())?,
        Ok(None) => println!(rt; "  no journal")?,
        Err(fault) => println!(rt; "  journal: {fault:?}")?,
    }
    Ok(())
}

/// Prints the files with their lengths, and the journal's length.
pub fn show<S: FolderStore>(rt: &HostRuntime, store: &mut S) -> Result<()> {
    show_files(rt, store)?;
    show_journal(rt, store)
}

/// Runs the words of a line on a store, and prints the result and the store's contents afterwards.
pub fn row(rt: &HostRuntime, store: &mut MemoryStore, line: &str) -> Result<()> {
    reported(rt, store, line)?;
    show(rt, store)
}
