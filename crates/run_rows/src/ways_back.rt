//! Commands that are undone and redone, and refused commands: what they print, and whether files and journal are as
//! before.

use crate::calls::{journal_of, names_of, put_journal, read_file};
use crate::files::fingerprint_of;
use crate::rows::reported;
use anyhow::{Error, Result};
use par2_files::Name;
use par2_stores::MemoryStore;

// The bytes of a file up to this size are printed.
const SHORT_FILE: usize = 32;

// Prints a file with its bytes, or with their number if there are many.
fn show_file(rt: &HostRuntime, store: &mut MemoryStore, name: &Name) -> Result<()> {
    let bytes = read_file(rt.alloc(), store, name)?;
    if bytes.len() > SHORT_FILE {
        println!(rt; "  {}: {} bytes", name.as_str(), bytes.len())?;
        return Ok(());
    }
    let string = String::from_utf8_lossy(rt.alloc(), &bytes)?;
    println!(rt; "  {}: {:?}", name.as_str(), string.as_str())?;
    Ok(())
}

fn show_files(rt: &HostRuntime, store: &mut MemoryStore) -> Result<()> {
    for name in &names_of(rt.alloc(), store)? {
        show_file(rt, store, name)?;
    }
    Ok(())
}

// Runs the words of a line, and prints whether the files then have this fingerprint.
fn lead_to(
    rt: &HostRuntime,
    store: &mut MemoryStore,
    line: &str,
    print: [u8; 16],
    when: &str,
) -> Result<()> {
    reported(rt, store, line)?;
    let same = fingerprint_of(rt.alloc(), store)? == print;
    println!(rt; "  files as {when}: {same}")?;
    Ok(())
}

/// Runs the words of a line, undoes them and redoes them.
pub fn go_and_return(rt: &HostRuntime, store: &mut MemoryStore, line: &str) -> Result<()> {
    let before = fingerprint_of(rt.alloc(), store)?;
    reported(rt, store, line)?;
    show_files(rt, store)?;
    let after = fingerprint_of(rt.alloc(), store)?;
    lead_to(rt, store, "undo", before, "before")?;
    lead_to(rt, store, "redo", after, "after")
}

/// Runs the words of a line, which have to be refused.
pub fn refuse(rt: &HostRuntime, store: &mut MemoryStore, line: &str) -> Result<()> {
    let (journal, print) = (
        journal_of(rt.alloc(), store)?,
        fingerprint_of(rt.alloc(), store)?,
    );
    lead_to(rt, store, line, print, "before")?;
    let same = journal_of(rt.alloc(), store)? == journal;
    println!(rt; "  journal as before: {same}")?;
    Ok(())
}

/// Puts the journal that these hexadecimal digits spell.
pub fn put_digits(rt: &HostRuntime, store: &mut MemoryStore, digits: &str) -> Result<()> {
    match hex::decode(rt.alloc(), digits) {
        Ok(bytes) => Ok(put_journal(store, &bytes)?),
        Err(_) => Err(Error::msg("no hexadecimal digits")),
    }
}
