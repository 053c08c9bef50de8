//! Changes of a store's files from outside the program, and copies of a store.

use crate::calls::{
    folder_of, journal_of, names_of, print_of, put_journal, read_file, remove_file, replace_file,
    write_file,
};
use anyhow::Result;
use par2_disk::StoreFault;
use par2_files::Name;
use par2_stores::MemoryStore;
use std::alloc::Global;

/// The name with this string.
pub fn name_of(string: &str) -> Result<Name> {
    match Name::new(string) {
        Ok(name) => Ok(name),
        Err(fault) => Err(fault.into()),
    }
}

/// Removes all files and the journal.
pub fn clear(alloc: Global, store: &mut MemoryStore) -> Result<()> {
    *store = MemoryStore::new(alloc);
    Ok(())
}

/// Writes a file, or replaces it: `rest` is its name and its content.
pub fn put_bytes(store: &mut MemoryStore, rest: &str) -> Result<()> {
    let (name, string) = rest.split_once(' ').unwrap_or((rest, ""));
    let name = name_of(name)?;
    match replace_file(store, &name, string.as_bytes()) {
        Ok(()) => Ok(()),
        Err(StoreFault) => Ok(write_file(store, &name, string.as_bytes())?),
    }
}

/// Removes a file.
pub fn remove(store: &mut MemoryStore, string: &str) -> Result<()> {
    Ok(remove_file(store, &name_of(string)?)?)
}

// Writes a file of a store into another one.
fn copy_file(
    alloc: Global,
    store: &mut MemoryStore,
    copy: &mut MemoryStore,
    name: &Name,
) -> Result<()> {
    let bytes = read_file(alloc, store, name)?;
    Ok(write_file(copy, name, &bytes)?)
}

// A store with the same files.
fn files_of(alloc: Global, store: &mut MemoryStore) -> Result<MemoryStore> {
    let mut copy = MemoryStore::new(alloc);
    for name in &names_of(alloc, store)? {
        copy_file(alloc, store, &mut copy, name)?;
    }
    Ok(copy)
}

/// A store with the same files and the same journal.
pub fn copy_of(alloc: Global, store: &mut MemoryStore) -> Result<MemoryStore> {
    let mut copy = files_of(alloc, store)?;
    if let Some(journal) = journal_of(alloc, store)? {
        put_journal(&mut copy, &journal)?;
    }
    Ok(copy)
}

/// Removes the journal.
pub fn forget(alloc: Global, store: &mut MemoryStore) -> Result<()> {
    *store = files_of(alloc, store)?;
    Ok(())
}

/// The fingerprint of a store's folder.
pub fn fingerprint_of(alloc: Global, store: &mut MemoryStore) -> Result<[u8; 16]> {
    Ok(print_of(&folder_of(alloc, store)?)?)
}
