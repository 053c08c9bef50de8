//! Calls of stores and folders, each in a function without a contract. For the prover: it sees only the types of such a
//! call.

use par2_disk::{FolderStore, ReadFault, StoreFault, read_folder};
use par2_files::{Folder, Name};
use std::alloc::{AllocError, Global};

/// The names of the files.
pub fn names_of<S: FolderStore>(alloc: Global, store: &mut S) -> Result<Vec<Name>, ReadFault> {
    store.names(alloc)
}

/// The bytes of a file.
pub fn read_file<S: FolderStore>(
    alloc: Global,
    store: &mut S,
    name: &Name,
) -> Result<Vec<u8>, ReadFault> {
    store.read(alloc, name)
}

/// The journal, if there is one.
pub fn journal_of<S: FolderStore>(
    alloc: Global,
    store: &mut S,
) -> Result<Option<Vec<u8>>, ReadFault> {
    store.read_journal(alloc)
}

/// Writes a file under a name that no file has.
pub fn write_file<S: FolderStore>(
    store: &mut S,
    name: &Name,
    bytes: &[u8],
) -> Result<(), StoreFault> {
    store.write(name, bytes)
}

/// Replaces the bytes of a file.
pub fn replace_file<S: FolderStore>(
    store: &mut S,
    name: &Name,
    bytes: &[u8],
) -> Result<(), StoreFault> {
    store.replace(name, bytes)
}

/// Renames a file.
pub fn rename_file<S: FolderStore>(
    store: &mut S,
    from: &Name,
    to: &Name,
) -> Result<(), StoreFault> {
    store.rename(from, to)
}

/// Removes a file.
pub fn remove_file<S: FolderStore>(store: &mut S, name: &Name) -> Result<(), StoreFault> {
    store.remove(name)
}

/// Replaces the journal.
pub fn put_journal<S: FolderStore>(store: &mut S, bytes: &[u8]) -> Result<(), StoreFault> {
    store.put_journal(bytes)
}

/// The folder of a store.
pub fn folder_of<S: FolderStore>(alloc: Global, store: &mut S) -> Result<Folder, ReadFault> {
    read_folder(alloc, store)
}

/// The fingerprint of a folder.
pub fn print_of(folder: &Folder) -> Result<[u8; 16], AllocError> {
    folder.fingerprint()
}
