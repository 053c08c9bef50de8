//! Calls of names, folders and stores, each in a function without a contract. For the prover: it sees only the types of
//! such a call.

use par2_folder::{Folder, FolderStore, Name, ReadFault, StoreFault, read_folder};
use par2_transform::Place;
use std::alloc::Global;
use std::process::Abort;

pub fn name(rt: &(impl Abort + AllocGlobal), bytes: &str) -> Name {
    Name::new(bytes).expect(rt, "a name")
}

pub fn bytes_in<'a>(folder: &'a Folder, name: &Name) -> Option<&'a [u8]> {
    folder.get(name)
}

pub fn fingerprint(rt: &(impl Abort + AllocGlobal), folder: &Folder) -> [u8; 16] {
    folder.fingerprint().expect(rt, "memory")
}

fn names_in(rt: &(impl Abort + AllocGlobal), folder: &Folder) -> Vec<Name> {
    folder.names().expect(rt, "memory")
}

/// Whether these are the names, in this order.
pub fn are_named(names: &[Name], wanted: &[&str]) -> bool {
    for (name, bytes) in names.iter().zip(wanted.iter()) {
        if name.as_str() != *bytes {
            return false;
        }
    }
    names.len() == wanted.len()
}

/// Whether the folder has exactly these names.
pub fn lists(rt: &(impl Abort + AllocGlobal), folder: &Folder, wanted: &[&str]) -> bool {
    are_named(&names_in(rt, folder), wanted)
}

/// These bytes, each as a list of its own.
pub fn lists_of(rt: &(impl Abort + AllocGlobal), buffers: &[&[u8]]) -> Vec<Vec<u8>> {
    let mut lists = Vec::new(rt.alloc());
    for bytes in buffers {
        lists
            .push(bytes.to_vec(rt.alloc()).expect(rt, "memory"))
            .expect(rt, "memory");
    }
    lists
}

/// The places of outputs: the number of a buffer and the first byte in it.
pub fn places_of(rt: &(impl Abort + AllocGlobal), pairs: &[(usize, usize)]) -> Vec<Place> {
    let mut places = Vec::new(rt.alloc());
    for (buffer, at) in pairs {
        let place = Place {
            buffer: *buffer,
            at: *at,
        };
        places.push(place).expect(rt, "memory");
    }
    places
}

/// Whether these are the buffers, in this order.
pub fn are_buffers(buffers: &[Vec<u8>], wanted: &[&[u8]]) -> bool {
    for (bytes, other) in buffers.iter().zip(wanted.iter()) {
        if bytes.as_slice() != *other {
            return false;
        }
    }
    buffers.len() == wanted.len()
}

pub fn folder_of<S: FolderStore>(rt: &(impl Abort + AllocGlobal), store: &mut S) -> Folder {
    read_folder(rt.alloc(), store).expect(rt, "a folder")
}

pub fn names_of<S: FolderStore>(alloc: Global, store: &mut S) -> Result<Vec<Name>, ReadFault> {
    store.names(alloc)
}

pub fn read<S: FolderStore>(
    alloc: Global,
    store: &mut S,
    name: &Name,
) -> Result<Vec<u8>, ReadFault> {
    store.read(alloc, name)
}

pub fn read_journal<S: FolderStore>(
    alloc: Global,
    store: &mut S,
) -> Result<Option<Vec<u8>>, ReadFault> {
    store.read_journal(alloc)
}

pub fn write<S: FolderStore>(store: &mut S, name: &Name, bytes: &[u8]) -> Result<(), StoreFault> {
    store.write(name, bytes)
}

pub fn replace<S: FolderStore>(store: &mut S, name: &Name, bytes: &[u8]) -> Result<(), StoreFault> {
    store.replace(name, bytes)
}

pub fn rename<S: FolderStore>(store: &mut S, from: &Name, to: &Name) -> Result<(), StoreFault> {
    store.rename(from, to)
}

pub fn remove<S: FolderStore>(store: &mut S, name: &Name) -> Result<(), StoreFault> {
    store.remove(name)
}

pub fn put_journal<S: FolderStore>(store: &mut S, bytes: &[u8]) -> Result<(), StoreFault> {
    store.put_journal(bytes)
}
