//! Folders and stores: the time to read, look up and change a folder of 1,000 and of 10,000 names, and the speed of a
//! fingerprint and of MD5. A file can also be read by the store alone, for others to measure.

use crate::clock::{megabytes_a_second, nanos_since, start};
use crate::digest;
use crate::random::random_bytes;
use anyhow::Result;
use par2_folder::{
    Bytes, Change, DiskStore, Folder, FolderStore, MemoryStore, Name, ReadFault, StoreFault,
    read_folder,
};
use std::alloc::{AllocError, Global};
use std::io;
use std::time::Instant;

const SIZE: usize = 64 << 20;

fn name_of(string: &str) -> Result<Name> {
    match Name::new(string) {
        Ok(name) => Ok(name),
        Err(fault) => Err(fault.into()),
    }
}

fn named(alloc: Global, number: usize) -> Result<Name> {
    name_of(format!(in alloc; "file {number:05}")?.as_str())
}

// For the prover: calls of stores and folders, without contracts, so that it sees only their types.

fn put(store: &mut MemoryStore, name: &Name) -> Result<(), StoreFault> {
    store.write(name, b"bytes")
}

fn folder_of(alloc: Global, store: &mut MemoryStore) -> Result<Folder, ReadFault> {
    read_folder(alloc, store)
}

fn names_in(folder: &Folder) -> Result<Vec<Name>, AllocError> {
    folder.names()
}

fn is_there(folder: &Folder, name: &Name) -> bool {
    folder.get(name).is_some()
}

fn apply(folder: &mut Folder, change: &mut Change) {
    let _answer = folder.apply(change);
}

fn reserve(folder: &mut Folder) -> Result<(), AllocError> {
    folder.reserve(1)
}

fn first_of_fingerprint(folder: &Folder) -> Result<u8, AllocError> {
    Ok(folder.fingerprint()?[0])
}

fn bytes_on_disk(rt: &HostRuntime, name: &Name) -> Result<Vec<u8>, ReadFault> {
    DiskStore::new(rt).read(rt.alloc(), name)
}

fn filled(alloc: Global, count: usize) -> Result<MemoryStore> {
    let mut store = MemoryStore::new(alloc);
    for number in 0..count {
        put(&mut store, &named(alloc, number)?)?;
    }
    Ok(store)
}

// The nanoseconds since that moment, for each of `count`.
fn each(rt: &HostRuntime, start: Instant, count: usize) -> io::Result<u128> {
    Ok(nanos_since(rt, start)? / (count as u128).max(1))
}

fn report(rt: &HostRuntime, what: &str, start: Instant, count: usize) -> io::Result<()> {
    println!(rt; "  {what}: {} ns each", each(rt, start, count)?)
}

fn look_up(rt: &HostRuntime, folder: &Folder, names: &[Name]) -> io::Result<()> {
    let start = start(rt)?;
    let found = names.iter().filter(|name| is_there(folder, name)).count();
    let each = each(rt, start, names.len())?;
    println!(rt; "  look up: {each} ns each ({found} found)")
}

// Removes a file and writes it again.
fn remove_and_write(folder: &mut Folder, name: &Name) {
    let mut change = Change::Remove(name.copied());
    apply(folder, &mut change);
    apply(folder, &mut change);
}

fn remove_and_write_each(rt: &HostRuntime, folder: &mut Folder, names: &[Name]) -> io::Result<()> {
    let start = start(rt)?;
    for name in names {
        remove_and_write(folder, name);
    }
    report(rt, "remove and write", start, names.len())
}

// A change that replaces the bytes of the first file.
fn replacement(alloc: Global) -> Result<Change> {
    let bytes = Bytes::copy_of(alloc, b"other")?;
    Ok(Change::Replace(named(alloc, 0)?, bytes))
}

// Replaces the bytes of a file as often as there are files.
fn replace_often(rt: &HostRuntime, folder: &mut Folder, count: usize) -> Result<()> {
    let mut change = replacement(rt.alloc())?;
    let start = start(rt)?;
    for _ in 0..count {
        apply(folder, &mut change);
    }
    Ok(report(rt, "replace", start, count)?)
}

fn look_up_and_change(rt: &HostRuntime, folder: &mut Folder, names: &[Name]) -> Result<()> {
    look_up(rt, folder, names)?;
    remove_and_write_each(rt, folder, names)?;
    replace_often(rt, folder, names.len())
}

fn measure_put(rt: &HostRuntime, count: usize) -> Result<MemoryStore> {
    let start = start(rt)?;
    let store = filled(rt.alloc(), count)?;
    report(rt, "put", start, count)?;
    Ok(store)
}

fn measure_read(rt: &HostRuntime, store: &mut MemoryStore, count: usize) -> Result<Folder> {
    let start = start(rt)?;
    let folder = folder_of(rt.alloc(), store)?;
    report(rt, "read", start, count)?;
    Ok(folder)
}

fn measure_names(rt: &HostRuntime, count: usize) -> Result<()> {
    println!(rt; "{count} names")?;
    let mut store = measure_put(rt, count)?;
    let mut folder = measure_read(rt, &mut store, count)?;
    let names = names_in(&folder)?;
    look_up_and_change(rt, &mut folder, &names)
}

// A folder of one file.
fn folder_with(alloc: Global, bytes: Vec<u8>) -> Result<Folder> {
    let mut folder = Folder::new(alloc);
    reserve(&mut folder)?;
    apply(
        &mut folder,
        &mut Change::Write(named(alloc, 0)?, bytes.into()),
    );
    Ok(folder)
}

fn measure_fingerprint(rt: &HostRuntime, folder: &Folder) -> io::Result<()> {
    let start = start(rt)?;
    let first = first_of_fingerprint(folder)?;
    let rate = megabytes_a_second(SIZE, nanos_since(rt, start)?);
    println!(rt; "fingerprint: {rate} MB/s (first byte {first})")
}

fn measure_fingerprints(rt: &HostRuntime) -> Result<()> {
    let bytes = random_bytes(rt.alloc(), SIZE, 1)?;
    digest::measure(rt, &bytes)?;
    let folder = folder_with(rt.alloc(), bytes)?;
    Ok(measure_fingerprint(rt, &folder)?)
}

/// Reads a file of the current directory through the store, and prints its length.
pub fn read_file(rt: &HostRuntime, path: &str) -> Result<()> {
    let bytes = bytes_on_disk(rt, &name_of(path)?)?;
    println!(rt; "{} bytes", bytes.len())?;
    Ok(())
}

pub fn measure(rt: &HostRuntime) -> Result<()> {
    measure_names(rt, 1000)?;
    measure_names(rt, 10000)?;
    measure_fingerprints(rt)
}
