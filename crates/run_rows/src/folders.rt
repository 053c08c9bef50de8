//! Folders, stores in memory and plans.

use crate::calls::{
    folder_of, journal_of, names_of, put_journal, read_file, replace_file, write_file,
};
use crate::inputs::{args_of, damaged, name_of, protected};
use crate::scene::{Refusal, Scene};
use anyhow::Result;
use par2_folder::{Change, Folder, MemoryStore, Name};
use par2_journal::CreateArgs;
use par2_plan::{Changes, check, plan_create, plan_purge, plan_repair};
use par2_slices::crc32;
use std::alloc::Global;

/// The inputs of the calls: folders of a set whose file `a` was cut and is whole, a store with the file `a` and a
/// journal, and the words of a create. Then their results.
#[derive(Drop)]
pub struct Folders {
    folder: Folder,
    whole: Folder,
    store: MemoryStore,
    name: Name,
    other: Name,
    args: CreateArgs,
    changes: Changes,
    names: Vec<Name>,
    bytes: Vec<u8>,
    print: [u8; 16],
    number: usize,
}

// A store with the file `a` and a journal.
fn store_of(alloc: Global, name: &Name) -> Result<MemoryStore> {
    let mut store = MemoryStore::new(alloc);
    write_file(&mut store, name, b"abcdefgh")?;
    put_journal(&mut store, b"journal")?;
    Ok(store)
}

// The checksums of the bytes that the changes write, added up.
fn sum_of(changes: &[Change]) -> u64 {
    let mut sum = 0u64;
    for change in changes {
        if let Change::Write(_, bytes) = change {
            sum = sum.wrapping_add(u64::from(crc32(bytes.as_slice())));
        }
    }
    sum
}

impl Folders {
    /// Before the first call.
    pub fn new(alloc: Global) -> Result<Folders> {
        let name = name_of("a")?;
        Ok(Folders {
            folder: damaged(alloc)?,
            whole: protected(alloc)?,
            store: store_of(alloc, &name)?,
            name,
            other: name_of("b")?,
            args: args_of(alloc, "u.par2")?,
            changes: Changes::new(alloc),
            names: Vec::new(alloc),
            bytes: Vec::new(alloc),
            print: [0; 16],
            number: 0,
        })
    }

    // Calls of a folder.
    fn look(&mut self, name: &str) -> Result<(), Refusal> {
        match name {
            "Folder::names" => self.names = self.folder.names()?,
            "Folder::fingerprint" => self.print = self.folder.fingerprint()?,
            _ => {
                self.folder.reserve(100)?;
                self.number = usize::from(self.folder.vacant() >= 100);
            }
        }
        Ok(())
    }

    // Reading calls of a store.
    fn read(&mut self, alloc: Global, name: &str) -> Result<(), Refusal> {
        match name {
            "MemoryStore::names" => self.names = names_of(alloc, &mut self.store)?,
            "MemoryStore::read" => self.bytes = read_file(alloc, &mut self.store, &self.name)?,
            "MemoryStore::read_journal" => {
                self.bytes = journal_of(alloc, &mut self.store)?.ok_or(Refusal::Other)?;
            }
            _ => self.folder = folder_of(alloc, &mut self.store)?,
        }
        Ok(())
    }

    // Writing calls of a store.
    fn write(&mut self, name: &str) -> Result<(), Refusal> {
        match name {
            "MemoryStore::write" => write_file(&mut self.store, &self.other, b"new")?,
            "MemoryStore::replace" => replace_file(&mut self.store, &self.name, b"new")?,
            _ => put_journal(&mut self.store, b"new journal")?,
        }
        Ok(())
    }

    fn plan(&mut self, alloc: Global, name: &str) -> Result<(), Refusal> {
        self.changes = match name {
            "plan_create" => plan_create(alloc, &self.folder, &self.args)?,
            "plan_purge" => plan_purge(alloc, &self.whole, "t.par2")?,
            _ => plan_repair(alloc, &self.folder, "t.par2", &[], true)?,
        };
        Ok(())
    }

    fn check(&mut self, alloc: Global) -> Result<(), Refusal> {
        let report = check(alloc, &self.folder, "t.par2", &[])?;
        self.number = report.lost;
        Ok(())
    }
}

impl Scene for Folders {
    fn call(&mut self, alloc: Global, name: &str) -> Result<(), Refusal> {
        match name {
            "Folder::names" | "Folder::fingerprint" | "Folder::reserve" => self.look(name),
            "MemoryStore::write" | "MemoryStore::replace" | "MemoryStore::put_journal" => {
                self.write(name)
            }
            "plan_create" | "plan_repair" | "plan_purge" => self.plan(alloc, name),
            "check" => self.check(alloc),
            _ => self.read(alloc, name),
        }
    }

    fn show(&mut self, rt: &HostRuntime) -> Result<()> {
        println!(rt; "  {:?}, {}", self.names, self.number)?;
        println!(rt; "  {:032x}", u128::from_be_bytes(self.print))?;
        println!(rt; "  {} bytes, {:08x}", self.bytes.len(), crc32(&self.bytes))?;
        println!(rt;
            "  {} changes, {}",
            self.changes.len(),
            sum_of(self.changes.as_slice())
        )?;
        Ok(())
    }
}
