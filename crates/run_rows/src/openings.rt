//! Openings of the folder with only the file `a`.

use crate::inputs::args_of;
use crate::scene::{Refusal, Scene};
use crate::session_calls::{create, encode, open, settled};
use anyhow::{Error, Result};
use par2_folder::Folder;
use par2_journal::{Halfway, Opened, Session};
use par2_slices::crc32;
use recovery_calls::folder_of;
use std::alloc::{AllocError, Global};
use std::mem;

// The journal of a halfway create of `t.par2`, made by another program, from the formats alone.
const HALFWAY_JOURNAL: &[u8] = b"P2UNDO2\n\
    \xd3\x68\x83\xb6\x33\x05\xc2\x0b\x65\xe4\x20\x6a\x90\x61\x28\xc1\
    \0\0\0\0\0\0\0\0\0\0\0\0\0\0\0\0\x01\x01\0\0\0\0\0\0\0\
    \x14\x34\xa4\x51\x54\x3d\x21\xe1\x7e\x2c\xec\x58\x38\x6a\xb5\xf7\x04\x06t.par2\
    \x30\x59\x57\xd2\x7b\x05\x01\x6f\xb4\x88\xb9\x87\x54\x2a\x93\xcc";

/// A folder and the journal of a create that was undone, the same folder opened with the other journal, and the results
/// of the calls.
#[derive(Drop)]
pub struct Openings {
    folder: Folder,
    journal: Vec<u8>,
    halfway: Halfway,
    bytes: Vec<u8>,
    number: usize,
}

fn folder_with_a(alloc: Global) -> Result<Folder, AllocError> {
    folder_of(alloc, &[("a", b"abcdefgh")])
}

// The journal after a create was done and undone.
fn journal_of(alloc: Global) -> Result<Vec<u8>> {
    let mut session = Session::new(alloc, folder_with_a(alloc)?);
    if create(&mut session, &args_of(alloc, "t.par2")?).is_err() || session.undo().is_err() {
        return Err(Error::msg("no create"));
    }
    Ok(encode(&session)?)
}

fn halfway_of(alloc: Global) -> Result<Halfway> {
    match open(alloc, folder_with_a(alloc)?, HALFWAY_JOURNAL) {
        Ok(Opened::Halfway(halfway)) => Ok(halfway),
        _ => Err(Error::msg("nothing is halfway")),
    }
}

impl Openings {
    /// Before the first call.
    pub fn new(alloc: Global) -> Result<Openings> {
        Ok(Openings {
            folder: folder_with_a(alloc)?,
            journal: journal_of(alloc)?,
            halfway: halfway_of(alloc)?,
            bytes: Vec::new(alloc),
            number: 0,
        })
    }

    // Opens the folder, which a refusal returns.
    fn open(&mut self, alloc: Global, is_halfway: bool) -> Result<(), Refusal> {
        let folder = mem::replace(&mut self.folder, Folder::new(alloc));
        let bytes = if is_halfway {
            HALFWAY_JOURNAL
        } else {
            self.journal.as_slice()
        };
        match open(alloc, folder, bytes) {
            Ok(Opened::Halfway(halfway)) => self.number = halfway.changes().len(),
            Ok(Opened::Settled(session)) => self.number = session.redo_depth(),
            Err((fault, folder)) => {
                self.folder = folder;
                return Err(fault.into());
            }
        }
        Ok(())
    }
}

impl Scene for Openings {
    fn call(&mut self, alloc: Global, name: &str) -> Result<(), Refusal> {
        match name {
            "Halfway::settled" => {
                self.bytes = settled(&self.halfway)?;
                Ok(())
            }
            _ => self.open(alloc, name == "Session::open halfway"),
        }
    }

    fn show(&mut self, rt: &HostRuntime) -> Result<()> {
        let print = self.folder.fingerprint()?;
        println!(rt; "  {}, {:032x}", self.number, u128::from_be_bytes(print))?;
        println!(rt; "  {} bytes, {:08x}", self.bytes.len(), crc32(&self.bytes))?;
        Ok(())
    }
}
