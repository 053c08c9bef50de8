//! The field, searches, packets and recovery slices, over the file `a` in slices of 4 bytes.

use crate::scene::{Refusal, Scene};
use anyhow::{Error, Result};
use par2_folder::{Folder, Name};
use par2_gf16::Gf;
use par2_packets::{
    FileRecord, Pair, append_creator, append_desc, append_ifsc, append_main, append_recovery,
    digest_recoveries, with_undigested,
};
use par2_recovery::{SetRecord, Survivors, rank, recovery_slices_over};
use par2_slices::{Position, Rolling, Wanted, crc32, find, find_among, pairs_of};
use par2_transform::{Place, whole_buffers};
use recovery_calls::{
    folder_of, lost_rebuilt, rebuilt, recovery_slice_of, recovery_slices_of, set_of, slices_added,
    slices_written,
};
use std::alloc::{AllocError, Global};
use std::slice::from_ref;

const BYTES: &[u8] = b"abcdefgh";

// The second slice, and the sum of both.
const SECOND: &[u8] = b"efgh";

const SUM: &[u8] = b"\x04\x04\x04\x0c";

const SET_ID: &[u8; 16] = b"0123456789abcdef";

// Two outputs of four bytes in a buffer of ten.
const OUTPUTS: &[Place] = &[Place { buffer: 0, at: 1 }, Place { buffer: 0, at: 6 }];

/// The inputs of the calls: the field, the file and its record in a set, and the checksums of its slices. Then their
/// results.
#[derive(Drop)]
pub struct Buffers {
    gf: Gf,
    folder: Folder,
    set: SetRecord,
    wanted: Wanted,
    records: Vec<FileRecord>,
    pairs: Vec<Pair>,
    positions: Vec<Option<Position>>,
    buffers: Vec<Vec<u8>>,
    bytes: Vec<u8>,
    number: usize,
}

fn set_over(alloc: Global, folder: &Folder) -> Result<SetRecord> {
    match set_of(alloc, folder, &["a"], 4)? {
        Some(Ok(set)) => Ok(set),
        _ => Err(Error::msg("no set")),
    }
}

// What survives if the first slice is lost.
fn survivors(alloc: Global) -> Result<Survivors<'static>, AllocError> {
    Ok(Survivors {
        slice: 4,
        known: vec![in alloc; None, Some(SECOND)]?,
        recovery: vec![in alloc; (0, SUM)]?,
    })
}

// A buffer of ten zeros.
fn zeros(alloc: Global) -> Result<Vec<Vec<u8>>, AllocError> {
    let mut buffers = Vec::new(alloc);
    buffers.push(vec![in alloc; 0u8; 10]?)?;
    Ok(buffers)
}

impl Buffers {
    /// Before the first call.
    pub fn new(alloc: Global) -> Result<Buffers> {
        let gf = Gf::new(alloc)?;
        let folder = folder_of(alloc, &[("a", BYTES)])?;
        let set = set_over(alloc, &folder)?;
        let pairs = pairs_of(alloc, BYTES, 4)?;
        Ok(Buffers {
            gf,
            folder,
            set,
            wanted: Wanted::new(alloc, &pairs)?,
            records: Vec::new(alloc),
            pairs,
            positions: Vec::new(alloc),
            buffers: Vec::new(alloc),
            bytes: Vec::new(alloc),
            number: 0,
        })
    }

    fn field(&mut self, alloc: Global) -> Result<(), Refusal> {
        self.gf = Gf::new(alloc)?;
        self.number = usize::from(self.gf.mul(0x8000, 2));
        Ok(())
    }

    // The checksum of a window that was moved by one byte.
    fn slide(&mut self, alloc: Global) -> Result<(), Refusal> {
        let mut rolling = Rolling::new(alloc, 4)?;
        rolling.start(b"abcd");
        rolling.slide(b'a', b'e');
        self.number = rolling.value() as usize;
        Ok(())
    }

    fn search(&mut self, alloc: Global, name: &str) -> Result<(), Refusal> {
        match name {
            "Wanted::new" => self.wanted = Wanted::new(alloc, &self.pairs)?,
            "pairs_of" => self.pairs = pairs_of(alloc, b"abcd", 4)?,
            "find" => {
                let offsets = find(alloc, b"xyzabcdefgh", 4, &self.wanted)?;
                self.number = usize::from(matches!(offsets.as_slice(), [Some(3), Some(7)]));
            }
            _ => self.positions = find_among(alloc, &[b"xyz", b"abcabcdefgh"], 4, &self.wanted)?,
        }
        Ok(())
    }

    fn append(&mut self, alloc: Global, name: &str) -> Result<(), Refusal> {
        let Some(file) = self.set.files.first() else {
            return Err(Refusal::Other);
        };
        match name {
            "append_main" => append_main(alloc, &mut self.bytes, 4, from_ref(file))?,
            "append_desc" => append_desc(alloc, &mut self.bytes, SET_ID, file)?,
            "append_ifsc" => append_ifsc(alloc, &mut self.bytes, SET_ID, file)?,
            "append_recovery" => append_recovery(alloc, &mut self.bytes, SET_ID, 1, SECOND)?,
            _ => append_creator(alloc, &mut self.bytes, SET_ID)?,
        }
        Ok(())
    }

    // The packets of nine recovery slices of zeros.
    fn digest(&mut self, alloc: Global) -> Result<(), Refusal> {
        let mut bytes = with_undigested(Vec::new(alloc), SET_ID, 0, 9, 4)?;
        let count = bytes.len() / 72;
        digest_recoveries(alloc, bytes.as_mut_slice(), 4, count)?;
        self.bytes = bytes;
        Ok(())
    }

    fn record(&mut self, alloc: Global) -> Result<(), Refusal> {
        let file = Name::new("a").map_err(|_| Refusal::Other)?;
        self.records = SetRecord::of_files(alloc, &self.folder, from_ref(&file), 4)?.files;
        Ok(())
    }

    fn recovery_slice(&mut self, alloc: Global) -> Result<(), Refusal> {
        let slice = recovery_slice_of(alloc, &self.gf, &self.set, &self.folder, 1)?;
        self.bytes = slice.ok_or(Refusal::Other)?;
        Ok(())
    }

    fn recovery_slices(&mut self, alloc: Global) -> Result<(), Refusal> {
        let slices = recovery_slices_of(alloc, &self.gf, &self.set, &self.folder, 0, 2)?;
        self.buffers = slices.ok_or(Refusal::Other)?;
        Ok(())
    }

    // Two recovery slices, at their places in a buffer of zeros.
    fn place(&mut self, alloc: Global, name: &str) -> Result<(), Refusal> {
        let mut buffers = zeros(alloc)?;
        let all = buffers.as_mut_slice();
        let slices: [&[u8]; 2] = [b"abcd", SECOND];
        let answer = match name {
            "write_recovery_slices" => {
                slices_written(alloc, &self.gf, &slices, &[1, 0], all, OUTPUTS, 2)?
            }
            _ => slices_added(alloc, &self.gf, &slices, 0, all, OUTPUTS, 2)?,
        };
        answer.ok_or(Refusal::Other)?;
        self.buffers = buffers;
        Ok(())
    }

    fn rebuild(&mut self, alloc: Global, name: &str) -> Result<(), Refusal> {
        let survivors = survivors(alloc)?;
        let answer = match name {
            "rebuild" => rebuilt(alloc, &self.gf, &survivors),
            _ => lost_rebuilt(alloc, &survivors),
        };
        self.buffers = answer.ok_or(Refusal::Other)??;
        Ok(())
    }

    fn recover(&mut self, alloc: Global, name: &str) -> Result<(), Refusal> {
        match name {
            "recovery_slice" => self.recovery_slice(alloc),
            "recovery_slices" => self.recovery_slices(alloc),
            "recovery_slices_over" => {
                self.buffers = recovery_slices_over(alloc, &self.gf, &[b"abcd", b"efg"], 4, 0, 2)?;
                Ok(())
            }
            "write_recovery_slices" | "add_recovery_slices_at" => self.place(alloc, name),
            "whole_buffers" => {
                self.number = whole_buffers(alloc, 3)?.len();
                Ok(())
            }
            "rank" => {
                self.number = rank(alloc, &self.gf, &[0, 2], &[0, 21845, 21847])?;
                Ok(())
            }
            _ => self.rebuild(alloc, name),
        }
    }
}

impl Scene for Buffers {
    fn call(&mut self, alloc: Global, name: &str) -> Result<(), Refusal> {
        match name {
            "Gf::new" => self.field(alloc),
            "Rolling::new" => self.slide(alloc),
            "Wanted::new" | "pairs_of" | "find" | "find_among" => self.search(alloc, name),
            "digest_recoveries" => self.digest(alloc),
            "append_main" | "append_desc" | "append_ifsc" | "append_recovery" | "append_creator" =>
                { self.append(alloc, name) }
            "SetRecord::of_files" => self.record(alloc),
            _ => self.recover(alloc, name),
        }
    }

    fn show(&mut self, rt: &HostRuntime) -> Result<()> {
        println!(rt;
            "  {}, {} records, {:?}, {:?}",
            self.number,
            self.records.len(),
            self.pairs,
            self.positions
        )?;
        println!(rt; "  {:?}", self.buffers)?;
        println!(rt; "  {} bytes, {:08x}", self.bytes.len(), crc32(&self.bytes))?;
        Ok(())
    }
}
