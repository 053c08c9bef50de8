//! The record of a set of a folder's files, by one call.

ghost use Rattle.std.specs.Prelude.{◌≡◌, ◌≤◌, map, Err, IfOk, IsOk};
ghost use Rattle.std.specs.List.{IsDistinct};
ghost use Rattle.std.specs.List.Sorted.{IsStrictlyIncreasing};
ghost use Rattle.std.specs.Str.{bytes_eq};
ghost use Rattle.par2_spec.specs.Prelude.{id_of, in_id_order, files_of};
ghost use Rattle.par2_packets.specs.PacketViews.{record_id_number};
ghost use Rattle.par2_inputs.specs.Records.{AreRecords, names_of};

use par2_files::{Folder, Name};
use par2_inputs::{contents_of, file_records, inputs_in, sorted_by_id};
use par2_md5_lanes::buffer_digests;
use par2_packets::{DuplicateId, FileRecord};
use std::alloc::{AllocError, Global};
use thiserror::Error;

// The records of the files of these names, in this order, for slices of `s` bytes: their MD5s are computed side by
// side. `AreRecords`: record k is that of file k.
fn records_of(
    alloc: Global,
    folder: &Folder,
    names: &[Name],
    s: u64,
) -> Result<Vec<FileRecord>, AllocError>
    requires { 1 ≤ s }
    ensures { IfOk result (λ list. AreRecords s (files_of folder.now.files names.now) list.items) }
{
    let inputs = inputs_in(alloc, folder, names)?;
    let contents = contents_of(alloc, &inputs)?;
    let md5s = buffer_digests(alloc, &contents)?;
    file_records(alloc, &inputs, &md5s, s)
}

/// Why there is no record of a set.
#[derive(Debug, Error, Clone, Copy, Drop)]
pub enum RecordFault {
    /// Two files have one File ID.
    #[error("two inputs have one file id")]
    DuplicateId,
    /// Memory ran out.
    #[error("out of memory")]
    Memory,
}

impl From<AllocError> for RecordFault {
    ghost use Rattle.std.specs.Prelude.{◌≡◌};
    ghost use Rattle.par2_recovery.specs.declared.records.RecordFault.TheVariants.{Memory};

    ghost from_gives = { λ _ fault. fault ≡ Memory };

    fn from(_: AllocError) -> Self {
        RecordFault::Memory
    }
}

/// A set: its slice size and the records of its files.
#[derive(Drop)]
pub struct SetRecord {
    /// The slice size in bytes.
    pub slice: u64,
    /// The files, in the order of their File IDs.
    pub files: Vec<FileRecord>,
}

impl SetRecord {
    /// The set of the files of these names, with slices of `s` bytes. It returns `DuplicateId` exactly if two of them
    /// have one File ID, unless memory runs out first. `in_id_order`: the order of File IDs as little-endian numbers.
    pub fn of_files(
        alloc: Global,
        folder: &Folder,
        names: &[Name],
        s: u64,
    ) -> Result<SetRecord, RecordFault>
        requires { 1 ≤ s }
        // The set has this slice size and the records of the files, in the order of their File IDs.
        ensures slice { IfOk result (λ set. set.slice ≡ s) }
        ensures files { IfOk result (λ set.
            AreRecords s (in_id_order (files_of folder.now.files names.now)) set.files.items) }
        ensures order { IfOk result (λ set. files_of folder.now.files (names_of set.files.items)
            ≡ in_id_order (files_of folder.now.files names.now)) }
        ensures rising { IfOk result
            (λ set. IsStrictlyIncreasing (map record_id_number set.files.items)) }
        // It succeeds only if the File IDs are distinct, and reports `DuplicateId` only if they
        // aren't.
        ensures distinct { IsOk result
            → IsDistinct bytes_eq (map id_of (files_of folder.now.files names.now)) }
        ensures duplicate { result ≡ Err RecordFault.DuplicateId
            → ¬ IsDistinct bytes_eq (map id_of (files_of folder.now.files names.now)) }
    {
        let records = records_of(alloc, folder, names, s)?;
        match sorted_by_id(records) {
            Ok(files) => Ok(SetRecord { slice: s, files }),
            Err(DuplicateId) => Err(RecordFault::DuplicateId),
        }
    }
}
