//! The records of a set's files, and what is made of them: the index, whose packets each volume repeats, and the slices
//! from which recovery slices are computed. `file_records` makes the records in the order of the inputs, and
//! `sorted_by_id` orders them by File ID as in a Main packet.
#![tactic(auto, using(crate::proofs::Steps::records), unfolding(par2_spec::specs::Volumes::index_packets, par2_spec::specs::Volumes::record_of))]

ghost use Rattle.std.specs.Prelude.{◌≡◌, ◌≤◌, ◌↔◌, ℕ, List, map, IfOk, IsOk, IsPermutation, ◌++◌, ◌+◌, ◌%◌, ◌^◌, All, length, flat_map};
ghost use Rattle.std.specs.List.{IsDistinct};
ghost use Rattle.std.specs.List.Sorted.{IsStrictlyIncreasing};
ghost use Rattle.std.specs.Str.{bytes_eq};
ghost use Rattle.md5.specs.Md5.{md5};
ghost use Rattle.md5.specs.Md5 as hash;
ghost use Rattle.par2_spec.specs.Prelude.{File, bytes_of, in_id_order, record_of, index_packets, main_id, packet};
ghost use Rattle.par2_packets.specs.PacketViews.{record_id_number, file_record_of};
ghost use Rattle.par2_inputs.specs.Records.{AreRecords, input_file, slices_of_records};
ghost use Rattle.par2_spec.specs.Slices as spec;
ghost use Rattle.par2_slices.specs.Matching.{buffers_of};

use crate::inputs::{Input, Volume};
use md5::{Digest, Md5};
use par2_files::{Folder, Name};
use par2_packets::{
    DuplicateId, FileRecord, append_creator, append_desc, append_ifsc, append_main, file_id,
    main_id, sort_ids,
};
use par2_slices::{pairs_of, slice_bytes, slice_count};
use par2_spec::Result;
use std::alloc::Global;

/// The records of these inputs, in this order, for slices of `s` bytes. `md5s` are the MD5s of the inputs, which the
/// caller computes side by side. `AreRecords`: record k is that of file k.
pub fn file_records(
    alloc: Global,
    inputs: &[Input],
    md5s: &[[u8; 16]],
    s: u64,
) -> Result<Vec<FileRecord>>
    requires size { 1 ≤ s }
    requires md5s { md5s.now ≡ map md5 (map (λ input. input.bytes.now) inputs.now) }
    ensures { IfOk result (λ list. AreRecords s (map input_file inputs.now) list.items) }
{
    let mut records = Vec::with_capacity(alloc, inputs.len())?;
    for i in 0..inputs.len() {
        let input = &inputs[i];
        let record = file_record_by_md5(alloc, input.name.as_str(), input.bytes, md5s[i], s)?;
        records.push(record)?;
    }
    Ok(records)
}

/// The records in the order of their File IDs as little-endian numbers. It takes no memory, so its only fault is that
/// two files have one File ID. For the records of certain files the order is `in_id_order`, that of the definitions.
pub fn sorted_by_id(mut files: Vec<FileRecord>) -> Result<Vec<FileRecord>, DuplicateId>
    ensures distinct { IsOk result ↔ IsDistinct bytes_eq (map (λ file. file.id) files.items) }
    ensures rising { IfOk result (λ all. IsStrictlyIncreasing (map record_id_number all.items)) }
    ensures permutation { IfOk result (λ all. IsPermutation files.items all.items) }
    ensures files { IfOk result (λ all. (s : ℕ) (inputs : List File)
        → AreRecords s inputs files.items
        → AreRecords s (in_id_order inputs) all.items) }
{
    sort_ids(files.as_mut_slice())?;
    Ok(files)
}

// How many bytes of a file have an MD5 of their own ("File Description packet").
const HEAD: usize = 16384;

/// The record of the file of this name and these bytes, for slices of `s` bytes: File ID, MD5s, length, and checksums
/// of the slices. `md5` is that of the bytes.
pub fn file_record_by_md5(
    alloc: Global,
    name: &str,
    bytes: &[u8],
    md5: [u8; 16],
    s: u64,
) -> Result<FileRecord>
    requires size { 1 ≤ s }
    requires digest { md5 ≡ hash.md5 bytes.now }
    ensures { IfOk result (λ made. file_record_of made ≡ record_of s (name.now, bytes.now)) }
{
    let md5_16k = Md5::digest(&bytes[..HEAD.min(bytes.len())]);
    let length = bytes.len() as u64;
    Ok(FileRecord {
        id: file_id(&md5_16k, length, name),
        md5,
        md5_16k,
        length,
        name: String::from_str(alloc, name)?,
        pairs: pairs_of(alloc, bytes, s)?,
    })
}

// The bytes of the file of this name, none if it is absent. Unlike `Folder::bytes_of` it takes a string, as records
// have it.
fn bytes_of<'a>(folder: &'a Folder, name: &str) -> &'a [u8]
    ensures { result.now ≡ bytes_of folder.now.files name.now }
{
    // For the prover: the names in a folder are names.
    let _ = folder.vacant();
    let Ok(name) = Name::new(name) else {
        return &[];
    };
    folder.bytes_of(&name)
}

// The slices, followed by those of one more file of these bytes, each of `s` bytes but the last.
fn with_slices<'a>(slices: Vec<&'a [u8]>, bytes: &'a [u8], s: u64) -> Result<Vec<&'a [u8]>>
    requires { 1 ≤ s }
    ensures { IfOk result (λ all. map (spec.padded s) (buffers_of all.items)
        ≡ map (spec.padded s) (buffers_of slices.entry.items) ++ spec.slices s bytes.now) }
{
    let mut all = slices;
    for j in 0..slice_count(bytes.len() as u64, s) {
        all.push(slice_bytes(bytes, s, j))?;
    }
    Ok(all)
}

/// The slices of the files of these records, each of `s` bytes, one file after the other: the inputs of recovery
/// slices. The last slice of a file isn't padded, and an absent file has no slices.
pub fn input_slices<'a>(
    alloc: Global,
    files: &[FileRecord],
    s: u64,
    folder: &'a Folder,
) -> Result<Vec<&'a [u8]>>
    requires { 1 ≤ s }
    ensures { let slices = slices_of_records folder.now.files s files.now in
        IfOk result (λ all. map (spec.padded s) (buffers_of all.items) ≡ slices) }
{
    let mut all = Vec::new(alloc);
    for i in 0..files.len() {
        all = with_slices(all, bytes_of(folder, files[i].name.as_str()), s)?;
    }
    Ok(all)
}

/// The parts of the outputs: the bytes of the index, the Recovery Set ID, the slice size, the records of the files, which
/// are in the folder, and the volumes. The slice size, the number of input slices and the exponents are ones that PAR2
/// allows.
#[derive(Drop)]
pub struct Parts<'a> {
    pub index: Vec<u8>,
    pub set_id: [u8; 16],
    pub slice: u64,
    pub files: &'a [FileRecord],
    pub folder: &'a Folder,
    pub volumes: &'a [Volume],
    ghost sixteen: { length set_id ≡ 16 },
    ghost positive: { 1 ≤ slice },
    ghost fours: { slice % 4 ≡ 0 },
    ghost small: { slice ≤ 2 ^ 30 },
    ghost few: { length (slices_of_records folder.now.files slice files.now) ≤ 32768 },
    ghost exponents: { All (λ volume. volume.first + volume.count ≤ 65536) volumes.now },
}

// The bytes that a file adds to an index beside its name and the checksums of its slices: two headers, the FileDesc
// without the name, and its File ID in its IFSC and in Main.
const FILE_LEN: usize = 64 + 56 + 64 + 16 + 16;

// The bytes of the other packets: two headers, the slice size, the number of files, and the name of this program.
const FRAME_LEN: usize = 64 + 12 + 64 + 20;

// How many bytes a file adds to an index: 20 for each slice, the name with its padding, and `FILE_LEN`. `index_of`
// reserves that many.
fn file_len(file: &FileRecord) -> usize {
    let pairs = file.pairs.len().saturating_mul(20);
    let name = file.name.len().div_ceil(4).saturating_mul(4);
    pairs.saturating_add(name).saturating_add(FILE_LEN)
}

/// The Recovery Set ID of a set of these files with slices of `s` bytes, and the bytes of its index: Main, the FileDescs,
/// the IFSCs, Creator. The caller orders the files by File ID, as Main requires; this function keeps their order.
pub fn index_of(alloc: Global, s: u64, files: &[FileRecord]) -> Result<([u8; 16], Vec<u8>)>
    requires { length files.now ≤ 32768 }
    ensures id { IfOk result (λ made. made.0 ≡ main_id s (map file_record_of files.now)) }
    ensures bytes { let records = map file_record_of files.now in
        IfOk result (λ made. made.1.items ≡ flat_map packet (index_packets s records)) }
{
    let set_id = main_id(s, files);
    let lens = files.iter().map(file_len);
    let len = lens.fold(FRAME_LEN, usize::saturating_add);
    let mut index = Vec::with_capacity(alloc, len)?;
    append_main(alloc, &mut index, s, files)?;
    for file in files {
        append_desc(alloc, &mut index, &set_id, file)?;
    }
    for entry in files {
        append_ifsc(alloc, &mut index, &set_id, entry)?;
    }
    append_creator(alloc, &mut index, &set_id)?;
    Ok((set_id, index))
}
