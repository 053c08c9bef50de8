//! Records of files, File IDs and Recovery Set IDs, and the order of the files in a set. `par2_inputs` makes the
//! records with `file_id`, sorts them by `sort_ids`, and takes the `main_id` of the sorted ones.

ghost use Rattle.std.specs.Prelude.{◌≡◌, ◌≤◌, ◌<◌, ◌↔◌, ℕ, false, length, map, slice_index, IsOk, IsTrue, OnOk, IsPermutation};
ghost use Rattle.std.specs.Int.{w128, from_le_bytes};
ghost use Rattle.std.specs.List.{IsDistinct};
ghost use Rattle.std.specs.List.Sorted.{IsNonDecreasingBy, IsStrictlyIncreasing};
ghost use Rattle.std.specs.Str.{bytes_eq};
ghost use Rattle.par2_spec.specs.Volumes as volumes;
ghost use Rattle.par2_packets.specs.PacketViews.{file_record_of, record_id_number};

use md5::{Digest, Md5};
use thiserror::Error;

/// The checksums of a slice: MD5 and CRC-32.
pub type Pair = ([u8; 16], u32);

/// The fields of a file in the FileDesc and IFSC packets of a set.
#[derive(Drop)]
pub struct FileRecord {
    /// The File ID.
    pub id: [u8; 16],
    /// The MD5 of the file.
    pub md5: [u8; 16],
    /// The MD5 of its first 16,384 bytes, or of all if it is shorter.
    pub md5_16k: [u8; 16],
    /// The length of the file in bytes.
    pub length: u64,
    pub name: String,
    /// The checksums of its input slices, in order.
    pub pairs: Vec<Pair>,
}

/// The File ID: the MD5 of `md5_16k`, length and name (PAR2 2.0, FileDesc packet).
pub fn file_id(md5_16k: &[u8; 16], length: u64, name: &str) -> [u8; 16]
    ensures { result ≡ volumes.file_id md5_16k.now length name.now }
{
    let mut hasher = Md5::new();
    hasher.update(md5_16k);
    hasher.update(&length.to_le_bytes());
    hasher.update(name.as_bytes());
    hasher.finalize()
}

/// The Recovery Set ID of files in this order, which must be that of their File IDs, with slices of `s` bytes: the MD5
/// of the body of their Main packet.
pub fn main_id(s: u64, files: &[FileRecord]) -> [u8; 16]
    requires { length files.now ≤ 32768 }
    ensures { result ≡ volumes.main_id s (map file_record_of files.now) }
{
    let mut hasher = Md5::new();
    hasher.update(&s.to_le_bytes());
    hasher.update(&(files.len() as u32).to_le_bytes());
    for file in files {
        hasher.update(&file.id);
    }
    hasher.finalize()
}

/// Two files have one File ID.
#[derive(Debug, Error, Clone, Copy, PartialEq, Eq)]
#[error("two files have one File ID")]
pub struct DuplicateId;

// The File ID as a little-endian number, by which `sort_ids` sorts. `size` and `bytes` are for the prover: such numbers
// differ if the File IDs do.
fn number_of(id: &[u8; 16]) -> u128
    ensures value { result ≡ from_le_bytes w128 id.now }
    ensures size { length id.now ≡ 16 }
    ensures bytes { (k : ℕ) → slice_index id.now k < 256 }
{
    u128::from_le_bytes(*id)
}

/// Sorts the records as a Main packet lists them: by increasing File ID, read as a little-endian number. It returns
/// `DuplicateId` if two records have the same: they are then adjacent.
pub fn sort_ids(files: &mut [FileRecord]) -> Result<(), DuplicateId>
    ensures permutation { IsPermutation files.old files.new }
    ensures rising { OnOk result (IsStrictlyIncreasing (map record_id_number files.new)) }
    // It fails exactly if two records have the same File ID.
    ensures distinct { IsOk result ↔ IsDistinct bytes_eq (map (λ file. file.id) files.old) }
{
    files.sort_unstable_by_key(|file| number_of(&file.id));
    for i in 1..files.len() {
        if number_of(&files[i - 1].id) == number_of(&files[i].id) {
            return Err(DuplicateId);
        }
    }
    Ok(())
}
