//! Writing packets: an `append_` function for each kind makes the body, and `append_packet` adds the header, in which the
//! type stands for the kind.

ghost use Rattle.std.specs.Prelude.{◌≡◌, ◌≤◌, ◌+◌, ◌-◌, ◌%◌, ◌++◌, length, map, OnOk, OnErr};
ghost use Rattle.par2_spec.specs.Answers.{Appends};
ghost use Rattle.par2_spec.specs.Prelude.{packet, packet_of, main_id, main_bytes, desc_bytes, ifsc_bytes, creator_bytes, recovery_bytes};
ghost use Rattle.par2_packets.specs.PacketViews.{file_record_of};
ghost use Rattle.par2_spec.specs.Packets as packets;

use crate::cursor::MAGIC;
use crate::record::FileRecord;
use md5::{Digest, Md5};
use par2_spec::{Kind, Result};
use std::alloc::Global;

// Appends a packet whose body has two parts, `head` and `tail`, or nothing if memory runs out. `set_id` is the Recovery
// Set ID. The MD5 in the header is that of set ID, type and body (PAR2 2.0, packet header).
fn append_packet(
    out: &mut Vec<u8>,
    set_id: &[u8; 16],
    kind: Kind,
    head: &[u8],
    tail: &[u8],
) -> Result<()>
    requires { 64 + length head.now + length tail.now ≤ usize.MAX }
    ensures ok { let added = packet_of set_id.now kind (head.now ++ tail.now) in
        OnOk result (out.new.items ≡ out.old.items ++ packet added) }
    ensures err { OnErr result (out.new.items ≡ out.old.items) }
{
    let type_bytes = type_of(kind);
    let mut hasher = Md5::new();
    hasher.update(set_id);
    hasher.update(&type_bytes);
    hasher.update(head);
    hasher.update(tail);
    let len = 64 + head.len() + tail.len();
    out.reserve(len)?;
    out.extend_from_slice([*MAGIC, (len as u64).to_le_bytes()].as_flattened())?;
    out.extend_from_slice([hasher.finalize(), *set_id, type_bytes].as_flattened())?;
    out.extend_from_slice(head)?;
    out.extend_from_slice(tail)
}

/// Appends the Main packet of a set of these files, which are ordered by File ID, with slices of `s` bytes. Without
/// memory `out` stays as it was.
pub fn append_main(alloc: Global, out: &mut Vec<u8>, s: u64, files: &[FileRecord]) -> Result<()>
    requires { length files.now ≤ 32768 }
    ensures ok { let records = map file_record_of files.now in
        let main = packet_of (main_id s records) Kind.Main (main_bytes s records) in
        Appends (packet main) out.old out.new result }
    ensures err { OnErr result (out.new.items ≡ out.old.items) }
{
    let mut body = Vec::from_slice(alloc, &s.to_le_bytes())?;
    body.extend_from_slice(&(files.len() as u32).to_le_bytes())?;
    for file in files {
        body.extend_from_slice(&file.id)?;
    }
    append_packet(out, &Md5::digest(&body), Kind::Main, &body, &[])
}

/// Appends the FileDesc packet of a file: its File ID, MD5s, length and name. The name is padded with NULs to a
/// multiple of 4 bytes.
pub fn append_desc(
    alloc: Global,
    out: &mut Vec<u8>,
    set_id: &[u8; 16],
    file: &FileRecord,
) -> Result<()>
    ensures ok { let added = packet_of set_id.now Kind.FileDesc (desc_bytes
        (file_record_of file.now)) in OnOk result (out.new.items ≡ out.old.items ++ packet added) }
    ensures err { OnErr result (out.new.items ≡ out.old.items) }
{
    let ids = [file.id, file.md5, file.md5_16k];
    let mut body = Vec::from_slice(alloc, ids.as_flattened())?;
    body.extend_from_slice(&file.length.to_le_bytes())?;
    let name = file.name.as_bytes();
    body.extend_from_slice(name)?;
    body.resize(body.len() + (4 - name.len() % 4) % 4, 0)?;
    append_packet(out, set_id, Kind::FileDesc, &body, &[])
}

/// Appends the IFSC packet of a file: its File ID and the checksums of its slices.
pub fn append_ifsc(
    alloc: Global,
    out: &mut Vec<u8>,
    set_id: &[u8; 16],
    file: &FileRecord,
) -> Result<()>
    ensures ok { let added = packet_of set_id.now Kind.Ifsc (ifsc_bytes
        (file_record_of file.now)) in OnOk result (out.new.items ≡ out.old.items ++ packet added) }
    ensures err { OnErr result (out.new.items ≡ out.old.items) }
{
    let mut body = Vec::from_slice(alloc, &file.id)?;
    for (md5, crc) in &file.pairs {
        body.extend_from_slice(md5)?;
        body.extend_from_slice(&crc.to_le_bytes())?;
    }
    append_packet(out, set_id, Kind::Ifsc, &body, &[])
}

/// Appends the Creator packet, which names this program's profile.
pub fn append_creator(_alloc: Global, out: &mut Vec<u8>, set_id: &[u8; 16]) -> Result<()>
    ensures ok { let added = packet_of set_id.now Kind.Creator creator_bytes in
        OnOk result (out.new.items ≡ out.old.items ++ packet added) }
    ensures err { OnErr result (out.new.items ≡ out.old.items) }
{
    append_packet(out, set_id, Kind::Creator, b"par2 undo profile 1", &[0])
}

/// Appends the recovery packet of exponent `e`, whose recovery slice is `bytes`. For several, `with_undigested` and
/// `digest_recoveries` are faster. Only tests and benchmarks call it.
pub fn append_recovery(
    _alloc: Global,
    out: &mut Vec<u8>,
    set_id: &[u8; 16],
    e: u32,
    bytes: &[u8],
) -> Result<()>
    requires { length bytes.now % 4 ≡ 0 }
    ensures ok { let added = packet_of set_id.now Kind.Recovery (recovery_bytes e bytes.now) in
        OnOk result (out.new.items ≡ out.old.items ++ packet added) }
    ensures err { OnErr result (out.new.items ≡ out.old.items) }
{
    append_packet(out, set_id, Kind::Recovery, &e.to_le_bytes(), bytes)
}

/// The type of a kind: the sixteen bytes at the end of a packet's header (PAR2 2.0).
pub fn type_of(kind: Kind) -> [u8; 16]
    ensures { result ≡ packets.type_of kind }
{
    match kind {
        Kind::Main => *b"PAR 2.0\0Main\0\0\0\0",
        Kind::FileDesc => *b"PAR 2.0\0FileDesc",
        Kind::Ifsc => *b"PAR 2.0\0IFSC\0\0\0\0",
        Kind::Recovery => *b"PAR 2.0\0RecvSlic",
        Kind::Creator => *b"PAR 2.0\0Creator\0",
        Kind::Other(bytes) => bytes,
    }
}

/// The kind of a type, the inverse of `type_of`: `Other` if the type is unknown.
#[tactic(auto, unfolding(par2_spec::specs::Packets::kind_of))]
pub fn kind_of(bytes: [u8; 16]) -> Kind
    ensures { result ≡ packets.kind_of bytes }
{
    match bytes {
        _ if bytes == type_of(Kind::Main) => Kind::Main,
        _ if bytes == type_of(Kind::FileDesc) => Kind::FileDesc,
        _ if bytes == type_of(Kind::Ifsc) => Kind::Ifsc,
        _ if bytes == type_of(Kind::Recovery) => Kind::Recovery,
        _ if bytes == type_of(Kind::Creator) => Kind::Creator,
        _ => Kind::Other(bytes),
    }
}
