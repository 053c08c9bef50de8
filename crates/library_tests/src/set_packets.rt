//! Packets of small sets, and folders with them.

use crate::calls::name;
use md5::{Digest, Md5};
use par2_folder::{Bytes, Change, Folder};
use par2_packets::{FileRecord, Pair, append_desc, append_ifsc, append_main, main_id};
use par2_sets::{ParSet, ReadSet, set_of};
use par2_spec::Fault;
use std::process::Abort;
use std::slice::from_ref;

// The body of a Main without files, with slice size 4.
const FALSE_MAIN: &[u8; 12] = b"\x04\0\0\0\0\0\0\0\0\0\0\0";

pub const MAIN: &[u8; 16] = b"PAR 2.0\0Main\0\0\0\0";

pub const DESCRIPTION: &[u8; 16] = b"PAR 2.0\0FileDesc";

const RECOVERY: &[u8; 16] = b"PAR 2.0\0RecvSlic";

/// The packets of a set of one file.
#[derive(Drop)]
pub struct Parts {
    pub id: [u8; 16],
    pub main: Vec<u8>,
    pub description: Vec<u8>,
    pub checksums: Vec<u8>,
}

/// The checksums of slice `k` of each file of these tests.
pub fn pair(k: u8) -> Pair {
    ([k; 16], u32::from(k))
}

/// A file of this File ID, name and size, with the checksums of two slices.
pub fn record(rt: &(impl Abort + AllocGlobal), id: u8, name: &str, length: u64) -> FileRecord {
    FileRecord {
        id: [id; 16],
        md5: [8; 16],
        md5_16k: [9; 16],
        length,
        name: String::from_str(rt.alloc(), name).expect(rt, "memory"),
        pairs: Vec::from_array(rt.alloc(), [pair(1), pair(2)]).expect(rt, "memory"),
    }
}

/// Appends the Main of one file.
pub fn add_main(rt: &(impl Abort + AllocGlobal), out: &mut Vec<u8>, s: u64, file: &FileRecord) {
    append_main(rt.alloc(), out, s, from_ref(file)).expect(rt, "memory");
}

pub fn add_description(
    rt: &(impl Abort + AllocGlobal),
    out: &mut Vec<u8>,
    id: &[u8; 16],
    file: &FileRecord,
) {
    append_desc(rt.alloc(), out, id, file).expect(rt, "memory");
}

pub fn add_checksums(
    rt: &(impl Abort + AllocGlobal),
    out: &mut Vec<u8>,
    id: &[u8; 16],
    file: &FileRecord,
) {
    append_ifsc(rt.alloc(), out, id, file).expect(rt, "memory");
}

/// The set ID of slice size `s` and one file.
pub fn id_of(s: u64, file: &FileRecord) -> [u8; 16] {
    main_id(s, from_ref(file))
}

/// The packets of a set with slice size `s` and one file.
pub fn parts_of(rt: &(impl Abort + AllocGlobal), s: u64, file: &FileRecord) -> Parts {
    let mut set = Parts {
        id: id_of(s, file),
        main: Vec::new(rt.alloc()),
        description: Vec::new(rt.alloc()),
        checksums: Vec::new(rt.alloc()),
    };
    add_main(rt, &mut set.main, s, file);
    add_description(rt, &mut set.description, &set.id, file);
    add_checksums(rt, &mut set.checksums, &set.id, file);
    set
}

/// The packets of a set with slice size 4 and a file of this name and size.
pub fn parts_for(rt: &(impl Abort + AllocGlobal), name: &str, size: u64) -> Parts {
    parts_of(rt, 4, &record(rt, 7, name, size))
}

/// A packet of this type and body, made by the format alone.
pub fn packet(
    rt: &(impl Abort + AllocGlobal),
    id: &[u8; 16],
    kind: &[u8; 16],
    body: &[u8],
) -> Vec<u8> {
    let digested = [id.as_slice(), kind, body]
        .concat(rt.alloc())
        .expect(rt, "memory");
    let length = (body.len() as u64).saturating_add(64);
    [
        b"PAR2\0PKT".as_slice(),
        &length.to_le_bytes(),
        &Md5::digest(&digested),
        &digested,
    ]
    .concat(rt.alloc())
    .expect(rt, "memory")
}

// The recovery slice of an exponent.
fn recovery(rt: &(impl Abort + AllocGlobal), id: &[u8; 16], e: u32, bytes: &[u8]) -> Vec<u8> {
    let body = [e.to_le_bytes().as_slice(), bytes]
        .concat(rt.alloc())
        .expect(rt, "memory");
    packet(rt, id, RECOVERY, &body)
}

/// A part of a file: a packet of a set, or other bytes.
pub enum Part {
    Main,
    Description,
    Checksums,
    /// A Main without files, whose digest isn't the set ID.
    FalseMain,
    /// A File Description whose name isn't UTF-8.
    FalseDescription,
    /// A recovery slice of the set, by its exponent and its bytes.
    Recovery(u32, &'static [u8]),
    /// A recovery slice of another set.
    Stranger(u32, &'static [u8]),
    Noise(&'static [u8]),
}

/// Files, as their names and parts.
pub type Files = &'static [(&'static str, &'static [Part])];

// The body of a File Description of 8 bytes and the name `\xff\xff`.
const FALSE_DESCRIPTION: &[u8; 60] = b"\
    \x07\x07\x07\x07\x07\x07\x07\x07\x07\x07\x07\x07\x07\x07\x07\x07\
    \x07\x07\x07\x07\x07\x07\x07\x07\x07\x07\x07\x07\x07\x07\x07\x07\
    \x07\x07\x07\x07\x07\x07\x07\x07\x07\x07\x07\x07\x07\x07\x07\x07\
    \x08\0\0\0\0\0\0\0\xff\xff\0\0";

// Appends the bytes of a part.
fn add_part(rt: &(impl Abort + AllocGlobal), out: &mut Vec<u8>, set: &Parts, part: &Part) {
    match part {
        Part::Main => add(rt, out, &set.main),
        Part::Description => add(rt, out, &set.description),
        Part::Checksums => add(rt, out, &set.checksums),
        Part::FalseMain => add(rt, out, &packet(rt, &set.id, MAIN, FALSE_MAIN)),
        Part::FalseDescription => add(
            rt,
            out,
            &packet(rt, &set.id, DESCRIPTION, FALSE_DESCRIPTION),
        ),
        Part::Recovery(e, bytes) => add(rt, out, &recovery(rt, &set.id, *e, bytes)),
        Part::Stranger(e, bytes) => add(rt, out, &recovery(rt, &[1; 16], *e, bytes)),
        Part::Noise(bytes) => add(rt, out, bytes),
    }
}

/// Appends bytes.
pub fn add(rt: &(impl Abort + AllocGlobal), out: &mut Vec<u8>, bytes: &[u8]) {
    out.extend_from_slice(bytes).expect(rt, "memory");
}

/// Puts a file into the folder.
pub fn put(rt: &(impl Abort + AllocGlobal), folder: &mut Folder, string: &str, bytes: Vec<u8>) {
    folder.reserve(1).expect(rt, "memory");
    let answer = folder.apply(&mut Change::Write(name(rt, string), Bytes::from(bytes)));
    assert!(rt; answer.is_ok());
}

/// Puts a file of these parts into the folder.
pub fn put_parts(
    rt: &(impl Abort + AllocGlobal),
    folder: &mut Folder,
    set: &Parts,
    string: &str,
    parts: &[Part],
) {
    let mut bytes = Vec::new(rt.alloc());
    for part in parts {
        add_part(rt, &mut bytes, set, part);
    }
    put(rt, folder, string, bytes);
}

/// A folder with these files. Their packets are of the set of a file of this name and 8 bytes.
pub fn folder_for(rt: &(impl Abort + AllocGlobal), target: &str, files: Files) -> Folder {
    let set = parts_for(rt, target, 8);
    let mut folder = Folder::new(rt.alloc());
    for (string, parts) in files {
        put_parts(rt, &mut folder, &set, string, parts);
    }
    folder
}

/// The set of the base `m.par2`, or the fault that there is none.
pub fn read_set<'a>(
    rt: &(impl Abort + AllocGlobal),
    folder: &'a Folder,
) -> Result<ParSet<'a>, Fault> {
    Ok(set_of(rt.alloc(), folder, &name(rt, "m.par2"))?.set)
}

/// The set of the base `m.par2`.
pub fn set_in<'a>(rt: &(impl Abort + AllocGlobal), folder: &'a Folder) -> ParSet<'a> {
    read_set(rt, folder).expect(rt, "a set")
}

/// The set of the base `m.par2`, and the files with packets of it alone.
pub fn read_in<'a>(rt: &(impl Abort + AllocGlobal), folder: &'a Folder) -> ReadSet<'a> {
    set_of(rt.alloc(), folder, &name(rt, "m.par2")).expect(rt, "a set")
}
