//! Sets of folders whose base is `m.par2`.

use crate::set_packets::{
    DESCRIPTION, Files, MAIN, Part, Parts, add, folder_for, packet, pair, parts_for, parts_of, put,
    put_parts, read_set, record, set_in,
};
use md5::{Digest, Md5};
use par2_folder::Folder;
use par2_sets::{ParSet, Target};
use par2_spec::Fault;
use std::process::Abort;

// The fault of the base's set, or None if it reads.
fn fault_of(rt: &(impl Abort + AllocGlobal), folder: &Folder) -> Option<Fault> {
    read_set(rt, folder).err()
}

// The fault of the set of a base made of these parts.
fn fault_in(rt: &(impl Abort + AllocGlobal), set: &Parts, base: &[Part]) -> Option<Fault> {
    let mut folder = Folder::new(rt.alloc());
    put_parts(rt, &mut folder, set, "m.par2", base);
    fault_of(rt, &folder)
}

// Whether the target is the file `f` of 8 bytes.
fn is_f(target: &Target) -> bool {
    let is_sized = target.length() == 8 && target.md5() == [8; 16];
    is_sized && target.pairs() == [pair(1), pair(2)].as_slice()
}

// Whether the set has only a file of this name.
fn is_of(read: &ParSet, name: &str) -> bool {
    match read.targets() {
        [target] => target.name().as_str() == name,
        _ => false,
    }
}

// Whether each file of the set is `f`, its name aside.
fn is_of_f(read: &ParSet) -> bool {
    read.targets().iter().all(is_f)
}

// Whether the set has the set ID of that of `f`, and slices of 4 bytes.
fn is_headed(rt: &(impl Abort + AllocGlobal), read: &ParSet) -> bool {
    read.id() == parts_for(rt, "f", 8).id && read.slice_size() == 4
}

// Whether these are the recovery slices of the set in a folder.
fn recovers(rt: &(impl Abort + AllocGlobal), folder: &Folder, wanted: &[(u32, &[u8])]) -> bool {
    set_in(rt, folder).recovery() == wanted
}

const TWO_FILES: Files = &[
    (
        "m.par2",
        &[Part::Main, Part::Description, Part::Recovery(3, b"dddd")],
    ),
    (
        "m.vol0+1.PAR2",
        &[Part::Recovery(0, b"aaaa"), Part::Checksums],
    ),
    ("other", &[Part::Recovery(1, b"bbbb")]),
];

#[test]
fn a_set_in_two_files(rt: HostRuntime) {
    let folder = folder_for(&rt, "f", TWO_FILES);
    let read = set_in(&rt, &folder);
    assert!(rt; is_of(&read, "f") && is_of_f(&read) && is_headed(&rt, &read));
}

#[test]
fn no_file(rt: HostRuntime) {
    assert!(rt; fault_of(&rt, &Folder::new(rt.alloc())) == Some(Fault::NoPackets));
}

const BASES: &[(&[Part], Option<Fault>)] = &[
    (&[Part::Noise(b"no packet")], Some(Fault::NoPackets)),
    (&[Part::Description, Part::Checksums], Some(Fault::NoMain)),
    (&[Part::Main, Part::Checksums], Some(Fault::NoDescription)),
    (&[Part::Main, Part::Description], Some(Fault::NoChecksums)),
    (
        &[Part::FalseMain, Part::Description, Part::Checksums],
        Some(Fault::NoMain),
    ),
    (
        &[
            Part::FalseMain,
            Part::Description,
            Part::Checksums,
            Part::Main,
        ],
        None,
    ),
    (
        &[Part::Main, Part::FalseDescription, Part::Checksums],
        Some(Fault::BadSet),
    ),
    (&[Part::Main, Part::Description, Part::Checksums], None),
];

#[test]
fn parts_that_are_absent_or_false(rt: HostRuntime) {
    let set = parts_for(&rt, "f", 8);
    for (k, (base, fault)) in BASES.iter().enumerate() {
        assert!(rt; fault_in(&rt, &set, base) == *fault, "base {k}");
    }
}

const WHOLE: &[Part] = &[Part::Main, Part::Description, Part::Checksums];

// Slice size, name and length of a file, and the parts of the base.
type Profile = (u64, &'static str, u64, &'static [Part]);

const PROFILES: &[(Profile, Option<Fault>)] = &[
    ((6, "f", 8, WHOLE), Some(Fault::BadSet)),
    ((4, ".par2undo", 8, WHOLE), Some(Fault::BadSet)),
    ((4, "a/b", 8, WHOLE), Some(Fault::BadSet)),
    ((4, "f", 131_072, WHOLE), Some(Fault::NoChecksums)),
    ((4, "f", 131_073, WHOLE), Some(Fault::BadSet)),
    ((4, "f", u64::MAX, WHOLE), Some(Fault::BadSet)),
    // An empty file has no checksums.
    ((4, "f", 0, &[Part::Main, Part::Description]), None),
];

fn fault_beyond(rt: &(impl Abort + AllocGlobal), profile: &Profile) -> Option<Fault> {
    let (s, name, length, base) = *profile;
    fault_in(rt, &parts_of(rt, s, &record(rt, 7, name, length)), base)
}

#[test]
fn files_beyond_the_profile(rt: HostRuntime) {
    for (k, (profile, fault)) in PROFILES.iter().enumerate() {
        assert!(rt; fault_beyond(&rt, profile) == *fault, "row {k}");
    }
}

// A Main of two files.
const TWICE: &[u8; 44] = b"\x04\0\0\0\0\0\0\0\x02\0\0\0sixteen bytes id sixteen bytes i";

// File Descriptions with a File ID and a name, which is the same in both.
const NAMED: &[&[u8; 60]] = &[
    b"sixteen bytes id\
        \0\0\0\0\0\0\0\0\0\0\0\0\0\0\0\0\0\0\0\0\0\0\0\0\0\0\0\0\0\0\0\0\0\0\0\0\0\0\0\0name",
    b" sixteen bytes i\
        \0\0\0\0\0\0\0\0\0\0\0\0\0\0\0\0\0\0\0\0\0\0\0\0\0\0\0\0\0\0\0\0\0\0\0\0\0\0\0\0name",
];

// A base of a Main of two files and File Descriptions that give both the same name.
fn twice_named(rt: &(impl Abort + AllocGlobal)) -> Vec<u8> {
    let id = Md5::digest(TWICE);
    let mut base = packet(rt, &id, MAIN, TWICE);
    for body in NAMED {
        add(
            rt,
            &mut base,
            &packet(rt, &id, DESCRIPTION, body.as_slice()),
        );
    }
    base
}

#[test]
fn one_name_twice(rt: HostRuntime) {
    let mut folder = Folder::new(rt.alloc());
    put(&rt, &mut folder, "m.par2", twice_named(&rt));
    assert!(rt; fault_of(&rt, &folder) == Some(Fault::BadSet));
}

// Adds a file with parts of the set of a file of this name and size to the folder.
fn put_some(
    rt: &(impl Abort + AllocGlobal),
    folder: &mut Folder,
    target: (&str, u64),
    parts: (&str, &[Part]),
) -> [u8; 16] {
    let set = parts_for(rt, target.0, target.1);
    put_parts(rt, folder, &set, parts.0, parts.1);
    set.id
}

#[test]
fn first_description_wins(rt: HostRuntime) {
    let mut folder = Folder::new(rt.alloc());
    let first = put_some(
        &rt,
        &mut folder,
        ("f", 8),
        ("m.par2", &[Part::Main, Part::Description]),
    );
    let last = put_some(
        &rt,
        &mut folder,
        ("g", 7),
        ("a.par2", &[Part::Description, Part::Checksums]),
    );
    assert!(rt; first == last && is_of(&set_in(&rt, &folder), "f"));
}

const SLICES: Files = &[
    (
        "m.par2",
        &[
            Part::Main,
            Part::Description,
            Part::Checksums,
            Part::Recovery(65536, b"ffff"),
            Part::Recovery(1, b"of other length."),
            Part::Recovery(65535, b"eeee"),
            Part::Recovery(65535, b"gggg"),
            Part::Stranger(0, b"hhhh"),
        ],
    ),
    ("z.par2", &[Part::Recovery(1, b"zzzz")]),
    ("a.par2", &[Part::Recovery(1, b"aaaa")]),
];

// Files, and the recovery slices that count.
const RECOVERIES: &[(Files, &[(u32, &[u8])])] = &[
    (TWO_FILES, &[(0, b"aaaa"), (3, b"dddd")]),
    (SLICES, &[(1, b"aaaa"), (65535, b"eeee")]),
];

#[test]
fn recovery_slices_that_count(rt: HostRuntime) {
    for (files, wanted) in RECOVERIES {
        assert!(rt; recovers(&rt, &folder_for(&rt, "f", files), wanted));
    }
}
