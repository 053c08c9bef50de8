//! Worked examples of recovery slices and rebuilding.

use crate::calls::{are_buffers, lists_of, places_of};
use crate::gf16::field;
use par2_folder::Folder;
use par2_gf16::Gf;
use par2_packets::FileRecord;
use par2_recovery::{RebuildFault, RecordFault, SetRecord, Survivors, rank, recovery_slices_over};
use recovery_calls::{
    folder_of, input_slices_of, lost_rebuilt, recovery_slice_of, recovery_slices_of, set_of,
    slices_written,
};
use std::process::Abort;

fn folder_with(rt: &(impl Abort + AllocGlobal), files: &[(&str, &[u8])]) -> Folder {
    folder_of(rt.alloc(), files).expect(rt, "memory")
}

// The record of a set of these files with slices of `s` bytes, or the fault that two have one name.
fn read_set(
    rt: &(impl Abort + AllocGlobal),
    folder: &Folder,
    names: &[&str],
    s: u64,
) -> Result<SetRecord, RecordFault> {
    let set = set_of(rt.alloc(), folder, names, s).expect(rt, "memory");
    set.expect(rt, "names and a size")
}

fn set_with(rt: &(impl Abort + AllocGlobal), folder: &Folder, names: &[&str], s: u64) -> SetRecord {
    read_set(rt, folder, names, s).expect(rt, "a record")
}

// The recovery slices of this many exponents.
fn slices_from(
    rt: &(impl Abort + AllocGlobal),
    set: &SetRecord,
    folder: &Folder,
    first: u32,
    count: u32,
) -> Vec<Vec<u8>> {
    let slices = recovery_slices_of(rt.alloc(), &field(rt), set, folder, first, count);
    slices.expect(rt, "memory").expect(rt, "recovery slices")
}

// The recovery slices of one file, called `a`.
pub(super) fn recovery_of_a(
    rt: &(impl Abort + AllocGlobal),
    bytes: &[u8],
    s: u64,
    first: u32,
    count: u32,
) -> Vec<Vec<u8>> {
    let folder = folder_with(rt, &[("a", bytes)]);
    slices_from(rt, &set_with(rt, &folder, &["a"], s), &folder, first, count)
}

// The bytes of a file, the slice size, the first exponent and the number of recovery slices, and these slices.
type Recovered = (&'static [u8], u64, (u32, u32), &'static [&'static [u8]]);

const RECOVERED: &[Recovered] = &[
    (
        b"abcdefgh",
        4,
        (0, 3),
        &[
            b"\x04\x04\x04\x0c",
            b"\x5d\x4d\x51\x79",
            b"\xe5\x9f\xcd\x67",
        ],
    ),
    // The recovery slices of par2cmdline 0.8.1, by `par2 create -s16 -c2`.
    (
        b"The quick brown fox jumps over the lazy dog.\n",
        16,
        (0, 2),
        &[
            b"Zb=lzz}3|oj*\x00\x05NT",
            b"\x81\x4b\x10\x63\x60\xf9\xeb\x30\x60\x57\x15\xeb\xe1\x37\x57\x80",
        ],
    ),
    // The last slice is padded.
    (b"abcde", 4, (0, 1), &[b"\x04\x62\x63\x64"]),
    (b"abcdefghijkl", 4, (0, 1), &[b"\x6d\x6e\x6f\x60"]),
    (
        b"abcdefghijkl",
        4,
        (21845, 2),
        &[b"\xd9\x03\x18\xeb", b"\x31\x9f\xac\xa9"],
    ),
];

// Whether the file has these recovery slices.
fn is_recovered_as(rt: &(impl Abort + AllocGlobal), row: &Recovered) -> bool {
    let (bytes, s, (first, count), wanted) = *row;
    are_buffers(&recovery_of_a(rt, bytes, s, first, count), wanted)
}

#[test]
fn recovery_slices_of_a_file(rt: HostRuntime) {
    for (k, row) in RECOVERED.iter().enumerate() {
        assert!(rt; is_recovered_as(&rt, row), "row {k}");
    }
}

// Slices of four bytes, some of them lost, recovery slices, and the rebuilt slices, or the number of lost slices and of
// kept exponents.
type Rebuilt = (
    &'static [Option<&'static [u8]>],
    &'static [(u32, &'static [u8])],
    Result<&'static [&'static [u8]], (usize, usize)>,
);

const REBUILT: &[Rebuilt] = &[
    // The quotient of the constants of slices 0 and 2 has 1 as its 21,845th power.
    (
        &[None, Some(b"efgh"), None],
        &[(0, b"\x6d\x6e\x6f\x60"), (21845, b"\xd9\x03\x18\xeb")],
        Err((2, 1)),
    ),
    (
        &[None, Some(b"efgh"), None],
        &[
            (0, b"\x6d\x6e\x6f\x60"),
            (21845, b"\xd9\x03\x18\xeb"),
            (21846, b"\x31\x9f\xac\xa9"),
        ],
        Ok(&[b"abcd", b"ijkl"]),
    ),
    // Every constant's 65,535th power is 1, as its 0th power is.
    (
        &[None, None],
        &[(0, b"\x04\x04\x04\x0c"), (65535, b"\x04\x04\x04\x0c")],
        Err((2, 1)),
    ),
    // The last slice is padded.
    (
        &[Some(b"abcd"), None],
        &[(0, b"\x04\x62\x63\x64")],
        Ok(&[b"e\0\0\0"]),
    ),
    (
        &[None, Some(b"e")],
        &[(0, b"\x04\x62\x63\x64")],
        Ok(&[b"abcd"]),
    ),
    // Nothing is lost.
    (&[Some(b"abcd"), Some(b"efgh")], &[], Ok(&[])),
    (&[Some(b"abcd"), Some(b"efgh")], &[(3, b"abcd")], Ok(&[])),
];

// Whether the result is as the row says.
fn is_as_reported(
    answer: &Result<Vec<Vec<u8>>, RebuildFault>,
    wanted: Result<&[&[u8]], (usize, usize)>,
) -> bool {
    match (answer, wanted) {
        (Ok(buffers), Ok(reported)) => are_buffers(buffers, reported),
        (Err(RebuildFault::NotRepairable { missing, rank }), Err(reported)) => {
            *missing == reported.0 && *rank == reported.1
        }
        _ => false,
    }
}

fn survivors_of<'a>(
    rt: &(impl Abort + AllocGlobal),
    known: &[Option<&'a [u8]>],
    recovery: &[(u32, &'a [u8])],
) -> Survivors<'a> {
    Survivors {
        slice: 4,
        known: Vec::from_slice(rt.alloc(), known).expect(rt, "memory"),
        recovery: Vec::from_slice(rt.alloc(), recovery).expect(rt, "memory"),
    }
}

fn is_rebuilt_as(rt: &(impl Abort + AllocGlobal), row: &Rebuilt) -> bool {
    let answer = lost_rebuilt(rt.alloc(), &survivors_of(rt, row.0, row.1));
    is_as_reported(&answer.expect(rt, "fitting survivors"), row.2)
}

#[test]
fn lost_slices_come_back(rt: HostRuntime) {
    for (k, row) in REBUILT.iter().enumerate() {
        assert!(rt; is_rebuilt_as(&rt, row), "row {k}");
    }
}

#[test]
fn exponents_that_are_kept(rt: HostRuntime) {
    let gf = field(&rt);
    assert!(rt; rank(rt.alloc(), &gf, &[0, 2], &[0, 21845]).expect(&rt, "memory") == 1);
    assert!(rt; rank(rt.alloc(), &gf, &[0, 2], &[0, 21845, 21846]).expect(&rt, "memory") == 2);
    assert!(rt; rank(rt.alloc(), &gf, &[0, 1], &[0, 65535]).expect(&rt, "memory") == 1);
    assert!(rt; rank(rt.alloc(), &gf, &[], &[0, 1]).expect(&rt, "memory") == 0);
}

// The files `a` and `b`.
fn two_files(rt: &(impl Abort + AllocGlobal)) -> Folder {
    folder_with(rt, &[("a", b"abcde"), ("b", b"fgh")])
}

// Whether the files of the set have these slices.
fn has_slices(
    rt: &(impl Abort + AllocGlobal),
    set: &SetRecord,
    folder: &Folder,
    wanted: &[&[u8]],
) -> bool {
    let slices = input_slices_of(rt.alloc(), set, folder).expect(rt, "memory");
    slices.expect(rt, "slices").as_slice() == wanted
}

fn is_file(file: &FileRecord, name: &str, id: u128) -> bool {
    file.name.as_str() == name && u128::from_be_bytes(file.id) == id
}

// Whether it is the record of the two files.
fn is_of_two(set: &SetRecord) -> bool {
    match set.files.as_slice() {
        [first, second] => {
            is_file(first, "b", 0x93f8_166a_2c32_16c6_5033_b529_d5d0_065a)
                && is_file(second, "a", 0x0536_3d63_a48f_2a62_9008_5369_f9b6_5ce9)
        }
        _ => false,
    }
}

#[test]
fn record_and_slices_of_two_files(rt: HostRuntime) {
    let folder = two_files(&rt);
    let set = set_with(&rt, &folder, &["b", "a"], 4);
    assert!(rt; set.slice == 4 && is_of_two(&set));
    assert!(rt; has_slices(&rt, &set, &folder, &[b"fgh", b"abcd", b"e"]));
}

fn slices_over(rt: &(impl Abort + AllocGlobal), buffers: &[&[u8]; 2]) -> Vec<Vec<u8>> {
    recovery_slices_over(rt.alloc(), &field(rt), buffers, 4, 0, 1).expect(rt, "memory")
}

#[test]
fn recovery_slice_over_buffers(rt: HostRuntime) {
    assert!(rt; are_buffers(&slices_over(&rt, &[b"abcd", b"e"]), &[b"\x04\x62\x63\x64"]));
}

// The exponents, the buffer and the first byte for each of their recovery slices, and the buffers before and after.
type Written = (
    &'static [u32],
    &'static [(usize, usize)],
    &'static [&'static [u8]],
    &'static [&'static [u8]],
);

const WRITTEN: &[Written] = &[
    (
        &[2, 0, 1],
        &[(1, 1), (0, 0), (1, 5)],
        &[b"\0\0\0\0>", b"<\0\0\0\0\0\0\0\0>", b"..."],
        &[
            b"\x04\x04\x04\x0c>",
            b"<\xe5\x9f\xcd\x67\x5d\x4d\x51\x79>",
            b"...",
        ],
    ),
    (
        &[1],
        &[(0, 4)],
        &[b"\0\0\0\0\0\0\0\0"],
        &[b"\0\0\0\0\x5d\x4d\x51\x79"],
    ),
    (&[], &[], &[b"<>"], &[b"<>"]),
];

// The buffers after the recovery slices of `abcd` and `efgh` were written into them.
fn written(rt: &(impl Abort + AllocGlobal), row: &Written) -> Vec<Vec<u8>> {
    let (exponents, pairs, before, _) = row;
    let mut buffers = lists_of(rt, before);
    let places = places_of(rt, pairs);
    let slices: [&[u8]; 2] = [b"abcd", b"efgh"];
    let all = buffers.as_mut_slice();
    let answer = slices_written(rt.alloc(), &field(rt), &slices, exponents, all, &places, 2);
    answer.expect(rt, "memory").expect(rt, "outputs");
    buffers
}

#[test]
fn recovery_slices_are_written_at_their_places(rt: HostRuntime) {
    for (k, row) in WRITTEN.iter().enumerate() {
        assert!(rt; are_buffers(&written(&rt, row), row.3), "row {k}");
    }
}

#[test]
fn one_name_twice(rt: HostRuntime) {
    let answer = read_set(&rt, &two_files(&rt), &["a", "b", "a"], 4);
    assert!(rt; matches!(answer, Err(RecordFault::DuplicateId)));
}

// The recovery slice of an exponent, computed alone.
fn slice_alone(
    rt: &(impl Abort + AllocGlobal),
    gf: &Gf,
    set: &SetRecord,
    folder: &Folder,
    e: u32,
) -> Vec<u8> {
    let slice = recovery_slice_of(rt.alloc(), gf, set, folder, e).expect(rt, "memory");
    slice.expect(rt, "a recovery slice")
}

// Whether the slices of six bytes from exponent 5 on are the same as if computed alone.
fn are_as_alone(
    rt: &(impl Abort + AllocGlobal),
    set: &SetRecord,
    folder: &Folder,
    buffers: &[Vec<u8>],
) -> bool {
    let gf = field(rt);
    let mut e = 5u32;
    for bytes in buffers {
        if bytes.len() != 6 || slice_alone(rt, &gf, set, folder, e) != *bytes {
            return false;
        }
        e = e.wrapping_add(1);
    }
    buffers.len() == 4
}

#[test]
fn one_by_one(rt: HostRuntime) {
    let folder = folder_with(&rt, &[("a", b"abcdefghijk"), ("b", b"lm"), ("c", b"")]);
    let set = set_with(&rt, &folder, &["a", "b", "c"], 6);
    assert!(rt; are_as_alone(&rt, &set, &folder, &slices_from(&rt, &set, &folder, 5, 4)));
}

// The powers of a constant repeat after 65,535 of them.
#[test]
fn exponents_of_any_size(rt: HostRuntime) {
    let folder = folder_with(&rt, &[("a", b"abcdefgh")]);
    let set = set_with(&rt, &folder, &["a"], 4);
    let gf = field(&rt);
    assert!(rt;
        slice_alone(&rt, &gf, &set, &folder, 65536).as_slice() == b"\x5d\x4d\x51\x79".as_slice()
    );
    assert!(rt;
        slice_alone(&rt, &gf, &set, &folder, u32::MAX).as_slice() == b"\x04\x04\x04\x0c".as_slice()
    );
}
