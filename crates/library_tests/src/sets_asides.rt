//! The names under which files are put aside, and the PAR2 files of a set.

use crate::calls::{are_named, name};
use crate::set_packets::{Files, Part, folder_for, read_in, set_in};
use par2_folder::{Folder, Name};
use par2_sets::{asides, par_files};
use par2_spec::Fault;
use std::process::Abort;

// The names that repeat these strings this often.
fn names_of(rt: &(impl Abort + AllocGlobal), buffers: &[(&str, usize)]) -> Vec<Name> {
    let mut names = Vec::new(rt.alloc());
    for (string, times) in buffers {
        names
            .push(repeated(rt, string, *times))
            .expect(rt, "memory");
    }
    names
}

fn repeated(rt: &(impl Abort + AllocGlobal), string: &str, times: usize) -> Name {
    name(rt, &string.repeat(rt.alloc(), times).expect(rt, "memory"))
}

// The asides of these names in a folder whose base is `m.par2`.
fn asides_of(
    rt: &(impl Abort + AllocGlobal),
    folder: &Folder,
    names: &[Name],
) -> Result<Vec<Name>, Fault> {
    asides(rt.alloc(), folder, &set_in(rt, folder), names)
}

fn are_asides(found: &Result<Vec<Name>, Fault>, wanted: Result<&[&str], Fault>) -> bool {
    match (found, wanted) {
        (Ok(names), Ok(buffers)) => are_named(names, buffers),
        (Err(fault), Err(reported)) => *fault == reported,
        _ => false,
    }
}

// A base with the whole set, and numbered files beside it.
const NUMBERED: Files = &[
    ("m.par2", &[Part::Main, Part::Description, Part::Checksums]),
    ("f.1", &[Part::Noise(b"one")]),
    ("g.2", &[Part::Noise(b"two")]),
];

const WHOLE: Files = &[("m.par2", &[Part::Main, Part::Description, Part::Checksums])];

// A target, files, strings and how often each is repeated in a name, and the asides or the reason why there are none.
type Row = (
    &'static str,
    Files,
    &'static [(&'static str, usize)],
    Result<&'static [&'static str], Fault>,
);

const ASIDES: &[Row] = &[
    // The lowest free numbers.
    ("f.2", NUMBERED, &[("f", 1), ("g", 1)], Ok(&["f.3", "g.1"])),
    // An aside of 255 bytes, and one of 256.
    ("f", WHOLE, &[("n", 253)], Ok(&[LONGEST])),
    ("f", WHOLE, &[("n", 254)], Err(Fault::NameTooLong)),
];

const LONGEST: &str = "\
    nnnnnnnnnnnnnnnnnnnnnnnnnnnnnnnnnnnnnnnnnnnnnnnnnnnnnnnnnnnnnnnnnnnnnnnnnnnnnnnnnnnnnnnnnnnnnn\
    nnnnnnnnnnnnnnnnnnnnnnnnnnnnnnnnnnnnnnnnnnnnnnnnnnnnnnnnnnnnnnnnnnnnnnnnnnnnnnnnnnnnnnnnnnnnnn\
    nnnnnnnnnnnnnnnnnnnnnnnnnnnnnnnnnnnnnnnnnnnnnnnnnnnnnnnnnnnnnnnnn.1";

fn is_put_aside(rt: &(impl Abort + AllocGlobal), row: &Row) -> bool {
    let (target, files, buffers, wanted) = *row;
    let folder = folder_for(rt, target, files);
    are_asides(&asides_of(rt, &folder, &names_of(rt, buffers)), wanted)
}

#[test]
fn names_aside(rt: HostRuntime) {
    for (k, row) in ASIDES.iter().enumerate() {
        assert!(rt; is_put_aside(&rt, row), "row {k}");
    }
}

const PAR_FILES: Files = &[
    ("m.par2", &[Part::Main, Part::Description, Part::Checksums]),
    (
        "m.vol0+1.PAR2",
        &[Part::Noise(b"noise"), Part::Recovery(0, b"aaaa")],
    ),
    (
        "mixed.par2",
        &[Part::Recovery(0, b"aaaa"), Part::Stranger(0, b"aaaa")],
    ),
    ("none.par2", &[Part::Noise(b"no packet")]),
    ("other.txt", &[Part::Recovery(0, b"aaaa")]),
    ("target.par2", &[Part::Recovery(0, b"aaaa")]),
];

// The PAR2 files of the set.
fn par_files_in(rt: &(impl Abort + AllocGlobal), folder: &Folder) -> Vec<Name> {
    let read = read_in(rt, folder);
    par_files(rt.alloc(), &read.set, &read.own_files).expect(rt, "memory")
}

#[test]
fn files_with_packets_of_the_set_alone(rt: HostRuntime) {
    let folder = folder_for(&rt, "target.par2", PAR_FILES);
    assert!(rt; are_named(&par_files_in(&rt, &folder), &["m.par2", "m.vol0+1.PAR2"]));
}
