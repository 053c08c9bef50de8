//! Every fault of a create, and its outputs, compared with bytes that another program made and that par2cmdline
//! verifies and repairs with.
use crate::calls::plan_of;
use crate::fixtures::{A, File, Trouble, args_of, folder_of};
use par2_folder::{Change, Folder};
use par2_plan::{Changes, CreateArgs, Fault};
use par2_slices::crc32;
use std::alloc::{AllocError, Global};
use std::test::Fail;

// The name, the length and the CRC-32 of a file that a create writes.
type Output = (&'static str, usize, u32);

// The File ID of `b` is below that of `a`.
const A_AND_B: &[File] = &[("a", b"abcdefgh"), ("b", b"0123456")];

const A_AND_INDEX: &[File] = &[("a", b"abcdefgh"), ("t.par2", &[1; 420])];

const INDEX: Output = ("t.par2", 420, 0xfa5b_22a1);

const VOLUME_OF_ONE: Output = ("t.vol00000+00001.par2", 492, 0xee78_3aa6);

const VOLUME_OF_TWO: Output = ("t.vol00001+00002.par2", 564, 0x668f_17d4);

// A base of 255 bytes, for which the names of volumes are too long.
const LONGEST_BASE: &str = "\
    bbbbbbbbbbbbbbbbbbbbbbbbbbbbbbbbbbbbbbbbbbbbbbbbbbbbbbbbbbbbbbbbbbbbbbbbbbbbbbbbbbbbbbbbbb\
    bbbbbbbbbbbbbbbbbbbbbbbbbbbbbbbbbbbbbbbbbbbbbbbbbbbbbbbbbbbbbbbbbbbbbbbbbbbbbbbbbbbbbbbbbb\
    bbbbbbbbbbbbbbbbbbbbbbbbbbbbbbbbbbbbbbbbbbbbbbbbbbbbbbbbbbbbbbbbbbbbbb.par2";

// A create on a folder of these files, and its outputs.
struct Planned {
    files: &'static [File],
    base: &'static str,
    slice: u64,
    count: u32,
    first: u32,
    inputs: &'static [&'static str],
    // Whether the outputs replace files.
    replaces: bool,
    wanted: &'static [Output],
}

const PLANNED: &[Planned] = &[
    Planned {
        files: A,
        base: "t.par2",
        slice: 4,
        count: 0,
        first: 0,
        inputs: &["a"],
        replaces: false,
        wanted: &[INDEX],
    },
    Planned {
        files: A,
        base: "t.par2",
        slice: 4,
        count: 5,
        first: 0,
        inputs: &["a"],
        replaces: false,
        wanted: &[
            INDEX,
            VOLUME_OF_ONE,
            VOLUME_OF_TWO,
            ("t.vol00003+00002.par2", 564, 0x6a08_e2a2),
        ],
    },
    Planned {
        files: A,
        base: "t.par2",
        slice: 4,
        count: 7,
        first: 0,
        inputs: &["a"],
        replaces: false,
        wanted: &[
            INDEX,
            VOLUME_OF_ONE,
            VOLUME_OF_TWO,
            ("t.vol00003+00004.par2", 708, 0x4a7e_7920),
        ],
    },
    Planned {
        files: A,
        base: "t.par2",
        slice: 4,
        count: 3,
        first: 0,
        inputs: &["a"],
        replaces: false,
        wanted: &[INDEX, VOLUME_OF_ONE, VOLUME_OF_TWO],
    },
    Planned {
        files: A,
        base: "t.par2",
        slice: 4,
        count: 2,
        first: 7,
        inputs: &["a"],
        replaces: false,
        wanted: &[
            INDEX,
            ("t.vol00007+00001.par2", 492, 0x8a18_22c4),
            ("t.vol00008+00001.par2", 492, 0xe0cd_de24),
        ],
    },
    Planned {
        files: A_AND_B,
        base: "t.par2",
        slice: 4,
        count: 2,
        first: 0,
        inputs: &["a", "b"],
        replaces: false,
        wanted: &[
            ("t.par2", 680, 0x6255_f6fd),
            ("t.vol00000+00001.par2", 752, 0x539f_3cb3),
            ("t.vol00001+00001.par2", 752, 0x067c_0cfd),
        ],
    },
    Planned {
        files: A_AND_INDEX,
        base: "t.par2",
        slice: 8,
        count: 0,
        first: 0,
        inputs: &["a"],
        replaces: true,
        wanted: &[("t.par2", 400, 0xcfd6_e37e)],
    },
    // The index doesn't contain its own name.
    Planned {
        files: A,
        base: LONGEST_BASE,
        slice: 4,
        count: 0,
        first: 0,
        inputs: &["a"],
        replaces: false,
        wanted: &[(LONGEST_BASE, 420, 0xfa5b_22a1)],
    },
];

fn planned_args(alloc: Global, row: &Planned) -> Result<CreateArgs, AllocError> {
    Ok(CreateArgs {
        count: row.count,
        first: row.first,
        overwrite: row.replaces,
        ..args_of(alloc, row.slice, row.base, row.inputs)?
    })
}

// Whether a change writes or replaces this file.
fn is_output(change: &Change, replaces: bool, file: &Output) -> bool {
    let (name, bytes) = match change {
        Change::Write(name, bytes) if !replaces => (name, bytes.as_slice()),
        Change::Replace(name, bytes) if replaces => (name, bytes.as_slice()),
        _ => return false,
    };
    name.as_str() == file.0 && bytes.len() == file.1 && crc32(bytes) == file.2
}

// Whether the changes write these files.
fn are_written(changes: &[Change], row: &Planned) -> bool {
    changes.len() == row.wanted.len()
        && changes
            .iter()
            .zip(row.wanted)
            .all(|(change, file)| is_output(change, row.replaces, file))
}

fn are_all_written(changes: &Changes, row: &Planned) -> bool {
    !changes.is_empty() && are_written(changes.as_slice(), row)
}

fn is_planned(alloc: Global, row: &Planned) -> Result<bool, Trouble> {
    let folder = folder_of(alloc, row.files)?;
    let args = planned_args(alloc, row)?;
    let changes = plan_of(alloc, &folder, &args);
    Ok(matches!(&changes, Ok(changes) if are_all_written(changes, row)))
}

#[test]
fn planned_creates(rt: HostRuntime) -> Result<(), Fail> {
    for row in PLANNED {
        assert!(rt; is_planned(rt.alloc(), row)?);
    }
    Ok(())
}

// A refused create: the slice size, the count, the first exponent, the base and the inputs, and the fault.
type Refused = (u64, u32, u32, &'static str, &'static [&'static str], Fault);

const REFUSED: &[Refused] = &[
    (6, 0, 0, "t.par2", &["a"], Fault::BadSliceSize),
    (0, 0, 0, "t", &["a"], Fault::BadSliceSize),
    (4, 0, 0, "t", &[], Fault::BadBase),
    (4, 0, 0, "t.par2", &[], Fault::NoInput),
    (4, 0, 0, "t.par2", &["zz", "x.par2"], Fault::BadName(2)),
    (4, 0, 0, "t.par2", &["a", "a"], Fault::DuplicateInput(2)),
    (4, 0, 0, "t.par2", &["empty", "zz"], Fault::NoSuchFile(2)),
    (4, 0, 0, "t.par2", &["large", "empty"], Fault::EmptyFile(2)),
    (4, 0, 0, "there.par2", &["large"], Fault::TooManySlices),
    (4, 0, 0, "there.par2", &["a"], Fault::Exists),
    // Its second volume exists.
    (4, 2, 0, "t.par2", &["a"], Fault::Exists),
    (4, 2, 65535, "t.par2", &["a"], Fault::BadCount),
    (4, 1, 0, LONGEST_BASE, &["a"], Fault::NameTooLong),
];

// One byte more than 32,768 slices of 4 bytes.
const LARGE: usize = 4 * 32768 + 1;

fn refused_args(alloc: Global, row: &Refused) -> Result<CreateArgs, AllocError> {
    Ok(CreateArgs {
        count: row.1,
        first: row.2,
        ..args_of(alloc, row.0, row.3, row.4)?
    })
}

// The folder in which they are refused.
fn folder_there(alloc: Global) -> Result<Folder, Trouble> {
    let large = vec![in alloc; 7; LARGE]?;
    folder_of(
        alloc,
        &[
            ("a", b"abcdefgh"),
            ("empty", b""),
            ("large", &large),
            ("there.par2", b"1"),
            ("t.vol00001+00001.par2", b"1"),
        ],
    )
}

fn is_refused(alloc: Global, row: &Refused) -> Result<bool, Trouble> {
    let folder = folder_there(alloc)?;
    let args = refused_args(alloc, row)?;
    let changes = plan_of(alloc, &folder, &args);
    Ok(matches!(&changes, Err(fault) if *fault == row.5))
}

#[test]
fn refused_creates(rt: HostRuntime) -> Result<(), Fail> {
    for row in REFUSED {
        assert!(rt; is_refused(rt.alloc(), row)?);
    }
    Ok(())
}
