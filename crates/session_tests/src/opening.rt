//! Opens folders with a journal.
use crate::calls::{
    changes_back, encode, fingerprint, open, open_before_redo, settled_bytes, taken_back,
};
use crate::fixtures::{A, File, Trouble, folder_of};
use crate::journal::{FINGERPRINT, HALFWAY_JOURNAL};
use crate::session::{file_in, stands};
use par2_folder::{Change, Folder};
use par2_journal::{Halfway, JournalFault, Opened, Session};
use std::alloc::Global;
use std::test::Fail;

/// The session of a folder with only the file `a`, opened with the journal of another session.
pub fn reopened(alloc: Global, session: &Session, is_redo_next: bool) -> Result<Session, Trouble> {
    let bytes = encode(session)?;
    let folder = folder_of(alloc, A)?;
    let opened = if is_redo_next {
        open_before_redo(alloc, folder, &bytes)
    } else {
        open(alloc, folder, &bytes)
    };
    match opened {
        Ok(Opened::Settled(again)) => Ok(again),
        _ => Err(Trouble::Refused),
    }
}

// A folder of these files, opened with the journal of a halfway command.
fn halfway_of(alloc: Global, files: &[(&str, &[u8])], bytes: &[u8]) -> Result<Halfway, Trouble> {
    let folder = folder_of(alloc, files)?;
    match open(alloc, folder, bytes) {
        Ok(Opened::Halfway(halfway)) => Ok(halfway),
        _ => Err(Trouble::Refused),
    }
}

fn is_removal_of(changes: &[Change], string: &str) -> bool {
    matches!(changes, [Change::Remove(name)] if name.as_str() == string)
}

// Whether removing the index takes the halfway command back, and this is the journal afterwards.
fn is_as_reported(halfway: &Halfway, settled: &[u8]) -> Result<bool, Trouble> {
    let bytes = settled_bytes(halfway)?;
    Ok(bytes.as_slice() == settled && is_removal_of(changes_back(halfway), "t.par2"))
}

// Whether that is reported, and happens.
fn is_removed(halfway: Halfway, settled: &[u8]) -> Result<bool, Trouble> {
    let is_reported = is_as_reported(&halfway, settled)?;
    let session = taken_back(halfway);
    Ok(is_reported && stands(&session, &("t.par2", 0, 0, None)))
}

/// The same for a session's folder with the files `a` and `t.par2`, and for this halfway journal.
pub fn is_taken_back(
    alloc: Global,
    session: &Session,
    bytes: &[u8],
    settled: &[u8],
) -> Result<bool, Trouble> {
    let Some(index) = file_in(session, "t.par2") else {
        return Ok(false);
    };
    let halfway = halfway_of(alloc, &[("a", b"abcdefgh"), ("t.par2", index)], bytes)?;
    is_removed(halfway, settled)
}

// A journal made by another program, from the format alone. After its undo the file `t.par2` of one byte can be written
// again.
const UNDONE: &[u8] = b"P2UNDO2\n\
    \xd3\x68\x83\xb6\x33\x05\xc2\x0b\x65\xe4\x20\x6a\x90\x61\x28\xc1\
    \0\0\0\0\0\0\0\0\x01\0\0\0\0\0\0\0\x01\0\0\0\0\0\0\0\x01\x06t.par2\x01\0\0\0\0\0\0\x001\0\
    \x20\x6a\x48\x9c\xc8\xae\x77\xbd\x76\x4d\x8a\x9d\x6d\xfd\x86\x0b";

const B: &[File] = &[("b", b"abcdefgh")];

// The fingerprint of the folder with only the file `b`.
const FINGERPRINT_OF_B: [u8; 16] =
    *b"\xf4\x12\xa7\x06\x1c\x88\xa5\x3c\x2d\xf2\x23\x15\x59\x1f\x05\xdd";

// The files and their fingerprint, a journal that does not open them, and the fault.
type Foreign = (&'static [File], [u8; 16], &'static [u8], JournalFault);

const FOREIGN: &[Foreign] = &[
    (
        B,
        FINGERPRINT_OF_B,
        UNDONE,
        JournalFault::FolderChanged { halfway: false },
    ),
    (A, FINGERPRINT, b"no journal", JournalFault::JournalInvalid),
    (
        B,
        FINGERPRINT_OF_B,
        HALFWAY_JOURNAL,
        JournalFault::FolderChanged { halfway: true },
    ),
];

// The folder that a refusal of this journal returns.
fn given_back(
    alloc: Global,
    folder: Folder,
    bytes: &[u8],
    wanted: JournalFault,
) -> Result<Folder, Trouble> {
    let Err((fault, folder)) = open(alloc, folder, bytes) else {
        return Err(Trouble::Refused);
    };
    if fault == wanted {
        Ok(folder)
    } else {
        Err(Trouble::Refused)
    }
}

// Whether the folder is returned as it was.
fn is_refused(alloc: Global, row: &Foreign) -> Result<bool, Trouble> {
    let folder = given_back(alloc, folder_of(alloc, row.0)?, row.2, row.3)?;
    Ok(fingerprint(&folder)? == row.1)
}

#[test]
fn foreign_journals(rt: HostRuntime) -> Result<(), Fail> {
    for row in FOREIGN {
        assert!(rt; is_refused(rt.alloc(), row)?);
    }
    Ok(())
}

// A halfway journal, made by another program, from the format alone: four changes replaced two files by two others.
const FOUR_CHANGES: &[u8] = b"P2UNDO2\n\
    \xb7\x43\x87\x0e\x63\x2f\x99\xfb\x01\xaa\xfe\xf7\x6f\xdb\x40\xce\
    \0\0\0\0\0\0\0\0\0\0\0\0\0\0\0\0\x01\x04\0\0\0\0\0\0\0\
    \xfa\x63\x40\x68\x6e\x37\x25\x23\x00\x94\x17\x6d\x73\x53\xfb\xef\
    \x89\xb9\x8a\x67\x95\xdf\x83\xfa\x40\x02\xe9\xb6\x82\x08\x3f\xd6\
    \xf0\xfe\xb0\xcd\x49\x76\xb3\x53\x3d\x84\x13\xa7\x21\xf6\xb5\xa3\
    \xf1\xbf\xd4\xbf\x07\x32\x58\x86\x16\x4c\x3a\x8f\x41\x96\xce\xe0\
    \x01\x03a.1\x08\0\0\0\0\0\0\0abcdefgh\x02\x01b\x03\0\0\0\0\0\0\0xyz\x04\x01a\x03\x03a.1\x01a\
    \xf7\xb0\xce\x82\x53\x26\x97\x86\x8a\xec\xae\xa6\x1e\x98\xeb\xb0";

// The files in the folder of a halfway command, its journal, and the number of changes that were made.
type Along = (&'static [File], &'static [u8], usize);

const ALONG: &[Along] = &[
    (A, HALFWAY_JOURNAL, 0),
    (&[("a", b"abcdefgh"), ("b", b"xyz")], FOUR_CHANGES, 0),
    (&[("a.1", b"abcdefgh"), ("b", b"xyz")], FOUR_CHANGES, 1),
    (
        &[("a", b"new"), ("a.1", b"abcdefgh"), ("b", b"xyz")],
        FOUR_CHANGES,
        2,
    ),
    (
        &[("a", b"new"), ("a.1", b"abcdefgh"), ("b", b"b2")],
        FOUR_CHANGES,
        3,
    ),
    (&[("a", b"new"), ("b", b"b2")], FOUR_CHANGES, 4),
];

fn is_along(alloc: Global, row: &Along) -> Result<bool, Trouble> {
    let halfway = halfway_of(alloc, row.0, row.1)?;
    Ok(changes_back(&halfway).len() == row.2)
}

#[test]
fn takes_back_as_many_changes_as_were_made(rt: HostRuntime) -> Result<(), Fail> {
    for row in ALONG {
        assert!(rt; is_along(rt.alloc(), row)?);
    }
    Ok(())
}
