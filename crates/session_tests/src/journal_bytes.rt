//! Journals as bytes. The expected bytes were made by another program, from the format alone.
ghost use Rattle.std.specs.Prelude.{◌≡◌, length};

use crate::fixtures::Trouble;
use md5::{Digest, Md5};
use par2_folder::{Bytes, Change, Changes, Name};
use par2_journal_format::{
    DecodeFault, HalfwayPart, HalfwayPartView, Journal, JournalBytes, JournalView, Version, begin,
    decode, decode_untested, encode, finish_both, is_sealed,
};
use std::alloc::{AllocError, Global};
use std::slice::from_ref;
use std::test::Fail;

const FINGERPRINT: [u8; 16] = *b"0123456789abcdef";

// One entry for an undo: it removes `t.par2`.
const UNDO_ONE: &[u8] =
    b"P2UNDO1\n0123456789abcdef\x01\0\0\0\0\0\0\0\x01\0\0\0\0\0\0\0\x04\x06t.par2\0\
    \x40\x01\xf7\xd1\x58\xca\x84\x40\xda\x05\xf0\x32\x1d\xa6\x3c\x04";

const UNDO_TWO: &[u8] =
    b"P2UNDO2\n0123456789abcdef\x01\0\0\0\0\0\0\0\x01\0\0\0\0\0\0\0\x01\0\0\0\0\0\0\0\x04\x06t.par2\0\
    \x50\x1c\xe1\x3a\x60\xb5\x9a\x36\xad\x16\x9e\x1a\x6e\xcf\xbd\x6b";

// No entry.
const NOTHING_ONE: &[u8] = b"P2UNDO1\n0123456789abcdef\0\0\0\0\0\0\0\0\0\
    \x4b\xac\x78\xb8\x48\x6d\x5d\x01\xc8\xfc\xe0\x26\x55\xa1\x57\xb5";

const NOTHING_TWO: &[u8] = b"P2UNDO2\n0123456789abcdef\0\0\0\0\0\0\0\0\0\0\0\0\0\0\0\0\0\
    \xc9\xbe\x1d\x25\x2e\xe3\x18\xbb\x69\x4d\xeb\xcc\x6c\x50\x7d\x8d";

// The digest of a version 2 journal with one entry for a redo, which writes `t.par2` with 420 zero bytes.
const REDO_DIGEST: &[u8] = b"\x7a\xc5\xb1\xb0\x62\xe9\xf6\x00\xf7\x3d\x28\x91\x39\x09\x52\x41";

// No entry, and a halfway command. The way back removes `a` and renames `a.1` to `a`.
const HALFWAY_ONE: &[u8] = b"P2UNDO1\n0123456789abcdef\0\0\0\0\0\0\0\0\x01\x02\0\0\0\0\0\0\0\
    aaaaaaaaaaaaaaaabbbbbbbbbbbbbbbb\x04\x01a\x03\x03a.1\x01a\
    \x5d\x80\xe6\x38\x55\x5a\xd5\xed\x06\xca\x71\xf9\x66\xc1\xcd\x63";

const HALFWAY_TWO: &[u8] =
    b"P2UNDO2\n0123456789abcdef\0\0\0\0\0\0\0\0\0\0\0\0\0\0\0\0\x01\x02\0\0\0\0\0\0\0\
    aaaaaaaaaaaaaaaabbbbbbbbbbbbbbbb\x04\x01a\x03\x03a.1\x01a\
    \xa5\xaf\xe3\x10\x8f\x1a\xef\xd1\x57\x29\x08\x40\xd7\xe9\x53\xd0";

// A change, in plain strings and bytes.
enum Line {
    Write(&'static str, &'static [u8]),
    Rename(&'static str, &'static str),
    Remove(&'static str),
}

fn name_of(string: &str) -> Result<Name, Trouble> {
    match Name::new(string) {
        Ok(name) => Ok(name),
        Err(_) => Err(Trouble::Refused),
    }
}

fn change_of(alloc: Global, line: &Line) -> Result<Change, Trouble> {
    Ok(match line {
        Line::Write(name, bytes) => Change::Write(name_of(name)?, Bytes::copy_of(alloc, bytes)?),
        Line::Rename(from, to) => Change::Rename(name_of(from)?, name_of(to)?),
        Line::Remove(name) => Change::Remove(name_of(name)?),
    })
}

fn changes_of(alloc: Global, lines: &[Line]) -> Result<Changes, Trouble> {
    let mut changes = Changes::new(alloc);
    for line in lines {
        changes.push(change_of(alloc, line)?)?;
    }
    Ok(changes)
}

fn is_line(change: &Change, line: &Line) -> bool {
    match (change, line) {
        (Change::Write(name, bytes), Line::Write(string, wanted)) => {
            name.as_str() == *string && bytes.as_slice() == *wanted
        }
        (Change::Rename(from, to), Line::Rename(string, other)) => {
            from.as_str() == *string && to.as_str() == *other
        }
        (Change::Remove(name), Line::Remove(string)) => name.as_str() == *string,
        _ => false,
    }
}

fn are_lines(changes: &[Change], lines: &[Line]) -> bool {
    changes.len() == lines.len()
        && changes
            .iter()
            .zip(lines)
            .all(|(change, line)| is_line(change, line))
}

// A journal with one entry, or with none if it has no lines, and its bytes: their number, the first and the last of
// them.
struct Settled {
    version: Version,
    cursor: usize,
    entry: &'static [Line],
    bytes: (usize, &'static [u8], &'static [u8]),
}

const SETTLED: &[Settled] = &[
    Settled {
        version: Version::One,
        cursor: 1,
        entry: &[Line::Remove("t.par2")],
        bytes: (65, UNDO_ONE, b""),
    },
    Settled {
        version: Version::Two,
        cursor: 1,
        entry: &[Line::Remove("t.par2")],
        bytes: (73, UNDO_TWO, b""),
    },
    Settled {
        version: Version::One,
        cursor: 0,
        entry: &[],
        bytes: (49, NOTHING_ONE, b""),
    },
    Settled {
        version: Version::Two,
        cursor: 0,
        entry: &[],
        bytes: (57, NOTHING_TWO, b""),
    },
    Settled {
        version: Version::Two,
        cursor: 0,
        entry: &[Line::Write("t.par2", &[0; 420])],
        bytes: (501, b"P2UNDO2\n0123456789abcdef", REDO_DIGEST),
    },
];

fn is_entry(entries: &[Changes], lines: &[Line]) -> bool {
    match entries {
        [] => lines.is_empty(),
        [changes] => !lines.is_empty() && are_lines(changes.as_slice(), lines),
        _ => false,
    }
}

fn is_settled(journal: &Journal, row: &Settled) -> bool {
    journal.version == row.version
        && journal.fingerprint == FINGERPRINT
        && journal.cursor == row.cursor
        && is_entry(&journal.entries, row.entry)
        && journal.halfway.is_none()
}

// Whether the bytes read back as this journal.
fn reads_settled(alloc: Global, bytes: &[u8], row: &Settled) -> bool {
    let journal = decode(alloc, bytes);
    matches!(&journal, Ok(journal) if is_settled(journal, row))
}

// The bytes of a journal with these entries and no halfway command.
fn settled_bytes(alloc: Global, cursor: usize, entries: &[Changes]) -> Result<Vec<u8>, Trouble> {
    if cursor > entries.len() {
        return Err(Trouble::Refused);
    }
    let parts = JournalView {
        fingerprint: FINGERPRINT,
        cursor,
        entries,
        newer: &[],
    };
    Ok(encode(alloc, &parts)?)
}

// The bytes of the row, which are written only in version 2.
fn bytes_of(alloc: Global, row: &Settled) -> Result<Vec<u8>, Trouble> {
    let changes = changes_of(alloc, row.entry)?;
    match row.version {
        Version::One => Ok(Vec::from_slice(alloc, row.bytes.1)?),
        Version::Two if changes.is_empty() => settled_bytes(alloc, row.cursor, &[]),
        Version::Two => settled_bytes(alloc, row.cursor, from_ref(&changes)),
    }
}

fn is_spelled(alloc: Global, row: &Settled) -> Result<bool, Trouble> {
    let bytes = bytes_of(alloc, row)?;
    Ok(
        bytes.len() == row.bytes.0
            && bytes.starts_with(row.bytes.1)
            && bytes.ends_with(row.bytes.2)
            && reads_settled(alloc, &bytes, row),
    )
}

#[test]
fn settled_journals(rt: HostRuntime) -> Result<(), Fail> {
    for row in SETTLED {
        assert!(rt; is_spelled(rt.alloc(), row)?);
    }
    Ok(())
}

const FINGERPRINTS: [[u8; 16]; 2] = [*b"aaaaaaaaaaaaaaaa", *b"bbbbbbbbbbbbbbbb"];

// The way back of a halfway command.
const BACK: &[Line] = &[Line::Remove("a"), Line::Rename("a.1", "a")];

fn is_halfway_part(halfway: &HalfwayPart) -> bool {
    halfway.fingerprints.as_slice() == FINGERPRINTS.as_slice()
        && are_lines(halfway.back.as_slice(), BACK)
}

fn is_halfway(journal: &Journal, version: Version) -> bool {
    journal.version == version
        && journal.fingerprint == FINGERPRINT
        && journal.cursor == 0
        && journal.entries.is_empty()
        && matches!(&journal.halfway, Some(halfway) if is_halfway_part(halfway))
}

// Whether the bytes read back as that journal.
fn reads_halfway(alloc: Global, bytes: &[u8], version: Version) -> bool {
    let journal = decode(alloc, bytes);
    matches!(&journal, Ok(journal) if is_halfway(journal, version))
}

// The bytes of a command's two journals: while it is halfway, and afterwards.
fn both_buffers(alloc: Global, back: &Changes) -> Result<JournalBytes, AllocError>
    requires { length back.now ≡ 2 }
{
    let settled = JournalView {
        fingerprint: FINGERPRINT,
        cursor: 0,
        entries: &[],
        newer: &[],
    };
    let front = begin(alloc, &settled)?;
    let halfway = HalfwayPartView {
        fingerprints: &FINGERPRINTS,
        back,
    };
    finish_both(alloc, front, &halfway, &settled)
}

fn are_both_spelled(alloc: Global) -> Result<bool, Trouble> {
    let back = changes_of(alloc, BACK)?;
    if back.len() != 2 {
        return Ok(false);
    }
    let buffers = both_buffers(alloc, &back)?;
    Ok(buffers.halfway.as_slice() == HALFWAY_TWO && buffers.after.as_slice() == NOTHING_TWO)
}

#[test]
fn halfway_journals(rt: HostRuntime) -> Result<(), Fail> {
    assert!(rt; reads_halfway(rt.alloc(), HALFWAY_ONE, Version::One));
    assert!(rt; reads_halfway(rt.alloc(), HALFWAY_TWO, Version::Two));
    assert!(rt; are_both_spelled(rt.alloc())?);
    Ok(())
}

// Whether the bytes are refused as an invalid journal.
fn is_refused(alloc: Global, bytes: &[u8]) -> bool {
    matches!(decode(alloc, bytes), Err(DecodeFault::JournalInvalid))
}

// Whether every proper prefix is refused, the empty one, too.
fn are_prefixes_refused(alloc: Global, bytes: &[u8]) -> bool {
    (0..bytes.len()).all(|n| is_refused(alloc, bytes.split_at(n).0))
}

// The body, followed by its digest.
fn closed(alloc: Global, body: &[u8]) -> Result<Vec<u8>, AllocError> {
    let mut bytes = Vec::from_slice(alloc, body)?;
    bytes.extend_from_slice(&Md5::digest(body))?;
    Ok(bytes)
}

// Whether the bytes are refused with any one byte changed.
fn are_changes_refused(alloc: Global, bytes: &[u8]) -> Result<bool, AllocError> {
    let mut changed = Vec::from_slice(alloc, bytes)?;
    for n in 0..changed.len() {
        let byte = changed[n];
        changed[n] = byte ^ 1;
        if !is_refused(alloc, &changed) {
            return Ok(false);
        }
        changed[n] = byte;
    }
    Ok(true)
}

// Bodies of invalid journals, to which their digests are appended.
const FALSE_BODIES: &[&[u8]] = &[
    // Claims of 2^64 - 1 entries, changes, bytes and fingerprints.
    b"P2UNDO1\n0123456789abcdef\xff\xff\xff\xff\xff\xff\xff\xff\0",
    b"P2UNDO1\n0123456789abcdef\x01\0\0\0\0\0\0\0\xff\xff\xff\xff\xff\xff\xff\xff\x04\x01a\0",
    b"P2UNDO1\n0123456789abcdef\x01\0\0\0\0\0\0\0\x01\0\0\0\0\0\0\0\
        \x01\x01a\xff\xff\xff\xff\xff\xff\xff\xffabc\0",
    b"P2UNDO1\n0123456789abcdef\0\0\0\0\0\0\0\0\
        \x01\xff\xff\xff\xff\xff\xff\xff\xffaaaaaaaaaaaaaaaa\x04\x01a",
    // A cursor of 2 with only one entry.
    b"P2UNDO2\n0123456789abcdef\x02\0\0\0\0\0\0\0\x01\0\0\0\0\0\0\0\x01\0\0\0\0\0\0\0\x04\x06t.par2\0",
    // A byte after the last part.
    b"P2UNDO1\n0123456789abcdef\0\0\0\0\0\0\0\0\0\0",
    // A way back without changes.
    b"P2UNDO1\n0123456789abcdef\0\0\0\0\0\0\0\0\x01\0\0\0\0\0\0\0\0",
    // Bytes that aren't a name.
    b"P2UNDO1\n0123456789abcdef\x01\0\0\0\0\0\0\0\x01\0\0\0\0\0\0\0\x04\x03a/b\0",
];

// Whether the bytes are refused with one more byte after them.
fn is_longer_refused(alloc: Global, bytes: &[u8]) -> Result<bool, AllocError> {
    let mut longer = Vec::from_slice(alloc, bytes)?;
    longer.push(0)?;
    Ok(is_refused(alloc, &longer))
}

fn is_journal(alloc: Global, bytes: &[u8]) -> bool {
    is_sealed(bytes) && decode(alloc, bytes).is_ok()
}

const JOURNALS: &[&[u8]] = &[
    UNDO_ONE,
    UNDO_TWO,
    NOTHING_ONE,
    NOTHING_TWO,
    HALFWAY_ONE,
    HALFWAY_TWO,
];

// Whether the bytes are a journal, and are refused with any damage.
fn is_damage_refused(alloc: Global, bytes: &[u8]) -> Result<bool, AllocError> {
    Ok(
        is_journal(alloc, bytes)
            && are_prefixes_refused(alloc, bytes)
            && are_changes_refused(alloc, bytes)?
            && is_longer_refused(alloc, bytes)?,
    )
}

#[test]
fn damaged_journals(rt: HostRuntime) -> Result<(), Fail> {
    for bytes in JOURNALS {
        assert!(rt; is_damage_refused(rt.alloc(), bytes)?);
    }
    Ok(())
}

fn is_body_refused(alloc: Global, body: &[u8]) -> Result<bool, AllocError> {
    Ok(is_refused(alloc, &closed(alloc, body)?))
}

#[test]
fn false_journals(rt: HostRuntime) -> Result<(), Fail> {
    for body in FALSE_BODIES {
        assert!(rt; is_body_refused(rt.alloc(), body)?);
    }
    Ok(())
}

// Whether the digest at the end is that of the bytes before it; None if they aren't a journal.
fn has_its_digest(alloc: Global, bytes: &[u8]) -> Option<bool> {
    match decode_untested(alloc, bytes) {
        Ok(found) => Some(Md5::digest(found.body).as_slice() == found.digest),
        Err(_) => None,
    }
}

// Bytes that are read without a test of their digest, and whether it is right.
const UNTESTED: &[(&[u8], Option<bool>)] = &[
    (UNDO_TWO, Some(true)),
    (
        b"P2UNDO2\n0123456789abcdef\x01\0\0\0\0\0\0\0\x01\0\0\0\0\0\0\0\x01\0\0\0\0\0\0\0\x04\x06t.par2\0\
        \x50\x1c\xe1\x3a\x60\xb5\x9a\x36\xad\x16\x9e\x1a\x6e\xcf\xbd\x6a",
        Some(false),
    ),
    (b"no journal, but long enough", None),
];

#[test]
fn digest_left_to_the_caller(rt: HostRuntime) {
    for (bytes, wanted) in UNTESTED {
        assert!(rt; has_its_digest(rt.alloc(), bytes) == *wanted);
    }
}
