//! Worked examples of folders and names, and every refusal.

ghost use Rattle.std.specs.Prelude.{map, IsTrue};
ghost use Rattle.par2_files.specs.Folders.{change_of};
ghost use Rattle.par2_spec.specs.Prelude.{takes_all};

use crate::calls::{bytes_in, fingerprint, lists, name};
use par2_files::{Checkpoints, checkpoint_at, fingerprint_with_checkpoints, fingerprints};
use par2_folder::{BadName, Bytes, Change, ChangeFault, Folder, Name};
use std::process::Abort;

// A change, in plain strings and bytes.
#[derive(Drop)]
enum PlainChange {
    Write(&'static str, &'static [u8]),
    Replace(&'static str, &'static [u8]),
    Rename(&'static str, &'static str),
    Remove(&'static str),
}

// Files by their names and bytes.
type Files = &'static [(&'static str, &'static [u8])];

// The result of a change to a folder.
type Answer = Result<(), ChangeFault>;

fn bytes_of(rt: &(impl Abort + AllocGlobal), bytes: &[u8]) -> Bytes {
    Bytes::copy_of(rt.alloc(), bytes).expect(rt, "memory")
}

fn change_of(rt: &(impl Abort + AllocGlobal), plain: &PlainChange) -> Change {
    match plain {
        PlainChange::Write(string, bytes) => Change::Write(name(rt, string), bytes_of(rt, bytes)),
        PlainChange::Replace(string, bytes) => Change::Replace(
            name(rt, string),
            bytes_of(rt, bytes),
        ),
        PlainChange::Rename(from, to) => Change::Rename(name(rt, from), name(rt, to)),
        PlainChange::Remove(string) => Change::Remove(name(rt, string)),
    }
}

fn applied(folder: &mut Folder, change: &mut Change) -> Answer {
    folder.apply(change)
}

// A folder without files, with this much spare capacity.
fn vacant(rt: &(impl Abort + AllocGlobal), places: usize) -> Folder {
    let mut folder = Folder::new(rt.alloc());
    folder.reserve(places).expect(rt, "memory");
    folder
}

// Makes the change and returns its result.
fn answer(rt: &(impl Abort + AllocGlobal), folder: &mut Folder, plain: &PlainChange) -> Answer {
    applied(folder, &mut change_of(rt, plain))
}

// A folder of these files, with this much spare capacity.
fn folder_of(rt: &(impl Abort + AllocGlobal), files: Files, places: usize) -> Folder {
    let mut folder = vacant(rt, files.len().saturating_add(places));
    for (string, bytes) in files {
        assert!(rt; answer(rt, &mut folder, &PlainChange::Write(string, bytes)).is_ok());
    }
    folder
}

// Whether the folder has these bytes under the name.
fn gives(
    rt: &(impl Abort + AllocGlobal),
    folder: &Folder,
    string: &str,
    bytes: Option<&[u8]>,
) -> bool {
    bytes_in(folder, &name(rt, string)) == bytes
}

// Files and spare capacity, changes with the result of each, and the folder after them.
struct Case {
    files: Files,
    vacant: usize,
    changes: &'static [(PlainChange, Answer)],
    names_then: &'static [&'static str],
    vacant_then: usize,
    read_then: (&'static str, Option<&'static [u8]>),
}

const ACCEPTED: &[(PlainChange, Answer)] = &[
    (PlainChange::Rename("a", "c"), Ok(())),
    (PlainChange::Write("a", b"11"), Ok(())),
    (PlainChange::Replace("b", b"22"), Ok(())),
    (PlainChange::Remove("c"), Ok(())),
];

const CASES: &[Case] = &[
    Case {
        files: &[],
        vacant: 1,
        changes: &[],
        names_then: &[],
        vacant_then: 1,
        read_then: ("b", None),
    },
    Case {
        files: &[],
        vacant: 1,
        changes: &[(PlainChange::Write("a", b"abcdefgh"), Ok(()))],
        names_then: &["a"],
        vacant_then: 0,
        read_then: ("a", Some(b"abcdefgh")),
    },
    Case {
        files: &[("a", b"abcdefgh")],
        vacant: 0,
        changes: &[
            (PlainChange::Write("b", b""), Err(ChangeFault::NoRoom)),
            (PlainChange::Write("a", b""), Err(ChangeFault::NameTaken)),
            (PlainChange::Rename("a", "a"), Err(ChangeFault::NameTaken)),
            (PlainChange::Remove("b"), Err(ChangeFault::NoSuchName)),
        ],
        names_then: &["a"],
        vacant_then: 0,
        read_then: ("a", Some(b"abcdefgh")),
    },
    Case {
        files: &[("b", b"2"), ("a", b"1")],
        vacant: 1,
        changes: &[
            (PlainChange::Write("a", b"x"), Err(ChangeFault::NameTaken)),
            (
                PlainChange::Replace("c", b"x"),
                Err(ChangeFault::NoSuchName),
            ),
            (PlainChange::Rename("c", "a"), Err(ChangeFault::NoSuchName)),
            (PlainChange::Rename("b", "a"), Err(ChangeFault::NameTaken)),
            (PlainChange::Remove("c"), Err(ChangeFault::NoSuchName)),
        ],
        names_then: &["a", "b"],
        vacant_then: 1,
        read_then: ("a", Some(b"1")),
    },
    Case {
        files: &[("a", b"1"), ("b", b"2")],
        vacant: 1,
        changes: ACCEPTED,
        names_then: &["a", "b"],
        vacant_then: 1,
        read_then: ("b", Some(b"22")),
    },
];

// Whether each change has the result beside it.
fn are_answered(
    rt: &(impl Abort + AllocGlobal),
    folder: &mut Folder,
    changes: &[(PlainChange, Answer)],
) -> bool {
    for (plain, wanted) in changes {
        if answer(rt, folder, plain) != *wanted {
            return false;
        }
    }
    true
}

// Whether the folder is as the case says after the changes.
fn is_behind(rt: &(impl Abort + AllocGlobal), folder: &Folder, case: &Case) -> bool {
    let (string, bytes) = case.read_then;
    folder.vacant() == case.vacant_then
        && lists(rt, folder, case.names_then)
        && gives(rt, folder, string, bytes)
}

fn is_as_wanted(rt: &(impl Abort + AllocGlobal), case: &Case) -> bool {
    let mut folder = folder_of(rt, case.files, case.vacant);
    are_answered(rt, &mut folder, case.changes) && is_behind(rt, &folder, case)
}

#[test]
fn changes_of_folders(rt: HostRuntime) {
    for (k, case) in CASES.iter().enumerate() {
        assert!(rt; is_as_wanted(&rt, case), "case {k}");
    }
}

const NO_FILES: [u8; 16] = [
    0xd4, 0x1d, 0x8c, 0xd9, 0x8f, 0x00, 0xb2, 0x04, 0xe9, 0x80, 0x09, 0x98, 0xec, 0xf8, 0x42, 0x7e,
];

const ONE_FILE: [u8; 16] = [
    0xe1, 0x8e, 0x3d, 0x90, 0x79, 0x78, 0xaa, 0x4e, 0x80, 0xee, 0x2e, 0x69, 0x0c, 0x64, 0xe1, 0x95,
];

const TWO_FILES: [u8; 16] = [
    0x77, 0x08, 0x56, 0x50, 0x42, 0xc3, 0x29, 0xb4, 0x65, 0x12, 0xee, 0x4a, 0x16, 0x50, 0xe4, 0x84,
];

// The MD5 digest of `abc` (RFC 1321, A.5).
const DIGEST_OF_ABC: [u8; 16] = [
    0x90, 0x01, 0x50, 0x98, 0x3c, 0xd2, 0x4f, 0xb0, 0xd6, 0x96, 0x3f, 0x7d, 0x28, 0xe1, 0x7f, 0x72,
];

// MD5 of nothing, of 01 00 00 00 00 00 00 00 `a` 02 00 00 00 00 00 00 00 `bc`, and of 01 .. `b` 00 .. after it.
const FINGERPRINTS: &[(Files, [u8; 16])] = &[
    (&[], NO_FILES),
    (&[("a", b"bc")], ONE_FILE),
    (&[("b", b""), ("a", b"bc")], TWO_FILES),
];

fn fingerprint_of(rt: &(impl Abort + AllocGlobal), files: Files) -> [u8; 16] {
    fingerprint(rt, &folder_of(rt, files, 0))
}

#[test]
fn fingerprints_of_files(rt: HostRuntime) {
    for (files, digest) in FINGERPRINTS {
        assert!(rt; fingerprint_of(&rt, files) == *digest);
    }
}

// Whether these are the fingerprints of the folder and after each change, without checkpoints.
fn has_along(
    rt: &(impl Abort + AllocGlobal),
    folder: &Folder,
    changes: &[Change],
    wanted: &[[u8; 16]],
) -> bool
    requires { IsTrue (takes_all folder.now (map change_of changes.now)) }
{
    let none = Checkpoints::none(rt.alloc());
    let found = fingerprints(rt.alloc(), folder, changes, &none, &[]).expect(rt, "memory");
    found.along.as_slice() == wanted
}

// The same with the checkpoints of `fingerprint_with_checkpoints`, which also gives the digest of `abc`.
fn has_from_checkpoints(
    rt: &(impl Abort + AllocGlobal),
    folder: &Folder,
    changes: &[Change],
    wanted: &[[u8; 16]],
) -> bool
    requires { IsTrue (takes_all folder.now (map change_of changes.now)) }
{
    let prints = fingerprint_with_checkpoints(rt.alloc(), folder, b"abc").expect(rt, "memory");
    let found = fingerprints(rt.alloc(), folder, changes, &prints.checkpoints, &[b"abc"]);
    let found = found.expect(rt, "memory");
    prints.digest == DIGEST_OF_ABC
        && found.beside.as_slice() == [DIGEST_OF_ABC].as_slice()
        && found.along.as_slice() == wanted
}

// The same with a checkpoint at `b`, beside which the digest of `abc` is computed.
fn has_from_mark(
    rt: &(impl Abort + AllocGlobal),
    folder: &Folder,
    changes: &[Change],
    wanted: &[[u8; 16]],
) -> bool
    requires { IsTrue (takes_all folder.now (map change_of changes.now)) }
{
    let name = Name::new("b").expect(rt, "a name");
    let none = Checkpoints::none(rt.alloc());
    let checkpointed = checkpoint_at(rt.alloc(), folder, &none, &name, &[b"abc"]).expect(
        rt, "memory",
    );
    let found = fingerprints(rt.alloc(), folder, changes, &checkpointed.checkpoints, &[]);
    checkpointed.beside.as_slice() == [DIGEST_OF_ABC].as_slice()
        && found.expect(rt, "memory").along.as_slice() == wanted
}

// Whether these are the fingerprints of the folder with the change and with the change undone.
fn has_back(
    rt: &(impl Abort + AllocGlobal),
    mut folder: Folder,
    mut change: Change,
    wanted: &[[u8; 16]],
) -> Result<bool, ChangeFault> {
    folder.apply(&mut change)?;
    let back = [change];
    Ok(
        has_along(rt, &folder, &back, wanted)
            && has_from_checkpoints(rt, &folder, &back, wanted)
            && has_from_mark(rt, &folder, &back, wanted),
    )
}

#[test]
fn fingerprints_along_a_change(rt: HostRuntime) {
    let folder = folder_of(&rt, &[("a", b"bc")], 1);
    let change = change_of(&rt, &PlainChange::Write("b", b""));
    assert!(rt; has_back(&rt, folder, change, &[TWO_FILES, ONE_FILE]) == Ok(true));
}

// The same for two changes: with both, with only the first, and with neither.
fn has_back_from_two(
    rt: &(impl Abort + AllocGlobal),
    mut folder: Folder,
    mut first: Change,
    mut second: Change,
    wanted: &[[u8; 16]],
) -> Result<bool, ChangeFault> {
    folder.apply(&mut first)?;
    folder.apply(&mut second)?;
    Ok(has_along(rt, &folder, &[second, first], wanted))
}

#[test]
fn fingerprints_along_two_changes(rt: HostRuntime) {
    let folder = folder_of(&rt, &[("a", b"bc")], 1);
    let first = change_of(&rt, &PlainChange::Rename("a", "c"));
    let second = change_of(&rt, &PlainChange::Write("a", b"bc"));
    let both = fingerprint_of(&rt, &[("c", b"bc"), ("a", b"bc")]);
    let renamed = fingerprint_of(&rt, &[("c", b"bc")]);
    let wanted = [both, renamed, ONE_FILE];
    assert!(rt; has_back_from_two(&rt, folder, first, second, &wanted) == Ok(true));
}

// Strings, how often each is repeated, and whether the result is a name.
const BUFFERS: &[(&str, usize, bool)] = &[
    ("a", 1, true),
    (".", 1, false),
    ("..", 1, false),
    ("", 1, false),
    ("a/b", 1, false),
    ("a\0", 1, false),
    (".par2undo", 1, false),
    (".par2undo.tmp", 1, false),
    (".par2und", 1, true),
    ("...", 1, true),
    ("ä", 1, true),
    ("n", 255, true),
    ("n", 256, false),
];

// Whether the string is a name, and the name is that string.
fn is_name(rt: &(impl Abort + AllocGlobal), string: &str, times: usize) -> bool {
    let whole = string.repeat(rt.alloc(), times).expect(rt, "memory");
    match Name::new(&whole) {
        Ok(name) => name.as_str() == whole.as_str(),
        Err(BadName) => false,
    }
}

#[test]
fn strings_that_are_names(rt: HostRuntime) {
    for (string, times, wanted) in BUFFERS {
        assert!(rt; is_name(&rt, string, *times) == *wanted, "{string}");
    }
}

// Bytes, their name, if they are one, and whether it ends in `.par2`.
const NAMED_BYTES: &[(&[u8], Option<(&str, bool)>)] = &[
    (b"a.par2", Some(("a.par2", true))),
    (b"a.vol0+1.PaR2", Some(("a.vol0+1.PaR2", true))),
    (b".par2", Some((".par2", true))),
    (b"par2", Some(("par2", false))),
    (b"a.par2.gz", Some(("a.par2.gz", false))),
    (b"\xc3\xa4", Some(("\u{e4}", false))),
    (b"\xc3", None),
    (b"a/b", None),
];

// Whether the bytes are this name, or none.
fn is_named(bytes: &[u8], wanted: Option<(&str, bool)>) -> bool {
    match (Name::from_bytes(bytes), wanted) {
        (Some(name), Some((string, is_par))) => name.as_str() == string && name.is_par() == is_par,
        (None, None) => true,
        _ => false,
    }
}

#[test]
fn bytes_that_are_names(rt: HostRuntime) {
    for (k, (bytes, wanted)) in NAMED_BYTES.iter().enumerate() {
        assert!(rt; is_named(bytes, *wanted), "bytes {k}");
    }
}

#[test]
fn sizes_and_bytes_of_a_folder(rt: HostRuntime) {
    let folder = folder_of(&rt, &[("b", b"2"), ("a", b"bc")], 1);
    assert!(rt; folder.len() == 2 && vacant(&rt, 3).len() == 0);
    assert!(rt; folder.bytes_of(&name(&rt, "a")) == b"bc".as_slice());
    assert!(rt; folder.bytes_of(&name(&rt, "c")) == b"".as_slice());
}

// The changes of the last case.
fn accepted(rt: &(impl Abort + AllocGlobal)) -> Vec<Change> {
    let mut changes = Vec::new(rt.alloc());
    for (plain, _) in ACCEPTED {
        changes.push(change_of(rt, plain)).expect(rt, "memory");
    }
    changes
}

// Makes the changes, and undoes them if each is accepted.
fn does_and_takes_back(folder: &mut Folder, changes: &mut [Change]) -> bool {
    let are_done = are_accepted(folder, changes);
    changes.reverse();
    are_done && are_accepted(folder, changes)
}

fn are_accepted(folder: &mut Folder, changes: &mut [Change]) -> bool {
    for change in changes.iter_mut() {
        if applied(folder, change).is_err() {
            return false;
        }
    }
    true
}

#[test]
fn changes_and_their_way_back(rt: HostRuntime) {
    let mut folder = folder_of(&rt, &[("a", b"1"), ("b", b"2")], 1);
    let before = fingerprint(&rt, &folder);
    assert!(rt; does_and_takes_back(&mut folder, &mut accepted(&rt)));
    assert!(rt; folder.vacant() == 1 && fingerprint(&rt, &folder) == before);
}
