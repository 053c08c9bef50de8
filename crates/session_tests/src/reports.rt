//! Reports on a set of two slices and a recovery slice, with a file that was renamed, cut or shifted.
use crate::calls::{plan_of, reserve};
use crate::fixtures::{A, Trouble, apply, args_of, folder_of, words_of};
use par2_folder::{Bytes, Change, Folder, Name, copies_of};
use par2_plan::{Fault, Report, State, Verdict, check};
use std::alloc::{AllocError, Global};
use std::test::Fail;

// The changes of a create of a set of slice size 4 and one recovery slice over the file `a`.
fn changes_of(alloc: Global, folder: &Folder) -> Result<Vec<Change>, Trouble> {
    let mut args = args_of(alloc, 4, "t.par2", &["a"])?;
    args.count = 1;
    match plan_of(alloc, folder, &args) {
        Ok(changes) => Ok(copies_of(alloc, changes.as_slice())?),
        Err(_) => Err(Trouble::Refused),
    }
}

// Makes changes that write files.
fn write_all(folder: &mut Folder, changes: Vec<Change>) -> Result<(), Trouble> {
    for change in changes {
        if !matches!(&change, Change::Write(..)) {
            return Err(Trouble::Refused);
        }
        apply(folder, change)?;
    }
    Ok(())
}

// A folder with the file `a` of 8 bytes, which that set protects.
fn protected(alloc: Global) -> Result<Folder, Trouble> {
    let mut folder = folder_of(alloc, A)?;
    reserve(&mut folder, 8)?;
    let changes = changes_of(alloc, &folder)?;
    write_all(&mut folder, changes)?;
    Ok(folder)
}

/// What happened to `a` outside the program.
pub enum Damage {
    None,
    Bytes(&'static [u8]),
    /// The file gets the name `x`.
    Renamed,
}

fn name_of(string: &str) -> Result<Name, Trouble> {
    match Name::new(string) {
        Ok(name) => Ok(name),
        Err(_) => Err(Trouble::Refused),
    }
}

// The change that does this damage.
fn change_of(alloc: Global, damage: &Damage) -> Result<Option<Change>, Trouble> {
    Ok(match damage {
        Damage::None => None,
        Damage::Bytes(bytes) => Some(Change::Replace(name_of("a")?, Bytes::copy_of(alloc, bytes)?)),
        Damage::Renamed => Some(Change::Rename(name_of("a")?, name_of("x")?)),
    })
}

/// The same folder, after this damage.
pub fn damaged(alloc: Global, damage: &Damage) -> Result<Folder, Trouble> {
    let mut folder = protected(alloc)?;
    if let Some(change) = change_of(alloc, damage)? {
        apply(&mut folder, change)?;
    }
    Ok(folder)
}

// The state of a file, with its name if it is found elsewhere.
enum Said {
    Complete,
    Missing,
    Damaged,
    Misplaced(&'static str),
}

fn is_said(state: &State, wanted: &Said) -> bool {
    match (state, wanted) {
        (State::Complete, Said::Complete)
        | (State::Missing, Said::Missing)
        | (State::Damaged, Said::Damaged) => true,
        (State::Misplaced(name), Said::Misplaced(wanted)) => name.as_str() == *wanted,
        _ => false,
    }
}

// The damage and the extra files; then the expected report on `a`: its state, the slices that are found and lost, the
// rank, and the verdict.
type Row = (
    Damage,
    &'static [&'static str],
    Said,
    usize,
    usize,
    usize,
    Verdict,
);

#[rattlefmt::skip]
const ROWS: &[Row] = &[
    (Damage::None, &[], Said::Complete, 2, 0, 0, Verdict::Complete),
    (Damage::Renamed, &[], Said::Missing, 0, 2, 1, Verdict::NotRepairable),
    (Damage::Renamed, &["x"], Said::Misplaced("x"), 2, 0, 0, Verdict::Repairable),
    (Damage::Renamed, &["x", "x"], Said::Misplaced("x"), 2, 0, 0, Verdict::Repairable),
    (Damage::Bytes(b"abcdef"), &[], Said::Damaged, 1, 1, 1, Verdict::Repairable),
    // Shifted by one byte.
    (Damage::Bytes(b"xabcdefgh"), &[], Said::Damaged, 2, 0, 0, Verdict::Repairable),
    (Damage::Bytes(b"efgh"), &["a"], Said::Damaged, 1, 1, 1, Verdict::Repairable),
];

// Whether a report says this, and only of the file `a`.
fn says(report: &Report, row: &Row) -> bool {
    let [target] = report.targets.as_slice() else {
        return false;
    };
    target.name.as_str() == "a"
        && is_said(&target.state, &row.2)
        && target.found == row.3
        && target.total == 2
        && report.lost == row.4
        && report.rank == row.5
        && report.verdict() == row.6
}

// The report on the set, with these extra files.
fn report_of(
    alloc: Global,
    folder: &Folder,
    base: &str,
    extras: &[&str],
) -> Result<Result<Report, Fault>, AllocError> {
    let extras = words_of(alloc, extras)?;
    Ok(check(alloc, folder, base, &extras))
}

fn is_reported(alloc: Global, row: &Row) -> Result<bool, Trouble> {
    let folder = damaged(alloc, &row.0)?;
    let report = report_of(alloc, &folder, "t.par2", row.1)?;
    Ok(matches!(&report, Ok(report) if says(report, row)))
}

#[test]
fn reports(rt: HostRuntime) -> Result<(), Fail> {
    for row in ROWS {
        assert!(rt; is_reported(rt.alloc(), row)?);
    }
    Ok(())
}

// The base, the extra files and the fault.
const REFUSED: &[(&str, &[&str], Fault)] = &[
    ("u.par2", &["zz"], Fault::NoSuchFile(0)),
    ("../t.par2", &[], Fault::NoSuchFile(0)),
    ("t.par2", &["a", "zz", "yy"], Fault::NoSuchFile(2)),
    ("a", &[], Fault::NoPackets),
];

// Whether a report on the base, with the extra files, is refused with this fault.
fn is_refused(alloc: Global, base: &str, extras: &[&str], wanted: Fault) -> Result<bool, Trouble> {
    let folder = protected(alloc)?;
    let report = report_of(alloc, &folder, base, extras)?;
    Ok(matches!(&report, Err(fault) if *fault == wanted))
}

#[test]
fn absent_files(rt: HostRuntime) -> Result<(), Fail> {
    for (base, extras, wanted) in REFUSED {
        assert!(rt; is_refused(rt.alloc(), base, extras, *wanted)?, "{base}");
    }
    Ok(())
}
