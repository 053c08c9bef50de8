//! Worked examples of a session and its journals, and every refusal of a session. For the prover: the helpers have no
//! clauses, so that the proof of a test carries none from one call to the next.
use crate::calls;
use crate::calls::{
    bytes_in, depths_of, encode, fingerprint, folder_in, new_session, prepare, vacant_in,
};
use crate::fixtures::{A, Trouble, args_of, folder_of};
use crate::journal::{
    CREATE_JOURNAL, FINGERPRINT, FRONT, FRONT_AFTER, HALFWAY_JOURNAL, NEW_JOURNAL, Text,
    UNDONE_JOURNAL, commits, is_bytes,
};
use crate::opening::{is_taken_back, reopened};
use crate::reports::{Damage, damaged};
use par2_folder::Name;
use par2_journal::{Action, Fault, Session, SessionFault, Step, Steps};
use par2_output::PrintedStep;
use std::alloc::{AllocError, Global};
use std::test::Fail;

// A session on a folder with the file `a`.
fn session_of(alloc: Global) -> Result<Session, Trouble> {
    Ok(new_session(alloc, folder_of(alloc, A)?))
}

/// The bytes of a file, if there is one.
pub fn file_in<'a>(session: &'a Session, string: &str) -> Option<&'a [u8]> {
    match Name::new(string) {
        Ok(name) => bytes_in(folder_in(session), &name),
        Err(_) => None,
    }
}

/// A file, the depths of undo and redo, and the file's length, if it exists.
pub type Standing = (&'static str, usize, usize, Option<usize>);

/// Whether the session is in this state.
pub fn stands(session: &Session, wanted: &Standing) -> bool {
    let (undos, redos) = depths_of(session);
    let length = file_in(session, wanted.0).map(|bytes| bytes.len());
    undos == wanted.1 && redos == wanted.2 && length == wanted.3
}

/// An action: a create of this index over the file `a`, or a repair or purge of `t.par2`.
pub enum Task {
    Create(&'static str),
    Repair { purge: bool },
    Purge,
    Undo,
    Redo,
}

fn base(alloc: Global) -> Result<String, AllocError> {
    String::from_str(alloc, "t.par2")
}

fn repair_of(alloc: Global, purge: bool) -> Result<Action, AllocError> {
    Ok(Action::Repair {
        base: base(alloc)?,
        extras: Vec::new(alloc),
        purge,
    })
}

pub fn action_of(alloc: Global, task: &Task) -> Result<Action, AllocError> {
    match task {
        Task::Create(base) => Ok(Action::Create(args_of(alloc, 4, base, &["a"])?)),
        Task::Repair { purge } => repair_of(alloc, *purge),
        Task::Purge => Ok(Action::Purge { base: base(alloc)? }),
        Task::Undo => Ok(Action::Undo),
        Task::Redo => Ok(Action::Redo),
    }
}

fn actions_of(alloc: Global, tasks: &[Task]) -> Result<Vec<Action>, AllocError> {
    let mut actions = Vec::new(alloc);
    for task in tasks {
        actions.push(action_of(alloc, task)?)?;
    }
    Ok(actions)
}

// Returns the number of tasks that were done.
fn played(alloc: Global, session: &mut Session, tasks: &[Task]) -> Result<usize, Trouble> {
    let actions = actions_of(alloc, tasks)?;
    Ok(calls::play(session, &actions))
}

// The steps of a command, done by the session's own call for it.
fn steps_of(alloc: Global, session: &mut Session, task: &Task) -> Result<Steps, Trouble> {
    let steps = match task {
        Task::Create(base) => {
            let args = args_of(alloc, 4, base, &["a"])?;
            calls::create(session, &args)
        }
        Task::Repair { purge } => calls::repair(session, *purge),
        Task::Purge => calls::purge(session),
        Task::Undo | Task::Redo => return Err(Trouble::Refused),
    };
    steps.map_err(|_| Trouble::Refused)
}

fn reported(step: &Step) -> PrintedStep<'_> {
    match step {
        Step::Write(name) => PrintedStep::Write(name.as_str()),
        Step::Replace(name) => PrintedStep::Replace(name.as_str()),
        Step::Rename(from, to) => PrintedStep::Rename(from.as_str(), to.as_str()),
        Step::Remove(name) => PrintedStep::Remove(name.as_str()),
    }
}

// Whether a command is done with these steps.
fn does(
    alloc: Global,
    session: &mut Session,
    task: &Task,
    wanted: &[PrintedStep<'_>],
) -> Result<bool, Trouble> {
    let steps = steps_of(alloc, session, task)?;
    Ok(
        steps
            .as_slice()
            .iter()
            .map(reported)
            .eq(wanted.iter().copied()),
    )
}

// Whether a command is refused with this fault.
fn refuses(
    alloc: Global,
    session: &mut Session,
    task: &Task,
    wanted: SessionFault,
) -> Result<bool, Trouble> {
    let action = action_of(alloc, task)?;
    let prepared = prepare(session, &action);
    Ok(matches!(&prepared, Err(fault) if *fault == wanted))
}

fn has_fingerprint(session: &Session, wanted: &[u8; 16]) -> Result<bool, Trouble> {
    Ok(fingerprint(folder_in(session))? == *wanted)
}

fn has_journal(session: &Session, wanted: &Text) -> Result<bool, Trouble> {
    Ok(is_bytes(&encode(session)?, wanted))
}

/// What is done with a session, and the expected result.
pub enum Row {
    /// A command, and the steps that it returns.
    Does(Task, &'static [PrintedStep<'static>]),
    Refused(Task, SessionFault),
    /// The number of these tasks that are done.
    Play(&'static [Task], usize),
    /// A task that is prepared and committed, and its halfway journal.
    Commit(Task, Text),
    /// Whether there is something to undo.
    Undo(bool),
    Redo(bool),
    Stands(Standing),
    Fingerprint([u8; 16]),
    Journal(Text),
    /// A folder with only the file `a` is opened with the session's journal; whether a redo is next.
    Reopen(bool),
    /// The session is a new one on the folder of a set, after this damage.
    Damaged(Damage),
    /// At least this many files can be written without allocating.
    Vacant(usize),
    /// The present folder is opened with the first journal. When that command is taken back, the journal is the second.
    TakenBack(&'static [u8], &'static [u8]),
}

fn is_met(alloc: Global, session: &mut Session, row: &Row) -> Result<bool, Trouble> {
    match row {
        Row::Does(task, wanted) => does(alloc, session, task, wanted),
        Row::Refused(task, wanted) => refuses(alloc, session, task, *wanted),
        Row::Play(tasks, wanted) => Ok(played(alloc, session, tasks)? == *wanted),
        Row::Commit(task, halfway) => commits(alloc, session, task, halfway),
        Row::Undo(wanted) => Ok(calls::undo(session) == *wanted),
        Row::Redo(wanted) => Ok(calls::redo(session) == *wanted),
        Row::Stands(wanted) => Ok(stands(session, wanted)),
        Row::Fingerprint(wanted) => has_fingerprint(session, wanted),
        Row::Journal(wanted) => has_journal(session, wanted),
        Row::Reopen(is_redo_next) => {
            *session = reopened(alloc, session, *is_redo_next)?;
            Ok(true)
        }
        Row::Damaged(damage) => {
            *session = new_session(alloc, damaged(alloc, damage)?);
            Ok(true)
        }
        Row::Vacant(least) => Ok(vacant_in(session) >= *least),
        Row::TakenBack(string, settled) => is_taken_back(alloc, session, string, settled),
    }
}

// Whether these rows hold, in order, of a session on a folder with the file `a`.
fn are_met(alloc: Global, rows: &[Row]) -> Result<bool, Trouble> {
    let mut session = session_of(alloc)?;
    for row in rows {
        if !is_met(alloc, &mut session, row)? {
            return Ok(false);
        }
    }
    Ok(true)
}

const CREATE: &[Task] = &[Task::Create("t.par2")];

// The purpose of an example, and its rows.
type Example = (&'static str, &'static [Row]);

const EXAMPLES: &[Example] = &[
    (
        "an undo of a create",
        &[
            Row::Does(Task::Create("t.par2"), &[PrintedStep::Write("t.par2")]),
            Row::Stands(("t.par2", 1, 0, Some(420))),
            Row::Undo(true),
            Row::Stands(("t.par2", 0, 1, None)),
            Row::Fingerprint(FINGERPRINT),
            Row::Journal((501, UNDONE_JOURNAL)),
        ],
    ),
    (
        "a redo of a create",
        &[
            Row::Play(CREATE, 1),
            Row::Undo(true),
            Row::Redo(true),
            Row::Stands(("t.par2", 1, 0, Some(420))),
        ],
    ),
    (
        "a create after an undo",
        &[
            Row::Play(CREATE, 1),
            Row::Undo(true),
            Row::Play(&[Task::Create("u.par2")], 1),
            Row::Stands(("t.par2", 1, 0, None)),
            Row::Stands(("u.par2", 1, 0, Some(420))),
        ],
    ),
    (
        "a new session",
        &[
            Row::Undo(false),
            Row::Redo(false),
            Row::Journal((57, NEW_JOURNAL)),
        ],
    ),
    (
        "a second create of one index",
        &[
            Row::Commit(Task::Create("t.par2"), (89, HALFWAY_JOURNAL)),
            Row::Stands(("t.par2", 1, 0, Some(420))),
            Row::Refused(Task::Create("t.par2"), SessionFault::Plan(Fault::Exists)),
        ],
    ),
    (
        "refusals of the second create and the second undo",
        &[
            Row::Play(
                &[
                    Task::Create("t.par2"),
                    Task::Create("t.par2"),
                    Task::Undo,
                    Task::Undo,
                    Task::Redo,
                ],
                3,
            ),
            Row::Stands(("t.par2", 1, 0, Some(420))),
        ],
    ),
    (
        "journals of a create, its undo and its redo",
        &[
            Row::Commit(Task::Create("t.par2"), (89, HALFWAY_JOURNAL)),
            Row::Journal((73, CREATE_JOURNAL)),
            Row::Commit(Task::Undo, (533, FRONT_AFTER)),
            Row::Journal((501, UNDONE_JOURNAL)),
            Row::Commit(Task::Redo, (533, FRONT)),
            Row::Journal((73, CREATE_JOURNAL)),
        ],
    ),
    (
        "a folder that is opened with its journal",
        &[
            Row::Play(CREATE, 1),
            Row::Undo(true),
            Row::Reopen(false),
            Row::Stands(("t.par2", 0, 1, None)),
            Row::Redo(true),
            Row::Stands(("t.par2", 1, 0, Some(420))),
        ],
    ),
    (
        "a folder that is opened before a redo",
        &[
            Row::Play(CREATE, 1),
            Row::Undo(true),
            Row::Reopen(true),
            Row::Commit(Task::Redo, (533, FRONT)),
        ],
    ),
    (
        "a folder that is opened after the last change",
        &[
            Row::Commit(Task::Create("t.par2"), (89, HALFWAY_JOURNAL)),
            Row::TakenBack(HALFWAY_JOURNAL, NEW_JOURNAL),
        ],
    ),
    (
        "a repair of a file that was cut, and its undo",
        &[
            Row::Damaged(Damage::Bytes(b"abcdef")),
            Row::Does(
                Task::Repair { purge: false },
                &[PrintedStep::Rename("a", "a.1"), PrintedStep::Write("a")],
            ),
            Row::Stands(("a", 1, 0, Some(8))),
            Row::Stands(("a.1", 1, 0, Some(6))),
            Row::Undo(true),
            Row::Stands(("a", 0, 1, Some(6))),
            Row::Stands(("a.1", 0, 1, None)),
            Row::Undo(false),
        ],
    ),
    // The undo writes the volume, the index and what was put aside, before it removes anything.
    (
        "a repair that purges, with room for its undo",
        &[
            Row::Damaged(Damage::Bytes(b"abcdef")),
            Row::Does(
                Task::Repair { purge: true },
                &[
                    PrintedStep::Rename("a", "a.1"),
                    PrintedStep::Write("a"),
                    PrintedStep::Remove("a.1"),
                    PrintedStep::Remove("t.par2"),
                    PrintedStep::Remove("t.vol00000+00001.par2"),
                ],
            ),
            Row::Vacant(3),
            Row::Fingerprint(FINGERPRINT),
            Row::Undo(true),
            Row::Stands(("a", 0, 1, Some(6))),
            Row::Stands(("t.vol00000+00001.par2", 0, 1, Some(492))),
        ],
    ),
    (
        "a purge of a complete set",
        &[
            Row::Damaged(Damage::None),
            Row::Does(
                Task::Purge,
                &[
                    PrintedStep::Remove("t.par2"),
                    PrintedStep::Remove("t.vol00000+00001.par2"),
                ],
            ),
            Row::Fingerprint(FINGERPRINT),
            Row::Undo(true),
            Row::Stands(("t.par2", 0, 1, Some(420))),
        ],
    ),
    (
        "three commands and four undos, the last of which is refused",
        &[
            Row::Play(
                &[
                    Task::Create("t.par2"),
                    Task::Repair { purge: false },
                    Task::Purge,
                    Task::Undo,
                    Task::Undo,
                    Task::Undo,
                    Task::Undo,
                ],
                6,
            ),
            Row::Fingerprint(FINGERPRINT),
            Row::Stands(("t.par2", 0, 3, None)),
            Row::Undo(false),
        ],
    ),
    (
        "a redo after a refused create",
        &[
            Row::Play(CREATE, 1),
            Row::Undo(true),
            Row::Refused(Task::Create("t"), SessionFault::Plan(Fault::BadBase)),
            Row::Play(&[Task::Create("t")], 0),
            Row::Stands(("t.par2", 0, 1, None)),
            Row::Redo(true),
            Row::Stands(("t.par2", 1, 0, Some(420))),
            Row::Redo(false),
        ],
    ),
    (
        "nothing to undo where a repair can't be done",
        &[
            Row::Damaged(Damage::Renamed),
            Row::Refused(
                Task::Repair { purge: false },
                SessionFault::Plan(Fault::NotRepairable {
                    missing: 2,
                    rank: 1,
                }),
            ),
            Row::Undo(false),
            Row::Stands(("x", 0, 0, Some(8))),
        ],
    ),
];

#[test]
fn worked_examples(rt: HostRuntime) -> Result<(), Fail> {
    for (name, rows) in EXAMPLES {
        assert!(rt; are_met(rt.alloc(), rows)?, "{name}");
    }
    Ok(())
}
