//! The promises of a session: a repair gives a damaged file back, and as many undos as accepted actions give the folder
//! back.
use crate::calls;
use crate::fixtures::{A, Trouble, args_of, folder_of};
use crate::session::{Task, action_of, file_in, stands};
use par2_journal::{Action, Session};
use std::alloc::{AllocError, Global};
use std::test::Fail;

const INDEX: &str = "t.par2";

const VOLUME: &str = "t.vol00000+00001.par2";

// Returns the number of actions that were accepted and undone.
fn taken_back(session: &mut Session, actions: &[Action]) -> usize {
    let accepted = calls::play(session, actions);
    for _ in 0..accepted {
        if !calls::undo(session) {
            return 0;
        }
    }
    accepted
}

// A session on the file `a`, for which one recovery slice was created.
fn protected(alloc: Global) -> Result<Session, Trouble> {
    let mut session = Session::new(alloc, folder_of(alloc, A)?);
    let mut args = args_of(alloc, 4, INDEX, &["a"])?;
    args.count = 1;
    match calls::create(&mut session, &args) {
        Ok(_) => Ok(session),
        Err(_) => Err(Trouble::Refused),
    }
}

// A session on the files of another one, with the second slice of `a` damaged.
fn damaged(alloc: Global, session: &Session) -> Result<Session, Trouble> {
    let Some(index) = file_in(session, INDEX) else {
        return Err(Trouble::Refused);
    };
    let Some(volume) = file_in(session, VOLUME) else {
        return Err(Trouble::Refused);
    };
    let files: &[(&str, &[u8])] = &[("a", b"abcdXfgh"), (INDEX, index), (VOLUME, volume)];
    Ok(Session::new(alloc, folder_of(alloc, files)?))
}

// Whether a repair of the damaged file gives it back.
fn is_given_back(alloc: Global) -> Result<bool, Trouble> {
    let before = protected(alloc)?;
    let mut session = damaged(alloc, &before)?;
    Ok(calls::repair(&mut session, false).is_ok() && file_in(&session, "a") == Some(b"abcdefgh"))
}

#[test]
fn repair_gives_a_damaged_file_back(rt: HostRuntime) -> Result<(), Fail> {
    assert!(rt; is_given_back(rt.alloc())?);
    Ok(())
}

// The second one is refused because its index exists.
const CREATES: &[Task] = &[
    Task::Create("t.par2"),
    Task::Create("t.par2"),
    Task::Create("u.par2"),
];

fn actions_of(alloc: Global, tasks: &[Task]) -> Result<Vec<Action>, AllocError> {
    let mut actions = Vec::new(alloc);
    for task in tasks {
        actions.push(action_of(alloc, task)?)?;
    }
    Ok(actions)
}

// Whether the creates are undone: both indexes are gone, and can be written again.
fn are_taken_back(alloc: Global) -> Result<bool, Trouble> {
    let actions = actions_of(alloc, CREATES)?;
    let mut session = Session::new(alloc, folder_of(alloc, A)?);
    let is_count = taken_back(&mut session, &actions) == 2;
    Ok(is_count && stands(&session, &("a", 0, 2, Some(8))) && file_in(&session, "u.par2").is_none())
}

#[test]
fn creates_are_taken_back(rt: HostRuntime) -> Result<(), Fail> {
    assert!(rt; are_taken_back(rt.alloc())?);
    Ok(())
}
