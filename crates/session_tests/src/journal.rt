//! The journals of a session. Their bytes were made by another program, from the formats alone.
ghost use Rattle.std.specs.Prelude.{IfOk};
ghost use Rattle.par2_journal.specs.Sessions.{Fits, HasPrintsOf};

use crate::calls;
use crate::calls::{encode, is_one_change, journals_of, prepare};
use crate::fixtures::Trouble;
use crate::session::{Task, action_of};
use par2_journal::{Action, Journals, Prepared, Session};
use std::alloc::{AllocError, Global};

/// The length of a journal and its first bytes.
pub type Text = (usize, &'static [u8]);

pub fn is_bytes(bytes: &[u8], wanted: &Text) -> bool {
    bytes.len() == wanted.0 && bytes.starts_with(wanted.1)
}

/// The fingerprint of the folder with only the file `a`.
pub const FINGERPRINT: [u8; 16] =
    *b"\xd3\x68\x83\xb6\x33\x05\xc2\x0b\x65\xe4\x20\x6a\x90\x61\x28\xc1";

/// The version and that fingerprint.
pub const FRONT: &[u8] =
    b"P2UNDO2\n\xd3\x68\x83\xb6\x33\x05\xc2\x0b\x65\xe4\x20\x6a\x90\x61\x28\xc1";

/// The version and the fingerprint of the folder that has the index `t.par2`, too.
pub const FRONT_AFTER: &[u8] =
    b"P2UNDO2\n\x14\x34\xa4\x51\x54\x3d\x21\xe1\x7e\x2c\xec\x58\x38\x6a\xb5\xf7";

/// The journal of a new session on the folder with the file `a`.
pub const NEW_JOURNAL: &[u8] = b"P2UNDO2\n\
    \xd3\x68\x83\xb6\x33\x05\xc2\x0b\x65\xe4\x20\x6a\x90\x61\x28\xc1\
    \0\0\0\0\0\0\0\0\0\0\0\0\0\0\0\0\0\
    \x7b\xb9\x8c\xe5\xe8\xbd\xf9\x9b\x57\x22\xce\xe5\xcd\x5c\x96\xcd";

/// The journal after a create of the index `t.par2`, which an undo removes.
pub const CREATE_JOURNAL: &[u8] = b"P2UNDO2\n\
    \x14\x34\xa4\x51\x54\x3d\x21\xe1\x7e\x2c\xec\x58\x38\x6a\xb5\xf7\
    \x01\0\0\0\0\0\0\0\x01\0\0\0\0\0\0\0\x01\0\0\0\0\0\0\0\x04\x06t.par2\0\
    \x51\x62\xbe\x53\x26\xd1\x96\x20\x76\x41\xed\xb6\x7a\xf7\x9c\xdd";

/// The journal while that create is halfway. The way back removes the index.
pub const HALFWAY_JOURNAL: &[u8] = b"P2UNDO2\n\
    \xd3\x68\x83\xb6\x33\x05\xc2\x0b\x65\xe4\x20\x6a\x90\x61\x28\xc1\
    \0\0\0\0\0\0\0\0\0\0\0\0\0\0\0\0\x01\x01\0\0\0\0\0\0\0\
    \x14\x34\xa4\x51\x54\x3d\x21\xe1\x7e\x2c\xec\x58\x38\x6a\xb5\xf7\x04\x06t.par2\
    \x30\x59\x57\xd2\x7b\x05\x01\x6f\xb4\x88\xb9\x87\x54\x2a\x93\xcc";

/// The first bytes of the journal after the create was undone. A redo writes the 420 bytes of the index.
pub const UNDONE_JOURNAL: &[u8] = b"P2UNDO2\n\
    \xd3\x68\x83\xb6\x33\x05\xc2\x0b\x65\xe4\x20\x6a\x90\x61\x28\xc1\
    \0\0\0\0\0\0\0\0\x01\0\0\0\0\0\0\0\x01\0\0\0\0\0\0\0\x01\x06t.par2\xa4\x01\0\0\0\0\0\0PAR2\0PKT";

fn is_journal_of(session: &Session, bytes: &[u8]) -> Result<bool, AllocError> {
    Ok(encode(session)?.as_slice() == bytes)
}

// The journals of a prepared action of one change and one step. Preparing leaves the session's own journal as it was.
fn spelled(
    session: &mut Session,
    prepared: &mut Prepared,
    before: &[u8],
) -> Result<Journals, Trouble>
    requires fits { Fits prepared.old session.old }
    requires prints { HasPrintsOf session.old prepared.old }
    ensures { Fits prepared.new session.new }
{
    if !is_one_change(session, prepared) {
        return Err(Trouble::Refused);
    }
    let journals = journals_of(session, prepared)?;
    if is_journal_of(session, before)? {
        Ok(journals)
    } else {
        Err(Trouble::Refused)
    }
}

// Prepares an action and its journals, which leaves the session as it was, and commits it.
fn committed(session: &mut Session, action: &Action) -> Result<Journals, Trouble> {
    let before = encode(session)?;
    let Ok(mut prepared) = prepare(session, action) else {
        return Err(Trouble::Refused);
    };
    let journals = spelled(session, &mut prepared, &before)?;
    if calls::commit(session, prepared) == 1 {
        Ok(journals)
    } else {
        Err(Trouble::Refused)
    }
}

// Whether these are the journals of a task: the one while it is halfway, and the one after it.
fn are_spelled(journals: &Journals, halfway: &Text, after: &[u8]) -> bool {
    journals.after.as_slice() == after
        && matches!(&journals.halfway, Some(bytes) if is_bytes(bytes, halfway))
}

/// Whether a task is committed with these journals.
pub fn commits(
    alloc: Global,
    session: &mut Session,
    task: &Task,
    halfway: &Text,
) -> Result<bool, Trouble> {
    let action = action_of(alloc, task)?;
    let journals = committed(session, &action)?;
    let after = encode(session)?;
    Ok(are_spelled(&journals, halfway, &after))
}
