//! Sessions on the folder of a set whose file `a` was cut, in which another set of that file was created afterwards.

use crate::inputs::{args_of, bytes_of, damaged};
use crate::scene::{Refusal, Scene};
use crate::session_calls as calls;
use anyhow::{Error, Result};
use par2_journal::{Action, CreateArgs, Session};
use par2_slices::crc32;
use std::alloc::{AllocError, Global};

/// The inputs of the calls, and their results.
#[derive(Drop)]
pub struct Sessions {
    session: Session,
    args: CreateArgs,
    repair: Action,
    creates: Vec<Action>,
    bytes: Vec<u8>,
    number: usize,
}

// A repair of `t.par2`.
fn repair_of(alloc: Global) -> Result<Action, AllocError> {
    Ok(Action::Repair {
        base: bytes_of(alloc, "t.par2")?,
        extras: Vec::new(alloc),
        purge: false,
    })
}

fn create_of(alloc: Global) -> Result<Action, AllocError> {
    Ok(Action::Create(args_of(alloc, "v.par2")?))
}

fn session_of(alloc: Global) -> Result<Session> {
    let mut session = Session::new(alloc, damaged(alloc)?);
    match calls::create(&mut session, &args_of(alloc, "u.par2")?) {
        Ok(_) => Ok(session),
        Err(_) => Err(Error::msg("a create is refused")),
    }
}

impl Sessions {
    /// Before the first call.
    pub fn new(alloc: Global) -> Result<Sessions> {
        Ok(Sessions {
            session: session_of(alloc)?,
            args: args_of(alloc, "v.par2")?,
            repair: repair_of(alloc)?,
            creates: vec![in alloc; create_of(alloc)?, create_of(alloc)?]?,
            bytes: Vec::new(alloc),
            number: 0,
        })
    }

    fn act(&mut self, name: &str) -> Result<(), Refusal> {
        let steps = match name {
            "Session::create" => calls::create(&mut self.session, &self.args)?,
            "Session::purge" => calls::purge(&mut self.session)?,
            _ => calls::repair(&mut self.session, name == "Session::repair with a purge")?,
        };
        self.number = steps.len();
        Ok(())
    }

    fn verify(&mut self) -> Result<(), Refusal> {
        let report = calls::verify(&self.session)?;
        self.number = report.lost;
        Ok(())
    }

    fn prepare(&mut self) -> Result<(), Refusal> {
        let prepared = calls::prepare(&mut self.session, &self.repair)?;
        self.number = prepared.steps().len();
        Ok(())
    }

    // Prepares a repair and its journals, and commits it.
    fn commit(&mut self) -> Result<(), Refusal> {
        let mut prepared = calls::prepare(&mut self.session, &self.repair)?;
        let journals = calls::journals_of(&mut self.session, &mut prepared)?;
        self.number = calls::commit(&mut self.session, prepared);
        self.bytes = journals.after;
        Ok(())
    }

    // Plays one create, or two of the same index: if one of the two runs out of memory, the other one is done.
    fn play(&mut self, count: usize) -> Result<(), Refusal> {
        let actions = self.creates.get(..count).unwrap_or(&[]);
        self.number = calls::play(&mut self.session, actions);
        if self.number == 0 {
            return Err(Refusal::Memory);
        }
        Ok(())
    }
}

impl Scene for Sessions {
    fn call(&mut self, _alloc: Global, name: &str) -> Result<(), Refusal> {
        match name {
            "Session::verify" => self.verify(),
            "Session::prepare" => self.prepare(),
            "Session::journals" => self.commit(),
            "Session::play" => self.play(1),
            "Session::play of two" => self.play(2),
            "Session::encode" => {
                self.bytes = calls::encode(&self.session)?;
                Ok(())
            }
            _ => self.act(name),
        }
    }

    fn show(&mut self, rt: &HostRuntime) -> Result<()> {
        let (undos, redos) = (self.session.undo_depth(), self.session.redo_depth());
        let journal = calls::encode(&self.session)?;
        println!(rt; "  {undos} undos, {redos} redos, {}", self.number)?;
        println!(rt;
            "  a journal of {} bytes, {:08x}",
            journal.len(),
            crc32(&journal)
        )?;
        println!(rt; "  {} bytes, {:08x}", self.bytes.len(), crc32(&self.bytes))?;
        Ok(())
    }
}
