//! The actions of a session. `prepare` plans a command and reserves its memory, or finds the entry of an undo or redo.
//! It makes a `Prepared`, from which the journals are spelled, and which `Session::commit` consumes. `create`, `repair`
//! and `purge` prepare and commit at once, and `play` does a list of actions.

ghost use Rattle.std.specs.Prelude.{◌≡◌, ◌≤◌, ◌+◌, IfOk, length};
ghost use Rattle.par2_spec.specs.Prelude.{Spells};
ghost use Rattle.par2_journal_format.specs.Journals.{journal_from};
ghost use Rattle.par2_journal.specs.Sessions.{CompletesHalfway};

use crate::{CreateArgs, Next, Session};
use par2_create::plan_create;
use par2_files::{Change, Checkpoints, Name};
use par2_journal_format::{HalfwayPartView, JournalView, encode, finish_both};
use par2_laws::answers::{
    repair_leaves_each_file, repair_restores_the_files, repair_restores_the_inputs,
};
use par2_repair::{Changes, Fault, draft_repair, plan_purge};
use par2_spec::{Action, Result};
use par2_verify::{Report, check};
use std::alloc::{AllocError, Global};
use std::marker::Model;
use thiserror::Error;

impl Session {
    ghost use Rattle.std.specs.Prelude.{◌≡◌, [], ◌∷◌, map, string_bytes, IfOk, IfErr, IfSome, IsErrOf, IsTrue, IsFalse, drop, OnOk};
    ghost use Rattle.std.specs.List.{AllByRecursion};
    ghost use Rattle.par2_spec.specs.Changes.{are_applicable};
    ghost use Rattle.par2_spec.specs.Commands.{Undo, Redo, Create, Purge};
    ghost use Rattle.par2_spec.specs.History.{Execution, folders, IsChanging, MayBeRefused};
    ghost use Rattle.par2_spec.specs.Sessions.{OnlyGrew, CanWalk};
    ghost use Rattle.par2_spec.specs.Output.{step_of};
    ghost use Rattle.par2_spec.specs.Views.{action_of, create_args_of};
    ghost use Rattle.par2_files.specs.Checkpoints.{AreCheckpointsOf};
    ghost use Rattle.par2_spec.specs.RepairLaws.{LeavesEachFile, RestoresFiles, RestoresInputs, folder_left};
    ghost use Rattle.par2_journal.specs.Commands.{IsAfter, LeadsFrom, MakesReady, MayRefuse, Performs, Prepares, UndosGiveBack, WritesFiles, kept_history, nothing_for, repair_of};
    ghost use Rattle.par2_spec.specs.Planned.{FailsIn, RefusesEarly, verify_of};
    ghost use Rattle.par2_spec.specs.Reports.{report_in};
    ghost use Rattle.par2_verify.specs.Findings.{words};
    ghost use Rattle.par2_verify.specs.ReportViews.{report_view};
    ghost use Rattle.par2_journal.specs.Sessions.{CanBe, Fits, HasPrintsOf, IsReady, action_for, entries_for};
    ghost use Rattle.par2_journal.specs.declared.commands.Kind.TheVariants.{Changing};

    // The steps of a planned command, which a run prints, and room in the session for its files and its entry. Err if
    // memory runs out. `CanBe`: the changes can be applied, and there is room for the entry.
    fn make_way(&mut self, changes: &Changes) -> Result<Steps>
        requires { IsTrue (are_applicable self.old.folder.files changes.now) }
        ensures kept { OnlyGrew self.old self.new }
        ensures can { OnOk result (CanBe (Changing changes.now) self.new) }
        ensures steps { IfOk result (λ steps. steps ≡ map step_of changes.now) }
    {
        let steps = Steps::of(self.allocator(), changes.as_slice())?;
        self.make_room(changes.len())?;
        Ok(steps)
    }

    // The last step of preparing a create or a purge: the planned changes with their steps and fingerprints, and room
    // for them. The fingerprints are computed from the checkpoints `from`, if the plan has any.
    fn prepare_changes(
        &mut self,
        changes: Changes,
        from: Option<&Checkpoints>,
    ) -> Result<Prepared, Fault>
        // The changes were planned on this folder, and the checkpoints are of it.
        requires applicable { IsTrue (are_applicable self.old.folder.files changes) }
        requires checkpoints { IfSome from (λ f. AreCheckpointsOf self.old.folder.files f.now) }
        // The session only gets more room.
        ensures kept { OnlyGrew self.old self.new }
        // A prepared command commits these changes.
        ensures kind { IfOk result (λ prepared. prepared.kind ≡ Changing changes) }
        ensures fits { IfOk result (λ prepared. Fits prepared self.new) }
        ensures prints { IfOk result (HasPrintsOf self.new) }
        // It is refused only if memory runs out.
        ensures refused { IfErr result (λ fault. fault ≡ Fault.Memory) }
    {
        let steps = self.make_way(&changes)?;
        let fingerprints = self.digests(changes.as_slice(), from, &[])?.along;
        Ok(Prepared {
            kind: Kind::Changing(changes),
            steps,
            fingerprints,
        })
    }

    // Plans a create on the folder in memory. `MakesReady`: it is ready to be committed, or refused, and the session
    // only gets more room. Its fingerprints are computed from the checkpoint that the plan computed side by side with
    // the inputs' MD5s.
    pub(crate) fn prepare_create(&mut self, args: &CreateArgs) -> Result<Prepared, Fault>
        ensures { MakesReady (Create (create_args_of args.now)) self.old self.new result }
    {
        let alloc = self.allocator();
        let plan = plan_create(alloc, self.folder(), args, self.checkpoints())?;
        self.prepare_changes(plan.changes, Some(&plan.checkpoints))
    }

    // Plans a repair on the folder in memory: drafts it, and refuses it (RepairFailed) if a written file has a wrong
    // MD5. These MD5s are computed side by side with the fingerprints in the repair's journals.
    pub(crate) fn prepare_repair(
        &mut self,
        base: &str,
        extras: &[String],
        purge: bool,
    ) -> Result<Prepared, Fault>
        ensures ready { MakesReady (repair_of base.now extras.now purge) self.old self.new result }
        ensures written { WritesFiles base.now extras.now purge self.old result }
    {
        let alloc = self.allocator();
        let draft = draft_repair(alloc, self.folder(), base, extras, purge)?;
        let steps = self.make_way(&draft.changes)?;
        let found = self.digests(draft.changes.as_slice(), None, &draft.buffers(alloc)?)?;
        let kind = Kind::Changing(draft.tested(&found.beside)?);
        Ok(Prepared {
            kind,
            steps,
            fingerprints: found.along,
        })
    }

    // Plans a purge on the folder in memory: the set's PAR2 files are to be removed.
    pub(crate) fn prepare_purge(&mut self, base: &str) -> Result<Prepared, Fault>
        ensures { MakesReady (Purge base.now) self.old self.new result }
    {
        let changes = plan_purge(self.allocator(), self.folder(), base)?;
        self.prepare_changes(changes, None)
    }

    // Makes an undo of the newest command, or a redo of the command undone last, ready to be committed. It is refused if
    // there is nothing to undo or redo, or if memory runs out.
    fn prepare_move(&mut self, next: Next) -> Result<Prepared, SessionFault>
        ensures unchanged { self.new ≡ self.old }
        ensures ready { IfOk result (λ x. IsReady (action_for next) self.old x self.old) }
        ensures refused { IfErr result (MayRefuse (action_for next) self.old) }
        ensures at_the_end { entries_for next self.old ≡ [] → IsErrOf result (nothing_for next) }
    {
        let Some(entry) = self.next_entry(next) else {
            return Err(SessionFault::from(next));
        };
        let steps = Steps::of(self.allocator(), entry.as_slice())?;
        let fingerprints = self.fingerprints_next(next)?;
        Ok(Prepared {
            kind: Kind::Moving(next),
            steps,
            fingerprints,
        })
    }

    /// Plans an action and reserves the memory that committing it needs. Names, bytes and history stay as they are.
    pub fn prepare(&mut self, action: &Action) -> Result<Prepared, SessionFault>
        ensures { Prepares (action_of action.now) self.old self.new result }
    {
        match action {
            Action::Create(args) => self.prepare_create(args).map_err(SessionFault::Plan),
            Action::Repair {
                base,
                extras,
                purge,
            } => {
                let prepared = self.prepare_repair(base, extras, *purge);
                prepared.map_err(SessionFault::Plan)
            }
            Action::Purge { base } => self.prepare_purge(base).map_err(SessionFault::Plan),
            Action::Undo => self.prepare_move(Next::Undo),
            Action::Redo => self.prepare_move(Next::Redo),
        }
    }

    /// The report of a verify of this base, which also searches `extras`.
    pub fn verify(&self, base: &str, extras: &[String]) -> Result<Report, Fault>
        ensures refused { let answer = report_in self.now.folder.files base.now (words extras.now) in
            FailsIn answer result }
        ensures early { RefusesEarly self.now.folder.files (verify_of base.now extras.now) result }
        ensures report { let answer = report_in self.now.folder.files base.now (words extras.now) in
            IfOk result (λ report. answer ≡ Ok (report_view report)) }
    {
        check(self.allocator(), self.folder(), base, extras)
    }

    /// Creates on the folder in memory at once, and returns the steps. After a refusal names, bytes and history are as
    /// before. The program prepares and commits instead, because it writes to its store in between.
    pub fn create(&mut self, args: &CreateArgs) -> Result<Steps, Fault>
        ensures { Performs (Create (create_args_of args.now)) self.old self.new result }
    {
        let prepared = self.prepare_create(args)?;
        Ok(self.commit(prepared))
    }

    // Prepares a repair and commits it: `repair` without the clauses about what a repair restores.
    fn repair_as_requested(
        &mut self,
        base: &str,
        extras: &[String],
        purge: bool,
    ) -> Result<Steps, Fault>
        ensures repairs { Performs (repair_of base.now extras.now purge) self.old self.new result }
        ensures written { WritesFiles base.now extras.now purge self.old result }
    {
        let prepared = self.prepare_repair(base, extras, purge)?;
        Ok(self.commit(prepared))
    }

    /// Repairs on the folder in memory at once, searching `extras` too, and returns the steps; the program prepares and
    /// commits instead. With `purge` the same command purges. Each file that it writes from slices has the length and
    /// the MD5 that the set describes. If the set was made from certain files, and no checksum collides, they are in
    /// the folder afterwards. After a refusal names, bytes and history are as before.
    pub fn repair(&mut self, base: &str, extras: &[String], purge: bool) -> Result<Steps, Fault>
        ensures repairs { Performs (repair_of base.now extras.now purge) self.old self.new result }
        ensures written { WritesFiles base.now extras.now purge self.old result }
        // If the set was made from certain files, and no checksum collides, they are in the
        // folder afterwards. RepairFailed isn't returned, and NotRepairable only if other
        // slices, too, agree with all that is found.
        ensures restores { RestoresFiles self.old.folder.files base.now
            (map string_bytes extras.now) (folder_left (λ _. self.new.folder.files) result) }
        // The same holds for a create's inputs that were damaged after it.
        ensures inputs { RestoresInputs self.old.folder.files base.now (map string_bytes extras.now)
            (folder_left (λ _. self.new.folder.files) result) }
        // Without a purge the folder is known file by file, whatever the set: targets, asides, and
        // all others as they were. The older folders stay in the history.
        ensures holds { IsFalse purge → let words = map string_bytes extras.now in OnOk result
            (LeavesEachFile self.old.folder.files base.now words self.new.folder.files) }
        ensures undoable { OnOk result (folders (kept_history self.new)
            ≡ self.new.folder.files ∷ folders (kept_history self.old)) }
    {
        repair_restores_the_files();
        repair_restores_the_inputs();
        repair_leaves_each_file();
        // For the prover: a session can walk its history both ways.
        let _folder = self.folder();
        self.repair_as_requested(base, extras, purge)
    }

    /// Removes the set's PAR2 files on the folder in memory at once, and returns the steps. After a refusal names,
    /// bytes and history are as before. The program prepares and commits instead.
    pub fn purge(&mut self, base: &str) -> Result<Steps, Fault>
        ensures { Performs (Purge base.now) self.old self.new result }
    {
        let prepared = self.prepare_purge(base)?;
        Ok(self.commit(prepared))
    }

    // One action of `play`: prepares and commits it, and returns whether it was accepted. Undo and redo are done
    // without preparing and allocate nothing. An undo or redo is refused only if there is none (`may`).
    fn act(&mut self, action: &Action) -> bool
        ensures done { IsTrue result → IsAfter (action_of action.now) self.old self.new }
        ensures leads { IsTrue result → LeadsFrom (action_of action.now) self.old }
        ensures unchanged { IsFalse result → OnlyGrew self.old self.new }
        ensures may { IsFalse result → MayBeRefused (kept_history self.old) (action_of action.now) }
        ensures walks { CanWalk self.old }
    {
        let _folder = self.folder();
        match action {
            Action::Undo => self.undo().is_ok(),
            Action::Redo => self.redo().is_ok(),
            _ => match self.prepare(action) {
                Ok(prepared) => {
                    self.commit(prepared);
                    true
                }
                Err(_) => false,
            },
        }
    }

    /// Performs the actions in order on the folder in memory, goes on after a refused one, and returns how many were
    /// accepted. The program doesn't call it. If none is an undo or redo, as many undos lead back.
    pub fn play(&mut self, actions: &[Action]) -> usize
        ensures run { Execution (kept_history self.old) (map action_of actions.now) result
            (kept_history self.new) }
        // If all actions are creates, repairs and purges, the older folders are those from before,
        // and as many undos as were accepted give the folder back, names and bytes.
        ensures undos { AllByRecursion IsChanging (map action_of actions.now)
            → drop result (folders (kept_history self.new)) ≡ folders (kept_history self.old) }
        ensures back { AllByRecursion IsChanging (map action_of actions.now)
            → UndosGiveBack result self.old self.new }
    {
        let mut accepted = 0;
        for action in actions {
            if self.act(action) {
                accepted += 1;
            }
        }
        // For the prover: a session can walk its history both ways.
        let _folder = self.folder();
        accepted
    }
}

/// A change without its bytes.
#[derive(Drop)]
pub enum Step {
    Write(Name),
    Replace(Name),
    Rename(Name, Name),
    Remove(Name),
}

/// Steps, in the order in which their changes are applied. Contracts see the vector as a list.
#[derive(Drop)]
pub struct Steps {
    items: Vec<Step>,
}

impl Model for Steps {
    ghost use Rattle.std.specs.Prelude.{List, map};
    ghost use Rattle.std.specs.Coded.{coded_list};
    ghost use Rattle.par2_spec.specs.Output as defined;
    ghost use Rattle.par2_spec.specs.Codes.{step_code};
    ghost use Rattle.par2_journal.specs.StepViews.{step_view};

    ghost Value = { List defined.Step };

    ghost coded = { coded_list step_code };

    ghost view = { λ a. map step_view a.items.items };
}

impl Step {
    ghost use Rattle.std.specs.Prelude.{◌≡◌};
    ghost use Rattle.par2_spec.specs.Output.{step_of};
    ghost use Rattle.par2_files.specs.Folders.{change_of};
    ghost use Rattle.par2_journal.specs.StepViews.{step_view};

    // The step that a run prints for a change: its kind, and copies of its names.
    fn of(change: &Change) -> Step
        ensures { step_view result ≡ step_of (change_of change.now) }
    {
        match change {
            Change::Write(name, _) => Step::Write(name.copied()),
            Change::Replace(name, _) => Step::Replace(name.copied()),
            Change::Rename(from, to) => Step::Rename(from.copied(), to.copied()),
            Change::Remove(name) => Step::Remove(name.copied()),
        }
    }
}

impl Steps {
    ghost use Rattle.std.specs.Prelude.{◌≡◌, map, length, IfOk};
    ghost use Rattle.par2_spec.specs.Output.{step_of};
    ghost use Rattle.par2_files.specs.Folders.{change_of};
    ghost use Rattle.par2_journal.specs.StepViews.{step_view};

    /// The steps of these changes, in order, as a run prints them. It fails if memory runs out.
    pub fn of(alloc: Global, changes: &[Change]) -> Result<Steps>
        ensures { IfOk result (λ steps. steps ≡ map step_of (map change_of changes.now)) }
    {
        let items = changes.iter().map(Step::of).collect(alloc)?;
        Ok(Steps { items })
    }

    /// The steps in order.
    pub fn as_slice(&self) -> &[Step]
        ensures { map step_view result.now ≡ self.now }
    {
        &self.items
    }

    /// How many steps there are.
    pub fn len(&self) -> usize
        ensures { result ≡ length self.now }
    {
        self.items.len()
    }
}

/// Why a session refuses an action.
#[derive(Debug, Error, Clone, Copy, PartialEq, Eq, Drop)]
pub enum SessionFault {
    #[error(transparent)]
    Plan(Fault),
    #[error("nothing to undo")]
    NothingToUndo,
    #[error("nothing to redo")]
    NothingToRedo,
}

impl From<AllocError> for SessionFault {
    ghost use Rattle.std.specs.Prelude.{◌≡◌};
    ghost use Rattle.par2_spec.specs.declared.Fault.TheVariants.{Memory};
    ghost use Rattle.par2_journal.specs.declared.commands.SessionFault.TheVariants.{Plan};

    ghost from_gives = { λ _ refused. refused ≡ Plan Memory };

    // For `?` after an allocation.
    fn from(_: AllocError) -> Self {
        SessionFault::Plan(Fault::Memory)
    }
}

impl From<Next> for SessionFault {
    ghost use Rattle.std.specs.Prelude.{◌≡◌};
    ghost use Rattle.par2_journal.specs.Commands.{nothing_for};

    ghost from_gives = { λ next refused. refused ≡ nothing_for next };

    // For an undo or redo without an entry.
    fn from(next: Next) -> Self {
        match next {
            Next::Undo => SessionFault::NothingToUndo,
            Next::Redo => SessionFault::NothingToRedo,
        }
    }
}

// What committing an action does: it applies a command's own changes, or those of the next entry.
#[derive(Drop)]
pub enum Kind {
    Changing(Changes),
    Moving(Next),
}

/// An action that can be committed.
#[derive(Drop)]
pub struct Prepared {
    pub(crate) kind: Kind,
    pub(crate) steps: Steps,
    // The folder's fingerprints before its changes and after each, for its journals.
    pub(crate) fingerprints: Vec<[u8; 16]>,
}

impl Prepared {
    ghost use Rattle.std.specs.Prelude.{◌≡◌};

    /// The steps, in the order in which their changes are applied. The program takes those that `commit` returns.
    pub fn steps(&self) -> &Steps
        ensures { result.now ≡ self.now.steps }
    {
        &self.steps
    }
}

/// The journals of an action, as bytes.
#[derive(Drop)]
pub struct Journals {
    /// The halfway journal, which is in the store while the changes are made. An action without changes has none.
    pub halfway: Option<Vec<u8>>,
    /// The journal of the session afterwards.
    pub after: Vec<u8>,
}

// Both journals of an action with the way back `back`, or only the second if nothing is changed. `front` is what
// `begin` wrote of the halfway one, `fingerprints` are those after each change, and `after` has the parts of the
// journal afterwards. `CompletesHalfway`: the bytes spell the halfway one.
pub(crate) fn both(
    alloc: Global,
    front: Vec<u8>,
    fingerprints: &[[u8; 16]],
    back: &Changes,
    after: &JournalView<'_>,
) -> Result<Journals>
    requires { length fingerprints.now ≡ length back.now }
    ensures halfway { IfOk result (CompletesHalfway front.items fingerprints.now back.now) }
    ensures after { IfOk result (λ x. Spells x.after.items (journal_from after.now)) }
{
    if back.is_empty() {
        let after = encode(alloc, after)?;
        let halfway = None;
        return Ok(Journals { halfway, after });
    }
    let part = HalfwayPartView { fingerprints, back };
    let both = finish_both(alloc, front, &part, after)?;
    let (halfway, after) = (Some(both.halfway), both.after);
    Ok(Journals { halfway, after })
}
