//! The output of a run, and its exit status. `tell` prints the outcome of an accepted command, `fail` a failure; both
//! then flush (`finish`). The other functions write one part of the output, or convert a value to what `par2_output`
//! prints.
#![tactic(auto, unfolding(par2_spec::specs::Output::output_of, par2_spec::specs::Output::status_of, par2_spec::specs::Output::status_of_fault, par2_spec::specs::Output::status_of_failure))]

ghost use Rattle.std.specs.Prelude.{◌≡◌, []};
ghost use Rattle.par2_spec.specs.Prelude.{report_lines, output_of, error_of};
ghost use Rattle.par2_spec.specs.Output as buffers;
ghost use Rattle.par2_journal.specs.StepViews.{step_view};
ghost use Rattle.par2_verify.specs.ReportViews.{state_view, target_report_of, report_view};
ghost use Rattle.par2_output.specs.Printing.{step_shown, state_shown, target_shown, words_given, PrinterWrote as Wrote};
ghost use Rattle.par2_tool.specs.OpenedStores.{outcome_of};
ghost use Rattle.par2_tool.specs.Runs.{IsPrinted};

use crate::performing::Outcome;
use par2_journal::{Report, State, Step, TargetReport};
use par2_output::{
    PrintedState, PrintedStep, PrintedTarget, Printer, Written, write_done, write_failure,
    write_note, write_set, write_step, write_target, write_verdict,
};
use par2_spec::{Command, Failure, Fault, Verdict};
use std::io::Write;

// The exit status if a writer fails.
const WRITER_FAILED: u8 = 6;

// The step as `par2_output` prints it, with borrowed names.
fn printed(step: &Step) -> PrintedStep<'_>
    ensures { step_shown result ≡ step_view step.now }
{
    match step {
        Step::Write(name) => PrintedStep::Write(name.as_str()),
        Step::Replace(name) => PrintedStep::Replace(name.as_str()),
        Step::Rename(from, to) => PrintedStep::Rename(from.as_str(), to.as_str()),
        Step::Remove(name) => PrintedStep::Remove(name.as_str()),
    }
}

// The state of a target's file as `par2_output` prints it, with a borrowed name.
fn printed_state(state: &State) -> PrintedState<'_>
    ensures { state_shown result ≡ state_view state.now }
{
    match state {
        State::Complete => PrintedState::Complete,
        State::Misplaced(name) => PrintedState::Misplaced(name.as_str()),
        State::Damaged => PrintedState::Damaged,
        State::Missing => PrintedState::Missing,
    }
}

// A target of a verify's report as `par2_output` prints it, with borrowed names.
fn printed_target(target: &TargetReport) -> PrintedTarget<'_>
    ensures { target_shown result ≡ target_report_of target.now }
{
    PrintedTarget {
        name: target.name.as_str(),
        state: printed_state(&target.state),
        found: target.found,
        total: target.total,
    }
}

// Writes the lines of a verify: the set's ID, each target, and the verdict.
fn write_report<W: Write>(out: &mut Printer<W>, report: &Report) -> Written
    ensures { Wrote W.contents out.old out.new (report_lines (report_view report.now)) result }
{
    write_set(out, &report.set_id)?;
    for target in &report.targets {
        write_target(out, printed_target(target))?;
    }
    write_verdict(out, report.verdict(), report.lost, report.rank)
}

// Writes what `tell` prints, without a flush: the report of a verify, or a line for each step of any other command, and
// their number, below a note if opening dropped a history (`dropped`).
fn write_outcome<W: Write>(out: &mut Printer<W>, outcome: &Outcome, dropped: bool) -> Written
    ensures { Wrote W.contents out.old out.new (output_of dropped (outcome_of outcome.now)) result }
{
    let steps = match outcome {
        Outcome::Report(report) => return write_report(out, report),
        Outcome::Done(steps) => steps.as_slice(),
    };
    write_note(out, dropped)?;
    for step in steps {
        write_step(out, printed(step))?;
    }
    write_done(out, steps.len())
}

// The exit status of an accepted command, if it can be printed: a verify's depends on its verdict, any other is 0.
fn status_of(outcome: &Outcome) -> u8
    ensures { result ≡ buffers.status_of (outcome_of outcome.now) }
{
    match outcome {
        Outcome::Report(report) => match report.verdict() {
            Verdict::Complete => 0,
            Verdict::Repairable => 1,
            Verdict::NotRepairable => 2,
        },
        Outcome::Done(_) => 0,
    }
}

// The last step of `tell` and `fail`: flushes what was written. Returns `own`, the status of the outcome or failure, or
// 6 if the flush fails.
fn finish<W: Write>(out: &mut Printer<W>, own: u8) -> u8
    ensures { IsPrinted W.contents out.old out.new [] own result }
{
    match out.flush() {
        Ok(()) => own,
        Err(_) => WRITER_FAILED,
    }
}

/// Prints the outcome of an accepted command on the output, and returns the exit status: 6 if the writer fails. Steps
/// come below a note if opening dropped a history (`dropped`).
pub fn tell<W: Write>(out: &mut Printer<W>, outcome: &Outcome, dropped: bool) -> u8
    ensures { IsPrinted W.contents out.old out.new (output_of dropped (outcome_of outcome.now))
        (buffers.status_of (outcome_of outcome.now)) result }
{
    match write_outcome(out, outcome, dropped) {
        Ok(()) => finish(out, status_of(outcome)),
        Err(_) => WRITER_FAILED,
    }
}

// The exit status of a failed run, if the failure can be printed: 6 for the store, 3 for wrong words, and 9 for a
// journal or a history that the run can't use. Of a refused command: 4 for an unreadable set, 2 and 5 for a repair that
// can't be done or gave wrong bytes, 1 for a purge of an incomplete set, 8 for memory, 3 for wrong numbers or names.
fn status_of_failure(failure: Failure) -> u8
    ensures { result ≡ buffers.status_of_failure failure }
{
    match failure {
        Failure::Refused(fault) => match fault {
            Fault::NoPackets
            | Fault::NoMain
            | Fault::NoDescription
            | Fault::NoChecksums
            | Fault::BadSet => 4,
            Fault::NotRepairable { .. } => 2,
            Fault::RepairFailed => 5,
            Fault::NotComplete => 1,
            Fault::Memory => 8,
            _ => 3,
        },
        Failure::Store => 6,
        Failure::Arguments => 3,
        Failure::JournalInvalid
        | Failure::FolderChanged
        | Failure::NothingToUndo
        | Failure::NothingToRedo => 9,
    }
}

/// Prints a failure on the error writer and returns the exit status: 6 if the writer fails. `command` is the command if
/// one was read; the line may end with one of its names.
pub fn fail<W: Write>(err: &mut Printer<W>, command: Option<&Command>, failure: Failure) -> u8
    ensures { IsPrinted W.contents err.old err.new
        (error_of (words_given command.entry) failure) (buffers.status_of_failure failure) result }
{
    match write_failure(err, command, failure) {
        Ok(()) => finish(err, status_of_failure(failure)),
        Err(_) => WRITER_FAILED,
    }
}
