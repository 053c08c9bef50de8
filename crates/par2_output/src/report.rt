//! The lines of a verify's report (`write_set`, `write_target` for each target, `write_verdict`) and of any other
//! accepted command (`write_note`, `write_step` for each step, `write_done`). `par2_tool` calls them in this order.
//! `Wrote` in their contracts: the bytes are written whole, or a proper prefix of them is, and a failure is counted.
//! `Prints`: the same of a line.
ghost use Rattle.std.specs.Prelude.{◌≡◌, ◌++◌, codes, decimal};
ghost use Rattle.hex.specs.Hex.{encode_lower};
ghost use Rattle.par2_spec.specs.Prelude.{Report, lost_line, note_line, of_all, step_line, target_line, verdict_words};
ghost use Rattle.par2_output.specs.Printing.{step_shown, target_shown, PrinterWrote as Wrote, Prints};

use crate::printer::{Printer, Written, write_line};
use itoa::Buffer;
use par2_spec::Verdict;
use std::io::Write;

/// The state of a target's file.
#[derive(Clone, Copy)]
pub enum PrintedState<'a> {
    Complete,
    Misplaced(&'a str),
    Damaged,
    Missing,
}

/// A target in a report.
#[derive(Clone, Copy)]
pub struct PrintedTarget<'a> {
    pub name: &'a str,
    pub state: PrintedState<'a>,
    /// How many of its `total` slices are known.
    pub found: usize,
    pub total: usize,
}

/// Writes `set` and the Recovery Set ID in hexadecimal digits, as the first line of a report.
pub fn write_set<W: Write>(out: &mut Printer<W>, set_id: &[u8; 16]) -> Written
    ensures { Prints W.contents out.old out.new (codes "set " ++ encode_lower set_id.now) result }
{
    let mut digits = [0; 32];
    match hex::encode_to_slice(set_id.as_slice(), &mut digits) {
        Ok(()) => match str::from_utf8(&digits) {
            Ok(digits) => write_line(out, &["set ", digits]),
            Err(_) => unreachable!(),
        },
        Err(_) => unreachable!(),
    }
}

// Writes the line of a damaged or missing target: `state`, which ends with a space, the name, and how many of its
// slices are known and how many it has, as `3/8`.
fn write_counts<W: Write>(out: &mut Printer<W>, state: &str, target: PrintedTarget<'_>) -> Written
    ensures { Prints W.contents out.old out.new (state.now ++ target.entry.name.now ++ codes " "
        ++ of_all (target_shown target.entry)) result }
{
    let (mut found, mut total) = (Buffer::new(), Buffer::new());
    let (found, total) = (found.format(target.found), total.format(target.total));
    write_line(out, &[state, target.name, " ", found, "/", total])
}

/// Writes the line of a target: its state, its name, and its other name if it is misplaced, or its numbers of slices.
pub fn write_target<W: Write>(out: &mut Printer<W>, target: PrintedTarget<'_>) -> Written
    ensures { Wrote W.contents out.old out.new (target_line (target_shown target.entry)) result }
{
    match target.state {
        PrintedState::Complete => write_line(out, &["complete ", target.name]),
        PrintedState::Misplaced(place) => {
            write_line(out, &["misplaced ", target.name, " as ", place])
        }
        PrintedState::Damaged => write_counts(out, "damaged ", target),
        PrintedState::Missing => write_counts(out, "missing ", target),
    }
}

// Writes `start`, the number of lost slices and the rank of the recovery slices for them, as a line: of a verdict, or
// of a refused repair. `lost_line` has no newline; `line` adds it.
pub(crate) fn write_lost<W: Write>(
    out: &mut Printer<W>,
    start: &str,
    lost: usize,
    rank: usize,
) -> Written
    ensures { Prints W.contents out.old out.new (start.now ++ lost_line lost rank) result }
{
    let (mut slices, mut kept) = (Buffer::new(), Buffer::new());
    let (lost, rank) = (slices.format(lost), kept.format(rank));
    write_line(out, &[start, "lost ", lost, ", rank ", rank])
}

/// Writes the verdict on a set with this number of lost slices and this rank, as the last line of a report.
pub fn write_verdict<W: Write>(
    out: &mut Printer<W>,
    verdict: Verdict,
    lost: usize,
    rank: usize,
) -> Written
    ensures { (r : Report) → r.lost ≡ lost → r.rank ≡ rank
        → Prints W.contents out.old out.new (codes "result: " ++ verdict_words r verdict) result }
{
    match verdict {
        Verdict::Complete => write_line(out, &["result: ", "complete"]),
        Verdict::Repairable => write_lost(out, "result: repairable, ", lost, rank),
        Verdict::NotRepairable => write_lost(out, "result: not repairable, ", lost, rank),
    }
}

/// A change without its bytes: only its names.
#[derive(Clone, Copy, PartialEq, Eq)]
pub enum PrintedStep<'a> {
    Write(&'a str),
    Replace(&'a str),
    Rename(&'a str, &'a str),
    Remove(&'a str),
}

/// Writes the line `note: history dropped` if opening dropped the history, and nothing otherwise.
pub fn write_note<W: Write>(out: &mut Printer<W>, dropped: bool) -> Written
    ensures { Wrote W.contents out.old out.new (note_line dropped) result }
{
    if dropped {
        write_line(out, &["note: history dropped"])
    } else {
        Ok(())
    }
}

/// Writes the line of a step: its kind, and its one or two names.
pub fn write_step<W: Write>(out: &mut Printer<W>, step: PrintedStep<'_>) -> Written
    ensures { Wrote W.contents out.old out.new (step_line (step_shown step.entry)) result }
{
    match step {
        PrintedStep::Write(name) => write_line(out, &["write ", name]),
        PrintedStep::Replace(name) => write_line(out, &["replace ", name]),
        PrintedStep::Rename(from, to) => write_line(out, &["rename ", from, " to ", to]),
        PrintedStep::Remove(name) => write_line(out, &["remove ", name]),
    }
}

/// Writes `done: K` as the last line after the steps, where K is their number.
pub fn write_done<W: Write>(out: &mut Printer<W>, count: usize) -> Written
    ensures { Prints W.contents out.old out.new (codes "done: " ++ decimal count) result }
{
    let mut buffer = Buffer::new();
    write_line(out, &["done: ", buffer.format(count)])
}
