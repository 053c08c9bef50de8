//! The lines word for word, and writers that stop.
ghost use Rattle.std.specs.Prelude.{◌≡◌, Some};

use crate::fixtures::{Trouble, args_of};
use par2_output::{
    PrintedState, PrintedStep, PrintedTarget, Printer, WriteFault, write_done, write_failure,
    write_note, write_set, write_step, write_target, write_verdict,
};
use par2_spec::{Action, Command, Failure, Fault, Verdict};
use std::alloc::{AllocError, Global};
use std::io::{self, BufWriter, ErrorKind, Write};
use std::test::Fail;

// A writer that takes this many bytes, at most two at a time, and then fails or takes none.
#[derive(Drop)]
struct Stopping {
    held: Vec<u8>,
    left: usize,
    fails: bool,
}

impl Write for Stopping {
    ghost contents = { λ w. Some w.held.items };

    fn write(&mut self, bytes: &[u8]) -> io::Result<usize> {
        let count = bytes.len().min(self.left).min(2);
        if count == 0 && self.fails {
            return Err(io::Error::from(ErrorKind::Other));
        }
        self.held.extend_from_slice(&bytes[..count])?;
        self.left -= count;
        Ok(count)
    }

    fn flush(&mut self) -> io::Result<()> {
        Ok(())
    }
}

// Whether both writes to a writer that takes five bytes fail, after five bytes.
fn stops_after_five_bytes_of(alloc: Global, fails: bool) -> bool {
    let mut out = Printer::new(Stopping {
        held: Vec::new(alloc),
        left: 5,
        fails,
    });
    let step = write_step(&mut out, PrintedStep::Write("t.par2")).is_err();
    let failure = write_failure(&mut out, None, Failure::Arguments).is_err();
    step && failure && out.into_inner().held.as_slice() == b"write".as_slice()
}

#[test]
fn stops_after_five_bytes(rt: HostRuntime) {
    for fails in [false, true] {
        assert!(rt; stops_after_five_bytes_of(rt.alloc(), fails));
    }
}

// A writer that is interrupted this many times before each call that takes a byte, and before it is flushed.
#[derive(Drop)]
struct Halting {
    held: Vec<u8>,
    each: usize,
    left: usize,
}

impl Halting {
    // The error of an interrupted call.
    fn interruption(&mut self) -> io::Result<()>
        ensures { self.new.held ≡ self.old.held }
    {
        if self.left == 0 {
            self.left = self.each;
            return Ok(());
        }
        self.left -= 1;
        Err(io::Error::from(ErrorKind::Interrupted))
    }
}

impl Write for Halting {
    ghost contents = { λ w. Some w.held.items };

    fn write(&mut self, bytes: &[u8]) -> io::Result<usize> {
        self.interruption()?;
        let count = bytes.len().min(1);
        self.held.extend_from_slice(&bytes[..count])?;
        Ok(count)
    }

    fn flush(&mut self) -> io::Result<()> {
        self.interruption()
    }
}

// Whether such a writer has a line after it is written and flushed.
fn holds_a_line(alloc: Global, each: usize) -> bool {
    let mut out = Printer::new(Halting {
        held: Vec::new(alloc),
        each,
        left: each,
    });
    let is_written = write_step(&mut out, PrintedStep::Write("b")).is_ok();
    let is_flushed = out.flush().is_ok();
    is_written && is_flushed && out.into_inner().held.as_slice() == b"write b\n".as_slice()
}

#[test]
fn goes_on_after_interruptions(rt: HostRuntime) {
    for each in [1, 3, 10] {
        assert!(rt; holds_a_line(rt.alloc(), each));
    }
}

// A printer over a buffering writer, in front of one that takes this many bytes.
fn holding_back(
    alloc: Global,
    left: usize,
    fails: bool,
) -> io::Result<Printer<BufWriter<Stopping, Global>>> {
    let stopping = Stopping {
        held: Vec::new(alloc),
        left,
        fails,
    };
    Ok(Printer::new(BufWriter::new(alloc, stopping)?))
}

// Whether a line of eight bytes is written, and whether it is then flushed.
fn is_passed_on(alloc: Global, left: usize, fails: bool) -> io::Result<(bool, bool)> {
    let mut out = holding_back(alloc, left, fails)?;
    let is_written = write_step(&mut out, PrintedStep::Write("b")).is_ok();
    Ok((is_written, out.flush().is_ok()))
}

#[test]
fn flushes_what_is_held_back(rt: HostRuntime) {
    for (left, fails, is_flushed) in [(8, true, true), (5, true, false), (5, false, false)] {
        let passed = is_passed_on(rt.alloc(), left, fails);
        assert!(rt; matches!(&passed, Ok((true, flushed)) if *flushed == is_flushed));
    }
}

// One of the lines that the crate writes.
#[derive(Clone, Copy)]
enum Line {
    Note(bool),
    Step(PrintedStep<'static>),
    Done(usize),
    Set([u8; 16]),
    Target(PrintedState<'static>),
    Verdict(Verdict, usize, usize),
}

fn write_line(out: &mut Printer<Vec<u8>>, line: Line) -> Result<(), WriteFault> {
    match line {
        Line::Note(dropped) => write_note(out, dropped),
        Line::Step(step) => write_step(out, step),
        Line::Done(count) => write_done(out, count),
        Line::Set(id) => write_set(out, &id),
        Line::Target(state) => write_target(out, a_as(state)),
        Line::Verdict(verdict, lost, rank) => write_verdict(out, verdict, lost, rank),
    }
}

// The target `a` in this state, with one of 20 slices found.
fn a_as(state: PrintedState<'static>) -> PrintedTarget<'static> {
    PrintedTarget {
        name: "a",
        state,
        found: 1,
        total: 20,
    }
}

const SET_ID: [u8; 16] = [0x0a, 0xff, 2, 3, 4, 5, 6, 7, 8, 9, 10, 11, 12, 13, 14, 15];

const LINES: &[(Line, &str)] = &[
    (Line::Note(false), ""),
    (Line::Note(true), "note: history dropped\n"),
    (
        Line::Step(PrintedStep::Rename("a", "a.1")),
        "rename a to a.1\n",
    ),
    (Line::Step(PrintedStep::Write("b")), "write b\n"),
    (Line::Step(PrintedStep::Replace("c")), "replace c\n"),
    (Line::Step(PrintedStep::Remove("d e")), "remove d e\n"),
    (Line::Done(120), "done: 120\n"),
    (Line::Set(SET_ID), "set 0aff02030405060708090a0b0c0d0e0f\n"),
    (Line::Target(PrintedState::Complete), "complete a\n"),
    (
        Line::Target(PrintedState::Misplaced("x")),
        "misplaced a as x\n",
    ),
    (Line::Target(PrintedState::Damaged), "damaged a 1/20\n"),
    (Line::Target(PrintedState::Missing), "missing a 1/20\n"),
    (Line::Verdict(Verdict::Complete, 0, 0), "result: complete\n"),
    (
        Line::Verdict(Verdict::Repairable, 1, 1),
        "result: repairable, lost 1, rank 1\n",
    ),
    (
        Line::Verdict(Verdict::NotRepairable, 2, 1),
        "result: not repairable, lost 2, rank 1\n",
    ),
];

// The bytes with this line after them.
fn line_behind(out: Vec<u8>, line: Line) -> Result<Vec<u8>, Trouble> {
    let mut printer = Printer::new(out);
    match write_line(&mut printer, line) {
        Ok(()) => Ok(printer.into_inner()),
        Err(_) => Err(Trouble::Refused),
    }
}

// The first expected line that isn't written, if there is one.
fn first_unwritten(alloc: Global) -> Result<Option<&'static str>, Trouble> {
    let (mut out, mut expected) = (Vec::new(alloc), String::new(alloc));
    for (line, bytes) in LINES {
        out = line_behind(out, *line)?;
        expected.push_str(bytes)?;
        if out.as_slice() != expected.as_bytes() {
            return Ok(Some(*bytes));
        }
    }
    Ok(None)
}

#[test]
fn lines_of_a_report(rt: HostRuntime) -> Result<(), Fail> {
    if let Some(bytes) = first_unwritten(rt.alloc())? {
        panic!(rt; "at {bytes}");
    }
    Ok(())
}

// A create of `t.par2` with the inputs `x` and `y z`.
fn create(alloc: Global) -> Result<Command, AllocError> {
    let args = args_of(alloc, 4, "t.par2", &["x", "y z"])?;
    Ok(Command::Act(Action::Create(args)))
}

// The failure of a command with two inputs, and the line that is printed.
const REFUSALS: &[(Fault, &str)] = &[
    (
        Fault::BadSliceSize,
        "block size must be a multiple of 4 from 4 to 1073741824",
    ),
    (Fault::BadCount, "block numbers must stay below 65536"),
    (
        Fault::BadBase,
        "the base must be a file name that ends in .par2",
    ),
    (Fault::NoInput, "no input files"),
    (Fault::BadName(1), "bad input name: x"),
    (Fault::DuplicateInput(2), "input named twice: y z"),
    (Fault::NoSuchFile(0), "no such file: t.par2"),
    (Fault::NoSuchFile(2), "no such file: y z"),
    (Fault::NoSuchFile(3), "no such file: "),
    (Fault::EmptyFile(1), "empty input: x"),
    (Fault::TooManySlices, "more than 32768 blocks"),
    (Fault::DuplicateId, "two inputs have one file id"),
    (
        Fault::NameTooLong,
        "a file name would be longer than 255 bytes",
    ),
    (Fault::Exists, "an output file exists"),
    // Of a set.
    (Fault::NoPackets, "no packets in the base"),
    (Fault::NoMain, "no main packet"),
    (Fault::NoDescription, "a file description is missing"),
    (Fault::NoChecksums, "block checksums are missing"),
    (Fault::BadSet, "the set is not in this profile"),
    (
        Fault::NotRepairable {
            missing: 2,
            rank: 1,
        },
        "not repairable, lost 2, rank 1",
    ),
    (Fault::RepairFailed, "a rebuilt file has another digest"),
    (Fault::NotComplete, "the files are not complete"),
    (Fault::Memory, "out of memory"),
];

// The line that is printed of a failure.
fn reported(
    alloc: Global,
    command: Option<&Command>,
    failure: Failure,
) -> Result<Vec<u8>, WriteFault> {
    let mut out = Printer::new(Vec::new(alloc));
    write_failure(&mut out, command, failure)?;
    Ok(out.into_inner())
}

/// Whether a failure prints this line.
pub fn is_reported(
    alloc: Global,
    command: Option<&Command>,
    failure: Failure,
    bytes: &str,
) -> Result<bool, AllocError> {
    let reported = reported(alloc, command, failure);
    let expected = format!(in alloc; "par2: {bytes}\n")?;
    Ok(matches!(&reported, Ok(reported) if reported.as_slice() == expected.as_bytes()))
}

fn is_refusal_reported(alloc: Global, fault: Fault, bytes: &str) -> Result<bool, AllocError> {
    let command = create(alloc)?;
    is_reported(alloc, Some(&command), Failure::Refused(fault), bytes)
}

#[test]
fn fault_lines(rt: HostRuntime) -> Result<(), Fail> {
    for (fault, bytes) in REFUSALS {
        assert!(rt; is_refusal_reported(rt.alloc(), *fault, bytes)?, "{bytes}");
    }
    Ok(())
}

const USAGE: &str =
    "usage: par2 create -sN -cN [-fN] [--overwrite] BASE.par2 FILE.. | verify BASE [FILE..] | repair [-p] BASE [FILE..] | purge BASE | undo | redo";

const FAILURES: &[(Failure, &str)] = &[
    (Failure::Store, "a file could not be read or written"),
    (Failure::Arguments, USAGE),
    (Failure::JournalInvalid, "the journal is not valid"),
    (
        Failure::FolderChanged,
        "the folder is not as the journal left it",
    ),
    (Failure::NothingToUndo, "nothing to undo"),
    (Failure::NothingToRedo, "nothing to redo"),
];

#[test]
fn failure_lines(rt: HostRuntime) -> Result<(), Fail> {
    for (failure, bytes) in FAILURES {
        assert!(rt; is_reported(rt.alloc(), None, *failure, bytes)?, "{bytes}");
    }
    Ok(())
}
