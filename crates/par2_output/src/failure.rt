//! The line of a failure: `write_failure` chooses the reason, and for a refused command adds the name (`word`) or the
//! numbers that complete it.
#![tactic(auto, unfolding(par2_spec::specs::Output::error_of, par2_spec::specs::Output::failure_line, par2_spec::specs::Output::fault_line))]

ghost use Rattle.std.specs.Prelude.{◌≡◌, ◌++◌, ◌∷◌, codes, map, string_bytes};
ghost use Rattle.par2_spec.specs.Prelude.{error_of, word_at};
ghost use Rattle.par2_output.specs.Printing.{words_given, PrinterWrote, Prints};

use crate::printer::{Printer, Written, write_line};
use crate::report::write_lost;
use par2_spec::{Action, Command, Failure, Fault};
use std::io::Write;

// The name at a place of a command with these names: the base at place 0, and the k-th further name at place k. Empty
// if there is none.
fn listed<'a>(base: &'a str, further: &'a [String], place: usize) -> &'a str
    ensures { result.now ≡ word_at (base.now ∷ map string_bytes further.now) place }
{
    if place == 0 {
        return base;
    }
    match further.get(place - 1) {
        Some(name) => name.as_str(),
        None => "",
    }
}

// The name at a place of a command, which a fault refers to: 0 is the base, k the k-th further name. Empty if there is
// none.
fn word<'a>(command: Option<&'a Command>, place: usize) -> &'a str
    ensures { result.now ≡ word_at (words_given command.entry) place }
{
    match command {
        Some(Command::Verify { base, extras }) => listed(base, extras, place),
        Some(Command::Act(Action::Create(args))) => listed(&args.base, &args.inputs, place),
        Some(Command::Act(Action::Repair { base, extras, .. })) => listed(base, extras, place),
        Some(Command::Act(Action::Purge { base })) => listed(base, &[], place),
        Some(Command::Act(Action::Undo)) | Some(Command::Act(Action::Redo)) | None => "",
    }
}

// Writes `par2: `, the reason and the word that it is about, as a line.
fn write_reason_with<W: Write>(out: &mut Printer<W>, reason: &str, word: &str) -> Written
    ensures { Prints W.contents out.old out.new (codes "par2: " ++ reason.now ++ word.now) result }
{
    write_line(out, &["par2: ", reason, word])
}

const USAGE: &str =
    "usage: par2 create -sN -cN [-fN] [--overwrite] BASE.par2 FILE.. | verify BASE [FILE..] | repair [-p] BASE [FILE..] | purge BASE | undo | redo";

/// Writes the line of a failure: `par2: `, why the run failed, and a newline.
///
/// If the fault has a place, the line ends with the word that was given there; place 0 is the base. `command` is the
/// command that was read, if there was one.
pub fn write_failure<W: Write>(
    out: &mut Printer<W>,
    command: Option<&Command>,
    failure: Failure,
) -> Written
    ensures { PrinterWrote W.contents out.old out.new
        (error_of (words_given command.entry) failure) result }
{
    match failure {
        Failure::Refused(fault) => match fault {
            Fault::BadName(place)
            | Fault::DuplicateInput(place)
            | Fault::NoSuchFile(place)
            | Fault::EmptyFile(place) => {
                write_reason_with(out, fault.reason(), word(command, place))
            }
            Fault::NotRepairable { missing, rank } => {
                write_lost(out, "par2: not repairable, ", missing, rank)
            }
            _ => write_line(out, &["par2: ", fault.reason()]),
        },
        Failure::Store => write_line(out, &["par2: a file could not be read or written"]),
        Failure::Arguments => write_line(out, &["par2: ", USAGE]),
        Failure::JournalInvalid => write_line(out, &["par2: the journal is not valid"]),
        Failure::FolderChanged => {
            write_line(out, &["par2: the folder is not as the journal left it"])
        }
        Failure::NothingToUndo => write_line(out, &["par2: nothing to undo"]),
        Failure::NothingToRedo => write_line(out, &["par2: nothing to redo"]),
    }
}
