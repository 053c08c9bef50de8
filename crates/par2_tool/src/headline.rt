//! The main contract: what par2 promises whoever runs it (`run`). `main` calls `start` once, with its arguments, its store
//! and its two printers, and `start` calls `run` with the words after the program's name (`words_of`). `run_words`
//! reads the words as a command, `carry_out` opens the store and performs it, and `run_words` prints the result.
//! The laws about runs on one store are contracts of functions that do nothing.

ghost use Rattle.std.specs.Prelude.{◌≡◌, ◌≤◌, Bool, [], drop, map, string_bytes, IfErr, IfOk, IsErrOf, IsOk, IsTrue};
ghost use Rattle.std.specs.IoError.{error_kind};
ghost use Rattle.std.specs.Vec.Iter.{into_iter_items};
ghost use Rattle.par2_spec.specs.Prelude.{Lists, command_of, output_of};
ghost use Rattle.par2_output.specs.Printing.{words_requested};
ghost use Rattle.par2_tool.specs.OpenedStores.{outcome_of};
ghost use Rattle.par2_tool.specs.Runs.{ActsAsAsked, Answered, Failed, IsBack, IsResult, IsRun, IsShown, KeepsInputs, LeadsBack, LeavesStopped, RepairsFiles, failure_of_kind, KeepOneHistory, LeadBack, OpensInOneWay};

use crate::opening::open_for;
use crate::performing::{Outcome, perform};
use crate::printing::{fail, tell};
use par2_arguments::read_words;
use par2_disk::FolderStore;
use par2_journal_format::one_reading;
use par2_laws::creates::{
    created_files_not_repairable_have_a_choice, repair_gives_the_created_files_back,
    repair_of_created_files_is_refused_for_few_causes,
};
use par2_laws::restored_files::{
    accepted_repair_leaves_the_files, refused_repair_leaves_a_choice, repair_never_fails,
};
use par2_output::Printer;
use par2_spec::session_laws::undos_lead_back;
use par2_spec::{Action, Command, Failure, Fault};
use std::alloc::{AllocError, Global};
use std::env::Args;
use std::io::{self, ErrorKind, Write};

// Whether the command is an undo or a redo (`IsBack`) but the history was dropped (`Started::dropped`). The run then
// fails because the folder has changed, not because there is nothing to undo or redo.
fn lacks_history(dropped: bool, command: &Command) -> bool
    ensures back { IsTrue result → IsBack (command_of command.now) }
    ensures dropped { IsBack (command_of command.now) → result ≡ dropped }
{
    dropped && matches!(command, Command::Act(Action::Undo | Action::Redo))
}

// A command's outcome and whether a history was dropped; or why it failed.
type Answer = Result<(Outcome, bool), Failure>;

// Opens the store for the command and performs it; `run_words` prints the result. `IsResult`: a failure has its cause,
// and an honest store shows the effect of the result. `LeavesStopped`: a power cut at any moment leaves a store that
// opens as before the command or as after it.
fn carry_out<S: FolderStore>(alloc: Global, store: &mut S, command: &Command) -> Answer
    ensures honest { S.honest store.old → S.honest store.new }
    // Whether a history was dropped may differ where nothing shows it.
    ensures done { IfOk result (λ done. (dropped : Bool)
        × (output_of dropped (outcome_of done.0) ≡ output_of done.1 (outcome_of done.0))
        × IsResult S.Store (command_of command.now) store.old store.new
        (Answered dropped (outcome_of done.0))) }
    ensures failed { IfErr result (λ failure. IsResult S.Store (command_of command.now)
        store.old store.new (Failed (words_requested (command_of command.now)) failure)) }
    ensures cut { LeavesStopped S.Store (command_of command.now) store.old store.new }
    ensures later { S.failures store.old ≤ S.failures store.new }
    ensures possible { S.honest store.old → S.impossible store.new ≡ S.impossible store.old }
{
    let mut started = open_for(alloc, store, Some(command))?;
    if lacks_history(started.dropped, command) {
        return Err(Failure::FolderChanged);
    }
    let outcome = perform(alloc, store, &mut started.session, command)?;
    Ok((outcome, started.dropped))
}

// Reads the words, carries out the command, prints the outcome on `out` or the failure on `err`, and returns the exit
// status: `run` without the clauses about what a run achieves.
fn run_words<S: FolderStore, O: Write, E: Write>(
    alloc: Global,
    words: &[String],
    store: &mut S,
    out: &mut Printer<O>,
    err: &mut Printer<E>,
) -> u8
    ensures honest { S.honest store.old → S.honest store.new }
    ensures reported { IsRun S.Store O.contents E.contents (map string_bytes words.now)
        store.old store.new out.old out.new err.old err.new result }
    ensures later { S.failures store.old ≤ S.failures store.new }
    ensures possible { S.honest store.old → S.impossible store.new ≡ S.impossible store.old }
{
    let command = match read_words(alloc, words) {
        Ok(command) => command,
        Err(fault) => return fail(err, None, Failure::from(fault)),
    };
    match carry_out(alloc, store, &command) {
        Ok((outcome, dropped)) => tell(out, &outcome, dropped),
        Err(failure) => fail(err, Some(&command), failure),
    }
}

/// Runs the program, as `start` does with its arguments: reads the words, opens the store, performs the command, and
/// prints the outcome on one of the two writers. Returns the exit status. The clauses about the store's contents need
/// an honest store.
pub fn run<S: FolderStore, O: Write, E: Write>(
    alloc: Global,
    words: &[String],
    store: &mut S,
    out: &mut Printer<O>,
    err: &mut Printer<E>,
) -> u8
    // What is printed is what was done to the store, and no impossible call is made on it.
    ensures honest { S.honest store.old → S.honest store.new }
    ensures reported { IsRun S.Store O.contents E.contents (map string_bytes words.now)
        store.old store.new out.old out.new err.old err.new result }
    ensures later { S.failures store.old ≤ S.failures store.new }
    ensures possible { S.honest store.old → S.impossible store.new ≡ S.impossible store.old }
    // What is achieved on an honest store, by the status. A repair restores the files that its set was made from.
    ensures files { S.honest store.old → RepairsFiles S.Store words.now store.old store.new result }
    // After a create and later damage, it restores the inputs of the create.
    ensures inputs { S.honest store.old → KeepsInputs S.Store words.now store.old store.new result }
    // Undos lead back, one command each.
    ensures undo { S.honest store.old → LeadsBack S.Store words.now store.old store.new result }
    // Any action takes effect or has none, even if the run is stopped or the power is cut.
    ensures action { S.honest store.old → ActsAsAsked S.Store words.now store.old store.new result }
{
    accepted_repair_leaves_the_files();
    repair_never_fails();
    refused_repair_leaves_a_choice();
    repair_gives_the_created_files_back();
    repair_of_created_files_is_refused_for_few_causes();
    created_files_not_repairable_have_a_choice();
    stores_open_in_one_way();
    runs_keep_one_history();
    undone_runs_lead_back();
    run_words(alloc, words, store, out, err)
}

// Collects the arguments after the first, the program's name, which the command line is defined without. Err if memory
// runs out.
fn words_in(mut args: Args, alloc: Global) -> Result<Vec<String>, AllocError>
    ensures { Lists (drop 1 (into_iter_items args)) result }
{
    let _name = args.next();
    args.collect(alloc)
}

// The words after the program's name, or the failure that `start` prints. `given` is the runtime's result: an error of
// kind OutOfMemory is reported as out of memory, and any other, such as a word that isn't UTF-8, as wrong arguments.
fn words_of(given: io::Result<Args>, alloc: Global) -> Result<Vec<String>, Failure>
    ensures words { IfOk given (λ args. Lists (drop 1 (into_iter_items args)) result) }
    ensures whole { IsOk given → IfErr result (λ failure. failure ≡ Failure.Refused Fault.Memory) }
    ensures refused { IfErr given (λ error. IsErrOf result (failure_of_kind (error_kind error))) }
{
    match given {
        Ok(args) => match words_in(args, alloc) {
            Ok(words) => Ok(words),
            Err(AllocError) => Err(Failure::Refused(Fault::Memory)),
        },
        Err(error) if error.kind() == ErrorKind::OutOfMemory => {
            Err(Failure::Refused(Fault::Memory))
        }
        Err(_) => Err(Failure::Arguments),
    }
}

/// Runs the program with the arguments after the first, which is the program's name, and returns the exit status. If
/// they can't be read, prints the reason on the error writer and leaves the store as it is. `IsRun`: a run with these
/// words; `IsShown`: only the reason is printed.
pub fn start<S: FolderStore, O: Write, E: Write>(
    alloc: Global,
    given: io::Result<Args>,
    store: &mut S,
    out: &mut Printer<O>,
    err: &mut Printer<E>,
) -> u8
    ensures run { IfOk given (λ args.
        let words = map string_bytes (drop 1 (into_iter_items args)) in
        IsRun S.Store O.contents E.contents words
        store.old store.new out.old out.new err.old err.new result) }
    ensures refused { IfErr given (λ error. IsShown (Failed [] (failure_of_kind (error_kind error)))
        O.contents out.old out.new E.contents err.old err.new result × (store.new ≡ store.old)) }
{
    match words_of(given, alloc) {
        Ok(words) => run(alloc, words.as_slice(), store, out, err),
        Err(failure) => fail(err, None, failure),
    }
}

/// Opening is deterministic: a store opens as one session only.
pub fn stores_open_in_one_way()
    ensures { OpensInOneWay }
{
    one_reading();
}

/// Runs on one store, each of which opens it again, have the history of one session that does all their actions, and
/// afterwards the store opens as that session. Runs without effect, as stopped ones may be, change neither.
pub fn runs_keep_one_history()
    ensures { KeepOneHistory }
{
    stores_open_in_one_way();
}

/// After runs on one store in which creates, repairs and purges took effect, and then as many undos, names and bytes
/// are those from before. Runs between them may have been refused, have failed, or have been stopped without effect.
pub fn undone_runs_lead_back()
    ensures { LeadBack }
{
    stores_open_in_one_way();
    runs_keep_one_history();
    undos_lead_back();
}
