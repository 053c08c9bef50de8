//! The command that words request. `read_words` lets clap match them, and `named` reads the matches of the subcommand.
//! Contracts see matches as rows (`rows_of`): each is the values of one argument.
#![tactic(auto, using(crate::proofs::Subcommands::bytes_read))]

ghost use Rattle.std.specs.Prelude.{◌≡◌, ◌⊎◌, IfOk, None, IfErr, Some, true, codes, map, is_some, string_bytes, unwrap_or};
ghost use Rattle.clap.specs.Words.{kind_of, subcommand_of, takes};
ghost use Rattle.par2_spec.specs.Prelude.{command_of};
ghost use Rattle.par2_arguments.specs.declared.read.WordsFault.TheVariants.{Memory};
ghost use Rattle.par2_arguments.specs.Definition.{AskFor, flag_of, meaning, number_of, par2_app, rows_in, value_of, values_of};

use crate::definition::par2_command;
use clap::ArgMatches;
use clap::error::ErrorKind;
use par2_spec::{Action, Command, CreateArgs, Failure, Fault, Result};
use std::alloc::{AllocError, Global};
use thiserror::Error;

/// Why words are not a command.
#[derive(Debug, Error, Clone, Copy, PartialEq, Eq, Drop)]
pub enum WordsFault {
    /// Displayed as the usage line.
    #[error("usage: par2 create -sN -cN [-fN] [--overwrite] BASE.par2 FILE.. | verify BASE [FILE..] | repair [-p] BASE [FILE..] | purge BASE | undo | redo")]
    Arguments,
    #[error("out of memory")]
    Memory,
}

impl From<AllocError> for WordsFault {
    ghost from_gives = { λ _ e. e ≡ Memory };

    // For `?` after an allocation.
    fn from(_error: AllocError) -> WordsFault {
        WordsFault::Memory
    }
}

impl From<WordsFault> for Failure {
    ghost use Rattle.std.specs.Prelude.{◌≡◌};
    ghost use Rattle.par2_spec.specs.declared.Failure.TheVariants.{Arguments, Refused};
    ghost use Rattle.par2_spec.specs.declared.Fault.TheVariants.{Memory};
    ghost use Rattle.par2_arguments.specs.declared.read.WordsFault.TheVariants as word;

    ghost from_gives = { λ e f. (e ≡ word.Arguments → f ≡ Arguments) × (e ≡ word.Memory → f ≡ Refused Memory) };

    // The failure that a run prints if its words aren't read.
    fn from(fault: WordsFault) -> Self {
        match fault {
            WordsFault::Arguments => Failure::Arguments,
            WordsFault::Memory => Failure::Refused(Fault::Memory),
        }
    }
}

// The first name of a command, copied from the matches. clap requires it of each command that has one.
fn base_of(alloc: Global, matches: &ArgMatches<'_>) -> Result<String>
    ensures { IfOk result (λ s. string_bytes s ≡ value_of (codes "base") (rows_in matches.now)) }
{
    String::from_str(alloc, matches.get_str("base").unwrap_or(""))
}

// The names after the first, copied from the matches in order: the inputs of a create, or further files to search.
fn files_of(alloc: Global, matches: &ArgMatches<'_>) -> Result<Vec<String>>
    ensures { IfOk result (λ v. map string_bytes v.items
        ≡ values_of (codes "files") (rows_in matches.now)) }
{
    let mut files = Vec::new(alloc);
    for bytes in matches.get_strs("files").unwrap_or(&[]) {
        files.push(String::from_str(alloc, bytes)?)?;
    }
    Ok(files)
}

// Whether the flag `id` was given: clap gives it the value `true` then.
fn has_flag(matches: &ArgMatches<'_>, id: &str) -> bool
    ensures { result ≡ flag_of id.now (rows_in matches.now) }
{
    matches.get_str(id).unwrap_or("") == "true"
}

// The slice size of a create, `-sN`, in bytes. clap requires it, so the 0 isn't used.
fn slice_size_of(matches: &ArgMatches<'_>) -> u64
    ensures { result ≡ number_of 64 (codes "slice") (rows_in matches.now) }
{
    matches.get_one::<u64>("slice").unwrap_or(0)
}

// The number of the option `id` of a create: the count of recovery slices, `-cN`, or the first exponent, `-fN`, which
// is 0 if it isn't given.
fn count_of(matches: &ArgMatches<'_>, id: &str) -> u32
    ensures { result ≡ number_of 32 id.now (rows_in matches.now) }
{
    matches.get_one::<u32>(id).unwrap_or(0)
}

// The command of the subcommand with this name and these matches. Err if memory runs out or for another name, which
// clap doesn't accept.
fn named(alloc: Global, name: &str, matches: &ArgMatches<'_>) -> Result<Command, WordsFault>
    ensures ok { IfOk result (λ c. meaning (name.now, rows_in matches.now) ≡ Some (command_of c)) }
    ensures err { IfErr result (λ e. e ≡ Memory ⊎ meaning (name.now, rows_in matches.now) ≡ None) }
{
    // A subcommand without names has an empty base and no further names.
    let base = base_of(alloc, matches)?;
    let extras = files_of(alloc, matches)?;
    match name {
        "create" => Ok(Command::Act(Action::Create(CreateArgs {
            slice: slice_size_of(matches),
            count: count_of(matches, "count"),
            first: count_of(matches, "first"),
            base,
            inputs: extras,
            overwrite: has_flag(matches, "overwrite"),
        }))),
        "verify" => Ok(Command::Verify { base, extras }),
        "repair" => Ok(Command::Act(Action::Repair {
            base,
            extras,
            purge: has_flag(matches, "purge"),
        })),
        "purge" => Ok(Command::Act(Action::Purge { base })),
        "undo" => Ok(Command::Act(Action::Undo)),
        "redo" => Ok(Command::Act(Action::Redo)),
        _ => Err(WordsFault::Arguments),
    }
}

// The fault of words that clap refuses: Memory if clap ran out of memory, otherwise Arguments.
fn fault_for(error: &clap::Error) -> WordsFault
    ensures memory { kind_of error.now ≡ ErrorKind.OutOfMemory → result ≡ Memory }
    ensures arguments { result ≡ Memory → kind_of error.now ≡ ErrorKind.OutOfMemory }
{
    match error.kind() {
        ErrorKind::OutOfMemory => WordsFault::Memory,
        _ => WordsFault::Arguments,
    }
}

/// Reads the words of a command line, without the program's name, as a command.
///
/// Every refusal by clap is `Arguments`, `--help` too, except for out of memory.
pub fn read_words(alloc: Global, words: &[String]) -> Result<Command, WordsFault>
    ensures command { IfOk result (λ c. AskFor (map string_bytes words.now) (command_of c)) }
    // Words that clap's definition accepts, with a subcommand, are refused only if memory runs out.
    ensures arguments { let buffers = map string_bytes words.now in
        takes par2_app buffers ≡ true → is_some (subcommand_of par2_app buffers) ≡ true
        → IfErr result (λ e. e ≡ Memory) }
{
    match par2_command(alloc)?.try_get_matches_from(words) {
        Ok(matches) => match matches.subcommand() {
            Some((name, matches)) => named(alloc, name, matches),
            None => Err(WordsFault::Arguments),
        },
        Err(error) => Err(fault_for(&error)),
    }
}
