//! The definition of the command line for clap. `par2_command` builds it from the table `SUBCOMMANDS`: one `command_of`
//! per row, which has one `arg_of` per argument. `read_words` parses with it.
ghost use Rattle.std.specs.Prelude.{◌≡◌, false, fold, map};
ghost use Rattle.clap.specs.Words.{new_app, rule_of, with_rule};
ghost use Rattle.par2_arguments.specs.Definition.{Defines, number_rule, par2_app, rule_for};

use Argument::*;
use clap::builder::ValueParser;
use clap::{Arg, ArgAction, Command, value_parser};
use par2_spec::Result;
use std::alloc::Global;

// An argument of a subcommand.
enum Argument {
    Slice,
    Count,
    First,
    Overwrite,
    Purge,
    Base,
    Files,
}

// The subcommands, each with its arguments.
const SUBCOMMANDS: [(&str, &[Argument]); 6] = [
    ("create", &[Slice, Count, First, Overwrite, Base, Files]),
    ("verify", &[Base, Files]),
    ("repair", &[Purge, Base, Files]),
    ("purge", &[Base]),
    ("undo", &[]),
    ("redo", &[]),
];

// An option with a number, such as `-s4096`, of the name `id`, by which the number is found later.
fn number_arg<'a>(alloc: Global, id: &'a str, short: char, parser: ValueParser<'a>) -> Arg<'a>
    ensures rule { rule_of result ≡ number_rule id.entry.now short parser.entry }
    ensures local { result.global ≡ false }
{
    Arg::new(alloc, id)
        .short(short)
        .action(ArgAction::Set)
        .value_parser(parser)
}

// The definition of an argument for clap, by the table's name for it (`rule_for`).
fn arg_of<'a>(alloc: Global, argument: &Argument) -> Arg<'a>
    ensures rule { rule_of result ≡ rule_for argument.now }
    ensures local { result.global ≡ false }
{
    match argument {
        Slice => number_arg(alloc, "slice", 's', value_parser!(u64)).required(true),
        Count => number_arg(alloc, "count", 'c', value_parser!(u32)).required(true),
        First => number_arg(alloc, "first", 'f', value_parser!(u32)).default_value("0"),
        Overwrite => Arg::new(alloc, "overwrite")
            .long("overwrite")
            .action(ArgAction::SetTrue),
        Purge => Arg::new(alloc, "purge")
            .short('p')
            .action(ArgAction::SetTrue),
        Base => Arg::new(alloc, "base")
            .action(ArgAction::Set)
            .required(true),
        Files => Arg::new(alloc, "files").action(ArgAction::Append),
    }
}

// The definition of a subcommand with these arguments: one row of the table. Err if memory runs out.
fn command_of<'a>(alloc: Global, name: &'a str, given: &[Argument]) -> Result<Command<'a>>
    ensures { Defines result (fold with_rule (new_app name.entry.now) (map rule_for given.now)) }
{
    let mut command = Command::new(alloc, name);
    for argument in given {
        command = command.arg(arg_of(alloc, argument))?;
    }
    Ok(command)
}

/// The program's command line, with its six subcommands, for `read_words`. Its words don't begin with the program's
/// name, and there is no `help`. Err if memory runs out.
pub(crate) fn par2_command<'a>(alloc: Global) -> Result<Command<'a>>
    ensures { Defines result par2_app }
{
    let mut command = Command::new(alloc, "par2")
        .no_binary_name(true)
        .disable_help_subcommand(true);
    for (name, arguments) in &SUBCOMMANDS {
        let subcommand = command_of(alloc, name, arguments)?;
        command = command.subcommand(subcommand)?;
    }
    Ok(command)
}
