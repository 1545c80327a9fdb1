//! The one command, and the matches of words.
ghost use Rattle.std.specs.Prelude.{◌≡◌, ◌≢◌, [], codes, map, IfOk, OnOk, string_bytes, IsErrOf, true};
ghost use Rattle.clap.specs.Words.{app_of, with_rule, rows_of, found_of, new_rule, new_app};
ghost use Rattle.clap.specs.Simple.{on_top};
ghost use Rattle.command_line.specs.Command.{option_rule, flag_rule, long_option_rule, long_flag_rule, the_command, refusals, found};

use crate::WordsFault;
use clap::error::ErrorKind;
use clap::{Arg, ArgAction, ArgMatches, Command};
use std::alloc::{AllocError, Global};

// Adds an option `-x` that takes one text.
fn with_option<'a>(
    alloc: Global,
    command: Command<'a>,
    id: &'a str,
    letter: char,
) -> Result<Command<'a>, AllocError>
    ensures { IfOk result (λ c. app_of c ≡ with_rule (app_of command.entry) (option_rule id.entry.now letter)) }
{
    command.arg(Arg::new(alloc, id).short(letter))
}

// Adds a flag `-x`.
fn with_flag<'a>(
    alloc: Global,
    command: Command<'a>,
    id: &'a str,
    letter: char,
) -> Result<Command<'a>, AllocError>
    ensures { IfOk result (λ c. app_of c ≡ with_rule (app_of command.entry) (flag_rule id.entry.now letter)) }
{
    let flag = Arg::new(alloc, id).short(letter).action(ArgAction::SetTrue);
    command.arg(flag)
}

// Adds an option `--name` that takes one text.
fn with_long_option<'a>(
    alloc: Global,
    command: Command<'a>,
    name: &'a str,
) -> Result<Command<'a>, AllocError>
    ensures { IfOk result (λ c. app_of c ≡ with_rule (app_of command.entry) (long_option_rule name.entry.now)) }
{
    command.arg(Arg::new(alloc, name).long(name))
}

// Adds a flag `--name`.
fn with_long_flag<'a>(
    alloc: Global,
    command: Command<'a>,
    name: &'a str,
) -> Result<Command<'a>, AllocError>
    ensures { IfOk result (λ c. app_of c ≡ with_rule (app_of command.entry) (long_flag_rule name.entry.now)) }
{
    let flag = Arg::new(alloc, name).long(name).action(ArgAction::SetTrue);
    command.arg(flag)
}

// Adds an argument that takes one text and stands by itself.
fn with_positional<'a>(
    alloc: Global,
    command: Command<'a>,
    id: &'a str,
) -> Result<Command<'a>, AllocError>
    ensures { IfOk result (λ c. app_of c ≡ with_rule (app_of command.entry) (new_rule id.entry.now)) }
{
    command.arg(Arg::new(alloc, id))
}

fn bare_command<'a>(alloc: Global) -> Command<'a>
    ensures { app_of result ≡ on_top (λ s. record s { no_binary_name = true }) (new_app (codes "rematch")) }
{
    Command::new(alloc, "rematch").no_binary_name(true)
}

// The command, whose words do not begin with the program's name.
fn the_only_command<'a>(alloc: Global) -> Result<Command<'a>, AllocError>
    ensures { IfOk result (λ c. app_of c ≡ the_command) }
{
    let bare = bare_command(alloc);
    let command = with_option(alloc, bare, "query", 'e')?;
    let command = with_option(alloc, command, "query-name", 'q')?;
    let command = with_option(alloc, command, "limit", 'n')?;
    let command = with_option(alloc, command, "after", 'a')?;
    let command = with_option(alloc, command, "form", 'f')?;
    let command = with_flag(alloc, command, "texts", 't')?;
    let command = with_long_flag(alloc, command, "filter")?;
    let command = with_long_option(alloc, command, "max-table")?;
    let command = with_long_flag(alloc, command, "explain")?;
    let command = with_long_option(alloc, command, "trial")?;
    let command = with_positional(alloc, command, "document")?;
    Ok(command)
}

/// What the command found in the words, where it takes them.
pub fn matches_in<'a>(alloc: Global, words: &'a [String]) -> Result<ArgMatches<'a>, WordsFault>
    ensures ok { IfOk result (λ m. rows_of (found_of m) ≡ found (map string_bytes words.entry.now)) }
    ensures taken { OnOk result (refusals (map string_bytes words.entry.now) ≡ []) }
    ensures refused { IsErrOf result WordsFault.Refused → refusals (map string_bytes words.entry.now) ≢ [] }
{
    let command = match the_only_command(alloc) {
        Ok(command) => command,
        Err(_) => return Err(WordsFault::OutOfMemory),
    };
    match command.try_get_matches_from(words) {
        Ok(matches) => Ok(matches),
        Err(error) => match error.kind() {
            ErrorKind::OutOfMemory => Err(WordsFault::OutOfMemory),
            _ => Err(WordsFault::Refused),
        },
    }
}
