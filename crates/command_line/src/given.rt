//! What the words give, before the program's own checks.
ghost use Rattle.std.specs.Prelude.{◌≡◌, ◌≢◌, [], map, option_map, IfOk, OnOk, string_bytes, IsErrOf};
ghost use Rattle.clap.specs.Words.{rows_of, found_of};
ghost use Rattle.command_line.specs.Command.{refusals, found};
ghost use Rattle.command_line.specs.Given.{text_given, is_given, given_by, given_view};

use crate::WordsFault;
use crate::command::matches_in;
use clap::ArgMatches;
use std::alloc::Global;

/// The text that was given for each argument, and whether each flag was.
#[derive(Clone, Copy)]
pub struct Given<'a> {
    pub query: Option<&'a str>,
    pub query_name: Option<&'a str>,
    pub limit: Option<&'a str>,
    pub after: Option<&'a str>,
    pub form: Option<&'a str>,
    pub texts: bool,
    pub filter: bool,
    pub max_table: Option<&'a str>,
    pub explain: bool,
    pub trial: Option<&'a str>,
    pub document: Option<&'a str>,
}

/// What the words give, where the command takes them.
pub fn given_in<'a>(alloc: Global, words: &'a [String]) -> Result<Given<'a>, WordsFault>
    ensures ok { IfOk result (λ given. given_view given ≡ given_by (found (map string_bytes words.entry.now))) }
    ensures taken { OnOk result (refusals (map string_bytes words.entry.now) ≡ []) }
    ensures refused { IsErrOf result WordsFault.Refused → refusals (map string_bytes words.entry.now) ≢ [] }
{
    let matches = matches_in(alloc, words)?;
    Ok(given_of(&matches))
}

fn given_of<'a>(matches: &ArgMatches<'a>) -> Given<'a>
    ensures { given_view result ≡ given_by (rows_of (found_of matches.now)) }
{
    Given {
        query: text_of(matches, "query"),
        query_name: text_of(matches, "query-name"),
        limit: text_of(matches, "limit"),
        after: text_of(matches, "after"),
        form: text_of(matches, "form"),
        texts: flag_of(matches, "texts"),
        filter: flag_of(matches, "filter"),
        max_table: text_of(matches, "max-table"),
        explain: flag_of(matches, "explain"),
        trial: text_of(matches, "trial"),
        document: text_of(matches, "document"),
    }
}

// The text that was given for an argument.
fn text_of<'a>(matches: &ArgMatches<'a>, id: &str) -> Option<&'a str>
    ensures { option_map (λ s. s.now) result ≡ text_given id.now (rows_of (found_of matches.now)) }
{
    matches.get_str(id)
}

// Whether a flag was given.
fn flag_of(matches: &ArgMatches<'_>, id: &str) -> bool
    ensures { result ≡ is_given id.now (rows_of (found_of matches.now)) }
{
    match text_of(matches, id) {
        Some(text) => text == "true",
        None => false,
    }
}
