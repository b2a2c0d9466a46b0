//! Reading the words.
ghost use Rattle.std.specs.Prelude.{◌≡◌, None, Some, map, string_bytes, ◌≤◌, option_map, IfOk, IfSome, IsErr};
ghost use Rattle.clap.specs.declared.error.kind.ErrorKind.TheVariants.{OutOfMemory};
ghost use Rattle.clap.specs.Walk.{first_of};
ghost use Rattle.clap.specs.Words.{kind_of, found_of, rows_of, subcommand_rows_of};
ghost use Rattle.command_words.specs.CommandLine.{number_at, run_line, bulk_line, check_line, make_line, line_of, command_line, IsInRange};

use crate::command::command;
use crate::line::{CommandLine, WordsRefusal};
use crate::name::Name;
use crate::number::number_in;
use clap::error::ErrorKind;
use clap::{ArgMatches, Error};
use std::alloc::{AllocError, Global};

/// What these words ask for. They are those behind the program's name.
pub fn read_words(alloc: Global, words: &[String]) -> Result<CommandLine, WordsRefusal>
    ensures line { IfOk result (λ line. command_line (map string_bytes words.now) ≡ Some line) }
    ensures range { IfOk result IsInRange }
    ensures usage { result ≡ Err WordsRefusal.Usage → command_line (map string_bytes words.now) ≡ None }
    ensures refused { command_line (map string_bytes words.now) ≡ None → IsErr result }
{
    let Ok(command) = command(alloc) else {
        return Err(WordsRefusal::NoMemory);
    };
    match command.try_get_matches_from(words) {
        Ok(matches) => match line_of(alloc, &matches) {
            Ok(Some(line)) => Ok(line),
            Ok(None) => Err(WordsRefusal::Usage),
            Err(_) => Err(WordsRefusal::NoMemory),
        },
        Err(error) => Err(refusal_of(&error)),
    }
}

// What an error of the parse says of the words.
fn refusal_of(error: &Error) -> WordsRefusal
    ensures { (result ≡ WordsRefusal.Usage) → ¬ (kind_of error.now ≡ OutOfMemory) }
{
    match error.kind() {
        ErrorKind::OutOfMemory => WordsRefusal::NoMemory,
        _ => WordsRefusal::Usage,
    }
}

// What the matches ask for, where their numbers are in range.
fn line_of(alloc: Global, matches: &ArgMatches<'_>) -> Result<Option<CommandLine>, AllocError>
    ensures line { IfOk result (λ line. line ≡ line_of (subcommand_rows_of matches.now)) }
    ensures range { IfOk result (λ line. IfSome line IsInRange) }
{
    let Some((name, inner)) = matches.subcommand() else {
        return Ok(None);
    };
    if name == "run" {
        return Ok(run_line(inner));
    }
    if name == "make" {
        return Ok(make_line(inner));
    }
    if name == "check" {
        return check_line(alloc, inner);
    }
    if name == "bulk" {
        return Ok(bulk_line(inner));
    }
    Ok(None)
}

fn run_line(matches: &ArgMatches<'_>) -> Option<CommandLine>
    ensures line { result ≡ run_line (rows_of (found_of matches.now)) }
    ensures range { IfSome result IsInRange }
{
    let Some(workers) = number_at(matches, "workers", 0, 16) else {
        return None;
    };
    Some(CommandLine::Run { workers })
}

fn make_line(matches: &ArgMatches<'_>) -> Option<CommandLine>
    ensures line { result ≡ make_line (rows_of (found_of matches.now)) }
    ensures range { IfSome result IsInRange }
{
    let Some(first) = number_at(matches, "FIRST", 0, 65_535) else {
        return None;
    };
    let Some(edits) = number_at(matches, "EDITS", 1, 4_096) else {
        return None;
    };
    let Some(sessions) = number_at(matches, "SESSIONS", 1, 8) else {
        return None;
    };
    Some(CommandLine::Make {
        first,
        edits,
        sessions,
    })
}

fn bulk_line(matches: &ArgMatches<'_>) -> Option<CommandLine>
    ensures line { result ≡ bulk_line (rows_of (found_of matches.now)) }
    ensures range { IfSome result IsInRange }
{
    let Some(first) = number_at(matches, "FIRST", 0, 65_535) else {
        return None;
    };
    let Some(edits) = number_at(matches, "EDITS", 1, 4_096) else {
        return None;
    };
    let Some(workers) = number_at(matches, "WORKERS", 0, 16) else {
        return None;
    };
    Some(CommandLine::Bulk {
        first,
        edits,
        workers,
    })
}

fn check_line(alloc: Global, matches: &ArgMatches<'_>) -> Result<Option<CommandLine>, AllocError>
    ensures line { IfOk result (λ line. line ≡ check_line (rows_of (found_of matches.now))) }
    ensures range { IfOk result (λ line. IfSome line IsInRange) }
{
    let Some(script) = word_at(matches, "SCRIPT") else {
        return Ok(None);
    };
    let Some(transcript) = word_at(matches, "TRANSCRIPT") else {
        return Ok(None);
    };
    let script = Name::from_str(alloc, script)?;
    let transcript = Name::from_str(alloc, transcript)?;
    Ok(Some(CommandLine::Check { script, transcript }))
}

// The word under a name.
fn word_at<'a>(matches: &ArgMatches<'a>, name: &str) -> Option<&'a str>
    ensures { option_map (λ s. s.now) result ≡ first_of name.now (rows_of (found_of matches.now)) }
{
    matches.get_str(name)
}

// The number under a name, where it lies between these.
fn number_at(matches: &ArgMatches<'_>, name: &str, low: u32, high: u32) -> Option<u32>
    ensures number { result ≡ number_at low high name.now (rows_of (found_of matches.now)) }
    ensures low { IfSome result (λ n. low ≤ n) }
    ensures high { IfSome result (λ n. n ≤ high) }
{
    match matches.get_str(name) {
        Some(word) => number_in(word, low, high),
        None => None,
    }
}
