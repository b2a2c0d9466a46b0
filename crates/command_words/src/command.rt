//! The command that `clap` reads the words by.
ghost use Rattle.std.specs.Prelude.{◌≡◌, false, IfOk};
ghost use Rattle.clap.specs.Words.{app_of, rule_of};
ghost use Rattle.clap.specs.declared.builder.command.Command.TheViews.{out-Command};
ghost use Rattle.command_words.specs.CommandLine.{top_app, words_app, run_app, bulk_app, check_app, make_app, given_rule};

use clap::{Arg, ArgAction, Command};
use std::alloc::{AllocError, Global};

/// The command: its words stand behind the program's name, and it has a subcommand for each call. It has no help of its own:
/// who asks for it gets the usage line.
pub(crate) fn command<'a>(alloc: Global) -> Result<Command<'a>, AllocError>
    ensures { IfOk result (λ command. app_of command ≡ words_app) }
{
    let run = run_command(alloc)?;
    let make = make_command(alloc)?;
    let check = check_command(alloc)?;
    let bulk = bulk_command(alloc)?;
    top_command(alloc)
        .subcommand(run)?
        .subcommand(make)?
        .subcommand(check)?
        .subcommand(bulk)
}

// The command without its subcommands.
fn top_command<'a>(alloc: Global) -> Command<'a>
    ensures { app_of result ≡ top_app }
{
    Command::new(alloc, "buffer_cli")
        .no_binary_name(true)
        .disable_help_flag(true)
        .disable_help_subcommand(true)
        .subcommand_required(true)
}

// run [--workers N]
fn run_command<'a>(alloc: Global) -> Result<Command<'a>, AllocError>
    ensures app { IfOk result (λ command. app_of command ≡ run_app) }
    ensures local { IfOk result (λ command. (out-Command command).has_globals ≡ false) }
{
    let workers = Arg::new(alloc, "workers")
        .long("workers")
        .action(ArgAction::Set)
        .default_value("4");
    Command::new(alloc, "run").arg(workers)
}

// make FIRST EDITS SESSIONS
fn make_command<'a>(alloc: Global) -> Result<Command<'a>, AllocError>
    ensures app { IfOk result (λ command. app_of command ≡ make_app) }
    ensures local { IfOk result (λ command. (out-Command command).has_globals ≡ false) }
{
    Command::new(alloc, "make")
        .arg(given(alloc, "FIRST"))?
        .arg(given(alloc, "EDITS"))?
        .arg(given(alloc, "SESSIONS"))
}

// check SCRIPT TRANSCRIPT
fn check_command<'a>(alloc: Global) -> Result<Command<'a>, AllocError>
    ensures app { IfOk result (λ command. app_of command ≡ check_app) }
    ensures local { IfOk result (λ command. (out-Command command).has_globals ≡ false) }
{
    Command::new(alloc, "check")
        .arg(given(alloc, "SCRIPT"))?
        .arg(given(alloc, "TRANSCRIPT"))
}

// bulk FIRST EDITS WORKERS
fn bulk_command<'a>(alloc: Global) -> Result<Command<'a>, AllocError>
    ensures app { IfOk result (λ command. app_of command ≡ bulk_app) }
    ensures local { IfOk result (λ command. (out-Command command).has_globals ≡ false) }
{
    Command::new(alloc, "bulk")
        .arg(given(alloc, "FIRST"))?
        .arg(given(alloc, "EDITS"))?
        .arg(given(alloc, "WORKERS"))
}

// A word that has to be there.
fn given<'a>(alloc: Global, name: &'a str) -> Arg<'a>
    ensures rule { rule_of result ≡ given_rule name.entry.now }
    ensures here { result.global ≡ false }
{
    Arg::new(alloc, name).required(true).action(ArgAction::Set)
}
