//! The words of each call of the program.
ghost use Rattle.std.specs.Prelude.{◌≡◌, ◌≤◌, None, Some, false, true, map, string_bytes, IfOk, OnOk};
ghost use Rattle.command_words.specs.CommandLine.{command_line};
ghost use Rattle.command_words.specs.declared.line.CommandLine.TheVariants.{Make};
ghost use Rattle.generator.specs.Generator.{made_script};
ghost use Rattle.buffer_cli.specs.Bulk.{bulk_script};
ghost use Rattle.buffer_cli.specs.Words.{is_run_line, check_names, made_text};

use command_words::{CommandLine, Name, WordsRefusal, read_words};
use std::alloc::Global;

/// How many workers a command line of `run` asks for.
pub(crate) fn run_words(alloc: Global, words: &[String]) -> Result<u32, WordsRefusal>
    ensures run { OnOk result (is_run_line words.now ≡ true) }
    ensures usage { result ≡ Err WordsRefusal.Usage → is_run_line words.now ≡ false }
{
    match read_words(alloc, words) {
        Ok(CommandLine::Run { workers }) => Ok(workers),
        Ok(CommandLine::Check { .. }) => Err(WordsRefusal::Usage),
        Ok(CommandLine::Make { .. }) => Err(WordsRefusal::Usage),
        Ok(CommandLine::Bulk { .. }) => Err(WordsRefusal::Usage),
        Err(refusal) => Err(refusal),
    }
}

/// The files that a command line of `check` names.
#[derive(Drop)]
pub(crate) struct Checked {
    pub(crate) script: Name,
    pub(crate) transcript: Name,
}

/// The files that a command line of `check` names.
pub(crate) fn check_words(alloc: Global, words: &[String]) -> Result<Checked, WordsRefusal>
    ensures check { IfOk result (λ c. check_names words.now ≡ Some (c.script, c.transcript)) }
    ensures usage { result ≡ Err WordsRefusal.Usage → check_names words.now ≡ None }
{
    match read_words(alloc, words) {
        Ok(CommandLine::Check { script, transcript }) => Ok(Checked { script, transcript }),
        Ok(CommandLine::Run { .. }) => Err(WordsRefusal::Usage),
        Ok(CommandLine::Make { .. }) => Err(WordsRefusal::Usage),
        Ok(CommandLine::Bulk { .. }) => Err(WordsRefusal::Usage),
        Err(refusal) => Err(refusal),
    }
}

/// What a command line of `make` asks for.
#[derive(Clone, Copy, Debug, PartialEq, Eq)]
pub(crate) struct Making {
    /// What the script is drawn from.
    pub(crate) first: u32,
    /// The edits of each session.
    pub(crate) edits: u32,
    pub(crate) sessions: u32,
    ghost range: { (first ≤ 65535) × (edits ≤ 4096) × (sessions ≤ 8) },
}

/// What a command line of `make` asks for.
pub(crate) fn make_words(alloc: Global, words: &[String]) -> Result<Making, WordsRefusal>
    ensures make { IfOk result (λ m. command_line (map string_bytes words.now) ≡ Some (Make m.first m.edits m.sessions)) }
    ensures usage { result ≡ Err WordsRefusal.Usage → made_text words.now ≡ None }
{
    match read_words(alloc, words) {
        Ok(
            CommandLine::Make {
                first,
                edits,
                sessions,
            },
        ) => Ok(Making {
            first,
            edits,
            sessions,
        }),
        Ok(CommandLine::Run { .. }) => Err(WordsRefusal::Usage),
        Ok(CommandLine::Check { .. }) => Err(WordsRefusal::Usage),
        Ok(CommandLine::Bulk { .. }) => Err(WordsRefusal::Usage),
        Err(refusal) => Err(refusal),
    }
}

/// What a command line of `bulk` asks for.
#[derive(Clone, Copy, Debug, PartialEq, Eq)]
pub(crate) struct Bulking {
    /// What the script is drawn from.
    pub(crate) first: u32,
    pub(crate) edits: u32,
    ghost range: { (first ≤ 65535) × (edits ≤ 4096) },
}

/// What a command line of `bulk` asks for. Its workers have nothing to do yet.
pub(crate) fn bulk_words(alloc: Global, words: &[String]) -> Result<Bulking, WordsRefusal>
    ensures bulk { IfOk result (λ b. bulk_script words.now ≡ Some (made_script b.first b.edits 1)) }
    ensures usage { result ≡ Err WordsRefusal.Usage → bulk_script words.now ≡ None }
{
    match read_words(alloc, words) {
        Ok(CommandLine::Bulk { first, edits, .. }) => Ok(Bulking { first, edits }),
        Ok(CommandLine::Run { .. }) => Err(WordsRefusal::Usage),
        Ok(CommandLine::Check { .. }) => Err(WordsRefusal::Usage),
        Ok(CommandLine::Make { .. }) => Err(WordsRefusal::Usage),
        Err(refusal) => Err(refusal),
    }
}
