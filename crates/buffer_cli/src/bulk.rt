//! The call `bulk`: it runs a script that is made from a number, and sums its transcript up.
ghost use Rattle.std.specs.Prelude.{◌≡◌, ◌≤◌, length, string_bytes, Some, IfOk};
ghost use Rattle.std.specs.List.{AllByRecursion};
ghost use Rattle.outer.specs.Count.{Rose};
ghost use Rattle.generator.specs.Generator.{made_script};
ghost use Rattle.machine.specs.Answers.{opening_text};
ghost use Rattle.points.specs.Text.{utf16_of};
ghost use Rattle.watch.specs.Listed.{heard_count};
ghost use Rattle.buffer_cli.specs.Bulk.{bulk_script, IsSummed, IsText, Sums};

use crate::answer::perform_unsaved;
use crate::output::write_all;
use crate::status::Status;
use crate::words::{Bulking, bulk_words};
use command_words::WordsRefusal;
use generator::laws::{
    made_script_has_no_patterns, made_script_has_no_saves, made_script_is_within_limits,
};
use generator::{make_script, summary};
use machine::{Opening, Script};
use outer::{LiteralMatcher, Sink};
use points::NoMemory;
use std::alloc::Global;
use watch::ListWatcher;

/// Runs the script of one session that the words ask for, and writes the five lines of its summary. The words are those behind the
/// program's name; the workers that they ask for have nothing to do yet. None of the watchers has heard a change; no made script has a use for them.
pub fn run_bulk<O: Sink>(
    alloc: Global,
    words: &[String],
    output: &mut O,
    watchers: Vec<Box<ListWatcher>>,
) -> Status
    requires watchers { length watchers.items ≡ 64 }
    requires unheard { AllByRecursion (λ w. heard_count w.value ≡ 0) watchers.items }
    // The status says what was written: on Done the summary of a transcript that is lawful for the made script, and nothing where it
    // isn't WriteFault. Usage comes only where the words are no command line of `bulk`, which then comes unless memory ran out.
    ensures outcome { Sums result (bulk_script words.now) (O.taken output.old) (O.taken output.new) }

    ensures output_count { O.faults output.old ≤ O.faults output.new }
    ensures write_fault { result ≡ Status.WriteFault → Rose (O.faults output.old) (O.faults output.new) }
{
    let bulking = match bulk_words(alloc, words) {
        Ok(bulking) => bulking,
        Err(WordsRefusal::Usage) => return Status::Usage,
        Err(WordsRefusal::NoMemory) => return Status::NoMemory,
    };
    let Ok(text) = summed(alloc, bulking, watchers) else {
        return Status::NoMemory;
    };
    match write_all(output, text.as_bytes()) {
        Ok(()) => Status::Done,
        Err(_) => Status::WriteFault,
    }
}

// The summary of a lawful transcript of the made script.
fn summed(
    alloc: Global,
    bulking: Bulking,
    watchers: Vec<Box<ListWatcher>>,
) -> Result<String, NoMemory>
    requires watchers { length watchers.items ≡ 64 }
    requires unheard { AllByRecursion (λ w. heard_count w.value ≡ 0) watchers.items }
    ensures { IfOk result (λ text. IsSummed (made_script bulking.first bulking.edits 1) (string_bytes text)) }
{
    made_script_is_within_limits();
    made_script_has_no_patterns();
    made_script_has_no_saves();
    let script = make_script(alloc, bulking.first, bulking.edits, 1)?;
    let matchers: Vec<LiteralMatcher> = Vec::new(alloc);
    let transcript = perform_unsaved(alloc, &script, opening_of(&script), matchers, watchers)?;
    let summary = summary(&transcript);
    Ok(format!(in alloc; "{summary}")?)
}

// The text that a script opens with.
fn opening_of(script: &Script) -> &str
    requires { IsText script.now.opening }
    ensures { opening_text script.now.opening ≡ Some (utf16_of result.now) }
{
    match &script.opening {
        Opening::Text { text } => text.as_str(),
        Opening::File { .. } => unreachable!(),
    }
}
