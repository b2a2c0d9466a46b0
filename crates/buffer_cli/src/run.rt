//! The top call: it reads the script and the file that it opens, answers it and writes the transcript. Its contract is what the
//! program promises.
ghost use Rattle.std.specs.Prelude.{◌≡◌, ◌⊎◌, ℕ, ◌≤◌, List, length, true, false, IfSome};
ghost use Rattle.std.specs.List.{AllByRecursion};
ghost use Rattle.outer.specs.Count.{Rose};
ghost use Rattle.outer.specs.Source.{Gives};
ghost use Rattle.watch.specs.Listed.{heard_count};
ghost use Rattle.buffer_cli.specs.Words.{is_run_line};
ghost use Rattle.buffer_cli.specs.Run.{Explains, expected, of_answer, refuses_pattern};

use crate::answer::{Unanswered, answer};
use crate::input::{InputFault, read_to_end};
use crate::output::write_all;
use crate::status::Status;
use crate::words::run_words;
use command_words::WordsRefusal;
use outer::{Folder, PatternMaker, Sink, Source};
use std::alloc::Global;
use watch::ListWatcher;

/// Runs the script that the input holds, and writes its transcript to the output.
/// The words are those behind the program's name; the workers that they ask for have nothing to do yet. A file that the script
/// opens is fetched from `folder`, and the files that it saves are put there once all is answered. `patterns` makes the matchers of the script's patterns. The k-th `watch` of the script attaches
/// the k-th of the watchers, none of which has heard a change yet.
pub fn run_script<I: Source, O: Sink, F: Folder, P: PatternMaker>(
    alloc: Global,
    words: &[String],
    input: &mut I,
    output: &mut O,
    folder: &mut F,
    patterns: &mut P,
    watchers: Vec<Box<ListWatcher>>,
) -> Status
    requires watchers { length watchers.items ≡ 64 }
    requires unheard { AllByRecursion (λ w. heard_count w.value ≡ 0) watchers.items }
    // Each status has its cause in the bytes that were read and in what the output took. On Done the
    // input was read to its end, and the output took the text of a transcript that is lawful for the
    // script whose bytes were read, by the hits that the maker tells of its patterns, over the text that the
    // script opens with: its own, or that of the file that it names. Each name that it saves under then holds the whole encoding of
    // the text that the snapshot had at its taking; no other file of the folder is changed.
    ensures outcome { (bytes : List ℕ) × Gives bytes (I.left input.old) (I.left input.new)
        × Explains result (record {
          bytes = bytes;
          left = I.left input.new;
          tells = P.hits patterns.old;
          last = P.refused patterns.new;
          files = F.files folder.old;
          files_after = F.files folder.new;
          before = O.taken output.old;
          after = O.taken output.new;
        }) }

    // Usage comes exactly where the words are no command line of `run`, unless memory ran out.
    ensures usage { result ≡ Status.Usage → is_run_line words.now ≡ false }
    ensures no_line { is_run_line words.now ≡ false → (result ≡ Status.Usage) ⊎ (result ≡ Status.NoMemory) }

    // A fault is one of the outside.
    ensures input_count { I.faults input.old ≤ I.faults input.new }
    ensures output_count { O.faults output.old ≤ O.faults output.new }
    ensures pattern_count { P.refusals patterns.old ≤ P.refusals patterns.new }
    ensures load_count { F.loads folder.old ≤ F.loads folder.new }
    ensures save_count { F.saves folder.old ≤ F.saves folder.new }
    ensures read_fault { result ≡ Status.ReadFault → Rose (I.faults input.old) (I.faults input.new) }
    ensures write_fault { result ≡ Status.WriteFault → Rose (O.faults output.old) (O.faults output.new) }

    ensures save_fault { result ≡ Status.SaveFault → Rose (F.saves folder.old) (F.saves folder.new) }

    ensures load_fault { result ≡ Status.LoadFault → Rose (F.loads folder.old) (F.loads folder.new) }

    ensures pattern_refused { refuses_pattern result ≡ true → Rose (P.refusals patterns.old) (P.refusals patterns.new) }

    // Where nothing fails, the status is the one that the input asks for, unless memory ran out. Where the script opens a
    // file, that rests on the files that the folder tells.
    ensures complete { is_run_line words.now ≡ true → IfSome (I.left input.old) (λ bytes. IfSome (expected bytes (F.files folder.old)) (λ status.
        ¬ Rose (I.faults input.old) (I.faults input.new) → ¬ Rose (O.faults output.old) (O.faults output.new)
        → ¬ Rose (F.loads folder.old) (F.loads folder.new) → ¬ Rose (F.saves folder.old) (F.saves folder.new) → ¬ Rose (P.refusals patterns.old) (P.refusals patterns.new)
        → (result ≡ status) ⊎ (result ≡ Status.NoMemory))) }
{
    let _workers = match run_words(alloc, words) {
        Ok(workers) => workers,
        Err(WordsRefusal::Usage) => return Status::Usage,
        Err(WordsRefusal::NoMemory) => return Status::NoMemory,
    };
    let bytes = match read_to_end(alloc, input) {
        Ok(bytes) => bytes,
        Err(InputFault::Failed) => return Status::ReadFault,
        Err(InputFault::TooLong) => return Status::InputTooLong,
        Err(InputFault::NoMemory) => return Status::NoMemory,
    };
    match answer(alloc, bytes, folder, patterns, watchers) {
        Ok(text) => match write_all(output, text.as_slice()) {
            Ok(()) => Status::Done,
            Err(_) => Status::WriteFault,
        },
        Err(why) => status_of(why),
    }
}

// The status of a script that has no answer.
fn status_of(why: Unanswered) -> Status
    ensures { result ≡ of_answer why }
{
    match why {
        Unanswered::ScriptRefused {
            session,
            command,
            why,
        } => Status::ScriptRefused {
            session,
            command,
            why,
        },
        Unanswered::PatternRefused { session, command } => {
            Status::PatternRefused { session, command }
        }
        Unanswered::SaveFault => Status::SaveFault,
        Unanswered::LoadFault => Status::LoadFault,
        Unanswered::InputTooLong => Status::InputTooLong,
        Unanswered::TextTooLong => Status::TextTooLong,
        Unanswered::NoMemory => Status::NoMemory,
    }
}
