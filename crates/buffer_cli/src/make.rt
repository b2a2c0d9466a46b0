//! The call `make`: it writes a script that is made from a number.
ghost use Rattle.std.specs.Prelude.{◌≡◌, ◌≤◌, Some, IfOk, map, string_bytes};
ghost use Rattle.outer.specs.Count.{Rose};
ghost use Rattle.generator.specs.Generator.{made_script};
ghost use Rattle.script_writer.specs.ScriptText.{script_text};
ghost use Rattle.buffer_cli.specs.Words.{made_text, Makes};

use crate::output::write_all;
use crate::status::Status;
use crate::words::{Making, make_words};
use command_words::WordsRefusal;
use generator::make_script;
use outer::Sink;
use points::NoMemory;
use script_writer::script_bytes;
use std::alloc::Global;

/// Makes the script that the words ask for, and writes its text. The words are those behind the program's name.
pub fn run_make<O: Sink>(alloc: Global, words: &[String], output: &mut O) -> Status
    // The status says what was written: on Done the text of the made script, and nothing where it isn't WriteFault.
    // Usage comes only where the words are no command line of `make`, which then comes unless memory ran out.
    ensures outcome { Makes result (made_text words.now) (O.taken output.old) (O.taken output.new) }

    ensures output_count { O.faults output.old ≤ O.faults output.new }
    ensures write_fault { result ≡ Status.WriteFault → Rose (O.faults output.old) (O.faults output.new) }
{
    let making = match make_words(alloc, words) {
        Ok(making) => making,
        Err(WordsRefusal::Usage) => return Status::Usage,
        Err(WordsRefusal::NoMemory) => return Status::NoMemory,
    };
    let Ok(text) = made(alloc, making) else {
        return Status::NoMemory;
    };
    match write_all(output, text.as_slice()) {
        Ok(()) => Status::Done,
        Err(_) => Status::WriteFault,
    }
}

// The text of the made script.
fn made(alloc: Global, making: Making) -> Result<Vec<u8>, NoMemory>
    ensures { IfOk result (λ text. text.items ≡ script_text (made_script making.first making.edits making.sessions)) }
{
    let script = make_script(alloc, making.first, making.edits, making.sessions)?;
    script_bytes(alloc, &script)
}
