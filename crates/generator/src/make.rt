//! From the number that is drawn from to the script.
ghost use Rattle.std.specs.Prelude.{◌≡◌, ◌<◌, ◌≤◌, ◌*◌, IfOk};
ghost use Rattle.generator.specs.Generator.{state_after, blocks, made_sessions, made_script};

use crate::block::add_block;
use crate::drawing::Drawing;
use machine::{Command, Opening, Script, Sequence, Text};
use points::NoMemory;
use std::alloc::Global;

// One session of so many blocks.
fn session(alloc: Global, edits: u32, drawing: &mut Drawing) -> Result<Sequence<Command>, NoMemory>
    requires { edits ≤ 4096 }
    ensures state { IfOk result (λ _. drawing.new.state ≡ state_after (5 * edits) drawing.old.state) }
    ensures commands { IfOk result (λ commands. commands ≡ blocks drawing.old.state edits) }
{
    let mut commands = Vec::new(alloc);
    for block in 0..edits {
        add_block(alloc, block + 1, drawing, &mut commands)?;
    }
    Ok(Sequence::new(commands))
}

/// The script that is made from `first`, with so many sessions, each with so many blocks of commands, one edit a block.
/// One state runs through all sessions. Blocks are numbered from 1 in each session: each 16th takes a snapshot and sends it to the
/// workers, each 64th squashes.
pub fn make_script(alloc: Global, first: u32, edits: u32, sessions: u32) -> Result<Script, NoMemory>
    requires first { first ≤ 65535 }
    requires edits { edits ≤ 4096 }
    requires sessions { sessions ≤ 8 }
    ensures { IfOk result (λ script. script ≡ made_script first edits sessions) }
{
    let mut drawing = Drawing::new(first);
    let mut made = Vec::new(alloc);
    for _ in 0..sessions {
        made.push(session(alloc, edits, &mut drawing)?)?;
    }
    Ok(Script {
        version: 1,
        opening: Opening::Text {
            text: Text::from_str(alloc, "abc\ndef\n")?,
        },
        sessions: Sequence::new(made),
    })
}
