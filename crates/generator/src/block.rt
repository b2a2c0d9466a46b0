//! One block of a made script: an edit, and at times a snapshot that is sent away, and a squash.
ghost use Rattle.std.specs.Prelude.{◌≡◌, ◌<◌, ◌+◌, ◌++◌, IfOk, OnOk, replicate, string_bytes};
ghost use Rattle.generator.specs.Generator.{state_after, letters, drawn_edit, sent_reads, block};

use crate::drawing::Drawing;
use machine::{Command, Read, Sequence, Text};
use points::{NoMemory, Point, Range};
use std::alloc::Global;

/// Each block with a number that is a multiple of this takes a snapshot and sends it away.
const SNAPSHOT_EVERY: u32 = 16;

/// And each with a number that is a multiple of this squashes.
const SQUASH_EVERY: u32 = 64;

// A small letter so many times, `a` being number 0.
fn repeated(alloc: Global, letter: u8, times: u32) -> Result<String, NoMemory>
    requires { letter < 26 }
    ensures { IfOk result (λ text. string_bytes text ≡ replicate times (97 + letter)) }
{
    let mut text = String::new(alloc);
    for _ in 0..times {
        text.push(char::from(b'a' + letter))?;
    }
    Ok(text)
}

// The text of an edit: a letter so many times, and a line feed behind three.
fn letters(alloc: Global, letter: u8, times: u32) -> Result<Text, NoMemory>
    requires { letter < 26 }
    ensures { IfOk result (λ text. text ≡ letters letter times) }
{
    let mut text = repeated(alloc, letter, times)?;
    if times == 3 {
        text.push('\n')?;
    }
    Ok(Text::new(text))
}

// An edit in a row of the first 64, of up to three units.
fn edit(alloc: Global, drawing: &mut Drawing) -> Result<Command, NoMemory>
    ensures state { drawing.new.state ≡ state_after 5 drawing.old.state }
    ensures edit { IfOk result (λ c. c ≡ drawn_edit drawing.old.state) }
{
    let row = drawing.draw(64);
    let column = drawing.draw(16);
    let units = drawing.draw(4);
    let letter = drawing.draw(26);
    let times = 1 + drawing.draw(3);
    let start = Point { row, column };
    let end = Point {
        row,
        column: column + units,
    };
    let text = letters(alloc, letter as u8, times)?;
    Ok(Command::Edit {
        range: Range::new(start, end),
        text,
    })
}

// The reads that a snapshot is sent with.
fn reads(alloc: Global) -> Result<Sequence<Read>, NoMemory>
    ensures { IfOk result (λ reads. reads ≡ sent_reads) }
{
    let mut reads = Vec::new(alloc);
    reads.push(Read::Find {
        needle: Text::from_str(alloc, "a")?,
        limit: 1,
    })?;
    reads.push(Read::Size)?;
    Ok(Sequence::new(reads))
}

/// Adds the commands of the block with this number.
pub(crate) fn add_block(
    alloc: Global,
    number: u32,
    drawing: &mut Drawing,
    commands: &mut Vec<Command>,
) -> Result<(), NoMemory>
    requires { 0 < number }
    ensures state { drawing.new.state ≡ state_after 5 drawing.old.state }
    ensures added { OnOk result (commands.new.items ≡ commands.old.items ++ block number drawing.old.state) }
{
    let edit = edit(alloc, drawing)?;
    commands.push(edit)?;
    if number % SNAPSHOT_EVERY == 0 {
        commands.push(Command::Take { snapshot: number })?;
        commands.push(Command::Send {
            snapshot: number,
            reads: reads(alloc)?,
        })?;
    }
    if number % SQUASH_EVERY == 0 {
        commands.push(Command::Squash)?;
    }
    Ok(())
}
