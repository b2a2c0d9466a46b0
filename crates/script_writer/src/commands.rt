//! The commands of a script as JSON: one form each.
ghost use Rattle.std.specs.Prelude.{◌≡◌, codes, OnOk};
ghost use Rattle.machine.specs.declared.command.Command.TheVariants as command;
ghost use Rattle.serde_json.specs.Data.{no_members, member};
ghost use Rattle.script.specs.ScriptValue.{how_word, command_value, doing, session_value};
ghost use Rattle.script.specs.Written.{IsAbove, WritesValue};

use crate::parts::{Ends, Part, Parts, Word};
use json::Writer;
use machine::{Command, How, Sequence};
use points::Range;
use script::values::{HasValue, write_member, write_one, write_three, write_two};
use std::alloc::AllocError;

// The word of a find of marks.
fn how_word(how: How) -> Word
    ensures { result.text.now ≡ how_word how }
{
    let text = match how {
        How::Intersecting => "intersecting",
        How::Containing => "containing",
        How::ContainedIn => "contained_in",
        How::StartingIn => "starting_in",
        How::StartingAt => "starting_at",
        How::EndingIn => "ending_in",
        How::EndingAt => "ending_at",
    };
    Word { text }
}

// ---- commands by the members beside their word

// None.
fn write_bare(text: &'static str, out: &mut Writer) -> Result<(), AllocError>
    ensures { OnOk result (WritesValue out.old out.new (doing text.now no_members)) }
{
    write_one("do", &Word { text }, out)
}

// One, whose key stands behind `do`.
fn write_with<A: HasValue>(
    text: &'static str,
    key: &str,
    a: &A,
    out: &mut Writer,
) -> Result<(), AllocError>
    requires { IsAbove (codes "do") key.now }
    ensures { OnOk result (WritesValue out.old out.new
        (doing text.now (member key.now (A.HasValue.json a.now) no_members))) }
{
    write_two("do", &Word { text }, key, a, out)
}

// Two, whose keys stand behind `do`.
fn write_with_two<A: HasValue, B: HasValue>(
    text: &'static str,
    key: &str,
    a: &A,
    other: &str,
    b: &B,
    out: &mut Writer,
) -> Result<(), AllocError>
    requires first { IsAbove (codes "do") key.now }
    requires second { IsAbove (codes "do") other.now }
    requires third { IsAbove key.now other.now }
    ensures { OnOk result (WritesValue out.old out.new (doing text.now
        (member key.now (A.HasValue.json a.now) (member other.now (B.HasValue.json b.now) no_members)))) }
{
    write_three("do", &Word { text }, key, a, other, b, out)
}

// A mark.
fn write_mark(id: &u32, range: &Range, exclusive: &bool, out: &mut Writer) -> Result<(), AllocError>
    ensures { OnOk result (WritesValue out.old out.new
        (command_value (command.Mark id.now range.now exclusive.now))) }
{
    out.begin_object()?;
    write_member("do", &Word { text: "mark" }, out)?;
    write_member("exclusive", exclusive, out)?;
    write_member("id", id, out)?;
    write_member("range", &Ends { of: range }, out)?;
    out.end_object()
}

// A mark made exclusive or inclusive.
fn write_exclusive(id: &u32, value: &bool, out: &mut Writer) -> Result<(), AllocError>
    ensures { OnOk result (WritesValue out.old out.new (command_value (command.Exclusive id.now value.now))) }
{
    write_with_two("exclusive", "id", id, "value", value, out)
}

// A find of marks.
fn write_marks(how: How, range: &Range, out: &mut Writer) -> Result<(), AllocError>
    ensures { OnOk result (WritesValue out.old out.new (command_value (command.Marks how range.now))) }
{
    let word = how_word(how);
    write_with_two("marks", "how", &word, "range", &Ends { of: range }, out)
}

// Where two marks stand to each other.
fn write_compare(a: &u32, b: &u32, out: &mut Writer) -> Result<(), AllocError>
    ensures { OnOk result (WritesValue out.old out.new (command_value (command.Compare a.now b.now))) }
{
    write_three("a", a, "b", b, "do", &Word { text: "compare" }, out)
}

impl Part for Command {
    ghost value = { command_value };

    fn write_part(&self, out: &mut Writer) -> Result<(), AllocError> {
        match self {
            Command::Edit { range, text } => {
                write_with_two("edit", "range", &Ends { of: range }, "text", text, out)
            }
            Command::Batch { edits } => write_with("batch", "edits", &Parts { of: edits }, out),
            Command::Undo => write_bare("undo", out),
            Command::Redo => write_bare("redo", out),
            Command::Text { range, limit } => {
                write_with_two("text", "limit", limit, "range", &Ends { of: range }, out)
            }
            Command::Mark {
                id,
                range,
                exclusive,
            } => write_mark(id, range, exclusive, out),
            Command::Unmark { id } => write_with("unmark", "id", id, out),
            Command::Exclusive { id, value } => write_exclusive(id, value, out),
            Command::Range { id } => write_with("range", "id", id, out),
            Command::Marks { how, range } => write_marks(*how, range, out),
            Command::Compare { a, b } => write_compare(a, b, out),
            Command::Watch { id } => write_with("watch", "id", id, out),
            Command::Unwatch { id } => write_with("unwatch", "id", id, out),
            Command::Take { snapshot } => write_with("take", "snapshot", snapshot, out),
            Command::Read { snapshot, reads } => write_with_two(
                "read",
                "reads",
                &Parts { of: reads },
                "snapshot",
                snapshot,
                out,
            ),
            Command::Send { snapshot, reads } => write_with_two(
                "send",
                "reads",
                &Parts { of: reads },
                "snapshot",
                snapshot,
                out,
            ),
            Command::Release { snapshot } => write_with("release", "snapshot", snapshot, out),
            Command::Squash => write_bare("squash", out),
        }
    }
}

// A session: its commands.
impl Part for Sequence<Command> {
    ghost value = { session_value };

    fn write_part(&self, out: &mut Writer) -> Result<(), AllocError> {
        Parts { of: self }.write(out)
    }
}
