//! Writing what a document holds as JSON: numbers, texts, points and lists, objects member by member, and whole
//! documents.
ghost use Rattle.std.specs.Prelude.{◌≡◌, ◌≤◌, Some, IfOk, OnOk};
ghost use Rattle.serde_json.specs.Data.{Data, boolean, string, object, no_members, member, depth};
ghost use Rattle.serde_json.specs.Read.{max_depth};
ghost use Rattle.script.specs.ScriptDocument.{document};
ghost use Rattle.script.specs.TranscriptDocument.{whole, point_value, span_value, hits_value, list_value};
ghost use Rattle.script.specs.Written.{IsAbove, WritesValue, WritesMember, text_of_value};

use json::Writer;
use machine::{HitNumbers, Sequence, Span, Text};
use points::{NoMemory, Point};
use std::alloc::{AllocError, Global};

/// What has a JSON value, which can be written.
pub trait HasValue {
    // The JSON value.
    ghost json: { Self → Data };

    /// Writes the value, behind what was written before.
    fn write(&self, out: &mut Writer) -> Result<(), AllocError>
        ensures { OnOk result (WritesValue out.old out.new (json self.now)) };
}

/// Writes a list, with the value of each member.
pub fn write_list<T: HasValue>(members: &[T], out: &mut Writer) -> Result<(), AllocError>
    ensures { OnOk result (WritesValue out.old out.new (list_value T.HasValue.json members.now)) }
{
    out.begin_array()?;
    for member in members {
        member.write(out)?;
    }
    out.end_array()
}

/// Writes one member of an object.
pub fn write_member<T: HasValue>(key: &str, of: &T, out: &mut Writer) -> Result<(), AllocError>
    ensures { OnOk result (WritesMember out.old out.new key.now (T.HasValue.json of.now)) }
{
    out.key(key)?;
    of.write(out)
}

/// Writes an object of one member.
pub fn write_one<T: HasValue>(key: &str, of: &T, out: &mut Writer) -> Result<(), AllocError>
    ensures { OnOk result (WritesValue out.old out.new
        (object (member key.now (T.HasValue.json of.now) no_members))) }
{
    out.begin_object()?;
    write_member(key, of, out)?;
    out.end_object()
}

/// Writes an object of two members, in the order of their keys.
pub fn write_two<A: HasValue, B: HasValue>(
    key: &str,
    a: &A,
    other: &str,
    b: &B,
    out: &mut Writer,
) -> Result<(), AllocError>
    requires { IsAbove key.now other.now }
    ensures { OnOk result (WritesValue out.old out.new (object (member key.now (A.HasValue.json a.now)
        (member other.now (B.HasValue.json b.now) no_members)))) }
{
    out.begin_object()?;
    write_member(key, a, out)?;
    write_member(other, b, out)?;
    out.end_object()
}

/// Writes an object of three members, in the order of their keys.
pub fn write_three<A: HasValue, B: HasValue, C: HasValue>(
    key: &str,
    a: &A,
    other: &str,
    b: &B,
    last: &str,
    c: &C,
    out: &mut Writer,
) -> Result<(), AllocError>
    requires first { IsAbove key.now other.now }
    requires second { IsAbove key.now last.now }
    requires third { IsAbove other.now last.now }
    ensures { OnOk result (WritesValue out.old out.new (object (member key.now (A.HasValue.json a.now)
        (member other.now (B.HasValue.json b.now) (member last.now (C.HasValue.json c.now) no_members))))) }
{
    out.begin_object()?;
    write_member(key, a, out)?;
    write_member(other, b, out)?;
    write_member(last, c, out)?;
    out.end_object()
}

/// The text of a document: its compact JSON text, and one line feed. It reads back as the document's value.
pub fn document_bytes<T: HasValue>(alloc: Global, of: &T) -> Result<Vec<u8>, NoMemory>
    requires { depth (T.HasValue.json of.now) ≤ max_depth }
    ensures text { IfOk result (λ b. b.items ≡ text_of_value (T.HasValue.json of.now)) }
    ensures reads_back { IfOk result (λ b. document b.items ≡ Some (T.HasValue.json of.now)) }
{
    let mut out = Writer::new(Vec::new(alloc));
    of.write(&mut out)?;
    let mut bytes = out.into_inner();
    bytes.push(b'\n')?;
    Ok(bytes)
}

impl HasValue for u32 {
    ghost json = { whole };

    fn write(&self, out: &mut Writer) -> Result<(), AllocError> {
        out.u64(*self as u64)
    }
}

impl HasValue for u64 {
    ghost json = { whole };

    fn write(&self, out: &mut Writer) -> Result<(), AllocError> {
        out.u64(*self)
    }
}

impl HasValue for bool {
    ghost json = { boolean };

    fn write(&self, out: &mut Writer) -> Result<(), AllocError> {
        out.boolean(*self)
    }
}

impl HasValue for Text {
    ghost json = { string };

    fn write(&self, out: &mut Writer) -> Result<(), AllocError> {
        out.string(self.as_str())
    }
}

impl HasValue for Point {
    ghost json = { point_value };

    fn write(&self, out: &mut Writer) -> Result<(), AllocError> {
        write_list(&[self.row, self.column], out)
    }
}

impl HasValue for Span {
    ghost json = { span_value };

    fn write(&self, out: &mut Writer) -> Result<(), AllocError> {
        write_list(
            &[
                self.start.row,
                self.start.column,
                self.end.row,
                self.end.column,
            ],
            out,
        )
    }
}

impl HasValue for HitNumbers {
    ghost json = { hits_value };

    fn write(&self, out: &mut Writer) -> Result<(), AllocError> {
        write_list(&[self.touch, self.inside, self.overlap, self.surround], out)
    }
}

impl<T: HasValue> HasValue for Sequence<T> {
    ghost json = { list_value T.HasValue.json };

    fn write(&self, out: &mut Writer) -> Result<(), AllocError> {
        write_list(self.as_slice(), out)
    }
}
