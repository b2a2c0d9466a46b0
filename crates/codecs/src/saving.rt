//! A text written to a sink in an encoding.
ghost use Rattle.std.specs.Prelude.{◌≡◌, ◌+◌, ◌*◌, ◌^◌, ◌<◌, ◌≤◌, [], None, length, take};
ghost use Rattle.std.specs.Prelude.{IfOk, IfSome, OnOk, OnErr, IsTrue};
ghost use Rattle.std.specs.Char.Utf16.{is_high_surrogate};
ghost use Rattle.outer.specs.Count.{Rose};
ghost use Rattle.outer.specs.Sink.{Appends, AppendsPrefix};
ghost use Rattle.points.specs.Text.{IsWellFormed};
ghost use Rattle.machine.specs.Encodings.{encode};
ghost use Rattle.codecs.specs.Partway.{behind, IsFront};
ghost use Rattle.codecs.specs.Saving.{ahead, weight, IsSent, IsGiven};

use crate::encoder::Encoder;
use arrayvec::ArrayVec;
use layers::Reader;
use machine::Encoding;
use outer::{Failed, Sink};
use points::{MAX_UNITS, Point, Range};
use std::marker::Model;
use thiserror::Error;

/// A text was not saved: its sink had a fault.
#[derive(Clone, Copy, Debug, PartialEq, Eq, Error)]
#[error("cannot save")]
pub struct SaveFault;

impl From<Failed> for SaveFault {
    fn from(_fault: Failed) -> Self {
        SaveFault
    }
}

/// Puts the bytes of a reader's text to a sink, piece by piece, and sends them on. It answers how many there were, and
/// takes no memory.
pub fn save<K: Sink>(reader: &Reader, encoding: Encoding, sink: &mut K) -> Result<u64, SaveFault>
    requires { IsWellFormed reader.now.text }
    ensures count { K.faults sink.old ≤ K.faults sink.new }
    ensures bytes { IfOk result (λ n. n ≡ length (encode encoding reader.now.text)) }
    ensures saved { OnOk result (Appends (encode encoding reader.now.text) (K.taken sink.old) (K.taken sink.new)) }
    ensures cause { OnErr result (Rose (K.faults sink.old) (K.faults sink.new)) }
    ensures prefix { OnErr result (AppendsPrefix (encode encoding reader.now.text)
        (K.taken sink.old) (K.taken sink.new)) }
{
    let out = put_text(reader, encoding, sink)?;
    finish(out, sink)
}

// Takes the units of a reader's text, piece by piece.
fn put_text<K: Sink>(
    reader: &Reader,
    encoding: Encoding,
    sink: &mut K,
) -> Result<Outgoing, SaveFault>
    requires { IsWellFormed reader.now.text }
    ensures count { K.faults sink.old ≤ K.faults sink.new }
    ensures given { IfOk result (λ out.
        IsGiven reader.now.text encoding [] out (K.taken sink.old) (K.taken sink.new)) }
    ensures small { IfOk result (λ out. weight out ≤ 2 ^ 63) }
    ensures cause { OnErr result (Rose (K.faults sink.old) (K.faults sink.new)) }
    ensures prefix { OnErr result (AppendsPrefix (encode encoding reader.now.text)
        (K.taken sink.old) (K.taken sink.new)) }
{
    prove!(reader.len() <= MAX_UNITS);
    let past = Point {
        row: u32::MAX,
        column: 0,
    };
    let mut out = Outgoing::new(encoding);
    for piece in reader.pieces(Range::new(Point { row: 0, column: 0 }, past)) {
        out.take(piece, sink)?;
    }
    Ok(out)
}

// Puts what is held, sends all on, and answers how many bytes were put.
fn finish<K: Sink>(mut out: Outgoing, sink: &mut K) -> Result<u64, SaveFault>
    requires { weight out ≤ 2 ^ 63 }
    ensures count { K.faults sink.old ≤ K.faults sink.new }
    ensures bytes { IfOk result (λ n. n ≡ out.put + length out.held) }
    ensures put { OnOk result (Appends out.held (K.taken sink.old) (K.taken sink.new)) }
    ensures cause { OnErr result (Rose (K.faults sink.old) (K.faults sink.new)) }
    ensures prefix { OnErr result (AppendsPrefix out.held (K.taken sink.old) (K.taken sink.new)) }
{
    out.put_held(sink)?;
    sink.flush()?;
    Ok(out.put)
}

// An encoder with the bytes that it gave and that weren't put yet, and the number of those that were.
#[derive(Drop)]
struct Outgoing {
    encoder: Encoder,
    held: ArrayVec<u8, 4096>,
    put: u64,
}

impl Model for Outgoing {
    ghost use Rattle.codecs.specs.Saving.{Outgoing as Sending};

    ghost Value = { Sending };

    ghost view = { λ o. record { encoder = o.encoder; held = o.held.items; put = o.put } };
}

impl Outgoing {
    fn new(encoding: Encoding) -> Self
        ensures { result ≡ record { encoder = record { encoding = encoding; waits = None }; held = []; put = 0 } }
    {
        Outgoing {
            encoder: Encoder::new(encoding),
            held: ArrayVec::new(),
            put: 0,
        }
    }

    // Puts all that is held.
    fn put_held<K: Sink>(&mut self, sink: &mut K) -> Result<(), SaveFault>
        requires { weight self.old ≤ 2 ^ 63 }
        ensures count { K.faults sink.old ≤ K.faults sink.new }
        ensures ok { OnOk result (self.new
            ≡ record { encoder = self.old.encoder; held = []; put = self.old.put + length self.old.held }) }
        ensures put { OnOk result (Appends self.old.held (K.taken sink.old) (K.taken sink.new)) }
        ensures cause { OnErr result (Rose (K.faults sink.old) (K.faults sink.new)) }
        ensures failed { OnErr result (AppendsPrefix self.old.held (K.taken sink.old) (K.taken sink.new)) }
    {
        sink.put(self.held.as_slice())?;
        self.put += self.held.len() as u64;
        self.held.clear();
        Ok(())
    }

    // Takes some units from the front, and puts what is held once less than four bytes of room are left.
    fn take_some<K: Sink>(&mut self, units: &[u16], sink: &mut K) -> Result<usize, SaveFault>
        requires front { IsFront (behind self.old.encoder.waits units.now) }
        requires some { 0 < length units.now }
        requires room { length self.old.held ≤ 4092 }
        requires small { weight self.old + 4 * length units.now ≤ 2 ^ 63 }
        ensures count { K.faults sink.old ≤ K.faults sink.new }
        ensures some { IfOk result (λ n. 0 < n) }
        ensures within { IfOk result (λ n. n ≤ length units.now) }
        ensures room { OnOk result (length self.new.held ≤ 4092) }
        ensures sent { IfOk result (λ n.
            IsSent (take n units.now) self.old self.new (K.taken sink.old) (K.taken sink.new)) }
        ensures cause { OnErr result (Rose (K.faults sink.old) (K.faults sink.new)) }
        ensures failed { OnErr result (AppendsPrefix (ahead self.old units.now) (K.taken sink.old) (K.taken sink.new)) }
    {
        let taken = self.encoder.step(units, &mut self.held);
        if self.held.len() > 4092 {
            self.put_held(sink)?;
        }
        Ok(taken)
    }

    // Takes all these units.
    fn take<K: Sink>(&mut self, units: &[u16], sink: &mut K) -> Result<(), SaveFault>
        requires front { IsFront (behind self.old.encoder.waits units.now) }
        requires high { IfSome self.old.encoder.waits (λ u. IsTrue (is_high_surrogate u)) }
        requires room { length self.old.held ≤ 4092 }
        requires small { weight self.old + 4 * length units.now ≤ 2 ^ 63 }
        ensures count { K.faults sink.old ≤ K.faults sink.new }
        ensures room { OnOk result (length self.new.held ≤ 4092) }
        ensures sent { OnOk result (IsSent units.now self.old self.new (K.taken sink.old) (K.taken sink.new)) }
        ensures cause { OnErr result (Rose (K.faults sink.old) (K.faults sink.new)) }
        ensures failed { OnErr result (AppendsPrefix (ahead self.old units.now) (K.taken sink.old) (K.taken sink.new)) }
    {
        let mut at = 0;
        while at < units.len() {
            at += self.take_some(&units[at..], sink)?;
        }
        Ok(())
    }
}
