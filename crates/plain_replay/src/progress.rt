//! Edits of a text, one after the other.
ghost use Rattle.std.specs.Prelude.{◌≡◌, ◌-◌, ◌<◌, ◌≤◌, ◌^◌, ◌==◌, ◌&&◌, [], length, map, nat_lt, IfOk};
ghost use Rattle.points.specs.Text.{replaced, utf16_of};
ghost use Rattle.points.specs.declared.limits.TheConstants.{MAX_UNITS};
ghost use Rattle.machine.specs.Machine.{nothing_made, one_made, member, members, joined};
ghost use Rattle.machine.specs.Answers.{edit_of};

use crate::body::Body;
use crate::change::{Change, Part};
use crate::clip::{point_at, span};
use machine::BatchEdit;
use points::{HitCounts, MAX_UNITS, NoMemory, Range, Splice, Units};
use std::marker::Model;

/// How far a list of edits is: what the text became, the changes made, and what they answer.
#[derive(Debug, Drop)]
pub(crate) struct Progress {
    pub(crate) body: Body,
    pub(crate) made: Vec<Change>,
    pub(crate) parts: Vec<Part>,
}

impl Model for Progress {
    ghost use Rattle.machine.specs.Machine.{Progress};

    ghost Value = { Progress };

    ghost view = { λ p. record { state = p.body; made = p.made.items; parts = p.parts.items } };
}

impl Progress {
    /// What was made before, and then this.
    fn joined(self, later: Progress) -> Result<Progress, NoMemory>
        ensures { IfOk result (λ p. p ≡ joined self later) }
    {
        let Progress {
            body: _,
            mut made,
            mut parts,
        } = self;
        let Progress {
            body,
            made: mut later_made,
            parts: mut later_parts,
        } = later;
        made.append(&mut later_made)?;
        parts.append(&mut later_parts)?;
        Ok(Progress { body, made, parts })
    }
}

/// Edits in turn, one call of this function for each. It answers none where a text would be too long.
pub(crate) fn members(body: &Body, edits: &[BatchEdit]) -> Result<Option<Progress>, NoMemory>
    requires { body.now.count < 2 ^ 57 }
    ensures { IfOk result (λ p. p ≡ members body.now (map edit_of edits.now)) }
{
    let [edit, later @ ..] = edits else {
        return Ok(Some(none_made(body)?));
    };
    let Some(first) = member(body, edit.range, edit.text.as_str())? else {
        return Ok(None);
    };
    let Some(rest) = members(&first.body, later)? else {
        return Ok(None);
    };
    Ok(Some(first.joined(rest)?))
}

// No edit.
fn none_made(body: &Body) -> Result<Progress, NoMemory>
    ensures { IfOk result (λ p. p ≡ record { state = body.now; made = []; parts = [] }) }
{
    let alloc = body.alloc();
    Ok(Progress {
        body: body.copy()?,
        made: Vec::new(alloc),
        parts: Vec::new(alloc),
    })
}

/// One edit. It answers none where the text would be too long.
pub(crate) fn member(body: &Body, range: Range, text: &str) -> Result<Option<Progress>, NoMemory>
    requires { body.now.count < 2 ^ 57 }
    ensures { IfOk result (λ p. p ≡ member body.now (range, utf16_of text.now)) }
{
    let new = Units::from_str(body.alloc(), text)?;
    let (from, to) = span(body.text(), range);
    if changes_nothing(from, to, new.as_slice()) {
        return Ok(Some(nothing_made(body, from)?));
    }
    if is_too_long(body.text(), from, to, new.as_slice()) {
        return Ok(None);
    }
    Ok(Some(one_made(body, from, to, new)?))
}

// Whether an edit from one offset up to another leaves everything as it was.
fn changes_nothing(from: usize, to: usize, new: &[u16]) -> bool
    ensures { result ≡ ((from == to) && (length new.now == 0)) }
{
    from == to && new.is_empty()
}

// Whether the text would be too long.
fn is_too_long(units: &[u16], from: usize, to: usize, new: &[u16]) -> bool
    requires order { from ≤ to }
    requires within { to ≤ length units.now }
    requires short { length units.now ≤ MAX_UNITS }
    ensures { result ≡ nat_lt MAX_UNITS (length (replaced units.now from to new.now)) }
{
    new.len() > MAX_UNITS - (units.len() - (to - from))
}

// The edit that changes nothing.
fn nothing_made(body: &Body, at: usize) -> Result<Progress, NoMemory>
    requires { at ≤ length body.now.text }
    ensures { IfOk result (λ p. p ≡ nothing_made body.now at) }
{
    let point = point_at(body.text(), at);
    let splice = Splice {
        start: point,
        old_end: point,
        new_end: point,
    };
    let mut none = none_made(body)?;
    let hits = HitCounts::default();
    none.parts.push(Part { splice, hits })?;
    Ok(none)
}

// The edit of the units from one offset up to another.
fn one_made(body: &Body, from: usize, to: usize, new: Units) -> Result<Progress, NoMemory>
    requires order { from ≤ to }
    requires within { to ≤ length body.now.text }
    requires short { length (replaced body.now.text from to new) ≤ MAX_UNITS }
    requires count { body.now.count < 2 ^ 57 }
    ensures { IfOk result (λ p. p ≡ one_made body.now from to new) }
{
    let alloc = body.alloc();
    let (changed, part) = body.changed(from, to, new.as_slice())?;
    let mut old = Units::new(alloc);
    old.append(&body.text()[from..to])?;
    let start = part.splice.start;
    Ok(Progress {
        body: changed,
        made: vec![in alloc; Change { start, old, new }]?,
        parts: vec![in alloc; part]?,
    })
}
