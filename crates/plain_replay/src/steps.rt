//! Steps taken back and made again, one call of a function for each change. A step has as many as its call had edits.
ghost use Rattle.std.specs.Prelude.{◌≡◌, ℕ, ◌<◌, ◌^◌, ◌++◌, List, length, take, drop, slice_index_or, IfOk, OnOk, OnErr};
ghost use Rattle.machine.specs.Machine.{undone, redone};
ghost use Rattle.plain_replay.specs.Standing.{Leads};

use crate::body::Body;
use crate::change::{Change, Part, Step};
use points::NoMemory;

/// The changes of a step taken back, from the last to the first: each puts the old text in place of the new one.
pub(crate) fn undone(body: &Body, changes: &[Change]) -> Result<(Body, Vec<Part>), NoMemory>
    requires leads { (t : List ℕ) × Leads t changes.now body.now.text }
    requires count { body.now.count < 2 ^ 57 }
    ensures body { IfOk result (λ r. r.0 ≡ (undone body.now changes.now).0) }
    ensures parts { IfOk result (λ r. r.1.items ≡ (undone body.now changes.now).1) }
{
    let [change, later @ ..] = changes else {
        return Ok((body.copy()?, Vec::new(body.alloc())));
    };
    let (body, mut parts) = undone(body, later)?;
    let (body, part) = body.put(change.start, change.new.as_slice(), change.old.as_slice())?;
    parts.push(part)?;
    Ok((body, parts))
}

/// The changes of a step made again, from the first to the last.
pub(crate) fn redone(body: &Body, changes: &[Change]) -> Result<(Body, Vec<Part>), NoMemory>
    requires leads { (u : List ℕ) × Leads body.now.text changes.now u }
    requires count { body.now.count < 2 ^ 57 }
    ensures body { IfOk result (λ r. r.0 ≡ (redone body.now changes.now).0) }
    ensures parts { IfOk result (λ r. r.1.items ≡ (redone body.now changes.now).1) }
{
    let [change, later @ ..] = changes else {
        return Ok((body.copy()?, Vec::new(body.alloc())));
    };
    let (body, part) = body.put(change.start, change.old.as_slice(), change.new.as_slice())?;
    let (body, mut parts) = redone(&body, later)?;
    parts.insert(0, part)?;
    Ok((body, parts))
}

/// The changes of the first step.
pub(crate) fn first(steps: &[Step]) -> &[Change]
    requires { 0 < length steps.now }
    ensures { result.now ≡ slice_index_or steps.now 0 result.now }
{
    let step = &steps[0];
    step.changes.as_slice()
}

/// Moves the first step of one list to the front of another.
pub(crate) fn cross(from: &mut Vec<Step>, to: &mut Vec<Step>) -> Result<(), NoMemory>
    requires { 0 < length from.old.items }
    ensures from { OnOk result (from.new.items ≡ drop 1 from.old.items) }
    ensures to { OnOk result (to.new.items ≡ take 1 from.old.items ++ to.old.items) }
    ensures kept_from { OnErr result (from.new.items ≡ from.old.items) }
    ensures kept_to { OnErr result (to.new.items ≡ to.old.items) }
{
    to.reserve(1)?;
    let step = from.remove(0);
    match to.insert(0, step) {
        Ok(()) => Ok(()),
        Err(_) => unreachable!(),
    }
}
