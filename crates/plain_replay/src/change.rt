//! What a change was, what it answers, and the changes of one call.
use points::{HitCounts, Point, Splice, Units};
use std::marker::Model;

/// A change: where the text was replaced, what stood there before it and what stands there after it.
#[derive(Debug, Drop)]
pub(crate) struct Change {
    pub(crate) start: Point,
    pub(crate) old: Units,
    pub(crate) new: Units,
}

impl Model for Change {
    ghost use Rattle.machine.specs.Machine.{Change};

    ghost Value = { Change };

    ghost view = { λ c. record { start = c.start; old = c.old; new = c.new } };
}

/// What an undo takes back: the changes of one call, in the order in which they were made.
#[derive(Debug, Drop)]
pub(crate) struct Step {
    pub(crate) changes: Vec<Change>,
}

impl Model for Step {
    ghost use Rattle.machine.specs.Machine.{Step};

    ghost Value = { Step };

    ghost view = { λ s. s.changes.items };
}

/// What a change answers: how far it reached in the text before it and after it, and how many marks it hit.
#[derive(Debug, Drop)]
pub(crate) struct Part {
    pub(crate) splice: Splice,
    pub(crate) hits: HitCounts,
}

impl Model for Part {
    ghost use Rattle.machine.specs.Machine.{Part};

    ghost Value = { Part };

    ghost view = { λ p. record { from = p.splice.start; to = p.splice.old_end; end = p.splice.new_end; hits = p.hits } };
}
