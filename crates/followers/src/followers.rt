ghost use Rattle.std.specs.Prelude.{◌≡◌, ◌+◌, ◌-◌, ◌<◌, ◌^◌, ◌++◌, [], ◌∷◌, map, take, drop, slice_get, option_map, IfOk};
ghost use Rattle.points.specs.MarkList.{SpliceIsWithin, all_moved, hit_counts};
ghost use Rattle.machine.specs.Machine.{heard_more};
ghost use Rattle.watch.specs.Seats.{HasHeard, Stands};
ghost use Rattle.followers.specs.Following.{splice_by, step_of, steps_of, watchings, step_back, step_on};

use crate::replacement::{Replacement, back_of, copy_of};
use edit_history::Steps;
use markers::MarkerIndex;
use patch::Change;
use points::{HitCounts, MAX_COORD, MAX_STEPS, NoMemory, traversal};
use watch::{Watcher, Watchers};

/// The marks, steps and watchers of one text.
#[derive(Drop)]
pub struct Followers<W> {
    pub marks: MarkerIndex,
    pub steps: Steps,
    pub watchers: Watchers<W>,
}

impl<W: Watcher> Followers<W> {
    /// A change was made anew: the marks move, the watchers hear of it, and it can be taken back. The answer is how many
    /// marks it hits where they stood before it.
    pub fn edited(&mut self, change: Change) -> HitCounts
        requires start { change.new_range.start ≡ change.old_range.start }
        requires within { SpliceIsWithin MAX_COORD (splice_by change) self.old.marks }
        requires few { self.old.watchers.told < 2 ^ 63 - 1 }
        requires stands { Stands (HasHeard W.count_of W.list_of) self.old.watchers.told self.old.watchers.seats.items }
        ensures hits { result ≡ hit_counts (splice_by change) self.old.marks }
        ensures marks { self.new.marks ≡ all_moved (splice_by change) self.old.marks }
        ensures past { steps_of self.new.steps.past ≡ take MAX_STEPS (step_of change ∷ steps_of self.old.steps.past) }
        ensures future { steps_of self.new.steps.future ≡ [] }
        ensures watchers { watchings self.new.watchers.seats.items
            ≡ map (heard_more (splice_by change)) (watchings self.old.watchers.seats.items) }
        ensures told { self.new.watchers.told ≡ self.old.watchers.told + 1 }
        ensures stands { Stands (HasHeard W.count_of W.list_of) self.new.watchers.told self.new.watchers.seats.items }
    {
        let hits = self.follow(&change);
        let _ = self.steps.push(change);
        hits
    }

    /// The change that takes the last step back, where there is one. What it replaces stands at its start, wherever its
    /// new text ends.
    pub fn to_undo(&self) -> Result<Option<Replacement>, NoMemory>
        ensures { IfOk result (λ found. option_map step_back found ≡ slice_get (steps_of self.now.steps.past) 0) }
    {
        match self.steps.to_undo() {
            Some(step) => Ok(Some(back_of(step)?)),
            None => Ok(None),
        }
    }

    /// The change that makes the step again that was taken back last, where there is one.
    pub fn to_redo(&self) -> Result<Option<Replacement>, NoMemory>
        ensures { IfOk result (λ found. option_map step_on found ≡ slice_get (steps_of self.now.steps.future) 0) }
    {
        match self.steps.to_redo() {
            Some(step) => Ok(Some(copy_of(step)?)),
            None => Ok(None),
        }
    }

    /// The last step was taken back by this change: it can be made again. No new step is made.
    pub fn undone(&mut self, change: &Change) -> HitCounts
        requires start { change.now.new_range.start ≡ change.now.old_range.start }
        requires within { SpliceIsWithin MAX_COORD (splice_by change.now) self.old.marks }
        requires few { self.old.watchers.told < 2 ^ 63 - 1 }
        requires stands { Stands (HasHeard W.count_of W.list_of) self.old.watchers.told self.old.watchers.seats.items }
        ensures hits { result ≡ hit_counts (splice_by change.now) self.old.marks }
        ensures marks { self.new.marks ≡ all_moved (splice_by change.now) self.old.marks }
        ensures past { steps_of self.new.steps.past ≡ drop 1 (steps_of self.old.steps.past) }
        ensures future { steps_of self.new.steps.future ≡ take 1 (steps_of self.old.steps.past) ++ steps_of self.old.steps.future }
        ensures watchers { watchings self.new.watchers.seats.items
            ≡ map (heard_more (splice_by change.now)) (watchings self.old.watchers.seats.items) }
        ensures told { self.new.watchers.told ≡ self.old.watchers.told + 1 }
        ensures stands { Stands (HasHeard W.count_of W.list_of) self.new.watchers.told self.new.watchers.seats.items }
    {
        let hits = self.follow(change);
        let _ = self.steps.undo();
        hits
    }

    /// The step that was taken back last was made again by this change: it can be taken back once more.
    pub fn redone(&mut self, change: &Change) -> HitCounts
        requires start { change.now.new_range.start ≡ change.now.old_range.start }
        requires within { SpliceIsWithin MAX_COORD (splice_by change.now) self.old.marks }
        requires few { self.old.watchers.told < 2 ^ 63 - 1 }
        requires stands { Stands (HasHeard W.count_of W.list_of) self.old.watchers.told self.old.watchers.seats.items }
        ensures hits { result ≡ hit_counts (splice_by change.now) self.old.marks }
        ensures marks { self.new.marks ≡ all_moved (splice_by change.now) self.old.marks }
        ensures past { steps_of self.new.steps.past ≡ take 1 (steps_of self.old.steps.future) ++ steps_of self.old.steps.past }
        ensures future { steps_of self.new.steps.future ≡ drop 1 (steps_of self.old.steps.future) }
        ensures watchers { watchings self.new.watchers.seats.items
            ≡ map (heard_more (splice_by change.now)) (watchings self.old.watchers.seats.items) }
        ensures told { self.new.watchers.told ≡ self.old.watchers.told + 1 }
        ensures stands { Stands (HasHeard W.count_of W.list_of) self.new.watchers.told self.new.watchers.seats.items }
    {
        let hits = self.follow(change);
        let _ = self.steps.redo();
        hits
    }

    // The marks move with a change, and the watchers hear of it.
    fn follow(&mut self, change: &Change) -> HitCounts
        requires start { change.now.new_range.start ≡ change.now.old_range.start }
        requires within { SpliceIsWithin MAX_COORD (splice_by change.now) self.old.marks }
        requires few { self.old.watchers.told < 2 ^ 63 - 1 }
        requires stands { Stands (HasHeard W.count_of W.list_of) self.old.watchers.told self.old.watchers.seats.items }
        ensures hits { result ≡ hit_counts (splice_by change.now) self.old.marks }
        ensures marks { self.new.marks ≡ all_moved (splice_by change.now) self.old.marks }
        ensures steps { self.new.steps ≡ self.old.steps }
        ensures watchers { watchings self.new.watchers.seats.items
            ≡ map (heard_more (splice_by change.now)) (watchings self.old.watchers.seats.items) }
        ensures told { self.new.watchers.told ≡ self.old.watchers.told + 1 }
        ensures stands { Stands (HasHeard W.count_of W.list_of) self.new.watchers.told self.new.watchers.seats.items }
    {
        self.watchers.tell(change);
        let start = change.old_range.start;
        self.marks.splice_counts(
            start,
            traversal(change.old_range.end, start),
            traversal(change.new_range.end, start),
        )
    }
}
