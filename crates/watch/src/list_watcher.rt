ghost use Rattle.std.specs.Prelude.{◌≡◌, ◌≤◌, [], IfOk, vec_len, vec_capacity};

use crate::watcher::{Heard, Watcher};
use patch::Change;
use points::NoMemory;
use std::alloc::Global;

/// A watcher that keeps the first changes that it hears, and counts the others.
#[derive(Drop)]
pub struct ListWatcher {
    list: Vec<Heard>,
    room: usize,
    count: u64,
    ghost fits: { room ≤ vec_capacity list },
    ghost kept: { count ≤ room → vec_len list ≡ count },
}

impl ListWatcher {
    /// A watcher that heard nothing yet and has room for so many.
    pub fn new(alloc: Global, room: usize) -> Result<Self, NoMemory>
        ensures list { IfOk result (λ w. w.list.items ≡ []) }
        ensures room { IfOk result (λ w. w.room ≡ room) }
        ensures count { IfOk result (λ w. w.count ≡ 0) }
    {
        let list = Vec::with_capacity(alloc, room)?;
        Ok(ListWatcher {
            list,
            room,
            count: 0,
        })
    }
}

impl Watcher for ListWatcher {
    ghost use Rattle.watch.specs.Listed.{heard_count, heard_list};

    ghost count_of = { heard_count };

    ghost list_of = { heard_list };

    fn changed(&mut self, change: &Change) {
        if self.count < self.room as u64 {
            let _ = self.list.push(Heard {
                start: change.old_range.start,
                old_end: change.old_range.end,
                new_end: change.new_range.end,
            });
        }
        self.count += 1;
    }

    fn count(&self) -> u64 {
        self.count
    }
}
