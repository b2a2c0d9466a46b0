//! Replacing a part of a text between two offsets by units, as they are: nothing is clipped, and they need not be
//! well-formed. All memory is taken before anything is written.
ghost use Rattle.std.specs.Prelude.{◌≡◌, ◌+◌, ◌-◌, ◌≤◌, OnOk, OnErr, length, vec_len, vec_capacity};
ghost use Rattle.points.specs.Text.{replaced};
ghost use Rattle.line_text.specs.Starts.{starts_of};

use crate::edit::{count_feeds, edit_starts, make_room, open_gap, rows_between};
use crate::text::LineText;
use points::{MAX_UNITS, NoMemory};

impl LineText {
    /// Replaces the units from one offset up to another by these.
    pub fn put(&mut self, from: usize, to: usize, new: &[u16]) -> Result<(), NoMemory>
        requires order { from ≤ to }
        requires within { to ≤ length self.old }
        requires fits { length self.old + length new.now ≤ MAX_UNITS + (to - from) }
        ensures ok { OnOk result (self.new ≡ replaced self.old from to new.now) }
        ensures err { OnErr result (self.new ≡ self.old) }
    {
        put_units(&mut self.units, &mut self.starts, from, to, new)
    }
}

// Replaces the units from `from` up to `to`, and mends the starts.
fn put_units(
    units: &mut Vec<u16>,
    starts: &mut Vec<u32>,
    from: usize,
    to: usize,
    new: &[u16],
) -> Result<(), NoMemory>
    requires kept { starts.old.items ≡ starts_of units.old.items }
    requires short { vec_len units.old ≤ MAX_UNITS }
    requires order { from ≤ to }
    requires within { to ≤ vec_len units.old }
    requires fits { vec_len units.old + length new.now ≤ MAX_UNITS + (to - from) }
    ensures ok { OnOk result (units.new.items ≡ replaced units.old.items from to new.now) }
    ensures ok_starts { OnOk result (starts.new.items ≡ starts_of units.new.items) }
    ensures err { OnErr result (units.new.items ≡ units.old.items) }
    ensures err_starts { OnErr result (starts.new.items ≡ starts.old.items) }
{
    let feeds = count_feeds(new);
    let (first, last) = rows_between(units.as_slice(), starts.as_slice(), from, to);
    make_room(units, new.len(), to - from)?;
    make_room(starts, feeds, last - first)?;
    copy_into(units, from, to, new);
    edit_starts(starts, first, last, feeds, new, from as u32, to as u32);
    Ok(())
}

// Writes these units in place of those from `from` up to `to`. There is room for them already.
fn copy_into(units: &mut Vec<u16>, from: usize, to: usize, new: &[u16])
    requires order { from ≤ to }
    requires within { to ≤ vec_len units.old }
    requires room { vec_len units.old + length new.now ≤ vec_capacity units.old + (to - from) }
    ensures { units.new.items ≡ replaced units.old.items from to new.now }
{
    open_gap(units, from, to, new.len(), 0);
    units[from..from + new.len()].copy_from_slice(new);
}
