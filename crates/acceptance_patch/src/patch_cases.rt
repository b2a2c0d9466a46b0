//! Changes and patches as tables of tests write them.
use patch::{Change, ChangeView, ListRefusal, Patch};
use points::{Point, Range, Units};
use std::alloc::Global;

/// A change: its old range by row and column and its old text, and the same on the new side.
pub type Row = ([u32; 4], &'static str, [u32; 4], &'static str);

/// The point with these coordinates.
pub fn at(row: u32, column: u32) -> Point {
    Point { row, column }
}

/// The range with these coordinates, where they are in order.
pub fn range(ends: [u32; 4]) -> Option<Range> {
    range_of(at(ends[0], ends[1]), at(ends[2], ends[3]))
}

/// The range between two points, where they are in order.
pub fn range_of(start: Point, end: Point) -> Option<Range> {
    if start > end {
        return None;
    }
    Some(Range::new(start, end))
}

/// The change of a row.
pub fn change(alloc: Global, row: Row) -> Option<Change> {
    let (old, old_text, new, new_text) = row;
    change_of(
        range(old)?,
        range(new)?,
        units(alloc, old_text)?,
        units(alloc, new_text),
    )
}

/// The change of these ranges and units, where there are new ones.
pub fn change_of(
    old_range: Range,
    new_range: Range,
    old_text: Units,
    new_text: Option<Units>,
) -> Option<Change> {
    Some(Change {
        old_range,
        new_range,
        old_text,
        new_text: new_text?,
    })
}

/// The units of a text.
pub fn units(alloc: Global, text: &str) -> Option<Units> {
    Units::from_str(alloc, text).ok()
}

// The changes of rows.
fn changes(alloc: Global, rows: &[Row]) -> Option<Vec<Change>> {
    let mut changes = Vec::new(alloc);
    for row in rows {
        changes.push(change(alloc, *row)?).ok()?;
    }
    Some(changes)
}

/// The patch of rows.
pub fn patch_of(alloc: Global, rows: &[Row]) -> Option<Patch> {
    Patch::from_changes(changes(alloc, rows)?).ok()
}

/// Whether this is said against the list of rows, or nothing.
pub fn has_fault(alloc: Global, rows: &[Row], fault: Option<ListRefusal>) -> bool {
    match changes(alloc, rows) {
        Some(changes) => Patch::from_changes(changes).err() == fault,
        None => false,
    }
}

/// Whether the patch has exactly the changes of these rows.
pub fn has_changes(alloc: Global, patch: &Patch, rows: &[Row]) -> bool {
    let mut found = 0usize;
    for change in patch.changes() {
        if found >= rows.len() || !is_change(alloc, change, rows[found]) {
            return false;
        }
        found = found.saturating_add(1);
    }
    found == rows.len() && patch.count() == found && patch.change(found).is_none()
}

// Whether the change is that of a row.
fn is_change(alloc: Global, change: ChangeView<'_>, row: Row) -> bool {
    let (old, old_text, new, new_text) = row;
    is_range(change.old_range, old)
        && is_range(change.new_range, new)
        && is_text(alloc, change.old_text, old_text)
        && is_text(alloc, change.new_text, new_text)
}

fn is_range(found: Range, ends: [u32; 4]) -> bool {
    found.start == at(ends[0], ends[1]) && found.end == at(ends[2], ends[3])
}

// Whether these are the units of a text.
fn is_text(alloc: Global, found: &[u16], text: &str) -> bool {
    match units(alloc, text) {
        Some(units) => found == units.as_slice(),
        None => false,
    }
}

/// Whether there is a patch, and it has exactly the changes of these rows.
pub fn is_patch(alloc: Global, patch: Option<Patch>, rows: &[Row]) -> bool {
    match patch {
        Some(patch) => has_changes(alloc, &patch, rows),
        None => false,
    }
}
