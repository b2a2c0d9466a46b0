//! Runs of edits on a text kept unit by unit: each unit with its offset in the original text where it
//! comes from there. What a patch says of a run is compared with the gaps between these units.
use crate::patch_cases::range_of;
use line_text::LineText;
use patch::{ChangeView, Patch};
use patch_algebra::apply;
use points::{Range, Units};
use std::alloc::Global;

/// A unit, with its offset in the original text where it comes from there.
#[derive(Clone, Copy, Debug, Drop)]
pub struct Tagged {
    pub unit: u16,
    pub from: Option<usize>,
}

/// A text on its way: the patch since it was the original one, what it is, and its units with tags.
#[derive(Drop)]
pub struct Way {
    pub patch: Patch,
    pub text: LineText,
    pub tagged: Vec<Tagged>,
}

/// One edit: the units from `from` up to `to` give way to `units`.
#[derive(Drop)]
pub struct Edit {
    pub from: usize,
    pub to: usize,
    pub units: Units,
}

/// Numbers that look random.
#[derive(Drop)]
pub struct Numbers {
    pub state: u64,
}

impl Numbers {
    /// The next number below `below`, or 0 where that is 0.
    pub fn next(&mut self, below: usize) -> usize {
        self.state = self
            .state
            .wrapping_mul(6364136223846793005)
            .wrapping_add(1442695040888963407);
        if below == 0 {
            0
        } else {
            (self.state >> 33) as usize % below
        }
    }

    /// Fewer than `most` units, each one of these.
    pub fn units(&mut self, alloc: Global, most: usize, of: &[u16]) -> Option<Units> {
        let mut units = Units::new(alloc);
        for _ in 0..self.next(most) {
            let unit = of.get(self.next(of.len()))?;
            units.append(&[*unit]).ok()?;
        }
        Some(units)
    }

    /// One edit of a few units in a text of `len` units.
    pub fn edit(&mut self, alloc: Global, len: usize, of: &[u16]) -> Option<Edit> {
        let from = self.next(len.saturating_add(1));
        let to = from.saturating_add(self.next(4)).min(len);
        let units = self.units(alloc, 4, of)?;
        Some(Edit { from, to, units })
    }
}

/// The units of a text.
pub fn units_of(text: &LineText) -> &[u16] {
    text.slice(0, text.len())
}

/// A text with these units.
pub fn text_of(alloc: Global, units: &[u16]) -> Option<LineText> {
    LineText::from_units(copied(alloc, units)?).ok()
}

/// Equal units.
pub fn copied(alloc: Global, units: &[u16]) -> Option<Units> {
    let mut copy = Units::new(alloc);
    copy.append(units).ok()?;
    Some(copy)
}

/// The way of a patch, a text and its units with tags, where there are these.
pub fn way_from(patch: Option<Patch>, text: LineText, tagged: Option<Vec<Tagged>>) -> Option<Way> {
    Some(Way {
        patch: patch?,
        text,
        tagged: tagged?,
    })
}

/// The way before any edit.
pub fn way_of(alloc: Global, text: &LineText) -> Option<Way> {
    way_from(
        Some(Patch::new(alloc)),
        text_of(alloc, units_of(text))?,
        tags_of(alloc, units_of(text)),
    )
}

// The units with their offsets.
fn tags_of(alloc: Global, units: &[u16]) -> Option<Vec<Tagged>> {
    let mut tagged = Vec::new(alloc);
    for (at, unit) in units.iter().enumerate() {
        tagged
            .push(Tagged {
                unit: *unit,
                from: Some(at),
            })
            .ok()?;
    }
    Some(tagged)
}

/// The text after an edit.
pub fn text_after(alloc: Global, text: &LineText, edit: &Edit) -> Option<LineText> {
    let units = units_of(text);
    let mut new = copied(alloc, units.get(..edit.from).unwrap_or(&[]))?;
    new.append(edit.units.as_slice()).ok()?;
    new.append(units.get(edit.to..).unwrap_or(&[])).ok()?;
    LineText::from_units(new).ok()
}

/// The units with tags after an edit.
pub fn tagged_after(alloc: Global, tagged: &[Tagged], edit: &Edit) -> Option<Vec<Tagged>> {
    let mut new = Vec::new(alloc);
    new.extend_from_slice(tagged.get(..edit.from).unwrap_or(&[]))
        .ok()?;
    for unit in edit.units.as_slice() {
        new.push(Tagged {
            unit: *unit,
            from: None,
        })
        .ok()?;
    }
    new.extend_from_slice(tagged.get(edit.to..).unwrap_or(&[]))
        .ok()?;
    Some(new)
}

/// The way after an edit, by a splice of its patch.
pub fn spliced(alloc: Global, original: &LineText, way: Way, edit: &Edit) -> Option<Way> {
    let Way {
        patch,
        text,
        tagged,
    } = way;
    way_from(
        splice(alloc, patch, original, edit),
        text_after(alloc, &text, edit)?,
        tagged_after(alloc, tagged.as_slice(), edit),
    )
}

// The patch spliced by an edit of what it makes of the original text.
fn splice(alloc: Global, patch: Patch, original: &LineText, edit: &Edit) -> Option<Patch> {
    let mut patch = patch;
    let made = apply(alloc, &patch, original).ok()?;
    if edit.from > edit.to || edit.to > made.len() {
        return None;
    }
    let start = made.point_at(edit.from);
    let deleted = made.slice(edit.from, edit.to);
    match patch.splice(start, deleted, edit.units.as_slice()) {
        Ok(()) => Some(patch),
        Err(_) => None,
    }
}

/// The range between two offsets.
pub fn between(text: &LineText, from: usize, to: usize) -> Option<Range> {
    if from > to || to > text.len() {
        return None;
    }
    range_of(text.point_at(from), text.point_at(to))
}

// Whether the change takes these units of the old text and makes these of the new one.
fn is_gap(
    change: ChangeView<'_>,
    old: &LineText,
    new: &LineText,
    from: [usize; 2],
    to: [usize; 2],
) -> bool {
    between(old, from[0], from[1]) == Some(change.old_range)
        && between(new, to[0], to[1]) == Some(change.new_range)
        && Some(change.old_text) == units_of(old).get(from[0]..from[1])
        && Some(change.new_text) == units_of(new).get(to[0]..to[1])
}

// Whether the change with this index is that gap.
fn has_gap(original: &LineText, way: &Way, index: usize, from: [usize; 2], to: [usize; 2]) -> bool {
    match way.patch.change(index) {
        Some(change) => is_gap(change, original, &way.text, from, to),
        None => false,
    }
}

/// Whether the patch of the way has exactly the gaps between its tagged units.
pub fn has_gaps(original: &LineText, way: &Way) -> bool {
    let mut found = 0usize;
    let mut old_end = 0usize;
    let mut new_end = 0usize;
    for at in 0..=way.tagged.len() {
        let next = match way.tagged.get(at) {
            Some(tag) => match tag.from {
                Some(from) => from,
                None => continue,
            },
            None => original.len(),
        };
        if next > old_end || at > new_end {
            if !has_gap(original, way, found, [old_end, next], [new_end, at]) {
                return false;
            }
            found = found.saturating_add(1);
        }
        old_end = next.saturating_add(1);
        new_end = at.saturating_add(1);
    }
    found == way.patch.count()
}
