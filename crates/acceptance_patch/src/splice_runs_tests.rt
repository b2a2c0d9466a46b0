//! Runs of edits, each a splice of one patch, which is compared with the gaps of the run.
use crate::patch_cases::{Row, has_changes, is_patch, units};
use crate::tagged_runs::{Edit, Numbers, Way, has_gaps, spliced, way_of};
use line_text::LineText;
use patch::Patch;
use std::alloc::Global;

// An edit: offsets, and the text that is put in.
type Step = (usize, usize, &'static str);

// Whether the edits of a text, in turn, lead to the changes of these rows.
fn leads_to(alloc: Global, text: &str, steps: &[Step], rows: &[Row]) -> bool {
    match LineText::from_str(alloc, text) {
        Ok(original) => leads_on(alloc, &original, steps, rows),
        Err(_) => false,
    }
}

fn leads_on(alloc: Global, original: &LineText, steps: &[Step], rows: &[Row]) -> bool {
    match way_over(alloc, original, steps) {
        Some(way) => has_gaps(original, &way) && has_changes(alloc, &way.patch, rows),
        None => false,
    }
}

fn edit_of(alloc: Global, step: Step) -> Option<Edit> {
    let (from, to, text) = step;
    Some(Edit {
        from,
        to,
        units: units(alloc, text)?,
    })
}

// The way over edits of a text.
fn way_over(alloc: Global, original: &LineText, steps: &[Step]) -> Option<Way> {
    let mut way = way_of(alloc, original)?;
    for step in steps {
        way = way_on(alloc, original, way, *step)?;
    }
    Some(way)
}

fn way_on(alloc: Global, original: &LineText, way: Way, step: Step) -> Option<Way> {
    let edit = edit_of(alloc, step)?;
    spliced(alloc, original, way, &edit)
}

// The inverse of the patch over edits of an empty text.
fn inverse_over(alloc: Global, steps: &[Step]) -> Option<Patch> {
    let original = LineText::from_str(alloc, "").ok()?;
    let way = way_over(alloc, &original, steps)?;
    way.patch.invert().ok()
}

#[test]
fn insertion_and_its_deletion_leave_no_change(rt: HostRuntime) {
    let put_in = [([0, 0, 0, 0], "", [0, 0, 0, 1], "x")];
    assert!(rt; leads_to(rt.alloc(), "", &[(0, 0, "x")], &put_in));
    assert!(rt; leads_to(rt.alloc(), "", &[(0, 0, "x"), (0, 1, "")], &[]));
    let back = inverse_over(rt.alloc(), &[(0, 0, "x"), (0, 1, "")]);
    assert!(rt; is_patch(rt.alloc(), back, &[]));
}

#[test]
fn replacement_by_equal_units_is_a_change(rt: HostRuntime) {
    let rows = [([0, 0, 0, 2], "ab", [0, 0, 0, 2], "ab")];
    assert!(rt; leads_to(rt.alloc(), "ab", &[(0, 2, "ab")], &rows));
}

#[test]
fn insertions_and_a_deletion_join(rt: HostRuntime) {
    let two = [
        ([0, 1, 0, 1], "", [0, 1, 0, 2], "X"),
        ([0, 3, 0, 3], "", [0, 4, 0, 5], "Y"),
    ];
    assert!(rt; leads_to(rt.alloc(), "abcdef", &[(1, 1, "X"), (4, 4, "Y")], &two));
    let one = [([0, 1, 0, 3], "bc", [0, 1, 0, 3], "XY")];
    let steps = [(1, 1, "X"), (4, 4, "Y"), (2, 4, "")];
    assert!(rt; leads_to(rt.alloc(), "abcdef", &steps, &one));
}

#[test]
fn edits_at_both_ends_of_a_change_join_it(rt: HostRuntime) {
    let steps = [(2, 3, "XYZ"), (2, 2, "V"), (6, 7, "W"), (1, 2, "")];
    let rows = [([0, 1, 0, 4], "bcd", [0, 1, 0, 6], "VXYZW")];
    assert!(rt; leads_to(rt.alloc(), "abcdef", &steps, &rows));
}

// The units of which random texts and edits are.
const UNITS: [u16; 4] = [10, 13, 97, 97];

fn random_text(alloc: Global, numbers: &mut Numbers) -> Option<LineText> {
    LineText::from_units(numbers.units(alloc, 12, &UNITS)?).ok()
}

fn random_edit(alloc: Global, original: &LineText, way: Way, numbers: &mut Numbers) -> Option<Way> {
    let edit = numbers.edit(alloc, way.text.len(), &UNITS)?;
    spliced(alloc, original, way, &edit)
}

// The way over eight random edits of a text, where each of them leaves the gaps of the run.
fn gaps_over(alloc: Global, original: &LineText, numbers: &mut Numbers) -> Option<Way> {
    let mut way = way_of(alloc, original)?;
    for _ in 0..8 {
        way = random_edit(alloc, original, way, numbers)?;
        if !has_gaps(original, &way) {
            return None;
        }
    }
    Some(way)
}

// Whether each of eight random edits of a random text leaves the gaps of the run.
fn run_has_gaps(alloc: Global, numbers: &mut Numbers) -> bool {
    match random_text(alloc, numbers) {
        Some(original) => gaps_over(alloc, &original, numbers).is_some(),
        None => false,
    }
}

#[test]
fn random_edits_make_their_gaps(rt: HostRuntime) {
    let mut numbers = Numbers { state: 2026 };
    for _ in 0..300 {
        assert!(rt; run_has_gaps(rt.alloc(), &mut numbers));
    }
}
