//! Patches as functions on texts: fits, apply, compose.
ghost use Rattle.std.specs.Prelude.{◌≡◌, ℕ, List, [], IfOk};
ghost use Rattle.points.specs.Point.{origin};
ghost use Rattle.patch.specs.Fit.{Fits};

use crate::patch_cases::{Row, change_of, is_patch, patch_of};
use crate::tagged_runs::{
    Edit, Numbers, Tagged, Way, between, copied, has_gaps, tagged_after, text_after, units_of,
    way_from, way_of,
};
use line_text::LineText;
use patch::laws::some_text_fits;
use patch::{Change, Patch, PatchRefusal};
use patch_algebra::{ApplyRefusal, apply, compose, fits, laws};
use points::{MAX_COORD, Point, Range, Units};
use std::alloc::Global;
use std::test::Fail;

// `bc` at column 1 to `XY`, and `f` at column 5 to nothing.
const TWO: [Row; 2] = [
    ([0, 1, 0, 3], "bc", [0, 1, 0, 3], "XY"),
    ([0, 5, 0, 6], "f", [0, 5, 0, 5], ""),
];

// What the patch of these rows makes of a text, or why it makes nothing.
fn applied(alloc: Global, rows: &[Row], text: &str) -> Option<Result<LineText, ApplyRefusal>> {
    let text = LineText::from_str(alloc, text).ok()?;
    let patch = patch_of(alloc, rows)?;
    Some(apply(alloc, &patch, &text))
}

// Whether the patch of these rows makes this of a text.
fn makes(alloc: Global, rows: &[Row], text: &str, expected: &str) -> bool {
    match applied(alloc, rows, text) {
        Some(Ok(made)) => is_text(&made, expected),
        _ => false,
    }
}

// Whether it makes nothing of a text because the change of this index doesn't fit, or makes something.
fn has_misfit(alloc: Global, rows: &[Row], text: &str, misfit: Option<usize>) -> bool {
    match applied(alloc, rows, text) {
        Some(Ok(_)) => misfit.is_none(),
        Some(Err(ApplyRefusal::DoesNotFit { change })) => misfit == Some(change),
        _ => false,
    }
}

// Whether the text is this one.
fn is_text(text: &LineText, expected: &str) -> bool {
    match text.to_text() {
        Ok(text) => text.as_str() == expected,
        Err(_) => false,
    }
}

// Whether the patch of these rows fits a text.
fn fits_text(alloc: Global, rows: &[Row], text: &str) -> Option<bool> {
    let text = LineText::from_str(alloc, text).ok()?;
    let patch = patch_of(alloc, rows)?;
    Some(fits(&patch, &text))
}

#[test]
fn applies_joined_insertions(rt: HostRuntime) {
    let one = [TWO[0]];
    assert!(rt; fits_text(rt.alloc(), &one, "abcdef") == Some(true));
    assert!(rt; makes(rt.alloc(), &one, "abcdef", "aXYdef"));
    assert!(rt; fits_text(rt.alloc(), &one, "abXdef") == Some(false));
}

#[test]
fn names_the_first_misfit(rt: HostRuntime) {
    let cases = [
        ("abcdef", None),
        ("abXdef", Some(0)),
        ("abcdeg", Some(1)),
        ("abcde", Some(1)),
        ("a\ncdef", Some(0)),
    ];
    for (text, misfit) in cases {
        assert!(rt; has_misfit(rt.alloc(), &TWO, text, misfit), "{text}");
    }
}

// The inverse of the patch of these rows.
fn inverse(alloc: Global, rows: &[Row]) -> Option<Patch> {
    patch_of(alloc, rows)?.invert().ok()
}

// Whether the patch fits the text, and makes this of it.
fn leads_back(alloc: Global, back: &Patch, made: &LineText, expected: &str) -> bool {
    match apply(alloc, back, made) {
        Ok(text) => fits(back, made) && is_text(&text, expected),
        Err(_) => false,
    }
}

fn goes_and_comes(alloc: Global, rows: &[Row], text: &str, between: &str) -> bool {
    match (applied(alloc, rows, text), inverse(alloc, rows)) {
        (Some(Ok(made)), Some(back)) => is_text(&made, between)
            && leads_back(alloc, &back, &made, text),
        _ => false,
    }
}

#[test]
fn inverse_gives_the_text_back(rt: HostRuntime) {
    assert!(rt; goes_and_comes(rt.alloc(), &TWO, "abcdefg", "aXYdeg"));
}

// The patch of both in turn, where a text fits the first and what it makes of that fits the second. Each other end is
// told as want of memory.
fn composed_on(
    alloc: Global,
    first: &Patch,
    second: &Patch,
    text: &LineText,
) -> Result<Patch, ApplyRefusal> {
    let between = apply(alloc, first, text)?;
    laws::composed_alike(first, second);
    if fits(second, &between) {
        return compose(alloc, first, second).map_err(|_| ApplyRefusal::NoMemory);
    }
    Err(ApplyRefusal::NoMemory)
}

// Whether the patches of these rows, the second on what the first makes of the text, compose to those.
fn composes(alloc: Global, text: &str, first: &[Row], second: &[Row], both: &[Row]) -> bool {
    match (patch_of(alloc, first), patch_of(alloc, second)) {
        (Some(first), Some(second)) => is_patch(
            alloc,
            patch_on(alloc, &first, &second, text),
            both,
        ),
        _ => false,
    }
}

fn patch_on(alloc: Global, first: &Patch, second: &Patch, text: &str) -> Option<Patch> {
    let text = LineText::from_str(alloc, text).ok()?;
    composed_on(alloc, first, second, &text).ok()
}

#[test]
fn insertion_and_its_deletion_compose_to_nothing(rt: HostRuntime) {
    let first = [([0, 1, 0, 1], "", [0, 1, 0, 2], "X")];
    let second = [([0, 1, 0, 2], "X", [0, 1, 0, 1], "")];
    assert!(rt; composes(rt.alloc(), "abc", &first, &second, &[]));
}

#[test]
fn insertion_beside_another_joins_it(rt: HostRuntime) {
    let first = [([0, 1, 0, 1], "", [0, 1, 0, 2], "X")];
    let second = [([0, 2, 0, 2], "", [0, 2, 0, 3], "Y")];
    let both = [([0, 1, 0, 1], "", [0, 1, 0, 3], "XY")];
    assert!(rt; composes(rt.alloc(), "abc", &first, &second, &both));
}

#[test]
fn deletion_across_changes_joins_them(rt: HostRuntime) {
    let second = [([0, 2, 0, 6], "Ydeg", [0, 2, 0, 3], "Z")];
    let both = [([0, 1, 0, 7], "bcdefg", [0, 1, 0, 3], "XZ")];
    assert!(rt; composes(rt.alloc(), "abcdefgh", &TWO, &second, &both));
    assert!(rt; makes(rt.alloc(), &both, "abcdefgh", "aXZh"));
}

// Whether it is too far to compose with the patch of a line feed before all else, which fits every text.
fn is_too_far(alloc: Global, first: &Patch) -> Result<bool, Fail> {
    let second = line_feed_first(alloc)?;
    some_text_fits(first);
    Ok(compose(alloc, first, &second).err() == Some(PatchRefusal::TooFar))
}

// A line feed put in at the start of the text.
fn line_feed(alloc: Global) -> Result<Change, Fail>
    ensures start { IfOk result (λ change. (change.old_range.start ≡ origin) × (change.old_range.end ≡ origin)) }
    ensures text { IfOk result (λ change. change.old_text ≡ []) }
{
    let start = Point { row: 0, column: 0 };
    let behind = Point { row: 1, column: 0 };
    Ok(Change {
        old_range: Range::new(start, start),
        new_range: Range::new(start, behind),
        old_text: Units::new(alloc),
        new_text: Units::from_str(alloc, "\n")?,
    })
}

// The patch of a line feed before all else, which fits every text.
fn line_feed_first(alloc: Global) -> Result<Patch, Fail>
    ensures { IfOk result (λ patch. (s : List ℕ) → Fits patch.changes s) }
{
    let mut list = Vec::new(alloc);
    list.push(line_feed(alloc)?)?;
    Ok(Patch::from_changes(list)?)
}

// A patch of a line feed at the last row but one.
fn last_line_feed(alloc: Global) -> Option<Patch> {
    let (row, last) = (MAX_COORD - 1, MAX_COORD);
    patch_of(alloc, &[([row, 0, row, 0], "", [row, 0, last, 0], "\n")])
}

#[test]
fn refuses_a_composition_past_the_greatest_row(rt: HostRuntime) -> Result<(), Fail> {
    let first = last_line_feed(rt.alloc()).ok_or("no patch")?;
    assert!(rt; is_too_far(rt.alloc(), &first)?);
    Ok(())
}

// The patch of one edit of a text that becomes `new`.
fn one_edit(alloc: Global, text: &LineText, new: &LineText, edit: &Edit) -> Option<Patch> {
    let mut list = Vec::new(alloc);
    if edit.from < edit.to || edit.units.len() > 0 {
        list.push(change_of_edit(alloc, text, new, edit)?).ok()?;
    }
    Patch::from_changes(list).ok()
}

fn change_of_edit(alloc: Global, text: &LineText, new: &LineText, edit: &Edit) -> Option<Change> {
    let end = edit.from.saturating_add(edit.units.len());
    change_of(
        between(text, edit.from, edit.to)?,
        between(new, edit.from, end)?,
        copied(alloc, units_of(text).get(edit.from..edit.to).unwrap_or(&[]))?,
        edit.units.try_clone().ok(),
    )
}

// The patch of the way, composed with one edit more that leads to `text`.
fn patch_after(
    alloc: Global,
    original: &LineText,
    way: &Way,
    text: &LineText,
    edit: &Edit,
) -> Option<Patch> {
    let second = one_edit(alloc, &way.text, text, edit)?;
    composed_on(alloc, &way.patch, &second, original).ok()
}

// The way with one edit more, composed with what stood before.
fn edited(alloc: Global, original: &LineText, way: &Way, edit: &Edit) -> Option<Way> {
    let text = text_after(alloc, &way.text, edit)?;
    let patch = patch_after(alloc, original, way, &text, edit);
    way_from(
        patch,
        text,
        tagged_after(alloc, way.tagged.as_slice(), edit),
    )
}

// The way with one random edit more.
fn edited_at_random(
    alloc: Global,
    original: &LineText,
    way: &Way,
    numbers: &mut Numbers,
) -> Option<Way> {
    let edit = numbers.edit(alloc, way.text.len(), &[10, 97, 98])?;
    edited(alloc, original, way, &edit)
}

// Where a unit of a second run comes from, led back through the tags of the first.
fn origin_of(first: &[Tagged], from: Option<usize>) -> Option<usize> {
    first.get(from?)?.from
}

// The tags of a second run, led back through those of the first.
fn traced(alloc: Global, first: &[Tagged], second: &[Tagged]) -> Option<Vec<Tagged>> {
    let mut traced = Vec::new(alloc);
    for tag in second {
        let from = origin_of(first, tag.from);
        let unit = tag.unit;
        traced.push(Tagged { unit, from }).ok()?;
    }
    Some(traced)
}

// Five random edits of a text, composed step by step, each compared with the gaps where that is asked.
fn run(alloc: Global, text: &LineText, numbers: &mut Numbers, compare: bool) -> Option<Way> {
    let mut way = way_of(alloc, text)?;
    for _ in 0..5 {
        way = edited_at_random(alloc, text, &way, numbers)?;
        if compare && !has_gaps(text, &way) {
            return None;
        }
    }
    Some(way)
}

// Two runs of the original text, one after the other, as one: their patches are composed as wholes.
fn whole(alloc: Global, original: &LineText, first: &Way, second: Way) -> Option<Way> {
    let Way {
        patch,
        text,
        tagged,
    } = second;
    way_from(
        composed_on(alloc, &first.patch, &patch, original).ok(),
        text,
        traced(alloc, first.tagged.as_slice(), tagged.as_slice()),
    )
}

fn two_runs(alloc: Global, original: &LineText, numbers: &mut Numbers) -> Option<Way> {
    let first = run(alloc, original, numbers, true)?;
    let second = run(alloc, &first.text, numbers, false)?;
    whole(alloc, original, &first, second)
}

// Whether the patch of the way has the gaps of it, and leads to its text.
fn leads_there(alloc: Global, original: &LineText, way: &Way) -> bool {
    match apply(alloc, &way.patch, original) {
        Ok(made) => has_gaps(original, way) && units_of(&made) == units_of(&way.text),
        Err(_) => false,
    }
}

// Whether two random runs, one after the other, compose to the gaps of both.
fn runs_compose(alloc: Global, original: &LineText, seed: u64) -> bool {
    let mut numbers = Numbers { state: seed };
    match two_runs(alloc, original, &mut numbers) {
        Some(both) => leads_there(alloc, original, &both),
        None => false,
    }
}

#[test]
fn composed_runs_are_the_gaps_of_both(rt: HostRuntime) -> Result<(), Fail> {
    let original = LineText::from_str(rt.alloc(), "ab\nab\n\nba")?;
    for seed in 0..300 {
        assert!(rt; runs_compose(rt.alloc(), &original, seed), "seed {seed}");
    }
    Ok(())
}
