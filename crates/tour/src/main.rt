//! A tour of the library: a text is edited, each edit is a patch, marks follow the patches, two patches
//! become one, and that one, inverted, brings the first text back.
//!
//! A call that has a condition is made where the condition is known: by the contract of a call before
//! it, or by a test.
#![tactic(auto)]

ghost use Rattle.std.specs.Prelude.{◌≡◌, IfOk};
ghost use Rattle.patch.specs.Fit.{Fits, applied};

use anyhow::{Result, ensure};
use line_text::LineText;
use markers::MarkerIndex;
use patch::Patch;
use patch_algebra::{apply, compose};
use points::{Point, Range, Units, traversal};
use std::alloc::Global;

fn main(rt: HostRuntime) -> Result<()> {
    let alloc = rt.alloc();
    let mut text = LineText::from_str(alloc, "area = width * height\nprint(area)\n")?;
    let mut marks = MarkerIndex::new(alloc);
    marks.insert(1, range(0, 7, 21)?, false)?;
    marks.insert(2, range(1, 6, 10)?, true)?;
    show(&rt, "at first", &text, &marks)?;

    // Two edits, one after the other: each answers its patch.
    let one = edit(alloc, &mut text, range(1, 6, 6)?, "\"area\", ")?;
    let two = edit(alloc, &mut text, range(0, 7, 12)?, "2 *\n  width")?;

    // Both edits as one patch, which the marks follow.
    let both = compose(alloc, &one, &two)?;
    follow(&mut marks, &both)?;
    show(&rt, "after two edits", &text, &marks)?;

    // That patch back.
    let back = both.invert()?;
    let text = apply(alloc, &back, &text)?;
    follow(&mut marks, &back)?;
    show(&rt, "at last", &text, &marks)
}

// Replaces the units in the range by those of `new`, and answers the patch that does the same.
fn edit(alloc: Global, text: &mut LineText, range: Range, new: &str) -> Result<Patch>
    ensures fits { IfOk result (λ patch. Fits patch.changes text.old) }
    ensures same { IfOk result (λ patch. text.new ≡ applied patch.changes text.old) }
{
    let units = Units::from_str(alloc, new)?;
    let (from, to) = text.span(range);
    let start = text.point_at(from);
    let mut patch = Patch::new(alloc);
    patch.splice(start, text.slice(from, to), units.as_slice())?;
    text.replace(range, new)?;
    Ok(patch)
}

// Moves the marks with a patch, change by change.
fn follow(marks: &mut MarkerIndex, patch: &Patch) -> Result<()> {
    for change in patch.changes() {
        let start = change.new_range.start;
        let old_extent = traversal(change.old_range.end, change.old_range.start);
        let new_extent = traversal(change.new_range.end, start);
        ensure!(
            marks.fits(start, old_extent, new_extent),
            "a mark would go too far"
        );
        let _hits = marks.splice_counts(start, old_extent, new_extent);
    }
    Ok(())
}

// From one column of a row to another.
fn range(row: u32, from: u32, to: u32) -> Result<Range> {
    ensure!(from <= to, "a range ends before it starts");
    Ok(Range::new(Point { row, column: from }, Point { row, column: to }))
}

// Prints a text, and where its two marks are.
fn show(rt: &impl Print, title: &str, text: &LineText, marks: &MarkerIndex) -> Result<()> {
    let units = text.to_text()?;
    print!(rt; "{title}:\n{units}")?;
    for id in [1, 2] {
        let (Range { start, end }, _) = marks.range_of(id)?;
        println!(rt;
            "  mark {id}: {}:{} to {}:{}",
            start.row, start.column, end.row, end.column
        )?;
    }
    Ok(())
}
