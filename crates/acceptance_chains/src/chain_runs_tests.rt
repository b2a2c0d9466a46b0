//! Random edits of a text in layers and of a flat one: the layer counts and reads as a patch that is spliced alike.
use crate::chain_cases::text_of;
use crate::chain_edits_tests::{edited, has_sizes, has_units};
use chains::Chain;
use line_text::LineText;
use patch::Patch;
use patch_algebra::apply;
use points::{MAX_UNITS, Units};
use std::alloc::Global;
use std::test::Fail;
use test_numbers::Numbers;

// Line endings are common, also those that edits cut apart.
const UNITS: [u16; 4] = [10, 13, 97, 97];

// One text twice: in layers, and flat with the patch of its edits since it was the original one.
#[derive(Drop)]
struct Pair {
    chain: Chain,
    original: LineText,
    text: LineText,
    patch: Patch,
}

fn some_units(alloc: Global, numbers: &mut Numbers, most: u32) -> Result<Units, Fail> {
    let mut units = Units::new(alloc);
    for _ in 0..numbers.up_to(most) {
        units.append(&[UNITS[numbers.up_to(3) as usize]])?;
    }
    Ok(units)
}

fn pair_of(alloc: Global, units: &[u16]) -> Result<Pair, Fail> {
    Ok(Pair {
        chain: Chain::of(alloc, text_of(alloc, units)?)?,
        original: text_of(alloc, units)?,
        text: text_of(alloc, units)?,
        patch: Patch::new(alloc),
    })
}

// Splices the patch by an edit of what it makes of the original text.
fn splice(
    alloc: Global,
    patch: &mut Patch,
    original: &LineText,
    edit: [usize; 2],
    units: &[u16],
) -> Result<(), Fail> {
    let made = apply(alloc, patch, original)?;
    let [from, to] = edit;
    if from > to || to > made.len() {
        Err("there are no such units")?;
    }
    patch.splice(made.point_at(from), made.slice(from, to), units)?;
    Ok(())
}

// Puts the units into the flat text.
fn put(text: &mut LineText, edit: [usize; 2], units: &[u16]) -> Result<(), Fail> {
    let [from, to] = edit;
    if from > to || to > text.len() || text.len() + units.len() > MAX_UNITS {
        Err("there are no such units")?;
    }
    text.put(from, to, units)?;
    Ok(())
}

// One edit of a few units in both.
fn edit_both(alloc: Global, numbers: &mut Numbers, pair: &mut Pair) -> Result<(), Fail> {
    let len = pair.text.len() as u32;
    let from = numbers.up_to(len);
    let to = from.saturating_add(numbers.up_to(3)).min(len);
    let units = some_units(alloc, numbers, 3)?;
    let edit = [from as usize, to as usize];
    splice(
        alloc,
        &mut pair.patch,
        &pair.original,
        edit,
        units.as_slice(),
    )?;
    put(&mut pair.text, edit, units.as_slice())?;
    pair.chain = edited(
        alloc,
        &pair.chain,
        from as usize,
        to as usize,
        units.as_slice(),
    )?;
    Ok(())
}

// Whether the newest layer counts what the patch counts, and the texts are the same.
fn is_alike(alloc: Global, pair: &Pair) -> Result<bool, Fail> {
    let changes = u32::try_from(pair.patch.count()).unwrap_or(u32::MAX);
    let units = pair.text.slice(0, pair.text.len());
    Ok(
        has_sizes(alloc, &pair.chain, &[(0, 0), (changes, pair.patch.units())])?
            && has_units(alloc, &pair.chain, units)?,
    )
}

// Whether both stay alike through eight random edits of a random text.
fn run_is_alike(alloc: Global, numbers: &mut Numbers) -> Result<bool, Fail> {
    let units = some_units(alloc, numbers, 11)?;
    let mut pair = pair_of(alloc, units.as_slice())?;
    for _ in 0..8 {
        edit_both(alloc, numbers, &mut pair)?;
        if !is_alike(alloc, &pair)? {
            return Ok(false);
        }
    }
    Ok(true)
}

#[test]
fn layer_counts_as_a_patch(rt: HostRuntime) -> Result<(), Fail> {
    let mut numbers = Numbers::new(14);
    for _ in 0..100 {
        assert!(rt; run_is_alike(rt.alloc(), &mut numbers)?);
    }
    Ok(())
}
