//! Edits of a text in layers: into which layer they go, and what a layer counts of them.
use crate::chain_cases::text_of;
use chains::Chain;
use line_text::LineText;
use points::{MAX_UNITS, Units};
use std::alloc::Global;
use std::test::Fail;

// The text after an edit.
pub(crate) fn edited(
    alloc: Global,
    chain: &Chain,
    from: usize,
    to: usize,
    put: &[u16],
) -> Result<Chain, Fail> {
    let put = text_of(alloc, put)?;
    if from <= to
        && to <= chain.len()
        && chain.depth() <= 8
        && chain.len() + put.len() <= MAX_UNITS
    {
        let start = chain.spot_at(from);
        let end = chain.spot_at(to);
        Ok(chain.edited(alloc, start, end, &put)?)
    } else {
        Ok(Err("this can't be replaced")?)
    }
}

// A text of this unit alone, with no layer above it.
pub(crate) fn text_of_unit(alloc: Global, unit: u16, len: u32) -> Result<Chain, Fail> {
    let mut units = Units::new(alloc);
    for _ in 0..len {
        units.append(&[unit])?;
    }
    let text = LineText::from_units(units)?;
    Ok(Chain::of(alloc, text)?)
}

// The text after insertions of one unit, three units apart: those from the number `first` on, up to `end`.
pub(crate) fn sprinkled(
    alloc: Global,
    mut chain: Chain,
    first: u32,
    end: u32,
) -> Result<Chain, Fail> {
    for number in first..end {
        let at = number as usize * 4 + 3;
        chain = edited(alloc, &chain, at, at, &[120])?;
    }
    Ok(chain)
}

// Whether the layers have these changes and units.
pub(crate) fn has_sizes(
    alloc: Global,
    chain: &Chain,
    expected: &[(u32, u64)],
) -> Result<bool, Fail> {
    let sizes = chain.sizes(alloc)?;
    Ok(
        sizes.len() == expected.len()
            && sizes.iter().zip(expected).all(|(size, (changes, units))| size.changes == *changes
                && size.units == *units),
    )
}

pub(crate) fn has_units(alloc: Global, chain: &Chain, expected: &[u16]) -> Result<bool, Fail> {
    let mut units = Units::new(alloc);
    chain.units(alloc, 0, chain.len(), &mut units)?;
    Ok(units.as_slice() == expected)
}

#[test]
fn layer_of_64_changes_takes_no_more(rt: HostRuntime) -> Result<(), Fail> {
    let chain = text_of_unit(rt.alloc(), 97, 400)?;
    let chain = sprinkled(rt.alloc(), chain, 0, 64)?;
    assert!(rt; has_sizes(rt.alloc(), &chain, &[(0, 0), (64, 64)])?);
    let chain = sprinkled(rt.alloc(), chain, 64, 65)?;
    assert!(rt; has_sizes(rt.alloc(), &chain, &[(0, 0), (64, 64), (1, 1)])?);
    let chain = sprinkled(rt.alloc(), chain, 65, 70)?;
    assert!(rt; has_sizes(rt.alloc(), &chain, &[(0, 0), (64, 64), (6, 6)])?);
    Ok(())
}

#[test]
fn insertion_at_the_end_joins_the_deletion_there(rt: HostRuntime) -> Result<(), Fail> {
    let chain = text_of_unit(rt.alloc(), 97, 6)?;
    let chain = edited(rt.alloc(), &chain, 3, 6, &[])?;
    assert!(rt; has_sizes(rt.alloc(), &chain, &[(0, 0), (1, 3)])?);
    let chain = edited(rt.alloc(), &chain, 3, 3, &[120])?;
    assert!(rt; has_sizes(rt.alloc(), &chain, &[(0, 0), (1, 4)])?);
    assert!(rt; has_units(rt.alloc(), &chain, &[97, 97, 97, 120])?);
    Ok(())
}

#[test]
fn ninth_layer_makes_a_base(rt: HostRuntime) -> Result<(), Fail> {
    let mut chain = text_of_unit(rt.alloc(), 97, 2000)?;
    chain = sprinkled(rt.alloc(), chain, 0, 448)?;
    assert!(rt; chain.depth() == 8);
    chain = sprinkled(rt.alloc(), chain, 448, 449)?;
    assert!(rt; has_sizes(rt.alloc(), &chain, &[(0, 0)])?);
    assert!(rt; chain.len() == 2449);
    Ok(())
}
