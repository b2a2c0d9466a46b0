//! Texts in layers put together: as one layer above the base, or as a new base.
use crate::chain_edits_tests::{edited, has_sizes, has_units, sprinkled, text_of_unit};
use chains::Chain;
use points::Units;
use std::alloc::Global;
use std::test::Fail;

// Whether both have the same units.
fn is_same_text(alloc: Global, left: &Chain, right: &Chain) -> Result<bool, Fail> {
    let mut units = Units::new(alloc);
    left.units(alloc, 0, left.len(), &mut units)?;
    has_units(alloc, right, units.as_slice())
}

// Whether a squash of the chain has these sizes and the same text.
fn is_squashed(alloc: Global, chain: &Chain, expected: &[(u32, u64)]) -> Result<bool, Fail> {
    let squashed = chain.squashed(alloc)?;
    Ok(has_sizes(alloc, &squashed, expected)? && is_same_text(alloc, chain, &squashed)?)
}

fn is_flattened(alloc: Global, chain: &Chain) -> Result<bool, Fail> {
    let base = chain.flattened(alloc)?;
    Ok(base.depth() == 1 && is_same_text(alloc, chain, &base)?)
}

// The text with as many units put in at an offset, in one edit.
fn with_units(alloc: Global, chain: &Chain, at: usize, count: u32) -> Result<Chain, Fail> {
    let mut units = Units::new(alloc);
    for _ in 0..count {
        units.append(&[120])?;
    }
    edited(alloc, chain, at, at, units.as_slice())
}

// A base of units and two layers, of 64 changes and of 6.
fn three_layers(alloc: Global) -> Result<Chain, Fail> {
    let chain = text_of_unit(alloc, 97, 400)?;
    sprinkled(alloc, chain, 0, 70)
}

// A layer of 448 changes, which was eight layers.
fn squashed_448(alloc: Global) -> Result<Chain, Fail> {
    let chain = text_of_unit(alloc, 97, 2000)?;
    let chain = sprinkled(alloc, chain, 0, 448)?;
    Ok(chain.squashed(alloc)?)
}

fn changed_512(alloc: Global) -> Result<Chain, Fail> {
    let chain = squashed_448(alloc)?;
    sprinkled(alloc, chain, 448, 512)
}

fn changed_513(alloc: Global) -> Result<Chain, Fail> {
    let chain = changed_512(alloc)?;
    sprinkled(alloc, chain, 512, 513)
}

fn inserted(alloc: Global, count: u32) -> Result<Chain, Fail> {
    let chain = text_of_unit(alloc, 97, 9)?;
    with_units(alloc, &chain, 3, count)
}

// 65,535 units put in, and one taken out.
fn changed_units(alloc: Global) -> Result<Chain, Fail> {
    let chain = inserted(alloc, 65_535)?;
    edited(alloc, &chain, 0, 1, &[])
}

// One more is put in, in a layer above.
fn changed_units_more(alloc: Global) -> Result<Chain, Fail> {
    let chain = changed_units(alloc)?;
    edited(alloc, &chain, chain.len(), chain.len(), &[120])
}

// Three of those that were put in are taken out again.
fn changed_units_less(alloc: Global) -> Result<Chain, Fail> {
    let chain = changed_units_more(alloc)?;
    edited(alloc, &chain, 5, 8, &[])
}

#[test]
fn three_layers_become_a_base(rt: HostRuntime) -> Result<(), Fail> {
    let chain = three_layers(rt.alloc())?;
    assert!(rt; chain.depth() == 3);
    assert!(rt; is_flattened(rt.alloc(), &chain)?);
    Ok(())
}

#[test]
fn squash_makes_one_layer_of_two(rt: HostRuntime) -> Result<(), Fail> {
    let chain = three_layers(rt.alloc())?;
    assert!(rt; is_squashed(rt.alloc(), &chain, &[(0, 0), (70, 70)])?);
    Ok(())
}

#[test]
fn squash_of_512_changes_is_a_layer(rt: HostRuntime) -> Result<(), Fail> {
    let chain = changed_512(rt.alloc())?;
    assert!(rt; is_squashed(rt.alloc(), &chain, &[(0, 0), (512, 512)])?);
    Ok(())
}

#[test]
fn squash_of_513_changes_is_a_base(rt: HostRuntime) -> Result<(), Fail> {
    let chain = changed_513(rt.alloc())?;
    assert!(rt; is_squashed(rt.alloc(), &chain, &[(0, 0)])?);
    Ok(())
}

#[test]
fn squash_of_65536_units_is_a_layer(rt: HostRuntime) -> Result<(), Fail> {
    let chain = changed_units(rt.alloc())?;
    assert!(rt; is_squashed(rt.alloc(), &chain, &[(0, 0), (2, 65_536)])?);
    Ok(())
}

#[test]
fn squash_of_65537_units_is_a_base(rt: HostRuntime) -> Result<(), Fail> {
    let chain = changed_units_more(rt.alloc())?;
    assert!(rt; is_squashed(rt.alloc(), &chain, &[(0, 0)])?);
    Ok(())
}

#[test]
fn squash_forgets_what_was_taken_back(rt: HostRuntime) -> Result<(), Fail> {
    let chain = changed_units_less(rt.alloc())?;
    assert!(rt; is_squashed(rt.alloc(), &chain, &[(0, 0), (3, 65_534)])?);
    Ok(())
}

#[test]
fn squash_of_a_large_insertion_is_a_base(rt: HostRuntime) -> Result<(), Fail> {
    let chain = inserted(rt.alloc(), 65_537)?;
    assert!(rt; is_squashed(rt.alloc(), &chain, &[(0, 0)])?);
    Ok(())
}
