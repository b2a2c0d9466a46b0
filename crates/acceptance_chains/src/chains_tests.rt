//! Texts in layers: a text with no layer above it is read as it is, whole, by points and by pieces, and so is a clone.
use chains::{Chain, Spot};
use line_text::LineText;
use points::{NoMemory, Point, Units};
use std::alloc::Global;
use std::test::Fail;

fn at(row: u32, column: u32) -> Point {
    Point { row, column }
}

// Two rows, with a pair of surrogates in the second.
const TEXT: &str = "ab\r\nc\u{1f600}d";

const UNITS: [u16; 8] = [97, 98, 13, 10, 99, 0xd83d, 0xde00, 100];

fn chain_of_text(alloc: Global) -> Result<Option<Chain>, NoMemory> {
    match LineText::from_str(alloc, TEXT) {
        Ok(text) => Ok(Some(Chain::of(alloc, text)?)),
        Err(_) => Ok(None),
    }
}

// Whether the range is lent as one piece with these units.
fn is_one_piece(chain: &Chain, from: usize, to: usize, expected: &[u16]) -> bool {
    if from > to || to > chain.len() {
        return false;
    }
    let mut pieces = chain.pieces(from, to);
    match pieces.next() {
        Some(piece) => piece == expected && pieces.next().is_none(),
        None => false,
    }
}

fn is_no_piece(chain: &Chain, at: usize) -> bool {
    at <= chain.len() && chain.pieces(at, at).next().is_none()
}

fn is_point(chain: &Chain, offset: usize, point: Point) -> bool {
    offset <= chain.len() && chain.point_at(offset) == point
}

// Whether the place at an offset is found again by its point.
fn is_found(chain: &Chain, offset: usize) -> bool {
    if offset > chain.len() {
        return false;
    }
    let spot = chain.spot_at(offset);
    chain.spot_of(spot.point) == spot
}

fn is_whole(chain: &Chain) -> bool {
    let end = Spot {
        offset: 8,
        point: at(1, 4),
    };
    chain.depth() == 1 && chain.len() == 8 && chain.end() == end
}

// Whether a range is put behind what the list has.
fn is_appended(
    alloc: Global,
    chain: &Chain,
    to: usize,
    expected: &[u16],
) -> Result<bool, NoMemory> {
    let mut into = Units::from_str(alloc, "x")?;
    if to > chain.len() {
        return Ok(false);
    }
    chain.units(alloc, 0, to, &mut into)?;
    Ok(into.as_slice() == expected)
}

fn has_text(alloc: Global, chain: &Chain, expected: &str) -> Result<bool, NoMemory> {
    let text = chain.to_text(alloc)?;
    Ok(text.as_str() == expected)
}

fn lends_its_units(chain: &Chain) -> bool {
    is_whole(chain)
        && is_one_piece(chain, 0, 8, &UNITS)
        && is_one_piece(chain, 3, 6, &[10, 99, 0xd83d])
        && is_no_piece(chain, 8)
}

#[test]
fn reads_a_text_without_layers(rt: HostRuntime) -> Result<(), Fail> {
    let chain = chain_of_text(rt.alloc())?.ok_or("too long")?;
    assert!(rt; lends_its_units(&chain));
    assert!(rt; has_text(rt.alloc(), &chain, TEXT)?);
    assert!(rt; is_appended(rt.alloc(), &chain, 2, &[120, 97, 98])?);
    Ok(())
}

fn has_points(chain: &Chain) -> bool {
    is_point(chain, 0, at(0, 0))
        && is_point(chain, 3, at(0, 3))
        && is_point(chain, 4, at(1, 0))
        && is_point(chain, 8, at(1, 4))
        && is_found(chain, 0)
        && is_found(chain, 4)
        && is_found(chain, 8)
}

#[test]
fn names_the_points_of_offsets(rt: HostRuntime) -> Result<(), Fail> {
    let chain = chain_of_text(rt.alloc())?.ok_or("too long")?;
    assert!(rt; has_points(&chain));
    Ok(())
}

#[test]
fn a_clone_shares_the_text(rt: HostRuntime) -> Result<(), Fail> {
    let chain = chain_of_text(rt.alloc())?.ok_or("too long")?;
    let clone = chain.try_clone()?;
    drop(chain);
    assert!(rt; is_whole(&clone));
    assert!(rt; is_one_piece(&clone, 0, 8, &UNITS));
    Ok(())
}
