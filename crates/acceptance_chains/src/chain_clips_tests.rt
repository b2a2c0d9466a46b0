//! A text whose endings, pairs and rows are cut apart by layers: points are clipped, and rows and ranges are read, as on
//! the flat text.
use crate::chain_cases::text_of;
use chains::{Chain, Spot};
use line_text::LineText;
use points::{MAX_UNITS, NoMemory, Point, Range, Units};
use std::alloc::Global;
use std::test::Fail;

fn at(row: u32, column: u32) -> Point {
    Point { row, column }
}

// The text with one layer more, which puts these units in at an offset, where it has room for them.
fn layer_at(
    alloc: Global,
    chain: &Chain,
    offset: usize,
    put: &LineText,
) -> Result<Option<Chain>, NoMemory> {
    if offset > chain.len() || chain.depth() > 8 || chain.len() + put.len() > MAX_UNITS {
        return Ok(None);
    }
    let spot = chain.spot_at(offset);
    Ok(Some(chain.add_layer(alloc, spot, spot, put)?))
}

fn with_layer(alloc: Global, chain: &Chain, offset: usize, units: &[u16]) -> Result<Chain, Fail> {
    let put = text_of(alloc, units)?;
    let made = layer_at(alloc, chain, offset, &put)?;
    Ok(made.ok_or("no room")?)
}

// ab CR LF c (high, low) d: the carriage return and both surrogates stand in three layers above the rest.
fn cut_apart(alloc: Global) -> Result<Chain, Fail> {
    let base = Chain::of(alloc, text_of(alloc, &[97, 98, 10, 99, 100])?)?;
    let ended = with_layer(alloc, &base, 2, &[13])?;
    let high = with_layer(alloc, &ended, 5, &[0xd83d])?;
    with_layer(alloc, &high, 6, &[0xde00])
}

// CR LF CR: the line feed stands in the base, each carriage return in a layer.
fn only_endings(alloc: Global) -> Result<Chain, Fail> {
    let base = Chain::of(alloc, text_of(alloc, &[10])?)?;
    let ended = with_layer(alloc, &base, 0, &[13])?;
    with_layer(alloc, &ended, 2, &[13])
}

// The places that these are clipped to.
fn clips_to(chain: &Chain, cases: &[(Point, Point)]) -> bool {
    cases
        .iter()
        .all(|(point, clipped)| chain.clip(*point) == *clipped)
}

// Whether the line of a row ends in this column.
fn is_line(chain: &Chain, row: u32, column: u32) -> bool {
    match chain.line_range(row) {
        Some(range) => range.start == at(row, 0) && range.end == at(row, column),
        None => false,
    }
}

fn has_span(chain: &Chain, start: Point, end: Point, from: Spot, to: Spot) -> bool {
    start <= end && chain.span(Range::new(start, end)) == (from, to)
}

// Whether a range is lent as these pieces.
fn is_lent(chain: &Chain, start: Point, end: Point, expected: &[&[u16]]) -> bool {
    if end < start {
        return false;
    }
    let mut next = 0;
    for piece in chain.pieces_in(Range::new(start, end)) {
        if next >= expected.len() || piece != expected[next] {
            return false;
        }
        next += 1;
    }
    next == expected.len()
}

// Whether a range is put behind what the list has.
fn is_appended(
    alloc: Global,
    chain: &Chain,
    start: Point,
    end: Point,
    expected: &[u16],
) -> Result<bool, Fail> {
    let mut into = Units::from_str(alloc, "x")?;
    if end < start {
        return Ok(false);
    }
    chain.units_in(alloc, Range::new(start, end), &mut into)?;
    Ok(into.as_slice() == expected)
}

fn clips_first_row(chain: &Chain) -> bool {
    clips_to(
        chain,
        &[
            (at(0, 1), at(0, 1)),
            (at(0, 2), at(0, 2)),
            (at(0, 3), at(0, 2)),
            (at(0, 9), at(0, 2)),
        ],
    )
}

fn clips_last_row(chain: &Chain) -> bool {
    clips_to(
        chain,
        &[
            (at(1, 1), at(1, 1)),
            (at(1, 2), at(1, 1)),
            (at(1, 3), at(1, 3)),
            (at(1, 9), at(1, 4)),
        ],
    )
}

fn clips_behind(chain: &Chain) -> bool {
    clips_to(chain, &[(at(2, 0), at(1, 4)), (at(9, 9), at(1, 4))])
}

fn is_cut_apart(chain: &Chain) -> bool {
    chain.depth() == 4 && chain.extent() == at(1, 4)
}

#[test]
fn clips_where_layers_cut_endings_and_pairs(rt: HostRuntime) -> Result<(), Fail> {
    let chain = cut_apart(rt.alloc())?;
    assert!(rt; is_cut_apart(&chain) && clips_first_row(&chain));
    assert!(rt; clips_last_row(&chain) && clips_behind(&chain));
    Ok(())
}

fn has_two_lines(chain: &Chain) -> bool {
    is_line(chain, 0, 2) && is_line(chain, 1, 4) && chain.line_range(2).is_none()
}

fn has_empty_lines(endings: &Chain) -> bool {
    is_line(endings, 0, 0)
        && is_line(endings, 1, 1)
        && endings.clip(at(0, 1)) == at(0, 0)
        && endings.clip(at(1, 1)) == at(1, 1)
}

#[test]
fn reads_rows_that_layers_cut_apart(rt: HostRuntime) -> Result<(), Fail> {
    let chain = cut_apart(rt.alloc())?;
    assert!(rt; has_two_lines(&chain));
    let endings = only_endings(rt.alloc())?;
    assert!(rt; has_empty_lines(&endings));
    Ok(())
}

fn has_spans(chain: &Chain) -> bool {
    let from = Spot {
        offset: 2,
        point: at(0, 2),
    };
    let to = Spot {
        offset: 5,
        point: at(1, 1),
    };
    has_span(chain, at(0, 3), at(1, 2), from, to) && has_span(chain, at(1, 1), at(1, 2), to, to)
}

fn lends_pieces(chain: &Chain) -> bool {
    is_lent(chain, at(0, 3), at(1, 2), &[&[13], &[10, 99]])
        && is_lent(
            chain,
            at(0, 0),
            at(9, 9),
            &[&[97, 98], &[13], &[10, 99], &[0xd83d], &[0xde00], &[100]],
        )
        && is_lent(chain, at(1, 1), at(1, 2), &[])
}

#[test]
fn lends_what_stands_between_clipped_points(rt: HostRuntime) -> Result<(), Fail> {
    let chain = cut_apart(rt.alloc())?;
    let pair = [120, 0xd83d, 0xde00];
    assert!(rt; has_spans(&chain) && lends_pieces(&chain));
    assert!(rt; is_appended(rt.alloc(), &chain, at(1, 2), at(1, 3), &pair)?);
    Ok(())
}
