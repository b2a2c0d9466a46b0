//! What a new layer stands on.
ghost use Rattle.std.specs.Prelude.{◌≡◌, ◌≤◌, find, nat_lt};
ghost use Rattle.places.specs.Placed.{chain_of};
ghost use Rattle.layers.specs.Shelf.{depth_at};

use crate::versioned::Versioned;
use places::Table;

/// The first place that is less deep than this, from `place` on downwards over at most `levels` places.
pub(crate) fn ground_below(
    table: &Table<Versioned>,
    place: Option<u32>,
    levels: u32,
    depth: u32,
) -> Option<u32>
    ensures { result ≡ find (λ p. nat_lt (depth_at table.now p) depth) (chain_of table.now levels place) }
{
    if levels == 0 {
        return None;
    }
    let at = place?;
    if table.depth(at).unwrap_or(0) < depth {
        Some(at)
    } else {
        ground_below(table, table.parent(at), levels - 1, depth)
    }
}
