//! Which marks a splice hits, in four senses.
ghost use Rattle.std.specs.Prelude.{◌≡◌, ◌+◌, ◌<◌, ◌^◌, length, IfOk, if◌then◌else◌};
ghost use Rattle.points.specs.Marks.{touches, is_inside, overlaps, surrounds};
ghost use Rattle.points.specs.MarkList.{hit_counts, hits_of};

use crate::wanted::{Wanted, ids_where};
use points::{HitCounts, Hits, Ids, Mark, NoMemory, Splice};
use std::alloc::Global;

/// The ids of the marks that the splice hits.
pub(crate) fn hits_of(alloc: Global, marks: &[Mark], splice: Splice) -> Result<Hits, NoMemory>
    requires { length marks.now < 2 ^ 32 }
    ensures { IfOk result (λ hits. hits ≡ hits_of splice marks.now) }
{
    let counts = counts_of(marks, splice);
    let touch = ids_where(alloc, marks, Wanted::Touched(splice), counts.touch as usize)?;
    let inside = ids_where(alloc, marks, Wanted::Inside(splice), counts.inside as usize)?;
    let overlap = ids_where(
        alloc,
        marks,
        Wanted::Overlapped(splice),
        counts.overlap as usize,
    )?;
    let surround = ids_where(
        alloc,
        marks,
        Wanted::Surrounded(splice),
        counts.surround as usize,
    )?;
    Ok(Hits {
        touch: Ids::from_vec(touch),
        inside: Ids::from_vec(inside),
        overlap: Ids::from_vec(overlap),
        surround: Ids::from_vec(surround),
    })
}

/// How many marks the splice hits.
pub(crate) fn counts_of(marks: &[Mark], splice: Splice) -> HitCounts
    requires { length marks.now < 2 ^ 32 }
    ensures { result ≡ hit_counts splice marks.now }
{
    let mut counts = HitCounts::default();
    for mark in marks {
        counts = counts_with(counts, *mark, splice);
    }
    counts
}

// The counts with one mark more.
fn counts_with(counts: HitCounts, mark: Mark, splice: Splice) -> HitCounts
    requires touch { counts.touch + 1 < 2 ^ 32 }
    requires inside { counts.inside + 1 < 2 ^ 32 }
    requires overlap { counts.overlap + 1 < 2 ^ 32 }
    requires surround { counts.surround + 1 < 2 ^ 32 }
    ensures touch { result.touch ≡ counts.touch + (if touches splice mark then 1 else 0) }
    ensures inside { result.inside ≡ counts.inside + (if is_inside splice mark then 1 else 0) }
    ensures overlap { result.overlap ≡ counts.overlap + (if overlaps splice mark then 1 else 0) }
    ensures surround { result.surround ≡ counts.surround + (if surrounds splice mark then 1 else 0) }
{
    HitCounts {
        touch: counts.touch + u32::from(Wanted::Touched(splice).passes(&mark)),
        inside: counts.inside + u32::from(Wanted::Inside(splice).passes(&mark)),
        overlap: counts.overlap + u32::from(Wanted::Overlapped(splice).passes(&mark)),
        surround: counts.surround + u32::from(Wanted::Surrounded(splice).passes(&mark)),
    }
}
