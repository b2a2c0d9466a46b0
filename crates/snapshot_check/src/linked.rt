//! The takes of a transcript by the versions that they show.
ghost use Rattle.std.specs.Prelude.{◌≡◌, ◌+◌, ◌<◌, ◌≤◌, ◌^◌, length, replicate, IfOk, OnOk};
ghost use Rattle.snapshot_check.specs.Takes.{AreLinked, IsLinkedOn};

use crate::take::Take;
use points::NoMemory;
use std::alloc::Global;

/// The takes; for each version the last of them that shows it, and for each of them the one before it with the same version.
/// Each is named by its place among the takes, counted from 1, or 0 where there is none.
#[derive(Drop)]
pub struct Linked<'a> {
    pub takes: Vec<Take<'a>>,
    pub lasts: Vec<usize>,
    pub nexts: Vec<usize>,
}

/// The takes by the versions up to `last`.
pub fn linked_takes<'a>(
    alloc: Global,
    takes: Vec<Take<'a>>,
    last: usize,
) -> Result<Linked<'a>, NoMemory>
    requires { last < 2 ^ 57 }
    ensures takes { IfOk result (λ l. l.takes.items ≡ takes.entry.items) }
    ensures links { IfOk result (λ l. AreLinked takes.entry.items last (length takes.entry.items) l.lasts.items l.nexts.items) }
{
    let Places { lasts, nexts } = lists(alloc, takes.as_slice(), last)?;
    Ok(Linked {
        takes,
        lasts,
        nexts,
    })
}

// The two lists of places.
#[derive(Drop)]
struct Places {
    lasts: Vec<usize>,
    nexts: Vec<usize>,
}

fn lists(alloc: Global, takes: &[Take<'_>], last: usize) -> Result<Places, NoMemory>
    requires { last < 2 ^ 57 }
    ensures { IfOk result (λ l. AreLinked takes.now last (length takes.now) l.lasts.items l.nexts.items) }
{
    let mut lasts = zeros(alloc, last + 1)?;
    let mut nexts = Vec::new(alloc);
    for i in 0..takes.len() {
        link(&mut lasts, &mut nexts, i, takes[i].version())?;
    }
    Ok(Places { lasts, nexts })
}

// So many zeros.
fn zeros(alloc: Global, count: usize) -> Result<Vec<usize>, NoMemory>
    ensures { IfOk result (λ v. v.items ≡ replicate count 0) }
{
    let mut zeros = Vec::new(alloc);
    for _i in 0..count {
        zeros.push(0)?;
    }
    Ok(zeros)
}

// Adds the take at this place, which shows this version.
fn link(
    lasts: &mut Vec<usize>,
    nexts: &mut Vec<usize>,
    place: usize,
    version: u64,
) -> Result<(), NoMemory>
    requires { place < 2 ^ 63 }
    ensures { OnOk result (IsLinkedOn lasts.old.items nexts.old.items place version lasts.new.items nexts.new.items) }
{
    if version >= lasts.len() as u64 {
        nexts.push(0)?;
        return Ok(());
    }
    let version = version as usize;
    nexts.push(lasts[version])?;
    lasts[version] = place + 1;
    Ok(())
}
