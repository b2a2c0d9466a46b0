//! Making sinks.
ghost use Rattle.std.specs.Prelude.{◌≡◌, ◌≤◌, length, map, IfOk, IsErrOf};
ghost use Rattle.std.specs.List.{AllByRecursion};
ghost use Rattle.outer.specs.Count.{Rose};
ghost use Rattle.drafts.specs.Drafts.{KeepsBut, HasNames, IsFresh};

use crate::discard::discard_all;
use outer::{Folder, FolderRefusal};
use std::alloc::Global;

/// A sink for each of these names, in their order. Where one can't be made, those made before are given up.
pub fn make_all<F: Folder>(
    alloc: Global,
    folder: &mut F,
    names: &[&str],
) -> Result<Vec<F::Out>, FolderRefusal>
    ensures others { KeepsBut (map (λ n. n.now) names.now) (F.files folder.old) (F.files folder.new) }
    ensures loads { F.loads folder.new ≡ F.loads folder.old }
    ensures count { F.saves folder.old ≤ F.saves folder.new }
    ensures there { IfOk result (λ _. HasNames (map (λ n. n.now) names.now) (F.files folder.new)) }
    ensures many { IfOk result (λ sinks. length sinks.items ≡ length names.now) }
    ensures fresh { IfOk result (λ sinks. AllByRecursion (IsFresh F.Out.taken F.Out.faults) sinks.items) }
    ensures cause { IsErrOf result FolderRefusal.Failed → Rose (F.saves folder.old) (F.saves folder.new) }
{
    let mut sinks = Vec::with_capacity(alloc, names.len())?;
    for name in names {
        match folder.create(alloc, *name) {
            Ok(sink) => sinks.push_reserved(sink),
            Err(refusal) => {
                discard_all(folder, sinks);
                return Err(refusal);
            }
        }
    }
    Ok(sinks)
}
