//! Keeping what sinks took.
ghost use Rattle.std.specs.Prelude.{◌≡◌, ◌≤◌, length, map, true, OnOk, OnErr};
ghost use Rattle.outer.specs.Count.{Rose};
ghost use Rattle.drafts.specs.Drafts.{KeepsBut, HasNames, HoldEach, are_apart};

use crate::discard::discard_all;
use outer::{Failed, Folder};

/// Puts what each sink took in the place of what stood under its name, in order. Where one can't be kept, those behind it are
/// given up.
pub fn keep_all<F: Folder>(
    folder: &mut F,
    names: &[&str],
    mut sinks: Vec<F::Out>,
) -> Result<(), Failed>
    requires many { length sinks.items ≡ length names.now }
    requires there { HasNames (map (λ n. n.now) names.now) (F.files folder.old) }
    requires apart { are_apart (map (λ n. n.now) names.now) ≡ true }
    ensures others { KeepsBut (map (λ n. n.now) names.now) (F.files folder.old) (F.files folder.new) }
    ensures loads { F.loads folder.new ≡ F.loads folder.old }
    ensures count { F.saves folder.old ≤ F.saves folder.new }
    ensures hold { OnOk result (HoldEach (map (λ n. n.now) names.now) (map F.Out.taken sinks.items) (F.files folder.new)) }
    ensures cause { OnErr result (Rose (F.saves folder.old) (F.saves folder.new)) }
{
    for name in names {
        let sink = sinks.remove(0);
        if folder.keep(*name, sink).is_err() {
            discard_all(folder, sinks);
            return Err(Failed);
        }
    }
    Ok(())
}
