//! Laws on patches: each is a function whose contract is the law.
ghost use Rattle.std.specs.Prelude.{◌≡◌, ℕ, ◌+◌, ◌*◌, ◌^◌, ◌≤◌, List, length};
ghost use Rattle.patch.specs.ChangeList.{IsPatch};
ghost use Rattle.patch.specs.Fit.{Fits};
ghost use Rattle.patch.specs.Tagged.{Tagged, tagged, run, AreForward, gaps};
ghost use Rattle.patch.specs.Splicing.{KeepsLimits};
ghost use Rattle.patch.specs.Stretches.{Part, laid, AreStretches};

use crate::patch::Patch;
use points::MAX_CHANGES;

/// Some text fits every patch: each stretch between its changes may be as many line feeds and
/// letters as reach over it.
pub fn some_text_fits(patch: &Patch)
    ensures { (s : List ℕ) × Fits patch.now.changes s }
{
    let _kept = patch.as_slice();
}

/// Every patch keeps its rules: its changes are sorted, never touch, have the extents of their
/// ranges, are never empty, reach no further than the greatest coordinate, and aren't too many.
pub fn rules_are_kept(patch: &Patch)
    ensures { IsPatch patch.now.changes }
{
    let _kept = patch.as_slice();
}

/// What [`Patch::from_stretches`] makes is the gaps of every text that is made of the stretches.
pub fn stretches_are_laid_as_gaps()
    ensures { (parts : List Part) (s : List ℕ) (g : Tagged) → AreStretches 0 parts s g → laid parts ≡ gaps s g }
{}

/// A run of edits leaves few gaps: three times their number is at most the units of both texts
/// together, and two more. Each gap but the last has a unit behind it that both texts have, and each
/// takes a unit of one of them that the other lacks.
pub fn gaps_of_a_run_are_few()
    ensures { (s : List ℕ) (edits : List (ℕ × ℕ × List ℕ)) → AreForward edits
        → 3 * length (gaps s (run (tagged s) edits)) ≤ length s + length (run (tagged s) edits) + 2 }
{}

/// Where both texts of a run have at most 3 * 2^24 units together, its gaps keep the limits of a
/// patch, so nothing is refused as `TooFar` or `TooMany`: no coordinate of a text passes its length,
/// and the number follows from [`gaps_of_a_run_are_few`]. Two texts of at most 2^24 units are so.
/// The bound is sharp: two texts of 2^25 units may have 22,369,622 gaps between them.
pub fn gaps_of_a_run_keep_limits()
    ensures together { (s : List ℕ) (edits : List (ℕ × ℕ × List ℕ)) → AreForward edits
        → length s + length (run (tagged s) edits) ≤ 3 * MAX_CHANGES → KeepsLimits (gaps s (run (tagged s) edits)) }
    ensures each { (s : List ℕ) (edits : List (ℕ × ℕ × List ℕ)) → AreForward edits → length s ≤ 2 ^ 24
        → length (run (tagged s) edits) ≤ 2 ^ 24 → KeepsLimits (gaps s (run (tagged s) edits)) }
{}
