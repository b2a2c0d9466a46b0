//! Laws on patches and texts: each is a function whose contract is the law.
ghost use Rattle.std.specs.Prelude.{◌≡◌, ℕ, List};
ghost use Rattle.patch_algebra.specs.Composing.{FitsBoth, composed};

use patch::Patch;
use patch::laws::rules_are_kept;

/// Two patches in turn make the same changes on every text that fits the first and whose result
/// fits the second.
pub fn composed_alike(first: &Patch, second: &Patch)
    ensures { (s t : List ℕ) → FitsBoth first.now.changes second.now.changes s
        → FitsBoth first.now.changes second.now.changes t → composed first.now.changes second.now.changes s
        ≡ composed first.now.changes second.now.changes t }
{
    rules_are_kept(first);
    rules_are_kept(second);
}
