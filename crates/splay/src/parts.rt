//! Sums of parts of the list. Nothing is added to the sum of no items, whose weight no law bounds.
ghost use Rattle.std.specs.Prelude.{◌≡◌, ℕ, ◌+◌, ◌≤◌, ◌<◌, ◌^◌};
ghost use Rattle.splay.specs.Sums.{sum_behind, all_behind, count_in, weight_in, weight_of_part, tally_behind, tally_between};

use crate::measure::Measure;
use crate::store::Tally;

/// The sum of nothing or of `before`, with `own` behind it.
pub(crate) fn with<M: Measure>(before: Option<M>, own: &M) -> M
    requires { weight_in M.weight before + M.weight own.now ≤ 2 ^ 62 }
    ensures { result ≡ sum_behind M.add before own.now }
{
    match before {
        Some(sum) => sum.add(own),
        None => *own,
    }
}

/// The sum of nothing or of `before`, with a subtree behind it.
pub(crate) fn behind<M: Measure>(before: Option<M>, tally: Option<Tally<M>>) -> Option<M>
    requires { weight_in M.weight before + weight_of_part M.weight tally ≤ 2 ^ 62 }
    ensures { result ≡ all_behind M.add before tally }
{
    match tally {
        Some(tally) => Some(with(before, &tally.all)),
        None => before,
    }
}

// The tally of a subtree and of an item behind it.
fn followed<M: Measure>(left: Option<Tally<M>>, own: &M) -> Tally<M>
    requires light { weight_of_part M.weight left + M.weight own.now ≤ 2 ^ 62 }
    requires few { count_in left + 1 < 2 ^ 32 }
    ensures sum { result ≡ tally_behind M.add left own.now }
    ensures weight { M.weight result.all ≤ weight_of_part M.weight left + M.weight own.now }
{
    match left {
        Some(left) => Tally {
            count: left.count + 1,
            all: left.all.add(own),
        },
        None => Tally {
            count: 1,
            all: *own,
        },
    }
}

/// The tally of two subtrees and of the item between them.
pub(crate) fn tally_between<M: Measure>(
    left: Option<Tally<M>>,
    own: &M,
    right: Option<Tally<M>>,
) -> Tally<M>
    requires light { weight_of_part M.weight left + M.weight own.now + weight_of_part M.weight right ≤ 2 ^ 62 }
    requires few { count_in left + 1 + count_in right < 2 ^ 32 }
    ensures { result ≡ tally_between M.add left own.now right }
{
    let first = followed(left, own);
    match right {
        Some(right) => Tally {
            count: first.count + right.count,
            all: first.all.add(&right.all),
        },
        None => first,
    }
}
