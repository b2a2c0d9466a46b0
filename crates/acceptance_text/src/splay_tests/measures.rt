//! The measures and the searches that the tests of the tree use: a count, and a pair of distances.
ghost use Rattle.std.specs.Prelude.{◌≡◌, ℕ, ◌+◌, ◌-◌, ◌^◌, ◌==◌, ◌&&◌, ◌||◌, Bool, min, nat_lt};
ghost use Rattle.std.proofs.Common.{arith};
ghost use Rattle.std.proofs.lemmas.Bool.Decides.{nat_tests};

use points::Distance;
use splay::{Measure, Seek};

/// How much there is of something.
#[derive(Clone, Copy, Debug, PartialEq, Eq)]
pub struct Count(pub u64);

impl Measure for Count {
    ghost unit = { record { 0 = 0 } };

    ghost weight = { λ a. a.0 };

    ghost add = { λ a b. record { 0 = a.0 + b.0 } };

    ghost associative = { λ a b c. Prim.grind arith };

    ghost unit_left = { λ a. Prim.grind arith };

    ghost unit_right = { λ a. Prim.grind arith };

    ghost lighter = { λ a b. Prim.grind arith };

    fn unit() -> Self {
        Count(0)
    }

    fn weight(&self) -> u64 {
        self.0
    }

    fn add(&self, other: &Self) -> Self {
        Count(self.0 + other.0)
    }
}

/// A measure on the old side of a change, and one on the new side.
#[derive(Clone, Copy, Debug, PartialEq, Eq)]
pub struct Sides<M> {
    pub old: M,
    pub new: M,
}

impl<M: Measure> Measure for Sides<M> {
    ghost unit = { record { old = M.unit; new = M.unit } };

    ghost weight = { λ a. min (M.weight a.old + M.weight a.new) (2 ^ 64 - 1) };

    ghost add = { λ a b. record { old = M.add a.old b.old; new = M.add a.new b.new } };

    ghost associative = { λ a b c. Prim.grind (arith, M.associative a.old b.old c.old, M.associative a.new b.new c.new) };

    ghost unit_left = { λ a. Prim.grind (arith, M.unit_left a.old, M.unit_left a.new) };

    ghost unit_right = { λ a. Prim.grind (arith, M.unit_right a.old, M.unit_right a.new) };

    ghost lighter = { λ a b. Prim.grind (arith, M.lighter a.old b.old, M.lighter a.new b.new) };

    fn unit() -> Self {
        Sides {
            old: M::unit(),
            new: M::unit(),
        }
    }

    fn weight(&self) -> u64 {
        self.old.weight().saturating_add(self.new.weight())
    }

    fn add(&self, other: &Self) -> Self {
        Sides {
            old: self.old.add(&other.old),
            new: self.new.add(&other.new),
        }
    }
}

/// Passes sums below a limit.
#[derive(Drop)]
pub struct Below(pub u64);

impl Seek<Count> for Below {
    ghost passes = { λ s a. nat_lt a.0 s.0 };

    ghost stays = { λ s a b h. Prim.grind (arith, nat_tests) };

    fn passes(&self, sum: &Count) -> bool {
        sum.0 < self.0
    }
}

/// Passes sums that end before a point on the new side.
#[derive(Drop)]
pub struct NewBefore(pub Distance);

impl Seek<Sides<Distance>> for NewBefore {
    ghost passes = { λ s a. nat_lt a.new.rows s.0.rows || ((a.new.rows == s.0.rows) && nat_lt a.new.columns s.0.columns) };

    ghost stays = { λ s a b h. Prim.grind (arith, nat_tests) };

    fn passes(&self, sum: &Sides<Distance>) -> bool {
        sum.new.rows < self.0.rows
            || (sum.new.rows == self.0.rows && sum.new.columns < self.0.columns)
    }
}
