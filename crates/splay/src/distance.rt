//! Distances in a text as measures: those of stretches in a row add up to the distance from the start of the first to
//! the end of the last.
ghost use Rattle.std.specs.Prelude.{◌+◌, ◌-◌, ◌^◌, min};
ghost use Rattle.std.proofs.Common.{arith, ap};
ghost use Rattle.std.proofs.lemmas.Bool.Decides.{nat_tests};
ghost use Rattle.points.specs.Point.{traverse};
ghost use Rattle.points.specs.Distance.{point_of};
ghost use Rattle.points.proofs.PointLemmas.{traverse_assoc, traverse_origin, traverse-origin};
ghost use Rattle.splay.specs.Distances.{distance_to};

use crate::measure::Measure;
use points::Distance;

impl Measure for Distance {
    ghost unit = { record { rows = 0; columns = 0 } };

    ghost weight = { λ a. min (a.rows + a.columns) (2 ^ 64 - 1) };

    ghost add = { λ a b. distance_to (traverse (point_of a) (point_of b)) };

    ghost associative = { λ a b c. ap distance_to (traverse_assoc (point_of a) (point_of b) (point_of c)) };

    ghost unit_left = { λ a. ap distance_to (traverse-origin (point_of a)) };

    ghost unit_right = { λ a. ap distance_to (traverse_origin (point_of a)) };

    ghost lighter = { λ a b. Prim.grind (arith, nat_tests) };

    fn unit() -> Self {
        Distance {
            rows: 0,
            columns: 0,
        }
    }

    fn weight(&self) -> u64 {
        self.rows.saturating_add(self.columns)
    }

    fn add(&self, other: &Self) -> Self {
        self.then(*other)
    }
}
