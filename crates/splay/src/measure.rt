//! Measures, which a tree adds up over stretches of its list, and tests of such sums.
ghost use Rattle.std.specs.Prelude.{◌≡◌, ℕ, ◌+◌, ◌≤◌, ◌^◌, Bool, false};

/// What a value adds to the sums of a tree, as a count or an extent.
pub trait Measure: Copy {
    ghost unit: { Self };

    ghost weight: { Self → ℕ };

    ghost add: { Self → Self → Self };

    /// The sum of nothing.
    fn unit() -> Self
        ensures { result ≡ unit };

    /// A bound that keeps sums small: a sum weighs at most what its parts weigh together.
    fn weight(&self) -> u64
        ensures { result ≡ weight self.now };

    /// This measure, followed by another.
    fn add(&self, other: &Self) -> Self
        requires { weight self.now + weight other.now ≤ 2 ^ 62 }
        ensures { result ≡ add self.now other.now };

    ghost associative: { (a b c : Self) → add (add a b) c ≡ add a (add b c) };

    ghost unit_left: { (a : Self) → add unit a ≡ a };

    ghost unit_right: { (a : Self) → add a unit ≡ a };

    ghost lighter: { (a b : Self) → weight (add a b) ≤ weight a + weight b };
}

/// A test of a sum, for a search. Where a sum fails it, so does the sum with anything added behind it.
pub trait Seek<M: Measure> {
    ghost passes: { Self → M → Bool };

    fn passes(&self, sum: &M) -> bool
        ensures { result ≡ passes self.now sum.now };

    ghost stays: { (s : Self) (a b : M) → passes s a ≡ false → passes s (M.add a b) ≡ false };
}
