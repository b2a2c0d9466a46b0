//! Numbers that look random, for the tests of other crates: from one seed always the same ones.
#![tactic(auto)]

ghost use Rattle.std.specs.Prelude.{◌≤◌};

/// Numbers in a fixed row.
#[derive(Drop)]
pub struct Numbers {
    state: u64,
}

impl Numbers {
    /// The row that begins with this seed.
    pub fn new(seed: u64) -> Self {
        Numbers { state: seed }
    }

    /// The next number, from 0 up to `most`.
    pub fn up_to(&mut self, most: u32) -> u32
        ensures { result ≤ most }
    {
        // The multiplier of Knuth's MMIX; the upper half of a state is the one that looks random.
        self.state = self
            .state
            .wrapping_mul(6364136223846793005)
            .wrapping_add(1442695040888963407);
        ((self.state >> 32) % (u64::from(most) + 1)) as u32
    }
}
