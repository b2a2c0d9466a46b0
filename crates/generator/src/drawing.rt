//! The numbers that a script is made of.
ghost use Rattle.std.specs.Prelude.{◌≡◌, ◌<◌, ◌≤◌, ◌%◌};
ghost use Rattle.generator.specs.Generator.{next_state};

/// What numbers are drawn from: a state, which each draw moves on.
#[derive(Debug, Drop)]
pub(crate) struct Drawing {
    pub(crate) state: u32,
    ghost small: { state < 65537 },
}

impl Drawing {
    /// Begins in a state.
    pub(crate) fn new(state: u32) -> Self
        requires { state < 65537 }
        ensures { result.state ≡ state }
    {
        Drawing { state }
    }

    /// A number below `n`.
    #[tactic(auto, unfolding(crate::specs::Generator::next_state))]
    pub(crate) fn draw(&mut self, n: u32) -> u32
        requires { 0 < n }
        ensures state { self.new.state ≡ next_state self.old.state }
        ensures drawn { result ≡ next_state self.old.state % n }
        ensures below { result < n }
    {
        self.state = (75 * self.state + 74) % 65_537;
        self.state % n
    }
}
