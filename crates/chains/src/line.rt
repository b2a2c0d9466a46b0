//! Rows of a text without their endings.
ghost use Rattle.std.specs.Prelude.{◌+◌, ◌≤◌};
ghost use Rattle.points.specs.declared.limits.TheConstants.{MAX_UNITS};

/// A row without its ending: where it starts, and how many units it has.
#[derive(Clone, Copy, Debug)]
pub struct Line {
    pub(crate) start: u32,
    pub(crate) len: u32,
    ghost short: { start + len ≤ MAX_UNITS },
}
