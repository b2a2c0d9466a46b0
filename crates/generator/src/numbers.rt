//! What a summary tells.
ghost use Rattle.std.specs.Prelude.{Some};
ghost use Rattle.generator.specs.Summary.{summary_text};

use std::fmt;

/// What a run came to. A number that would pass the end of its type stands still there.
#[derive(Clone, Copy, Debug, Default, PartialEq, Eq)]
pub struct Summary {
    /// The numbered calls.
    pub calls: u64,
    /// The UTF-16 units of the final text.
    pub units: u64,
    /// Its rows.
    pub rows: u64,
    /// The snapshots that were taken.
    pub snapshots: u64,
    /// The hits of all searches of snapshots.
    pub hits: u64,
}

/// Five lines, each with a word and a number.
impl fmt::Display for Summary {
    ghost output = { λ summary. Some (summary_text summary) };

    fn fmt<W: fmt::Write>(&self, f: &mut fmt::Formatter<W>) -> fmt::Result {
        let Summary {
            calls,
            units,
            rows,
            snapshots,
            hits,
        } = *self;
        write!(
            f,
            "calls {calls}\nunits {units}\nrows {rows}\nsnapshots {snapshots}\nhits {hits}\n"
        )
    }
}
