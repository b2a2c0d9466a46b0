//! A table of numbered places in which things stand on one another, for readers that keep old ones alive.
//!
//! - A *place* is a number below [`PLACES`]. What is put in stands at the lowest free place and is the newest, the
//!   *top*.
//! - What stands at a place stands on nothing, or on an older place, its *parent*; a *chain* is a place and those
//!   below it, at most [`MAX_DEPTH`] of them.
//! - A *mask* says which *hands* are on a place, one bit each. [`Table::narrow`] leaves each hand at the newest place
//!   that has it, and [`Table::collect`] frees what no hand and no top needs, so there is always room for more.
//!
//! What is held at a place is never looked into.
#![tactic(auto)]

mod hands;
mod look;
mod marks;
mod placed;
mod table;

pub use placed::{MAX_DEPTH, PLACES, Placed, TopId};
pub use table::{Table, places_are_sound};
