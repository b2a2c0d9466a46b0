//! A text in layers: a base, and overlays above it that each say what changed.
//!
//! An edit of a long text doesn't copy it: it copies the changes of the top layer alone, and the layers
//! below are shared. A look-up walks down from the top layer: where a place stands in what the layer put
//! in, it is found there; elsewhere it is moved down to the layer below.
//!
//! Contracts see a chain as its base, and each layer above it as the text that it gives, each unit with
//! its offset in the text below where it comes from there.
#![tactic(auto)]

mod chain;
mod change;
mod clip;
mod edit;
mod flatten;
mod held;
pub mod laws;
mod line;
mod lookup;
mod measure;
mod moving;
mod overlay;
mod pieces;
mod ranges;
mod rows;
mod shape;
mod size;
mod spot;
mod squash;
mod stand;
mod stretch;
mod weaver;

pub use chain::Chain;
pub use pieces::Pieces;
pub use size::LayerSize;
pub use spot::Spot;
