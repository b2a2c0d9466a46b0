//! Old and new texts of one buffer, in layers that they share.
//!
//! - A [`Shelf`] has [`places::PLACES`] places. At each stands a text in layers with a version, or nothing; what was put
//!   there last is the *top*. An edit makes a [`NewLayer`] of the top, which stands at no place until it is installed.
//! - A new layer of depth `n` stands on what has depth `n - 1` in the chain of the top: on the top itself where a layer
//!   was added, on what the top stands on where the edit went into the top's newest layer, and on nothing where it is a
//!   base.
//! - A *mask* says which of 32 hands hold on to a place. What no hand and no top needs is freed.
//! - A [`Reader`] shares the layers of one place, and reads their text whatever becomes of the place.
#![tactic(auto)]

mod build;
mod ground;
pub mod laws;
mod new_layer;
mod reader;
mod shape;
mod shelf;
mod versioned;

pub use new_layer::NewLayer;
pub use reader::Reader;
pub use shape::Shape;
pub use shelf::{Shelf, places_are_sound};
pub use versioned::Versioned;
