//! Tests of points, texts, marks, the tree, the table of places and the outside world.
//! A crate whose tests stand here is proved once, and not a second time with them.
#![tactic(auto)]

#[cfg(test)]
mod line_text_tests;
#[cfg(test)]
mod markers_tests;
#[cfg(test)]
mod outer_tests;
#[cfg(test)]
mod places_tests;
#[cfg(test)]
mod points_tests;
#[cfg(test)]
mod splay_tests;
