//! Tests of shelves of texts in layers, and of their readers.
//! A crate whose tests stand here is proved once, and not a second time with them.
#![tactic(auto)]

#[cfg(test)]
mod layers_tests;
#[cfg(test)]
mod shelf_runs_tests;
