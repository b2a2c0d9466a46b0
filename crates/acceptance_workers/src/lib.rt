//! Tests of `answers`, `gates` and `handover`.
//! A crate whose tests stand here is proved once, and not a second time with them.
#![tactic(auto)]

#[cfg(test)]
mod answers_tests;
#[cfg(test)]
mod gates_tests;
#[cfg(test)]
mod handover_tests;
