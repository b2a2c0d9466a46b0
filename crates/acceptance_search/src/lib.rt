//! Tests of searches, and of the makers of matchers in memory.
//! A crate whose tests stand here is proved once, and not a second time with them.
#![tactic(auto)]

#[cfg(test)]
mod search_tests;
