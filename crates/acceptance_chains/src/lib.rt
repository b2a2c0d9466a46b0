//! Tests of texts in layers.
//! A crate whose tests stand here is proved once, and not a second time with them.
#![tactic(auto)]

#[cfg(test)]
mod chain_cases;
#[cfg(test)]
mod chain_clips_tests;
#[cfg(test)]
mod chain_edits_tests;
#[cfg(test)]
mod chain_runs_tests;
#[cfg(test)]
mod chains_tests;
#[cfg(test)]
mod squash_tests;
