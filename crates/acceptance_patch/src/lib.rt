//! Tests of patches, and of what stands on them: patches as functions, steps and watchers.
//! A crate whose tests stand here is proved once, and not a second time with them.
#![tactic(auto)]

#[cfg(test)]
mod edit_history_tests;
#[cfg(test)]
mod patch_algebra_tests;
#[cfg(test)]
mod patch_cases;
#[cfg(test)]
mod patch_tests;
#[cfg(test)]
mod splice_runs_tests;
#[cfg(test)]
mod tagged_runs;
#[cfg(test)]
mod watch_tests;
