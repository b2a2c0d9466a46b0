//! Tests of `shared_buffer` and `sessions` over the plain machine as running code.
//! A crate whose tests stand here is proved once, and not a second time with them.
#![tactic(auto)]

#[cfg(test)]
mod sessions_tests;
#[cfg(test)]
mod shared_buffer_tests;
