//! Tests of the buffer: worked examples, and long runs beside the plain machine.
//! A crate whose tests stand here is proved once, and not a second time with them.
#![tactic(auto)]

#[cfg(test)]
mod asked;
#[cfg(test)]
mod buffer_tests;
#[cfg(test)]
mod played;
#[cfg(test)]
mod replay_tests;
#[cfg(test)]
mod told;
