//! The smallest object that a turn table can hold: a number that calls raise, and a row of hands. It shows how an
//! object meets the trait, and the tests of the table play on it.
#![tactic(auto)]

mod register;

pub use register::{Call, Register, Reply, Shown, Told};

#[cfg(test)]
mod tests;
