//! Tests of codecs.
//! A crate whose tests stand here is proved once, and not a second time with them.
#![tactic(auto)]

#[cfg(test)]
mod codecs_tests;
#[cfg(test)]
mod plain_utf8;
