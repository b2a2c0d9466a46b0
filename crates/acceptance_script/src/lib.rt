//! Tests of commands and replies as data, and of scripts and transcripts as documents.
//! A crate whose tests stand here is proved once, and not a second time with them.
#![tactic(auto)]

#[cfg(test)]
mod generator_tests;
#[cfg(test)]
mod machine_tests;
#[cfg(test)]
mod plain_replay_tests;
#[cfg(test)]
mod script_tests;
#[cfg(test)]
mod script_writer_tests;
#[cfg(test)]
mod transcript_check_tests;
#[cfg(test)]
mod transcripts_tests;
