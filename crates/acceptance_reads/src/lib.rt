//! Tests of what a plain text answers to reads, and no code.
#![tactic(auto)]

#[cfg(test)]
mod plain_reads_tests;
