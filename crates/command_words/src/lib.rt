//! The words of the command line: which of them a program takes, and what they ask for.
//!
//! `clap` reads them, by one simple command with a required subcommand (`command`); the numbers among them are read here
//! (`number`). `specs/CommandLine` says which words are a command line, in the words of `clap`'s contract.
#![tactic(auto)]

mod command;
mod line;
mod name;
mod number;
mod read;

pub use line::{CommandLine, WordsRefusal};
pub use name::Name;
pub use read::read_words;
