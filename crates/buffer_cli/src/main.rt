//! The program: it runs a script from standard input, over files of the current folder, and writes its transcript to standard output;
//! or it writes a made script; or it checks a transcript.
//!
//! `words` tells the calls by their words, `make` is the one that makes scripts, `bulk` runs one and sums it up, and `check` checks a transcript.
//! A run goes through these modules: `input` reads the script's bytes, `answer` turns them into those
//! of the transcript, `load` reads the file that the script opens, `matchers` makes the matchers of its patterns, `session` answers each command by calls of the buffer,
//! `reads` answers the reads of a snapshot, `saves` puts a text to the next sink, and `output` writes the bytes.
//! `run` joins them, and its contract says what the program does.
#![tactic(auto)]

mod adapters;
mod answer;
mod bulk;
#[cfg(test)]
mod bulk_tests;
mod check;
#[cfg(test)]
mod check_tests;
#[cfg(test)]
mod file_tests;
mod folder;
mod input;
mod load;
mod make;
mod matchers;
mod output;
mod reads;
mod regexes;
mod run;
#[cfg(test)]
mod save_tests;
mod saves;
mod session;
mod status;
mod stop;
#[cfg(test)]
mod tests;
mod unheard;
mod words;

use adapters::{Reading, Writing};
pub use bulk::run_bulk;
pub use check::run_check;
use folder::CurrentFolder;
pub use make::run_make;
use points::MAX_WATCHERS;
use regexes::RegexMaker;
pub use run::run_script;
pub use status::Status;
use std::process::ExitCode;
use std::{env, io};
use unheard::are_unheard;
use watch::ListWatcher;

fn main(rt: HostRuntime) -> ExitCode {
    let status = run_program(&rt);
    if let Some(line) = status.fault_line() {
        let _ = rt.eprintln(line);
    }
    ExitCode::from(status.code())
}

fn run_program(rt: &HostRuntime) -> Status {
    let mut args = match env::args(rt) {
        Ok(args) => args,
        Err(error) if error.kind() == io::ErrorKind::OutOfMemory => return Status::NoMemory,
        Err(_) => return Status::Usage,
    };
    let alloc = rt.alloc();
    let _program = args.next();
    let Ok(words) = args.collect::<Vec<String>>(alloc) else {
        return Status::NoMemory;
    };
    let mut output = Writing::new(io::writer(rt));
    if words.first().is_some_and(|word| word.as_str() == "make") {
        return run_make(alloc, words.as_slice(), &mut output);
    }
    let mut folder = CurrentFolder::new(rt);
    let mut patterns = RegexMaker::new();
    if words.first().is_some_and(|word| word.as_str() == "check") {
        return run_check(
            alloc,
            words.as_slice(),
            &mut folder,
            &mut patterns,
            &mut output,
        );
    }
    // Watchers that keep nothing of what they hear.
    let mut watchers: Vec<Box<ListWatcher>> = Vec::new(alloc);
    for _ in 0..MAX_WATCHERS {
        let Ok(watcher) = ListWatcher::new(alloc, 0) else {
            return Status::NoMemory;
        };
        let Ok(watcher) = Box::new(alloc, watcher) else {
            return Status::NoMemory;
        };
        if watchers.push(watcher).is_err() {
            return Status::NoMemory;
        }
    }
    if watchers.len() != MAX_WATCHERS || !are_unheard(watchers.as_slice()) {
        return Status::NoMemory;
    }
    if words.first().is_some_and(|word| word.as_str() == "bulk") {
        return run_bulk(alloc, words.as_slice(), &mut output, watchers);
    }
    let mut input = Reading::new(rt.reader());
    run_script(
        alloc,
        words.as_slice(),
        &mut input,
        &mut output,
        &mut folder,
        &mut patterns,
        watchers,
    )
}
