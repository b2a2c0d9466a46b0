//! Command lines that are taken, and others that are refused.
use command_words::{CommandLine, WordsRefusal, read_words};
use std::alloc::Global;

fn asked(alloc: Global, words: &[&str]) -> Option<Result<CommandLine, WordsRefusal>> {
    let mut list = Vec::new(alloc);
    for word in words {
        let word = String::from_str(alloc, word).ok()?;
        list.push(word).ok()?;
    }
    Some(read_words(alloc, list.as_slice()))
}

// A command line whose numbers or files are told.
#[derive(Clone, Copy)]
enum Wanted {
    Run(u32),
    Make(u32, u32, u32),
    Check(&'static str, &'static str),
    Bulk(u32, u32, u32),
}

// The words ask for this.
fn is_taken(alloc: Global, words: &[&str], wanted: Wanted) -> bool {
    match asked(alloc, words) {
        Some(Ok(line)) => is_line(&line, wanted),
        _ => false,
    }
}

fn is_line(line: &CommandLine, wanted: Wanted) -> bool {
    match (line, wanted) {
        (CommandLine::Run { workers }, Wanted::Run(number)) => *workers == number,
        (
            CommandLine::Make {
                first,
                edits,
                sessions,
            },
            Wanted::Make(one, two, three),
        ) => (*first, *edits, *sessions) == (one, two, three),
        (
            CommandLine::Bulk {
                first,
                edits,
                workers,
            },
            Wanted::Bulk(one, two, three),
        ) => (*first, *edits, *workers) == (one, two, three),
        (CommandLine::Check { script, transcript }, Wanted::Check(one, two)) => {
            script.as_str() == one && transcript.as_str() == two
        }
        _ => false,
    }
}

// They are no command line.
fn is_refused(alloc: Global, words: &[&str]) -> bool {
    match asked(alloc, words) {
        Some(Err(refusal)) => refusal == WordsRefusal::Usage,
        _ => false,
    }
}

#[test]
fn takes_the_words_of_each_call(rt: HostRuntime) {
    let cases: [(&[&str], Wanted); 12] = [
        (&["run"], Wanted::Run(4)),
        (&["run", "--workers", "0"], Wanted::Run(0)),
        (&["run", "--workers=16"], Wanted::Run(16)),
        (&["make", "1", "2", "1"], Wanted::Make(1, 2, 1)),
        (&["make", "0", "1", "8"], Wanted::Make(0, 1, 8)),
        (
            &["make", "65535", "4096", "1"],
            Wanted::Make(65_535, 4_096, 1),
        ),
        (&["make", "--", "7", "8", "2"], Wanted::Make(7, 8, 2)),
        (
            &["check", "a.json", "b.json"],
            Wanted::Check("a.json", "b.json"),
        ),
        (&["check", "b", "--", "-a"], Wanted::Check("b", "-a")),
        (&["check", "", "\u{e9}"], Wanted::Check("", "\u{e9}")),
        (&["bulk", "1", "2", "0"], Wanted::Bulk(1, 2, 0)),
        (
            &["bulk", "65535", "4096", "16"],
            Wanted::Bulk(65_535, 4_096, 16),
        ),
    ];
    for (words, line) in cases {
        assert!(rt; is_taken(rt.alloc(), words, line));
    }
}

#[test]
fn refuses_words_that_the_command_lacks(rt: HostRuntime) {
    let cases: [&[&str]; 18] = [
        &[],
        &[""],
        &["run", "4"],
        &["run", "--workers"],
        &["run", "--worker", "4"],
        &["run", "--workers", "1", "--workers", "2"],
        &["run", "--help"],
        &["--help"],
        &["--version"],
        &["help"],
        &["run", "run"],
        &["make", "1", "2"],
        &["make", "1", "2", "1", "1"],
        &["bulk", "1", "2"],
        &["check", "a"],
        &["check", "a", "b", "c"],
        &["check", "a", "--b"],
        &["Make", "1", "2", "1"],
    ];
    for words in cases {
        assert!(rt; is_refused(rt.alloc(), words));
    }
}

#[test]
fn refuses_numbers_out_of_range_or_form(rt: HostRuntime) {
    let cases: [&[&str]; 14] = [
        &["run", "--workers", "17"],
        &["run", "--workers", "01"],
        &["run", "--workers", "+1"],
        &["run", "--workers="],
        &["make", "1", "2", "9"],
        &["make", "1", "2", "0"],
        &["make", "1", "0", "1"],
        &["make", "1", "4097", "1"],
        &["make", "65536", "1", "1"],
        &["make", "1000000000", "1", "1"],
        &["make", "-1", "1", "1"],
        &["make", "1", "2", "1a"],
        &["bulk", "1", "2", "17"],
        &["bulk", "1", "0", "4"],
    ];
    for words in cases {
        assert!(rt; is_refused(rt.alloc(), words));
    }
}
