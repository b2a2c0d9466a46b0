//! Checks of transcripts over folders in memory: the verdict of each kind, and each fault.
use crate::tests::{call, repeated, words};
use crate::{Status, run_check};
use machine::Place;
use outer::{LiteralMaker, MemFolder, MemSink, SureFolder, SureMaker, SureSink};
use script::ScriptRule;
use std::alloc::Global;

/// A session that takes a snapshot, edits, marks, reads of the snapshot and of a mark, and takes the edit back.
const SCRIPT: &str = r#"{"version":1,"open":{"text":"ab"},"sessions":[[
    {"do":"take","snapshot":1},{"do":"edit","range":[0,0,0,0],"text":"x"},
    {"do":"mark","id":3,"range":[0,2,0,3],"exclusive":false},
    {"do":"read","snapshot":1,"reads":[{"get":"size"},{"get":"pattern","pattern":"b","limit":1}]},
    {"do":"undo"},{"do":"take","snapshot":2},{"do":"release","snapshot":1},
    {"do":"marks","how":"intersecting","range":[0,0,0,9]},{"do":"undo"}]]}"#;

/// Its lawful transcript, in the pieces that the wrong twins change.
const HEAD: &str = r#"{"end":{"count":5,"text":"ab"},"sessions":[["#;

const TAKEN: &str = r#"{"version":0}"#;

const EDITED: &str = r#"{"at":1,"end":[0,1],"from":[0,0],"hits":[0,0,0,0],"to":[0,0]}"#;

const MARKED: &str = r#"{"at":2}"#;

const ANSWERED: &str = r#"{"answers":[{"extent":[0,2],"units":2},{"count":1,"hits":[[0,1,0,2]]}]}"#;

const UNDONE: &str = r#"{"at":3,"end":[0,0],"from":[0,0],"hits":[0,0,0,0],"to":[0,1]}"#;

const AGAIN: &str = r#"{"version":3}"#;

const FOUND: &str = r#"{"at":4,"ids":[3]}"#;

const NOTHING: &str = r#"{"at":5,"no":"Nothing"}"#;

const TAIL: &str = r#"]],"version":1}"#;

const REPLIES: [&str; 9] = [
    TAKEN, EDITED, MARKED, ANSWERED, UNDONE, AGAIN, "null", FOUND, NOTHING,
];

// The transcript with these in the place of its head, of one reply and of its tail.
fn transcript(
    alloc: Global,
    head: &str,
    replaced: usize,
    reply: &str,
    tail: &str,
) -> Option<String> {
    let mut text = String::from_str(alloc, head).ok()?;
    for i in 0..REPLIES.len() {
        let comma = if i == 0 { "" } else { "," };
        text.push_str(comma).ok()?;
        text.push_str(if i == replaced { reply } else { REPLIES[i] })
            .ok()?;
    }
    text.push_str(tail).ok()?;
    Some(text)
}

// A folder with the script, a transcript, and the file that a script may open.
fn files(alloc: Global, script: &[u8], transcript: &[u8]) -> Option<Vec<(String, Vec<u8>)>> {
    let mut files = Vec::new(alloc);
    let script = script.to_vec(alloc).ok()?;
    files
        .push((String::from_str(alloc, "s").ok()?, script))
        .ok()?;
    let transcript = transcript.to_vec(alloc).ok()?;
    files
        .push((String::from_str(alloc, "t").ok()?, transcript))
        .ok()?;
    Some(files)
}

// How the check of these files ends, over a folder, a maker and an output of which these calls fail, and what it writes.
fn checked(
    alloc: Global,
    script: &[u8],
    transcript: &[u8],
    fails: (u64, u64, u64),
) -> Option<(Status, MemSink)> {
    let words = words(alloc, &["check", "s", "t"]).ok()?;
    let mut folder = MemFolder::new(
        files(alloc, script, transcript)?,
        call(alloc, fails.0).ok()?,
    );
    let mut patterns = LiteralMaker::new(call(alloc, fails.1).ok()?);
    let mut output = MemSink::new(alloc, 4096, call(alloc, fails.2).ok()?).ok()?;
    let status = run_check(
        alloc,
        words.as_slice(),
        &mut folder,
        &mut patterns,
        &mut output,
    );
    Some((status, output))
}

// The check of this transcript of the script above writes this line, and ends as the line says.
fn finds(alloc: Global, transcript: &str, line: &str) -> bool {
    match checked(alloc, SCRIPT.as_bytes(), transcript.as_bytes(), (0, 0, 0)) {
        Some((status, output)) => {
            output.bytes() == line.as_bytes() && (status == Status::Done) == (line == "lawful\n")
        }
        None => false,
    }
}

fn finds_in(
    alloc: Global,
    head: &str,
    replaced: usize,
    reply: &str,
    tail: &str,
    line: &str,
) -> bool {
    match transcript(alloc, head, replaced, reply, tail) {
        Some(text) => finds(alloc, text.as_str(), line),
        None => false,
    }
}

#[test]
fn finds_the_first_place(rt: HostRuntime) {
    let edited = r#"{"at":1,"end":[0,1],"from":[0,0],"hits":[0,0,0,0],"to":[0,1]}"#;
    let far = r#"{"at":1,"end":[4294967295,1],"from":[0,0],"hits":[0,0,0,0],"to":[0,0]}"#;
    let more = r#"{"answers":[{"extent":[0,2],"units":2},{"count":2,"hits":[[0,1,0,2]]}]}"#;
    // a range that ends before its start can be read
    let turned = r#"{"answers":[{"extent":[0,2],"units":2},{"count":1,"hits":[[0,2,0,1]]}]}"#;
    let rows = [
        (9, "", "lawful\n"),
        (1, edited, "unlawful call 1\n"),
        (1, far, "unlawful call 1\n"),
        (1, r#"{"at":1,"no":"TooLong"}"#, "unlawful call 1\n"),
        // as can ids out of order
        (7, r#"{"at":4,"ids":[3,2]}"#, "unlawful call 4\n"),
        (7, r#"{"at":4,"ids":[]}"#, "unlawful call 4\n"),
        (0, r#"{"version":1}"#, "unlawful snapshot 1 1\n"),
        (
            5,
            r#"{"version":18446744073709551615}"#,
            "unlawful snapshot 1 6\n",
        ),
        (5, r#"{"version":1}"#, "unlawful snapshot 1 6\n"),
        (3, more, "unlawful snapshot 1 1\n"),
        (3, turned, "unlawful snapshot 1 1\n"),
    ];
    for (place, reply, line) in rows {
        assert!(rt;
            finds_in(rt.alloc(), HEAD, place, reply, TAIL, line),
            "{reply}"
        );
    }
}

#[test]
fn finds_a_wrong_end(rt: HostRuntime) {
    let rows = [
        (HEAD, "lawful\n"),
        (
            r#"{"end":{"count":6,"text":"ab"},"sessions":[["#,
            "unlawful end\n",
        ),
        (
            r#"{"end":{"count":5,"text":"xab"},"sessions":[["#,
            "unlawful end\n",
        ),
        (r#"{"end":{"count":5},"sessions":[["#, "unlawful form\n"),
        (
            r#"{"end":{"count":5.0,"text":"ab"},"sessions":[["#,
            "unlawful form\n",
        ),
    ];
    for (head, line) in rows {
        assert!(rt; finds_in(rt.alloc(), head, 9, "", TAIL, line), "{head}");
    }
}

#[test]
fn finds_wants_of_form(rt: HostRuntime) {
    let rows = [
        // another row's form, a word that the command can't have, another number of answers, a reply too many
        (2, "null"),
        (6, r#"{"at":6}"#),
        (1, r#"{"at":1,"no":"Nothing"}"#),
        (3, r#"{"answers":[{"extent":[0,2],"units":2}]}"#),
        (6, "null,null"),
        // a number that stands twice, one past the last, and none
        (2, r#"{"at":1}"#),
        (8, r#"{"at":6,"no":"Nothing"}"#),
        (2, r#"{"at":0}"#),
        // no transcript: a key too many, a number that isn't whole, negative, too great or no number, a list of another length
        (2, r#"{"at":2,"by":1}"#),
        (2, r#"{"at":2.0}"#),
        (2, r#"{"at":-2}"#),
        (2, r#"{"at":18446744073709551616}"#),
        (2, r#"{"at":1e400}"#),
        (
            1,
            r#"{"at":1,"end":[0,1],"from":[0,0],"hits":[0,0,0],"to":[0,0]}"#,
        ),
        (
            1,
            r#"{"at":1,"end":[0,1],"from":[0,0],"hits":[0,0,0,0],"to":[0,4294967296]}"#,
        ),
        (2, ""),
    ];
    for (place, reply) in rows {
        assert!(rt;
            finds_in(rt.alloc(), HEAD, place, reply, TAIL, "unlawful form\n"),
            "{reply}"
        );
    }
}

#[test]
fn finds_wants_of_form_of_the_whole(rt: HostRuntime) {
    let tails = [
        r#"],[]],"version":1}"#,
        r#"]],"version":2}"#,
        r#"]]}"#,
        r#"]],"version":1}}"#,
    ];
    for tail in tails {
        assert!(rt;
            finds_in(rt.alloc(), HEAD, 9, "", tail, "unlawful form\n"),
            "{tail}"
        );
    }
    let texts = [
        "",
        "[]",
        "null",
        r#"{"end":{"count":0,"text":"ab"},"sessions":[],"version":1}"#,
    ];
    for text in texts {
        assert!(rt; finds(rt.alloc(), text, "unlawful form\n"), "{text}");
    }
}

// The check of a transcript of so many of these bytes finds that it is none.
fn is_no_transcript(alloc: Global, byte: u8, count: usize) -> bool {
    let Ok(bytes) = repeated(alloc, byte, count) else {
        return false;
    };
    match checked(alloc, SCRIPT.as_bytes(), bytes.as_slice(), (0, 0, 0)) {
        Some((status, output)) => {
            status == Status::Unlawful { place: Place::Form }
                && output.bytes() == b"unlawful form\n".as_slice()
        }
        None => false,
    }
}

#[test]
fn finds_that_bytes_are_no_transcript(rt: HostRuntime) {
    // nested to the greatest depth and beyond it, and no UTF-8
    for (byte, count) in [(b'[', 127), (b'[', 100_000), (b'"', 1), (0xFF, 3)] {
        assert!(rt; is_no_transcript(rt.alloc(), byte, count), "{byte}");
    }
}

// How a check ends where these calls of the folder, of the maker and of the output fail, and how much it writes.
fn ends(
    alloc: Global,
    script: &str,
    transcript: &str,
    fails: (u64, u64, u64),
) -> Option<(Status, usize)> {
    let (status, output) = checked(alloc, script.as_bytes(), transcript.as_bytes(), fails)?;
    Some((status, output.bytes().len()))
}

const OPENS: &str = r#"{"version":1,"open":{"file":"s","encoding":"utf8"},"sessions":[[]]}"#;

const EMPTY: &str = r#"{"end":{"count":0,"text":""},"sessions":[[]],"version":1}"#;

const WANTING: &str = r#"{"version":1,"open":{"file":"none","encoding":"utf8"},"sessions":[[]]}"#;

#[test]
fn answers_each_fault_of_a_check(rt: HostRuntime) {
    let pattern = Status::PatternRefused {
        session: 1,
        command: 4,
    };
    let shape = Status::ScriptRefused {
        session: 0,
        command: 0,
        why: ScriptRule::BadShape,
    };
    let form = Status::Unlawful { place: Place::Form };
    let end = Status::Unlawful { place: Place::End };
    let rows = [
        // the script's file, the transcript's, and the one that the script opens
        (OPENS, EMPTY, (1, 0, 0), (Status::LoadFault, 0)),
        (OPENS, EMPTY, (2, 0, 0), (Status::LoadFault, 0)),
        (OPENS, EMPTY, (3, 0, 0), (Status::LoadFault, 0)),
        (OPENS, EMPTY, (4, 0, 0), (end, 13)),
        (WANTING, EMPTY, (0, 0, 0), (Status::LoadFault, 0)),
        // the script comes before the form, and that before the file
        ("{}", "", (0, 0, 0), (shape, 0)),
        (WANTING, "", (0, 0, 0), (form, 14)),
        (SCRIPT, EMPTY, (0, 1, 0), (pattern, 0)),
        (SCRIPT, EMPTY, (0, 0, 0), (form, 14)),
        // the put fails; the flush fails, and the line was taken
        (SCRIPT, EMPTY, (0, 0, 1), (Status::WriteFault, 0)),
        (SCRIPT, EMPTY, (0, 0, 2), (Status::WriteFault, 14)),
    ];
    for (script, transcript, fails, wanted) in rows {
        assert!(rt;
            ends(rt.alloc(), script, transcript, fails) == Some(wanted),
            "{script} {transcript}"
        );
    }
}

// How a check ends of files of so many spaces.
fn ends_of_spaces(alloc: Global, script: usize, transcript: usize) -> Option<Status> {
    let script = repeated(alloc, b' ', script).ok()?;
    let transcript = repeated(alloc, b' ', transcript).ok()?;
    let (status, _) = checked(alloc, script.as_slice(), transcript.as_slice(), (0, 0, 0))?;
    Some(status)
}

#[test]
fn refuses_files_past_their_limit(rt: HostRuntime) {
    let past = (1 << 26) + 1;
    assert!(rt; ends_of_spaces(rt.alloc(), past, 0) == Some(Status::InputTooLong));
    assert!(rt; ends_of_spaces(rt.alloc(), 0, past) == Some(Status::InputTooLong));
}

// How a check with these words ends over objects that never fail, and whether it writes this.
fn ends_surely(alloc: Global, line: &[&str], text: &str) -> Option<Status> {
    let words = words(alloc, line).ok()?;
    let lawful = transcript(alloc, HEAD, 9, "", TAIL)?;
    let mut folder = SureFolder::new(files(alloc, SCRIPT.as_bytes(), lawful.as_str().as_bytes())?);
    let mut patterns = SureMaker::new();
    let mut output = SureSink::new(alloc, 4096).ok()?;
    let status = run_check(
        alloc,
        words.as_slice(),
        &mut folder,
        &mut patterns,
        &mut output,
    );
    if output.bytes() == Some(text.as_bytes()) {
        Some(status)
    } else {
        None
    }
}

#[test]
fn checks_over_sure_twins(rt: HostRuntime) {
    assert!(rt; ends_surely(rt.alloc(), &["check", "s", "t"], "lawful\n") == Some(Status::Done));
    assert!(rt; ends_surely(rt.alloc(), &["check", "s"], "") == Some(Status::Usage));
    assert!(rt; ends_surely(rt.alloc(), &["run"], "") == Some(Status::Usage));
}
