//! Made scripts, worked out from the draws, and summaries.
use generator::{Summary, make_script, summary};
use machine::{ReadAnswer, Reply, Sequence, Text, Transcript, TranscriptEnd};
use points::Point;
use script_writer::script_bytes;
use std::alloc::Global;

// The text of a made script.
fn made(alloc: Global, first: u32, edits: u32, sessions: u32) -> Option<Vec<u8>> {
    if first > 65_535 {
        return None;
    }
    if edits > 4_096 {
        return None;
    }
    if sessions > 8 {
        return None;
    }
    let script = make_script(alloc, first, edits, sessions).ok()?;
    script_bytes(alloc, &script).ok()
}

// The sessions of a made script stand so in its text.
fn is_made(alloc: Global, numbers: (u32, u32, u32), sessions: &str) -> bool {
    let (first, edits, count) = numbers;
    match made(alloc, first, edits, count) {
        Some(bytes) => is_text_of(alloc, bytes.as_slice(), sessions),
        None => false,
    }
}

fn is_text_of(alloc: Global, bytes: &[u8], sessions: &str) -> bool {
    match format!(in alloc;
        "{{\"open\":{{\"text\":\"abc\\ndef\\n\"}},\"sessions\":[{sessions}],\"version\":1}}\n"
    ) {
        Ok(wanted) => bytes == wanted.as_bytes(),
        Err(_) => false,
    }
}

// The text of a made script ends so.
fn ends_in(alloc: Global, edits: u32, end: &str) -> bool {
    match made(alloc, 1, edits, 1) {
        Some(bytes) => bytes.ends_with(end.as_bytes()),
        None => false,
    }
}

// The draws from 1: 149, 11249, 57305, 38044 and 35283, which give 21, 1, 1, 6 and 0; and then 24819, 26463, 18689, 25472
// and 9901, which give 51, 15, 1, 18 and 1.
#[test]
fn makes_the_edits_that_are_drawn(rt: HostRuntime) {
    assert!(rt;
        is_made(
            rt.alloc(),
            (1, 2, 1),
            r#"[{"do":"edit","range":[21,1,21,2],"text":"g"},{"do":"edit","range":[51,15,51,16],"text":"ss"}]"#
        )
    );
}

#[test]
fn one_state_runs_through_the_sessions(rt: HostRuntime) {
    assert!(rt;
        is_made(
            rt.alloc(),
            (1, 1, 2),
            r#"[{"do":"edit","range":[21,1,21,2],"text":"g"}],[{"do":"edit","range":[51,15,51,16],"text":"ss"}]"#
        )
    );
}

#[test]
fn sends_a_snapshot_away_with_each_16th_block(rt: HostRuntime) {
    let end =
        r#"{"do":"take","snapshot":16},{"do":"send","reads":[{"get":"find","limit":1,"needle":"a"},{"get":"size"}],"snapshot":16}]],"version":1}
"#;
    assert!(rt; ends_in(rt.alloc(), 16, end));
}

#[test]
fn squashes_with_each_64th_block(rt: HostRuntime) {
    let end = r#"{"get":"size"}],"snapshot":64},{"do":"squash"}]],"version":1}
"#;
    assert!(rt; ends_in(rt.alloc(), 64, end));
}

fn list<T: Drop>(alloc: Global, first: T, second: T) -> Option<Sequence<T>> {
    let mut members = Vec::new(alloc);
    members.push(first).ok()?;
    members.push(second).ok()?;
    Some(Sequence::new(members))
}

fn found(alloc: Global, count: u64) -> ReadAnswer {
    ReadAnswer::Found {
        count,
        hits: Sequence::new(Vec::new(alloc)),
    }
}

// A session that took a snapshot and was told so many hits of it, and then its size.
fn session(alloc: Global, count: u64) -> Option<Sequence<Reply>> {
    let size = ReadAnswer::Size {
        extent: Point { row: 0, column: 3 },
        units: 3,
    };
    let answers = list(alloc, found(alloc, count), size)?;
    list(
        alloc,
        Reply::Taken { version: 9 },
        Reply::Answered { answers },
    )
}

// A transcript of two such sessions.
fn transcript(alloc: Global, one: u64, two: u64) -> Option<Transcript> {
    Some(Transcript {
        end: TranscriptEnd {
            count: 5,
            text: Text::from_str(alloc, "a\r\n\u{1d11e}b").ok()?,
        },
        sessions: list(alloc, session(alloc, one)?, session(alloc, two)?)?,
        version: 1,
    })
}

fn has_hits(alloc: Global, one: u64, two: u64, hits: u64) -> bool {
    match transcript(alloc, one, two) {
        Some(transcript) => {
            summary(&transcript)
                == Summary {
                    calls: 5,
                    units: 6,
                    rows: 2,
                    snapshots: 2,
                    hits,
                }
        }
        None => false,
    }
}

#[test]
fn sums_a_transcript_up(rt: HostRuntime) {
    assert!(rt; has_hits(rt.alloc(), 3, 4, 7));
    assert!(rt; has_hits(rt.alloc(), u64::MAX, 1, u64::MAX));
}
