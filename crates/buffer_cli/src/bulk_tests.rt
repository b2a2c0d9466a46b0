//! Runs of made scripts, summed up.
use crate::tests::words;
use crate::unheard::are_unheard;
use crate::{Status, run_bulk};
use outer::MemSink;
use points::MAX_WATCHERS;
use std::alloc::Global;
use watch::ListWatcher;

/// What `bulk 1 2 0` writes, by the worked draws of docs/formats.md: the final text is `abc` LF `def` LF `gss`.
const SUMMED: &str = "calls 2\nunits 11\nrows 3\nsnapshots 0\nhits 0\n";

/// What `bulk 1 16 4` writes: the snapshot of the last edit is searched for `a`.
const SEARCHED: &str = "calls 16\nunits 44\nrows 8\nsnapshots 1\nhits 4\n";

// Whether `bulk` ends so over an output of which this call fails, and writes so much.
fn sums(alloc: Global, line: &[&str], fails: u64, status: Status, text: &str) -> bool {
    match summed(alloc, line, fails) {
        Some((ended, output)) => ended == status && output.bytes() == text.as_bytes(),
        None => false,
    }
}

fn summed(alloc: Global, line: &[&str], fails: u64) -> Option<(Status, MemSink)> {
    let words = words(alloc, line).ok()?;
    let mut put_fails = Vec::new(alloc);
    put_fails.push(fails).ok()?;
    let mut output = MemSink::new(alloc, 4096, put_fails).ok()?;
    let mut watchers: Vec<Box<ListWatcher>> = Vec::new(alloc);
    for _ in 0..MAX_WATCHERS {
        let watcher = Box::new(alloc, ListWatcher::new(alloc, 0).ok()?).ok()?;
        watchers.push(watcher).ok()?;
    }
    if watchers.len() != MAX_WATCHERS || !are_unheard(watchers.as_slice()) {
        return None;
    }
    let status = run_bulk(alloc, words.as_slice(), &mut output, watchers);
    Some((status, output))
}

#[test]
fn sums_up_a_made_script(rt: HostRuntime) {
    let line: [&str; 4] = ["bulk", "1", "2", "0"];
    assert!(rt; sums(rt.alloc(), &line, 9, Status::Done, SUMMED));
    // the first put fails; the flush fails, and the bytes were taken
    assert!(rt; sums(rt.alloc(), &line, 1, Status::WriteFault, ""));
    assert!(rt; sums(rt.alloc(), &line, 2, Status::WriteFault, SUMMED));
}

#[test]
fn sums_up_what_was_sent(rt: HostRuntime) {
    assert!(rt;
        sums(
            rt.alloc(),
            &["bulk", "1", "16", "4"],
            9,
            Status::Done,
            SEARCHED
        )
    );
    assert!(rt; sums(rt.alloc(), &["bulk", "1", "2"], 9, Status::Usage, ""));
    assert!(rt; sums(rt.alloc(), &["bulk", "1", "2", "17"], 9, Status::Usage, ""));
    assert!(rt; sums(rt.alloc(), &["run"], 9, Status::Usage, ""));
}
