//! The top call over sources, sinks and makers of matchers in memory, the adapters over readers, writers and regular expressions,
//! and the lines of the statuses.
use crate::adapters::{Reading, Writing};
use crate::regexes::RegexMaker;
use crate::unheard::are_unheard;
use crate::{Status, run_make, run_script};
use buffer::Buffer;
use machine::{CallRefusal, Command, Reply, Text};
use outer::{
    Folder, LiteralMaker, MakeRefusal, Matcher, MemFolder, MemSink, MemSource, PatternMaker, Sink,
    Source, Spans, SureFolder, SureMaker, SureSink, SureSource,
};
use points::{LAST, MAX_UNITS, MAX_WATCHERS, Point, Range, Units};
use script::ScriptRule;
use std::alloc::{AllocError, Global};
use std::io;
use std::test::Fail;
use watch::ListWatcher;

/// The script of the program's stored run, and its transcript.
const HI: &str = r#"{"version":1,"open":{"text":""},"sessions":[[
    {"do":"edit","range":[0,0,0,0],"text":"hi"},{"do":"text","range":[0,0,9,9],"limit":100}]]}"#;

const HI_TRANSCRIPT: &str = "{\"end\":{\"count\":2,\"text\":\"hi\"},\"sessions\":[[\
    {\"at\":1,\"end\":[0,2],\"from\":[0,0],\"hits\":[0,0,0,0],\"to\":[0,0]},\
    {\"at\":2,\"text\":\"hi\",\"units\":2}]],\"version\":1}\n";

/// This many bytes of one value.
pub(crate) fn repeated(alloc: Global, byte: u8, count: usize) -> Result<Vec<u8>, AllocError> {
    let mut bytes = vec![in alloc; 0u8; count]?;
    bytes.as_mut_slice().fill(byte);
    Ok(bytes)
}

pub(crate) fn words(alloc: Global, list: &[&str]) -> Result<Vec<String>, AllocError> {
    let mut words = Vec::new(alloc);
    for word in list {
        words.push(String::from_str(alloc, word)?)?;
    }
    Ok(words)
}

/// Runs a script with watchers that keep nothing of what they hear.
pub(crate) fn run_watched<I: Source, O: Sink, F: Folder, P: PatternMaker>(
    alloc: Global,
    words: &[String],
    input: &mut I,
    output: &mut O,
    folder: &mut F,
    patterns: &mut P,
) -> Option<Status> {
    let mut watchers: Vec<Box<ListWatcher>> = Vec::new(alloc);
    for _ in 0..MAX_WATCHERS {
        let watcher = Box::new(alloc, ListWatcher::new(alloc, 0).ok()?).ok()?;
        watchers.push(watcher).ok()?;
    }
    if watchers.len() != MAX_WATCHERS || !are_unheard(watchers.as_slice()) {
        return None;
    }
    Some(run_script(alloc, words, input, output, folder, patterns, watchers))
}

/// Runs a script in memory, with calls of the input and of the output that fail.
fn run(
    alloc: Global,
    line: &[&str],
    script: Vec<u8>,
    read_fails: Vec<u64>,
    put_fails: Vec<u64>,
) -> Result<(Status, MemSink), Fail> {
    let words = words(alloc, line)?;
    let mut input = MemSource::new(script, read_fails);
    let mut output = MemSink::new(alloc, 4096, put_fails)?;
    let mut folder = MemFolder::new(Vec::new(alloc), Vec::new(alloc));
    let mut patterns = LiteralMaker::new(Vec::new(alloc));
    let status = run_watched(
        alloc,
        words.as_slice(),
        &mut input,
        &mut output,
        &mut folder,
        &mut patterns,
    )
    .ok_or("watchers")?;
    Ok((status, output))
}

/// Whether a script is run to its end and writes this.
fn gives(alloc: Global, script: &str, transcript: &str) -> Result<bool, Fail> {
    let bytes = script.as_bytes().to_vec(alloc)?;
    let (status, output) = run(alloc, &["run"], bytes, Vec::new(alloc), Vec::new(alloc))?;
    Ok(status == Status::Done && output.bytes() == transcript.as_bytes())
}

#[test]
fn runs_scripts(rt: HostRuntime) -> Result<(), Fail> {
    let cases = [
        // inserts into an empty text, and reads it back
        (HI, HI_TRANSCRIPT),
        // clips inside CR LF
        (
            r#"{"version":1,"open":{"text":"a\r\nb"},"sessions":[[
                {"do":"edit","range":[0,2,0,2],"text":"x"}]]}"#,
            "{\"end\":{\"count\":1,\"text\":\"ax\\r\\nb\"},\"sessions\":[[\
                {\"at\":1,\"end\":[0,2],\"from\":[0,1],\"hits\":[0,0,0,0],\"to\":[0,1]}]],\"version\":1}\n",
        ),
        // clips inside a surrogate pair
        (
            r#"{"version":1,"open":{"text":"\ud83d\ude00"},"sessions":[[
                {"do":"edit","range":[0,1,0,1],"text":"x"}]]}"#,
            "{\"end\":{\"count\":1,\"text\":\"x\u{1F600}\"},\"sessions\":[[\
                {\"at\":1,\"end\":[0,1],\"from\":[0,0],\"hits\":[0,0,0,0],\"to\":[0,0]}]],\"version\":1}\n",
        ),
        // a range past the end replaces everything
        (
            r#"{"version":1,"open":{"text":"ab\ncd"},"sessions":[[
                {"do":"edit","range":[0,0,9,9],"text":"z"}]]}"#,
            "{\"end\":{\"count\":1,\"text\":\"z\"},\"sessions\":[[\
                {\"at\":1,\"end\":[0,1],\"from\":[0,0],\"hits\":[0,0,0,0],\"to\":[1,2]}]],\"version\":1}\n",
        ),
        // an empty edit of an empty range, and a script with no commands
        (
            r#"{"version":1,"open":{"text":"ab"},"sessions":[[
                {"do":"edit","range":[0,1,0,1],"text":""}]]}"#,
            "{\"end\":{\"count\":1,\"text\":\"ab\"},\"sessions\":[[\
                {\"at\":1,\"end\":[0,1],\"from\":[0,1],\"hits\":[0,0,0,0],\"to\":[0,1]}]],\"version\":1}\n",
        ),
        (
            r#"{"version":1,"open":{"text":"ab"},"sessions":[[]]}"#,
            "{\"end\":{\"count\":0,\"text\":\"ab\"},\"sessions\":[[]],\"version\":1}\n",
        ),
    ];
    for (script, transcript) in cases {
        assert!(rt; gives(rt.alloc(), script, transcript)?);
    }
    Ok(())
}

#[test]
fn searches_snapshots(rt: HostRuntime) -> Result<(), Fail> {
    let cases = [
        // a snapshot shows the text before three edits, and a literal in it
        (
            r#"{"version":1,"open":{"text":"abc"},"sessions":[[
                {"do":"take","snapshot":1},{"do":"edit","range":[0,0,0,0],"text":"1"},
                {"do":"edit","range":[0,0,0,0],"text":"2"},{"do":"edit","range":[0,0,0,1],"text":""},
                {"do":"read","snapshot":1,"reads":[{"get":"text","range":[0,0,9,9],"limit":100},
                {"get":"find","needle":"b","limit":5}]},{"do":"release","snapshot":1}]]}"#,
            "{\"end\":{\"count\":3,\"text\":\"1abc\"},\"sessions\":[[{\"version\":0},\
                {\"at\":1,\"end\":[0,1],\"from\":[0,0],\"hits\":[0,0,0,0],\"to\":[0,0]},\
                {\"at\":2,\"end\":[0,1],\"from\":[0,0],\"hits\":[0,0,0,0],\"to\":[0,0]},\
                {\"at\":3,\"end\":[0,0],\"from\":[0,0],\"hits\":[0,0,0,0],\"to\":[0,1]},\
                {\"answers\":[{\"text\":\"abc\",\"units\":3},{\"count\":1,\"hits\":[[0,1,0,2]]}]},null]],\"version\":1}\n",
        ),
        // hits don't overlap, and the limit bounds those that are shown; each pattern has its own matcher
        (
            r#"{"version":1,"open":{"text":"aaaa\nb"},"sessions":[[{"do":"take","snapshot":1},
                {"do":"read","snapshot":1,"reads":[{"get":"find","needle":"aa","limit":10},
                {"get":"pattern","pattern":"b","limit":2},{"get":"find","needle":"aa","limit":1}]},
                {"do":"read","snapshot":1,"reads":[{"get":"pattern","pattern":"a\nb","limit":1}]}]]}"#,
            "{\"end\":{\"count\":0,\"text\":\"aaaa\\nb\"},\"sessions\":[[{\"version\":0},\
                {\"answers\":[{\"count\":2,\"hits\":[[0,0,0,2],[0,2,0,4]]},{\"count\":1,\"hits\":[[1,0,1,1]]},\
                {\"count\":2,\"hits\":[[0,0,0,2]]}]},{\"answers\":[{\"count\":1,\"hits\":[[0,3,1,1]]}]}]],\"version\":1}\n",
        ),
    ];
    for (script, transcript) in cases {
        assert!(rt; gives(rt.alloc(), script, transcript)?);
    }
    Ok(())
}

/// A script with a pattern in its second command and one in its third.
const PATTERNS: &str = r#"{"version":1,"open":{"text":""},"sessions":[[{"do":"take","snapshot":1},
    {"do":"read","snapshot":1,"reads":[{"get":"size"},{"get":"pattern","pattern":"a","limit":1}]},
    {"do":"read","snapshot":1,"reads":[{"get":"pattern","pattern":"b","limit":1}]}]]}"#;

/// How a run of this script ends, where the call of the maker with this number refuses.
fn end_of_patterns(alloc: Global, refused: u64) -> Option<Status> {
    let words = words(alloc, &["run"]).ok()?;
    let mut input = MemSource::new(PATTERNS.as_bytes().to_vec(alloc).ok()?, Vec::new(alloc));
    let mut output = MemSink::new(alloc, 4096, Vec::new(alloc)).ok()?;
    let mut folder = MemFolder::new(Vec::new(alloc), Vec::new(alloc));
    let mut patterns = LiteralMaker::new(call(alloc, refused).ok()?);
    let status = run_watched(
        alloc,
        words.as_slice(),
        &mut input,
        &mut output,
        &mut folder,
        &mut patterns,
    )?;
    if status != Status::Done && !output.bytes().is_empty() {
        return None;
    }
    Some(status)
}

#[test]
fn refuses_the_first_pattern_that_has_no_matcher(rt: HostRuntime) {
    let at = |command| Some(Status::PatternRefused {
        session: 1,
        command,
    });
    assert!(rt; end_of_patterns(rt.alloc(), 1) == at(2));
    assert!(rt; end_of_patterns(rt.alloc(), 2) == at(3));
    assert!(rt; end_of_patterns(rt.alloc(), 3) == Some(Status::Done));
}

/// Whether a run ends so and writes so many bytes, over an input and an output whose calls with these
/// numbers fail.
fn ends(
    alloc: Global,
    line: &[&str],
    script: &str,
    fails: (u64, u64),
    want: (Status, usize),
) -> Result<bool, Fail> {
    let bytes = script.as_bytes().to_vec(alloc)?;
    let (status, output) = run(
        alloc,
        line,
        bytes,
        call(alloc, fails.0)?,
        call(alloc, fails.1)?,
    )?;
    Ok((status, output.bytes().len()) == want)
}

/// The list of the number of one call; no call has the number 0.
pub(crate) fn call(alloc: Global, number: u64) -> Result<Vec<u64>, AllocError> {
    [number].to_vec(alloc)
}

fn refused(why: ScriptRule) -> Status {
    Status::ScriptRefused {
        session: 0,
        command: 0,
        why,
    }
}

#[test]
fn answers_each_fault(rt: HostRuntime) -> Result<(), Fail> {
    let cases = [
        (HI, (1, 0), Status::ReadFault, 0),
        (r#"{"version":1,"#, (0, 0), refused(ScriptRule::NotJson), 0),
        ("", (0, 0), refused(ScriptRule::NotJson), 0),
        ("{}", (0, 0), refused(ScriptRule::BadShape), 0),
        (HI, (0, 1), Status::WriteFault, 0),
        // the bytes were taken, and their flush fails
        (HI, (0, 2), Status::WriteFault, HI_TRANSCRIPT.len()),
        (HI, (0, 3), Status::Done, HI_TRANSCRIPT.len()),
    ];
    for (script, fails, status, count) in cases {
        assert!(rt; ends(rt.alloc(), &["run"], script, fails, (status, count))?);
    }
    Ok(())
}

#[test]
fn answers_usage_to_other_words(rt: HostRuntime) -> Result<(), Fail> {
    assert!(rt; ends(rt.alloc(), &[], HI, (0, 0), (Status::Usage, 0))?);
    assert!(rt; ends(rt.alloc(), &["check"], HI, (0, 0), (Status::Usage, 0))?);
    assert!(rt; ends(rt.alloc(), &["run", "run"], HI, (0, 0), (Status::Usage, 0))?);
    Ok(())
}

/// The script of `make 1 2 1`, by the worked draws of docs/formats.md.
const MADE: &str = "{\"open\":{\"text\":\"abc\\ndef\\n\"},\"sessions\":[[\
    {\"do\":\"edit\",\"range\":[21,1,21,2],\"text\":\"g\"},\
    {\"do\":\"edit\",\"range\":[51,15,51,16],\"text\":\"ss\"}]],\"version\":1}\n";

// Whether `make` ends so over an output of which this call fails, and writes so much.
fn makes(alloc: Global, line: &[&str], fails: u64, status: Status, text: &str) -> bool {
    match made(alloc, line, fails) {
        Some((ended, output)) => ended == status && output.bytes() == text.as_bytes(),
        None => false,
    }
}

fn made(alloc: Global, line: &[&str], fails: u64) -> Option<(Status, MemSink)> {
    let words = words(alloc, line).ok()?;
    let mut put_fails = Vec::new(alloc);
    put_fails.push(fails).ok()?;
    let mut output = MemSink::new(alloc, 4096, put_fails).ok()?;
    let status = run_make(alloc, words.as_slice(), &mut output);
    Some((status, output))
}

#[test]
fn writes_a_made_script(rt: HostRuntime) {
    let line: [&str; 4] = ["make", "1", "2", "1"];
    assert!(rt; makes(rt.alloc(), &line, 9, Status::Done, MADE));
    // the first put fails; the flush fails, and the bytes were taken
    assert!(rt; makes(rt.alloc(), &line, 1, Status::WriteFault, ""));
    assert!(rt; makes(rt.alloc(), &line, 2, Status::WriteFault, MADE));
    assert!(rt; makes(rt.alloc(), &["make", "1", "2", "9"], 9, Status::Usage, ""));
    assert!(rt; makes(rt.alloc(), &["run"], 9, Status::Usage, ""));
}

#[test]
fn refuses_an_input_past_its_limit(rt: HostRuntime) -> Result<(), Fail> {
    let spaces = repeated(rt.alloc(), b' ', (1 << 26) + 1)?;
    let none = Vec::new(rt.alloc());
    let (status, output) = run(rt.alloc(), &["run"], spaces, none, Vec::new(rt.alloc()))?;
    assert!(rt; status == Status::InputTooLong && output.bytes().is_empty());
    Ok(())
}

/// Whether the stored script is run to its end over an input and an output that never fail.
fn runs_surely(alloc: Global, words: &[String]) -> Result<bool, Fail> {
    let mut input = SureSource::new(HI.as_bytes().to_vec(alloc)?);
    let mut output = SureSink::new(alloc, 4096)?;
    let mut folder = SureFolder::new(Vec::new(alloc));
    let mut patterns = SureMaker::new();
    let status = run_watched(
        alloc,
        words,
        &mut input,
        &mut output,
        &mut folder,
        &mut patterns,
    );
    Ok(status == Some(Status::Done) && output.bytes() == Some(HI_TRANSCRIPT.as_bytes()))
}

#[test]
fn runs_over_sure_twins(rt: HostRuntime) -> Result<(), Fail> {
    let words = words(rt.alloc(), &["run"])?;
    assert!(rt; runs_surely(rt.alloc(), words.as_slice())?);
    Ok(())
}

/// Whether a buffer over this text takes the letters, which fill it, and refuses one unit more as a whole.
fn is_full_with(alloc: Global, text: &str, letters: &str) -> Result<bool, Fail> {
    let units = Units::from_str(alloc, text)?;
    if units.len() > MAX_UNITS {
        return Ok(false);
    }
    let mut buffer: Buffer<ListWatcher> = Buffer::open(alloc, text)?;
    let origin = Point { row: 0, column: 0 };
    let start = Range::new(origin, origin);
    let fill = Command::Edit {
        range: start,
        text: Text::from_str(alloc, letters)?,
    };
    let first = buffer.play(alloc, &fill)?;
    if buffer.count >= LAST || !matches!(first, Reply::Edited { at: 1, .. }) {
        return Ok(false);
    }
    let more = Command::Edit {
        range: start,
        text: Text::from_str(alloc, "b")?,
    };
    let second = buffer.play(alloc, &more)?;
    if buffer.count >= LAST
        || !matches!(
            second,
            Reply::Refused {
                at: 2,
                no: CallRefusal::TooLong
            }
        )
    {
        return Ok(false);
    }
    let look = Command::Text {
        range: start,
        limit: 1,
    };
    let third = buffer.play(alloc, &look)?;
    Ok(
        matches!(
            third,
            Reply::Text {
                at: 3,
                units: 0,
                ..
            }
        ) && buffer.to_text()?.as_str() == letters,
    )
}

#[test]
fn refuses_an_edit_past_the_limit(rt: HostRuntime) -> Result<(), Fail> {
    let alloc = rt.alloc();
    let letters = String::from_utf8(repeated(alloc, b'a', 1 << 24)?)
        .ok()
        .ok_or("letters")?;
    assert!(rt; is_full_with(alloc, "", letters.as_str())?);
    Ok(())
}

/// Whether the program ends with this code and prints this line for a status.
fn prints(alloc: Global, status: Status, code: u8, line: &str) -> Result<bool, Fail> {
    let fault = status.fault_line().ok_or("no line")?;
    Ok(status.code() == code && fault.to_string(alloc)?.as_str() == line)
}

#[test]
fn prints_one_line_for_each_fault(rt: HostRuntime) -> Result<(), Fail> {
    let refused = Status::ScriptRefused {
        session: 2,
        command: 7,
        why: ScriptRule::BadShape,
    };
    let cases = [
        (
            Status::Usage,
            2,
            "usage: run [--workers N] | bulk FIRST EDITS WORKERS | check SCRIPT TRANSCRIPT | make FIRST EDITS SESSIONS",
        ),
        (refused, 3, "script refused: session 2 command 7: BadShape"),
        (
            Status::PatternRefused {
                session: 1,
                command: 2,
            },
            7,
            "pattern refused: session 1 command 2",
        ),
        (Status::ReadFault, 4, "cannot read the input"),
        (Status::WriteFault, 5, "cannot write the output"),
        (Status::InputTooLong, 8, "input too long"),
        (Status::NoMemory, 9, "out of memory"),
        (Status::LoadFault, 10, "cannot load"),
        (Status::TextTooLong, 11, "text too long"),
    ];
    for (status, code, line) in cases {
        assert!(rt; prints(rt.alloc(), status, code, line)?);
    }
    assert!(rt; Status::Done.code() == 0 && Status::Done.fault_line().is_none());
    Ok(())
}

/// A reader and a writer that always fail.
#[derive(Drop)]
struct Broken;

impl io::Read for Broken {
    fn read(&mut self, _into: &mut [u8]) -> io::Result<usize> {
        Err(io::Error::from(io::ErrorKind::Other))
    }
}

impl io::Write for Broken {
    fn write(&mut self, _bytes: &[u8]) -> io::Result<usize> {
        Err(io::Error::from(io::ErrorKind::Other))
    }

    fn flush(&mut self) -> io::Result<()> {
        Err(io::Error::from(io::ErrorKind::Other))
    }
}

/// Whether a read answers so many bytes, or fails, and leaves this in the buffer.
fn reads<I: Source>(
    source: &mut I,
    chunk: &mut [u8; 4],
    answer: Option<usize>,
    want: &[u8; 4],
) -> bool {
    source.read(chunk).ok() == answer && *chunk == *want
}

#[test]
fn reads_through_the_adapter(rt: HostRuntime) {
    let mut chunk = [0; 4];
    let mut good = Reading::new(b"abcdef".as_slice());
    assert!(rt; reads(&mut good, &mut chunk, Some(4), b"abcd"));
    assert!(rt; reads(&mut good, &mut chunk, Some(2), b"efcd"));
    assert!(rt; reads(&mut good, &mut chunk, Some(0), b"efcd"));
    assert!(rt; reads(&mut Reading::new(Broken), &mut chunk, None, b"efcd"));
}

/// Whether a put and a flush both succeed, or both fail.
fn writes<O: Sink>(sink: &mut O, bytes: &[u8], succeeds: bool) -> bool {
    sink.put(bytes).is_ok() == succeeds && sink.flush().is_ok() == succeeds
}

#[test]
fn writes_through_the_adapter(rt: HostRuntime) {
    let mut good = Writing::new(Vec::new(rt.alloc()));
    assert!(rt; writes(&mut good, b"ab", true));
    assert!(rt; writes(&mut good, b"c", true));
    assert!(rt; good.into_writer().as_slice() == b"abc".as_slice());
    assert!(rt; writes(&mut Writing::new(Broken), b"ab", false));
}

/// How many hits a pattern has in a text, and the first two of them, where a matcher is made of it.
fn matches(alloc: Global, pattern: &str, text: &str) -> Option<(u64, Spans)> {
    let mut matcher = RegexMaker::new().make(alloc, pattern).ok()?;
    let mut hits = Spans::new(alloc);
    let count = matcher.find_all(alloc, text, 2, &mut hits).ok()?;
    Some((count, hits))
}

fn match_as(
    alloc: Global,
    pattern: &str,
    text: &str,
    wanted: u64,
    first: &[(usize, usize)],
) -> bool {
    match matches(alloc, pattern, text) {
        Some((count, hits)) => count == wanted && hits.as_slice() == first,
        None => false,
    }
}

fn is_refused(alloc: Global, pattern: &str) -> bool {
    matches!(
        RegexMaker::new().make(alloc, pattern),
        Err(MakeRefusal::Refused)
    )
}

#[test]
fn matches_through_the_adapter(rt: HostRuntime) {
    let cases = [
        ("a+", "caab a aaa", 3, [(1, 3), (5, 6)].as_slice()),
        ("(?m)^", "a\nb", 2, [(0, 0), (2, 2)].as_slice()),
        ("\u{e9}.", "\u{e9}\u{1F600}x", 1, [(0, 6)].as_slice()),
        ("b", "a", 0, [].as_slice()),
    ];
    for (pattern, text, count, first) in cases {
        assert!(rt;
            match_as(rt.alloc(), pattern, text, count, first),
            "{pattern}"
        );
    }
    assert!(rt; is_refused(rt.alloc(), "("));
}
