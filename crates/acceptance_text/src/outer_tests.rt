//! The outside world in memory: sources and sinks that fail at the named calls, and those that never fail.
ghost use Rattle.std.specs.Prelude.{◌≡◌, ℕ, ◌≤◌, [], ◌++◌, IsOk, IfOk, OnOk, OnErr, IsErrOf};
ghost use Rattle.outer.specs.Count.{Rose};
ghost use Rattle.outer.specs.Source.{Gives, IsAtEnd};
ghost use Rattle.outer.specs.Sink.{Appends, AppendsPrefix};

mod folders;

use outer::{Failed, MemSink, MemSource, Sink, Source, SureSink, SureSource};
use std::alloc::{AllocError, Global};
use std::test::Fail;

#[derive(Drop, PartialEq, Eq)]
enum Stop {
    Failed,
    TooLong,
    NoMemory,
}

/// Reads a source to its end, three bytes at a time. A caller that knows the trait alone.
fn read_all<I: Source>(alloc: Global, source: &mut I, limit: usize) -> Result<Vec<u8>, Stop>
    ensures gives { IfOk result (λ all. Gives all.items (I.left source.old) (I.left source.new)) }
    ensures end { OnOk result (IsAtEnd (I.left source.new)) }
    ensures count { I.faults source.old ≤ I.faults source.new }
    ensures cause { IsErrOf result Stop.Failed → Rose (I.faults source.old) (I.faults source.new) }
{
    let mut all = Vec::new(alloc);
    let mut chunk = [0u8; 3];
    while all.len() <= limit {
        let count = match source.read(&mut chunk) {
            Ok(count) => count,
            Err(Failed) => return Err(Stop::Failed),
        };
        if count == 0 {
            return Ok(all);
        }
        if all.extend_from_slice(&chunk[..count]).is_err() {
            return Err(Stop::NoMemory);
        }
    }
    Err(Stop::TooLong)
}

/// Puts two pieces and flushes. A caller that knows the trait alone.
fn put_both<O: Sink>(sink: &mut O, first: &[u8], second: &[u8]) -> Result<(), Failed>
    ensures ok { OnOk result (Appends (first.now ++ second.now) (O.taken sink.old) (O.taken sink.new)) }
    ensures failed { OnErr result (AppendsPrefix (first.now ++ second.now) (O.taken sink.old) (O.taken sink.new)) }
    ensures count { O.faults sink.old ≤ O.faults sink.new }
    ensures cause { OnErr result (Rose (O.faults sink.old) (O.faults sink.new)) }
{
    sink.put(first)?;
    sink.put(second)?;
    sink.flush()
}

/// Over a sink whose count of faults is always 0, no fault comes.
fn put_both_surely(sink: &mut SureSink, first: &[u8], second: &[u8]) -> Result<(), Failed>
    ensures { IsOk result }
{
    put_both(sink, first, second)
}

/// The numbers of the calls that are to fail.
fn calls(alloc: Global, numbers: &[u64]) -> Result<Vec<u64>, AllocError> {
    numbers.to_vec(alloc)
}

fn source(alloc: Global, bytes: &[u8], fails: Vec<u64>) -> Result<MemSource, AllocError> {
    Ok(MemSource::new(bytes.to_vec(alloc)?, fails))
}

fn sure_source(alloc: Global, bytes: &[u8]) -> Result<SureSource, AllocError> {
    Ok(SureSource::new(bytes.to_vec(alloc)?))
}

/// Whether a read of two bytes answers so many, or fails, and leaves this in the buffer.
fn reads<I: Source>(
    source: &mut I,
    into: &mut [u8; 2],
    answer: Option<usize>,
    want: [u8; 2],
) -> bool {
    source.read(into).ok() == answer && *into == want
}

/// Whether a read of four bytes answers that there are none, and leaves the buffer.
fn reads_nothing<I: Source>(source: &mut I) -> bool {
    let mut into = [7; 4];
    source.read(&mut into).ok() == Some(0) && into == [7; 4]
}

/// Whether reading a source to its end gives these bytes, or stops before it for this cause.
fn reads_all<I: Source>(
    alloc: Global,
    source: &mut I,
    limit: usize,
    want: &Result<&[u8], Stop>,
) -> bool {
    match (read_all(alloc, source, limit), want) {
        (Ok(all), Ok(bytes)) => all.as_slice() == *bytes,
        (Err(stop), Err(why)) => stop == *why,
        _ => false,
    }
}

fn puts<O: Sink>(sink: &mut O, bytes: &[u8]) -> bool {
    sink.put(bytes).is_ok()
}

fn flushes<O: Sink>(sink: &mut O) -> bool {
    sink.flush().is_ok()
}

fn puts_both<O: Sink>(sink: &mut O, first: &[u8], second: &[u8]) -> bool {
    put_both(sink, first, second).is_ok()
}

fn holds(sink: &MemSink, bytes: &[u8]) -> bool {
    sink.bytes() == bytes
}

/// Whether a sink that never fails tells this much.
fn tells(sink: &SureSink, bytes: Option<&[u8]>) -> bool {
    sink.bytes() == bytes
}

fn surely_puts_both(sink: &mut SureSink, first: &[u8], second: &[u8]) -> bool {
    put_both_surely(sink, first, second).is_ok()
}

// Whether five bytes are read in parts of two.
fn reads_hello(source: &mut MemSource) -> bool {
    let mut into = [0; 2];
    reads(source, &mut into, Some(2), *b"he")
        && reads(source, &mut into, Some(2), *b"ll")
        && reads(source, &mut into, Some(1), *b"ol")
        && reads(source, &mut into, Some(0), *b"ol")
}

#[test]
fn reads_in_parts_to_the_end(rt: HostRuntime) -> Result<(), Fail> {
    let mut source = source(rt.alloc(), b"hello", Vec::new(rt.alloc()))?;
    assert!(rt; reads_hello(&mut source));
    Ok(())
}

// Whether three bytes are read where the first, the third and the fourth call fail.
fn goes_on(source: &mut MemSource) -> bool {
    let mut into = [0; 2];
    reads(source, &mut into, None, [0, 0])
        && reads(source, &mut into, Some(2), [1, 2])
        && reads(source, &mut into, None, [1, 2])
        && reads(source, &mut into, None, [1, 2])
        && reads(source, &mut into, Some(1), [3, 2])
}

// A source of these bytes, where the calls with these numbers fail.
fn failing_source(alloc: Global, bytes: &[u8], fails: &[u64]) -> Result<MemSource, AllocError> {
    source(alloc, bytes, calls(alloc, fails)?)
}

#[test]
fn goes_on_after_a_failed_read(rt: HostRuntime) -> Result<(), Fail> {
    let mut source = failing_source(rt.alloc(), &[1, 2, 3], &[4, 1, 3])?;
    assert!(rt; goes_on(&mut source));
    Ok(())
}

#[test]
fn reads_nothing_from_an_empty_source(rt: HostRuntime) {
    assert!(rt; reads_nothing(&mut MemSource::new(Vec::new(rt.alloc()), Vec::new(rt.alloc()))));
    assert!(rt; reads_nothing(&mut SureSource::new(Vec::new(rt.alloc()))));
}

#[test]
fn reads_all_from_a_sure_source(rt: HostRuntime) -> Result<(), Fail> {
    let mut source = sure_source(rt.alloc(), b"seven bytes")?;
    assert!(rt; reads_all(rt.alloc(), &mut source, 11, &Ok(b"seven bytes")));
    Ok(())
}

// Whether reading a text of eleven bytes goes so, where a call fails and with this limit.
fn reads_seven(alloc: Global, failing: u64, limit: usize, want: &Result<&[u8], Stop>) -> bool {
    match failing_source(alloc, b"seven bytes", &[failing]) {
        Ok(mut source) => reads_all(alloc, &mut source, limit, want),
        Err(_) => false,
    }
}

/// The reads of a text of eleven bytes are four of at most three bytes, and a fifth that finds the end.
#[test]
fn reads_all_through_the_trait(rt: HostRuntime) {
    assert!(rt; reads_seven(rt.alloc(), 6, 11, &Ok(b"seven bytes")));
    assert!(rt; reads_seven(rt.alloc(), 0, 10, &Err(Stop::TooLong)));
    assert!(rt; reads_seven(rt.alloc(), 5, 11, &Err(Stop::Failed)));
}

// Whether a sink with room for four bytes takes what fits in.
fn takes_what_fits(sink: &mut MemSink) -> bool {
    puts(sink, b"abc")
        && !puts(sink, b"de")
        && puts(sink, b"f")
        && !puts(sink, b"g")
        && puts(sink, b"")
        && flushes(sink)
        && holds(sink, b"abcf")
}

#[test]
fn refuses_puts_past_the_room(rt: HostRuntime) -> Result<(), Fail> {
    let mut sink = MemSink::new(rt.alloc(), 4, Vec::new(rt.alloc()))?;
    assert!(rt; takes_what_fits(&mut sink));
    Ok(())
}

// Whether the second and the third call fail.
fn fails_two_calls(sink: &mut MemSink) -> bool {
    puts(sink, b"ab")
        && !flushes(sink)
        && !puts(sink, b"cd")
        && puts(sink, b"ef")
        && flushes(sink)
        && holds(sink, b"abef")
}

// A sink with room for nine bytes, where the calls with these numbers fail.
fn failing_sink(alloc: Global, fails: &[u64]) -> Option<MemSink> {
    MemSink::new(alloc, 9, calls(alloc, fails).ok()?).ok()
}

#[test]
fn fails_puts_and_flushes_by_one_numbering(rt: HostRuntime) -> Result<(), Fail> {
    let mut sink = failing_sink(rt.alloc(), &[2, 3]).ok_or("no sink")?;
    assert!(rt; fails_two_calls(&mut sink));
    Ok(())
}

// Whether three pairs are put so, where the first put of the second pair and the second put of the third one fail.
fn puts_pairs(sink: &mut MemSink) -> bool {
    puts_both(sink, b"ab", b"cd")
        && holds(sink, b"abcd")
        && !puts_both(sink, b"ef", b"gh")
        && holds(sink, b"abcd")
        && !puts_both(sink, b"ij", b"kl")
        && holds(sink, b"abcdij")
}

#[test]
fn puts_both_through_the_trait(rt: HostRuntime) -> Result<(), Fail> {
    let mut sink = failing_sink(rt.alloc(), &[4, 6]).ok_or("no sink")?;
    assert!(rt; puts_pairs(&mut sink));
    Ok(())
}

// Whether a sink with room for four bytes tells them until one more is put.
fn falls_silent(sink: &mut SureSink) -> bool {
    surely_puts_both(sink, b"ab", b"cd")
        && tells(sink, Some(b"abcd"))
        && puts(sink, b"e")
        && tells(sink, None)
        && puts(sink, b"")
        && flushes(sink)
        && tells(sink, None)
}

#[test]
fn tells_nothing_more_past_its_room(rt: HostRuntime) -> Result<(), Fail> {
    let mut sink = SureSink::new(rt.alloc(), 4)?;
    assert!(rt; falls_silent(&mut sink));
    Ok(())
}
