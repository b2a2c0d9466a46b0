//! Sinks over a folder in memory, of which a call fails, and over one that never fails.
use crate::{discard_all, keep_all, make_all};
use outer::{Folder, FolderRefusal, MemFolder, Sink, SureFolder};
use std::alloc::{AllocError, Global};
use std::test::Fail;

/// How a save of two files ended.
#[derive(Clone, Copy, Debug, PartialEq, Eq)]
enum End {
    Kept,
    NotMade,
    NotKept,
}

const NAMES: [&str; 2] = ["a.txt", "b.txt"];

/// Makes two sinks, puts `one` and `two` to them, and keeps them.
fn save_two<F: Folder>(alloc: Global, folder: &mut F) -> Result<End, Fail> {
    let mut sinks = match make_all(alloc, folder, &NAMES) {
        Ok(sinks) => sinks,
        Err(FolderRefusal::Failed) => return Ok(End::NotMade),
        Err(FolderRefusal::NoMemory) => return Err(Fail::from("memory")),
    };
    let texts: [&[u8]; 2] = [b"one", b"two"];
    for (sink, text) in sinks.iter_mut().zip(texts) {
        if sink.put(text).is_err() {
            return Err(Fail::from("put"));
        }
    }
    match keep_all(folder, &NAMES, sinks) {
        Ok(()) => Ok(End::Kept),
        Err(_) => Ok(End::NotKept),
    }
}

/// A folder whose call with this number fails; 0 fails none.
fn folder(alloc: Global, fails: u64) -> Result<MemFolder, AllocError> {
    let mut calls = Vec::new(alloc);
    if fails > 0 {
        calls.push(fails)?;
    }
    Ok(MemFolder::new(Vec::new(alloc), calls))
}

/// Whether a save of two files ends so where this call of the folder fails, and leaves the first file and the second so.
fn ends(
    alloc: Global,
    fails: u64,
    end: End,
    first: Option<&[u8]>,
    second: Option<&[u8]>,
) -> Result<bool, Fail> {
    let mut folder = folder(alloc, fails)?;
    let found = save_two(alloc, &mut folder)?;
    Ok(found == end && folder.bytes("a.txt") == first && folder.bytes("b.txt") == second)
}

#[test]
fn keeps_each_file_or_tells_the_fault(rt: HostRuntime) -> Result<(), Fail> {
    let made: Option<&[u8]> = Some(b"");
    let one: Option<&[u8]> = Some(b"one");
    let two: Option<&[u8]> = Some(b"two");
    let cases = [
        (0, End::Kept, one, two),
        (1, End::NotMade, None, None),
        (2, End::NotMade, made, None),
        (3, End::NotKept, made, made),
        (4, End::NotKept, one, made),
    ];
    for (fails, end, first, second) in cases {
        assert!(rt; ends(rt.alloc(), fails, end, first, second)?, "{fails}");
    }
    Ok(())
}

/// Whether two files are kept surely.
fn keeps_surely(alloc: Global) -> Result<bool, Fail> {
    let mut folder = SureFolder::new(Vec::new(alloc));
    let end = save_two(alloc, &mut folder)?;
    Ok(end == End::Kept && folder.bytes("b.txt") == Some(b"two".as_slice()))
}

#[test]
fn keeps_files_over_the_sure_twin(rt: HostRuntime) -> Result<(), Fail> {
    assert!(rt; keeps_surely(rt.alloc())?);
    Ok(())
}

/// Whether sinks that are given up leave what their names had.
fn gives_up(alloc: Global) -> Result<bool, Fail> {
    let mut folder = folder(alloc, 0)?;
    let sinks = match make_all(alloc, &mut folder, &NAMES) {
        Ok(sinks) => sinks,
        Err(_) => return Err(Fail::from("make")),
    };
    discard_all(&mut folder, sinks);
    Ok(folder.bytes("a.txt") == Some(b"".as_slice()))
}

#[test]
fn gives_sinks_up(rt: HostRuntime) -> Result<(), Fail> {
    assert!(rt; gives_up(rt.alloc())?);
    Ok(())
}
