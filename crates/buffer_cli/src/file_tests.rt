//! Runs over folders in memory, and the adapter over the current folder.
use crate::Status;
use crate::folder::CurrentFolder;
use crate::tests::{call, repeated, run_watched, words};
use outer::{
    Folder, LiteralMaker, MemFolder, MemSink, MemSource, Sink, Source, SureFolder, SureMaker,
};
use std::alloc::{AllocError, Global};
use std::fs;
use std::test::Fail;

/// The one file `in.txt`, with these bytes.
pub(crate) fn files(alloc: Global, bytes: Vec<u8>) -> Result<Vec<(String, Vec<u8>)>, AllocError> {
    let mut files = Vec::new(alloc);
    files.push((String::from_str(alloc, "in.txt")?, bytes))?;
    Ok(files)
}

/// A script that opens a file, and has no commands.
fn script(alloc: Global, name: &str, encoding: &str) -> Result<String, AllocError> {
    format!(in alloc;
        r#"{{"version":1,"open":{{"file":"{name}","encoding":"{encoding}"}},"sessions":[[]]}}"#
    )
}

/// How a run of a script ends over this folder, and what it writes.
pub(crate) fn run_over<F: Folder>(
    alloc: Global,
    script: &str,
    folder: &mut F,
) -> Result<(Status, MemSink), Fail> {
    let words = words(alloc, &["run"])?;
    let mut input = MemSource::new(script.as_bytes().to_vec(alloc)?, Vec::new(alloc));
    let mut output = MemSink::new(alloc, 4096, Vec::new(alloc))?;
    let mut patterns = LiteralMaker::new(Vec::new(alloc));
    let status = run_watched(
        alloc,
        words.as_slice(),
        &mut input,
        &mut output,
        folder,
        &mut patterns,
    )
    .ok_or("watchers")?;
    Ok((status, output))
}

/// Whether a script that opens these bytes in this encoding ends with this text.
fn opens(alloc: Global, encoding: &str, bytes: &[u8], text: &str) -> Result<bool, Fail> {
    let script = script(alloc, "in.txt", encoding)?;
    let mut folder = MemFolder::new(files(alloc, bytes.to_vec(alloc)?)?, Vec::new(alloc));
    let (status, output) = run_over(alloc, script.as_str(), &mut folder)?;
    let wanted = format!(in alloc;
        "{{\"end\":{{\"count\":0,\"text\":\"{text}\"}},\"sessions\":[[]],\"version\":1}}\n"
    )?;
    Ok(status == Status::Done && output.bytes() == wanted.as_str().as_bytes())
}

#[test]
fn opens_files_in_four_encodings(rt: HostRuntime) -> Result<(), Fail> {
    let cases = [
        ("latin1", b"\xE9\x0A".as_slice(), "\u{e9}\\n"),
        ("utf8", b"a\xFFb".as_slice(), "a\u{FFFD}b"),
        ("utf16le", b"\x3D\xD8\x00\xDE".as_slice(), "\u{1F600}"),
        ("utf16be", b"\x00a\x00".as_slice(), "a\u{FFFD}"),
        ("utf8", b"".as_slice(), ""),
    ];
    for (encoding, bytes, text) in cases {
        assert!(rt; opens(rt.alloc(), encoding, bytes, text)?, "{encoding}");
    }
    Ok(())
}

/// How a run ends that opens a file of so many letters, where the call of the folder with this number fails.
fn ends(alloc: Global, name: &str, letters: usize, fails: u64) -> Result<Status, Fail> {
    let script = script(alloc, name, "latin1")?;
    let files = files(alloc, repeated(alloc, b'a', letters)?)?;
    let mut folder = MemFolder::new(files, call(alloc, fails)?);
    let (status, output) = run_over(alloc, script.as_str(), &mut folder)?;
    if status != Status::Done && !output.bytes().is_empty() {
        return Err(Fail::from("it wrote"));
    }
    Ok(status)
}

#[test]
fn answers_each_fault_of_a_file(rt: HostRuntime) -> Result<(), Fail> {
    let cases = [
        ("in.txt", 2, 0, Status::Done),
        ("in.txt", 2, 1, Status::LoadFault),
        ("none.txt", 2, 0, Status::LoadFault),
    ];
    for (name, letters, fails, status) in cases {
        assert!(rt;
            ends(rt.alloc(), name, letters, fails)? == status,
            "{letters}"
        );
    }
    Ok(())
}

#[test]
fn refuses_a_text_past_its_limit(rt: HostRuntime) -> Result<(), Fail> {
    assert!(rt; ends(rt.alloc(), "in.txt", (1 << 24) + 1, 0)? == Status::TextTooLong);
    Ok(())
}

#[test]
fn refuses_a_file_past_its_limit(rt: HostRuntime) -> Result<(), Fail> {
    assert!(rt; ends(rt.alloc(), "in.txt", (1 << 26) + 1, 0)? == Status::InputTooLong);
    Ok(())
}

/// Whether a script that opens a name which isn't there opens no text, over a folder that never fails.
fn opens_surely(alloc: Global) -> Result<bool, Fail> {
    let script = script(alloc, "none.txt", "utf8")?;
    let mut folder = SureFolder::new(Vec::new(alloc));
    let (status, output) = run_over(alloc, script.as_str(), &mut folder)?;
    Ok(status == Status::Done && !output.bytes().is_empty())
}

#[test]
fn opens_files_over_the_sure_twin(rt: HostRuntime) -> Result<(), Fail> {
    assert!(rt; opens_surely(rt.alloc())?);
    Ok(())
}

/// Writes a file through the adapter, and keeps it or not.
fn saves<F: Folder>(alloc: Global, folder: &mut F, bytes: &[u8], keeps: bool) -> Option<()> {
    let mut draft = folder.create(alloc, "adapter.txt").ok()?;
    draft.put(bytes).ok()?;
    draft.flush().ok()?;
    if keeps {
        folder.keep("adapter.txt", draft).ok()
    } else {
        folder.discard(draft);
        Some(())
    }
}

/// The first bytes of a file, read through the adapter.
fn loads<F: Folder>(alloc: Global, folder: &mut F, name: &str) -> Option<([u8; 4], usize)> {
    let mut source = folder.fetch(alloc, name).ok()?;
    let mut chunk = [0; 4];
    let count = source.read(&mut chunk).ok();
    folder.close(source);
    Some((chunk, count?))
}

#[test]
fn keeps_files_of_the_current_folder(rt: HostRuntime) {
    let mut folder = CurrentFolder::new(&rt);
    assert!(rt; loads(rt.alloc(), &mut folder, "adapter.txt").is_none());
    assert!(rt; saves(rt.alloc(), &mut folder, b"new", true).is_some());
    assert!(rt; loads(rt.alloc(), &mut folder, "adapter.txt") == Some((*b"new\0", 3)));
    assert!(rt; saves(rt.alloc(), &mut folder, b"other", false).is_some());
    assert!(rt; loads(rt.alloc(), &mut folder, "adapter.txt") == Some((*b"new\0", 3)));
    assert!(rt; fs::read(&rt, ".adapter.txt.draft").is_err());
    assert!(rt; fs::remove_file(&rt, "adapter.txt").is_ok());
}
