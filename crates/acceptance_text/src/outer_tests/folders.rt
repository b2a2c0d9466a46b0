//! Folders in memory: files loaded and saved by their names.
ghost use Rattle.std.specs.Prelude.{◌≡◌, ◌++◌, Some, IsOk, IfOk, OnOk, IfSome, IsErrOf};
ghost use Rattle.outer.specs.Count.{Rose};
ghost use Rattle.outer.specs.Folder.{bytes_of, KeepsOthers, KeepsAll};

use super::{Stop, calls, put_both, read_all};
use outer::{Folder, FolderRefusal, MemFolder, SINK_ROOM, Sink, SureFolder};
use std::alloc::{AllocError, Global};
use std::test::Fail;

/// Loads a file. A caller that knows the trait alone.
fn load<F: Folder>(alloc: Global, folder: &mut F, name: &str, limit: usize) -> Result<Vec<u8>, Stop>
    ensures bytes { IfOk result (λ all. IfSome (F.files folder.old) (λ files. all.items ≡ bytes_of files name.now)) }
    ensures kept { IsOk result → KeepsAll (F.files folder.old) (F.files folder.new) }
    ensures cause { IsErrOf result Stop.Failed → Rose (F.loads folder.old) (F.loads folder.new) }
{
    let mut source = match folder.fetch(alloc, name) {
        Ok(source) => source,
        Err(FolderRefusal::Failed) => return Err(Stop::Failed),
        Err(FolderRefusal::NoMemory) => return Err(Stop::NoMemory),
    };
    let all = read_all(alloc, &mut source, limit);
    folder.close(source);
    all
}

/// Saves two pieces as one file. A caller that knows the trait alone.
fn save<F: Folder>(
    alloc: Global,
    folder: &mut F,
    name: &str,
    first: &[u8],
    second: &[u8],
) -> Result<(), Stop>
    ensures holds { OnOk result (IfSome (F.files folder.new) (λ files. files name.now ≡ Some (first.now ++ second.now))) }
    ensures others { KeepsOthers name.now (F.files folder.old) (F.files folder.new) }
    ensures cause { IsErrOf result Stop.Failed → Rose (F.saves folder.old) (F.saves folder.new) }
{
    let mut sink = match folder.create(alloc, name) {
        Ok(sink) => sink,
        Err(FolderRefusal::Failed) => return Err(Stop::Failed),
        Err(FolderRefusal::NoMemory) => return Err(Stop::NoMemory),
    };
    if put_both(&mut sink, first, second).is_err() {
        folder.discard(sink);
        return Err(Stop::Failed);
    }
    match folder.keep(name, sink) {
        Ok(()) => Ok(()),
        Err(_failed) => Err(Stop::Failed),
    }
}

/// Over a folder whose counts are always 0, no fault comes.
fn save_surely(
    alloc: Global,
    folder: &mut SureFolder,
    name: &str,
    first: &[u8],
    second: &[u8],
) -> Result<(), Stop>
    ensures { ¬ IsErrOf result Stop.Failed }
{
    save(alloc, folder, name, first, second)
}

fn push(
    alloc: Global,
    files: &mut Vec<(String, Vec<u8>)>,
    name: &str,
    bytes: &[u8],
) -> Result<(), AllocError> {
    let bytes = bytes.to_vec(alloc)?;
    let name = String::from_str(alloc, name)?;
    files.push((name, bytes))?;
    Ok(())
}

/// Three files, two of them with one name.
fn files(alloc: Global) -> Result<Vec<(String, Vec<u8>)>, AllocError> {
    let mut files = Vec::new(alloc);
    push(alloc, &mut files, "old", b"12345")?;
    push(alloc, &mut files, "twice", b"first")?;
    push(alloc, &mut files, "twice", b"second")?;
    Ok(files)
}

fn folder(alloc: Global, fails: &[u64]) -> Result<MemFolder, AllocError> {
    let fails = calls(alloc, fails)?;
    Ok(MemFolder::new(files(alloc)?, fails))
}

fn loads<F: Folder>(alloc: Global, folder: &mut F, name: &str, want: &Result<&[u8], Stop>) -> bool {
    match (load(alloc, folder, name, 100), want) {
        (Ok(all), Ok(bytes)) => all.as_slice() == *bytes,
        (Err(stop), Err(why)) => stop == *why,
        _ => false,
    }
}

fn saves<F: Folder>(alloc: Global, folder: &mut F, name: &str, succeeds: bool) -> bool {
    save(alloc, folder, name, b"new ", b"bytes").is_ok() == succeeds
}

fn holds(folder: &MemFolder, name: &str, bytes: Option<&[u8]>) -> bool {
    folder.bytes(name) == bytes
}

fn tells(folder: &SureFolder, name: &str, bytes: Option<&[u8]>) -> bool {
    folder.bytes(name) == bytes
}

/// Whether a new sink of the folder takes so many bytes at once.
fn takes<F: Folder>(alloc: Global, folder: &mut F, bytes: &[u8]) -> bool {
    let Ok(mut sink) = folder.create(alloc, "big") else {
        return false;
    };
    let took = sink.put(bytes).is_ok();
    folder.discard(sink);
    took
}

// Whether the first file of a name is loaded, and none under a name that isn't there.
fn loads_first_files(alloc: Global, folder: &mut MemFolder) -> bool {
    loads(alloc, folder, "old", &Ok(b"12345"))
        && loads(alloc, folder, "twice", &Ok(b"first"))
        && loads(alloc, folder, "none", &Err(Stop::Failed))
}

#[test]
fn loads_the_first_file_of_a_name(rt: HostRuntime) -> Result<(), Fail> {
    let mut folder = folder(rt.alloc(), &[])?;
    assert!(rt; loads_first_files(rt.alloc(), &mut folder));
    Ok(())
}

// Whether a file is saved under a name, and the others stay.
fn saves_under(alloc: Global, folder: &mut MemFolder, name: &str) -> bool {
    saves(alloc, folder, name, true)
        && holds(folder, name, Some(b"new bytes"))
        && holds(folder, "twice", Some(b"first"))
}

#[test]
fn saves_under_an_old_and_a_new_name(rt: HostRuntime) -> Result<(), Fail> {
    let mut folder = folder(rt.alloc(), &[])?;
    for name in ["old", "new"] {
        assert!(rt; saves_under(rt.alloc(), &mut folder, name));
    }
    Ok(())
}

// Whether a load and then a save go so, and leave these bytes.
fn goes_so(
    alloc: Global,
    folder: &mut MemFolder,
    first: &Result<&[u8], Stop>,
    second: bool,
    left: &[u8],
) -> bool {
    loads(alloc, folder, "old", first)
        && saves(alloc, folder, "old", second)
        && holds(folder, "old", Some(left))
}

// The same in a folder whose call with this number fails.
fn fails_so(
    alloc: Global,
    failing: u64,
    first: &Result<&[u8], Stop>,
    second: bool,
    left: &[u8],
) -> bool {
    match folder(alloc, &[failing]) {
        Ok(mut folder) => goes_so(alloc, &mut folder, first, second, left),
        Err(_) => false,
    }
}

/// The calls of a load and then a save are a fetch, a create and a keep. What stood under a name stays until it is kept.
#[test]
fn fails_calls_by_one_numbering(rt: HostRuntime) {
    let all = Ok(b"12345".as_slice());
    assert!(rt; fails_so(rt.alloc(), 1, &Err(Stop::Failed), true, b"new bytes"));
    assert!(rt; fails_so(rt.alloc(), 2, &all, false, b"12345"));
    assert!(rt; fails_so(rt.alloc(), 3, &all, false, b"12345"));
    assert!(rt; fails_so(rt.alloc(), 4, &all, true, b"new bytes"));
}

// Whether a sink takes as many bytes as its room has, and not one more.
fn keeps_to_a_room(alloc: Global, folder: &mut MemFolder) -> bool {
    match vec![in alloc; 7u8; SINK_ROOM + 1] {
        Ok(bytes) => takes(alloc, folder, &bytes[1..]) && !takes(alloc, folder, bytes.as_slice()),
        Err(_) => false,
    }
}

#[test]
fn gives_sinks_a_room(rt: HostRuntime) -> Result<(), Fail> {
    let mut folder = folder(rt.alloc(), &[])?;
    assert!(rt; keeps_to_a_room(rt.alloc(), &mut folder));
    Ok(())
}

fn loads_surely(alloc: Global, folder: &mut SureFolder) -> bool {
    loads(alloc, folder, "none", &Ok(b""))
        && loads(alloc, folder, "old", &Ok(b"12345"))
        && tells(folder, "none", None)
}

#[test]
fn a_sure_folder_loads_a_missing_name_as_no_bytes(rt: HostRuntime) -> Result<(), Fail> {
    let mut folder = SureFolder::new(files(rt.alloc())?);
    assert!(rt; loads_surely(rt.alloc(), &mut folder));
    Ok(())
}

fn keeps_surely(alloc: Global, folder: &mut SureFolder, name: &str, bytes: &[u8]) -> bool {
    save_surely(alloc, folder, name, bytes, b"!").is_ok()
}

// Whether what is kept is told until more than a room is put in.
fn falls_silent(alloc: Global, folder: &mut SureFolder, bytes: &[u8]) -> bool {
    keeps_surely(alloc, folder, "old", b"abc")
        && tells(folder, "old", Some(b"abc!"))
        && keeps_surely(alloc, folder, "big", bytes)
        && tells(folder, "old", None)
}

fn falls_silent_past_a_room(alloc: Global, folder: &mut SureFolder) -> bool {
    match vec![in alloc; 7u8; SINK_ROOM] {
        Ok(bytes) => falls_silent(alloc, folder, bytes.as_slice()),
        Err(_) => false,
    }
}

#[test]
fn a_sure_folder_falls_silent_past_a_room(rt: HostRuntime) -> Result<(), Fail> {
    let mut folder = SureFolder::new(files(rt.alloc())?);
    assert!(rt; falls_silent_past_a_room(rt.alloc(), &mut folder));
    Ok(())
}
