//! Runs that save, over folders in memory.
use crate::Status;
use crate::file_tests::{files, run_over};
use crate::tests::call;
use outer::MemFolder;
use std::alloc::{AllocError, Global};
use std::test::Fail;

/// A script that opens a file, takes a snapshot, edits the text, and saves the snapshot in UTF-8.
fn script(alloc: Global, name: &str) -> Result<String, AllocError> {
    let open = r#"{"version":1,"open":{"file":"in.txt","encoding":"latin1"},"sessions":[["#;
    let begin = r#"{"do":"take","snapshot":1},{"do":"edit","range":[0,0,0,0],"text":"x"},"#;
    format!(in alloc;
        r#"{open}{begin}{{"do":"read","snapshot":1,"reads":[{{"get":"save","name":"{name}","encoding":"utf8"}}]}}]]}}"#
    )
}

/// How such a run ends where the folder's call with this number fails, and how many bytes stand under the name then.
fn ends(alloc: Global, name: &str, fails: u64) -> Result<(Status, Option<usize>), Fail> {
    let script = script(alloc, name)?;
    let files = files(alloc, b"\xE9\x0A".to_vec(alloc)?)?;
    let mut folder = MemFolder::new(files, call(alloc, fails)?);
    let (status, _) = run_over(alloc, script.as_str(), &mut folder)?;
    Ok((status, folder.bytes(name).map(|bytes| bytes.len())))
}

#[test]
fn saves_what_a_snapshot_saw(rt: HostRuntime) -> Result<(), Fail> {
    let alloc = rt.alloc();
    let script = script(alloc, "out.txt")?;
    let files = files(alloc, b"\xE9\x0A".to_vec(alloc)?)?;
    let mut folder = MemFolder::new(files, Vec::new(alloc));
    let (status, _) = run_over(alloc, script.as_str(), &mut folder)?;
    assert!(rt; status == Status::Done);
    assert!(rt;
        folder
            .bytes("out.txt")
            .is_some_and(|bytes| bytes == b"\xC3\xA9\x0A".as_slice())
    );
    Ok(())
}

#[test]
fn answers_each_fault_of_a_save(rt: HostRuntime) -> Result<(), Fail> {
    let cases = [
        (0, Status::Done, Some(3)),
        (1, Status::LoadFault, None),
        (2, Status::SaveFault, None),
        (3, Status::SaveFault, Some(0)),
    ];
    for (fails, status, stands) in cases {
        assert!(rt;
            ends(rt.alloc(), "out.txt", fails)? == (status, stands),
            "{fails}"
        );
    }
    Ok(())
}
