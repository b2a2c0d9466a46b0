//! A folder in memory that fails at the calls that a test names.
ghost use Rattle.std.specs.Prelude.{◌≡◌, ◌≤◌, [], true, false, if◌then◌else◌, map, IsOk, IfOk, IsErrOf, OnOk, Some, is_ok, is_err, nat_lt, option_copied, string_bytes};
ghost use Rattle.outer.specs.Count.{Rose, counted};
ghost use Rattle.outer.specs.Plan.{plan_of, is_due, with_call, with_fault, after_call};
ghost use Rattle.outer.specs.Folder.{bytes_of, HasName, KeepsOthers, Holds};
ghost use Rattle.outer.specs.FileList.{found, with_name, with_bytes, fails_fetch};

use crate::failed::Failed;
use crate::file_list::Listed;
use crate::folder::{Folder, FolderRefusal};
use crate::mem_sink::MemSink;
use crate::mem_source::MemSource;
use crate::plan::Plan;
use std::alloc::Global;
use std::marker::Model;

/// How many bytes a sink of a folder in memory takes.
pub const SINK_ROOM: usize = 65_536;

/// A folder in memory, which tells its files and fails at the calls that a test names.
///
/// The n-th call of `fetch`, `create` and `keep` together, from 1, fails where n is in its list. A fetch of a name that
/// isn't there fails too. A call that fails leaves every file as it was, and one that has no memory doesn't count. Its
/// sources and sinks don't fail, but for a put past a sink's room, `SINK_ROOM`.
#[derive(Debug, Drop)]
pub struct MemFolder {
    files: Listed,
    /// Its faults are those in loading.
    plan: Plan,
    saves: u64,
}

impl Model for MemFolder {
    ghost use Rattle.outer.specs.FileList.{PlannedFolder};

    ghost Value = { PlannedFolder };

    ghost view = { λ m. record { files = m.files; plan = m.plan; saves = m.saves } };
}

impl MemFolder {
    /// A folder with these files, whose calls with these numbers fail. Of two files with one name the first alone counts.
    /// It takes no memory.
    pub fn new(files: Vec<(String, Vec<u8>)>, fails: Vec<u64>) -> Self
        ensures { result ≡ record { files = map (λ e. (string_bytes e.0, e.1.items)) files.items; plan = plan_of fails.items; saves = 0 } }
    {
        MemFolder {
            files: Listed::new(files),
            plan: Plan::new(fails),
            saves: 0,
        }
    }

    /// The bytes of a name, if it is there.
    pub fn bytes(&self, name: &str) -> Option<&[u8]>
        ensures { option_copied result ≡ found self.now.files name.now }
    {
        self.files.bytes(name)
    }

    // Counts a fault in saving.
    fn count_save_fault(&mut self)
        ensures state { self.new ≡ record self.old { saves = counted self.old.saves } }
        ensures rose { Rose self.old.saves self.new.saves }
        ensures grows { self.old.saves ≤ self.new.saves }
    {
        self.saves = self.saves.saturating_add(1);
    }
}

impl Folder for MemFolder {
    type In = MemSource;

    type Out = MemSink;

    ghost files = { λ m. Some (found m.files) };

    ghost loads = { λ m. m.plan.faults };

    ghost saves = { λ m. m.saves };

    fn fetch(&mut self, alloc: Global, name: &str) -> Result<MemSource, FolderRefusal>
        ensures source { IfOk result (λ source. source ≡ record { left = bytes_of (found self.old.files) name.now; plan = plan_of [] }) }
        ensures ok { IsOk result → fails_fetch self.old name.now ≡ false }
        ensures failed { IsErrOf result FolderRefusal.Failed → fails_fetch self.old name.now ≡ true }
        ensures plan { ¬ IsErrOf result FolderRefusal.NoMemory → self.new.plan ≡ after_call self.old.plan (fails_fetch self.old name.now) }
        ensures memory { IsErrOf result FolderRefusal.NoMemory → self.new ≡ self.old }
        ensures files { self.new.files ≡ self.old.files }
        ensures saves { self.new.saves ≡ self.old.saves }
        ensures count { self.old.plan.faults ≤ self.new.plan.faults }
        ensures cause { IsErrOf result FolderRefusal.Failed → Rose self.old.plan.faults self.new.plan.faults }
    {
        let copy = match self.files.bytes(name) {
            Some(bytes) => Some(bytes.to_vec(alloc)?),
            None => None,
        };
        if self.plan.count_call() {
            self.plan.count_fault();
            return Err(FolderRefusal::Failed);
        }
        match copy {
            Some(bytes) => Ok(MemSource::new(bytes, Vec::new(alloc))),
            None => {
                self.plan.count_fault();
                Err(FolderRefusal::Failed)
            }
        }
    }

    #[tactic(auto, using(crate::proofs::Files::found_added, crate::proofs::Files::found_added_apart))]
    fn create(&mut self, alloc: Global, name: &str) -> Result<MemSink, FolderRefusal>
        ensures sink { IfOk result (λ sink. sink ≡ record { taken = []; room = SINK_ROOM; plan = plan_of [] }) }
        ensures ok { IsOk result → is_due self.old.plan ≡ false }
        ensures failed { IsErrOf result FolderRefusal.Failed → is_due self.old.plan ≡ true }
        ensures files { self.new.files ≡ (if is_ok result then with_name name.now self.old.files else self.old.files) }
        ensures plan { ¬ IsErrOf result FolderRefusal.NoMemory → self.new.plan ≡ with_call self.old.plan }
        ensures saves { ¬ IsErrOf result FolderRefusal.NoMemory → self.new.saves ≡ (if is_ok result then self.old.saves else counted self.old.saves) }
        ensures memory { IsErrOf result FolderRefusal.NoMemory → self.new ≡ self.old }
        ensures others { KeepsOthers name.now (Some (found self.old.files)) (Some (found self.new.files)) }
        ensures there { IsOk result → HasName name.now (Some (found self.new.files)) }
        ensures loads { self.new.plan.faults ≡ self.old.plan.faults }
        ensures count { self.old.saves ≤ self.new.saves }
    {
        let sink = MemSink::new(alloc, SINK_ROOM, Vec::new(alloc))?;
        if self.plan.is_next_due() {
            self.plan.count_call();
            self.count_save_fault();
            return Err(FolderRefusal::Failed);
        }
        self.files.add(alloc, name)?;
        self.plan.count_call();
        Ok(sink)
    }

    #[tactic(auto, using(crate::proofs::Files::found_put, crate::proofs::Files::found_put_apart))]
    fn keep(&mut self, name: &str, out: MemSink) -> Result<(), Failed>
        requires { HasName name.now (Some (found self.old.files)) }
        ensures fails { is_err result ≡ is_due self.old.plan }
        ensures files { self.new.files ≡ (if is_ok result then with_bytes name.now out.taken self.old.files else self.old.files) }
        ensures others { KeepsOthers name.now (Some (found self.old.files)) (Some (found self.new.files)) }
        ensures holds { OnOk result (Holds name.now (Some out.taken) (Some (found self.new.files))) }
        ensures plan { self.new.plan ≡ with_call self.old.plan }
        ensures saves { self.new.saves ≡ (if is_ok result then self.old.saves else counted self.old.saves) }
        ensures count { self.old.saves ≤ self.new.saves }
    {
        if self.plan.count_call() {
            self.count_save_fault();
            return Err(Failed);
        }
        self.files.put(name, out.into_bytes());
        Ok(())
    }

    fn close(&mut self, source: MemSource)
        ensures files { self.new.files ≡ self.old.files }
        ensures saves { self.new.saves ≡ self.old.saves }
        ensures plan { self.new.plan ≡ (if nat_lt 0 source.plan.faults then with_fault self.old.plan else self.old.plan) }
        ensures count { self.old.plan.faults ≤ self.new.plan.faults }
    {
        if source.has_failed() {
            self.plan.count_fault();
        }
    }

    fn discard(&mut self, out: MemSink)
        ensures files { self.new.files ≡ self.old.files }
        ensures plan { self.new.plan ≡ self.old.plan }
        ensures saves { self.new.saves ≡ (if nat_lt 0 out.plan.faults then counted self.old.saves else self.old.saves) }
        ensures count { self.old.saves ≤ self.new.saves }
    {
        if out.has_failed() {
            self.count_save_fault();
        }
    }
}
