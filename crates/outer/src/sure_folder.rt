//! A folder in memory that never fails: a caller of the trait is proved to answer no fault over it.
ghost use Rattle.std.specs.Prelude.{◌≡◌, [], Some, map, option_map, option_and_then, option_copied, if◌then◌else◌, is_ok, IfOk, IsOk, IsErrOf, IfSome, string_bytes};
ghost use Rattle.outer.specs.Folder.{bytes_of, HasName, KeepsOthers, Holds};
ghost use Rattle.outer.specs.FileList.{found, with_name, kept_in};

use crate::failed::Failed;
use crate::file_list::Listed;
use crate::folder::{Folder, FolderRefusal};
use crate::mem_folder::SINK_ROOM;
use crate::sure_sink::SureSink;
use crate::sure_source::SureSource;
use std::alloc::Global;
use std::marker::Model;

/// A folder in memory that never fails: its two counts are always 0. A name that isn't there is fetched as no bytes.
///
/// It tells its files until it keeps a sink that tells nothing, to which more than its room, `SINK_ROOM`, was put. From
/// then on it tells nothing.
#[derive(Debug, Drop)]
pub struct SureFolder {
    files: Listed,
    /// No sink was kept that told nothing.
    whole: bool,
}

impl Model for SureFolder {
    ghost use Rattle.std.specs.Prelude.{Option, if◌then◌else◌, Some, None};
    ghost use Rattle.outer.specs.FileList.{FileList};

    ghost Value = { Option FileList };

    ghost view = { λ m. if m.whole then Some m.files else None };
}

impl SureFolder {
    /// A folder with these files. Of two with one name the first alone counts. It takes no memory.
    pub fn new(files: Vec<(String, Vec<u8>)>) -> Self
        ensures { result ≡ Some (map (λ e. (string_bytes e.0, e.1.items)) files.items) }
    {
        SureFolder {
            files: Listed::new(files),
            whole: true,
        }
    }

    /// The bytes of a name, if it is there, while the folder tells its files.
    pub fn bytes(&self, name: &str) -> Option<&[u8]>
        ensures { option_copied result ≡ option_and_then (λ files. found files name.now) self.now }
    {
        if self.whole {
            self.files.bytes(name)
        } else {
            None
        }
    }
}

impl Folder for SureFolder {
    type In = SureSource;

    type Out = SureSink;

    ghost files = { λ m. option_map found m };

    ghost loads = { λ _. 0 };

    ghost saves = { λ _. 0 };

    fn fetch(&mut self, alloc: Global, name: &str) -> Result<SureSource, FolderRefusal>
        ensures source { IfOk result (λ source. IfSome self.old (λ files. source ≡ bytes_of (found files) name.now)) }
        ensures failed { IsErrOf result FolderRefusal.Failed → ⊥ }
        ensures same { self.new ≡ self.old }
    {
        let bytes = match self.files.bytes(name) {
            Some(bytes) => bytes.to_vec(alloc)?,
            None => Vec::new(alloc),
        };
        Ok(SureSource::new(bytes))
    }

    #[tactic(auto, using(crate::proofs::Files::found_added, crate::proofs::Files::found_added_apart))]
    fn create(&mut self, alloc: Global, name: &str) -> Result<SureSink, FolderRefusal>
        ensures sink { IfOk result (λ sink. sink ≡ record { taken = Some []; room = SINK_ROOM }) }
        ensures failed { IsErrOf result FolderRefusal.Failed → ⊥ }
        ensures others { KeepsOthers name.now (option_map found self.old) (option_map found self.new) }
        ensures there { IsOk result → HasName name.now (option_map found self.new) }
        ensures files { self.new ≡ (if is_ok result then option_map (with_name name.now) self.old else self.old) }
    {
        let sink = SureSink::new(alloc, SINK_ROOM)?;
        self.files.add(alloc, name)?;
        Ok(sink)
    }

    #[tactic(auto, using(crate::proofs::Files::found_put, crate::proofs::Files::found_put_apart))]
    fn keep(&mut self, name: &str, out: SureSink) -> Result<(), Failed>
        requires { HasName name.now (option_map found self.old) }
        ensures ok { IsOk result }
        ensures others { KeepsOthers name.now (option_map found self.old) (option_map found self.new) }
        ensures holds { Holds name.now out.taken (option_map found self.new) }
        ensures kept { self.new ≡ kept_in name.now out.taken self.old }
    {
        match out.into_bytes() {
            Some(bytes) => self.files.put(name, bytes),
            None => self.whole = false,
        }
        Ok(())
    }

    fn close(&mut self, _source: SureSource)
        ensures { self.new ≡ self.old }
    {}

    fn discard(&mut self, _out: SureSink)
        ensures { self.new ≡ self.old }
    {}
}
