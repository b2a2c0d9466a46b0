//! Files by their names, in a list.
ghost use Rattle.std.specs.Prelude.{◌≡◌, [], ◌++◌, map, option_copied, OnOk, OnErr, string_bytes};
ghost use Rattle.std.specs.List.{position_from};
ghost use Rattle.std.specs.Str.{bytes_eq};
ghost use Rattle.outer.specs.FileList.{found, with_name, with_bytes};

use points::NoMemory;
use std::alloc::Global;
use std::marker::Model;

/// The name and the bytes of each file. Of two with one name the first alone counts.
#[derive(Debug, Drop)]
pub(crate) struct Listed {
    entries: Vec<(String, Vec<u8>)>,
}

impl Model for Listed {
    ghost use Rattle.std.specs.Prelude.{map, string_bytes};
    ghost use Rattle.outer.specs.FileList.{FileList};

    ghost Value = { FileList };

    ghost view = { λ l. map (λ e. (string_bytes e.0, e.1.items)) l.entries.items };
}

impl Listed {
    /// These files.
    pub(crate) fn new(entries: Vec<(String, Vec<u8>)>) -> Self
        ensures { result ≡ map (λ e. (string_bytes e.0, e.1.items)) entries.items }
    {
        Listed { entries }
    }

    /// The bytes of a name, lent.
    pub(crate) fn bytes(&self, name: &str) -> Option<&[u8]>
        ensures { option_copied result ≡ found self.now name.now }
    {
        let at = place_of(&self.entries, name)?;
        Some(self.entries[at].1.as_slice())
    }

    /// Adds an empty file with this name where there is none. A refusal leaves the list as it was.
    pub(crate) fn add(&mut self, alloc: Global, name: &str) -> Result<(), NoMemory>
        ensures ok { OnOk result (self.new ≡ with_name name.now self.old) }
        ensures err { OnErr result (self.new ≡ self.old) }
    {
        if place_of(&self.entries, name).is_some() {
            return Ok(());
        }
        let name = String::from_str(alloc, name)?;
        self.entries.push((name, Vec::new(alloc)))?;
        Ok(())
    }

    /// Puts these bytes in the place of a name's, if it is there. It takes no memory.
    pub(crate) fn put(&mut self, name: &str, bytes: Vec<u8>)
        ensures { self.new ≡ with_bytes name.now bytes.items self.old }
    {
        if let Some(at) = place_of(&self.entries, name) {
            self.entries[at].1 = bytes;
        }
    }
}

// Where the first file with this name stands in the list.
fn place_of(entries: &[(String, Vec<u8>)], name: &str) -> Option<usize>
    ensures { result ≡ position_from (λ e. bytes_eq (string_bytes e.0) name.now) 0 entries.now }
{
    entries.iter().position(|entry| entry.0.as_str() == name)
}
