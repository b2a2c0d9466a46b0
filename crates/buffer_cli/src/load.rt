//! The file that a script opens: it is fetched from the folder, read to its end, given back, and read as a text.
ghost use Rattle.std.specs.Prelude.{◌≡◌, ◌≤◌, IsErrOf};
ghost use Rattle.outer.specs.Count.{Rose};
ghost use Rattle.buffer_cli.specs.Load.{IsFetched, Loads};

use crate::input::{InputFault, read_to_end};
use codecs::decode;
use machine::Encoding;
use outer::{Folder, FolderRefusal};
use points::{MAX_UNITS, NoMemory};
use script::units_of;
use std::alloc::Global;

/// Why the text of a file wasn't read.
#[derive(Clone, Copy, Debug, PartialEq, Eq)]
pub(crate) enum Unloaded {
    /// The folder or its source failed.
    Failed,
    /// The file has more than 2^26 bytes.
    TooLong,
    /// Its text has more than 2^24 units.
    TextTooLong,
    NoMemory,
}

impl From<InputFault> for Unloaded {
    ghost use Rattle.std.specs.Prelude.{◌≡◌};
    ghost use Rattle.buffer_cli.specs.LoadFaults.{of_input};

    ghost from_gives = { λ fault unloaded. unloaded ≡ of_input fault };

    fn from(fault: InputFault) -> Self {
        match fault {
            InputFault::Failed => Unloaded::Failed,
            InputFault::TooLong => Unloaded::TooLong,
            InputFault::NoMemory => Unloaded::NoMemory,
        }
    }
}

impl From<NoMemory> for Unloaded {
    ghost use Rattle.std.specs.Prelude.{◌≡◌};
    ghost use Rattle.buffer_cli.specs.declared.load.Unloaded.TheVariants as unloaded;

    ghost from_gives = { λ _ fault. fault ≡ unloaded.NoMemory };

    fn from(_refusal: NoMemory) -> Self {
        Unloaded::NoMemory
    }
}

/// The text of the file with this name, read in this encoding.
pub(crate) fn load<F: Folder>(
    alloc: Global,
    folder: &mut F,
    name: &str,
    encoding: Encoding,
) -> Result<String, Unloaded>
    ensures loads { Loads name.now encoding (F.files folder.old) (F.files folder.new) result }
    ensures load_count { F.loads folder.old ≤ F.loads folder.new }
    ensures save_count { F.saves folder.new ≡ F.saves folder.old }
    ensures failed { IsErrOf result Unloaded.Failed → Rose (F.loads folder.old) (F.loads folder.new) }
{
    let bytes = fetch(alloc, folder, name)?;
    let text = decode(alloc, encoding, bytes.as_slice())?;
    if units_of(text.as_str()) > MAX_UNITS {
        return Err(Unloaded::TextTooLong);
    }
    Ok(text)
}

/// All bytes of the file with this name. Its source is closed whatever came of it.
pub(crate) fn fetch<F: Folder>(
    alloc: Global,
    folder: &mut F,
    name: &str,
) -> Result<Vec<u8>, InputFault>
    ensures fetched { IsFetched name.now (F.files folder.old) (F.files folder.new) result }
    ensures load_count { F.loads folder.old ≤ F.loads folder.new }
    ensures save_count { F.saves folder.new ≡ F.saves folder.old }
    ensures failed { IsErrOf result InputFault.Failed → Rose (F.loads folder.old) (F.loads folder.new) }
{
    let mut source = match folder.fetch(alloc, name) {
        Ok(source) => source,
        Err(FolderRefusal::Failed) => return Err(InputFault::Failed),
        Err(FolderRefusal::NoMemory) => return Err(InputFault::NoMemory),
    };
    let bytes = read_to_end(alloc, &mut source);
    folder.close(source);
    bytes
}
