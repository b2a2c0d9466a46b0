//! Folders: where files are read and written by their names. A folder may tell its files (`files`), and may stop telling
//! them; contracts then say what stands under which name.
ghost use Rattle.std.specs.Prelude.{◌≡◌, ℕ, ◌<◌, ◌≤◌, List, [], Option, Some, IsOk, IfOk, OnOk, OnErr, IfSome, IsErrOf};
ghost use Rattle.outer.specs.Count.{Rose};
ghost use Rattle.outer.specs.Folder.{Files, bytes_of, HasName, KeepsOthers, KeepsAll, Holds};
ghost use Rattle.outer.specs.declared.folder.FolderRefusal.TheVariants.{NoMemory as no_memory};

use crate::failed::Failed;
use crate::sink::Sink;
use crate::source::Source;
use points::NoMemory;
use std::alloc::{AllocError, Global};
use thiserror::Error;

/// Why a folder gave no source or no sink.
#[derive(Clone, Copy, Debug, PartialEq, Eq, Error)]
pub enum FolderRefusal {
    /// The file couldn't be opened, or couldn't be made.
    #[error("outside fault")]
    Failed,
    /// There was no memory for it.
    #[error("out of memory")]
    NoMemory,
}

impl From<NoMemory> for FolderRefusal {
    ghost from_gives = { λ _ refusal. refusal ≡ no_memory };

    fn from(_refusal: NoMemory) -> Self {
        FolderRefusal::NoMemory
    }
}

impl From<AllocError> for FolderRefusal {
    ghost from_gives = { λ _ refusal. refusal ≡ no_memory };

    fn from(_error: AllocError) -> Self {
        FolderRefusal::NoMemory
    }
}

/// Where files stand, by their names in UTF-8.
///
/// A file is loaded by `fetch`, reads of the source and `close`. It is saved by `create`, puts to the sink, and then
/// `keep`, or `discard` where it isn't to be kept. From a `create` until a `keep` of that name succeeds, and after any
/// `Failed`, what stands under the name itself is open. Every other name is as it was.
pub trait Folder {
    type In: Source + Drop;

    type Out: Sink + Drop;

    /// The files, where the folder tells them.
    ghost files: { Self → Option Files };

    /// How many faults there were in loading. It never falls, and stands still at 2^64 - 1.
    ghost loads: { Self → ℕ };

    /// How many faults there were in saving. It never falls, and stands still at 2^64 - 1.
    ghost saves: { Self → ℕ };

    /// A source of the bytes of a name, with no faults yet.
    fn fetch(&mut self, alloc: Global, name: &str) -> Result<Self::In, FolderRefusal>
        ensures others { KeepsOthers name.now (files self.old) (files self.new) }
        ensures count { loads self.old ≤ loads self.new }
        ensures saves { saves self.new ≡ saves self.old }

        ensures kept { IsOk result → KeepsAll (files self.old) (files self.new) }
        ensures bytes { IfOk result (λ source. IfSome (files self.old) (λ had. Self.In.left source ≡ Some (bytes_of had name.now))) }
        ensures fresh { IfOk result (λ source. Self.In.faults source ≡ 0) }

        ensures cause { IsErrOf result FolderRefusal.Failed → Rose (loads self.old) (loads self.new) }
        ensures memory { IsErrOf result FolderRefusal.NoMemory → KeepsAll (files self.old) (files self.new) × (loads self.new ≡ loads self.old) };

    /// A sink for a name, with no bytes and no faults yet. From then on there is a file of that name.
    fn create(&mut self, alloc: Global, name: &str) -> Result<Self::Out, FolderRefusal>
        ensures others { KeepsOthers name.now (files self.old) (files self.new) }
        ensures count { saves self.old ≤ saves self.new }
        ensures loads { loads self.new ≡ loads self.old }

        ensures there { IsOk result → HasName name.now (files self.new) }
        ensures empty { IfOk result (λ sink. IfSome (Self.Out.taken sink) (λ bytes. bytes ≡ [])) }
        ensures fresh { IfOk result (λ sink. Self.Out.faults sink ≡ 0) }

        ensures cause { IsErrOf result FolderRefusal.Failed → Rose (saves self.old) (saves self.new) }
        ensures memory { IsErrOf result FolderRefusal.NoMemory → KeepsAll (files self.old) (files self.new) × (saves self.new ≡ saves self.old) };

    /// Puts the bytes that a sink took in the place of what stood under a name.
    fn keep(&mut self, name: &str, out: Self::Out) -> Result<(), Failed>
        requires { HasName name.now (files self.old) }

        ensures others { KeepsOthers name.now (files self.old) (files self.new) }
        ensures count { saves self.old ≤ saves self.new }
        ensures loads { loads self.new ≡ loads self.old }
        ensures holds { OnOk result (Holds name.now (Self.Out.taken out) (files self.new)) }
        ensures cause { OnErr result (Rose (saves self.old) (saves self.new)) };

    /// Takes a source back. A fault of that source is one in loading.
    fn close(&mut self, source: Self::In)
        ensures kept { KeepsAll (files self.old) (files self.new) }
        ensures count { loads self.old ≤ loads self.new }
        ensures rises { 0 < Self.In.faults source → Rose (loads self.old) (loads self.new) }
        ensures stays { Self.In.faults source ≡ 0 → loads self.new ≡ loads self.old }
        ensures saves { saves self.new ≡ saves self.old };

    /// Takes a sink back whose bytes aren't to be kept. A fault of that sink is one in saving.
    fn discard(&mut self, out: Self::Out)
        ensures kept { KeepsAll (files self.old) (files self.new) }
        ensures count { saves self.old ≤ saves self.new }
        ensures rises { 0 < Self.Out.faults out → Rose (saves self.old) (saves self.new) }
        ensures stays { Self.Out.faults out ≡ 0 → saves self.new ≡ saves self.old }
        ensures loads { loads self.new ≡ loads self.old };
}
