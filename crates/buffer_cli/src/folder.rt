//! The trusted edge of files: the current folder. It tells nothing of what stands in it, and counts its faults in loading and in
//! saving from 0 on.
//!
//! A sink writes a draft: a file whose name begins with `.`, so that no script can name it. To keep it renames it to the name
//! itself, so that what fails leaves the old file.
ghost use Rattle.std.specs.Prelude.{◌≡◌, None};

use crate::adapters::{Reading, Writing};
use outer::{Failed, Folder, FolderRefusal, Sink};
use std::alloc::Global;
use std::fs;
use std::fs::{File, Files};

/// The current folder, of these files.
#[derive(Drop)]
pub(crate) struct CurrentFolder<R> {
    files: R,
    loads: u64,
    saves: u64,
}

impl<R> CurrentFolder<R> {
    pub(crate) fn new(files: R) -> Self
        ensures loads { result.loads ≡ 0 }
        ensures saves { result.saves ≡ 0 }
    {
        CurrentFolder {
            files,
            loads: 0,
            saves: 0,
        }
    }
}

/// What is written to take a file's place.
#[derive(Drop)]
pub(crate) struct Draft<W> {
    bytes: Writing<W>,
    name: String,
}

impl<W: std::io::Write> Sink for Draft<W> {
    ghost taken = { λ _. None };

    ghost faults = { λ d. d.bytes.faults };

    fn put(&mut self, bytes: &[u8]) -> Result<(), Failed> {
        match self.bytes.put(bytes) {
            Ok(()) => Ok(()),
            Err(failed) => Err(failed),
        }
    }

    fn flush(&mut self) -> Result<(), Failed> {
        match self.bytes.flush() {
            Ok(()) => Ok(()),
            Err(failed) => Err(failed),
        }
    }
}

impl<R: Files + Drop> Folder for CurrentFolder<R>
where
    R::File: Drop,
{
    type In = Reading<R::File>;

    type Out = Draft<R::File>;

    ghost files = { λ _. None };

    ghost loads = { λ f. f.loads };

    ghost saves = { λ f. f.saves };

    fn fetch(&mut self, _alloc: Global, name: &str) -> Result<Reading<R::File>, FolderRefusal> {
        match File::open(&self.files, name) {
            Ok(file) => Ok(Reading::new(file)),
            Err(_) => {
                self.loads = self.loads.saturating_add(1);
                Err(FolderRefusal::Failed)
            }
        }
    }

    fn create(&mut self, alloc: Global, name: &str) -> Result<Draft<R::File>, FolderRefusal> {
        let draft = format!(in alloc; ".{name}.draft")?;
        match File::create(&self.files, draft.as_str()) {
            Ok(file) => Ok(Draft {
                bytes: Writing::new(file),
                name: draft,
            }),
            Err(_) => {
                self.saves = self.saves.saturating_add(1);
                Err(FolderRefusal::Failed)
            }
        }
    }

    fn keep(&mut self, name: &str, out: Draft<R::File>) -> Result<(), Failed> {
        let Draft { bytes, name: draft } = out;
        drop(bytes);
        match fs::rename(&self.files, draft.as_str(), name) {
            Ok(()) => Ok(()),
            Err(_) => {
                let _ = fs::remove_file(&self.files, draft.as_str());
                self.saves = self.saves.saturating_add(1);
                Err(Failed)
            }
        }
    }

    fn close(&mut self, source: Reading<R::File>) {
        if source.has_failed() {
            self.loads = self.loads.saturating_add(1);
        }
    }

    fn discard(&mut self, out: Draft<R::File>) {
        let Draft { bytes, name } = out;
        if bytes.has_failed() {
            self.saves = self.saves.saturating_add(1);
        }
        drop(bytes);
        let _ = fs::remove_file(&self.files, name.as_str());
    }
}
