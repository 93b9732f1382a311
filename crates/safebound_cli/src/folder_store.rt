//! A store that reads real files.
ghost use Rattle.std.specs.Prelude.{◌≡◌, ◌≤◌, IfOk, None, length};

use base_io::{Store, StoreError};
use std::fs;
use std::io::{self, Read, Seek, SeekFrom};
use std::rt::Files;

// A file, its name, and the byte offset at which its next read begins.
#[derive(Drop)]
struct Opened<F> {
    name: String,
    file: F,
    offset: u64,
}

/// A store of files whose names are relative to the working folder. Contracts say nothing about the bytes of the files. The file that was
/// read last stays open. The store counts every failed read, and a read of an absent file is a failed read.
#[derive(Drop)]
pub struct FolderStore<'a, R: Files> {
    rt: &'a R,
    last: Option<Opened<R::File>>,
    faults: u64,
}

impl<'a, R: Files + AllocGlobal> FolderStore<'a, R> {
    /// A store with no open file and no failure so far.
    pub fn new(rt: &'a R) -> FolderStore<'a, R>
        ensures faults { result.faults ≡ 0 }
    {
        FolderStore {
            rt,
            last: None,
            faults: 0,
        }
    }

    // The file of this name. Opens it, unless it is the file that was read last, which is still open.
    fn opened(&mut self, name: &str) -> io::Result<Opened<R::File>>
        ensures { self.new.faults ≡ self.old.faults }
    {
        match self.last.take() {
            Some(opened) if opened.name.as_str() == name => Ok(opened),
            _ => Ok(Opened {
                name: String::from_str(self.rt.alloc(), name)?,
                file: fs::open(self.rt, name)?,
                offset: 0,
            }),
        }
    }

    // After a failure no file stays open, so that the next read opens the file again.
    fn read_part(&mut self, name: &str, at: u64, into: &mut [u8]) -> io::Result<usize>
        ensures count { IfOk result (λ n. n ≤ length into.new) }
        ensures faults { self.new.faults ≡ self.old.faults }
    {
        let mut opened = self.opened(name)?;
        if opened.offset != at {
            opened.file.seek(SeekFrom::Start(at))?;
        }
        let count = opened.file.read(into)?;
        opened.offset = at.saturating_add(count as u64);
        self.last = Some(opened);
        Ok(count)
    }
}

impl<'a, R: Files + AllocGlobal> Store for FolderStore<'a, R> {
    ghost files = { λ _. None };

    ghost faults = { λ s. s.faults };

    ghost misses = { λ _. 0 };

    fn read_at(&mut self, name: &str, at: u64, into: &mut [u8]) -> Result<usize, StoreError> {
        match self.read_part(name, at, into) {
            Ok(count) => Ok(count),
            Err(_) => {
                self.faults = self.faults.saturating_add(1);
                Err(StoreError::Failed)
            }
        }
    }
}
