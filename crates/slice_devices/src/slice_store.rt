//! A store of the files in a list that the caller lends.
ghost use Rattle.std.specs.Prelude.{◌≡◌, ◌-◌, ◌<◌, length, min, option_map, Some};
ghost use Rattle.base_io.specs.Files.{Fills, file_of};
ghost use Rattle.slice_devices.specs.Slices.{files_of};

use base_io::{Store, StoreError};

/// A file: its name and its bytes.
#[repr(C)]
#[derive(Clone, Copy, Debug)]
pub struct SliceFile<'a> {
    pub name: &'a [u8],
    pub bytes: &'a [u8],
}

/// A store of the files in a list. If two files have the same name, the first one is read. The store tells its files, and no read fails.
#[derive(Drop)]
pub struct SliceStore<'a, 'b> {
    pub files: &'a [SliceFile<'b>],
    pub misses: u64,
}

impl<'a, 'b> SliceStore<'a, 'b> {
    /// A store of these files, before its first read.
    pub fn new(files: &'a [SliceFile<'b>]) -> SliceStore<'a, 'b>
        ensures files { result.files.now ≡ files.now }
        ensures misses { result.misses ≡ 0 }
    {
        SliceStore { files, misses: 0 }
    }
}

// The bytes of the first file with this name.
fn find_file<'b>(files: &[SliceFile<'b>], name: &str) -> Option<&'b [u8]>
    ensures { option_map (λ s. s.now) result ≡ file_of (files_of files.now) name.now }
{
    'files: for file in files {
        if file.name == name.as_bytes() {
            return Some(file.bytes);
        }
    }
    None
}

// Copies bytes, from `offset` on, into the front of a buffer, until the bytes end or the buffer is full. Returns how many it copied.
fn copy_front(bytes: &[u8], offset: u64, into: &mut [u8]) -> usize
    requires { 0 < length into.old }
    ensures count { result ≡ min (length bytes.now - offset) (length into.new) }
    ensures fills { Fills bytes.now offset result into.new }
{
    if offset >= bytes.len() as u64 {
        return 0;
    }
    let rest = &bytes[offset as usize..];
    let count = rest.len().min(into.len());
    into[..count].copy_from_slice(&rest[..count]);
    count
}

impl Store for SliceStore<'_, '_> {
    ghost files = { λ s. Some (files_of s.files.now) };

    ghost faults = { λ s. 0 };

    ghost misses = { λ s. s.misses };

    fn read_at(&mut self, name: &str, at: u64, into: &mut [u8]) -> Result<usize, StoreError> {
        match find_file(self.files, name) {
            None => {
                self.misses = self.misses.saturating_add(1);
                Err(StoreError::Missing)
            }
            Some(bytes) => Ok(copy_front(bytes, at, into)),
        }
    }
}
