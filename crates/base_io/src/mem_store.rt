ghost use Rattle.std.specs.Prelude.{◌≡◌, ◌<◌, ◌≤◌, ◌-◌, min, if◌then◌else◌, length, option_map, IfOk, List, Some, ℕ, IsErrOf};
ghost use Rattle.limits.specs.Profile.{most_file};
ghost use Rattle.base_io.specs.Causes.{Rose, one_more};
ghost use Rattle.base_io.specs.Files.{file_of, Fills, ReadsAt, answer_about};
ghost use Rattle.base_io.specs.FailingCalls.{has_failed, is_failing_call};

use crate::{Name, Seq, Store, StoreError};

/// Files in memory. If two files have the same name, the first one is read.
///
/// Calls are counted from 1, and a call fails if its number is in `fail_at`. The three counts begin at 0 and do not rise above the greatest value of
/// their type.
#[derive(Drop)]
pub struct MemStore {
    pub files: Seq<(Name, Seq<u8>)>,
    pub fail_at: Seq<u64>,
    pub calls: u64,
    pub faults: u64,
    pub misses: u64,
}

impl MemStore {
    /// A store of these files, before its first call. It takes no memory.
    pub fn new(files: Seq<(Name, Seq<u8>)>, fail_at: Seq<u64>) -> MemStore
        ensures files { result.files ≡ files }
        ensures fail_at { result.fail_at ≡ fail_at }
        ensures calls { result.calls ≡ 0 }
        ensures faults { result.faults ≡ 0 }
        ensures misses { result.misses ≡ 0 }
    {
        MemStore {
            files,
            fail_at,
            calls: 0,
            faults: 0,
            misses: 0,
        }
    }
}

// The bytes of the first file with this name.
fn find_file<'a>(files: &'a [(Name, Seq<u8>)], name: &str) -> Option<&'a [u8]>
    ensures { option_map (λ s. s.now) result ≡ file_of files.now name.now }
{
    'files: for file in files {
        if file.0.as_str() == name {
            return Some(file.1.as_slice());
        }
    }
    None
}

// Copies bytes, from `offset` on, into the front of a buffer, until the bytes end or the buffer is full. Returns how many it copied.
fn copy_front(bytes: &[u8], offset: u64, into: &mut [u8]) -> usize
    requires { 0 < length into.old }
    ensures count { result ≡ min (length bytes.now - offset) (length into.new) }
    ensures fills { Fills bytes.now offset result into.new }
{
    if offset >= bytes.len() as u64 {
        return 0;
    }
    let rest = &bytes[offset as usize..];
    let count = rest.len().min(into.len());
    into[..count].copy_from_slice(&rest[..count]);
    count
}

impl Store for MemStore {
    ghost files = { λ s. Some s.files };

    ghost faults = { λ s. s.faults };

    ghost misses = { λ s. s.misses };

    /// Reads bytes of the first file with this name. A call fails exactly if its number is in `fail_at`.
    fn read_at(&mut self, name: &str, at: u64, into: &mut [u8]) -> Result<usize, StoreError>
        requires place { at ≤ most_file }
        requires room { 0 < length into.old }
        ensures read { ReadsAt (answer_about (Some self.old.files) name.now) at result into.new }
        ensures files { Some self.new.files ≡ Some self.old.files }
        ensures later { self.old.faults ≤ self.new.faults }
        ensures later_misses { self.old.misses ≤ self.new.misses }
        ensures failed { IsErrOf result StoreError.Failed → Rose self.old.faults self.new.faults }
        ensures missing { IsErrOf result StoreError.Missing
            → (self.new.faults ≡ self.old.faults) × (self.new.misses ≡ one_more self.old.misses) }
        ensures misses { (IsErrOf result StoreError.Missing → ⊥) → self.new.misses ≡ self.old.misses }

        // A read gives bytes until the file ends or the buffer is full.
        ensures most { IfOk result (λ n. (bytes : List ℕ) → file_of self.old.files name.now ≡ Some bytes
            → n ≡ min (length bytes - at) (length into.new)) }

        // A call fails exactly if its number is in `fail_at`, and each failure is counted.
        ensures calls { self.new.calls ≡ one_more self.old.calls }
        ensures fail_at { self.new.fail_at ≡ self.old.fail_at }
        ensures fails { has_failed result ≡ is_failing_call self.new.calls self.old.fail_at }
        ensures faults { self.new.faults
            ≡ (if is_failing_call self.new.calls self.old.fail_at then one_more self.old.faults else self.old.faults) }
    {
        self.calls = self.calls.saturating_add(1);
        if self.fail_at.as_slice().contains(&self.calls) {
            self.faults = self.faults.saturating_add(1);
            return Err(StoreError::Failed);
        }
        match find_file(self.files.as_slice(), name) {
            None => {
                self.misses = self.misses.saturating_add(1);
                Err(StoreError::Missing)
            }
            Some(bytes) => Ok(copy_front(bytes, at, into)),
        }
    }
}
