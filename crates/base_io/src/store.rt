//! A store: where files are read from, by name.
ghost use Rattle.std.specs.Prelude.{◌≡◌, ◌<◌, ◌≤◌, ℕ, Option, length, IsErrOf};
ghost use Rattle.limits.specs.Profile.{most_file};
ghost use Rattle.base_io.specs.Causes.{Rose, one_more};
ghost use Rattle.base_io.specs.Files.{Files, ReadsAt, answer_about};

use crate::StoreError;

/// Gives the bytes of files by their names.
///
/// Some stores do not tell which files they have. Such a store counts an absent file as a failed read.
pub trait Store {
    /// The files, if the store tells them.
    ghost files: { Self → Option Files };

    /// How often a read has failed.
    ghost faults: { Self → ℕ };

    /// How often a file was missing.
    ghost misses: { Self → ℕ };

    /// Reads bytes of a file, from the offset `at` on, into the front of a buffer. Returns how many bytes were read. The result is 0 exactly if `at`
    /// is the end of the file or lies past the end.
    fn read_at(&mut self, name: &str, at: u64, into: &mut [u8]) -> Result<usize, StoreError>
        requires place { at ≤ most_file }
        requires room { 0 < length into.old }
        ensures read { ReadsAt (answer_about (files self.old) name.now) at result into.new }
        ensures files { files self.new ≡ files self.old }

        // Neither count decreases.
        ensures later { faults self.old ≤ faults self.new }
        ensures later_misses { misses self.old ≤ misses self.new }

        ensures failed { IsErrOf result StoreError.Failed → Rose (faults self.old) (faults self.new) }
        ensures missing { IsErrOf result StoreError.Missing
            → (faults self.new ≡ faults self.old) × (misses self.new ≡ one_more (misses self.old)) }
        ensures misses { (IsErrOf result StoreError.Missing → ⊥) → misses self.new ≡ misses self.old };
}
