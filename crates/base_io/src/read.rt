//! Reads a whole file at once.
ghost use Rattle.std.specs.Prelude.{◌≡◌, ◌≤◌, IsErrOf};
ghost use Rattle.limits.specs.Profile.{most_file};
ghost use Rattle.base_io.specs.Causes.{Rose, one_more};
ghost use Rattle.base_io.specs.Files.{ReadsFile, answer_about};

use crate::{ReadError, Seq, Store, StoreError};

// A block is large enough that reading a table takes few calls, and small beside the file itself.
const BLOCK: usize = 65_536;

/// Reads a whole file of at most `limit` bytes. The list `memory` is reused for them.
///
/// The list's old bytes are dropped, and each block is read straight into its memory, without a buffer between. The memory grows by doubling. So
/// files that are read one after another into the same memory need only the memory of the longest file. The result is `Fault` only if the store's
/// count of faults rose.
pub fn read_file<S: Store>(
    memory: Seq<u8>,
    store: &mut S,
    name: &str,
    limit: u32,
) -> Result<Seq<u8>, ReadError>
    requires { limit ≤ most_file }

    // The whole file, or the error that fits what the store tells about the name.
    ensures read { ReadsFile (answer_about (S.files store.old) name.now) limit result }
    ensures files { S.files store.new ≡ S.files store.old }
    ensures later { S.faults store.old ≤ S.faults store.new }
    ensures later_misses { S.misses store.old ≤ S.misses store.new }
    ensures fault { IsErrOf result ReadError.Fault → Rose (S.faults store.old) (S.faults store.new) }
    ensures missing { IsErrOf result ReadError.Missing
        → (S.faults store.new ≡ S.faults store.old) × (S.misses store.new ≡ one_more (S.misses store.old)) }
    ensures misses { (IsErrOf result ReadError.Missing → ⊥) → S.misses store.new ≡ S.misses store.old }
{
    let mut items = memory.into_vec();
    items.clear();
    // Each round but the last reads at least one byte, so `limit` + 1 rounds are enough.
    'rounds: for _round in 0..=limit {
        let at = items.len();
        items.resize(at + BLOCK, 0)?;
        match store.read_at(name, at as u64, &mut items[at..]) {
            Err(StoreError::Missing) => return Err(ReadError::Missing),
            Err(StoreError::Failed) => return Err(ReadError::Fault),
            Ok(0) => {
                items.truncate(at);
                return Ok(Seq::from_vec(items));
            }
            Ok(count) => {
                if count > limit as usize - at {
                    return Err(ReadError::TooLong { limit });
                }
                items.truncate(at + count);
            }
        }
    }
    Err(ReadError::TooLong { limit })
}
