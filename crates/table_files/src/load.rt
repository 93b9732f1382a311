//! Reads a file of a run.
ghost use Rattle.std.specs.Prelude.{◌≤◌, length, IfOk};
ghost use Rattle.limits.specs.Profile.{most_file};
ghost use Rattle.base_io.specs.Devices.{reading};
ghost use Rattle.outcomes.specs.Reads.{AtFile, Reads};
ghost use Rattle.table_files.specs.TableFile.{read};

use base_io::{ReadError, Seq, Store, read_file};
use outcomes::{Failure, FileId, Refusal};
use schema_types::LimitKind;

/// Reads a file of at most `limit` bytes. The list `memory` is reused for them.
pub fn load_file<S: Store>(
    memory: Seq<u8>,
    store: &mut S,
    file: FileId,
    name: &str,
    limit: u32,
) -> Result<Seq<u8>, Failure>
    requires { limit ≤ most_file }
    ensures short { IfOk result (λ bytes. length bytes ≤ limit) }
    ensures reads { Reads (reading S.files S.faults S.misses store.old store.new) (read file limit name.now) (AtFile file) result }
{
    match read_file(memory, store, name, limit) {
        Ok(bytes) => Ok(bytes),
        Err(ReadError::Missing) => Err(Failure::Refused(Refusal::Missing { file })),
        Err(ReadError::Fault) => Err(Failure::Fault { file }),
        Err(ReadError::TooLong { .. }) => Err(Failure::Refused(Refusal::Limit {
            which: LimitKind::FileBytes,
            file,
            found: limit as u64 + 1,
        })),
        Err(ReadError::NoMemory) => Err(Failure::NoMemory),
    }
}
