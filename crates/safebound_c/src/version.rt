//! The library's version.
ghost use Rattle.std.specs.Prelude.{◌≡◌, length, IfErr, IfOk, OnErr};
ghost use Rattle.safebound_lists.specs.Written.{RoomBeginsWith, IsRoomRefusal};
ghost use Rattle.safebound_c.specs.Status.{TellsAnswer};
ghost use Rattle.safebound_c.specs.Version.{version_text};

use crate::status::answer_status;
use safebound_lists::Refusal;

// The text of the version, and then a byte 0.
const VERSION: &[u8; 6] = b"0.4.0\0";

fn version(into: &mut [u8]) -> Result<u64, Refusal>
    ensures done { IfOk result (RoomBeginsWith version_text into.old into.new) }
    ensures refused { IfErr result (IsRoomRefusal (length version_text) (length into.old)) }
    ensures kept { OnErr result (into.new ≡ into.old) }
{
    let count = VERSION.len();
    if into.len() < count {
        return Err(Refusal::Room {
            needed: count as u64,
        });
    }
    into[..count].copy_from_slice(VERSION);
    Ok(count as u64)
}

/// Writes the library's version as a text that ends with a byte 0.
#[unsafe(no_mangle)]
pub extern "C" fn safebound_version(into: &mut [u8], detail: &mut u64) -> u32
    ensures exact { TellsAnswer (RoomBeginsWith version_text into.old into.new) (IsRoomRefusal (length version_text) (length into.old))
        into.old into.new detail.old result detail.new }
{
    answer_status(version(into), detail)
}
