//! The list of a joined column without a condition.
ghost use Rattle.std.specs.Prelude.{◌≡◌, ◌<◌, ◌^◌, length, IfOk};
ghost use Rattle.std.specs.List.{sum};
ghost use Rattle.cond_stats.specs.Lists.{compressed_degrees};

use base_io::NoMemory;
use degree_lists::falling;
use limits::Accuracy;
use piece_compress::compress;
use piece_math::Pieces;
use std::alloc::Global;

/// The list of all rows: the compressed degree list of the joined keys, with an accuracy.
pub fn whole_list(alloc: Global, joined: &[u64], accuracy: Accuracy) -> Result<Pieces, NoMemory>
    requires rows { length joined.now < 2 ^ 32 }
    ensures list { IfOk result (λ list. list ≡ compressed_degrees accuracy joined.now) }
    ensures sum { IfOk result (λ list. sum list ≡ length joined.now) }
{
    let degrees = falling(alloc, joined)?;
    compress(alloc, degrees.as_slice(), accuracy)
}
