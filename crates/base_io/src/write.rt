//! Writes whole texts into a sink.
ghost use Rattle.base_io.specs.Devices.{growth};
ghost use Rattle.base_io.specs.Writes.{Wrote};

use crate::{Failed, Sink};

/// Writes all bytes. On `Failed` the sink has taken a prefix of them. Nothing is allocated.
#[tactic(auto, using(crate::proofs::SinkFacts::took_more, crate::proofs::SinkFacts::grew_by_take, crate::proofs::SinkFacts::whole_is_prefix))]
pub fn write_all<N: Sink>(sink: &mut N, bytes: &[u8]) -> Result<(), Failed>
    ensures { Wrote (growth N.taken N.faults sink.old sink.new) bytes.now result }
{
    let mut done = 0;
    'rest: while done < bytes.len() {
        done += sink.write(&bytes[done..])?;
    }
    Ok(())
}
