//! Whether the bytes of a plan are within a limit. No memory is taken here.
ghost use Rattle.std.specs.Prelude.{◌≡◌};
ghost use Rattle.prepared_runs.specs.Limits.{limit_test};

use outcomes::Refusal;

/// Refuses a plan of `bytes` bytes if there is a limit and `bytes` is above it.
pub fn check_limit(limit: Option<u64>, bytes: u128) -> Result<(), Refusal>
    ensures { result ≡ limit_test limit bytes }
{
    let Some(limit) = limit else {
        return Ok(());
    };
    if bytes <= u128::from(limit) {
        Ok(())
    } else {
        Err(Refusal::MemoryLimit { bytes })
    }
}
