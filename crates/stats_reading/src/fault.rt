//! The faults for which a line is refused.
ghost use Rattle.std.specs.Prelude.{◌≡◌};
ghost use Rattle.stats_reading.specs.declared.fault.Fault.TheVariants as fault;

use base_io::NoMemory;

/// Why a line is refused.
#[derive(Clone, Copy, Debug, PartialEq, Eq)]
pub enum Fault {
    /// No text of the grammar begins with the lines up to this one.
    Syntax,
    /// Some text of the grammar begins with the lines up to this one. No text of a file that keeps the rules does.
    Rule,
    NoMemory,
}

impl From<NoMemory> for Fault {
    ghost from_gives = { λ _ e. e ≡ fault.NoMemory };

    fn from(_: NoMemory) -> Self {
        Fault::NoMemory
    }
}
