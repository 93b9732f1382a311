//! Why reading stopped.
ghost use Rattle.std.specs.Prelude.{◌≡◌};
ghost use Rattle.ll_grammars.specs.declared.stop.Stop.TheVariants as reason;

use base_io::NoMemory;

/// Why a reader gave no value. `Syntax`: the next token can't follow in any text of the rule, or the tokens end too early. `NoMemory`: memory ran
/// out.
#[derive(Clone, Copy, Debug, PartialEq, Eq)]
pub enum Stop {
    Syntax,
    NoMemory,
}

impl From<NoMemory> for Stop {
    ghost from_gives = { λ _ e. e ≡ reason.NoMemory };

    fn from(_: NoMemory) -> Stop {
        Stop::NoMemory
    }
}
