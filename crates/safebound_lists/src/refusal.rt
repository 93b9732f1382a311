//! Why a call of the library was refused.
ghost use Rattle.std.specs.Prelude.{◌≡◌};
ghost use Rattle.safebound_lists.specs.declared.refusal.Refusal.TheVariants as refusal;

use base_io::NoMemory;
use std::alloc::AllocError;

/// Why a call was refused. A refused call changed nothing in the caller's room. `place` is the index of an element, counted from 0.
#[derive(Clone, Copy, Debug, PartialEq, Eq)]
pub enum Refusal {
    /// The room is too small: the answer has `needed` elements.
    Room { needed: u64 },
    /// Memory ran out.
    NoMemory,
    /// There are more than 2^48 keys.
    Keys { count: u64 },
    /// The run at this index breaks a rule of lists. Degrees and numbers of keys are above 0, degrees don't increase, and the degrees of all
    /// keys sum to at most 2^48.
    Run { place: u64 },
    /// The run at this index of the second list breaks a rule, as in `Run`.
    OtherRun { place: u64 },
    /// The list that a call would make of two lists has the sum `sum`, which is above 2^48.
    Sum { sum: u64 },
    /// The accuracy isn't from 1 to 64.
    Accuracy { given: u64 },
    /// The number of entries isn't from 1 to `GREATEST_ENTRIES`; for the bytes of a plan, to `MOST_ENTRIES`.
    Entries { count: u64 },
    /// The row bound at this index is above 2^48.
    Rows { place: u64 },
    /// There are more than 256 equalities.
    Equalities { count: u64 },
    /// The equality at this index names an entry that doesn't exist, or one entry on both sides.
    Equality { place: u64 },
    /// The list at this index is invalid, for one of these reasons: its entry doesn't exist; an earlier list is of the same column; this list has no
    /// runs and no mark `NO_VALUES`; the runs that it names don't exist.
    List { place: u64 },
    /// A column of the equality at this index has no list.
    MissingList { place: u64 },
    /// The number of bounds isn't 2^n for a number of entries n from 1 to `GREATEST_ENTRIES`.
    Bounds { count: u64 },
    /// The budget that the caller gave is above 2^59.
    GivenBudget { given: u64 },
    /// The number of levels isn't the number of entries.
    Levels { count: u64 },
    /// The level at this index names an entry that doesn't exist.
    Level { place: u64 },
    /// The number of joins isn't one less than the number of entries.
    Joins { count: u64 },
    /// The join at this index names a node that isn't before it.
    Join { place: u64 },
    /// The best plan exceeds the budget. `least` is the least budget that would be enough.
    Budget { least: u64 },
    /// The set names an entry that doesn't exist.
    Set { given: u64 },
    /// No kind of join has this number.
    JoinKind { given: u64 },
    /// The work exceeds the limit. `needed` is the least limit that would be enough, or 2^64 - 1 if that limit is above 2^64 - 1.
    Work { needed: u64 },
    /// Each plan has a level or a join without a bound. Or the number that the call should give has more than 64 bits.
    PastBits,
}

impl From<NoMemory> for Refusal {
    ghost from_gives = { λ _ e. e ≡ refusal.NoMemory };

    fn from(_: NoMemory) -> Self {
        Refusal::NoMemory
    }
}

impl From<AllocError> for Refusal {
    ghost from_gives = { λ _ e. e ≡ refusal.NoMemory };

    fn from(_: AllocError) -> Self {
        Refusal::NoMemory
    }
}
