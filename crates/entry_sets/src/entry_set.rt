ghost use Rattle.std.specs.Prelude.{◌≡◌, ◌↔◌, ◌+◌, ◌-◌, ◌^◌, ◌<◌, ◌==◌, ◌&&◌, ◌||◌, ℕ, not, IsTrue};
ghost use Rattle.std.specs.Int.{bit_at};
ghost use Rattle.limits.specs.Profile.{greatest_entries};
ghost use Rattle.entry_sets.specs.Sets.{IsSubset, has_entry};

use limits::GREATEST_ENTRIES;
use std::marker::Model;

// A set has a bit for each entry that it may have. A query of the program has fewer entries (`MOST_ENTRIES`).
const ENTRIES: u8 = GREATEST_ENTRIES as u8;

/// A set of FROM entries. In contracts it is a number: entry x is in the set if bit x is set.
#[derive(Clone, Copy, Debug, PartialEq, Eq)]
pub struct EntrySet {
    bits: u16,
}

impl Model for EntrySet {
    ghost use Rattle.std.specs.Prelude.{ℕ, ◌^◌, ◌<◌};
    ghost use Rattle.std.specs.Coded.{coded_ℕ};
    ghost use Rattle.limits.specs.Profile.{greatest_entries};

    ghost Value = { ℕ };

    ghost coded = { coded_ℕ };

    ghost view = { λ set. set.bits };

    ghost invariant = { λ set. set.bits < 2 ^ greatest_entries };

    ghost inverse = { λ bits. record { bits = bits } };
}

impl EntrySet {
    /// The set without entries.
    pub const fn empty() -> EntrySet
        ensures { result ≡ 0 }
    {
        EntrySet { bits: 0 }
    }

    /// The set with these bits.
    pub const fn from_bits(bits: u16) -> EntrySet
        ensures { result ≡ bits }
    {
        EntrySet { bits }
    }

    /// The set's bits.
    pub const fn bits(self) -> u16
        ensures { result ≡ self }
    {
        self.bits
    }

    /// Whether the entry is in the set.
    pub fn has(self, entry: u8) -> bool
        ensures value { result ≡ has_entry self entry }
        ensures bit { entry < greatest_entries → IsTrue result ↔ (bit_at self entry ≡ 1) }
    {
        entry < ENTRIES && (self.bits >> entry) & 1 == 1
    }

    /// The set with the entry added.
    pub fn with(self, entry: u8) -> EntrySet
        requires { entry < greatest_entries }
        ensures entries { (other : ℕ) → has_entry result other ≡ (has_entry self other || (other == entry)) }
        ensures number { bit_at self entry ≡ 0 → result ≡ self + 2 ^ entry }
    {
        EntrySet {
            bits: self.bits | (1 << entry),
        }
    }

    /// The set without the entry.
    pub fn without(self, entry: u8) -> EntrySet
        requires { entry < greatest_entries }
        ensures entries { (other : ℕ) → has_entry result other ≡ (has_entry self other && not (other == entry)) }
        ensures number { bit_at self entry ≡ 1 → result ≡ self - 2 ^ entry }
    {
        EntrySet {
            bits: self.bits & !(1 << entry),
        }
    }

    /// Whether each entry of the set is in the other set.
    pub fn is_within(self, other: EntrySet) -> bool
        ensures { IsTrue result ↔ IsSubset self other }
    {
        self.bits & other.bits == self.bits
    }
}
