ghost use Rattle.std.specs.Prelude.{◌≡◌, ◌<◌, ◌≤◌};
ghost use Rattle.limits.specs.Profile.{most_accuracy};

use std::marker::Model;

/// The accuracy of compressed lists, from 1 to 64. At a higher accuracy a compressed list is nearer to the uncompressed one, and has more runs.
/// In contracts an accuracy is a number.
#[derive(Clone, Copy)]
pub struct Accuracy {
    value: u8,
}

impl Model for Accuracy {
    ghost use Rattle.std.specs.Prelude.{ℕ, ◌<◌, ◌≤◌};
    ghost use Rattle.std.specs.Coded.{coded_ℕ};
    ghost use Rattle.limits.specs.Profile.{most_accuracy};

    ghost Value = { ℕ };

    ghost coded = { coded_ℕ };

    ghost view = { λ accuracy. accuracy.value };

    ghost invariant = { λ accuracy. (0 < accuracy.value) × (accuracy.value ≤ most_accuracy) };

    ghost inverse = { λ value. record { value = value } };
}

impl Accuracy {
    /// Makes an accuracy.
    pub const fn of(value: u8) -> Accuracy
        requires { (0 < value) × (value ≤ most_accuracy) }
        ensures { result ≡ value }
    {
        Accuracy { value }
    }

    /// The accuracy as a number.
    pub const fn value(self) -> u8
        ensures value { result ≡ self }
        ensures range { (0 < self) × (self ≤ most_accuracy) }
    {
        self.value
    }
}
