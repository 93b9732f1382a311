//! Compares texts.
ghost use Rattle.std.specs.Prelude.{◌≡◌};
ghost use Rattle.std.specs.Cmp.Lexicographic.{slice_cmp};
ghost use Rattle.std.specs.Ordering.{nat_cmp};
ghost use Rattle.std.specs.Str.{chars};

use std::cmp::Ordering;

/// The order of two texts, by the code points of their characters. Their bytes are in the same order.
pub fn compare_texts(a: &str, b: &str) -> Ordering
    ensures { result ≡ slice_cmp nat_cmp (chars a.now) (chars b.now) }
{
    a.cmp(b)
}
