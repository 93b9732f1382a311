//! Weights that the search minimizes. A way is an order of the entries that are still to be joined. Its weight is the greatest of the bounds along
//! the way, or their sum.
ghost use Rattle.std.specs.Prelude.{◌≡◌};
ghost use Rattle.order_search.specs.Ways.{combined};

use limits::TOP_BOUND;

// How a weight is made from the bounds along a way.
#[derive(Clone, Copy)]
pub(crate) enum Weighing {
    /// The greatest of the bounds.
    Greatest,
    /// The sum of the bounds, or TOP_BOUND if the sum is greater. If a bound is above the given number, the weight is TOP_BOUND too.
    SumIfBoundsAtMost(u128),
}

impl Weighing {
    // Combines the next bound with the weight of the rest of the way.
    pub(crate) fn combined(self, bound: u128, weight_of_rest: u128) -> u128
        ensures { result ≡ combined self bound weight_of_rest }
    {
        match self {
            Weighing::Greatest => bound.max(weight_of_rest),
            Weighing::SumIfBoundsAtMost(most) => {
                if bound <= most {
                    bound.saturating_add(weight_of_rest)
                } else {
                    TOP_BOUND
                }
            }
        }
    }
}
