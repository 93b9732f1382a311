//! The weight of a tree. The search looks for the lightest tree.
ghost use Rattle.std.specs.Prelude.{◌≡◌};
ghost use Rattle.bushy_plan.specs.Splits.{combined};

use limits::TOP_BOUND;

// How the weight of a tree is made from the bounds of its inner nodes.
#[derive(Clone, Copy)]
pub(crate) enum Weighing {
    /// The greatest of the bounds.
    Greatest,
    /// The sum of the bounds, or `TOP_BOUND` if the sum is greater. If a bound is above the given number, the weight is `TOP_BOUND` too.
    SumIfBoundsAtMost(u128),
}

impl Weighing {
    // The weight of a node, from its bound and the weights of its two sides.
    pub(crate) fn combined(self, bound: u128, left: u128, right: u128) -> u128
        ensures { result ≡ combined self bound left right }
    {
        match self {
            Weighing::Greatest => bound.max(left.max(right)),
            Weighing::SumIfBoundsAtMost(most) => {
                if bound <= most {
                    bound.saturating_add(left).saturating_add(right)
                } else {
                    TOP_BOUND
                }
            }
        }
    }
}
