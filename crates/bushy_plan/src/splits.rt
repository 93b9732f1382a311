//! The splits of a set of entries into a left and a right set, in the order of the search. A set is the number whose bits are its entries. This
//! number is also the index of the set's bound.
ghost use Rattle.std.specs.Prelude.{◌<◌};
ghost use Rattle.bushy_plan.specs.PlanTrees.{IsFirstEntry};
ghost use Rattle.bushy_plan.specs.Splits.{IsWithoutFirst};

// The set's first entry.
pub(crate) fn first_entry(set: usize) -> u8
    requires { 0 < set }
    ensures { IsFirstEntry set result }
{
    set.trailing_zeros() as u8
}

// The set without its first entry. The right set of a split is any nonempty subset of this result.
pub(crate) fn without_first(set: usize) -> usize
    requires { 0 < set }
    ensures { IsWithoutFirst set result }
{
    set - (1 << first_entry(set))
}
