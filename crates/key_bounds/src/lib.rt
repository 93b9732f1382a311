//! Computes bounds of all sets of a query's entries, and plans, with conjuncts carried along references to keys.
//!
//! In: a query, its schema and its tables. Suppose that the schema declares a reference to a key, and that an equality of the query joins the two
//! columns. Take a set with both entries. There a row of the referring entry counts only if it refers to a row that passes the other entry's own
//! conjuncts. Out: row bounds and lists of each entry in each set (`KeyLists`, which is a `EntryListsBySet`), and the bounds of all sets
//! (`from_keys`). The bound of a scan comes only from statistics of its own table.
//!
//! In contracts `bounds_by_keys` gives the bounds of entries in a set, and `planned_by_keys` the plan. `DeclaredKeysHold` of key_carriers says that
//! the tables have no declared key twice. The laws say that no bound is too low, and that no bound is above the bound without carried conjuncts.
#![tactic(auto)]

mod carrying;
mod examples;
mod in_sets;
mod key_lists;
mod laws;
mod sources;

pub use examples::{
    orders_of_a_region, trades_of_a_region, who_carries, widened_tables, workers_of_a_region,
};
pub use key_lists::KeyLists;
pub use laws::{keys_are_never_under, keys_look_at_parts, keys_only_lower};
pub use sources::{from_carried, from_keys};
