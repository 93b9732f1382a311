//! Theorems by computation over small queries and tables: carriers, widened tables, and bounds of sets.
ghost use Rattle.std.specs.Prelude.{◌≡◌, ◌∷◌, []};
ghost use Rattle.berge_tree.specs.Testing.{edge_of};
ghost use Rattle.planning.specs.Bounds.{set_bounds_of};
ghost use Rattle.planning.specs.ReducedExamples.{region_query, region_tables};
ghost use Rattle.key_carriers.specs.Carriers.{carrying_equalities, carriers_to};
ghost use Rattle.key_carriers.specs.Examples.{keyless_schema, orders_and_customers, undeclared_schema};
ghost use Rattle.key_carriers.specs.Widened.{referred, referring};
ghost use Rattle.key_bounds.specs.Bounds.{set_bounds_by_keys};
ghost use Rattle.key_bounds.specs.Examples.{two_references_query, manager_query, trade_schema, trade_tables, stray_order_tables, worker_schema, worker_tables};

/// An entry carries its own conjuncts to another entry if the schema declares the reference and the key. Within a set, it does so only if the set has
/// both entries.
pub fn who_carries()
    ensures declared { carrying_equalities orders_and_customers region_query ≡ edge_of 0 1 1 0 ∷ [] }
    ensures undeclared { carrying_equalities undeclared_schema region_query ≡ [] }
    ensures no_key { carrying_equalities keyless_schema region_query ≡ [] }
    ensures to_its_own_table { carrying_equalities worker_schema manager_query ≡ edge_of 0 1 1 0 ∷ [] }
    ensures twice { carrying_equalities trade_schema two_references_query ≡ edge_of 0 1 1 0 ∷ edge_of 0 2 2 0 ∷ [] }
    ensures within { carriers_to (edge_of 0 1 1 0 ∷ []) 3 0 ≡ edge_of 0 1 1 0 ∷ [] }
    ensures outside { carriers_to (edge_of 0 1 1 0 ∷ []) 1 0 ≡ [] }
{}

/// The widened table of orders O(N, CID) and customers C(ID, REG). A further order that refers to no customer doesn't change it.
pub fn widened_tables()
    ensures rows { referring region_tables (edge_of 0 1 1 0) ≡ 0 ∷ 1 ∷ 2 ∷ 3 ∷ 4 ∷ [] }
    ensures others { referred region_tables (edge_of 0 1 1 0) ≡ 0 ∷ 1 ∷ 1 ∷ 1 ∷ 1 ∷ [] }
    ensures stray_is_left_out { referring stray_order_tables (edge_of 0 1 1 0) ≡ 0 ∷ 1 ∷ 2 ∷ 3 ∷ 4 ∷ [] }
{}

/// O and C with the condition C.REG = 3. Only one customer passes it, and has one order. The bound of the set of both entries is 4 without carried
/// conjuncts and 1 with them. A further order that refers to no customer doesn't change it. If the schema doesn't declare the reference, the bound
/// stays 4.
pub fn orders_of_a_region()
    ensures plain { set_bounds_of region_query region_tables 1 ≡ 1 ∷ 5 ∷ 1 ∷ 4 ∷ [] }
    ensures keyed { set_bounds_by_keys orders_and_customers region_query region_tables 1 ≡ 1 ∷ 5 ∷ 1 ∷ 1 ∷ [] }
    ensures stray { set_bounds_by_keys orders_and_customers region_query stray_order_tables 1 ≡ 1 ∷ 6 ∷ 1 ∷ 1 ∷ [] }
    ensures undeclared { set_bounds_by_keys undeclared_schema region_query region_tables 1 ≡ 1 ∷ 5 ∷ 1 ∷ 4 ∷ [] }
{}

/// Workers and their bosses, who are workers too. Only one boss is in region 3, and has two workers. The bound of the set of both entries is 3
/// without carried conjuncts and 2 with them.
pub fn workers_of_a_region()
    ensures plain { set_bounds_of manager_query worker_tables 1 ≡ 1 ∷ 5 ∷ 1 ∷ 3 ∷ [] }
    ensures keyed { set_bounds_by_keys worker_schema manager_query worker_tables 1 ≡ 1 ∷ 5 ∷ 1 ∷ 2 ∷ [] }
{}

/// Trades have a buyer and a payer, which are two references to one table. The only customer of region 3 is the buyer of two trades and the payer
/// of two trades; one trade is in both pairs. The bound of the set of all three entries is 3 without carried conjuncts and 1 with them.
pub fn trades_of_a_region()
    ensures plain { set_bounds_of two_references_query trade_tables 1 ≡ 1 ∷ 5 ∷ 1 ∷ 3 ∷ 1 ∷ 3 ∷ 1 ∷ 3 ∷ [] }
    ensures keyed { set_bounds_by_keys trade_schema two_references_query trade_tables 1 ≡ 1 ∷ 5 ∷ 1 ∷ 2 ∷ 1 ∷ 2 ∷ 1 ∷ 1 ∷ [] }
{}
