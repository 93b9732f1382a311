//! Writes the texts of an executed query with any number of FROM entries: the rows text and the audit text. No call takes memory, so no call can run
//! out of memory.
//!
//! This is the last step of a run. In: the nodes that `bushy_join` made of a join tree; the plan, the query and its database. Out: bytes to a sink,
//! through one buffer on the stack. The row numbers of a choice are in the order of the tree's leaves. They are sorted into FROM order, and then the
//! outputs are printed. An order is a tree too. The audit of an order has a line for each level, and the audit of a tree has one for each inner node.
//!
//! Contracts use `selected_rows`, `level_counts` and `node_counts` (in `specs/Printed.antt`). They also use `rows_lines`, `audit_lines` and
//! `tree_audits` of printed_texts. The requirements of `write_rows` follow from the clauses of `execute_bushy` of bushy_join.
#![tactic(auto)]

mod audit;
mod joined_rows;
mod rows;
mod tree_audit;

pub use audit::write_audit;
pub use rows::write_rows;
pub use tree_audit::write_tree_audit;
