//! The texts that a run prints: the plan text, the records of the rows text, and the line of a fault. No function here allocates memory, so
//! no call can run out of memory.
//!
//! In: a plan, the entries of a query, a database and the rows of a choice; or a status, and the names that its line may use. Out: bytes to a sink.
//!
//! Contracts use `plan_lines` and `audit_lines` (in `specs/Plans.antt`), `tree_lines` and `tree_audits` (in `specs/TreePlans.antt`), and `rows_lines`
//! and `choice_text` (in `specs/Texts.antt` and `specs/Lines.antt`). They also use `memory_text` (in `specs/Memory.antt`) and `fault_line` (in
//! `specs/Faults.antt`). Each call that writes a whole text, such as `write_line(status, names, notes)`, has the clause `Wrote`: the sink takes the
//! whole text, or a prefix of the text if the sink fails. joined_texts makes the rows and audit texts from `put_line`, `alias_at`, `put_level_bound`
//! and `put_node_bound`.
#![tactic(auto)]

mod fault_lines;
mod lines;
mod memory;
mod plan;
mod rows;
mod tree;

pub use fault_lines::{LineNames, write_line};
pub use memory::write_memory;
pub use plan::{alias_at, put_level_bound, write_plan};
pub use rows::{RowsRecord, put_line};
pub use tree::{put_node_bound, write_tree};
