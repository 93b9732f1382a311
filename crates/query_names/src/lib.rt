//! Resolves the names of a query text over a schema, and builds its conditions. It also checks that compared operands are of one kind.
//!
//! This stage comes after `query_grammar`, which gives the tree of a query text. After this stage, `sql_parse` gives the query or the refusal. A
//! `Catalog` finds the tables and columns of a schema by name. `read_entries` gives the FROM entries with their aliases. A `Binder` has a
//! catalog and entries. It resolves references and builds conditions. `read_entries` and the binder refuse the first wrong name, with its offset.
//!
//! In contracts `resolve` (in `specs/Scopes.antt`) gives the column that a reference names. `query_of` (in `specs/Values.antt`) gives the query that
//! a tree means. `name_offences` and `all_kind_offences` (in `specs/Offences.antt`) list the offsets that are refused. A caller writes
//!
//! ```text
//! let catalog = Catalog::new(alloc, schema)?;
//! let entries = read_entries(alloc, &catalog, text, sources)?;
//! let binder = Binder { alloc, catalog: &catalog, text, entries: &entries };
//! let visible = binder.all_visible()?;
//! binder.add_members(&visible, condition, &mut held, &mut conjuncts)?;
//! ```
//!
//! and then knows that the condition has no wrong name. `held` has the offset of the first operand of the wrong kind, if there is one. `conjuncts`
//! has the members of the condition that the text means.
#![tactic(auto)]

mod binder;
mod catalog;
mod checks;
mod comparisons;
mod conditions;
mod errors;
mod operands;
mod scope;
mod sources;
mod values;

pub use binder::Binder;
pub use catalog::Catalog;
pub use checks::LateOffences;
pub use errors::QueryError;
pub use operands::reference_to;
pub use scope::{Entry, EntryColumn, Scope, Visible};
pub use sources::{Entries, all_sources, read_entries};
pub use values::is_negative;
