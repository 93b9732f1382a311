//! The joined rows of all entries of a query.
ghost use Rattle.std.specs.Prelude.{◌≡◌, ◌<◌, [], length, slice_index_or};
ghost use Rattle.std.specs.List.{AllByRecursion};
ghost use Rattle.tree_rows.specs.Nodes.{with_choice};
ghost use Rattle.joined_texts.specs.JoinedRows.{joined_choices};

use tree_rows::BushyResult;

/// The rows of a node of a join tree.
#[derive(Clone, Copy)]
pub(crate) struct JoinedRows<'a> {
    pub done: &'a BushyResult,
    pub node: u8,
}

/// How many joined rows there are.
pub(crate) fn count(listed: &JoinedRows) -> u32
    requires { listed.now.node < length listed.now.done.now.nodes }
    ensures { result ≡ length (joined_choices listed.now).rows }
{
    listed.done.len(listed.node)
}

/// Writes the row numbers of joined row `i` into `rows`, each at the index of its entry.
pub(crate) fn read(listed: &JoinedRows, i: u32, rows: &mut [u32])
    requires there { listed.now.node < length listed.now.done.now.nodes }
    requires row { i < length (joined_choices listed.now).rows }
    requires places { AllByRecursion (λ entry. entry < length rows.old) (joined_choices listed.now).entries }
    ensures { let it = joined_choices listed.now in rows.new ≡ with_choice it.entries (slice_index_or it.rows i []) rows.old }
{
    listed.done.rows_of(listed.node, i, rows);
}
