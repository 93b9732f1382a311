//! Bounds the rows of joined tables.
ghost use Rattle.std.specs.Prelude.{◌≡◌, length};
ghost use Rattle.safebound_bounds.specs.Meaning.{in_64_bits};
ghost use Rattle.joined_tables.specs.Bounds.{IsWithin, most_joined};
ghost use Rattle.joined_tables.specs.Tables.{Condition, Table, inner_join, joined};

/// How two tables are joined, other than by an inner join.
#[derive(Clone, Copy, Debug, PartialEq, Eq)]
pub enum Join {
    /// The inner join, and the rows of the left table that are in no pair of it.
    Left,
    /// The inner join, and the rows of the right table that are in no pair of it.
    Right,
    /// The inner join, and the rows of both tables that are in no pair of it.
    Full,
    /// The rows of the left table that are in a pair of the inner join.
    Semi,
    /// The rows of the left table that are in no pair of the inner join.
    Anti,
}

/// How many rows a joined table has at most, by bounds of the inner join and of both tables.
pub fn joined_rows(join: Join, inner: u64, left: u64, right: u64) -> u64
    ensures exact { result ≡ in_64_bits (most_joined join inner left right) }
    ensures never_under { (is_true : Condition) (left_table right_table : Table)
        → IsWithin (length (inner_join is_true left_table right_table)) inner
        → IsWithin (length left_table.rows) left → IsWithin (length right_table.rows) right
        → IsWithin (length (joined join is_true left_table right_table)) result }
{
    match join {
        Join::Left => inner.saturating_add(left),
        Join::Right => inner.saturating_add(right),
        Join::Full => inner.saturating_add(left).saturating_add(right),
        Join::Semi => inner.min(left),
        Join::Anti => left,
    }
}
