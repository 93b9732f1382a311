//! Writes the rows text of a query of any number of FROM entries.
ghost use Rattle.std.specs.Prelude.{◌≡◌, ◌+◌, ◌*◌, ◌<◌, [], All, length, slice_index_or};
ghost use Rattle.std.specs.List.{flat_map};
ghost use Rattle.base_io.specs.Devices.{growth};
ghost use Rattle.base_io.specs.Writes.{WroteBuffered, Wrote};
ghost use Rattle.sql_meaning.specs.Choices.{IsChoiceOf};
ghost use Rattle.sql_meaning.specs.Databases.{IsDatabaseOf};
ghost use Rattle.sql_meaning.specs.Tables.{row_counts, tables_of};
ghost use Rattle.join_steps.specs.Lists.{IsOrderOf};
ghost use Rattle.printed_texts.specs.Texts.{rows_lines};
ghost use Rattle.joined_texts.specs.JoinedRows.{choice_record, joined_choices, root_of, AreJoinedRows};
ghost use Rattle.joined_texts.specs.Printed.{selected_rows};

use crate::joined_rows::{JoinedRows, count, read};
use base_io::{Buffer, Failed, Sink};
use csv_tables::Database;
use limits::MOST_ENTRIES;
use printed_texts::{RowsRecord, put_line};
use query_types::Query;
use tree_rows::BushyResult;

// Writes the record of a joined row.
fn put_row<N: Sink>(
    query: &Query,
    db: &Database,
    listed: &JoinedRows,
    i: u32,
    buffer: &mut Buffer,
    sink: &mut N,
) -> Result<(), Failed>
    requires listed { AreJoinedRows query.now db.now listed.now }
    requires row { i < length (joined_choices listed.now).rows }
    ensures { let it = joined_choices listed.now in WroteBuffered (growth N.taken N.faults sink.old sink.new) buffer.old buffer.new
        (choice_record query.now db.now it.entries (slice_index_or it.rows i [])) result }
{
    let size = query.from.len();
    let mut rows = [0; MOST_ENTRIES];
    read(listed, i, &mut rows[..size]);
    let outs = query.select.as_slice();
    put_line(outs, RowsRecord::Rows(&rows[..size]), db, buffer, sink)
}

// Writes a record for each joined row.
fn put_rows<N: Sink>(
    query: &Query,
    db: &Database,
    listed: &JoinedRows,
    buffer: &mut Buffer,
    sink: &mut N,
) -> Result<(), Failed>
    requires { AreJoinedRows query.now db.now listed.now }
    ensures { let it = joined_choices listed.now in WroteBuffered (growth N.taken N.faults sink.old sink.new) buffer.old buffer.new
        (flat_map (choice_record query.now db.now it.entries) it.rows) result }
{
    'rows: for i in 0..count(listed) {
        put_row(query, db, listed, i, buffer, sink)?;
    }
    Ok(())
}

// Writes the rows text: a header with the outputs' names, and then a record for each joined row, in the order of these rows.
fn write_listed<N: Sink>(
    query: &Query,
    db: &Database,
    listed: &JoinedRows,
    sink: &mut N,
) -> Result<(), Failed>
    requires { AreJoinedRows query.now db.now listed.now }
    ensures { let it = joined_choices listed.now in Wrote (growth N.taken N.faults sink.old sink.new)
        (rows_lines query.now.select (selected_rows query.now db.now it.entries it.rows)) result }
{
    let mut buffer = Buffer::new();
    put_line(
        query.select.as_slice(),
        RowsRecord::Header,
        db,
        &mut buffer,
        sink,
    )?;
    put_rows(query, db, listed, &mut buffer, sink)?;
    buffer.flush(sink)
}

/// Writes the rows text (RFC 4180) of a query whose entries were joined by a tree. It has a header with the outputs' names, and then a record for
/// each row of the tree's root, in the order of these rows. If the sink fails, this returns `Failed`, and the sink has a prefix of the text.
pub fn write_rows<N: Sink>(
    done: &BushyResult,
    query: &Query,
    db: &Database,
    sink: &mut N,
) -> Result<(), Failed>
    requires database { IsDatabaseOf query.now db.now }
    requires nodes { length done.now.nodes + 1 ≡ 2 * length query.now.from }
    requires entries { IsOrderOf query.now (root_of query.now done.now.nodes).entries }
    requires choices { let root = root_of query.now done.now.nodes in All (IsChoiceOf (row_counts (tables_of db.now)) root.entries) root.rows }
    ensures { let root = root_of query.now done.now.nodes in Wrote (growth N.taken N.faults sink.old sink.new)
        (rows_lines query.now.select (selected_rows query.now db.now root.entries root.rows)) result }
{
    let node = 2 * query.from.len() as u8 - 2;
    write_listed(query, db, &JoinedRows { done, node }, sink)
}
