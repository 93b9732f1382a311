//! Appends the text of a file to a sink, without allocating memory.
ghost use Rattle.std.specs.Prelude.{◌<◌, ◌++◌, List, ℕ, All, codes};
ghost use Rattle.std.specs.List.{concat, flat_map};
ghost use Rattle.stats_file.specs.FileText.{file_text, name_at, pair_lines, section_lines};
ghost use Rattle.stats_file.specs.Lines.{cut_line, first_line, frequent_line, list_line, pair_line, table_line};
ghost use Rattle.stats_file.specs.Parts.{HasColumns};
ghost use Rattle.stats_file.specs.Rules.{IsSection, KeepsRules};
ghost use Rattle.stats_file.specs.Runs.{runs_of};
ghost use Rattle.base_io.specs.Devices.{growth};
ghost use Rattle.base_io.specs.Writes.{WroteBuffered, Wrote};

use crate::parts::{Part, put_line};
use crate::{Datum, PairStats, StatsFile, TableStats};
use base_io::{Buffer, Failed, Sink};
use piece_math::Pieces;
use schema_types::{Schema, Table};

const FIRST: &[u8] = b"safebound-stats 1 ";

const TABLE: &[u8] = b"table ";

const PAIR: &[u8] = b"pair ";

const WHOLE: &[u8] = b"whole";

const FREQUENT: &[u8] = b"frequent ";

const REST: &[u8] = b"rest";

const CUT: &[u8] = b"cut ";

const NODE: &[u8] = b"node";

const END: &[u8] = b"end\n";

const SPACE: &[u8] = b" ";

const LINE_END: &[u8] = b"\n";

fn put_first_line<N: Sink>(accuracy: u8, buffer: &mut Buffer, sink: &mut N) -> Result<(), Failed>
    ensures { WroteBuffered (growth N.taken N.faults sink.old sink.new) buffer.old buffer.new (first_line accuracy) result }
{
    let accuracy = Part::Number(u32::from(accuracy));
    put_line(
        &[Part::Plain(FIRST), accuracy, Part::Plain(LINE_END)],
        buffer,
        sink,
    )
}

fn put_table_line<N: Sink>(
    name: &str,
    rows: u32,
    buffer: &mut Buffer,
    sink: &mut N,
) -> Result<(), Failed>
    ensures { WroteBuffered (growth N.taken N.faults sink.old sink.new) buffer.old buffer.new (table_line name.now rows) result }
{
    let line = [
        Part::Plain(TABLE),
        Part::Hex(name),
        Part::Plain(SPACE),
        Part::Number(rows),
        Part::Plain(LINE_END),
    ];
    put_line(&line, buffer, sink)
}

fn put_pair_line<'a, N: Sink>(
    filter: &'a str,
    joined: &'a str,
    buffer: &mut Buffer,
    sink: &mut N,
) -> Result<(), Failed>
    ensures { WroteBuffered (growth N.taken N.faults sink.old sink.new) buffer.old buffer.new (pair_line filter.now joined.now) result }
{
    let line = [
        Part::Plain(PAIR),
        Part::Hex(filter),
        Part::Plain(SPACE),
        Part::Hex(joined),
        Part::Plain(LINE_END),
    ];
    put_line(&line, buffer, sink)
}

#[tactic(auto, using(crate::proofs::RunFacts::runs_found))]
fn put_list_line<'a, N: Sink>(
    word: &'a [u8],
    list: &'a Pieces,
    buffer: &mut Buffer,
    sink: &mut N,
) -> Result<(), Failed>
    ensures { WroteBuffered (growth N.taken N.faults sink.old sink.new) buffer.old buffer.new (list_line word.now (runs_of list.now)) result }
{
    let line = [
        Part::Plain(word),
        Part::Plain(SPACE),
        Part::Runs(list.pieces()),
        Part::Plain(LINE_END),
    ];
    put_line(&line, buffer, sink)
}

#[tactic(auto, using(crate::proofs::RunFacts::runs_found))]
fn put_frequent_line<'a, N: Sink>(
    value: &'a Datum,
    list: &'a Pieces,
    buffer: &mut Buffer,
    sink: &mut N,
) -> Result<(), Failed>
    ensures { WroteBuffered (growth N.taken N.faults sink.old sink.new) buffer.old buffer.new (frequent_line value.now (runs_of list.now)) result }
{
    let line = [
        Part::Plain(FREQUENT),
        Part::Value(value),
        Part::Plain(SPACE),
        Part::Runs(list.pieces()),
        Part::Plain(LINE_END),
    ];
    put_line(&line, buffer, sink)
}

fn put_cut_line<N: Sink>(value: &Datum, buffer: &mut Buffer, sink: &mut N) -> Result<(), Failed>
    ensures { WroteBuffered (growth N.taken N.faults sink.old sink.new) buffer.old buffer.new (cut_line value.now) result }
{
    let line = [Part::Plain(CUT), Part::Value(value), Part::Plain(LINE_END)];
    put_line(&line, buffer, sink)
}

fn put_frequent<N: Sink>(
    frequent: &[(Datum, Pieces)],
    buffer: &mut Buffer,
    sink: &mut N,
) -> Result<(), Failed>
    ensures { WroteBuffered (growth N.taken N.faults sink.old sink.new) buffer.old buffer.new
        (flat_map (λ (f : Datum × List ℕ). frequent_line f.0 (runs_of f.1)) frequent.now) result }
{
    'frequent: for value in frequent {
        put_frequent_line(&value.0, &value.1, buffer, sink)?;
    }
    Ok(())
}

fn put_cuts<N: Sink>(cuts: &[Datum], buffer: &mut Buffer, sink: &mut N) -> Result<(), Failed>
    ensures { WroteBuffered (growth N.taken N.faults sink.old sink.new) buffer.old buffer.new (flat_map cut_line cuts.now) result }
{
    'cuts: for cut in cuts {
        put_cut_line(cut, buffer, sink)?;
    }
    Ok(())
}

fn put_nodes<N: Sink>(nodes: &[Pieces], buffer: &mut Buffer, sink: &mut N) -> Result<(), Failed>
    ensures { WroteBuffered (growth N.taken N.faults sink.old sink.new) buffer.old buffer.new
        (flat_map (λ node. list_line (codes "node") (runs_of node)) nodes.now) result }
{
    'nodes: for node in nodes {
        put_list_line(NODE, node, buffer, sink)?;
    }
    Ok(())
}

// Writes the line that names a pair's columns.
fn put_names<N: Sink>(
    pair: &PairStats,
    table: &Table,
    buffer: &mut Buffer,
    sink: &mut N,
) -> Result<(), Failed>
    requires { HasColumns table.now pair.now }
    ensures { WroteBuffered (growth N.taken N.faults sink.old sink.new) buffer.old buffer.new
        (pair_line (name_at table.now pair.now.filter) (name_at table.now pair.now.joined)) result }
{
    let filter = table.columns.get(pair.filter as usize);
    let joined = table.columns.get(pair.joined as usize);
    put_pair_line(filter.name.as_str(), joined.name.as_str(), buffer, sink)
}

// Writes the lines of a histogram: its cuts and nodes.
fn put_histogram<N: Sink>(pair: &PairStats, buffer: &mut Buffer, sink: &mut N) -> Result<(), Failed>
    ensures { WroteBuffered (growth N.taken N.faults sink.old sink.new) buffer.old buffer.new
        (flat_map cut_line pair.now.cuts ++ flat_map (λ node. list_line (codes "node") (runs_of node)) pair.now.nodes) result }
{
    put_cuts(pair.cuts.as_slice(), buffer, sink)?;
    put_nodes(pair.nodes.as_slice(), buffer, sink)
}

fn put_pair<N: Sink>(
    pair: &PairStats,
    table: &Table,
    buffer: &mut Buffer,
    sink: &mut N,
) -> Result<(), Failed>
    requires { HasColumns table.now pair.now }
    ensures { WroteBuffered (growth N.taken N.faults sink.old sink.new) buffer.old buffer.new
        (concat (pair_lines table.now pair.now)) result }
{
    put_names(pair, table, buffer, sink)?;
    put_list_line(WHOLE, &pair.whole, buffer, sink)?;
    put_frequent(pair.frequent.as_slice(), buffer, sink)?;
    put_list_line(REST, &pair.rest, buffer, sink)?;
    put_histogram(pair, buffer, sink)
}

fn put_pairs<N: Sink>(
    pairs: &[PairStats],
    table: &Table,
    buffer: &mut Buffer,
    sink: &mut N,
) -> Result<(), Failed>
    requires { All (HasColumns table.now) pairs.now }
    ensures { WroteBuffered (growth N.taken N.faults sink.old sink.new) buffer.old buffer.new
        (flat_map (λ pair. concat (pair_lines table.now pair)) pairs.now) result }
{
    'pairs: for pair in pairs {
        put_pair(pair, table, buffer, sink)?;
    }
    Ok(())
}

fn put_section<N: Sink>(
    section: &TableStats,
    schema: &Schema,
    buffer: &mut Buffer,
    sink: &mut N,
) -> Result<(), Failed>
    requires { IsSection schema.now section.now }
    ensures { WroteBuffered (growth N.taken N.faults sink.old sink.new) buffer.old buffer.new
        (concat (section_lines schema.now section.now)) result }
{
    let table = schema.tables.get(section.table as usize);
    put_table_line(table.name.as_str(), section.rows, buffer, sink)?;
    put_pairs(section.pairs.as_slice(), table, buffer, sink)
}

fn put_sections<N: Sink>(
    sections: &[TableStats],
    schema: &Schema,
    buffer: &mut Buffer,
    sink: &mut N,
) -> Result<(), Failed>
    requires { All (IsSection schema.now) sections.now }
    ensures { WroteBuffered (growth N.taken N.faults sink.old sink.new) buffer.old buffer.new
        (flat_map (λ section. concat (section_lines schema.now section)) sections.now) result }
{
    'sections: for section in sections {
        put_section(section, schema, buffer, sink)?;
    }
    Ok(())
}

/// Appends the text of a file that keeps the rules for this schema. The call takes no memory. On `Failed` the sink took only a prefix of the text,
/// and counted a fault.
pub fn write_stats<N: Sink>(file: &StatsFile, schema: &Schema, sink: &mut N) -> Result<(), Failed>
    requires { KeepsRules schema.now file.now }
    ensures { Wrote (growth N.taken N.faults sink.old sink.new) (file_text schema.now file.now) result }
{
    let mut buffer = Buffer::new();
    put_first_line(file.accuracy, &mut buffer, sink)?;
    put_sections(file.tables.as_slice(), schema, &mut buffer, sink)?;
    buffer.put(sink, END)?;
    buffer.flush(sink)
}
