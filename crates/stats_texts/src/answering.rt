//! The answer to one text.
ghost use Rattle.stats_file.specs.Rules.{KeepsRules};

use base_io::{MemSink, Seq};
use limits::{MOST_FILE, MOST_TEXT};
use schema_types::{Schema, read_schema};
use stats_file::{StatsError, StatsFile, write_stats};
use stats_reading::read_stats;
use std::alloc::Global;

/// The answer to a text over a schema. `Read`: the text was read, and written again as the same bytes. `Changed`: it was written again as other
/// bytes. `Syntax` and `Rule`: it was refused at a line.
#[derive(Clone, Copy, Debug)]
pub enum TextAnswer {
    Read,
    Changed,
    Syntax(u32),
    Rule(u32),
    Other,
}

// Whether `file`, written as a text, gives `bytes`.
fn is_written(alloc: Global, file: &StatsFile, schema: &Schema, bytes: &[u8]) -> bool
    requires { KeepsRules schema.now file.now }
{
    let Ok(mut sink) = MemSink::new(alloc, 100_000, Seq::new(alloc)) else {
        return false;
    };
    write_stats(file, schema, &mut sink).is_ok() && sink.written() == bytes
}

/// The answer to a text over a schema. It is `Other` if a text is too long, the schema can't be read, or memory runs out.
pub fn answer(alloc: Global, schema: &str, bytes: &[u8]) -> TextAnswer {
    if bytes.len() > MOST_FILE as usize || schema.len() > MOST_TEXT as usize {
        return TextAnswer::Other;
    }
    let Ok(schema) = read_schema(alloc, schema.as_bytes()) else {
        return TextAnswer::Other;
    };
    match read_stats(alloc, &schema, bytes) {
        Ok(file) => {
            if is_written(alloc, &file, &schema, bytes) {
                TextAnswer::Read
            } else {
                TextAnswer::Changed
            }
        }
        Err(StatsError::Syntax { line }) => TextAnswer::Syntax(line),
        Err(StatsError::Rule { line }) => TextAnswer::Rule(line),
        Err(StatsError::NoMemory) => TextAnswer::Other,
    }
}
