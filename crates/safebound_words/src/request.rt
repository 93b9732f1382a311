//! The command that a line of words asks for.
ghost use Rattle.std.specs.Prelude.{◌≡◌, ◌≤◌, IfSome, None, Some};
ghost use Rattle.std.specs.Option.{option_map};
ghost use Rattle.safebound_words.specs.Collected.{collected, given_of, option_words, words_of};
ghost use Rattle.safebound_words.specs.Commands.{demo_of, most_budget_of, over_query, shape_by, source_by};
ghost use Rattle.safebound_words.specs.Table.{from_file as plan_from_file, is_file_name, limit_of, append_request as asked_of_append, demo_request as asked_of_number, stats_request, option_row, over_files as asked_over_files, over_tables as plan_over_tables, terms_given, value_of as option_value, work_given};
ghost use Rattle.safebound_words.specs.declared.table.OptionName.TheVariants as option;

use crate::command::{
    Command, ListSource, NewRows, OutText, PlanTerms, PlanWork, QueryTask, SchemaTask, Shape,
};
use crate::line::{Line, Positionals};
use crate::number::number_within;
use crate::table::{CommandName, OptionName};
use crate::word::Word;
use limits::{DEFAULT_ACCURACY, DEFAULT_BUDGET, MOST_BUDGET, MOST_ROWS};

// The value of an option, from the word that was given for it. If no word was given, the value is the default.
fn value_of(option: OptionName, given: Option<&str>) -> Option<u64>
    ensures value { result ≡ option_value option (option_words given.entry) }
    ensures most { IfSome result (λ value. value ≤ (option_row option).most) }
{
    let range = option.range();
    match given {
        None => Some(range.default_value),
        Some(word) => number_within(range.least, range.most, word),
    }
}

// The limit of memory that a line gives, in bytes. The result is `Some(None)` if the option isn't given, and `None` if its value is refused.
fn limit_in(line: &Line) -> Option<Option<u64>>
    ensures { result ≡ option_map limit_of (option_value option.Memory (option_words line.now.memory)) }
{
    let bytes = value_of(OptionName::Memory, line.memory)?;
    if bytes == 0 {
        Some(None)
    } else {
        Some(Some(bytes))
    }
}

// The source of bounds that the flags ask for.
fn source_of(reduce: bool, keys: bool, count: bool) -> ListSource
    ensures { result ≡ source_by reduce keys count }
{
    match (reduce, keys, count) {
        (_, _, true) => ListSource::Counted,
        (true, _, false) => ListSource::Reduced,
        (false, true, false) => ListSource::Keyed,
        (false, false, false) => ListSource::Columns,
    }
}

// The shape of the plan, an order or a tree, that the flag asks for.
fn shape_of(bushy: bool) -> Shape
    ensures { result ≡ shape_by bushy }
{
    if bushy { Shape::Tree } else { Shape::Order }
}

// The greatest budget for this shape. For a join tree it is the most rows that a table may have.
fn most_budget(shape: Shape) -> u64
    ensures { result ≡ most_budget_of shape }
{
    match shape {
        Shape::Order => MOST_BUDGET,
        Shape::Tree => MOST_ROWS as u64,
    }
}

// The command that does this work on the query file, over the schema file.
fn query_command<'a>(schema: &'a str, query: &'a str, work: QueryTask<'a>) -> Command<'a>
    ensures { result ≡ over_query None schema.now query.now work.entry }
{
    Command {
        schema_file: Word::new(schema),
        schema_task: SchemaTask::Query {
            file: Word::new(query),
            work,
        },
        shop: None,
    }
}

// The budget, shape and limit of memory of a line. The result is `None` if a value is refused, or if the budget is too large for the shape.
fn terms_in(line: &Line) -> Option<PlanTerms>
    ensures { result ≡ terms_given (given_of line.now) }
{
    let memory = limit_in(line)?;
    let budget = value_of(OptionName::Budget, line.budget)?;
    let shape = shape_of(line.bushy);
    if budget > most_budget(shape) {
        return None;
    }
    Some(PlanTerms {
        budget,
        shape,
        memory,
    })
}

// A plan over tables. The result is `None` if the accuracy is refused, or if the options and flags exclude each other.
fn over_tables<'a>(out: OutText, terms: PlanTerms, line: &Line<'a>) -> Option<QueryTask<'a>>
    ensures { result ≡ plan_over_tables out terms (given_of line.now) }
{
    let accuracy = value_of(OptionName::Accuracy, line.accuracy)?;
    if line.keys && line.reduce {
        return None;
    }
    if line.count && (line.reduce || line.keys || line.accuracy.is_some()) {
        return None;
    }
    Some(QueryTask::Plan(PlanWork {
        terms,
        accuracy: accuracy as u8,
        source: source_of(line.reduce, line.keys, line.count),
        out,
    }))
}

// Whether an option's value may be a file's name: it isn't empty, and doesn't begin with a dash.
fn is_file_name(word: &str) -> bool
    ensures { result ≡ is_file_name word.now }
{
    match word.as_bytes() {
        [] => false,
        [first, ..] => *first != b'-',
    }
}

// A plan from a statistics file, if neither an accuracy nor another source is given.
fn from_file<'a>(file: &'a str, terms: PlanTerms, line: &Line<'a>) -> Option<QueryTask<'a>>
    ensures { result ≡ plan_from_file file.now terms (given_of line.now) }
{
    if line.accuracy.is_some() || line.reduce || line.keys || line.count {
        return None;
    }
    Some(QueryTask::PlanFromStats {
        file: Word::new(file),
        terms,
    })
}

// A plan from a statistics file if the line names one, otherwise a plan over tables.
fn work_in<'a>(out: OutText, terms: PlanTerms, line: &Line<'a>) -> Option<QueryTask<'a>>
    ensures { result ≡ work_given out terms (given_of line.now) }
{
    let Some(stats) = line.stats else {
        return over_tables(out, terms, line);
    };
    if is_file_name(stats) {
        return from_file(stats, terms, line);
    }
    None
}

// A plan for SCHEMA and QUERY. The result is `None` if the positional words aren't exactly SCHEMA and QUERY, or options or flags are refused.
#[tactic(auto, unfolding(crate::specs::Table::over_files))]
fn over_files<'a>(out: OutText, line: &Line<'a>) -> Option<Command<'a>>
    ensures { result ≡ asked_over_files out (words_of line.now.positionals) (given_of line.now) }
{
    let Positionals::Two(schema, query) = line.positionals else {
        return None;
    };
    let terms = terms_in(line)?;
    let work = work_in(out, terms, line)?;
    Some(query_command(schema, query, work))
}

// The command `stats`. The result is `None` if the positional words aren't SCHEMA and QUERY, or if the accuracy is refused.
fn stats_of<'a>(line: &Line<'a>) -> Option<Command<'a>>
    ensures { result ≡ stats_request (words_of line.now.positionals) (given_of line.now) }
{
    let Positionals::Two(schema, query) = line.positionals else {
        return None;
    };
    let accuracy = value_of(OptionName::Accuracy, line.accuracy)?;
    Some(query_command(
        schema,
        query,
        QueryTask::WriteStats {
            accuracy: accuracy as u8,
        },
    ))
}

// The command `append`. The result is `None` if the positional words aren't SCHEMA, STATS, TABLE and ROWS.
fn append_of<'a>(line: &Line<'a>) -> Option<Command<'a>>
    ensures { result ≡ asked_of_append (words_of line.now.positionals) (given_of line.now) }
{
    let Positionals::Four(schema, stats, table, rows) = line.positionals else {
        return None;
    };
    Some(Command {
        schema_file: Word::new(schema),
        schema_task: SchemaTask::Append(NewRows {
            stats_file: Word::new(stats),
            table: Word::new(table),
            rows_file: Word::new(rows),
        }),
        shop: None,
    })
}

// The command `demo`: an audit of the query over the generated shop with this number.
fn demo<'a>(number: u32) -> Command<'a>
    ensures { result ≡ demo_of number }
{
    let plan = PlanWork {
        terms: PlanTerms {
            budget: DEFAULT_BUDGET,
            shape: Shape::Order,
            memory: None,
        },
        accuracy: DEFAULT_ACCURACY,
        source: ListSource::Columns,
        out: OutText::Audit,
    };
    Command {
        shop: Some(number),
        ..query_command("schema.sql", "query.sql", QueryTask::Plan(plan))
    }
}

// The command `demo`. The result is `None` unless NUMBER is the only positional word, or if the number needs more than 32 bits.
fn demo_of_number<'a>(line: &Line<'a>) -> Option<Command<'a>>
    ensures { result ≡ asked_of_number (words_of line.now.positionals) (given_of line.now) }
{
    let Positionals::One(word) = line.positionals else {
        return None;
    };
    let number = number_within(0, u32::MAX as u64, word)?;
    Some(demo(number as u32))
}

/// The command that a line asks for, if any. `name` is the command's name.
pub(crate) fn command_of<'a>(name: CommandName, line: &Line<'a>) -> Option<Command<'a>>
    ensures { result ≡ collected name line.now }
{
    match name {
        CommandName::Run => over_files(OutText::Rows, line),
        CommandName::Plan => over_files(OutText::Nothing, line),
        CommandName::Stats => stats_of(line),
        CommandName::Audit => over_files(OutText::Audit, line),
        CommandName::Append => append_of(line),
        CommandName::Demo => demo_of_number(line),
    }
}
