//! A schema of many columns, and a file of statistics over it.
use std::alloc::{AllocError, Global};

const DIGITS: [&str; 10] = ["0", "1", "2", "3", "4", "5", "6", "7", "8", "9"];

// How many tables the schema has, and how many columns each table has.
const TABLES_AND_COLUMNS: usize = 64;

// The lines of a pair have fewer bytes than this.
const MOST_PAIR_BYTES: usize = 4096;

fn push_number(text: &mut String, number: usize) -> Result<(), AllocError> {
    text.push_str(DIGITS[number / 10 % 10])?;
    text.push_str(DIGITS[number % 10])
}

fn push_columns(text: &mut String) -> Result<(), AllocError> {
    for i in 0..TABLES_AND_COLUMNS {
        text.push_str(if i > 0 { ", C" } else { "C" })?;
        push_number(text, i)?;
        text.push_str(" INT NOT NULL")?;
    }
    Ok(())
}

fn push_declaration(text: &mut String, table: usize) -> Result<(), AllocError> {
    text.push_str("CREATE TABLE T")?;
    push_number(text, table)?;
    text.push_str(" (")?;
    push_columns(text)?;
    text.push_str(");\n")
}

/// Tables T00 and so on, each with the columns C00 and so on.
pub fn schema_text(alloc: Global) -> Result<String, AllocError> {
    let mut text = String::new(alloc);
    for table in 0..TABLES_AND_COLUMNS {
        push_declaration(&mut text, table)?;
    }
    Ok(text)
}

// Adds a name as the file has it: `x`, then the hexadecimal codes of a letter and of a number's two digits. `letter` is the letter's code.
fn push_name(text: &mut String, letter: &str, number: usize) -> Result<(), AllocError> {
    text.push_str("x")?;
    text.push_str(letter)?;
    text.push_str("3")?;
    text.push_str(DIGITS[number / 10 % 10])?;
    text.push_str("3")?;
    text.push_str(DIGITS[number % 10])
}

// `count` lines. Each line is `front`, then its number in two digits (counted from 00), then `behind`.
fn push_lines(
    text: &mut String,
    count: usize,
    front: &str,
    behind: &str,
) -> Result<(), AllocError> {
    for i in 0..count {
        text.push_str(front)?;
        push_number(text, i)?;
        text.push_str(behind)?;
    }
    Ok(())
}

fn push_columns_of_pair(text: &mut String, filter: usize, joined: usize) -> Result<(), AllocError> {
    text.push_str("pair ")?;
    push_name(text, "43", filter)?;
    text.push_str(" ")?;
    push_name(text, "43", joined)
}

fn push_lists(text: &mut String) -> Result<(), AllocError> {
    text.push_str("\nwhole 9*3 7*5 5*8 3*20 1*200\n")?;
    push_lines(text, 32, "frequent 1", " 5*2 3*4 1*9\n")?;
    text.push_str("rest 4*3 1*20\n")?;
    push_lines(text, 32, "cut 1", "\n")?;
    for _ in 0..63 {
        text.push_str("node 7*2 5*4 1*30\n")?;
    }
    Ok(())
}

fn push_pair(text: &mut String, filter: usize, joined: usize) -> Result<(), AllocError> {
    push_columns_of_pair(text, filter, joined)?;
    push_lists(text)
}

// The pair of a filter column with each column, until the text could exceed `bytes` bytes.
fn push_pairs(text: &mut String, filter: usize, bytes: usize) -> Result<(), AllocError> {
    for joined in 0..TABLES_AND_COLUMNS {
        if bytes.saturating_sub(text.len()) > MOST_PAIR_BYTES {
            push_pair(text, filter, joined)?;
        }
    }
    Ok(())
}

fn push_table(text: &mut String, table: usize, bytes: usize) -> Result<(), AllocError> {
    text.push_str("table ")?;
    push_name(text, "54", table)?;
    text.push_str(" 362\n")?;
    for filter in 0..TABLES_AND_COLUMNS {
        push_pairs(text, filter, bytes)?;
    }
    Ok(())
}

/// A file of at most `bytes` bytes, if these are enough for one pair.
pub fn file_text(alloc: Global, bytes: usize) -> Result<String, AllocError> {
    let mut text = String::from_str(alloc, "safebound-stats 1 1\n")?;
    for table in 0..TABLES_AND_COLUMNS {
        if bytes.saturating_sub(text.len()) > MOST_PAIR_BYTES {
            push_table(&mut text, table, bytes)?;
        }
    }
    text.push_str("end\n")?;
    Ok(text)
}
