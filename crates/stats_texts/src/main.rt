//! Reads statistics files from standard input, and writes one line for each: whether it was read, or why it was refused.
//!
//! A line of input is a word, a space and a text in which each `|` stands for a line end. After `schema` comes the schema for the texts that follow.
//! After `head` comes what these texts begin with, and `more N` appends its text N times to this head. After `text` comes the rest of one text, which
//! is then read and answered. The answer is `Read` if the file that was read is written as the same bytes again. It is `Changed` if the file is
//! written as other bytes. If the text is refused, the answer is the cause with the number of the line.
#![tactic(auto)]

mod answering;

use answering::answer;
use std::alloc::AllocError;
use std::io;

// The schema of the texts that follow, and what these texts begin with.
#[derive(Drop)]
struct TextContext {
    schema: String,
    head: String,
}

fn invalid_data() -> io::Error {
    io::Error::from(io::ErrorKind::InvalidData)
}

fn push_text(out: &mut String, text: &str) -> Result<(), AllocError> {
    for letter in text.chars() {
        out.push(if letter == '|' { '\n' } else { letter })?;
    }
    Ok(())
}

// Appends a text a number of times. `counted` is this number, a space and the text.
fn push_times(out: &mut String, counted: &str) -> io::Result<()> {
    let Some((count, text)) = counted.split_once(' ') else {
        return Err(invalid_data());
    };
    let Ok(count) = count.parse::<u32>() else {
        return Err(invalid_data());
    };
    for _ in 0..count {
        push_text(out, text)?;
    }
    Ok(())
}

fn print_answer(rt: &HostRuntime, context: &TextContext, rest: &str) -> io::Result<()> {
    let mut text = String::from_str(rt.alloc(), context.head.as_str())?;
    push_text(&mut text, rest)?;
    let verdict = answer(rt.alloc(), context.schema.as_str(), text.as_bytes());
    println!(rt; "{verdict:?}")
}

fn follow_line(rt: &HostRuntime, context: &mut TextContext, line: &str) -> io::Result<()> {
    let (word, text) = line.split_once(' ').unwrap_or((line, ""));
    match word {
        "schema" => context.schema = String::from_str(rt.alloc(), text)?,
        "head" => {
            context.head = String::new(rt.alloc());
            push_text(&mut context.head, text)?;
        }
        "more" => push_times(&mut context.head, text)?,
        "text" => print_answer(rt, context, text)?,
        _ => return Err(invalid_data()),
    }
    Ok(())
}

fn main(rt: HostRuntime) -> io::Result<()> {
    let mut context = TextContext {
        schema: String::new(rt.alloc()),
        head: String::new(rt.alloc()),
    };
    for line in rt.lines(rt.alloc()) {
        let line = line?;
        follow_line(&rt, &mut context, line.as_str())?;
    }
    Ok(())
}
