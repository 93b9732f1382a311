//! Table files, the same in every run. bench/tables.rs makes the same files.
use limits::MOST_ROWS;
use std::alloc::{AllocError, Global};

/// What a file has: eight columns of numbers, or four columns of texts. Every second text stands earlier in the file too.
#[derive(Clone, Copy)]
pub enum FileKind {
    Numbers,
    Texts,
}

impl FileKind {
    pub fn name(self) -> &'static str {
        match self {
            FileKind::Numbers => "numbers",
            FileKind::Texts => "texts",
        }
    }

    fn header(self) -> &'static str {
        match self {
            FileKind::Numbers => "A,B,C,D,E,F,G,H\r\n",
            FileKind::Texts => "A,B,C,D\r\n",
        }
    }
}

// Random bits, and how many different texts the file has so far.
#[derive(Clone, Copy)]
struct State {
    bits: u64,
    texts: u64,
}

impl State {
    fn advance(&mut self) {
        self.bits ^= self.bits << 13u32;
        self.bits ^= self.bits >> 7u32;
        self.bits ^= self.bits << 17u32;
    }
}

// A number of at most 44 bits. About one number in four has a minus sign.
fn push_number(file: &mut String, state: &mut State) -> Result<(), AllocError> {
    state.advance();
    if state.bits % 4 == 0 {
        file.push('-')?;
    }
    let size = state.bits >> (20 + state.bits % 44);
    write!(file, "{size}")
}

// A new text, and then a text that the file has already.
fn push_texts(file: &mut String, state: &mut State) -> Result<(), AllocError> {
    let new = state.texts;
    state.texts = new.wrapping_add(1);
    state.advance();
    let old = state.bits % state.texts.max(1);
    write!(file, "text {new},text {old}")
}

fn push_numbers(file: &mut String, state: &mut State) -> Result<(), AllocError> {
    push_number(file, state)?;
    for _ in 1..8 {
        file.push(',')?;
        push_number(file, state)?;
    }
    Ok(())
}

fn push_record(file: &mut String, kind: FileKind, state: &mut State) -> Result<(), AllocError> {
    match kind {
        FileKind::Numbers => push_numbers(file, state)?,
        FileKind::Texts => {
            push_texts(file, state)?;
            file.push(',')?;
            push_texts(file, state)?;
        }
    }
    file.push_str("\r\n")
}

/// A header and then records, until the file has at least `bytes` bytes or as many records as a table may have rows.
pub fn file_of(alloc: Global, kind: FileKind, bytes: usize) -> Result<String, AllocError> {
    let mut file = String::from_str(alloc, kind.header())?;
    let mut state = State {
        bits: 88172645463325252,
        texts: 0,
    };
    for _ in 0..MOST_ROWS {
        if file.len() >= bytes {
            break;
        }
        push_record(&mut file, kind, &mut state)?;
    }
    Ok(file)
}
