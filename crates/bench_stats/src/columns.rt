//! The columns from which the benchmark makes statistics. bench/stats.rs makes the same columns.
use base_io::NoMemory;
use csv_tables::Pool;
use std::alloc::Global;

/// The values of a filter column: ten numbers, numbers that are all different, or a thousand texts.
#[derive(Clone, Copy)]
pub enum FilterKind {
    Ten,
    Different,
    Texts,
}

impl FilterKind {
    pub fn name(self) -> &'static str {
        match self {
            FilterKind::Ten => "ten",
            FilterKind::Different => "different",
            FilterKind::Texts => "texts",
        }
    }

    // Makes a cell from random bits.
    fn cell(self, bits: u64) -> u64 {
        match self {
            FilterKind::Ten => bits % 10,
            FilterKind::Different => bits,
            FilterKind::Texts => bits % 1000,
        }
    }
}

// Random bits.
#[derive(Clone, Copy)]
struct Random {
    state: u64,
}

impl Random {
    fn next(&mut self) -> u64 {
        self.state ^= self.state << 13u32;
        self.state ^= self.state >> 7u32;
        self.state ^= self.state << 17u32;
        self.state
    }
}

// A key of a random length of 0 to 21 bits. Small keys are frequent and large ones are rare, so keys repeat about as unevenly as words of a text.
fn skewed_key(bits: u64) -> u64 {
    (bits & 0xffff_ffff) >> (32 - (bits >> 58u32) % 22)
}

/// A filter column and a joined column.
#[derive(Drop)]
pub struct Pair {
    pub filter: Vec<u64>,
    pub joined: Vec<u64>,
}

/// `rows` rows with a filter column of this kind, the same in every run.
pub fn pair_of(alloc: Global, kind: FilterKind, rows: u32) -> Result<Pair, NoMemory> {
    let mut random = Random {
        state: 88172645463325252,
    };
    let mut filter = Vec::new(alloc);
    let mut joined = Vec::new(alloc);
    for _ in 0..rows {
        filter.push(kind.cell(random.next()))?;
        joined.push(skewed_key(random.next()))?;
    }
    Ok(Pair { filter, joined })
}

/// A thousand texts.
pub fn texts(alloc: Global) -> Result<Pool, NoMemory> {
    let mut pool = Pool::new(alloc);
    for i in 0..1000u64 {
        let text = format!(in alloc; "text {}", i * 7919 % 1000)?;
        if pool.len() < 4294967295 {
            let _code = pool.intern(text.as_str())?;
        }
    }
    Ok(pool)
}
