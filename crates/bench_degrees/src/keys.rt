//! Keys that are all different, all equal, or repeated about as unevenly as the words of a text. bench/degree_lists.rs makes the same keys.
use std::alloc::{AllocError, Global};

/// How often keys repeat: never, always, or unevenly.
#[derive(Clone, Copy)]
pub enum Kind {
    Different,
    Equal,
    Skewed,
}

impl Kind {
    pub fn name(self) -> &'static str {
        match self {
            Kind::Different => "different",
            Kind::Equal => "equal",
            Kind::Skewed => "unequal",
        }
    }

    // Makes a key from random bits.
    fn key(self, bits: u64) -> u64 {
        match self {
            Kind::Different => bits,
            Kind::Equal => 7,
            // a random length of 0 to 21 bits: small keys are frequent, and large ones are rare
            Kind::Skewed => (bits & 0xffff_ffff) >> (32 - (bits >> 58u32) % 22),
        }
    }
}

/// `count` keys of a kind, the same in every run.
pub fn keys_of(alloc: Global, kind: Kind, count: u32) -> Result<Vec<u64>, AllocError> {
    let mut keys = Vec::new(alloc);
    let mut bits: u64 = 88172645463325252;
    for _ in 0..count {
        bits ^= bits << 13u32;
        bits ^= bits >> 7u32;
        bits ^= bits << 17u32;
        keys.push(kind.key(bits))?;
    }
    Ok(keys)
}
