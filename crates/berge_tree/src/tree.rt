//! Join trees on the heap. Each part of a tree is in a box of its own.

/// A list of the classes below an entry. Each item has the entry's column in the class, the entries below the class, and the remaining items.
#[cycle(trees)]
#[derive(Drop)]
pub enum Classes {
    End,
    And(u32, Box<Members>, Box<Classes>),
}

/// A list of the entries below a class, at least one. Each item has the entry, its column in the class, the classes below the entry, and the
/// remaining items.
#[cycle(trees)]
#[derive(Drop)]
pub enum Members {
    One(u8, u32, Classes),
    And(u8, u32, Classes, Box<Members>),
}

/// An entry, by its FROM position, and the classes below it.
#[derive(Drop)]
pub struct Tree {
    pub root: u8,
    pub below: Classes,
}
