/// A use of `item`: while the item stays, this use gives one slot and needs another one.
#[derive(Clone, Copy, Debug, PartialEq, Eq)]
pub struct Use {
    pub item: u32,
    pub gives: u32,
    pub needs: u32,
}
