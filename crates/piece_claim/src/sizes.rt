//! The fixed numbers of a board.

/// The fixed numbers of a board: how many groups of pieces it has, pieces per group and sums per
/// group, the greatest amount that is posted at once, and the number of its shares.
#[derive(Clone, Copy, Debug, PartialEq, Eq)]
pub struct Sizes {
    pub groups: u64,
    pub per_group: u64,
    pub width: u64,
    pub bound: u64,
    pub shares: u64,
}
