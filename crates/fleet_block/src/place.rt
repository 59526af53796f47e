//! Where the blocks of a table stand.

/// Where a block of a table begins.
#[derive(Clone, Copy, Debug, PartialEq, Eq)]
pub struct BlockPlace {
    /// The number of rows in the blocks before it.
    pub row: usize,
    /// The number of bytes in which the rows of the blocks before it are written.
    pub place: usize,
}
