//! Laws on the bytes of rows and tables. Each function has an empty body, and its clause states a
//! law. The statements are in specs/Laws.antt.

ghost use Rattle.fleet_block.specs.Laws.{BlocksStandInBytes, BytesAreDecoded, BytesTellRows, RowsAreCutIntoBlocks, RowsHaveEncodedSizes};

/// A row of a block is written in as many bytes as `encoded_size` says. The bytes of its key that
/// it shares with the block's first key are not counted.
pub fn rows_have_encoded_sizes()
    ensures { RowsHaveEncodedSizes }
{}

/// The rows of a table stand in its bytes, and `decoded_rows` reads them back. Of bytes that are no
/// table's nothing is stated.
pub fn bytes_are_decoded()
    ensures { BytesAreDecoded }
{}

/// The bytes of a table tell its rows: two lists of rows with the same bytes are equal.
pub fn bytes_tell_rows()
    ensures { BytesTellRows }
{}

/// The blocks that rows are cut into have all rows, in order. No block is empty, and the first keys
/// and offsets of the blocks are those of a table's index.
pub fn rows_are_cut_into_blocks()
    ensures { RowsAreCutIntoBlocks }
{}

/// The rows of a block stand after the number of blocks, the headers, and the rows of the blocks
/// before it.
pub fn blocks_stand_in_bytes()
    ensures { BlocksStandInBytes }
{}
