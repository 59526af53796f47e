//! Rows written as the bytes of a table, and read from them.
#![tactic(auto)]

mod block;
mod comparing;
mod cut;
mod field;
mod fits;
mod laws;
mod number;
mod place;
mod put;
mod read;
mod row;
mod shared_bytes;
mod write;

pub use block::block_at;
pub use comparing::compared_at;
pub use cut::split_block;
pub use laws::{
    blocks_stand_in_bytes, bytes_are_decoded, bytes_tell_rows, rows_are_cut_into_blocks,
    rows_have_encoded_sizes,
};
pub use place::BlockPlace;
pub use read::rows_from_bytes;
pub use row::{packed_row_at, row_at};
pub use write::{bytes_from_rows, written_rows};
