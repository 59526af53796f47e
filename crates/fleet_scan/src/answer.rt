//! What a scan answers of a key.

use bytes::Bytes;
use fleet_rows::Text;

/// A key of a scan, with its answer.
#[derive(Debug, Drop, PartialEq, Eq)]
pub enum KeyAnswer {
    /// The key and its value.
    Found(Bytes, Bytes),
    /// The key, and the message with which the operator refused to merge its operands.
    Refused(Bytes, Text),
}
