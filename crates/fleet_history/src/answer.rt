//! The answers of a store.

/// How a call was answered.
#[derive(Clone, Copy, Debug, PartialEq, Eq)]
pub enum Answer {
    /// The call was done. It has the version that was got or put, or 0 if there is none.
    Done(u64),
    /// There are no records, or the table is not held.
    Absent,
    /// The put was refused. It has the stored version, which is not the version of the put.
    Conflict(u64),
    /// A fault struck the call, which changed nothing.
    Lost,
    /// A fault struck the call. A put took effect; a get or a list changed nothing.
    Stands,
}
