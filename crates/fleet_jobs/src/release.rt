//! Releases of workers.

/// The release of a worker. A worker of release 1 knows no cut, and uses its floor instead.
#[derive(Clone, Copy, Debug, PartialEq, Eq)]
pub enum Release {
    One,
    Two,
}
