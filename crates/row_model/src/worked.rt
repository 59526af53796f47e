//! Small worked examples of the definitions. Each function has an empty body, and its clause states
//! values of definitions. The examples are in specs/Worked.antt.

ghost use Rattle.row_model.specs.Worked.{AnchorsAreSampled, FoldedAndThenExpired, KeysAreCut, OldTombstonesGo, OldVersionsGo, RowsHaveSizes, StampsStayApart, TablesAreCut, TablesHaveBytes, TheCutKeepsOperands, TheCutKeepsVersions};

/// A tombstone at sequence 4 is above values at 2 and 1. With the cut 3, a job drops the value at
/// 1, and the reads at 3 and at 4 do not change.
pub fn old_versions_go()
    ensures { OldVersionsGo }
{}

/// The only row left of a key is a tombstone. Retention drops it if the job writes the last run,
/// and keeps it if not.
pub fn old_tombstones_go()
    ensures { OldTombstonesGo }
{}

/// A job that writes the last run drops all rows of a deleted key if its cut is the floor 4. If
/// its cut is 2, it keeps the tombstone and the value that a read at 2 needs.
pub fn the_cut_keeps_versions()
    ensures { TheCutKeepsVersions }
{}

/// A job folds two operands without an expiry into one. It leaves an older operand with an expiry
/// apart, so that operand expires by itself.
pub fn stamps_stay_apart()
    ensures { StampsStayApart }
{}

/// A job folds an operand onto a value with the same expiry. Only then does it drop the result,
/// which is expired.
pub fn folded_and_then_expired()
    ensures { FoldedAndThenExpired }
{}

/// A job does not fold operands above the cut, even if they are at or below the floor.
pub fn the_cut_keeps_operands()
    ensures { TheCutKeepsOperands }
{}

/// Sizes in bytes of a tombstone and of a value: as written, with and without a shared prefix of
/// the key, and as estimated.
pub fn rows_have_sizes()
    ensures { RowsHaveSizes }
{}

/// Five rows, with their size in bytes as a table, their blocks, and the tables that they are cut
/// into.
pub fn tables_are_cut()
    ensures { TablesAreCut }
{}

/// Two rows of one key, written as the bytes of a table. The second row shares the key of the first
/// row, so none of its bytes are written again.
pub fn tables_have_bytes()
    ensures { TablesHaveBytes }
{}

/// The ranges that six lists of anchors are cut into. A cut comes where the bytes of the earlier
/// anchors reach the next threshold, and each key is cut at most once.
pub fn keys_are_cut()
    ensures { KeysAreCut }
{}

/// The anchors that a table's blocks give, within a range of keys and in groups of blocks.
pub fn anchors_are_sampled()
    ensures { AnchorsAreSampled }
{}
