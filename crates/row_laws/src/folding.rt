//! Laws on how the operands of a key are grouped and folded.

ghost use Rattle.row_laws.specs.Batches.{BatchesFoldAlike, CutsIntoBatches, FoldsByBatches};
ghost use Rattle.row_laws.specs.Walks.{ChunkIsWalked, GroupsAreWalked};
ghost use Rattle.row_model.specs.Append.{append};
ghost use Rattle.row_model.specs.Fold.{IsLawful, Operator};
ghost use Rattle.row_model.specs.Rows.{Row};

/// A walk that goes on as long as each element joins the next one finds exactly the first chunk of
/// the list. The next walk begins after that chunk.
pub fn chunk_is_walked()
    ensures { ChunkIsWalked Row }
{}

/// A walk finds the groups of a key's rows. The newest row is alone in its group, unless it is an
/// operand at or below the cut. Such an operand takes the next rows as long as they have its
/// expiry. The first of them that is not an operand is the base and ends the group.
pub fn groups_are_walked()
    ensures { GroupsAreWalked }
{}

/// Under a lawful operator, the operands of a group may be folded in batches, cut anywhere, and the
/// results then folded over the base. This gives the group's content, and none exactly if the group
/// has none.
pub fn batches_fold_alike()
    ensures { (merge : Operator) → IsLawful merge → BatchesFoldAlike merge }
{}

/// The batches of a positive size are the list cut into pieces. No piece is empty, and none has
/// more elements than the size.
pub fn cuts_into_batches()
    ensures { CutsIntoBatches }
{}

/// Under a lawful operator, a group may be folded in batches of any positive size. This gives the
/// group's content, and none exactly if the group has none.
pub fn folds_by_batches()
    ensures { (merge : Operator) → IsLawful merge → FoldsByBatches merge }
{}

/// The merge operator `append` is lawful: it joins bytes, and refuses results of 2^32 bytes or
/// more.
pub fn append_is_lawful()
    ensures { IsLawful append }
{}
