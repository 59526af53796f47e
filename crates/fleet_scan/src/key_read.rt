//! A read of one key, row by row.

ghost use Rattle.std.specs.Prelude.{◌≡◌, [], None, false, option_map, IfOk, IsOkUnless, OnOk};
ghost use Rattle.row_model.specs.Fold.{fold_bytes};
ghost use Rattle.fleet_rows.specs.declared.errors.SlateDBError.TheVariants as SlateDBError;
ghost use Rattle.fleet_scan.specs.Answered.{pair_of};
ghost use Rattle.fleet_scan.specs.KeyReads.{TakesRows, found_with};
ghost use Rattle.fleet_scan.specs.Walk.{IsReading};

use crate::KeyAnswer;
use crate::key_rows::{KeyRows, ReadPoint};
use bytes::Bytes;
use fleet_fold::MergeOperator;
use fleet_iter::RowSource;
use fleet_rows::SlateDBError;
use std::alloc::Global;
use std::marker::Model;

/// A read of one key at a sequence and a moment. It takes the rows of the key, newest first, until
/// one of them hides all older ones: a value or a tombstone that the read sees.
#[derive(Debug, Drop)]
pub struct KeyRead {
    point: ReadPoint,
    rows: KeyRows,
}

impl Model for KeyRead {
    ghost use Rattle.fleet_scan.specs.KeyReads.{KeyReading};
    ghost use Rattle.fleet_scan.specs.KeyRows.{reading_of};

    ghost Value = { KeyReading };

    ghost view = { λ r. reading_of r.point r.rows };
}

impl KeyRead {
    /// A read that has taken no row. It sees rows with at most the sequence `seq`, and rows are
    /// expired from their expiry on.
    pub fn new(alloc: Global, key: Bytes, seq: u64, now: i64) -> KeyRead
        ensures { result ≡ record {
          key = key;
          seq = seq;
          moment = now;
          hides = false;
          base = None;
          operands = [];
        } }
    {
        KeyRead {
            point: ReadPoint { seq, moment: now },
            rows: KeyRows::none(alloc, key),
        }
    }

    /// Whether a row that was taken hides all older ones.
    pub fn is_hiding(&self) -> bool
        ensures { result ≡ self.now.hides }
    {
        self.rows.is_hiding()
    }

    /// Takes the rows that the source has left. They are rows of the key, older than all taken
    /// before, newest first. No row is read after one that hides the others. After `Memory` the
    /// read is worth nothing.
    pub fn take<T: RowSource>(&mut self, alloc: Global, source: &mut T) -> Result<(), SlateDBError>
        requires sound { T.sound source.old }
        requires reading { IsReading (T.state source.old) }
        ensures taken { OnOk result (TakesRows self.old (T.state source.old).rows self.new) }
        ensures memory { IsOkUnless result SlateDBError.Memory }
    {
        'rows: while !self.rows.is_hiding() {
            let Some(row) = source.next_row(alloc)? else {
                return Ok(());
            };
            self.rows.add(self.point, row)?;
        }
        Ok(())
    }

    /// The key with its answer, once all its rows are taken, or those that hide the others. None if
    /// the read finds nothing.
    pub fn answer<O: MergeOperator>(
        self,
        alloc: Global,
        operator: &O,
    ) -> Result<Option<KeyAnswer>, SlateDBError>
        ensures answer { IfOk result (λ answer. option_map pair_of answer ≡ option_map
            (λ outcome. (self.key, outcome)) (fold_bytes (O.merged (O.settings operator.now))
            self.key (found_with self []).0 (found_with self []).1)) }
        ensures memory { IsOkUnless result SlateDBError.Memory }
    {
        self.rows.answer(alloc, operator)
    }
}
