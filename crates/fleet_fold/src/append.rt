//! The merge operator that joins bytes.

ghost use Rattle.std.specs.Prelude.{◌≡◌, ◌++◌, [], Some, Err, OnOk, IfErr};
ghost use Rattle.row_model.specs.Append.{append, short_or_refused};
ghost use Rattle.row_model.specs.Fold.{Merged, fold_bytes};
ghost use Rattle.row_laws.proofs.Lawful.{append_is_lawful};
ghost use Rattle.fleet_fold.specs.Operator.{Answers, AnswersBatch};

use crate::MergeOperator;
use bytes::Bytes;
use fleet_rows::{MergeOperatorError, Text};
use std::alloc::Global;

// The limit on the length of a joined value, in bytes. Each one is shorter.
const JOINED_LEN_LIMIT: usize = 1 << 32;

/// The merge operator that joins the operand's bytes to those of the existing value. It refuses a
/// value of 2^32 bytes or more with `value too long`.
#[derive(Clone, Copy, Debug, PartialEq, Eq)]
pub struct AppendOperator;

impl MergeOperator for AppendOperator {
    ghost settings = { λ _. [] };

    ghost merged = { λ _. append };

    ghost lawful = { λ _. append_is_lawful };

    fn merge(
        &self,
        alloc: Global,
        _key: &Bytes,
        existing_value: Option<Bytes>,
        value: Bytes,
    ) -> Result<Bytes, MergeOperatorError> {
        let before = match &existing_value {
            Some(bytes) => bytes.as_slice(),
            None => &[],
        };
        let after = value.as_slice();
        if before.len() + after.len() >= JOINED_LEN_LIMIT {
            return Err(MergeOperatorError::Callback {
                message: Text::new(String::from_str(alloc, "value too long")?),
            });
        }
        let mut joined = before.to_vec(alloc)?;
        joined.extend_from_slice(after)?;
        Ok(Bytes::from_vec(joined)?)
    }

    fn merge_batch(
        &self,
        alloc: Global,
        key: &Bytes,
        existing_value: Option<Bytes>,
        operands: &[Bytes],
    ) -> Result<Bytes, MergeOperatorError> {
        if operands.is_empty() {
            return existing_value.ok_or(MergeOperatorError::EmptyBatch);
        }
        match &existing_value {
            Some(bytes) => joined_all(alloc, key, bytes.as_slice(), operands),
            None => joined_all(alloc, key, &[], operands),
        }
    }
}

// Joins the operands' bytes to the first bytes, in memory that is taken once. A lone operand keeps its
// own memory.
fn joined_all(
    alloc: Global,
    _key: &Bytes,
    first: &[u8],
    operands: &[Bytes],
) -> Result<Bytes, MergeOperatorError>
    ensures { AnswersBatch (fold_bytes append _key.now (Some first.now) operands.now) result }
{
    if first.is_empty()
        && let [lone] = operands
        && lone.len() < JOINED_LEN_LIMIT
    {
        return Ok(lone.clone()?);
    }
    let mut bytes = Vec::with_capacity(alloc, room_for(first, operands))?;
    bytes.extend_from_slice(first)?;
    'operands: for operand in operands {
        join(alloc, &mut bytes, operand.as_slice())?;
    }
    Ok(Bytes::from_vec(bytes)?)
}

// Joins bytes to others, unless the result would be too long.
fn join(alloc: Global, bytes: &mut Vec<u8>, others: &[u8]) -> Result<(), MergeOperatorError>
    ensures ok { OnOk result
        (short_or_refused (bytes.old.items ++ others.now) ≡ Merged bytes.new.items) }
    ensures err { IfErr result
        (λ e. Answers (short_or_refused (bytes.old.items ++ others.now)) (Err e)) }
{
    if bytes.len() + others.len() >= JOINED_LEN_LIMIT {
        return Err(MergeOperatorError::Callback {
            message: Text::new(String::from_str(alloc, "value too long")?),
        });
    }
    bytes.extend_from_slice(others)?;
    Ok(())
}

// How many bytes there are in all. It is 0 if they are too many for a value.
fn room_for(first: &[u8], operands: &[Bytes]) -> usize {
    let mut len = first.len();
    'operands: for operand in operands {
        len = len.saturating_add(operand.len());
    }
    if len < JOINED_LEN_LIMIT { len } else { 0 }
}
