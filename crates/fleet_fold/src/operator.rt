//! Merge operators.

ghost use Rattle.std.specs.Prelude.{◌≡◌, ℕ, List};
ghost use Rattle.row_model.specs.Fold.{Operator, IsLawful, fold_bytes};
ghost use Rattle.fleet_fold.specs.Operator.{Answers, AnswersBatch};

use bytes::Bytes;
use fleet_rows::MergeOperatorError;
use std::alloc::Global;

/// The name of the metric that counts operands.
pub const MERGE_OPERATOR_OPERANDS: &str = "slatedb.merge_operator_operands";

/// A merge operator, which merges operands of a key into one value. Its answers depend only on its
/// settings and on the arguments.
pub trait MergeOperator: Sync {
    /// What the operator was made with. It never changes, and is empty for an operator without
    /// fields.
    ghost settings: { Self → List ℕ };

    /// What a merge of one operand answers, given the settings.
    ghost merged: { List ℕ → Operator };

    /// Merges one operand onto the existing value, if there is one.
    fn merge(
        &self,
        alloc: Global,
        key: &Bytes,
        existing_value: Option<Bytes>,
        value: Bytes,
    ) -> Result<Bytes, MergeOperatorError>
        ensures { Answers (merged (settings self.now) key.now existing_value value) result };

    /// Merges all operands, oldest first, onto the existing value, if there is one. It fails with
    /// `EmptyBatch` only if there is neither an operand nor an existing value.
    fn merge_batch(
        &self,
        alloc: Global,
        key: &Bytes,
        existing_value: Option<Bytes>,
        operands: &[Bytes],
    ) -> Result<Bytes, MergeOperatorError>
        ensures { AnswersBatch
            (fold_bytes (merged (settings self.now)) key.now existing_value operands.now) result }
    {
        let mut value = existing_value;
        'operands: for operand in operands {
            value = Some(self.merge(alloc, key, value, operand.clone()?)?);
        }
        match value {
            Some(value) => Ok(value),
            None => Err(MergeOperatorError::EmptyBatch),
        }
    }

    /// The operator is lawful: newer operands may be folded by themselves first, and answers have
    /// fewer than 2^32 bytes.
    ghost lawful: { (s : List ℕ) → IsLawful (merged s) };
}

/// A merge operator as adapters use it inside: it need not be `Sync`. Every `MergeOperator` is a
/// `BatchMerger`. docs/DECISIONS.md says why the methods are declared again.
pub trait BatchMerger {
    /// What a merge of one operand answers.
    ghost fold: { Self → Operator };

    /// Does what `MergeOperator::merge_batch` does.
    fn merged_batch(
        &self,
        alloc: Global,
        key: &Bytes,
        existing_value: Option<Bytes>,
        operands: &[Bytes],
    ) -> Result<Bytes, MergeOperatorError>
        ensures { AnswersBatch
            (fold_bytes (fold self.now) key.now existing_value operands.now) result };

    ghost lawful: { (merger : Self) → IsLawful (fold merger) };
}

impl<O: MergeOperator> BatchMerger for O {
    ghost fold = { λ o. O.merged (O.settings o) };

    ghost lawful = { λ o. O.lawful (O.settings o) };

    fn merged_batch(
        &self,
        alloc: Global,
        key: &Bytes,
        existing_value: Option<Bytes>,
        operands: &[Bytes],
    ) -> Result<Bytes, MergeOperatorError> {
        self.merge_batch(alloc, key, existing_value, operands)
    }
}
