//! What a shared store knows of its merge operator.

ghost use Rattle.std.specs.Prelude.{◌≡◌, ℕ, List};
ghost use Rattle.row_model.specs.Fold.{IsLawful, Operator};

use bytes::Bytes;
use fleet_fold::MergeOperator;
use fleet_rows::MergeOperatorError;
use std::alloc::Global;
use std::marker::{Brand, PhantomData};

/// A merge operator as a shared store knows it: it need not be `Sync`. Every `MergeOperator` is
/// one.
pub trait Folds {
    /// What the operator was made with.
    ghost has: { Self → List ℕ };

    /// What a merge of one operand answers, given the settings.
    ghost folds: { List ℕ → Operator };

    /// Does nothing. A law of a trait stands below a function.
    fn known(&self);

    /// The operator is lawful.
    ghost lawful: { (settings : List ℕ) → IsLawful (folds settings) };
}

impl<O: MergeOperator> Folds for O {
    ghost has = { λ o. O.settings o };

    ghost folds = { O.merged };

    ghost lawful = { O.lawful };

    fn known(&self) {}
}

/// An operator that is lent to a shared store. It is lawful.
#[derive(Drop)]
pub(crate) struct Lent<'o, O: Folds> {
    pub(crate) operator: &'o O,
    ghost lawful: { (settings : List ℕ) → IsLawful (O.folds settings) },
}

// The operator, lent.
pub(crate) fn lend<O: MergeOperator>(operator: &O) -> Lent<'_, O>
    ensures { O.settings result.operator.now ≡ O.settings operator.now }
{
    Lent { operator }
}

/// A fold that a call picks. docs/DECISIONS.md says why.
pub(crate) trait Fold {
    ghost fold: { Operator };

    ghost lawful: { IsLawful fold };
}

impl Fold for Brand {
    ghost use Rattle.row_model.specs.Append.{append};
    ghost use Rattle.row_laws.proofs.Lawful.{append_is_lawful};

    ghost fold = { append };

    ghost lawful = { append_is_lawful };
}

/// A merge operator that has this fold, as far as contracts say. It is lent with a store whose
/// calls merge nothing, and has no memory for a merge.
#[derive(Drop)]
pub(crate) struct Named<F: Fold> {
    of: PhantomData<F>,
}

impl<F: Fold> Named<F> {
    pub(crate) fn new() -> Named<F> {
        Named { of: PhantomData }
    }
}

impl<F: Fold + Sync> MergeOperator for Named<F> {
    ghost use Rattle.std.specs.Prelude.{[]};

    ghost settings = { λ _. [] };

    ghost merged = { λ _. F.fold };

    ghost lawful = { λ _. F.lawful };

    fn merge(
        &self,
        _alloc: Global,
        _key: &Bytes,
        _existing_value: Option<Bytes>,
        _value: Bytes,
    ) -> Result<Bytes, MergeOperatorError> {
        Err(MergeOperatorError::Memory)
    }
}
