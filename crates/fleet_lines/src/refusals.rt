//! The replies to steps that failed.

ghost use Rattle.std.specs.Prelude.{◌≡◌, IfOk, IsOkUnless, Some};
ghost use Rattle.fleet_rows.specs.declared.errors.SlateDBError.TheVariants as SlateDBError;
ghost use Rattle.fleet_lines.specs.Steps.{error_reply};

use fleet_rows::{MergeOperatorError, SlateDBError};
use fleet_text::{Reply, answers};
use std::alloc::Global;

/// The reply of a line whose step ended with this error. Out of memory is no reply.
pub(crate) fn refused(alloc: Global, error: SlateDBError) -> Result<Reply, SlateDBError>
    ensures reply { IfOk result (λ answer. error_reply error ≡ Some answer) }
    ensures memory { IsOkUnless result SlateDBError.Memory }
{
    match error {
        SlateDBError::StoreFault => answers::store_fault(alloc),
        SlateDBError::Conflict { seen } => answers::conflict(alloc, seen),
        SlateDBError::Fenced { stored } => answers::fenced(alloc, stored),
        SlateDBError::NotOwner => answers::not_owner(alloc),
        SlateDBError::InvalidDBState => answers::no_records(alloc),
        SlateDBError::InvalidCompaction => answers::invalid_compaction(alloc),
        SlateDBError::Generate { message } => {
            answers::generate_refused(alloc, message.as_slice())
        }
        SlateDBError::MergeOperator(MergeOperatorError::Callback { message }) => {
            answers::callback(alloc, message.as_slice())
        }

        // A step ends with no other error than this one.
        _ => Err(SlateDBError::Memory),
    }
}
