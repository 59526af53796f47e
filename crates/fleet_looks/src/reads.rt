//! The line that reads a key. It calls nothing.

ghost use Rattle.std.specs.Prelude.{◌≡◌, IfOk, IsOkUnless};
ghost use Rattle.fleet_model.specs.Invariants.Invariant.{StoreInvariant};
ghost use Rattle.fleet_rows.specs.declared.errors.SlateDBError.TheVariants as SlateDBError;
ghost use Rattle.fleet_looks.specs.Looks.{answer_reply, read_said};

use fleet_fold::MergeOperator;
use fleet_read::{ReadAnswer, read_stored};
use fleet_rows::SlateDBError;
use fleet_store::MemStore;
use fleet_text::{Reply, answers};
use std::alloc::Global;

// The reply that shows the answer of a read.
fn answer_reply(alloc: Global, answer: ReadAnswer) -> Result<Reply, SlateDBError>
    ensures reply { IfOk result (λ reply. reply ≡ answer_reply answer) }
    ensures memory { IsOkUnless result SlateDBError.Memory }
{
    match answer {
        ReadAnswer::Value(bytes) => answers::value(alloc, bytes.as_slice()),
        ReadAnswer::Nothing => answers::none(alloc),
        ReadAnswer::NotRetained { least, tick } => answers::not_retained(alloc, least, tick),
        ReadAnswer::Callback(message) => answers::callback(alloc, message.as_slice()),
    }
}

/// The reply to a read of a key, as all rows answer it that were flushed into the segment and not
/// drained.
pub fn read_key<O: MergeOperator>(
    alloc: Global,
    store: &MemStore,
    operator: &O,
    segment: &[u8],
    key: &[u8],
    seq: u64,
    now: i64,
) -> Result<Reply, SlateDBError>
    requires { StoreInvariant (O.merged (O.settings operator.now)) store.now.world.store }
    ensures reply { IfOk result (λ reply. reply ≡ read_said (O.merged (O.settings operator.now))
        store.now.world.store segment.now key.now seq now) }
    ensures memory { IsOkUnless result SlateDBError.Memory }
{
    let answer = read_stored(alloc, store, operator, segment, key, seq, now)?;
    answer_reply(alloc, answer)
}
