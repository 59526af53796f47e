//! The line that scans a range of keys. It calls nothing.

ghost use Rattle.std.specs.Prelude.{◌≡◌, IfOk, IsOkUnless};
ghost use Rattle.fleet_model.specs.Invariants.Invariant.{StoreInvariant};
ghost use Rattle.fleet_range.specs.Keys.{model_bound, range_of};
ghost use Rattle.fleet_rows.specs.declared.errors.SlateDBError.TheVariants as SlateDBError;
ghost use Rattle.fleet_text.specs.Pages.{end_of};
ghost use Rattle.script_model.specs.Lines.Scans.{keys_between, range_end, range_start, scan_reply};
ghost use Rattle.fleet_looks.specs.Looks.{AreAlike, end_read, page_read, scan_answer_reply, scan_said};

use bytes::Bytes;
use fleet_fold::MergeOperator;
use fleet_range::BytesRange;
use fleet_read::{PageEnd, ScanAnswer, ScanPage, scan_stored};
use fleet_rows::SlateDBError;
use fleet_store::MemStore;
use fleet_text::{Page, Reply, ScanEnd, answers, listings};
use std::alloc::Global;
use std::ops::Bound;

// The bound at which a range begins: this key, or none for the empty key.
fn range_start(alloc: Global, key: &[u8]) -> Result<Bound<Bytes>, SlateDBError>
    ensures bound { IfOk result (λ bound. model_bound bound ≡ range_start key.now) }
    ensures memory { IsOkUnless result SlateDBError.Memory }
{
    if key.is_empty() {
        return Ok(Bound::Unbounded);
    }
    Ok(Bound::Included(Bytes::copy_from_slice(alloc, key)?))
}

// The bound before which a range ends: this key, or none for the empty key.
fn range_end(alloc: Global, key: &[u8]) -> Result<Bound<Bytes>, SlateDBError>
    ensures bound { IfOk result (λ bound. model_bound bound ≡ range_end key.now) }
    ensures memory { IsOkUnless result SlateDBError.Memory }
{
    if key.is_empty() {
        return Ok(Bound::Unbounded);
    }
    Ok(Bound::Excluded(Bytes::copy_from_slice(alloc, key)?))
}

// A range of the keys between these bounds. If they leave no room, it holds no key.
fn range_between(
    alloc: Global,
    start: Bound<Bytes>,
    end: Bound<Bytes>,
) -> Result<BytesRange, SlateDBError>
    ensures keys { IfOk result (λ range. AreAlike (range_of range) (range_of (start, end))) }
    ensures memory { IsOkUnless result SlateDBError.Memory }
{
    match BytesRange::try_new(start, end) {
        Some(range) => Ok(range),
        None => BytesRange::new_empty(alloc),
    }
}

// The keys at or after `from` and before `to`. An empty end means no bound.
fn keys_between(alloc: Global, from: &[u8], to: &[u8]) -> Result<BytesRange, SlateDBError>
    ensures keys { IfOk result
        (λ range. AreAlike (range_of range) (keys_between from.now to.now)) }
    ensures memory { IsOkUnless result SlateDBError.Memory }
{
    let start = range_start(alloc, from)?;
    let end = range_end(alloc, to)?;
    range_between(alloc, start, end)
}

// How a page ended, as replies print it.
fn end_read(alloc: Global, ends: PageEnd) -> Result<ScanEnd, SlateDBError>
    ensures end { IfOk result (λ end. end_of end ≡ end_read ends) }
    ensures memory { IsOkUnless result SlateDBError.Memory }
{
    match ends {
        PageEnd::NoneLeft => Ok(ScanEnd::NoneLeft),
        PageEnd::RefusedAt { key, message } => {
            let message = Bytes::copy_from_slice(alloc, message.as_slice())?;
            Ok(ScanEnd::RefusedAt { key, message })
        }
        PageEnd::StopsBefore { key } => Ok(ScanEnd::StopsBefore { key }),
    }
}

// The reply that shows a page.
fn page_reply(alloc: Global, page: ScanPage) -> Result<Reply, SlateDBError>
    ensures reply { IfOk result (λ reply. reply ≡ scan_reply (page_read page)) }
    ensures memory { IsOkUnless result SlateDBError.Memory }
{
    let ScanPage { pairs, ends } = page;
    let ends = end_read(alloc, ends)?;
    listings::scanned(alloc, &Page { pairs, ends })
}

// The reply that shows the answer of a scan.
fn answer_reply(alloc: Global, answer: ScanAnswer) -> Result<Reply, SlateDBError>
    ensures reply { IfOk result (λ reply. reply ≡ scan_answer_reply answer) }
    ensures memory { IsOkUnless result SlateDBError.Memory }
{
    match answer {
        ScanAnswer::NotRetained { least, tick } => answers::not_retained(alloc, least, tick),
        ScanAnswer::Page(page) => page_reply(alloc, page),
    }
}

/// The reply to a scan of the keys at or after `from` and before `to`, with at most `limit` of them.
/// An empty end means no bound. It scans as if all rows were there that were flushed into the segment
/// and not drained.
pub fn scan_keys<O: MergeOperator>(
    alloc: Global,
    store: &MemStore,
    operator: &O,
    segment: &[u8],
    from: &[u8],
    to: &[u8],
    seq: u64,
    now: i64,
    limit: u32,
) -> Result<Reply, SlateDBError>
    requires { StoreInvariant (O.merged (O.settings operator.now)) store.now.world.store }
    ensures reply { IfOk result (λ reply. reply ≡ scan_said (O.merged (O.settings operator.now))
        store.now.world.store segment.now from.now to.now seq now limit) }
    ensures memory { IsOkUnless result SlateDBError.Memory }
{
    let range = keys_between(alloc, from, to)?;
    let answer = scan_stored(alloc, store, operator, segment, &range, seq, now, limit)?;
    answer_reply(alloc, answer)
}
