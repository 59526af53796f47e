//! The first answers of a scan.

ghost use Rattle.std.specs.Prelude.{◌≡◌, [], false, IfOk, IsOkUnless};
ghost use Rattle.fleet_rows.specs.declared.errors.SlateDBError.TheVariants as SlateDBError;
ghost use Rattle.fleet_read.specs.Pages.{page_of, TakesPair};

use crate::{PageEnd, ScanPage};
use bytes::Bytes;
use fleet_fold::MergeOperator;
use fleet_rows::{ListOf, SlateDBError};
use fleet_scan::{KeyAnswer, Scan};
use std::alloc::Global;

// Takes the next answer. A value is added to the pairs. Anything else ends the page.
fn take_pair<O: MergeOperator>(
    alloc: Global,
    scan: &mut Scan<'_, O>,
    pairs: &mut ListOf<(Bytes, Bytes)>,
) -> Result<Option<PageEnd>, SlateDBError>
    requires alive { scan.old.failed ≡ false }
    ensures taken { IfOk result (TakesPair scan.old scan.new pairs.old pairs.new) }
    ensures memory { IsOkUnless result SlateDBError.Memory }
{
    match scan.next(alloc)? {
        Some(KeyAnswer::Found(key, value)) => {
            pairs.push((key, value))?;
            Ok(None)
        }
        Some(KeyAnswer::Refused(key, message)) => Ok(Some(PageEnd::RefusedAt { key, message })),
        None => Ok(Some(PageEnd::NoneLeft)),
    }
}

// How a full page ends.
fn full_end<O: MergeOperator>(
    alloc: Global,
    scan: &mut Scan<'_, O>,
) -> Result<PageEnd, SlateDBError>
    requires alive { scan.old.failed ≡ false }
    ensures end { IfOk result (λ end. record { pairs = []; ends = end } ≡ page_of 0 scan.old) }
    ensures memory { IsOkUnless result SlateDBError.Memory }
{
    match scan.next(alloc)? {
        Some(KeyAnswer::Found(key, _)) => Ok(PageEnd::StopsBefore { key }),
        Some(KeyAnswer::Refused(key, _)) => Ok(PageEnd::StopsBefore { key }),
        None => Ok(PageEnd::NoneLeft),
    }
}

/// The first answers of the scan: at most `limit` of them, up to the first refusal. One more answer
/// is read, which tells whether keys are left.
pub(crate) fn take_page<O: MergeOperator>(
    alloc: Global,
    scan: &mut Scan<'_, O>,
    limit: u32,
) -> Result<ScanPage, SlateDBError>
    requires alive { scan.old.failed ≡ false }
    ensures page { IfOk result (λ page. page ≡ page_of limit scan.old) }
    ensures memory { IsOkUnless result SlateDBError.Memory }
{
    let mut pairs = ListOf::new(alloc);
    'pairs: for _ in 0..limit {
        if let Some(ends) = take_pair(alloc, scan, &mut pairs)? {
            return Ok(ScanPage { pairs, ends });
        }
    }
    let ends = full_end(alloc, scan)?;
    Ok(ScanPage { pairs, ends })
}
