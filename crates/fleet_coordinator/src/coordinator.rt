//! The start of a coordinator.

ghost use Rattle.std.specs.Prelude.{◌≡◌, ◌+◌, max, IfOk, IsOkUnless, option_map};
ghost use Rattle.fleet_model.specs.Store.{records_epoch};
ghost use Rattle.step_model.specs.Kept.Keeps.{Keeps};
ghost use Rattle.step_model.specs.Steps.PollSteps.{holds_at_start, start, start_try};
ghost use Rattle.step_model.specs.Courses.StepEnds.{Reports};
ghost use Rattle.fleet_book.specs.Versions.{records_of};
ghost use Rattle.fleet_coordinator.specs.Starts.{HasStarted, IsCoordinator, IsStartPut, PutsEpoch};
ghost use Rattle.fleet_step.specs.Steps.{StepRan, TryRan};

use fleet_book::{Compactions, VersionedCompactions};
use fleet_rows::SlateDBError;
use fleet_step::{MOST_REFUSED, get_both, refused_at};
use fleet_store::{ManifestChange, RecordChange, Store};
use fleet_tree::{Manifest, VersionedManifest};
use std::alloc::Global;

// The epoch of the records, or 0 if there are none.
fn epoch_of(records: &Option<VersionedCompactions>) -> u64
    ensures { result ≡ records_epoch (option_map records_of records.now) }
{
    match records {
        Some(records) => records.compactor_epoch(),
        None => 0,
    }
}

// The greater one of the stored epochs.
fn stored_epoch(manifest: &VersionedManifest, records: &Option<VersionedCompactions>) -> u64
    ensures { result ≡ max manifest.now.manifest.compactor_epoch
        (records_epoch (option_map records_of records.now)) }
{
    manifest.manifest.compactor_epoch.max(epoch_of(records))
}

// The same, of objects that are not needed any more.
fn last_epoch(manifest: VersionedManifest, records: Option<VersionedCompactions>) -> u64
    ensures { result ≡ max manifest.manifest.compactor_epoch
        (records_epoch (option_map records_of records)) }
{
    stored_epoch(&manifest, &records)
}

// One more than the epoch, if there is room.
fn next_epoch(epoch: u64) -> Result<u64, SlateDBError>
    ensures next { IfOk result (λ next. next ≡ epoch + 1) }
    ensures memory { IsOkUnless result SlateDBError.Memory }
{
    match epoch.checked_add(1) {
        Some(next) => Ok(next),
        None => Err(SlateDBError::Memory),
    }
}

// The version of the records, or 0 if there are none, and the records that are put with this epoch.
fn epoch_put(
    alloc: Global,
    records: &Option<VersionedCompactions>,
    epoch: u64,
) -> Result<(u64, Compactions), SlateDBError>
    ensures put { IfOk result (λ put. PutsEpoch records.now epoch put.0 put.1) }
    ensures memory { IsOkUnless result SlateDBError.Memory }
{
    let Some(records) = records else {
        return Ok((0, Compactions::new(alloc, epoch)));
    };
    let mut value = records.compactions().clone()?;
    value.compactor_epoch = epoch;
    value.retain_active_and_last_finished();
    Ok((records.id(), value))
}

// What a start puts.
#[derive(Drop)]
struct StartPut {
    epoch: u64,
    id: u64,
    manifest: Manifest,
    version: u64,
    value: Compactions,
}

// What a start puts over these objects.
fn start_put(
    alloc: Global,
    got: VersionedManifest,
    records: Option<VersionedCompactions>,
) -> Result<StartPut, SlateDBError>
    ensures put { IfOk result (IsStartPut got records) }
    ensures memory { IsOkUnless result SlateDBError.Memory }
{
    let epoch = next_epoch(stored_epoch(&got, &records))?;
    let (version, value) = epoch_put(alloc, &records, epoch)?;
    let VersionedManifest { id, manifest } = got;
    let manifest = Manifest {
        compactor_epoch: epoch,
        core: manifest.core,
    };
    Ok(StartPut {
        epoch,
        id,
        manifest,
        version,
        value,
    })
}

// Gets both objects. The coordinator is fenced if a stored epoch is above its own.
fn hold<S: Store>(store: &mut S, epoch: u64) -> Result<u64, SlateDBError>
    ensures { (again : _) → TryRan Reports (holds_at_start epoch) again
        (S.view store.old) (S.view store.new) result }
{
    let (manifest, records) = get_both(store)?;
    let stored = last_epoch(manifest, records);
    if epoch < stored {
        Err(SlateDBError::Fenced { stored })
    } else {
        Ok(epoch)
    }
}

// One try to start.
fn try_start<S: Store>(alloc: Global, store: &mut S) -> Result<u64, SlateDBError>
    requires by { IsCoordinator (S.view store.old) }
    ensures { (again : _) → TryRan Reports (start_try again) again
        (S.view store.old) (S.view store.new) result }
{
    let (got, records) = get_both(store)?;
    let put = start_put(alloc, got, records)?;
    let why = ManifestChange::Epoch(put.epoch);
    store.put_manifest(put.id, put.manifest, why, None)?;
    store.put_records(put.version, put.value, RecordChange::Epoch(put.epoch))?;
    hold(store, put.epoch)
}

/// Starts a coordinator: it puts an epoch above both stored ones, into the manifest and then into
/// the records, which it creates if there are none. The answer is its epoch.
///
/// `Fenced` means that another coordinator started meanwhile, `Conflict` that 64 puts were refused
/// in all. After `StoreFault`, `Fenced`, `Conflict` or `Memory` the epoch may stand in the manifest
/// or in both objects; a start tried anew takes a higher one.
pub fn start<S: Store>(alloc: Global, store: &mut S) -> Result<u64, SlateDBError>
    requires by { IsCoordinator (S.view store.old) }
    requires keeps { Keeps (S.view store.old).who.merge (S.view store.old).world }
    ensures ran { StepRan Reports start (S.view store.old) (S.view store.new) result }
    ensures fits { IfOk result (HasStarted (S.view store.new)) }
    ensures keeps { Keeps (S.view store.new).who.merge (S.view store.new).world }
{
    let mut seen = 0;
    'tries: for tries in 0..MOST_REFUSED {
        let tried = try_start(alloc, store);
        let Some(version) = refused_at(&tried) else {
            return tried;
        };
        seen = version;
    }
    Err(SlateDBError::Conflict { seen })
}
