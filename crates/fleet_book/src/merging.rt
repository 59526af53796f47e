//! A coordinator's manifest after it saw the stored one.

ghost use Rattle.std.specs.Prelude.{◌≡◌, map, IfOk, IsOkUnless};
ghost use Rattle.std.specs.Option.{option_copied};
ghost use Rattle.fleet_book.specs.Finishes.{merged_core, merged_manifest, merged_segment, merged_tree, with_core};

use bytes::Bytes;
use fleet_rows::SlateDBError;
use fleet_tree::{LsmTreeState, ManifestCore, SegmentList, VersionedManifest, merge_from_writer};
use std::alloc::Global;

pub(crate) fn merged_manifest(
    alloc: Global,
    own: &VersionedManifest,
    stored: VersionedManifest,
) -> Result<VersionedManifest, SlateDBError>
    ensures manifest { IfOk result (λ merged. merged ≡ merged_manifest own.now stored) }
    ensures memory { IsOkUnless result SlateDBError.Memory }
{
    let core = merged_core(alloc, own.core(), stored.core())?;
    Ok(with_core(core, stored))
}

/// The manifest with these contents, at the same version and epoch.
pub(crate) fn with_core(core: ManifestCore, manifest: VersionedManifest) -> VersionedManifest
    ensures { result ≡ with_core core manifest }
{
    let mut manifest = manifest;
    manifest.manifest.core = core;
    manifest
}

fn merged_core(
    alloc: Global,
    own: &ManifestCore,
    stored: &ManifestCore,
) -> Result<ManifestCore, SlateDBError>
    ensures core { IfOk result (λ merged. merged ≡ merged_core own.now stored.now) }
    ensures memory { IsOkUnless result SlateDBError.Memory }
{
    let segments = merged_segments(alloc, own, stored.segments.as_slice())?;
    Ok(ManifestCore {
        tree: merge_from_writer(&own.tree, &stored.tree)?,
        segments: SegmentList::from_vec(alloc, segments)?,
        recent_snapshot_min_seq: stored.recent_snapshot_min_seq,
        last_l0_clock_tick: stored.last_l0_clock_tick,
        tracker: stored.tracker.clone()?,
        horizon: stored.horizon,
    })
}

fn merged_segments(
    alloc: Global,
    own: &ManifestCore,
    stored: &[(Bytes, LsmTreeState)],
) -> Result<Vec<(Bytes, LsmTreeState)>, SlateDBError>
    ensures segments { IfOk result
        (λ merged. merged.items ≡ map (merged_segment own.now) stored.now) }
    ensures memory { IsOkUnless result SlateDBError.Memory }
{
    let mut merged = Vec::new(alloc);
    'stored: for segment in stored {
        merged.push(merged_segment(own, segment)?)?;
    }
    Ok(merged)
}

fn merged_segment(
    own: &ManifestCore,
    stored: &(Bytes, LsmTreeState),
) -> Result<(Bytes, LsmTreeState), SlateDBError>
    ensures segment { IfOk result (λ merged. merged ≡ merged_segment own.now stored.now) }
    ensures memory { IsOkUnless result SlateDBError.Memory }
{
    let tree = merged_tree(own.tree_for_segment(stored.0.as_slice()), &stored.1)?;
    Ok((stored.0.clone()?, tree))
}

fn merged_tree(
    own: Option<&LsmTreeState>,
    stored: &LsmTreeState,
) -> Result<LsmTreeState, SlateDBError>
    ensures tree { IfOk result
        (λ merged. merged ≡ merged_tree (option_copied own.entry) stored.now) }
    ensures memory { IsOkUnless result SlateDBError.Memory }
{
    match own {
        Some(own) => merge_from_writer(own, stored),
        None => stored.clone(),
    }
}
