//! Two gets, one after the other.

ghost use Rattle.fleet_step.specs.Gets.{GetsBoth};

use fleet_book::VersionedCompactions;
use fleet_rows::SlateDBError;
use fleet_store::Store;
use fleet_tree::VersionedManifest;

/// The manifest and then the records.
pub fn get_both<S: Store>(
    store: &mut S,
) -> Result<(VersionedManifest, Option<VersionedCompactions>), SlateDBError>
    ensures { GetsBoth (S.view store.old) (S.view store.new) result }
{
    let manifest = store.get_manifest()?;
    match store.get_records() {
        Ok(records) => Ok((manifest, records)),
        Err(error) => Err(error),
    }
}
