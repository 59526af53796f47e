//! The tables of ranges: those that were noted, followed by those that were put.

ghost use Rattle.std.specs.Prelude.{◌≡◌, ◌++◌, IfOk, IsOkUnless, length};
ghost use Rattle.fleet_output.specs.Finishes.{noted_and};

use fleet_plan::Subcompaction;
use fleet_rows::{ListOf, SlateDBError};
use fleet_tree::{OutputList, SsTableHandle, TableList};
use std::alloc::Global;

// The tables that are noted for the range, followed by the new ones.
fn tables_of(
    alloc: Global,
    part: &Subcompaction,
    new: ListOf<SsTableHandle>,
) -> Result<TableList, SlateDBError>
    ensures tables { IfOk result (λ tables. tables ≡ part.now.output_ssts ++ new) }
    ensures memory { IsOkUnless result SlateDBError.Memory }
{
    let mut tables = Vec::new(alloc);
    'noted: for table in part.output_ssts() {
        tables.push(table.clone()?)?;
    }
    let mut new = new.into_vec();
    tables.append(&mut new)?;
    TableList::from_vec(alloc, tables)
}

/// The tables of each range: those that are noted for it, followed by the new ones.
pub fn all_outputs(
    alloc: Global,
    parts: &[Subcompaction],
    new: ListOf<ListOf<SsTableHandle>>,
) -> Result<OutputList, SlateDBError>
    requires same { length new ≡ length parts.now }
    ensures outputs { IfOk result (λ outputs. outputs ≡ noted_and parts.now new) }
    ensures memory { IsOkUnless result SlateDBError.Memory }
{
    let mut outputs = Vec::with_capacity(alloc, parts.len())?;
    let mut lists = new.into_vec().into_iter();
    'each: for part in parts {
        let Some(tables) = lists.next() else {
            unreachable!();
        };
        let all = tables_of(alloc, part, tables)?;
        outputs.push(all)?;
    }
    Ok(OutputList::from_vec(outputs))
}
