//! Copying the items of a slice.

ghost use Rattle.std.specs.Prelude.{◌≡◌, ◌++◌, OnOk};

use fleet_rows::Copies;
use std::alloc::AllocError;

/// Adds copies of these items at the end.
pub(crate) fn add_all<T: Copies + Drop>(items: &mut Vec<T>, more: &[T]) -> Result<(), AllocError>
    ensures { OnOk result (items.new.items ≡ items.old.items ++ more.now) }
{
    'more: for item in more {
        items.push(item.copied()?)?;
    }
    Ok(())
}
