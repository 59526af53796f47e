//! The first and the last of some rows.

ghost use Rattle.std.specs.Prelude.{◌≡◌, ◌≢◌, []};
ghost use Rattle.fleet_model.specs.Handles.{seq_of_last};
ghost use Rattle.fleet_model.specs.Trees.{first_key, last_key};
ghost use Rattle.fleet_rows.specs.Row.{rows_of};

use fleet_rows::RowEntry;

/// The first of some rows.
pub(crate) fn first_of(rows: &[RowEntry]) -> &RowEntry
    requires { rows.now ≢ [] }
    ensures { result.now.key ≡ first_key (rows_of rows.now) }
{
    &rows[0]
}

/// The last of some rows.
pub(crate) fn last_of(rows: &[RowEntry]) -> &RowEntry
    requires { rows.now ≢ [] }
    ensures key { result.now.key ≡ last_key [] (rows_of rows.now) }
    ensures seq { result.now.seq ≡ seq_of_last 0 (rows_of rows.now) }
{
    &rows[rows.len() - 1]
}
