//! How the items of lists are printed.

ghost use Rattle.std.specs.Prelude.{◌≡◌, ◌++◌, List, ℕ, OnOk, string_bytes};

use std::alloc::{AllocError, Global};

/// An item of a list that replies print.
pub(crate) trait Prints {
    /// The text of the item.
    ghost text: { Self → List ℕ };

    /// Appends the text of the item. The error is out of memory.
    fn print(&self, alloc: Global, out: &mut String) -> Result<(), AllocError>
        ensures { OnOk result (string_bytes out.new ≡ string_bytes out.old ++ text self.now) };
}
