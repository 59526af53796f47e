//! Prints replies.

ghost use Rattle.std.specs.Prelude.{◌≡◌, ◌++◌, [], ℕ, List, IfOk, OnOk, OnErr, IsOkUnless, decimal, map, nat_eq, string_bytes};
ghost use Rattle.std.specs.Cmp.{partial_equiv_from_equiv};
ghost use Rattle.std.specs.Cmp.Lexicographic.{pointwise, nat_list_eq_equiv};
ghost use Rattle.std.specs.Fmt.{signed_decimal};
ghost use Rattle.fleet_rows.specs.Row.{rows_of};
ghost use Rattle.script_model.specs.Replies as replies;
ghost use Rattle.script_model.specs.Words as words;
ghost use Rattle.fleet_model.specs.Nodes.{names};
ghost use Rattle.fleet_tree.specs.Trees.{tree_of};
ghost use Rattle.fleet_jobs.specs.Contexts.{table_ids};
ghost use Rattle.fleet_text.specs.Places.{places_text};
ghost use Rattle.fleet_text.specs.Printed.{counted_tables};

use crate::job_texts::nodes_text;
use crate::listings::rows_listed;
use crate::lists::{jobs_text, listed_each, listed_ranges, tables_text};
use crate::texts::bytes_text;
use fleet_rows::{JobList, PlaceList, RowEntry, RuleList, SlateDBError};
use fleet_tree::{LsmTreeState, OutputList, TableList};
use std::alloc::{AllocError, Global};
use std::marker::Model;

/// A reply under construction. Contracts see it as its bytes.
#[derive(Debug, Drop)]
pub struct Reply {
    bytes: Vec<u8>,
}

impl Model for Reply {
    ghost use Rattle.std.specs.Prelude.{List, ℕ};

    ghost Value = { List ℕ };

    ghost view = { λ r. r.bytes.items };
}

impl Reply {
    /// An empty reply. It allocates nothing.
    pub fn new(alloc: Global) -> Reply
        ensures { result ≡ [] }
    {
        Reply {
            bytes: Vec::new(alloc),
        }
    }

    pub fn as_slice(&self) -> &[u8]
        ensures { result.now ≡ self.now }
    {
        self.bytes.as_slice()
    }

    /// Appends a text as it is.
    pub fn word(&mut self, text: &str) -> Result<(), SlateDBError>
        ensures ok { OnOk result (self.new ≡ self.old ++ text.now) }
        ensures err { OnErr result (self.new ≡ self.old) }
        ensures memory { IsOkUnless result SlateDBError.Memory }
    {
        Ok(self.bytes.extend_from_slice(text.as_bytes())?)
    }

    /// Appends a number in decimal digits.
    pub fn number(&mut self, number: u64) -> Result<(), SlateDBError>
        ensures ok { OnOk result (self.new ≡ self.old ++ decimal number) }
        ensures err { OnErr result (self.new ≡ self.old) }
        ensures memory { IsOkUnless result SlateDBError.Memory }
    {
        let digits = number.to_string(*self.bytes.allocator())?;
        self.word(digits.as_str())
    }

    /// Appends a number in decimal digits, with `-` before it if it is negative.
    pub fn signed(&mut self, number: i64) -> Result<(), SlateDBError>
        ensures ok { OnOk result (self.new ≡ self.old ++ signed_decimal number) }
        ensures err { OnErr result (self.new ≡ self.old) }
        ensures memory { IsOkUnless result SlateDBError.Memory }
    {
        let text = number.to_string(*self.bytes.allocator())?;
        self.word(text.as_str())
    }

    /// Appends bytes in lower-case hexadecimal digits, or `-` for no bytes.
    pub fn hex(&mut self, bytes: &[u8]) -> Result<(), SlateDBError>
        ensures ok { OnOk result (self.new ≡ self.old ++ words.bytes_text bytes.now) }
        ensures err { OnErr result (self.new ≡ self.old) }
        ensures memory { IsOkUnless result SlateDBError.Memory }
    {
        let text = bytes_text(*self.bytes.allocator(), bytes)?;
        self.word(text.as_str())
    }

    /// Appends the numbers of jobs, with commas between them.
    pub fn jobs(&mut self, jobs: &JobList) -> Result<(), SlateDBError>
        ensures ok { OnOk result (self.new ≡ self.old ++ replies.jobs_text jobs.now) }
        ensures err { OnErr result (self.new ≡ self.old) }
        ensures memory { IsOkUnless result SlateDBError.Memory }
    {
        let text = jobs_text(*self.bytes.allocator(), jobs.as_slice())?;
        self.word(text.as_str())
    }

    /// Appends jobs with the rules that they failed, each as `<job>:<rule>`, with commas between
    /// them.
    pub fn rules(&mut self, rules: &RuleList) -> Result<(), SlateDBError>
        ensures ok { OnOk result (self.new ≡ self.old ++ replies.rules_text rules.now) }
        ensures err { OnErr result (self.new ≡ self.old) }
        ensures memory { IsOkUnless result SlateDBError.Memory }
    {
        let text = listed_each(*self.bytes.allocator(), rules.as_slice())?;
        self.word(text.as_str())
    }

    /// Appends the places of dropped proposals with their rules, each as `<place>:<rule>`, with
    /// commas between them.
    pub fn places(&mut self, places: &PlaceList) -> Result<(), SlateDBError>
        ensures ok { OnOk result (self.new ≡ self.old ++ places_text places.now) }
        ensures err { OnErr result (self.new ≡ self.old) }
        ensures memory { IsOkUnless result SlateDBError.Memory }
    {
        let text = listed_each(*self.bytes.allocator(), places.as_slice())?;
        self.word(text.as_str())
    }

    /// Appends rows of every kind, with their time stamps and with commas between them.
    pub fn rows(&mut self, rows: &[RowEntry]) -> Result<(), SlateDBError>
        ensures ok { OnOk result (self.new ≡ self.old ++ words.rows_text (rows_of rows.now)) }
        ensures err { OnErr result (self.new ≡ self.old) }
        ensures memory { IsOkUnless result SlateDBError.Memory }
    {
        let text = rows_listed(*self.bytes.allocator(), rows)?;
        self.word(text.as_str())
    }

    /// Appends tables with commas between them. A drawn table is `t` and its number, and a flush's
    /// table `l` and the flush's name.
    pub fn table_names(&mut self, tables: &JobList) -> Result<(), SlateDBError>
        ensures ok { OnOk result (self.new ≡ self.old ++ replies.tables_text tables.now) }
        ensures err { OnErr result (self.new ≡ self.old) }
        ensures memory { IsOkUnless result SlateDBError.Memory }
    {
        let text = tables_text(*self.bytes.allocator(), tables.as_slice())?;
        self.word(text.as_str())
    }
}

impl Reply {
    /// Appends tables with their numbers of rows, each as `<table>:<rows>`, with commas between
    /// them.
    pub fn tables(&mut self, tables: &TableList) -> Result<(), SlateDBError>
        ensures ok { OnOk result (self.new ≡ self.old ++ counted_tables tables.now) }
        ensures err { OnErr result (self.new ≡ self.old) }
        ensures memory { IsOkUnless result SlateDBError.Memory }
    {
        let text = listed_each(*self.bytes.allocator(), tables.as_slice())?;
        self.word(text.as_str())
    }

    /// Appends ranges, each as the list of its tables' names, with bars between them.
    pub fn ranges(&mut self, ranges: &OutputList) -> Result<(), SlateDBError>
        ensures ok { OnOk result
            (self.new ≡ self.old ++ replies.ranges_text (map table_ids ranges.now)) }
        ensures err { OnErr result (self.new ≡ self.old) }
        ensures memory { IsOkUnless result SlateDBError.Memory }
    {
        let text = outputs_text(*self.bytes.allocator(), ranges.as_slice())?;
        self.word(text.as_str())
    }

    /// Appends the nodes of a tree: its flushes, newest first, and then its runs, with commas
    /// between them. Which flushes went into a run is not printed.
    pub fn nodes(&mut self, tree: &LsmTreeState) -> Result<(), SlateDBError>
        ensures ok { OnOk result ((flushes : ℕ → List ℕ)
            → self.new ≡ self.old ++ words.nodes_text (names (tree_of flushes tree.now))) }
        ensures err { OnErr result (self.new ≡ self.old) }
        ensures memory { IsOkUnless result SlateDBError.Memory }
    {
        let text = nodes_text(*self.bytes.allocator(), tree)?;
        self.word(text.as_str())
    }
}

// Prints ranges, each as the list of its tables' names.
fn outputs_text(alloc: Global, ranges: &[TableList]) -> Result<String, AllocError>
    ensures { IfOk result
        (λ text. string_bytes text ≡ replies.ranges_text (map table_ids ranges.now)) }
{
    listed_ranges(alloc, ranges)
}

impl PartialEq for Reply {
    ghost eq = { pointwise nat_eq };

    ghost laws = { partial_equiv_from_equiv nat_list_eq_equiv };

    fn eq(&self, other: &Reply) -> bool {
        self.as_slice() == other.as_slice()
    }
}

impl Eq for Reply {
    ghost laws = { nat_list_eq_equiv };
}
