//! Prints lists. Between two items stands a comma, a semicolon or a bar, and an empty list is `-`.

ghost use Rattle.std.specs.Prelude.{◌≡◌, ◌≢◌, ◌∷◌, ◌++◌, [], ℕ, length, map, IfOk, OnOk, string_bytes};
ghost use Rattle.std.specs.List.{join_with_byte};
ghost use Rattle.fleet_jobs.specs.Contexts.{table_ids};
ghost use Rattle.script_model.specs.Replies as replies;
ghost use Rattle.script_model.specs.Replies.{bar, semicolon};
ghost use Rattle.script_model.specs.Words.{list_text, comma};

use crate::prints::Prints;
use crate::texts::table_text;
use fleet_plan::Subcompaction;
use fleet_rows::{JobList, Ulid};
use fleet_tree::{SsTableHandle, TableList};
use std::alloc::{AllocError, Global};

fn joined(alloc: Global, words: &[String], separator: &str) -> Result<String, AllocError>
    requires { length words.now ≢ 0 }
    ensures { IfOk result (λ text. (c : ℕ)
        → separator.now ≡ c ∷ [] → string_bytes text ≡ list_text c (map string_bytes words.now)) }
{
    words.join(alloc, separator)
}

/// Prints words with commas between them.
pub fn listed(alloc: Global, words: &[String]) -> Result<String, AllocError>
    ensures { IfOk result
        (λ text. string_bytes text ≡ list_text comma (map string_bytes words.now)) }
{
    if words.is_empty() {
        return String::from_str(alloc, "-");
    }
    joined(alloc, words, ",")
}

// Appends the separator and the text of an item.
fn append_next<T: Prints>(
    alloc: Global,
    separator: &str,
    item: &T,
    out: &mut String,
) -> Result<(), AllocError>
    ensures { OnOk result
        (string_bytes out.new ≡ string_bytes out.old ++ separator.now ++ T.text item.now) }
{
    out.push_str(separator)?;
    item.print(alloc, out)
}

// Prints the items with the separator between each two.
fn between_each<T: Prints>(
    alloc: Global,
    separator: &str,
    items: &[T],
) -> Result<String, AllocError>
    ensures { IfOk result (λ text. (c : ℕ) → separator.now ≡ c ∷ []
        → string_bytes text ≡ join_with_byte c (map T.text items.now)) }
{
    let mut out = String::new(alloc);
    let Some((first, others)) = items.split_first() else {
        return Ok(out);
    };
    first.print(alloc, &mut out)?;
    'items: for item in others {
        append_next(alloc, separator, item, &mut out)?;
    }
    Ok(out)
}

/// Prints items with commas between them.
pub(crate) fn listed_each<T: Prints>(alloc: Global, items: &[T]) -> Result<String, AllocError>
    ensures { IfOk result
        (λ text. string_bytes text ≡ list_text comma (map T.text items.now)) }
{
    if items.is_empty() {
        return String::from_str(alloc, "-");
    }
    between_each(alloc, ",", items)
}

/// Prints items with semicolons between them.
pub(crate) fn listed_each_apart<T: Prints>(alloc: Global, items: &[T]) -> Result<String, AllocError>
    ensures { IfOk result
        (λ text. string_bytes text ≡ list_text semicolon (map T.text items.now)) }
{
    if items.is_empty() {
        return String::from_str(alloc, "-");
    }
    between_each(alloc, ";", items)
}

/// Prints ranges, each as the list of its tables, with bars between them.
pub(crate) fn listed_ranges<T: Prints>(alloc: Global, ranges: &[T]) -> Result<String, AllocError>
    ensures { IfOk result
        (λ text. string_bytes text ≡ join_with_byte bar (map T.text ranges.now)) }
{
    between_each(alloc, "|", ranges)
}

pub fn jobs_text(alloc: Global, jobs: &[Ulid]) -> Result<String, AllocError>
    ensures { IfOk result (λ text. string_bytes text ≡ replies.jobs_text jobs.now) }
{
    listed_each(alloc, jobs)
}

pub fn tables_text(alloc: Global, tables: &[Ulid]) -> Result<String, AllocError>
    ensures { IfOk result (λ text. string_bytes text ≡ replies.tables_text tables.now) }
{
    let mut words = Vec::new(alloc);
    'tables: for table in tables {
        words.push(table_text(alloc, *table)?)?;
    }
    listed(alloc, &words)
}

/// Prints the names of tables, without their numbers of rows.
pub fn names_text(alloc: Global, tables: &[SsTableHandle]) -> Result<String, AllocError>
    ensures { IfOk result (λ text. string_bytes text ≡ replies.tables_text (table_ids tables.now)) }
{
    let mut words = Vec::new(alloc);
    'tables: for table in tables {
        words.push(table_text(alloc, table.id)?)?;
    }
    listed(alloc, &words)
}

impl Prints for TableList {
    ghost text = { λ tables. replies.tables_text (table_ids tables) };

    fn print(&self, alloc: Global, out: &mut String) -> Result<(), AllocError> {
        out.push_str(names_text(alloc, self.as_slice())?.as_str())
    }
}

impl Prints for JobList {
    ghost text = { replies.tables_text };

    fn print(&self, alloc: Global, out: &mut String) -> Result<(), AllocError> {
        out.push_str(tables_text(alloc, self.as_slice())?.as_str())
    }
}

impl Prints for Subcompaction {
    ghost text = { λ part. replies.tables_text (table_ids part.output_ssts) };

    fn print(&self, alloc: Global, out: &mut String) -> Result<(), AllocError> {
        out.push_str(names_text(alloc, self.output_ssts())?.as_str())
    }
}
