//! Prints the single items of lists in replies.

ghost use Rattle.std.specs.Prelude.{◌≡◌, ◌++◌, IfOk, OnOk, decimal, string_bytes};
ghost use Rattle.fleet_model.specs.Jobs as jobs;
ghost use Rattle.fleet_rows.specs.Row.{content_of, row_of};
ghost use Rattle.script_model.specs.Replies as replies;
ghost use Rattle.script_model.specs.Words as words;
ghost use Rattle.fleet_text.specs.Lines.{node_of};
ghost use Rattle.fleet_text.specs.Places as places;
ghost use Rattle.fleet_text.specs.Printed as printed;

use crate::node::NodeName;
use crate::prints::Prints;
use fleet_rows::{DRAWN_BASE, RowEntry, Ulid, ValueDeletable};
use fleet_tree::SsTableHandle;
use std::alloc::{AllocError, Global};

/// Prints bytes in lower-case hexadecimal digits, or `-` for no bytes.
pub fn bytes_text(alloc: Global, bytes: &[u8]) -> Result<String, AllocError>
    ensures { IfOk result (λ text. string_bytes text ≡ words.bytes_text bytes.now) }
{
    if bytes.is_empty() {
        return String::from_str(alloc, "-");
    }
    hex::encode(alloc, bytes)
}

/// Prints a job's number in decimal digits.
pub fn job_text(alloc: Global, job: Ulid) -> Result<String, AllocError>
    ensures { IfOk result (λ text. string_bytes text ≡ decimal (jobs.number_of job)) }
{
    job.number().to_string(alloc)
}

/// Appends a job's number in decimal digits.
pub fn append_job(job: Ulid, out: &mut String) -> Result<(), AllocError>
    ensures { OnOk result
        (string_bytes out.new ≡ string_bytes out.old ++ decimal (jobs.number_of job)) }
{
    out.write(job.number())
}

// Appends a drawn table as `t` and its number, or a flush's table as `l` and the flush's name.
fn append_table(table: Ulid, out: &mut String) -> Result<(), AllocError>
    ensures { OnOk result
        (string_bytes out.new ≡ string_bytes out.old ++ replies.table_text table) }
{
    let number = table.number();
    if number >= DRAWN_BASE {
        return append_lettered("t", number - DRAWN_BASE, out);
    }
    // The id of a flush's table is the flush's name.
    append_lettered("l", whole_id(table), out)
}

/// Prints a drawn table as `t` and its number, or a flush's table as `l` and the flush's name.
pub fn table_text(alloc: Global, table: Ulid) -> Result<String, AllocError>
    ensures { IfOk result (λ text. string_bytes text ≡ replies.table_text table) }
{
    let mut text = String::new(alloc);
    append_table(table, &mut text)?;
    Ok(text)
}

/// The id as one number.
pub fn whole_id(id: Ulid) -> u128
    ensures { result ≡ id }
{
    id.moment_ms() as u128 * (1 << 80) + id.number()
}

impl Prints for Ulid {
    ghost text = { λ job. decimal (jobs.number_of job) };

    fn print(&self, alloc: Global, out: &mut String) -> Result<(), AllocError> {
        append_job(*self, out)
    }
}

impl Prints for SsTableHandle {
    ghost text = { λ table. replies.counted_text (table.id, table.rows) };

    fn print(&self, alloc: Global, out: &mut String) -> Result<(), AllocError> {
        append_table(self.id, out)?;
        append_number(self.rows, out)
    }
}

impl Prints for NodeName {
    ghost text = { λ node. words.node_text (node_of node) };

    fn print(&self, alloc: Global, out: &mut String) -> Result<(), AllocError> {
        match self {
            NodeName::L0(name) => append_lettered("l", *name as u128, out),
            NodeName::Run(id) => append_lettered("r", *id as u128, out),
        }
    }
}

impl Prints for (Ulid, u8) {
    ghost text = { replies.rule_text };

    fn print(&self, alloc: Global, out: &mut String) -> Result<(), AllocError> {
        append_job(self.0, out)?;
        append_number(u64::from(self.1), out)
    }
}

impl Prints for (u64, u8) {
    ghost text = { places.place_text };

    fn print(&self, alloc: Global, out: &mut String) -> Result<(), AllocError> {
        out.write(self.0)?;
        append_number(u64::from(self.1), out)
    }
}

impl Prints for RowEntry {
    ghost text = { λ row. words.row_text (row_of row) };

    fn print(&self, alloc: Global, out: &mut String) -> Result<(), AllocError> {
        append_row(alloc, self, out)
    }
}

// Appends a letter and a number.
fn append_lettered(letter: &str, number: u128, out: &mut String) -> Result<(), AllocError>
    ensures { OnOk result
        (string_bytes out.new ≡ string_bytes out.old ++ letter.now ++ decimal number) }
{
    out.push_str(letter)?;
    out.write(number)
}

/// Prints a letter and a number.
pub fn lettered(alloc: Global, letter: &str, number: u128) -> Result<String, AllocError>
    ensures { IfOk result (λ text. string_bytes text ≡ letter.now ++ decimal number) }
{
    let mut text = String::new(alloc);
    append_lettered(letter, number, &mut text)?;
    Ok(text)
}

fn kind_text(value: &ValueDeletable) -> &'static str
    ensures { result.now ≡ words.kind_text (content_of value.now) }
{
    match value {
        ValueDeletable::Value(_) => "v",
        ValueDeletable::Merge(_) => "m",
        ValueDeletable::Tombstone => "t",
    }
}

/// Appends bytes in lower-case hexadecimal digits, or `-` for no bytes.
pub fn append_bytes(alloc: Global, bytes: &[u8], out: &mut String) -> Result<(), AllocError>
    ensures { OnOk result
        (string_bytes out.new ≡ string_bytes out.old ++ words.bytes_text bytes.now) }
{
    out.push_str(bytes_text(alloc, bytes)?.as_str())
}

// Appends a colon, the letter of the kind, a colon, and the bytes of a value or an operand.
fn append_content(alloc: Global, value: &ValueDeletable, out: &mut String) -> Result<(), AllocError>
    ensures { OnOk result (string_bytes out.new ≡ string_bytes out.old
        ++ printed.content_fields (content_of value.now)) }
{
    out.push_str(":")?;
    out.push_str(kind_text(value))?;
    out.push_str(":")?;
    match value {
        ValueDeletable::Value(bytes) | ValueDeletable::Merge(bytes) => {
            append_bytes(alloc, bytes, out)
        }
        ValueDeletable::Tombstone => out.push_str("-"),
    }
}

// Appends a colon and a number.
fn append_number(number: u64, out: &mut String) -> Result<(), AllocError>
    ensures { OnOk result
        (string_bytes out.new ≡ string_bytes out.old ++ printed.field (decimal number)) }
{
    out.push_str(":")?;
    out.write(number)
}

// Appends a colon and a time stamp in decimal digits, or a colon and `-` if there is none.
fn append_stamp(stamp: Option<i64>, out: &mut String) -> Result<(), AllocError>
    ensures { OnOk result
        (string_bytes out.new ≡ string_bytes out.old ++ printed.field (words.stamp_text stamp)) }
{
    out.push_str(":")?;
    match stamp {
        Some(stamp) => out.write(stamp),
        None => out.push_str("-"),
    }
}

// Appends a row: key, kind, value, sequence and two time stamps, with colons between them.
fn append_row(alloc: Global, row: &RowEntry, out: &mut String) -> Result<(), AllocError>
    ensures { OnOk result
        (string_bytes out.new ≡ string_bytes out.old ++ words.row_text (row_of row.now)) }
{
    append_bytes(alloc, &row.key, out)?;
    append_content(alloc, &row.value, out)?;
    append_number(row.seq, out)?;
    append_stamp(row.create_ts, out)?;
    append_stamp(row.expire_ts, out)
}
