//! The heads of a merge, of which it gives the least.

ghost use Rattle.std.specs.Prelude.{◌≡◌, ◌+◌, ◌^◌, ◌<◌, ◌++◌, ◌∷◌, [], length, map, Some, None, if◌then◌else◌, slice_set, IfOk, IfErr, OnOk};
ghost use Rattle.std.specs.Option.{option_map};
ghost use Rattle.std.specs.List.{range_with_len};
ghost use Rattle.fleet_rows.specs.Row.{row_of};
ghost use Rattle.fleet_rows.specs.declared.errors.SlateDBError.TheVariants as SlateDBError;
ghost use Rattle.fleet_iter.specs.Merge.{best, found_row, has_key, hides, passes};
ghost use Rattle.fleet_iter.specs.Heads.{HeadRows, refilled_heads};
ghost use Rattle.fleet_iter.specs.Tracked.{row_bytes};

use crate::merge::hides;
use crate::tracked_bytes::row_bytes;
use crate::{IterationOrder, MergeIteratorHeapEntry};
use fleet_rows::{RowEntry, SlateDBError, same_key};
use std::alloc::Global;
use std::cmp::Reverse;
use std::collections::BinaryHeap;
use std::marker::Model;
use std::mem;

/// The next row of each source of a merge, if it has one. The rows are kept in a heap with the
/// least on top. Contracts see them by the places of their sources.
#[derive(Drop)]
pub(crate) struct Heads {
    order: IterationOrder,
    // Each in a box, so that the heap moves no row.
    entries: BinaryHeap<Reverse<Box<MergeIteratorHeapEntry>>>,
    // The number of sources.
    count: usize,
    alloc: Global,
}

impl Model for Heads {
    ghost use Rattle.std.specs.Prelude.{map};
    ghost use Rattle.fleet_iter.specs.Heads.{HeadRows, heads_of, AreHeads};
    ghost use Rattle.std.specs.BinaryHeap.{heap_items};

    ghost Value = { HeadRows };

    ghost view = { λ h. record {
      order = h.order;
      rows = heads_of h.count (map (λ e. record { 0 = e.0.value }) (heap_items h.entries));
    } };

    ghost invariant = { λ h.
        AreHeads h.order h.count (map (λ e. record { 0 = e.0.value }) (heap_items h.entries)) };
}

impl Heads {
    /// The heads of a merge in this order, before the first row of a source was read.
    pub(crate) fn new(alloc: Global, order: IterationOrder) -> Heads
        ensures { result ≡ record { order = order; rows = [] } }
    {
        Heads {
            order,
            entries: BinaryHeap::new(alloc),
            count: 0,
            alloc,
        }
    }

    /// The order of the merge.
    pub(crate) fn order(&self) -> IterationOrder
        ensures { result ≡ self.now.order }
    {
        self.order
    }

    /// The least head, with the place of its source. None if there is no head.
    #[inline]
    pub(crate) fn least(&self) -> Option<(usize, &RowEntry)>
        ensures { found_row result ≡ best self.now.order self.now.rows }
    {
        match self.entries.peek() {
            Some(Reverse(entry)) => Some((entry.index, &entry.row)),
            None => None,
        }
    }

    /// The bytes of the least head's key and value. None if there is no head.
    #[inline]
    pub(crate) fn least_bytes(&self) -> Option<u64>
        ensures { result
            ≡ option_map (λ p. row_bytes (row_of p.1)) (best self.now.order self.now.rows) }
    {
        match self.least() {
            Some((_, row)) => Some(row_bytes(row)),
            None => None,
        }
    }

    /// Whether there is a least head and the row hides it.
    pub(crate) fn least_is_hidden(&self, row: &RowEntry) -> bool
        ensures { result ≡ passes (hides (row_of row.now)) (best self.now.order self.now.rows) }
    {
        match self.least() {
            Some((_, other)) => hides(row, other),
            None => false,
        }
    }

    /// Whether there is a least head and it has this key.
    #[inline]
    pub(crate) fn least_has(&self, key: &[u8]) -> bool
        ensures { result ≡ passes (has_key key.now) (best self.now.order self.now.rows) }
    {
        match self.least() {
            Some((_, row)) => same_key(key, row.key.as_slice()),
            None => false,
        }
    }

    /// Adds the head of the next source. This may take memory.
    pub(crate) fn push(&mut self, head: Option<RowEntry>) -> Result<(), SlateDBError>
        requires { length self.old.rows + 1 < 2 ^ 64 }
        ensures ok { OnOk result
            (self.new ≡ record self.old { rows = self.old.rows ++ head ∷ [] }) }
        ensures err { IfErr result (λ e. e ≡ SlateDBError.Memory) }
        ensures order { self.new.order ≡ self.old.order }
    {
        let order = self.order;
        let index = self.count;
        self.count += 1;
        let Some(row) = head else {
            return Ok(());
        };
        let entry = Box::new(self.alloc, MergeIteratorHeapEntry { order, row, index })?;
        self.entries.push(Reverse(entry))?;
        Ok(())
    }

    /// Takes the least head in exchange for the next row of its source, if there is one.
    #[inline]
    pub(crate) fn swap_least(&mut self, head: &mut Option<RowEntry>)
        ensures taken { head.new ≡ option_map (λ p. p.1) (best self.old.order self.old.rows) }
        ensures heads { self.new ≡ record self.old
            { rows = refilled_heads (best self.old.order self.old.rows) head.old self.old.rows } }
    {
        match head {
            Some(row) => {
                if !self.exchange_least(row) {
                    *head = None;
                }
            }
            None => *head = self.remove_least(),
        }
    }

    // Takes the least head in exchange for a row of its source. The heap moves that row down once.
    // False if there is no head.
    #[inline]
    fn exchange_least(&mut self, row: &mut RowEntry) -> bool
        ensures taken { (if result then Some row.new else None)
            ≡ option_map (λ p. p.1) (best self.old.order self.old.rows) }
        ensures heads { self.new ≡ record self.old {
          rows
              = refilled_heads (best self.old.order self.old.rows) (Some row.old) self.old.rows;
        } }
    {
        let Some(mut least) = self.entries.peek_mut() else {
            return false;
        };
        mem::swap(&mut least.0.row, row);
        true
    }

    // Takes the least head, whose source has no row left.
    #[inline]
    fn remove_least(&mut self) -> Option<RowEntry>
        ensures taken { result ≡ option_map (λ p. p.1) (best self.old.order self.old.rows) }
        ensures heads { self.new ≡ record self.old
            { rows = refilled_heads (best self.old.order self.old.rows) None self.old.rows } }
    {
        let Some(Reverse(entry)) = self.entries.pop() else {
            return None;
        };
        Some(Box::into_inner(entry).row)
    }

    /// Takes all heads out, by the places of their sources. No source is left.
    pub(crate) fn take_rows(&mut self, alloc: Global) -> Result<Vec<Option<RowEntry>>, SlateDBError>
        ensures ok { IfOk result (λ rows. rows.items ≡ self.old.rows) }
        ensures left { OnOk result (self.new.rows ≡ []) }
        ensures err { IfErr result (λ e. e ≡ SlateDBError.Memory) }
        ensures order { self.new.order ≡ self.old.order }
    {
        let mut rows = no_rows(alloc, self.count)?;
        'entries: while let Some(Reverse(entry)) = self.entries.pop() {
            put_in_place(Box::into_inner(entry), &mut rows);
        }
        self.count = 0;
        Ok(rows)
    }

    /// Adds heads, those of the next sources. This may take memory.
    pub(crate) fn fill(&mut self, rows: Vec<Option<RowEntry>>) -> Result<(), SlateDBError>
        requires { self.old.rows ≡ [] }
        ensures ok { OnOk result (self.new ≡ record self.old { rows = rows.items }) }
        ensures err { IfErr result (λ e. e ≡ SlateDBError.Memory) }
        ensures order { self.new.order ≡ self.old.order }
    {
        'rows: for head in rows {
            self.push(head)?;
        }
        Ok(())
    }
}

// A list of so many places without a row.
fn no_rows(alloc: Global, count: usize) -> Result<Vec<Option<RowEntry>>, SlateDBError>
    ensures ok { IfOk result (λ rows. rows.items ≡ map (λ _. None) (range_with_len 0 count)) }
    ensures err { IfErr result (λ e. e ≡ SlateDBError.Memory) }
{
    let mut rows = Vec::with_capacity(alloc, count)?;
    'places: for _place in 0..count {
        rows.push(None)?;
    }
    Ok(rows)
}

// Puts the row of an entry at the place of its source.
fn put_in_place(entry: MergeIteratorHeapEntry, rows: &mut Vec<Option<RowEntry>>)
    requires { entry.index < length rows.old.items }
    ensures { rows.new.items ≡ slice_set rows.old.items entry.index (Some entry.row) }
{
    rows[entry.index] = Some(entry.row);
}
