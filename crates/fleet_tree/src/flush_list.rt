//! The flushes of a tree, in chunks that copies share.

ghost use Rattle.std.specs.Prelude.{◌≡◌, ◌↔◌, ◌==◌, ◌+◌, ◌++◌, [], ◌∷◌, find, fold, length, not, if◌then◌else◌, take_while, IsTrue, OnOk, OnErr, IfOk, IsOkUnless};
ghost use Rattle.std.specs.List.{flat_map};
ghost use Rattle.std.specs.Option.{option_copied};
ghost use Rattle.std.specs.Cmp.Lexicographic.{pointwise, lists_per, lists_equiv};
ghost use Rattle.row_model.specs.Written.Sizes.{saturated_sum};
ghost use Rattle.fleet_tree.specs.contracts.view.SsTableViewEq.TheImpl.Laws as view_equiv;
ghost use Rattle.fleet_tree.specs.contracts.view.SsTableViewPartialEq.TheImpl.Laws as view_eq;

use crate::items::are_equal;
use crate::{Items, SharedList, SsTableView, ViewList};
use fleet_rows::{Copies, SlateDBError, Ulid};
use std::alloc::{AllocError, Global};
use std::marker::Model;

// The most views that a chunk has.
const CHUNK: u64 = 32;

/// The flushes of a tree, newest first. Contracts see the list of the views. A copy shares the
/// chunks, so one more flush copies a chunk, and no view of the others.
#[derive(Debug, Drop)]
pub struct FlushList {
    alloc: Global,
    newest: ViewList,
    older: SharedList<ViewList>,
}

impl Model for FlushList {
    ghost use Rattle.std.specs.Prelude.{List, ◌++◌};
    ghost use Rattle.std.specs.List.{flat_map};
    ghost use Rattle.fleet_tree.specs.Views.{View};

    ghost Value = { List View };

    ghost view = { λ l. l.newest ++ flat_map (λ chunk. chunk) l.older };
}

impl FlushList {
    /// No flushes. It takes no memory.
    pub fn new(alloc: Global) -> FlushList
        ensures { result ≡ [] }
    {
        FlushList {
            alloc,
            newest: ViewList::new(alloc),
            older: SharedList::new(alloc),
        }
    }

    /// A list of these views, newest first.
    pub fn from_vec(alloc: Global, views: Vec<SsTableView>) -> Result<FlushList, SlateDBError>
        ensures list { IfOk result (λ list. list ≡ views.items) }
        ensures memory { IsOkUnless result SlateDBError.Memory }
    {
        let mut list = FlushList::new(alloc);
        let mut left = views;
        'left: while let Some(view) = left.pop() {
            list.push_front(view)?;
        }
        Ok(list)
    }

    /// The number of flushes. It stops at `u64::MAX`.
    pub fn len(&self) -> u64
        ensures { result ≡ saturated_sum (length self.now) }
    {
        with_chunk(count(self.older.as_slice()), &self.newest)
    }

    /// Whether there are no flushes.
    pub fn is_empty(&self) -> bool
        ensures { IsTrue result ↔ (self.now ≡ []) }
    {
        self.iter().next().is_none()
    }

    /// The flushes, newest first.
    pub fn iter(&self) -> Views<'_>
        ensures { result ≡ self.now }
    {
        Items::of_chunks(self.newest.as_slice(), self.older.as_slice())
    }

    /// The newest flush with this id, if one has it.
    pub fn with_id(&self, id: Ulid) -> Option<&SsTableView>
        ensures { option_copied result ≡ find (λ view. view.id == id) self.now }
    {
        'views: for view in self.iter() {
            if view.id == id {
                return Some(view);
            }
        }
        None
    }

    /// Puts a flush in front. If out of memory, it is dropped.
    pub fn push_front(&mut self, view: SsTableView) -> Result<(), SlateDBError>
        ensures ok { OnOk result (self.new ≡ view ∷ self.old) }
        ensures err { OnErr result (self.new ≡ self.old) }
        ensures memory { IsOkUnless result SlateDBError.Memory }
    {
        if self.newest.len() < CHUNK {
            return self.newest.insert(0, view);
        }
        let chunk = self.newest.clone()?;
        let newest = one(self.alloc, view)?;
        self.older.insert(0, chunk)?;
        self.newest = newest;
        Ok(())
    }

    /// Puts a flush at the end: in the newest chunk if that is the only one and has room, and else
    /// in a chunk of its own. If out of memory, it is dropped.
    pub fn push(&mut self, view: SsTableView) -> Result<(), SlateDBError>
        ensures ok { OnOk result (self.new ≡ self.old ++ view ∷ []) }
        ensures err { OnErr result (self.new ≡ self.old) }
        ensures memory { IsOkUnless result SlateDBError.Memory }
    {
        if self.older.is_empty() && self.newest.len() < CHUNK {
            return self.newest.push(view);
        }
        let chunk = one(self.alloc, view)?;
        self.older.push(chunk)
    }

    /// The flushes before the first one with this id, or all of them if none has it. The list
    /// shares its chunks with this one, but for the last.
    pub fn before(&self, id: Ulid) -> Result<FlushList, SlateDBError>
        ensures list { IfOk result
            (λ list. list ≡ take_while (λ view. not (view.id == id)) self.now) }
        ensures memory { IsOkUnless result SlateDBError.Memory }
    {
        let newest = part_before(&self.newest, id)?;
        let is_cut = newest.len() < self.newest.len();
        let older = chunks_after(self.alloc, is_cut, self.older.as_slice(), id)?;
        Ok(FlushList {
            alloc: self.alloc,
            newest,
            older: SharedList::from_vec(self.alloc, older)?,
        })
    }

    /// A copy, which shares the chunks.
    pub fn clone(&self) -> Result<FlushList, SlateDBError>
        ensures copy { IfOk result (λ copy. copy ≡ self.now) }
        ensures memory { IsOkUnless result SlateDBError.Memory }
    {
        Ok(Clone::clone(self)?)
    }
}

// The number of views in these chunks. It stops at `u64::MAX`.
fn count(chunks: &[ViewList]) -> u64
    ensures { result ≡ fold (λ count chunk. saturated_sum (count + length chunk)) 0 chunks.now }
{
    chunks.iter().fold(0, with_chunk)
}

fn with_chunk(count: u64, chunk: &ViewList) -> u64
    ensures { result ≡ saturated_sum (count + length chunk.now) }
{
    count.saturating_add(chunk.len())
}

// A chunk of one view.
fn one(alloc: Global, view: SsTableView) -> Result<ViewList, SlateDBError>
    ensures chunk { IfOk result (λ chunk. chunk ≡ view ∷ []) }
    ensures memory { IsOkUnless result SlateDBError.Memory }
{
    let mut chunk = ViewList::new(alloc);
    chunk.push(view)?;
    Ok(chunk)
}

// How many views come before the first one with this id.
fn count_before(views: &[SsTableView], id: Ulid) -> usize
    ensures { result ≡ length (take_while (λ view. not (view.id == id)) views.now) }
{
    views.iter().take_while(|view| view.id != id).count()
}

// The views of a chunk before the first one with this id, or the chunk itself if none has it.
fn part_before(chunk: &ViewList, id: Ulid) -> Result<ViewList, SlateDBError>
    ensures part { IfOk result
        (λ part. part ≡ take_while (λ view. not (view.id == id)) chunk.now) }
    ensures memory { IsOkUnless result SlateDBError.Memory }
{
    let count = count_before(chunk.as_slice(), id) as u64;
    if count < chunk.len() {
        chunk.first(count)
    } else {
        chunk.clone()
    }
}

// The same of the chunks after one that was cut or was not: none if it was.
fn chunks_after(
    alloc: Global,
    is_cut: bool,
    chunks: &[ViewList],
    id: Ulid,
) -> Result<Vec<ViewList>, SlateDBError>
    ensures chunks { IfOk result (λ after. flat_map (λ chunk. chunk) after.items
        ≡ (if is_cut then []
        else take_while (λ view. not (view.id == id)) (flat_map (λ chunk. chunk) chunks.now))) }
    ensures memory { IsOkUnless result SlateDBError.Memory }
{
    if is_cut {
        Ok(Vec::new(alloc))
    } else {
        chunks_before(alloc, chunks, id)
    }
}

// The chunks of the views before the first one with this id.
fn chunks_before(
    alloc: Global,
    chunks: &[ViewList],
    id: Ulid,
) -> Result<Vec<ViewList>, SlateDBError>
    ensures chunks { IfOk result (λ before. flat_map (λ chunk. chunk) before.items
        ≡ take_while (λ view. not (view.id == id)) (flat_map (λ chunk. chunk) chunks.now)) }
    ensures memory { IsOkUnless result SlateDBError.Memory }
{
    let mut before = Vec::new(alloc);
    'chunks: for chunk in chunks {
        let part = part_before(chunk, id)?;
        let is_cut = part.len() < chunk.len();
        before.push(part)?;
        if is_cut {
            return Ok(before);
        }
    }
    Ok(before)
}

impl Clone for FlushList {
    ghost is_clone = { λ l copy. copy ≡ l };

    fn clone(&self) -> Result<FlushList, AllocError> {
        Ok(FlushList {
            alloc: self.alloc,
            newest: Clone::clone(&self.newest)?,
            older: Clone::clone(&self.older)?,
        })
    }
}

impl Copies for FlushList {
    fn copied(&self) -> Result<FlushList, AllocError> {
        Clone::clone(self)
    }
}

impl PartialEq for FlushList {
    ghost eq = { pointwise ⟦<SsTableView as PartialEq>⟧.eq };

    ghost laws = { lists_per view_eq.laws-law };

    fn eq(&self, other: &Self) -> bool {
        are_equal(self.iter(), other.iter())
    }
}

impl Eq for FlushList {
    ghost laws = { lists_equiv view_equiv.laws-law };
}

/// An iterator over views: the flushes of a tree, or the tables of a run.
pub type Views<'a> = Items<'a, SsTableView>;
