//! Lists whose copies share their items.

ghost use Rattle.std.specs.Prelude.{◌≡◌, ◌↔◌, ◌≤◌, ◌<◌, ◌+◌, ◌++◌, [], ◌∷◌, drop, length, slice_get, slice_set, take, IsTrue, OnOk, OnErr, IfOk, IfSome, IsOkUnless};
ghost use Rattle.std.specs.Option.{option_copied};
ghost use Rattle.std.specs.Cmp.Lexicographic.{pointwise, lists_per, lists_equiv};
ghost use Rattle.fleet_tree.specs.Changes.{changed_segment};
ghost use Rattle.fleet_tree.specs.Lists.{spliced};

use crate::{BlockMeta, LsmTreeState, SsTableHandle, SsTableView, Tracked, TreeChange};
use bytes::Bytes;
use fleet_rows::{Copies, ListOf, SlateDBError};
use std::alloc::{AllocError, Global};
use std::marker::Model;
use std::sync::Arc;

/// A list of items. Contracts see the list. A copy shares the items until one of the two lists
/// changes.
#[derive(Debug, Drop)]
pub struct SharedList<T> {
    alloc: Global,
    items: Option<Arc<ListOf<T>>>,
}

impl<T> Model for SharedList<T> {
    ghost use Rattle.std.specs.Prelude.{List};
    ghost use Rattle.std.specs.Coded.{coded_list};
    ghost use Rattle.fleet_tree.specs.Lists.{items_of};

    ghost Value = { List T };

    ghost coded = { coded_list T.code };

    ghost view = { λ l. items_of l.items };
}

impl<T: Drop> SharedList<T> {
    /// An empty list. It takes no memory.
    pub fn new(alloc: Global) -> Self
        ensures { result ≡ [] }
    {
        SharedList { alloc, items: None }
    }

    /// A list that takes over these items. No other list shares them yet.
    pub fn from_vec(alloc: Global, items: Vec<T>) -> Result<Self, SlateDBError>
        ensures list { IfOk result (λ list. list ≡ items.items) }
        ensures memory { IsOkUnless result SlateDBError.Memory }
    {
        let items = Arc::new(alloc, ListOf::from_vec(items))?;
        Ok(SharedList {
            alloc,
            items: Some(items),
        })
    }

    /// The number of items.
    pub fn len(&self) -> u64
        ensures { result ≡ length self.now }
    {
        self.as_slice().len() as u64
    }

    /// Whether the list has no items.
    pub fn is_empty(&self) -> bool
        ensures { IsTrue result ↔ (self.now ≡ []) }
    {
        self.as_slice().is_empty()
    }

    /// The item at this place, counted from 0.
    pub fn get(&self, place: u64) -> Option<&T>
        ensures { option_copied result ≡ slice_get self.now place }
    {
        self.as_slice().get(place as usize)
    }

    /// The items as a slice.
    pub fn as_slice(&self) -> &[T]
        ensures { result.now ≡ self.now }
    {
        match &self.items {
            Some(items) => items.as_slice(),
            None => &[],
        }
    }

    /// A copy, which shares the items.
    pub fn clone(&self) -> Result<SharedList<T>, SlateDBError>
        ensures copy { IfOk result (λ copy. copy ≡ self.now) }
        ensures memory { IsOkUnless result SlateDBError.Memory }
    {
        Ok(Clone::clone(self)?)
    }
}

impl<T: Copies + Drop> SharedList<T> {
    /// A list of copies of the first `count` items. It does not share this list's storage.
    pub fn first(&self, count: u64) -> Result<SharedList<T>, SlateDBError>
        requires { count ≤ length self.now }
        ensures list { IfOk result (λ list. list ≡ take count self.now) }
        ensures memory { IsOkUnless result SlateDBError.Memory }
    {
        let items = copies(self.alloc, &self.as_slice()[..count as usize])?;
        SharedList::from_vec(self.alloc, items)
    }

    /// Adds an item at the end. If out of memory, the item is dropped.
    pub fn push(&mut self, item: T) -> Result<(), SlateDBError>
        ensures ok { OnOk result (self.new ≡ self.old ++ item ∷ []) }
        ensures err { OnErr result (self.new ≡ self.old) }
        ensures memory { IsOkUnless result SlateDBError.Memory }
    {
        match &mut self.items {
            Some(items) => Arc::make_mut(items)?.push(item),
            None => {
                self.items = Some(Arc::new(self.alloc, one(self.alloc, item)?)?);
                Ok(())
            }
        }
    }

    /// Puts an item in the place of another, counted from 0. The old item is dropped. If out of
    /// memory, the new item is dropped instead.
    pub fn replace(&mut self, place: u64, item: T) -> Result<(), SlateDBError>
        requires { place < length self.old }
        ensures ok { OnOk result (self.new ≡ slice_set self.old place item) }
        ensures err { OnErr result (self.new ≡ self.old) }
        ensures memory { IsOkUnless result SlateDBError.Memory }
    {
        match &mut self.items {
            Some(items) => {
                Arc::make_mut(items)?.replace(place, item);
                Ok(())
            }
            None => unreachable!(),
        }
    }

    /// Inserts an item before the one at this place, counted from 0, or at the end. If out of
    /// memory, the item is dropped.
    pub fn insert(&mut self, place: u64, item: T) -> Result<(), SlateDBError>
        requires { place ≤ length self.old }
        ensures ok { OnOk result (self.new ≡ take place self.old ++ item ∷ drop place self.old) }
        ensures err { OnErr result (self.new ≡ self.old) }
        ensures memory { IsOkUnless result SlateDBError.Memory }
    {
        match &mut self.items {
            Some(items) => Arc::make_mut(items)?.insert(place, item),
            None => {
                self.items = Some(Arc::new(self.alloc, one(self.alloc, item)?)?);
                Ok(())
            }
        }
    }

    /// Takes out the `count` items from a place on, counted from 0, and puts an item there if one is
    /// given. What is taken out is dropped. If out of memory, the given item is dropped instead.
    pub fn splice(
        &mut self,
        place: usize,
        count: usize,
        item: Option<T>,
    ) -> Result<(), SlateDBError>
        requires { place + count ≤ length self.old }
        ensures ok { OnOk result (self.new ≡ spliced place count item self.old) }
        ensures err { OnErr result (self.new ≡ self.old) }
        ensures memory { IsOkUnless result SlateDBError.Memory }
    {
        match &mut self.items {
            Some(items) => splice_list(Arc::make_mut(items)?, place, count, item),
            None => {
                if let Some(item) = item {
                    self.items = Some(Arc::new(self.alloc, one(self.alloc, item)?)?);
                }
                Ok(())
            }
        }
    }
}

impl<T: Copies + Drop> SharedList<SharedList<T>> {
    /// Takes out the `count` items from a place of a chunk on, and puts an item there if one is
    /// given. If no other list shares the chunks, none of them is copied. If out of memory, the
    /// given item is dropped.
    pub(crate) fn splice_chunk(
        &mut self,
        chunk: usize,
        place: usize,
        count: usize,
        item: Option<T>,
    ) -> Result<(), SlateDBError>
        requires within { chunk < length self.old }
        requires part { IfSome (slice_get self.old chunk) (λ c. place + count ≤ length c) }
        ensures ok { OnOk result (IfSome (slice_get self.old chunk)
            (λ c. self.new ≡ slice_set self.old chunk (spliced place count item c))) }
        ensures err { OnErr result (self.new ≡ self.old) }
        ensures memory { IsOkUnless result SlateDBError.Memory }
    {
        match &mut self.items {
            Some(items) => splice_listed(Arc::make_mut(items)?, chunk, place, count, item),
            None => unreachable!(),
        }
    }
}

impl SegmentList {
    /// Changes the tree of the segment at this place, counted from 0. If no other list shares the
    /// segments, none of them is copied. If out of memory, nothing changes.
    pub fn change_tree(&mut self, place: u64, change: TreeChange) -> Result<(), SlateDBError>
        requires within { place < length self.old }
        requires runs { IfSome (slice_get self.old place)
            (λ s. change.place + change.count ≤ length s.1.compacted) }
        ensures ok { OnOk result (IfSome (slice_get self.old place)
            (λ s. self.new ≡ slice_set self.old place (changed_segment change s))) }
        ensures err { OnErr result (self.new ≡ self.old) }
        ensures memory { IsOkUnless result SlateDBError.Memory }
    {
        match &mut self.items {
            Some(items) => change_listed(Arc::make_mut(items)?, place as usize, change),
            None => unreachable!(),
        }
    }
}

// Exchanges a part of the chunk at this place.
fn splice_listed<T: Copies + Drop>(
    list: &mut ListOf<SharedList<T>>,
    chunk: usize,
    place: usize,
    count: usize,
    item: Option<T>,
) -> Result<(), SlateDBError>
    requires within { chunk < length list.old }
    requires part { IfSome (slice_get list.old chunk) (λ c. place + count ≤ length c) }
    ensures ok { OnOk result (IfSome (slice_get list.old chunk)
        (λ c. list.new ≡ slice_set list.old chunk (spliced place count item c))) }
    ensures err { OnErr result (list.new ≡ list.old) }
    ensures memory { IsOkUnless result SlateDBError.Memory }
{
    let mut chunks = list.take().into_vec();
    let done = chunks[chunk].splice(place, count, item);
    *list = ListOf::from_vec(chunks);
    done
}

// Changes the tree of the segment at this place.
fn change_listed(
    list: &mut ListOf<(Bytes, LsmTreeState)>,
    place: usize,
    change: TreeChange,
) -> Result<(), SlateDBError>
    requires within { place < length list.old }
    requires runs { IfSome (slice_get list.old place)
        (λ s. change.place + change.count ≤ length s.1.compacted) }
    ensures ok { OnOk result (IfSome (slice_get list.old place)
        (λ s. list.new ≡ slice_set list.old place (changed_segment change s))) }
    ensures err { OnErr result (list.new ≡ list.old) }
    ensures memory { IsOkUnless result SlateDBError.Memory }
{
    let mut segments = list.take().into_vec();
    let done = segments[place].1.apply(change);
    *list = ListOf::from_vec(segments);
    done
}

// Takes out the `count` items from a place on, and puts an item there if one is given.
fn splice_list<T: Drop>(
    list: &mut ListOf<T>,
    place: usize,
    count: usize,
    item: Option<T>,
) -> Result<(), SlateDBError>
    requires { place + count ≤ length list.old }
    ensures ok { OnOk result (list.new ≡ spliced place count item list.old) }
    ensures err { OnErr result (list.new ≡ list.old) }
    ensures memory { IsOkUnless result SlateDBError.Memory }
{
    let mut items = list.take().into_vec();
    let done = splice_items(&mut items, place, count, item);
    *list = ListOf::from_vec(items);
    Ok(done?)
}

fn splice_items<T: Drop>(
    items: &mut Vec<T>,
    place: usize,
    count: usize,
    item: Option<T>,
) -> Result<(), AllocError>
    requires { place + count ≤ length items.old.items }
    ensures ok { OnOk result (items.new.items ≡ spliced place count item items.old.items) }
    ensures err { OnErr result (items.new.items ≡ items.old.items) }
{
    let Some(item) = item else {
        remove_items(items, place, count);
        return Ok(());
    };
    if count == 0 {
        return Ok(items.insert(place, item)?);
    }
    items[place] = item;
    remove_items(items, place + 1, count - 1);
    Ok(())
}

// Takes out the `count` items from a place on.
fn remove_items<T: Drop>(items: &mut Vec<T>, place: usize, count: usize)
    requires { place + count ≤ length items.old.items }
    ensures { items.new.items ≡ take place items.old.items ++ drop (place + count) items.old.items }
{
    'taken: for _ in 0..count {
        drop(items.remove(place));
    }
}

/// Copies of the items.
pub(crate) fn copies<T: Copies + Drop>(alloc: Global, items: &[T]) -> Result<Vec<T>, AllocError>
    ensures { IfOk result (λ copies. copies.items ≡ items.now) }
{
    let mut copies = Vec::new(alloc);
    'items: for item in items {
        copies.push(item.copied()?)?;
    }
    Ok(copies)
}

// A list of one item.
fn one<T: Drop>(alloc: Global, item: T) -> Result<ListOf<T>, SlateDBError>
    ensures list { IfOk result (λ list. list ≡ item ∷ []) }
    ensures memory { IsOkUnless result SlateDBError.Memory }
{
    let mut list = ListOf::new(alloc);
    list.push(item)?;
    Ok(list)
}

impl<T: Drop> Clone for SharedList<T> {
    ghost is_clone = { λ l copy. copy ≡ l };

    fn clone(&self) -> Result<SharedList<T>, AllocError> {
        let items = match &self.items {
            Some(items) => Some(Arc::try_clone(items)?),
            None => None,
        };
        Ok(SharedList {
            alloc: self.alloc,
            items,
        })
    }
}

impl<T: Drop> Copies for SharedList<T> {
    fn copied(&self) -> Result<SharedList<T>, AllocError> {
        Clone::clone(self)
    }
}

impl<T: PartialEq + Drop> PartialEq for SharedList<T> {
    ghost eq = { pointwise T.eq };

    ghost laws = { lists_per T.laws };

    fn eq(&self, other: &Self) -> bool {
        self.as_slice() == other.as_slice()
    }
}

impl<T: Eq + Drop> Eq for SharedList<T> {
    ghost laws = { lists_equiv T.Eq.laws };
}

/// The blocks of a table.
pub type BlockList = SharedList<BlockMeta>;

/// Descriptions of tables.
pub type TableList = SharedList<SsTableHandle>;

/// The tables that a job wrote: for each of its ranges a list, in the order of the ranges.
pub type OutputList = ListOf<TableList>;

/// The tables of a run, or a chunk of the flushes of a tree.
pub type ViewList = SharedList<SsTableView>;

/// The trees of segments, each with its prefix, by rising prefix.
pub type SegmentList = SharedList<(Bytes, LsmTreeState)>;

/// The flushes within the retention, in the order of their puts.
pub type TrackerList = SharedList<Tracked>;
