// Iterators of several kinds in boxes.
ghost use Rattle.fleet_iter.specs.Iteration.{IsAlive};

use crate::spelt_rows::{are_spelt, given, list, merge};
use fleet_fold::{AppendOperator, MergeOperatorIterator, RetentionIterator};
use fleet_iter::{MergeIterator, PeekingIterator, RowEntryIterator, TrackedRowEntryIterator};
use fleet_rows::{RowEntry, Settings, SlateDBError};
use std::alloc::Global;

// The rows that a merge of three iterators gives. Before `init` the merge must say that it is not
// initialised.
fn merged_three<T: RowEntryIterator>(
    alloc: Global,
    one: T,
    two: T,
    three: T,
) -> Result<Vec<RowEntry>, SlateDBError>
    requires sound_one { T.sound one }
    requires sound_two { T.sound two }
    requires sound_three { T.sound three }
    requires alive_one { IsAlive (T.state one) }
    requires alive_two { IsAlive (T.state two) }
    requires alive_three { IsAlive (T.state three) }
{
    let mut sources = Vec::new(alloc);
    sources.push(one)?;
    sources.push(two)?;
    sources.push(three)?;
    let mut merge = MergeIterator::new(alloc, sources);
    if !matches!(merge.next(alloc), Err(SlateDBError::IteratorNotInitialized)) {
        return Err(SlateDBError::InvalidDBState);
    }
    merge.init(alloc)?;
    given(alloc, &mut merge)
}

#[test]
fn merges_boxed_kinds(rt: HostRuntime) {
    let older = list(rt.alloc(), "b:v:1:1,c:t:-:5").expect(&rt, "rows");
    let older: Box<dyn RowEntryIterator> = Box::new(rt.alloc(), older).expect(&rt, "memory");
    let newer = PeekingIterator::new(list(rt.alloc(), "b:m:3:7").expect(&rt, "rows"));
    let newer: Box<dyn RowEntryIterator> = Box::new(rt.alloc(), newer).expect(&rt, "memory");
    let merge = merge(rt.alloc(), "a:t:-:3|b:m:2:4").expect(&rt, "rows");
    let merge: Box<dyn RowEntryIterator> = Box::new(rt.alloc(), merge).expect(&rt, "memory");
    let merged = merged_three(rt.alloc(), older, newer, merge);
    let wanted = "a:t:-:3,b:m:3:7,b:m:2:4,b:v:1:1,c:t:-:5";
    assert!(rt; are_spelt(rt.alloc(), merged, wanted));
}

// The rows that an iterator gives, and the bytes that it counted.
fn counted<T: TrackedRowEntryIterator>(
    alloc: Global,
    iterator: T,
) -> Result<(Vec<RowEntry>, u64), SlateDBError>
    requires { T.sound iterator }
{
    let mut source = iterator;
    source.init(alloc)?;
    let rows = given(alloc, &mut source)?;
    Ok((rows, source.bytes_processed()))
}

#[test]
fn counts_in_a_box(rt: HostRuntime) {
    let merge = merge(rt.alloc(), "a:v:12:3,a:v:1:2|b:m:2:4").expect(&rt, "rows");
    let merge: Box<dyn TrackedRowEntryIterator> = Box::new(rt.alloc(), merge).expect(&rt, "memory");
    let (rows, bytes) = counted(rt.alloc(), merge).expect(&rt, "rows");
    assert!(rt; bytes == 7);
    assert!(rt; are_spelt(rt.alloc(), Ok(rows), "a:v:12:3,b:m:2:4"));
}

#[test]
fn folds_rows_of_a_box(rt: HostRuntime) {
    let list = list(rt.alloc(), "k:m:2:2,k:v:1:1").expect(&rt, "rows");
    let boxed: Box<dyn RowEntryIterator> = Box::new(rt.alloc(), list).expect(&rt, "memory");
    let mut folding = MergeOperatorIterator::new(&AppendOperator, boxed, true, None);
    folding.init(rt.alloc()).expect(&rt, "a start");
    assert!(rt; are_spelt(rt.alloc(), given(rt.alloc(), &mut folding), "k:v:12:2"));
}

#[test]
fn keeps_rows_of_a_box(rt: HostRuntime) {
    let list = list(rt.alloc(), "a:t:-:4,a:v:v1:2,a:v:v0:1").expect(&rt, "rows");
    let boxed: Box<dyn RowEntryIterator> = Box::new(rt.alloc(), list).expect(&rt, "memory");
    let settings = Settings {
        floor: 3,
        tick: 0,
        last_run: false,
        cut: 3,
    };
    let mut kept = RetentionIterator::new(rt.alloc(), boxed, settings);
    kept.init(rt.alloc()).expect(&rt, "a start");
    assert!(rt; are_spelt(rt.alloc(), given(rt.alloc(), &mut kept), "a:t:-:4,a:v:v1:2"));
}
