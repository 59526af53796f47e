// Looking ahead, calls that come too early, and iterators without rows.
use crate::spelt_rows::{are_spelt, given, list, merge};
use fleet_fold::{AppendOperator, MERGE_OPERATOR_OPERANDS, MergeOperatorIterator};
use fleet_iter::{
    EmptyIterator, ListIterator, PeekingIterator, ResumingIterator, RowEntryIterator,
};
use fleet_rows::SlateDBError;
use std::alloc::Global;

// The sequence of the row that a look shows.
fn looked(alloc: Global, list: &mut PeekingIterator<ListIterator>) -> Option<u64> {
    match list.peek(alloc) {
        Ok(Some(row)) => Some(row.seq),
        _ => None,
    }
}

// The sequence of the row that is given next.
fn taken(alloc: Global, list: &mut PeekingIterator<ListIterator>) -> Option<u64> {
    match list.next(alloc) {
        Ok(Some(row)) => Some(row.seq),
        _ => None,
    }
}

#[test]
fn a_peek_keeps_the_rows_after(rt: HostRuntime) {
    let list = list(rt.alloc(), "a:v:-:4,a:v:-:3").expect(&rt, "rows");
    let mut list = PeekingIterator::new(list);
    assert!(rt; looked(rt.alloc(), &mut list) == Some(4));
    assert!(rt; looked(rt.alloc(), &mut list) == Some(4));
    assert!(rt; taken(rt.alloc(), &mut list) == Some(4));
    assert!(rt; looked(rt.alloc(), &mut list) == Some(3));
    assert!(rt; taken(rt.alloc(), &mut list) == Some(3));
    assert!(rt; list.next(rt.alloc()).expect(&rt, "an end").is_none());
}

fn is_unready<A: Drop>(answer: Result<A, SlateDBError>) -> bool {
    matches!(answer, Err(SlateDBError::IteratorNotInitialized))
}

#[test]
fn folding_is_made_ready_first(rt: HostRuntime) {
    let merge = merge(rt.alloc(), "k:m:2:2,k:v:1:1").expect(&rt, "rows");
    let mut folding = MergeOperatorIterator::new(&AppendOperator, merge, true, None);
    assert!(rt; is_unready(folding.seek(rt.alloc(), b"l".as_slice())));
    assert!(rt; is_unready(folding.next(rt.alloc())));
    folding.init(rt.alloc()).expect(&rt, "a start");
    assert!(rt; are_spelt(rt.alloc(), given(rt.alloc(), &mut folding), "k:v:12:2"));
    assert!(rt; MERGE_OPERATOR_OPERANDS == "slatedb.merge_operator_operands");
}

#[test]
fn none_are_given(rt: HostRuntime) {
    let mut none = EmptyIterator::new();
    none.init(rt.alloc()).expect(&rt, "a start");
    none.seek(rt.alloc(), b"a").expect(&rt, "a place");
    assert!(rt; none.next(rt.alloc()).expect(&rt, "an end").is_none());
    let all = ResumingIterator::new(rt.alloc(), none, None).expect(&rt, "a start");
    assert!(rt; all.start().is_none());
}
