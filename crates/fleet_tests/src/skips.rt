// Merges that drop the rows of a key.

use crate::spelt_rows::{are_spelt, given, merge};
use fleet_iter::RowEntryIterator;
use fleet_rows::{RowEntry, SlateDBError};
use std::alloc::Global;

// The rows that a merge of lists has left once it has given so many rows, and then has dropped those
// of a key. Before `init` the merge must say that it is not initialised.
fn left(
    alloc: Global,
    lists: &str,
    given_before: u64,
    key: &str,
) -> Result<Vec<RowEntry>, SlateDBError> {
    let mut merge = merge(alloc, lists)?.with_dedup(false);
    let early = merge.skip_key(alloc, key.as_bytes());
    if !matches!(early, Err(SlateDBError::IteratorNotInitialized)) {
        return Err(SlateDBError::InvalidDBState);
    }
    merge.init(alloc)?;
    'given: for _ in 0..given_before {
        let _ = merge.next(alloc)?;
    }
    merge.skip_key(alloc, key.as_bytes())?;
    given(alloc, &mut merge)
}

// The key has rows in several sources, at the end of all rows, before others of its source, or none
// at the front.
#[test]
fn merges_skip_a_key(rt: HostRuntime) {
    let three = "a:v:9:9,a:v:6:6,a:v:5:5,b:v:1:1|a:m:8:8,b:v:2:2|a:t:-:3";
    let cases = [
        (three, 0, "a", "b:v:2:2,b:v:1:1"),
        (three, 1, "a", "b:v:2:2,b:v:1:1"),
        (three, 4, "a", "b:v:2:2,b:v:1:1"),
        (three, 5, "b", "-"),
        (three, 4, "b", "a:t:-:3,b:v:2:2,b:v:1:1"),
        (three, 5, "aa", "b:v:2:2,b:v:1:1"),
        ("a:v:2:2|a:v:1:1", 0, "a", "-"),
        ("-|-", 0, "a", "-"),
        ("b:v:2:2|c:v:1:1", 0, "a", "b:v:2:2,c:v:1:1"),
    ];
    for (lists, given_before, key, wanted) in cases {
        let rows = left(rt.alloc(), lists, given_before, key);
        assert!(rt;
            are_spelt(rt.alloc(), rows, wanted),
            "{lists} {given_before} {key}"
        );
    }
}

// Whether the first row that a merge of lists gives has a key.
fn begins(alloc: Global, lists: &str, key: &str) -> Result<bool, SlateDBError> {
    let mut merge = merge(alloc, lists)?;
    merge.init(alloc)?;
    Ok(merge.begins_with(key.as_bytes()))
}

#[test]
fn merges_begin_with_a_key(rt: HostRuntime) {
    let cases = [
        ("b:v:2:2|a:v:1:1", "a", true),
        ("b:v:2:2|a:v:1:1", "b", false),
        ("-|b:v:2:2", "b", true),
        ("-|-", "b", false),
    ];
    for (lists, key, wanted) in cases {
        let found = begins(rt.alloc(), lists, key).expect(&rt, "rows");
        assert!(rt; found == wanted, "{lists} {key}");
    }
}
