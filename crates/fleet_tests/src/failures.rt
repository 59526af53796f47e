// An iterator over other rows passes on their fault in the call in which it comes. After that it
// says that it has failed.
ghost use Rattle.std.specs.Prelude.{◌≡◌, None, true};
ghost use Rattle.fleet_iter.specs.Iteration.{AreRising};

use crate::failing::{before_fault, failing};
use crate::spelt_rows::are_spelt;
use bytes::Bytes;
use fleet_fold::{
    AppendOperator, CompactionFilter, CompactionFilterDecision, CompactionFilterIterator,
    MergeOperatorIterator, MergeOperatorRequiredIterator, RetentionIterator,
};
use fleet_iter::{MergeIterator, PeekingIterator, ResumingIterator, RowEntryIterator};
use fleet_rows::{CompactionFilterError, RowEntry, Settings, SlateDBError};
use std::alloc::Global;

const SPELT: &str = "a:m:-:3,a:v:-:2,b:v:-:1";

#[test]
fn a_list_fails(rt: HostRuntime) {
    let list = failing(rt.alloc(), SPELT).expect(&rt, "rows");
    assert!(rt; are_spelt(rt.alloc(), before_fault(rt.alloc(), list), SPELT));
}

#[test]
fn peeking_fails_as_its_rows(rt: HostRuntime) {
    let peeking = PeekingIterator::new(failing(rt.alloc(), SPELT).expect(&rt, "rows"));
    assert!(rt; are_spelt(rt.alloc(), before_fault(rt.alloc(), peeking), SPELT));
}

#[test]
fn resuming_fails_as_its_rows(rt: HostRuntime) {
    let list = failing(rt.alloc(), SPELT).expect(&rt, "rows");
    let resuming = ResumingIterator::new(rt.alloc(), list, None).expect(&rt, "a start");
    assert!(rt; are_spelt(rt.alloc(), before_fault(rt.alloc(), resuming), SPELT));
}

// Whether no iterator can be made that resumes after the sequence 2 of the key `a`, since the
// store has a fault.
fn resume_fails<T: RowEntryIterator>(alloc: Global, iterator: T) -> bool
    requires sound { T.sound iterator }
    requires alive { (T.state iterator).failure ≡ None }
    requires initialised { (T.state iterator).initialised ≡ true }
    requires rising { AreRising (T.state iterator).rows }
{
    let Ok(key) = Bytes::copy_from_slice(alloc, b"a") else {
        return false;
    };
    matches!(
        ResumingIterator::new(alloc, iterator, Some((key, 2))),
        Err(SlateDBError::StoreFault)
    )
}

#[test]
fn a_resume_fails_as_its_seek(rt: HostRuntime) {
    let list = failing(rt.alloc(), SPELT).expect(&rt, "rows");
    assert!(rt; resume_fails(rt.alloc(), list));
}

// The row that was read ahead is left by the seek. It is written already, and the fault comes
// after it.
#[test]
fn a_resume_fails_as_its_rows(rt: HostRuntime) {
    let list = failing(rt.alloc(), "a:v:-:3").expect(&rt, "rows");
    let mut peeking = PeekingIterator::new(list);
    peeking.look_ahead(rt.alloc()).expect(&rt, "a row");
    assert!(rt; resume_fails(rt.alloc(), peeking));
}

#[test]
fn a_merge_fails_as_its_sources(rt: HostRuntime) {
    let one = failing(rt.alloc(), SPELT).expect(&rt, "rows");
    let other = failing(rt.alloc(), "b:v:-:7,c:v:-:8,d:v:-:9").expect(&rt, "rows");
    let sources = vec![in rt.alloc(); one, other].expect(&rt, "memory");
    let merge = MergeIterator::new(rt.alloc(), sources);
    let given = before_fault(rt.alloc(), merge);
    assert!(rt; are_spelt(rt.alloc(), given, "a:m:-:3,a:v:-:2"));
}

// The rows that folding gives before the fault.
fn folded(alloc: Global, text: &str) -> Result<Vec<RowEntry>, SlateDBError> {
    let rows = failing(alloc, text)?;
    before_fault(
        alloc,
        MergeOperatorIterator::new(&AppendOperator, rows, true, None),
    )
}

#[test]
fn folding_fails_as_its_rows(rt: HostRuntime) {
    let cases = [
        ("-", "-"),
        ("k:v:1:1", "k:v:1:1"),
        ("k:m:2:2,k:m:1:1", "-"),
        ("k:m:2:2,k:v:1:1", "k:v:12:2"),
        ("j:m:2:2,k:v:1:1", "j:m:2:2,k:v:1:1"),
        ("j:m:2:2,k:m:1:1", "j:m:2:2"),
    ];
    for (text, wanted) in cases {
        let given = folded(rt.alloc(), text);
        assert!(rt; are_spelt(rt.alloc(), given, wanted), "{text}");
    }
}

#[test]
fn retention_fails_as_its_rows(rt: HostRuntime) {
    let settings = Settings {
        floor: 9,
        tick: 0,
        last_run: true,
        cut: 9,
    };
    let list = failing(rt.alloc(), "a:v:1:3,b:v:2:2,b:v:3:1").expect(&rt, "rows");
    let kept = RetentionIterator::new(rt.alloc(), list, settings);
    assert!(rt; are_spelt(rt.alloc(), before_fault(rt.alloc(), kept), "a:v:1:3"));
}

#[test]
fn required_rows_fail_as_the_rows(rt: HostRuntime) {
    let list = failing(rt.alloc(), "a:v:1:3,b:t:-:2").expect(&rt, "rows");
    let plain = MergeOperatorRequiredIterator::new(list);
    assert!(rt;
        are_spelt(
            rt.alloc(),
            before_fault(rt.alloc(), plain),
            "a:v:1:3,b:t:-:2"
        )
    );
}

// A filter that drops tombstones.
#[derive(Drop)]
struct WithoutDeleted {
    closed: bool,
}

impl CompactionFilter for WithoutDeleted {
    ghost use Rattle.std.specs.Prelude.{Ok, if◌then◌else◌};
    ghost use Rattle.row_model.specs.Rows.{is_tombstone};
    ghost use Rattle.fleet_fold.specs.declared.filter.CompactionFilterDecision.TheVariants as decision;

    ghost answers = { λ _ _ r.
        if is_tombstone r.content then Ok decision.Drop else Ok decision.Keep };

    ghost closing = { λ _ _. Ok tt };

    ghost is_closed = { λ f. f.closed };

    fn filter(
        &mut self,
        _alloc: Global,
        entry: &RowEntry,
    ) -> Result<CompactionFilterDecision, CompactionFilterError> {
        if entry.value.is_tombstone() {
            return Ok(CompactionFilterDecision::Drop);
        }
        Ok(CompactionFilterDecision::Keep)
    }

    fn on_compaction_end(&mut self, _alloc: Global) -> Result<(), CompactionFilterError> {
        self.closed = true;
        Ok(())
    }
}

#[test]
fn a_filter_fails_as_its_rows(rt: HostRuntime) {
    let list = failing(rt.alloc(), "a:t:-:3,b:v:2:2").expect(&rt, "rows");
    let left = CompactionFilterIterator::new(list, WithoutDeleted { closed: false });
    assert!(rt; are_spelt(rt.alloc(), before_fault(rt.alloc(), left), "b:v:2:2"));
}
