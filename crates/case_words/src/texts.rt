//! How rows, ranges, tables and trees are printed in answers.

use crate::tell::{Tell, tell_bound, tell_list, tell_stamp};
use bytes::Bytes;
use fleet_plan::Anchor;
use fleet_range::{ByteRangeBounds, BytesRange, ComparableRange};
use fleet_rows::{KeyValue, ListOf, RowEntry};
use fleet_tree::{BlockMeta, Items, LsmTreeState, SortedRun, SsTableHandle, SsTableView, Tracked};
use std::alloc::AllocError;
use std::ops::RangeBounds;

impl Tell for &Bytes {
    fn tell(&self, answer: &mut String) -> Result<(), AllocError> {
        self.as_slice().tell(answer)
    }
}

impl Tell for &u64 {
    fn tell(&self, answer: &mut String) -> Result<(), AllocError> {
        (**self).tell(answer)
    }
}

impl Tell for &RowEntry {
    fn tell(&self, answer: &mut String) -> Result<(), AllocError> {
        (**self).tell(answer)
    }
}

impl Tell for KeyValue {
    fn tell(&self, answer: &mut String) -> Result<(), AllocError> {
        self.key.as_slice().tell(answer)?;
        answer.push(':')?;
        self.value.as_slice().tell(answer)?;
        let seq = self.seq;
        let created = self.create_ts;
        write!(answer, ":{seq}:{created}:")?;
        tell_stamp(answer, self.expire_ts)
    }
}

impl Tell for ListOf<u64> {
    fn tell(&self, answer: &mut String) -> Result<(), AllocError> {
        tell_list(answer, self.as_slice(), ',')
    }
}

impl Tell for ListOf<RowEntry> {
    fn tell(&self, answer: &mut String) -> Result<(), AllocError> {
        tell_list(answer, self.as_slice(), ',')
    }
}

// A range is printed as its tables.
impl Tell for ListOf<ListOf<RowEntry>> {
    fn tell(&self, answer: &mut String) -> Result<(), AllocError> {
        tell_list(answer, self.as_slice(), ';')
    }
}

impl Tell for Vec<ListOf<ListOf<RowEntry>>> {
    fn tell(&self, answer: &mut String) -> Result<(), AllocError> {
        tell_list(answer, self.as_slice(), ' ')
    }
}

impl Tell for BytesRange {
    fn tell(&self, answer: &mut String) -> Result<(), AllocError> {
        tell_bound(answer, &ByteRangeBounds::start_bound(self))?;
        answer.push(' ')?;
        tell_bound(answer, &ByteRangeBounds::end_bound(self))
    }
}

impl Tell for &BytesRange {
    fn tell(&self, answer: &mut String) -> Result<(), AllocError> {
        (**self).tell(answer)
    }
}

impl Tell for ComparableRange<u64> {
    fn tell(&self, answer: &mut String) -> Result<(), AllocError> {
        tell_bound(answer, &self.start_bound())?;
        answer.push(' ')?;
        tell_bound(answer, &self.end_bound())
    }
}

impl Tell for BlockMeta {
    fn tell(&self, answer: &mut String) -> Result<(), AllocError> {
        self.first_key.as_slice().tell(answer)?;
        let offset = self.offset;
        write!(answer, ":{offset}")
    }
}

impl Tell for Anchor {
    fn tell(&self, answer: &mut String) -> Result<(), AllocError> {
        self.key.as_slice().tell(answer)?;
        let bytes = self.bytes;
        write!(answer, ":{bytes}")
    }
}

// A description is printed as the number of rows, the size, the first and the last key, the
// sequence of the last row, and the blocks.
impl Tell for SsTableHandle {
    fn tell(&self, answer: &mut String) -> Result<(), AllocError> {
        let rows = self.rows;
        let size = self.size;
        write!(answer, "{rows} {size} ")?;
        self.first_key.as_slice().tell(answer)?;
        answer.push(' ')?;
        self.last_key.as_slice().tell(answer)?;
        let seq = self.last_seq;
        write!(answer, " {seq} ")?;
        tell_list(answer, self.blocks.as_slice(), ',')
    }
}

// A table is printed as the number of its id.
impl Tell for SsTableView {
    fn tell(&self, answer: &mut String) -> Result<(), AllocError> {
        let number = self.id.number();
        write!(answer, "{number}")
    }
}

// A run is printed as its id.
impl Tell for SortedRun {
    fn tell(&self, answer: &mut String) -> Result<(), AllocError> {
        let id = self.id;
        write!(answer, "{id}")
    }
}

// Appends items with commas between them, or `-` if there are none.
fn tell_items<T: Tell + Drop>(answer: &mut String, items: Items<'_, T>) -> Result<(), AllocError> {
    let mut rest = items;
    let Some(first) = rest.next() else {
        return answer.push('-');
    };
    first.tell(answer)?;
    'rest: for item in rest {
        answer.push(',')?;
        item.tell(answer)?;
    }
    Ok(())
}

// A tree is printed as its flushes, its runs, and the greatest sequence of its flushes.
impl Tell for LsmTreeState {
    fn tell(&self, answer: &mut String) -> Result<(), AllocError> {
        tell_items(answer, self.l0.iter())?;
        answer.push('/')?;
        tell_items(answer, self.compacted.iter())?;
        answer.push('@')?;
        match self.last_seq {
            Some(seq) => write!(answer, "{seq}"),
            None => answer.push('-'),
        }
    }
}

impl Tell for &LsmTreeState {
    fn tell(&self, answer: &mut String) -> Result<(), AllocError> {
        (**self).tell(answer)
    }
}

impl Tell for Tracked {
    fn tell(&self, answer: &mut String) -> Result<(), AllocError> {
        let least_seq = self.least_seq;
        let moment = self.moment;
        write!(answer, "{least_seq}:{moment}")
    }
}
