//! Printing of answers.

use crate::flaw::Flaw;
use bytes::Bytes;
use fleet_rows::{RowEntry, ValueDeletable};
use std::alloc::AllocError;
use std::cmp::Ordering;
use std::fmt;
use std::ops::Bound;

/// What can be printed in an answer.
pub trait Tell {
    fn tell(&self, answer: &mut String) -> Result<(), AllocError>;
}

/// Appends `ok` and the item.
pub fn tell_ok<T: Tell + Drop>(answer: &mut String, item: T) -> Result<(), Flaw> {
    answer.push_str("ok ")?;
    Ok(item.tell(answer)?)
}

/// Appends `ok` and the item, or `none`.
pub fn tell_or_none<T: Tell + Drop>(answer: &mut String, item: Option<T>) -> Result<(), Flaw> {
    match item {
        Some(item) => tell_ok(answer, item),
        None => Ok(answer.push_str("none")?),
    }
}

/// Appends `ok` and a text.
pub fn tell_text<T: fmt::Display + Drop>(answer: &mut String, item: T) -> Result<(), Flaw> {
    Ok(write!(answer, "ok {item}")?)
}

/// Appends the items with a mark between them, or `-` if there are none.
pub fn tell_list<T: Tell>(answer: &mut String, items: &[T], mark: char) -> Result<(), AllocError> {
    let [first, rest @ ..] = items else {
        return answer.push('-');
    };
    first.tell(answer)?;
    'rest: for item in rest {
        answer.push(mark)?;
        item.tell(answer)?;
    }
    Ok(())
}

// An item that may be missing is printed as itself or as `none`.
impl<T: Tell> Tell for Option<T> {
    fn tell(&self, answer: &mut String) -> Result<(), AllocError> {
        match self {
            Some(item) => item.tell(answer),
            None => answer.push_str("none"),
        }
    }
}

impl Tell for u64 {
    fn tell(&self, answer: &mut String) -> Result<(), AllocError> {
        write!(answer, "{self}")
    }
}

/// Appends a stamp, or `-` if there is none.
pub fn tell_stamp(answer: &mut String, stamp: Option<i64>) -> Result<(), AllocError> {
    match stamp {
        Some(stamp) => write!(answer, "{stamp}"),
        None => answer.push('-'),
    }
}

pub fn tell_flag(answer: &mut String, flag: bool) -> Result<(), AllocError> {
    answer.push_str(if flag { "ok 1" } else { "ok 0" })
}

pub fn tell_order(answer: &mut String, order: Ordering) -> Result<(), AllocError> {
    answer.push_str(match order {
        Ordering::Less => "less",
        Ordering::Equal => "equal",
        Ordering::Greater => "greater",
    })
}

impl Tell for &[u8] {
    fn tell(&self, answer: &mut String) -> Result<(), AllocError> {
        if self.is_empty() {
            return answer.push('-');
        }
        'bytes: for byte in *self {
            write!(answer, "{byte:02x}")?;
        }
        Ok(())
    }
}

fn tell_content(answer: &mut String, content: &ValueDeletable) -> Result<(), AllocError> {
    match content {
        ValueDeletable::Value(bytes) => {
            answer.push_str(":v:")?;
            bytes.as_slice().tell(answer)
        }
        ValueDeletable::Merge(bytes) => {
            answer.push_str(":m:")?;
            bytes.as_slice().tell(answer)
        }
        ValueDeletable::Tombstone => answer.push_str(":t:-"),
    }
}

impl Tell for RowEntry {
    fn tell(&self, answer: &mut String) -> Result<(), AllocError> {
        self.key.as_slice().tell(answer)?;
        tell_content(answer, &self.value)?;
        let seq = self.seq;
        write!(answer, ":{seq}:")?;
        tell_stamp(answer, self.create_ts)?;
        answer.push(':')?;
        tell_stamp(answer, self.expire_ts)
    }
}

pub fn tell_rows(answer: &mut String, rows: &[RowEntry]) -> Result<(), AllocError> {
    tell_list(answer, rows, ',')
}

impl Tell for Vec<RowEntry> {
    fn tell(&self, answer: &mut String) -> Result<(), AllocError> {
        tell_rows(answer, self.as_slice())
    }
}

impl Tell for Bytes {
    fn tell(&self, answer: &mut String) -> Result<(), AllocError> {
        self.as_slice().tell(answer)
    }
}

/// Appends a bound: `*` for none, `i` and an included key, or `x` and an excluded key.
pub fn tell_bound<K: Tell>(answer: &mut String, bound: &Bound<K>) -> Result<(), AllocError> {
    match bound {
        Bound::Included(key) => {
            answer.push('i')?;
            key.tell(answer)
        }
        Bound::Excluded(key) => {
            answer.push('x')?;
            key.tell(answer)
        }
        Bound::Unbounded => answer.push('*'),
    }
}
