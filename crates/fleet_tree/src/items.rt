//! Reading lists that stand in chunks.

ghost use Rattle.std.specs.Prelude.{◌≡◌, ◌++◌};
ghost use Rattle.std.specs.Iterator.{item_count, YieldsFirstRef};
ghost use Rattle.std.specs.Cmp.Lexicographic.{pointwise};
ghost use Rattle.fleet_tree.specs.Lists.{joined};

use crate::SharedList;
use std::marker::Model;

/// An iterator over items that stand in chunks. Contracts see the items left.
#[derive(Debug, Drop)]
pub struct Items<'a, T> {
    first: &'a [T],
    chunks: &'a [SharedList<T>],
}

impl<'a, T> Model for Items<'a, T> {
    ghost use Rattle.std.specs.Prelude.{List, ◌++◌};
    ghost use Rattle.fleet_tree.specs.Lists.{joined};

    ghost Value = { List T };

    ghost view = { λ i. i.first.now ++ joined i.chunks.now };
}

impl<'a, T: Drop> Items<'a, T> {
    /// An iterator over these items.
    pub fn of_slice(items: &'a [T]) -> Items<'a, T>
        ensures { result ≡ items.now }
    {
        Items {
            first: items,
            chunks: &[],
        }
    }

    /// An iterator over these items, and then over those of the chunks.
    pub(crate) fn of_chunks(first: &'a [T], chunks: &'a [SharedList<T>]) -> Items<'a, T>
        ensures { result ≡ first.now ++ joined chunks.now }
    {
        Items { first, chunks }
    }

    /// An iterator over what this one has left.
    pub fn clone(&self) -> Items<'a, T>
        ensures { result ≡ self.now }
    {
        Items {
            first: self.first,
            chunks: self.chunks,
        }
    }
}

impl<'a, T: Drop> Iterator for Items<'a, T> {
    type Item = &'a T;

    ghost next_gives = { YieldsFirstRef (λ i. i) };

    ghost remaining = { item_count (λ i. i) };

    fn next(&mut self) -> Option<&'a T> {
        'chunks: while self.first.is_empty() {
            let (chunk, chunks) = self.chunks.split_first()?;
            self.first = chunk.as_slice();
            self.chunks = chunks;
        }
        let (item, rest) = self.first.split_first()?;
        self.first = rest;
        Some(item)
    }
}

// Whether two iterators give equal items.
pub(crate) fn are_equal<T: PartialEq + Drop>(items: Items<'_, T>, others: Items<'_, T>) -> bool
    ensures { result ≡ pointwise T.eq items.entry others.entry }
{
    let mut others = others;
    'items: for item in items {
        match others.next() {
            Some(other) => {
                if item != other {
                    return false;
                }
            }
            None => return false,
        }
    }
    others.next().is_none()
}
