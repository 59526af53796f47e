//! Iterators over the trees of a manifest.

ghost use Rattle.std.specs.Prelude.{◌≡◌, [], ◌∷◌, map};
ghost use Rattle.std.specs.Iterator.{item_count, YieldsFirstBy, YieldsFirstRef};

use crate::LsmTreeState;
use bytes::Bytes;
use std::marker::Model;

/// An iterator over the trees of a manifest, the root's first. Contracts see the trees left.
#[derive(Debug, Drop)]
pub struct Trees<'a> {
    root: Option<&'a LsmTreeState>,
    segments: &'a [(Bytes, LsmTreeState)],
}

impl<'a> Model for Trees<'a> {
    ghost use Rattle.std.specs.Prelude.{List, map, ◌++◌};
    ghost use Rattle.fleet_tree.specs.Trees.{root_tree};
    ghost use Rattle.fleet_tree.specs.declared.tree.LsmTreeState.{LsmTreeState};

    ghost Value = { List LsmTreeState };

    ghost view = { λ t. root_tree t.root ++ map (λ s. s.1) t.segments.now };
}

impl<'a> Trees<'a> {
    pub(crate) fn new(root: &'a LsmTreeState, segments: &'a [(Bytes, LsmTreeState)]) -> Trees<'a>
        ensures { result ≡ root.now ∷ map (λ s. s.1) segments.now }
    {
        Trees {
            root: Some(root),
            segments,
        }
    }
}

impl<'a> Iterator for Trees<'a> {
    type Item = &'a LsmTreeState;

    ghost next_gives = { YieldsFirstRef (λ t. t) };

    ghost remaining = { item_count (λ t. t) };

    fn next(&mut self) -> Option<&'a LsmTreeState> {
        if let Some(root) = self.root {
            self.root = None;
            return Some(root);
        }
        let (first, rest) = self.segments.split_first()?;
        self.segments = rest;
        Some(&first.1)
    }
}

/// An iterator over the trees of a manifest with the prefixes of their segments. The root's comes
/// first. Contracts see the trees left, with their prefixes.
#[derive(Debug, Drop)]
pub struct TreesWithPrefix<'a> {
    root: Option<&'a LsmTreeState>,
    segments: &'a [(Bytes, LsmTreeState)],
}

impl<'a> Model for TreesWithPrefix<'a> {
    ghost use Rattle.std.specs.Prelude.{ℕ, List, map, ◌++◌, []};
    ghost use Rattle.fleet_tree.specs.Trees.{root_tree};
    ghost use Rattle.fleet_tree.specs.declared.tree.LsmTreeState.{LsmTreeState};

    ghost Value = { List (List ℕ × LsmTreeState) };

    ghost view = { λ t. map (λ tree. ([], tree)) (root_tree t.root) ++ t.segments.now };
}

impl<'a> TreesWithPrefix<'a> {
    pub(crate) fn new(
        root: &'a LsmTreeState,
        segments: &'a [(Bytes, LsmTreeState)],
    ) -> TreesWithPrefix<'a>
        ensures { result ≡ ([], root.now) ∷ segments.now }
    {
        TreesWithPrefix {
            root: Some(root),
            segments,
        }
    }
}

impl<'a> Iterator for TreesWithPrefix<'a> {
    type Item = (&'a [u8], &'a LsmTreeState);

    ghost next_gives = { YieldsFirstBy (λ item. (item.0.now, item.1.now)) (λ t. t) };

    ghost remaining = { item_count (λ t. t) };

    fn next(&mut self) -> Option<(&'a [u8], &'a LsmTreeState)> {
        if let Some(root) = self.root {
            self.root = None;
            return Some((&[], root));
        }
        let (first, rest) = self.segments.split_first()?;
        self.segments = rest;
        Some((first.0.as_slice(), &first.1))
    }
}
