//! Names of a tree's nodes, as scripts spell them.

ghost use Rattle.std.specs.Prelude.{◌≡◌, ◌≢◌, ◌++◌, ◌∷◌, ℕ, List, MatchOption, IfOk, codes, decimal};
ghost use Rattle.script_model.specs.Bounds.{IsName, IsNode, AreNodes};
ghost use Rattle.script_model.specs.Words.{node_text, nodes_text};
ghost use Rattle.fleet_text.specs.Lines.{node_of, nodes_of};
ghost use Rattle.fleet_text.specs.Reading.{Reads, ReadsAs};

use crate::word::{is_word, name_of, parts, run_of};
use fleet_rows::{Copies, ListOf};
use std::alloc::{AllocError, Global};

/// A flush by its name, or a sorted run by its id.
#[derive(Clone, Copy, Debug, PartialEq, Eq)]
pub enum NodeName {
    L0(u64),
    Run(u32),
}

impl Copies for NodeName {
    fn copied(&self) -> Result<NodeName, AllocError> {
        Ok(*self)
    }
}

/// A list of nodes.
pub type NodeList = ListOf<NodeName>;

// The bytes after this letter, or None if the word does not begin with it.
fn after(word: &[u8], letter: u8) -> Option<&[u8]>
    ensures { MatchOption result
        ((rest : List ℕ) → word.now ≢ letter ∷ rest) (λ rest. word.now ≡ letter ∷ rest.now) }
{
    if word.is_empty() || word[0] != letter {
        return None;
    }
    Some(&word[1..])
}

/// Reads the name of a flush, spelt as `l` and a number from 1 to 1,099,511,627,775.
pub fn source_of(word: &[u8]) -> Option<u64>
    ensures { Reads (λ name. codes "l" ++ decimal name) IsName word.now result }
{
    name_of(after(word, b'l')?)
}

/// Reads a node: a flush, or a sorted run spelt as `r` and a number below 2^32.
pub fn node_at(word: &[u8]) -> Option<NodeName>
    ensures { ReadsAs node_of node_text IsNode word.now result }
{
    if let Some(id) = after(word, b'r') {
        return Some(NodeName::Run(run_of(id)?));
    }
    Some(NodeName::L0(source_of(word)?))
}

/// Reads nodes with commas between them, or `-` for no nodes. The answer is None if a part is no
/// node. The error is out of memory.
pub fn nodes_at(alloc: Global, word: &[u8]) -> Result<Option<NodeList>, AllocError>
    ensures { IfOk result (ReadsAs nodes_of nodes_text AreNodes word.now) }
{
    let mut nodes = Vec::new(alloc);
    if is_word(word, "-") {
        return Ok(Some(NodeList::from_vec(nodes)));
    }
    let fields = parts(alloc, word, b',')?;
    'fields: for field in &fields {
        let Some(node) = node_at(field) else {
            return Ok(None);
        };
        nodes.push(node)?;
    }
    Ok(Some(NodeList::from_vec(nodes)))
}
