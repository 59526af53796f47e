//! Sets of nodes.

ghost use Rattle.std.specs.Prelude.{◌≡◌, ◌++◌, [], ◌∷◌, map, not, IfOk, OnErr, OnOk};
ghost use Rattle.std.specs.BTreeSet.{IsUnchanged};
ghost use Rattle.std.specs.List.{list_all};
ghost use Rattle.fleet_model.specs.Jobs.{nodes_of};
ghost use Rattle.fleet_model.specs.Nodes.{names_contain};
ghost use Rattle.fleet_model.specs.Sources.{is_apart};
ghost use Rattle.fleet_jobs.specs.Indexed.{HasMore};
ghost use Rattle.fleet_jobs.specs.Sources.{name_of};
ghost use Rattle.fleet_jobs.specs.Specs.{spec_of};

use crate::{CompactionSpec, SourceId};
use fleet_rows::Ulid;
use std::alloc::{AllocError, Global};
use std::collections::BTreeSet;
use std::marker::Model;

/// Nodes of trees. Contracts see their names, in the order in which they were added. A node is
/// looked up in a time that grows with the logarithm of their number.
#[derive(Debug, Drop)]
pub struct NodeSet {
    nodes: Vec<SourceId>,
    // The runs among the nodes.
    runs: BTreeSet<u32>,
    // The flushes among the nodes.
    flushes: BTreeSet<Ulid>,
}

impl Model for NodeSet {
    ghost use Rattle.std.specs.Prelude.{List, map};
    ghost use Rattle.fleet_model.specs.Nodes.{NodeName};
    ghost use Rattle.fleet_jobs.specs.Indexed.{IsIndex};
    ghost use Rattle.fleet_jobs.specs.Sources.{name_of};

    ghost Value = { List NodeName };

    ghost view = { λ s. map name_of s.nodes.items };

    ghost invariant = { λ s. IsIndex s.runs s.flushes (map name_of s.nodes.items) };
}

impl NodeSet {
    /// An empty set. It takes no memory.
    pub fn new(alloc: Global) -> NodeSet
        ensures { result ≡ [] }
    {
        NodeSet {
            nodes: Vec::new(alloc),
            runs: BTreeSet::new(alloc),
            flushes: BTreeSet::new(alloc),
        }
    }

    /// The set of these nodes.
    pub fn of_nodes(alloc: Global, nodes: &[SourceId]) -> Result<NodeSet, AllocError>
        ensures { IfOk result (λ set. set ≡ map name_of nodes.now) }
    {
        let mut set = NodeSet::new(alloc);
        set.add_all(nodes)?;
        Ok(set)
    }

    /// Whether the node is in the set.
    pub fn contains(&self, node: SourceId) -> bool
        ensures { result ≡ names_contain self.now (name_of node) }
    {
        match node {
            SourceId::SortedRun(id) => self.runs.contains(&id),
            SourceId::SstView(id) => self.flushes.contains(&id),
        }
    }

    /// Whether each of these nodes is in the set.
    pub fn contains_all(&self, nodes: &[SourceId]) -> bool
        ensures { result ≡ list_all (names_contain self.now) (map name_of nodes.now) }
    {
        self.has_all(nodes)
    }

    fn has_all(&self, nodes: &[SourceId]) -> bool
        ensures { result ≡ list_all (λ node. names_contain self.now (name_of node)) nodes.now }
    {
        nodes.iter().all(|node| self.contains(*node))
    }

    /// Adds a node.
    pub fn add(&mut self, node: SourceId) -> Result<(), AllocError>
        ensures ok { OnOk result (self.new ≡ self.old ++ name_of node ∷ []) }
        ensures err { OnErr result (self.new ≡ self.old) }
    {
        add_node(&mut self.nodes, &mut self.runs, &mut self.flushes, &node)
    }

    /// Adds nodes, in their order. Out of memory, no clause says which of them were added.
    pub fn add_all(&mut self, nodes: &[SourceId]) -> Result<(), AllocError>
        ensures { OnOk result (self.new ≡ self.old ++ map name_of nodes.now) }
    {
        'nodes: for node in nodes {
            self.add(*node)?;
        }
        Ok(())
    }

    /// Adds the nodes that a job touches: its destination, if it has one, and its sources. Out of
    /// memory, no clause says which of them were added.
    pub fn add_nodes_of(&mut self, spec: &CompactionSpec) -> Result<(), AllocError>
        ensures { OnOk result (self.new ≡ self.old ++ nodes_of (spec_of spec.now)) }
    {
        if let Some(destination) = spec.destination() {
            self.add(SourceId::SortedRun(destination))?;
        }
        self.add_all(spec.sources())
    }

    /// Whether neither the destination nor a source is in the set.
    pub fn leaves(&self, destination: SourceId, sources: &[SourceId]) -> bool
        ensures { result ≡ is_apart (name_of destination ∷ map name_of sources.now) self.now }
    {
        self.lacks(destination) && self.lacks_all(sources)
    }

    /// Whether no node that a job touches is in the set.
    pub fn leaves_nodes_of(&self, spec: &CompactionSpec) -> bool
        ensures { result ≡ is_apart (nodes_of (spec_of spec.now)) self.now }
    {
        match spec.destination() {
            Some(destination) => self.leaves(SourceId::SortedRun(destination), spec.sources()),
            None => self.lacks_all(spec.sources()),
        }
    }

    fn lacks(&self, node: SourceId) -> bool
        ensures { result ≡ not (names_contain self.now (name_of node)) }
    {
        !self.contains(node)
    }

    fn lacks_all(&self, nodes: &[SourceId]) -> bool
        ensures { result ≡ is_apart (map name_of nodes.now) self.now }
    {
        self.lacks_each(nodes)
    }

    fn lacks_each(&self, nodes: &[SourceId]) -> bool
        ensures { result
            ≡ list_all (λ node. not (names_contain self.now (name_of node))) nodes.now }
    {
        nodes.iter().all(|node| self.lacks(*node))
    }
}

// Adds the node to the nodes, and to the runs or to the flushes.
fn add_node(
    nodes: &mut Vec<SourceId>,
    runs: &mut BTreeSet<u32>,
    flushes: &mut BTreeSet<Ulid>,
    node: &SourceId,
) -> Result<(), AllocError>
    ensures nodes { OnOk result (nodes.new.items ≡ nodes.old.items ++ node.now ∷ []) }
    ensures sets { OnOk result
        (HasMore runs.old runs.new flushes.old flushes.new (name_of node.now)) }
    ensures same_nodes { OnErr result (nodes.new.items ≡ nodes.old.items) }
    ensures same_sets { OnErr result
        (IsUnchanged runs.old runs.new × IsUnchanged flushes.old flushes.new) }
{
    nodes.push(*node)?;
    let added = add_to_set(runs, flushes, node);
    if added.is_err() {
        nodes.pop();
    }
    added
}

// Adds the node to the runs or to the flushes.
fn add_to_set(
    runs: &mut BTreeSet<u32>,
    flushes: &mut BTreeSet<Ulid>,
    node: &SourceId,
) -> Result<(), AllocError>
    ensures ok { OnOk result
        (HasMore runs.old runs.new flushes.old flushes.new (name_of node.now)) }
    ensures err { OnErr result
        (IsUnchanged runs.old runs.new × IsUnchanged flushes.old flushes.new) }
{
    match node {
        SourceId::SortedRun(id) => runs.insert(*id)?,
        SourceId::SstView(id) => flushes.insert(*id)?,
    };
    Ok(())
}
