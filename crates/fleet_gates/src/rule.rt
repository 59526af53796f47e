//! The rules of the gates.

ghost use Rattle.std.specs.Prelude.{◌≡◌};
ghost use Rattle.fleet_gates.specs.Rules.{number_of};

/// A rule that a job must pass when it is opened or when it is committed. Replies and lists give a
/// rule by its number.
#[derive(Clone, Copy, Debug, PartialEq, Eq)]
pub enum Rule {
    /// Rule 1: there are sources, and each is named once.
    Sources,
    /// Rule 2: a drain is not of the root segment.
    DrainedSegment,
    /// Rule 3: the segment has a tree.
    Tree,
    /// Rule 4: every source is in that tree.
    SourcesInTree,
    /// Rule 5: the sources of a run are in the tree one after the other. If one is a flush, they
    /// reach the oldest flush.
    WholeStretch,
    /// Rule 6: a drain names every flush that is older than the newest flush that it names.
    OlderFlushes,
    /// Rule 7: a run's id is not 4,294,967,295. It is the lowest source run or, if no run is a
    /// source, is above all runs of all trees.
    Destination,
    /// Rule 8: no other job holds a source or the destination.
    FreeNodes,
    /// Rule 10: the sources have the tables that they had when the job was opened.
    SourceTables,
    /// Rule 0: the scheduler accepts the job.
    Scheduler,
}

impl Rule {
    /// The number by which replies and lists give the rule.
    pub fn number(self) -> u8
        ensures { result ≡ number_of self }
    {
        match self {
            Rule::Sources => 1,
            Rule::DrainedSegment => 2,
            Rule::Tree => 3,
            Rule::SourcesInTree => 4,
            Rule::WholeStretch => 5,
            Rule::OlderFlushes => 6,
            Rule::Destination => 7,
            Rule::FreeNodes => 8,
            Rule::SourceTables => 10,
            Rule::Scheduler => 0,
        }
    }
}
