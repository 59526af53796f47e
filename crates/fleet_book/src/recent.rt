//! An iterator over the records of jobs.

ghost use Rattle.std.specs.Prelude.{◌≡◌};
ghost use Rattle.std.specs.Iterator.{item_count, YieldsFirstRef};

use fleet_jobs::Compaction;
use std::marker::Model;

/// An iterator over the records of jobs, by rising id. Contracts see the jobs left.
#[derive(Debug, Drop)]
pub struct RecentCompactions<'a> {
    jobs: &'a [Compaction],
}

impl<'a> Model for RecentCompactions<'a> {
    ghost use Rattle.std.specs.Prelude.{List};
    ghost use Rattle.fleet_jobs.specs.Parts.JobParts.{JobParts};

    ghost Value = { List JobParts };

    ghost view = { λ r. r.jobs.now };
}

impl<'a> RecentCompactions<'a> {
    pub(crate) fn new(jobs: &'a [Compaction]) -> RecentCompactions<'a>
        ensures { result ≡ jobs.now }
    {
        RecentCompactions { jobs }
    }
}

impl<'a> Iterator for RecentCompactions<'a> {
    type Item = &'a Compaction;

    ghost next_gives = { YieldsFirstRef (λ r. r) };

    ghost remaining = { item_count (λ r. r) };

    fn next(&mut self) -> Option<&'a Compaction> {
        let (first, rest) = self.jobs.split_first()?;
        self.jobs = rest;
        Some(first)
    }
}
