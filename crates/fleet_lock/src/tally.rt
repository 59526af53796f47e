//! What a pass tells of its view.

ghost use Rattle.std.specs.Prelude.{◌≡◌, ◌+◌, ◌-◌, ◌^◌, max, min};
ghost use Rattle.fleet_lock.specs.Passes.{IsTally};
ghost use Rattle.fleet_lock.specs.Rule.{Follows, after_serving};
ghost use Rattle.fleet_lock.specs.declared.sight.Sight.{Sight};

use crate::holds::Holds;

/// The length of the history that a view has seen, and its shares of the claims and the commits. A
/// share that 64 bits have no room for is told as the greatest number.
#[derive(Clone, Copy)]
pub(crate) struct Tally {
    pub(crate) seen: u64,
    pub(crate) claims: u64,
    pub(crate) commits: u64,
}

impl Tally {
    /// The tally of a view that has no shares.
    pub(crate) fn new(seen: u64) -> Tally
        ensures { result ≡ record { seen = seen; claims = 0; commits = 0 } }
    {
        Tally {
            seen,
            claims: 0,
            commits: 0,
        }
    }

    /// The tally of two views that are joined.
    pub(crate) fn joined(self, other: Tally) -> Tally
        ensures { result ≡ record {
          seen = max self.seen other.seen;
          claims = min (self.claims + other.claims) (2 ^ 64 - 1);
          commits = min (self.commits + other.commits) (2 ^ 64 - 1);
        } }
    {
        Tally {
            seen: self.seen.max(other.seen),
            claims: self.claims.saturating_add(other.claims),
            commits: self.commits.saturating_add(other.commits),
        }
    }

    /// The tally after a call, given the value that the call left.
    pub(crate) fn after<S: Holds>(self, held: &S) -> Tally
        ensures { (v : Sight) → Follows v (S.value held.now) → IsTally self v
            → IsTally result (after_serving v (S.value held.now)) }
    {
        held.known();
        let seen = held.len();
        if seen == self.seen {
            self
        } else {
            Tally {
                seen,
                claims: self.claims.saturating_add(held.last_claims()),
                commits: self.commits.saturating_add(held.last_commits()),
            }
        }
    }
}
