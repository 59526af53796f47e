//! What a thread carries.

ghost use Rattle.std.specs.Prelude.{◌≡◌, ◌+◌, ◌-◌, ◌^◌, ◌<◌, ◌≤◌, ℕ, [], min};
ghost use Rattle.fleet_lock.specs.Counts.{length_of, times};
ghost use Rattle.fleet_lock.specs.Names.{name_of};
ghost use Rattle.fleet_lock.specs.Passes.{IsIdle, MayCarry};
ghost use Rattle.fleet_lock.specs.Rule.{HoldsName, seen_of};
ghost use Rattle.fleet_history.specs.Parties.{party_of};

use crate::holds::Holds;
use crate::sight::Sight;
use crate::tally::Tally;
use atomic_table::{Badge, Seat};
use fleet_history::Party;
use std::marker::Model;

/// The right to call a shared store, and what was seen of the store. A pass has parts of the first
/// pass, and the names of the parties that it may carry.
#[derive(Drop)]
pub struct Pass {
    pub(crate) badge: Badge<Sight>,
    pub(crate) parts: u32,
    pub(crate) tally: Tally,
    pub(crate) line: u64,
    pub(crate) party: Party,
}

impl Model for Pass {
    ghost use Rattle.fleet_lock.specs.Passes.{IsPass, PassValue, first_view};

    ghost Value = { PassValue };

    ghost view = { λ p. record {
      table = p.badge.table_id;
      sight = first_view p.badge.views;
      line = p.line;
      party = p.party;
    } };

    ghost invariant = { λ p. IsPass p.badge.views p.parts p.tally p.party };
}

impl Pass {
    pub(crate) fn of<S: Holds>(
        seat: Seat<Option<S>, Sight>,
        parts: u32,
        seen: u64,
        line: u64,
        party: Party,
    ) -> Pass
        requires free { seat.me.1 ≡ [] }
        requires idle { IsIdle seat.me.0 }
        requires parts { seat.me.0.parts ≡ parts }
        requires some_part { 0 < parts }
        requires seen { seen ≡ length_of (seen_of seat.me.0) }
        requires no_claims { seat.me.0.claims ≡ 0 }
        requires no_commits { seat.me.0.commits ≡ 0 }
        requires name { HoldsName seat.me.0 (name_of (party_of party)) }
        requires names { (name : ℕ)
            → times name seat.me.0.handed ≤ seat.me.0.whole + times name seat.me.0.received }
        ensures { result ≡ record {
          table = seat.table_id;
          sight = seat.me.0;
          line = line;
          party = party;
        } }
    {
        Pass {
            badge: seat.into_badge(),
            parts,
            tally: Tally::new(seen),
            line,
            party,
        }
    }

    /// Later entries carry this line and this party. The pass must hold the party's name.
    pub fn set_actor(&mut self, line: u64, party: Party)
        requires name { MayCarry self.old party }
        ensures { self.new ≡ record self.old { line = line; party = party } }
    {
        self.line = line;
        self.party = party;
    }

    /// The line that its entries carry.
    pub fn line(&self) -> u64
        ensures { result ≡ self.now.line }
    {
        self.line
    }

    /// The length of the history that it has seen.
    pub fn seen(&self) -> u64
        ensures { result ≡ length_of (seen_of self.now.sight) }
    {
        self.tally.seen
    }

    /// Its share of the claims, or 2^64 - 1 if the share is greater.
    pub fn claims(&self) -> u64
        ensures { result ≡ min self.now.sight.claims (2 ^ 64 - 1) }
    {
        self.tally.claims
    }

    /// Its share of the commits, or 2^64 - 1 if the share is greater.
    pub fn commits(&self) -> u64
        ensures { result ≡ min self.now.sight.commits (2 ^ 64 - 1) }
    {
        self.tally.commits
    }

    /// The number of its parts.
    pub fn parts(&self) -> u32
        ensures { result ≡ self.now.sight.parts }
    {
        self.parts
    }
}
