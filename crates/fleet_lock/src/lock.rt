//! The lock of a shared store, and its passes.

ghost use Rattle.std.specs.Prelude.{◌≡◌, ◌≢◌, ◌^◌, ◌%◌, ◌<◌, ℕ, [], ◌∷◌, Some, None, true, MatchBool, IfOk, IfErr};
ghost use Rattle.step_model.specs.Kept.Keeps.{Keeps};
ghost use Rattle.fleet_history.specs.Parties.{party_of};
ghost use Rattle.fleet_history.specs.declared.party.Party.TheVariants.{Writer};
ghost use Rattle.fleet_lock.specs.Calls.{Closes, Finds};
ghost use Rattle.fleet_lock.specs.Counts.{length_of};
ghost use Rattle.fleet_lock.specs.Held.{HeldValue, held_store, store_of};
ghost use Rattle.fleet_lock.specs.Names.{name_of};
ghost use Rattle.fleet_lock.specs.Passes.{IsFirst, IsIdle, IsTally, MayCarry, first_view};
ghost use Rattle.fleet_lock.specs.Rule.{Follows, GetsTurn, HoldsName, IsFoundBy, IsFront, IsWaiting, after_serving, joined_view, keeps_less, longer, newcomer, shorter, with_ticket, with_turn};

use crate::folds::{Folds, lend};
use crate::held_value::Held;
use crate::holds::Holds;
use crate::pass::Pass;
use crate::sight::Sight;
use crate::tally::Tally;
use atomic_table::{Badge, Join, Play, Seat, Split, Table, TableRule};
use fleet_fold::MergeOperator;
use fleet_history::Party;
use fleet_rows::SlateDBError;
use fleet_store::MemStore;
use std::alloc::Global;
use std::marker::{Brand, PhantomData};
use std::mem::replace;
use std::snapshot::Snapshot;
use std::sync::Wait;
use std::thread::yield_now;

/// What the rule reads when the table is made.
#[derive(Drop)]
pub(crate) struct Opening<S: Holds> {
    passes: u32,
    held: Snapshot<S>,
}

/// The rule: tickets are served one by one, and each served one has the store.
pub(crate) struct Turns;

impl<S: Holds> TableRule<Option<S>, Sight, Opening<S>> for Turns {
    ghost use Rattle.fleet_lock.specs.Rule.{Kept, opener};

    ghost holds = { λ k. Kept S.value k.passes };

    ghost first = { λ k. opener k.passes (S.value k.held.value) };
}

struct Draw;

impl<S: Holds> Play<Option<S>, Sight> for Draw {
    ghost use Rattle.fleet_lock.specs.Rule.{Draws};

    ghost then = { Draws };
}

struct Look;

impl<S: Holds> Play<Option<S>, Sight> for Look {
    ghost use Rattle.fleet_lock.specs.Rule.{Looks};

    ghost then = { Looks S.value };
}

struct Tell;

impl<S: Holds> Play<Option<S>, Sight> for Tell {
    ghost use Rattle.fleet_lock.specs.Rule.{Tells};

    ghost then = { Tells };
}

struct Serve;

impl<S: Holds> Play<Option<S>, Sight> for Serve {
    ghost use Rattle.fleet_lock.specs.Rule.{Serves};

    ghost then = { Serves S.value };
}

// A name that a split hands on.
pub(crate) trait HandsOn {
    ghost name: { ℕ };
}

impl HandsOn for Brand {
    ghost name = { 0 };
}

struct Cut<N: HandsOn> {
    of: PhantomData<N>,
}

impl<N: HandsOn> Split<Sight> for Cut<N> {
    ghost use Rattle.fleet_lock.specs.Rule.{keeps_less, newcomer};

    ghost left = { λ v. keeps_less v N.name };

    ghost right = { λ v. newcomer v N.name };
}

struct Glue;

impl Join<Sight> for Glue {
    ghost use Rattle.fleet_lock.specs.Rule.{joined_view, spent_view};

    ghost both = { joined_view };

    ghost spent = { spent_view };
}

pub(crate) type Place<S> = Seat<Option<S>, Sight>;

/// A store that several threads call, each through a pass.
#[derive(Drop)]
pub struct Lock<S: Holds> {
    pub(crate) table: Table<Option<S>, Sight, Opening<S>, Turns, Global>,
    ghost shape: { (table.shared.table_id.words ≡ 2) × (table.shared.table_id.slots ≡ 1) },
}

/// A store in memory that several threads call, each through a pass. Its rows are merged under one
/// operator.
pub type SharedStore<'o, O> = Lock<Held<'o, O>>;

impl<'o, O: MergeOperator> Lock<Held<'o, O>> {
    ghost use Rattle.fleet_lock.specs.Locks.{table_of};

    /// Shares a store that meets the invariant under the operator. The first pass has all parts and
    /// the names of all parties. It carries line 0 and the writer, whatever the store carried. If
    /// memory runs out, the store comes back.
    pub fn share(
        alloc: Global,
        store: MemStore,
        operator: &'o O,
        passes: u32,
    ) -> Result<(SharedStore<'o, O>, Pass), (MemStore, SlateDBError)>
        requires passes { 0 < passes }
        requires keeps { Keeps (O.merged (O.settings operator.now)) store.world }
        ensures of { IfOk result (λ r. r.1.table ≡ table_of r.0) }
        ensures first { IfOk result (λ r. IsFirst passes store (O.settings operator.now) r.1) }
        ensures back { IfErr result (λ r. r.0 ≡ store) }
        ensures memory { IfErr result (λ r. r.1 ≡ SlateDBError.Memory) }
    {
        let mut slots = Vec::new(alloc);
        if slots.reserve(1).is_err() {
            return Err((store, SlateDBError::Memory));
        }
        let seen = store.history().len() as u64;
        let held = Held::new(alloc, store, lend(operator));
        let opening = Opening {
            passes,
            held: Snapshot::of(&held),
        };
        slots.push_reserved(Some(held));
        match Table::new(alloc, &[0, 0], slots, &opening) {
            Ok((table, seat)) => {
                let pass = Pass::of(seat, passes, seen, 0, Party::Writer);
                Ok((Lock { table }, pass))
            }
            Err(refused) => Err((only(refused.slots), SlateDBError::Memory)),
        }
    }
}

impl<'o, O: Folds> Lock<Held<'o, O>> {
    ghost use Rattle.fleet_lock.specs.Locks.{table_of};

    /// Waits for its turn and takes the store out. The store meets the invariant under the
    /// operator. What the pass has seen is a front of its history. A pass with all parts has all
    /// claims, commits and places since the store was shared.
    pub fn close<R: Wait>(self, rt: &R, pass: Pass) -> MemStore
        requires own { pass.table ≡ table_of self }
        ensures closes { Closes O.folds pass.sight result }
    {
        let Pass {
            mut badge,
            parts: _,
            mut tally,
            line: _,
            party: _,
        } = pass;
        let mut seat: Place<Held<'o, O>> = seat_of(&mut badge);
        let held = self.enter(rt, &mut seat, &mut tally);
        held.into_store()
    }
}

impl<S: Holds> Lock<S> {
    ghost use Rattle.fleet_lock.specs.Locks.{table_of};

    /// A new pass with one part of the old one. It has seen what that has, carries the same line
    /// and this party, whose name the old one hands on to it, and has no shares and no places.
    pub fn split(&self, pass: &mut Pass, party: Party) -> Pass
        requires own { pass.old.table ≡ table_of self.now }
        requires parts { 1 < pass.old.sight.parts }
        requires name { MayCarry pass.old party }
        requires other { name_of (party_of party) ≢ name_of (party_of pass.old.party) }
        ensures old { pass.new ≡ record pass.old {
          sight = keeps_less pass.old.sight (name_of (party_of party));
        } }
        ensures new { result ≡ record pass.old {
          sight = newcomer pass.old.sight (name_of (party_of party));
          party = party;
        } }
    {
        let mut seat: Place<S> = seat_of(&mut pass.badge);
        let new = self.cut::<Brand>(&mut seat, party);
        pass.badge = seat.into_badge();
        pass.parts -= 1;
        Pass::of(new, 1, pass.tally.seen, pass.line, party)
    }

    /// Takes in what another pass has: its parts, shares, places and names. The pass has then seen
    /// the longer of the two histories, of which the shorter is a front.
    pub fn join(&self, into: &mut Pass, from: Pass)
        requires own { into.old.table ≡ table_of self.now }
        requires other { from.table ≡ table_of self.now }
        ensures pass { into.new
            ≡ record into.old { sight = joined_view into.old.sight from.sight } }
        ensures base { from.sight.base ≡ into.old.sight.base }
        ensures front { IsFront (shorter into.old.sight from.sight)
            (longer into.old.sight from.sight) }
    {
        let Pass {
            mut badge,
            parts,
            tally,
            line: _,
            party: _,
        } = from;
        let other: Place<S> = seat_of(&mut badge);
        let mut seat: Place<S> = seat_of(&mut into.badge);
        self.table.shared.join_seat::<Glue>(&mut seat, other);
        self.table.shared.load::<Tell>(&mut seat, 1);
        into.badge = seat.into_badge();
        into.parts += parts;
        into.tally = into.tally.joined(tally);
    }
}

impl<S: Holds> Lock<S> {
    ghost use Rattle.fleet_lock.specs.Locks.{table_of};

    // A new seat with one part of the old one, which hands the party's name on to it.
    fn cut<N: HandsOn>(&self, seat: &mut Place<S>, party: Party) -> Place<S>
        requires own { seat.old.table_id ≡ table_of self.now }
        requires parts { 1 < seat.old.me.0.parts }
        requires name { HoldsName seat.old.me.0 (name_of (party_of party)) }
        requires named { N.name ≡ name_of (party_of party) }
        ensures own { seat.new.table_id ≡ seat.old.table_id }
        ensures old { seat.new.me
            ≡ (keeps_less seat.old.me.0 (name_of (party_of party)), seat.old.me.1) }
        ensures of { result.table_id ≡ seat.old.table_id }
        ensures new { result.me ≡ (newcomer seat.old.me.0 (name_of (party_of party)), []) }
    {
        let _named = party;
        self.table.shared.split_seat::<Cut<N>>(seat)
    }

    fn draw(&self, seat: &mut Place<S>) -> u64
        requires own { seat.old.table_id ≡ table_of self.now }
        requires free { seat.old.me.1 ≡ [] }
        requires idle { IsIdle seat.old.me.0 }
        requires part { 0 < seat.old.me.0.parts }
        ensures own { seat.new.table_id ≡ seat.old.table_id }
        ensures ticket { (t : ℕ) × (seat.new.me ≡ (with_ticket seat.old.me.0 t, []))
            × (result ≡ t % 2 ^ 64) }
    {
        self.table.shared.fetch_add::<Draw>(seat, 0, 1)
    }

    // True if the ticket is served. The slot is then out with the seat.
    fn look(&self, seat: &mut Place<S>, ticket: u64) -> bool
        requires own { seat.old.table_id ≡ table_of self.now }
        requires waits { IsWaiting seat.old.me ticket }
        ensures own { seat.new.table_id ≡ seat.old.table_id }
        ensures turn { MatchBool result
            (GetsTurn S.value seat.old.me.0 seat.new.me) (seat.new.me ≡ seat.old.me) }
    {
        self.table.shared.load::<Look>(seat, 1) == ticket
    }

    fn wait<R: Wait>(&self, rt: &R, seat: &mut Place<S>, ticket: u64)
        requires own { seat.old.table_id ≡ table_of self.now }
        requires waits { IsWaiting seat.old.me ticket }
        ensures own { seat.new.table_id ≡ seat.old.table_id }
        ensures turn { GetsTurn S.value seat.old.me.0 seat.new.me }
    {
        for _ in rt.forever() {
            if self.look(seat, ticket) {
                return;
            }
            yield_now();
        }
        unreachable!()
    }

    fn take(&self, seat: &mut Place<S>) -> S
        requires own { seat.old.table_id ≡ table_of self.now }
        requires out { (h : _) × (seat.old.me.1 ≡ (0, Some h) ∷ []) }
        ensures own { seat.new.table_id ≡ seat.old.table_id }
        ensures out { seat.old.me.1 ≡ (0, Some result) ∷ [] }
        ensures left { seat.new.me ≡ (seat.old.me.0, (0, None) ∷ []) }
    {
        let Some(held) = self.table.shared.exchange(seat, 0, None) else {
            unreachable!()
        };
        held
    }

    // Draws a ticket, waits until it is served, and takes the store out.
    pub(crate) fn enter<R: Wait>(&self, rt: &R, seat: &mut Place<S>, tally: &mut Tally) -> S
        requires own { seat.old.table_id ≡ table_of self.now }
        requires free { seat.old.me.1 ≡ [] }
        requires idle { IsIdle seat.old.me.0 }
        requires part { 0 < seat.old.me.0.parts }
        requires tally { IsTally tally.old seat.old.me.0 }
        ensures own { seat.new.table_id ≡ seat.old.table_id }
        ensures turn { (t : ℕ) × (seat.new.me
            ≡ (with_turn (with_ticket seat.old.me.0 t) (S.value result), (0, None) ∷ [])) }
        ensures found { Finds S.folds seat.old.me.0 (S.value result) }
        ensures tally { IsTally tally.new seat.new.me.0 }
    {
        let ticket = self.draw(seat);
        self.wait(rt, seat, ticket);
        let held = self.take(seat);
        held.known();
        tally.seen = held.len();
        held
    }

    // Gives the store back, and serves the next ticket.
    pub(crate) fn leave(&self, seat: &mut Place<S>, held: S, tally: &mut Tally)
        requires own { seat.old.table_id ≡ table_of self.now }
        requires out { seat.old.me.1 ≡ (0, None) ∷ [] }
        requires turn { seat.old.me.0.turn ≡ true }
        requires follows { Follows seat.old.me.0 (S.value held) }
        requires tally { IsTally tally.old seat.old.me.0 }
        ensures own { seat.new.table_id ≡ seat.old.table_id }
        ensures left { seat.new.me ≡ (after_serving seat.old.me.0 (S.value held), []) }
        ensures tally { IsTally tally.new seat.new.me.0 }
    {
        *tally = tally.after(&held);
        let None = self.table.shared.exchange(seat, 0, Some(held)) else {
            unreachable!()
        };
        self.table.shared.fetch_add::<Serve>(seat, 1, 1);
    }
}

// The seat of a badge, which is blank from then on.
pub(crate) fn seat_of<S: Holds>(badge: &mut Badge<Sight>) -> Place<S>
    requires { badge.old.views ≡ first_view badge.old.views ∷ [] }
    ensures own { result.table_id ≡ badge.old.table_id }
    ensures view { result.me ≡ (first_view badge.old.views, []) }
{
    replace(badge, Badge::blank()).into_seat()
}

// The store of the only slot.
fn only<'o, O: Folds>(mut slots: Vec<Option<Held<'o, O>>>) -> MemStore
    requires { (h : HeldValue) × (slots.items ≡ Some h ∷ []) }
    ensures { (h : HeldValue) × (slots.entry.items ≡ Some h ∷ []) × (result ≡ held_store h) }
{
    let Some(slot) = slots.pop() else {
        unreachable!()
    };
    let Some(held) = slot else { unreachable!() };
    held.into_store()
}
