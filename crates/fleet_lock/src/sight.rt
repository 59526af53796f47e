//! What a pass knows.

use fleet_store::MemStore;
use std::collections::LinkedList;

/// What a pass knows of the shared store, and what it has of it. It stands in contracts alone: no
/// value of it is made.
pub struct Sight {
    /// The store when it was shared.
    pub base: MemStore,
    /// The store after each call since then, as far as the pass has seen.
    pub trace: LinkedList<MemStore>,
    /// Of the two views that were joined last, what the one had seen that had seen less.
    pub other_base: MemStore,
    pub other_trace: LinkedList<MemStore>,
    /// The settings of the operator.
    pub settings: LinkedList<u8>,
    /// The parts that the first pass had.
    pub all: u64,
    pub parts: u64,
    /// Its shares of the claims, the commits and the struck calls since the store was shared.
    pub claims: u64,
    pub commits: u64,
    pub struck: u64,
    /// The places of its own entries in the history.
    pub own: LinkedList<u64>,
    /// Its names: those that it received and did not hand on. The first pass received each name.
    pub whole: u64,
    pub received: LinkedList<u64>,
    pub handed: LinkedList<u64>,
    /// Whether it waits for its turn, and with which ticket.
    pub waits: bool,
    pub ticket: u64,
    /// Whether it is its turn.
    pub turn: bool,
}
