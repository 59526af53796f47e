//! Tests that drive the parties of a fleet without scripts: coordinators, submitters, the writer and
//! workers, over a store in memory, over one that refuses each put, and over one that several
//! parties call through passes.
#![tactic(auto)]

#[cfg(test)]
mod besides;
#[cfg(test)]
mod coordinators;
#[cfg(test)]
mod faults;
#[cfg(test)]
mod locks;
#[cfg(test)]
mod passes;
#[cfg(test)]
mod refusals;
#[cfg(test)]
mod schedulers;
#[cfg(test)]
mod sites;
#[cfg(test)]
mod takeovers;
#[cfg(test)]
mod work;
#[cfg(test)]
mod workers;
