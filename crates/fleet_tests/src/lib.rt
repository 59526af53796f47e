//! Tests of what the cases of `fleet_cases` cannot show: iterators that fail after some rows,
//! iterators in boxes, calls that come too early, and ranges that are made at once. There are also
//! tests of copies, of printed texts and of hashes, and of a store in memory: what a fault strikes,
//! and what another party's calls refuse.
#![tactic(auto)]

#[cfg(test)]
mod alike;
#[cfg(test)]
mod at_once;
#[cfg(test)]
mod boxes;
#[cfg(test)]
mod executor;
#[cfg(test)]
mod failing;
#[cfg(test)]
mod failures;
#[cfg(test)]
mod faults;
#[cfg(test)]
mod forms;
#[cfg(test)]
mod loads;
#[cfg(test)]
mod looks;
#[cfg(test)]
mod memory;
#[cfg(test)]
mod others;
#[cfg(test)]
mod parts;
#[cfg(test)]
mod ranges;
#[cfg(test)]
mod rivals;
#[cfg(test)]
mod run_ranges;
#[cfg(test)]
mod scripts;
#[cfg(test)]
mod seeks;
#[cfg(test)]
mod skips;
#[cfg(test)]
mod spelt_rows;
#[cfg(test)]
mod stores;
#[cfg(test)]
mod streams;
#[cfg(test)]
mod tables;
#[cfg(test)]
mod texts;
#[cfg(test)]
mod values;
