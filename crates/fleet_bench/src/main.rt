//! A program for measurements. `fleet_bench N P STEP [SOURCES]` makes N rows in eight sources, or in
//! as many as the last word says, and P of each 100 rows are operands. The rows go through the
//! steps up to STEP: `rows`, `merge`, `fold` and `job`, or `tables` and then `range`, `ranges`,
//! `table-merge`, `scan` or `pages`.
//! The program prints how many rows were made, and how many the last step gave.
#![tactic(auto)]

mod ranges;
mod scans;
mod sources;
mod steps;

use sources::{Load, SOURCES};
use std::env;
use std::process::ExitCode;
use std::rt::Env;
use steps::{Step, count};

// The exit status if the words are not `N P STEP [SOURCES]`.
const USAGE: u8 = 2;

// The number of sources that a word says. There are two at least.
fn sources_in(word: &str) -> Option<u64> {
    let sources = word.parse::<u64>().ok()?;
    if sources < 2 { None } else { Some(sources) }
}

// The load and the step that the command line asks for. None if its words are not `N P STEP` or
// `N P STEP SOURCES`.
fn asked(rt: &(impl Env + Alloc)) -> Option<(Load, Step)> {
    let mut words = env::args(rt).ok()?.skip(1);
    let rows = words.next()?.parse::<u64>().ok()?;
    let operands = words.next()?.parse::<u64>().ok()?;
    let step = Step::named(words.next()?.as_str())?;
    let sources = match words.next() {
        Some(word) => sources_in(word.as_str())?,
        None => SOURCES,
    };
    let load = Load {
        rows,
        operands,
        sources,
    };
    match words.next() {
        Some(_) => None,
        None => Some((load, step)),
    }
}

fn main(rt: HostRuntime) -> ExitCode {
    let Some((load, step)) = asked(&rt) else {
        return ExitCode::from(USAGE);
    };
    let Ok((rows, given)) = count(&rt, rt.alloc(), load, step) else {
        return ExitCode::FAILURE;
    };
    let name = step.name();
    match println!(rt; "{name} {rows} rows, {given} given") {
        Ok(()) => ExitCode::SUCCESS,
        Err(_) => ExitCode::FAILURE,
    }
}
