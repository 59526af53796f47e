//! The fleet's program. `fleet run` runs the script on standard input and writes its replies to
//! standard output. `fleet run level <trigger> <base> <ratio>` does so under the level scheduler.
#![tactic(auto)]

use fleet_fold::AppendOperator;
use fleet_level::{LevelOptions, LevelScheduler};
use fleet_run::{Fleet, FleetOptions, StreamSink, StreamSource, fleet_main};
use fleet_sched::{CompactionScheduler, SizeTieredCompactionScheduler};
use std::io::ErrorKind;
use std::process::ExitCode;
use std::rt::Env;
use std::{env, io};

// The status if a word of the command line is not UTF-8.
const USAGE: u8 = 2;

// The status if there is no memory for the words of the command line or for the fleet.
const MEMORY: u8 = 6;

// The most jobs that the level scheduler lets run at a time.
const LEVEL_JOBS: u64 = 4;

// The words of the command line after the program's name, or the status if they cannot be had.
fn words_of<R: Env + Alloc>(rt: &R) -> Result<Vec<String<R::A>, R::A>, u8> {
    let given = match env::args(rt) {
        Ok(given) => given,
        Err(error) if error.kind() == ErrorKind::InvalidData => return Err(USAGE),
        Err(_) => return Err(MEMORY),
    };
    let mut words = Vec::new(rt.alloc());
    for word in given.skip(1) {
        if words.push(word).is_err() {
            return Err(MEMORY);
        }
    }
    Ok(words)
}

fn main(rt: HostRuntime) -> ExitCode {
    let alloc = rt.alloc();
    let words = match words_of(&rt) {
        Ok(words) => words,
        Err(status) => return ExitCode::from(status),
    };
    let texts: Result<Vec<&str>, _> = words.iter().map(|word| word.as_str()).collect(alloc);
    let Ok(texts) = texts else {
        return ExitCode::from(MEMORY);
    };
    let Ok(mut fleet) = Fleet::new(alloc, FleetOptions::default()) else {
        return ExitCode::from(MEMORY);
    };
    let Ok(sizes) = Box::new(alloc, SizeTieredCompactionScheduler::default()) else {
        return ExitCode::from(MEMORY);
    };
    let mut scheduler: Box<dyn CompactionScheduler + Send + Sync> = sizes;
    if let Some(options) = LevelOptions::from_words(texts.as_slice()) {
        let Ok(levels) = Box::new(alloc, LevelScheduler::new(options, LEVEL_JOBS)) else {
            return ExitCode::from(MEMORY);
        };
        scheduler = levels;
    }
    let mut source = StreamSource::new(rt.reader());
    let mut sink = StreamSink::new(io::writer(&rt));
    ExitCode::from(fleet_main(
        &rt,
        alloc,
        texts.as_slice(),
        &mut source,
        &AppendOperator,
        scheduler,
        &mut fleet,
        &mut sink,
    ))
}
