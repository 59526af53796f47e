//! A program that runs cases of single calls. Each line of standard input is a case. For
//! `NAME CALL WORDS` it prints `NAME ANSWER`. For `NAME CALL WORDS => ANSWER` it prints a line only
//! if the call answers otherwise. The last line counts the cases, and how many of them differ.
#![tactic(auto)]

mod case;

use case::Tally;
use std::io::{self, BufRead, BufReader, BufWriter, Write};
use std::process::ExitCode;
use std::thread::Threads;

fn run(rt: &(impl Input + Print + AllocGlobal + Threads + Sync)) -> io::Result<Tally> {
    let alloc = rt.alloc();
    let mut out = BufWriter::new(alloc, io::writer(rt))?;
    let mut said = String::new(alloc);
    let mut tally = Tally::new();
    'lines: for line in BufReader::new(alloc, rt.reader())?.split(alloc, b'\n') {
        let line = line?;
        said.clear();
        tally.take(rt, alloc, line.as_slice(), &mut said)?;
        out.write_all(said.as_bytes())?;
    }
    said.clear();
    tally.tell(&mut said)?;
    out.write_all(said.as_bytes())?;
    out.flush()?;
    Ok(tally)
}

fn main(rt: HostRuntime) -> ExitCode {
    match run(&rt) {
        Ok(tally) if tally.differ == 0 => ExitCode::SUCCESS,
        _ => ExitCode::FAILURE,
    }
}
