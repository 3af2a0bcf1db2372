//! Reads captured frames from standard input, a line of hexadecimal digits each, and tells what each asks.
#![tactic(auto)]

mod capture;
mod following;
mod hearing;
mod line;
mod options;
mod report;

use capture::Capture;
use cli::{Stop, exit_code};
use following::follow;
use options::read_hearing;
use report::Report;
use std::env;
use std::io::{BufReader, BufWriter};
use std::process::ExitCode;

/// Tells what each line of standard input asks, and at its end how many lines there were of each kind.
fn run(rt: &HostRuntime) -> Result<(), Stop> {
    let heap = rt.alloc();
    let words: Vec<String> = env::args(rt)?.collect(heap)?;
    let mut capture = Capture::new(read_hearing(heap, &words)?);
    let mut input = BufReader::new(heap, rt.stdin())?;
    let mut report = Report::new(BufWriter::new(heap, rt.stdout())?);
    follow(heap, &mut capture, &mut input, &mut report)?;
    Ok(report.summary(&capture)?)
}

fn main(rt: HostRuntime) -> ExitCode {
    exit_code(&rt, run(&rt))
}
