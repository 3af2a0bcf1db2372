//! Reads bench lines from standard input, and prints for each what a module makes of it.
#![tactic(auto)]

use benchrun::{read_making, serve};
use cli::{Stop, exit_code};
use session::Session;
use std::env;
use std::io::{BufReader, BufWriter};
use std::process::ExitCode;

/// Runs a module until the input ends, and then says which lines were ill-formed, if any were.
fn run(rt: &HostRuntime) -> Result<(), Stop> {
    let heap = rt.alloc();
    let words: Vec<String> = env::args(rt)?.collect(heap)?;
    let mut session = Session::new(heap, read_making(heap, &words)?)?;
    let mut input = BufReader::new(heap, rt.stdin())?;
    let mut output = BufWriter::new(heap, rt.stdout())?;
    if let Some(complaint) = serve(heap, &mut session, &mut input, &mut output)? {
        // Each line has its answer: the work is done, also where nobody hears of the ill-formed ones.
        let _ = eprintln!(rt; "bench: {complaint}");
    }
    Ok(())
}

fn main(rt: HostRuntime) -> ExitCode {
    exit_code(&rt, run(&rt))
}
