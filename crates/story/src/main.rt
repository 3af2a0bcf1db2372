//! The life of one module: who may let others enrol, what a grant is worth, and what a full memory says.
#![tactic(auto)]

mod ask;
mod bench;
mod chapters;
mod full;
mod person;
mod stage;
mod standing;
mod telling;
mod words;

use bench::Bench;
use clap::Command;
use cli::{Stop, exit_code};
use stage::Stage;
use std::env;
use std::io::BufWriter;
use std::process::ExitCode;
use telling::Telling;

/// Reads the arguments: there are none, but for the one that asks for help.
fn read_arguments(rt: &HostRuntime) -> Result<(), Stop> {
    let heap = rt.alloc();
    let words: Vec<String> = env::args(rt)?.collect(heap)?;
    Command::new(heap, "story")
        .about("Tells the life of one module, step by step.")
        .try_get_matches_from(words.as_slice())?;
    Ok(())
}

fn run(rt: &HostRuntime) -> Result<(), Stop> {
    read_arguments(rt)?;
    let heap = rt.alloc();
    let telling = Telling::new(BufWriter::new(heap, rt.stdout())?);
    let mut stage = Stage::new(Bench::new(heap)?, telling);
    stage.open()?;
    chapters::tell(&mut stage)?;
    stage.close()
}

fn main(rt: HostRuntime) -> ExitCode {
    exit_code(&rt, run(&rt))
}
