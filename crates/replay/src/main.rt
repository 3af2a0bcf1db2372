//! Drives a module by each recorded script of a folder, and compares what is printed with the recorded answers.
#![tactic(auto)]

mod script;

use anyhow::anyhow;
use benchrun::{Replayed, replay};
use clap::{Arg, Command};
use cli::{Stop, exit_code};
use script::{Script, names_in};
use std::alloc::{AllocError, Global};
use std::env;
use std::process::ExitCode;

/// The argument and its help.
fn usage<'a>(heap: Global) -> Result<Command<'a>, AllocError> {
    let folder = Arg::new(heap, "FOLDER")
        .help("Where NAME.in, NAME.out and, for a script with options, NAME.args stand")
        .default_value(".");
    Command::new(heap, "replay")
        .about("Compares what the bench prints for each recorded script with its recorded answers.")
        .arg(folder)
}

/// Replays the scripts in the order of their names. The first one that differs from its answers ends it.
fn replay_all(rt: &HostRuntime, folder: &str) -> Result<(), Stop> {
    let heap = rt.alloc();
    let names = names_in(rt, folder)?;
    if names.is_empty() {
        return Err(Stop::from(anyhow!("no script NAME.in in {folder}")));
    }
    for name in &names {
        let script = Script::read(rt, folder, name.as_str())?;
        match replay(heap, script.making, &script.lines, &script.answers)? {
            Replayed::Same(None) => println!(rt; "{name}: as recorded")?,
            Replayed::Same(Some(complaint)) => println!(rt; "{name}: as recorded; {complaint}")?,
            Replayed::Different { line } => {
                return Err(Stop::from(anyhow!("{name}: line {line} has another answer")));
            }
        }
    }
    Ok(())
}

fn run(rt: &HostRuntime) -> Result<(), Stop> {
    let heap = rt.alloc();
    let words: Vec<String> = env::args(rt)?.collect(heap)?;
    let matches = usage(heap)?.try_get_matches_from(words.as_slice())?;
    replay_all(rt, matches.get_str("FOLDER").unwrap_or("."))
}

fn main(rt: HostRuntime) -> ExitCode {
    exit_code(&rt, run(&rt))
}
