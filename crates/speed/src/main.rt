//! Gives a module the same work again and again, so that its speed can be measured from outside.
#![tactic(auto)]

mod checksum;
mod frames;
mod making;
mod options;
mod templates;
mod workbench;
mod workloads;

use cli::{Stop, exit_code};
use options::{Options, Workload, read_options};
use std::alloc::Global;
use std::env;
use std::process::ExitCode;

/// Does a workload so many times, and gives the checksum of what the module answered.
fn sum_of(heap: Global, options: Options) -> anyhow::Result<u32> {
    let count = options.count;
    match options.workload {
        Workload::Frames => workloads::frames(heap, count),
        Workload::List => workloads::list(heap, count),
        Workload::Identify => workloads::identify(heap, count),
        Workload::IdentifyBytes => workloads::identify_bytes(heap, count),
        Workload::Enroll => workloads::enroll(heap, count),
        Workload::Delete => workloads::delete(heap, count),
    }
}

/// Does the workload that the arguments name, and prints its checksum.
fn run(rt: &HostRuntime) -> Result<(), Stop> {
    let heap = rt.alloc();
    let words: Vec<String> = env::args(rt)?.collect(heap)?;
    let options = read_options(heap, &words)?;
    let sum = sum_of(heap, options)?;
    let Options { workload, count } = options;
    Ok(println!(rt; "{workload} {count}: {sum:08x}")?)
}

fn main(rt: HostRuntime) -> ExitCode {
    exit_code(&rt, run(&rt))
}
