//! The engine in a program of one's own, as the README shows it.
#![tactic(auto)]

ghost use Rattle.std.specs.Prelude.{◌≡◌, IfOk};
ghost use Rattle.embed.specs.Made.{made};
ghost use Rattle.engine.specs.Seen.{state};

use engine::{LEAST_ANSWER_BUFFER, LEAST_WORK_BUFFER, Module};
use matcher::{ByteMatcher, Matcher};
use memory::Memory;
use page_memory::{PAGE, PageMemory};
use std::alloc::{AllocError, Global};
use std::{env, io};

/// A fresh module: 16 pages, the byte matcher, number 1.
fn make(heap: Global) -> Result<Module<ByteMatcher, PageMemory>, AllocError>
    ensures { IfOk result (λ m. state ⟦<ByteMatcher as Matcher>⟧ ⟦<PageMemory as Memory>⟧ m ≡ made) }
{
    let chip = vec![in heap; 0u8; 16 * PAGE]?;
    Ok(Module::new(ByteMatcher, PageMemory::new(chip), 1))
}

/// Whoever read the output may have closed it: that is no failure.
fn unless_closed(printed: io::Result<()>) -> io::Result<()> {
    match printed {
        Err(error) if error.kind() == io::ErrorKind::BrokenPipe => Ok(()),
        other => other,
    }
}

fn main(rt: HostRuntime) -> anyhow::Result<()> {
    if env::args(&rt)?
        .skip(1)
        .any(|word| word.as_str() == "--help")
    {
        let help = println!(rt;
            "Asks a fresh module how many places are free, and prints its answer."
        );
        return Ok(unless_closed(help)?);
    }
    let mut module = make(rt.alloc())?;
    let mut out = [0; LEAST_ANSWER_BUFFER];
    let mut work = [0; LEAST_WORK_BUFFER];
    // The host asks how many places are free: SR of Available Finger.
    let frame = [0x40, 0x03, 0, 0, 0, 0, 0, 0, 0, 0, 0x74, 0xB7, 0x0A];
    let printed = match module.packet(&frame, &mut out, &mut work) {
        Ok(answer) => println!(rt; "{:?}: {:?}", answer.outcomes, answer.written(&out)),
        Err(refusal) => println!(rt; "refused: {refusal}"),
    };
    Ok(unless_closed(printed)?)
}
