ghost use Rattle.std.specs.Prelude.{◌≡◌, IfOk};
ghost use Rattle.story.specs.Told.{bench_state, told_module};

use crate::ask::Ask;
use anyhow::{Context, anyhow};
use codes::Refusal;
use engine::{Answer, LEAST_ANSWER_BUFFER, LEAST_WORK_BUFFER, Module, Outcomes};
use matcher::ByteMatcher;
use packet::write_request;
use page_memory::{PAGE, PageMemory};
use std::alloc::{AllocError, Global};

/// The places of the module's memory.
pub(crate) const PLACES: u16 = 16;

/// The module's number.
pub(crate) const OWN: u16 = 1;

/// More bytes than any request of the story takes.
const LONGEST_FRAME: usize = 512;

/// A module on the bench, with the buffers that its calls are lent.
#[derive(Drop)]
pub(crate) struct Bench {
    module: Module<ByteMatcher, PageMemory>,
    out: [u8; LEAST_ANSWER_BUFFER],
    work: [u8; LEAST_WORK_BUFFER],
}

/// What a call gave: its outcomes, and what it wrote, which is lent until the next call.
#[derive(Clone, Copy)]
pub(crate) struct Given<'a> {
    pub outcomes: Outcomes,
    pub written: &'a [u8],
}

/// A refusal ends the story.
pub(crate) fn refused(refusal: Refusal) -> anyhow::Error {
    anyhow!("{refusal}")
}

/// What a call gave, which wrote at the front of the answer buffer.
fn given_by(answer: Result<Answer, Refusal>, out: &[u8]) -> anyhow::Result<Given<'_>> {
    let answer = answer.map_err(refused)?;
    Ok(Given {
        outcomes: answer.outcomes,
        written: answer.written(out),
    })
}

impl Bench {
    /// The module of the story, which is fresh. An `Err` says that there is no memory for its pages.
    pub fn new(heap: Global) -> Result<Bench, AllocError>
        ensures { IfOk result (λ bench. bench_state bench ≡ told_module) }
    {
        let chip = vec![in heap; 0u8; usize::from(PLACES) * PAGE]?;
        Ok(Bench {
            module: Module::new(ByteMatcher, PageMemory::new(chip), OWN),
            out: [0; LEAST_ANSWER_BUFFER],
            work: [0; LEAST_WORK_BUFFER],
        })
    }

    /// The host sends a request.
    pub fn ask(&mut self, ask: Ask) -> anyhow::Result<Given<'_>> {
        let mut frame = [0; LONGEST_FRAME];
        let length = write_request(&mut frame, ask.request(&ask.template()));
        let sent = length
            .and_then(|length| frame.get(..length))
            .context("the request is longer than the line takes")?;
        let answer = self.module.packet(sent, &mut self.out, &mut self.work);
        given_by(answer, &self.out)
    }

    /// The sensor has scanned a finger.
    pub fn finger(&mut self, scan: &[u8], quality: u8) -> anyhow::Result<Given<'_>> {
        let answer = self
            .module
            .finger(scan, quality, &mut self.out, &mut self.work);
        given_by(answer, &self.out)
    }

    /// A second has passed.
    pub fn second(&mut self) -> anyhow::Result<Given<'_>> {
        let answer = self.module.second(&mut self.out, &mut self.work);
        given_by(answer, &self.out)
    }
}
