ghost use Rattle.std.specs.Prelude.{◌≡◌};
ghost use Rattle.engine.specs.Seen.{state};
ghost use Rattle.machine.specs.State.{fresh};

use crate::checksum::Checksum;
use engine::{LEAST_ANSWER_BUFFER, LEAST_WORK_BUFFER, Module};
use matcher::Matcher;
use memory::Memory;

/// The number of the module.
const OWN: u16 = 1;

/// The quality of every scan.
const QUALITY: u8 = 80;

/// A module at work, with the buffers that its calls are lent and a checksum of what they answered.
#[derive(Drop)]
pub(crate) struct Workbench<M: Matcher, S: Memory> {
    module: Module<M, S>,
    out: [u8; LEAST_ANSWER_BUFFER],
    work: [u8; LEAST_WORK_BUFFER],
    sum: Checksum,
}

impl<M: Matcher, S: Memory> Workbench<M, S> {
    /// A fresh module of number 1 over a matcher and a memory, which has answered nothing yet.
    pub fn new(matcher: M, memory: S) -> Workbench<M, S>
        ensures made { state M.Matcher S.Memory result.«module» ≡ fresh
            (M.Matcher.yes matcher) S.Memory.T (S.Memory.room memory) 1 }
        ensures unasked { result.sum.0 ≡ 0 }
    {
        Workbench {
            module: Module::new(matcher, memory, OWN),
            out: [0; LEAST_ANSWER_BUFFER],
            work: [0; LEAST_WORK_BUFFER],
            sum: Checksum(0),
        }
    }

    /// Gives the module a frame, and takes its answer into the checksum.
    pub fn packet(&mut self, frame: &[u8]) {
        let given = self.module.packet(frame, &mut self.out, &mut self.work);
        self.sum.take(given, &self.out);
    }

    /// Gives the module a scan, and takes its answer into the checksum.
    pub fn finger(&mut self, scan: &[u8]) {
        let given = self
            .module
            .finger(scan, QUALITY, &mut self.out, &mut self.work);
        self.sum.take(given, &self.out);
    }

    /// The checksum of what the module has answered so far.
    pub fn sum(&self) -> u32 {
        self.sum.0
    }
}
