ghost use Rattle.std.specs.Prelude.{◌≡◌, ◌≤◌, List, [], map, length, replicate};
ghost use Rattle.device.specs.View.{said_in};
ghost use Rattle.engine.specs.Seen.{call, entry, event_of, listed, state};
ghost use Rattle.engine.specs.Shows.{Served, Shows};
ghost use Rattle.machine.specs.Machine.{step_of};
ghost use Rattle.machine.specs.Machine.Event.{finger, packet, second};
ghost use Rattle.machine.specs.State.{fresh};
ghost use Rattle.memory.specs.Held.{Held};
ghost use Rattle.promises.specs.Calls.{Keeps, Run};
ghost use Rattle.promises.specs.Promises.{Promised};

use crate::answer::{Answer, Outcomes};
use crate::guard::Cleared;
use crate::hearing::hear;
use crate::inner::Module;
use crate::writing::write_answers;
use codes::Refusal;
use device::{Answers, Device, LONGEST_TEMPLATE};
use matcher::Matcher;
use memory::Memory;
use phases::{Event, Scan};

/// The bytes of the shortest answer buffer that a call takes: LT's answer for 500 templates has room in it.
pub const LEAST_ANSWER_BUFFER: usize = 2048;

/// The bytes of the shortest work buffer that a call takes: 384, so that a template of any memory has room in it.
pub const LEAST_WORK_BUFFER: usize = LONGEST_TEMPLATE;

/// The outcomes of what is answered.
fn outcomes_of(answers: Answers) -> Outcomes
    ensures { (h : List Held) → listed result ≡ map (λ y. y.outcome) (said_in h answers) }
{
    match answers {
        Answers::Nothing => Outcomes::Nothing,
        Answers::One(told) => Outcomes::One(told.outcome),
        Answers::WithData(told, _) => Outcomes::One(told.outcome),
        Answers::Two(first, second) => Outcomes::Two(first.outcome, second.outcome),
    }
}

impl<M: Matcher, S: Memory> Module<M, S> {
    /// A call whose buffers are long enough: whatever comes of it, the work buffer is cleared.
    fn serve_within(
        &mut self,
        event: Event<&[u8], Scan<'_>>,
        out: &mut [u8],
        work: &mut [u8],
    ) -> Result<Answer, Refusal>
        requires in_bounds { 2048 ≤ length out.old }
        requires in_bounds_2 { 384 ≤ length work.old }
        ensures shows { Shows (state M.Matcher S.Memory self.old) (event_of event.entry)
            (step_of (state M.Matcher S.Memory self.old)
            (call (event_of event.entry) out.old work.old)) result
            (state M.Matcher S.Memory self.new) out.old out.new }
        ensures cleared { work.new ≡ replicate (length work.old) 0 }
    {
        let guard = Cleared(work);
        let own = self.device.own;
        let answers = hear(&mut self.device, event, guard.0)?;
        let count = write_answers(&self.device.memory, own, out, answers);
        Ok(Answer {
            outcomes: outcomes_of(answers),
            count,
        })
    }

    /// A call: too short a buffer is refused before all else, and then nothing is touched.
    #[inline(always)]
    fn serve(
        &mut self,
        event: Event<&[u8], Scan<'_>>,
        out: &mut [u8],
        work: &mut [u8],
    ) -> Result<Answer, Refusal>
        ensures { Served (state M.Matcher S.Memory self.old)
            (call (event_of event.entry) out.old work.old) result
            (state M.Matcher S.Memory self.new) out.new work.new }
    {
        if out.len() < LEAST_ANSWER_BUFFER {
            return Err(Refusal::AnswerBuffer);
        }
        if work.len() < LEAST_WORK_BUFFER {
            return Err(Refusal::WorkBuffer);
        }
        self.serve_within(event, out, work)
    }

    /// A module over a matcher and a memory, which is emptied: unlocked, idle and without administrators, its
    /// password sixteen zero bytes, its parameters at their first values. A run of the module begins here, and
    /// every promise holds of it.
    pub fn new(matcher: M, memory: S, own: u16) -> Module<M, S>
        ensures made { state M.Matcher S.Memory result ≡ fresh
            (M.Matcher.yes matcher) S.Memory.T (S.Memory.room memory) own }
        ensures begins { Run [] (state M.Matcher S.Memory result) }
        ensures promises { Promised
            (fresh (M.Matcher.yes matcher) S.Memory.T (S.Memory.room memory) own) [] []
            (state M.Matcher S.Memory result) }
    {
        Module {
            device: Device::new(matcher, memory, own),
        }
    }

    /// A frame has come from the host.
    pub fn packet(
        &mut self,
        frame: &[u8],
        out: &mut [u8],
        work: &mut [u8],
    ) -> Result<Answer, Refusal>
        ensures served { Served (state M.Matcher S.Memory self.old)
            (call (packet frame.now) out.old work.old) result
            (state M.Matcher S.Memory self.new) out.new work.new }
        ensures promises { Keeps (state M.Matcher S.Memory self.old)
            (entry (call (packet frame.now) out.old work.old) result)
            (state M.Matcher S.Memory self.new) }
    {
        self.serve(Event::Packet(frame), out, work)
    }

    /// The sensor has scanned a finger.
    pub fn finger(
        &mut self,
        scan: &[u8],
        quality: u8,
        out: &mut [u8],
        work: &mut [u8],
    ) -> Result<Answer, Refusal>
        ensures served { Served (state M.Matcher S.Memory self.old)
            (call (finger scan.now quality) out.old work.old) result
            (state M.Matcher S.Memory self.new) out.new work.new }
        ensures promises { Keeps (state M.Matcher S.Memory self.old)
            (entry (call (finger scan.now quality) out.old work.old) result)
            (state M.Matcher S.Memory self.new) }
    {
        let scanned = Scan {
            bytes: scan,
            quality,
        };
        self.serve(Event::Finger(scanned), out, work)
    }

    /// A second has passed.
    pub fn second(&mut self, out: &mut [u8], work: &mut [u8]) -> Result<Answer, Refusal>
        ensures served { Served (state M.Matcher S.Memory self.old)
            (call second out.old work.old) result
            (state M.Matcher S.Memory self.new) out.new work.new }
        ensures promises { Keeps (state M.Matcher S.Memory self.old)
            (entry (call second out.old work.old) result)
            (state M.Matcher S.Memory self.new) }
    {
        self.serve(Event::Second, out, work)
    }
}
