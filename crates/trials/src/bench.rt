use codes::{Code, Coded, Command, Parameter, Refusal};
use engine::{Answer, LEAST_ANSWER_BUFFER, LEAST_WORK_BUFFER, Module, Outcomes};
use packet::{Form, Outcome, Request, write_request};
use page_memory::{PAGE, PageMemory};
use point_matcher::PointMatcher;
use std::alloc::{AllocError, Global};
use std::array;
use std::test::*;

/// The bytes of a scan: those of a template of a page memory.
pub(crate) const SCAN: usize = PAGE;

const LAST: usize = SCAN - 1;

/// More bytes than any request of the trials takes.
const LONGEST_FRAME: usize = 512;

/// A module on the bench, with the buffers that its calls are lent, as short as they may be.
#[derive(Drop)]
pub(crate) struct Bench {
    pub module: Module<PointMatcher, PageMemory>,
    pub out: [u8; LEAST_ANSWER_BUFFER],
    work: [u8; LEAST_WORK_BUFFER],
}

/// What a call gave: the Size of its last outcome, and what it wrote, which is lent until the next call.
#[derive(Clone, Copy)]
pub(crate) struct Given<'a> {
    pub size: u32,
    pub written: &'a [u8],
}

/// A scan of so many points, of which the first ones lie at one place and the others far from it.
/// The mark stands behind the points, where the point matcher does not look.
pub(crate) fn scan_of(points: u8, near: u8, mark: u8) -> [u8; SCAN] {
    let far = 3 * usize::from(near) + 1..3 * usize::from(points) + 1;
    array::from_fn(|at| match at {
        0 => points,
        LAST => mark,
        _ if far.contains(&at) && at % 3 == 1 => 100,
        _ => 0,
    })
}

/// A request of the standard form that carries no data.
pub(crate) fn request(command: Command, param: u32, size: u32, flag: u8) -> Request<'static> {
    Request {
        form: Form::Standard,
        command: Coded::Known(command),
        param,
        size,
        flag,
        data: &[],
    }
}

/// ET: the template replaces those of the ID.
pub(crate) fn enroll_template(id: u32, template: &[u8; SCAN]) -> Request<'_> {
    Request {
        form: Form::Standard,
        command: Coded::Known(Command::EnrollTemplate),
        param: id,
        size: SCAN as u32,
        flag: 0,
        data: template,
    }
}

pub(crate) fn set(parameter: Parameter, value: u32) -> Request<'static> {
    request(Command::WriteParameter, 0, value, u8::from(parameter))
}

pub(crate) fn get(parameter: Parameter) -> Request<'static> {
    request(Command::ReadParameter, 0, 0, u8::from(parameter))
}

pub(crate) fn all_are(bytes: &[u8], value: u8) -> bool {
    bytes.iter().all(|byte| *byte == value)
}

/// The last outcome of a call, if it has one.
fn last_of(outcomes: Outcomes) -> Option<Outcome> {
    match outcomes {
        Outcomes::Nothing => None,
        Outcomes::One(outcome) | Outcomes::Two(_, outcome) => Some(outcome),
    }
}

fn refused(refusal: Refusal) -> Fail {
    Fail::new(refusal.name())
}

/// What a call gave whose last outcome has this code.
fn ended_with(answer: Answer, out: &[u8], code: Code) -> Result<Given<'_>, Fail> {
    let last = last_of(answer.outcomes).ok_or("no outcome")?;
    if last.code != code {
        return Err(Fail::new("another code"));
    }
    Ok(Given {
        size: last.size,
        written: answer.written(out),
    })
}

impl Bench {
    /// A fresh module with a number, over a chip of so many pages.
    pub(crate) fn new(heap: Global, pages: u8, own: u16) -> Result<Bench, AllocError> {
        let chip = vec![in heap; 0u8; usize::from(pages) * PAGE]?;
        Ok(Bench {
            module: Module::new(PointMatcher, PageMemory::new(chip), own),
            out: [0; LEAST_ANSWER_BUFFER],
            work: [0; LEAST_WORK_BUFFER],
        })
    }

    fn send(&mut self, request: Request<'_>) -> Result<Answer, Fail> {
        let mut frame = [0; LONGEST_FRAME];
        let length = write_request(&mut frame, request).ok_or("a request too long")?;
        let sent = frame.get(0..length).ok_or("a request too long")?;
        self.module
            .packet(sent, &mut self.out, &mut self.work)
            .map_err(refused)
    }

    /// Sends a request that is carried out at once, with this code.
    pub(crate) fn ask(&mut self, request: Request<'_>, code: Code) -> Result<Given<'_>, Fail> {
        let answer = self.send(request)?;
        ended_with(answer, &self.out, code)
    }

    /// Sends a request that waits for a finger.
    pub(crate) fn start(&mut self, request: Request<'_>) -> Result<(), Fail> {
        match last_of(self.send(request)?.outcomes) {
            Some(_) => Err(Fail::new("an outcome")),
            None => Ok(()),
        }
    }

    /// Lays a finger, whose last outcome has this code.
    pub(crate) fn finger(
        &mut self,
        scan: &[u8; SCAN],
        quality: u8,
        code: Code,
    ) -> Result<Given<'_>, Fail> {
        let answer = self
            .module
            .finger(scan, quality, &mut self.out, &mut self.work)
            .map_err(refused)?;
        ended_with(answer, &self.out, code)
    }
}
