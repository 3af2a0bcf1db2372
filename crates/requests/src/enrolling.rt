ghost use Rattle.std.specs.Prelude.{◌≡◌, ℕ, ◌-◌, ◌<◌, ◌≤◌, length, IfOk, Some};
ghost use Rattle.codes.specs.declared.code.Code.TheVariants.{InvalidId};
ghost use Rattle.device.specs.View.{phase_of, view};
ghost use Rattle.device.specs.declared.awaited.FirstScan.{FirstScan};
ghost use Rattle.machine.specs.Answers.{Step};
ghost use Rattle.machine.specs.Enrollment.{enroll_fault, enroll_id};
ghost use Rattle.machine.specs.Requests.{enroll, enroll_by, enroll_template, first_phase, is_missing};
ghost use Rattle.machine.specs.Settings.{templates_in};
ghost use Rattle.machine.specs.declared.enrollment.Enrollment.{Enrollment as Enrolling};
ghost use Rattle.packet.specs.Requests.{request_parts};
ghost use Rattle.requests.specs.Ending.{KeptOnErr, Obeys, or_fault};
ghost use Rattle.requests.specs.Sizes.{sized};
ghost use Rattle.std.specs.Option.{ok_or};
ghost use Rattle.std.specs.Result.{result_err};

use crate::answer::answer;
use crate::fields::{flag_in, free_places, has_any, id_in};
use administrators::Right;
use codes::{Code, EnrollFlag};
use device::{Answers, Awaited, Device, LONGEST_TEMPLATE, enroll_one};
use machine::{EnrollMode, Enroller, Enrollment};
use matcher::Matcher;
use memory::Memory;
use packet::Request;
use search::{count_of, lowest_free_id};

/// How many templates an ID may have.
const MOST_TEMPLATES: u32 = 10;

/// The ID that is enrolled.
fn enroll_id<M: Matcher, S: Memory>(
    device: &Device<M, S>,
    flag: EnrollFlag,
    param: u32,
) -> Result<u16, Code>
    ensures { result ≡ ok_or (enroll_id (view M.Matcher S.Memory device.now) flag param) InvalidId }
{
    match flag {
        EnrollFlag::AutoId => Ok(lowest_free_id(&device.memory)),
        EnrollFlag::Replace | EnrollFlag::CheckId | EnrollFlag::AddNew | EnrollFlag::CheckFinger =>
            id_in(param),
    }
}

/// The last tests: whether something stands in the way of so many new templates.
fn no_fault<M: Matcher, S: Memory>(
    device: &Device<M, S>,
    flag: EnrollFlag,
    id: u16,
    needed: u32,
) -> Result<(), Code>
    ensures { result_err result ≡ enroll_fault (view M.Matcher S.Memory device.now) flag id needed }
{
    match flag {
        EnrollFlag::CheckId if has_any(&device.memory, id) => Err(Code::ExistId),
        EnrollFlag::AddNew | EnrollFlag::CheckFinger
            if count_of(&device.memory, id).saturating_add(needed) > MOST_TEMPLATES => {
            Err(Code::FingerLimit)
        }
        _ if free_places(&device.memory) < needed => Err(Code::MemFull),
        _ => Ok(()),
    }
}

/// Whether an administrator is wanted, and there is none who may let others enrol.
fn is_missing<M: Matcher, S: Memory>(device: &Device<M, S>, by: Enroller) -> bool
    ensures { result ≡ is_missing (view M.Matcher S.Memory device.now) by }
{
    by == Enroller::Administrator && !device.admins.any_may(Right::Enroll)
}

/// The tests that every enrolment begins with.
fn enrollment<M: Matcher, S: Memory>(
    device: &Device<M, S>,
    request: Request<'_>,
    by: Enroller,
    needed: u32,
) -> Result<Enrollment, Code>
    ensures value { let s = view M.Matcher S.Memory device.now in let q = request_parts request.entry in
        (f : Enrolling → Step) → or_fault s q f result ≡ enroll s q by (is_missing s by) needed f }
    ensures possible { IfOk result (λ e. (0 < e.id)
        × (needed ≤ S.Memory.room device.now.memory - length (S.Memory.held device.now.memory))) }
{
    let flag = flag_in::<EnrollFlag>(request.flag)?;
    let id = enroll_id(device, flag, request.param)?;
    if is_missing(device, by) {
        return Err(Code::Unsupported);
    }
    no_fault(device, flag, id, needed)?;
    Ok(Enrollment { id, flag, by })
}

/// How many templates an enrolment by fingers gives.
fn templates_in(mode: EnrollMode) -> u32
    ensures { result ≡ templates_in mode }
{
    match mode {
        EnrollMode::Once | EnrollMode::Twice => 1,
        EnrollMode::TwoTemplates => 2,
    }
}

/// What an enrolment by fingers waits for first.
fn first_awaited(by: Enroller, enrollment: Enrollment) -> Awaited
    ensures { (size : ℕ) (one : FirstScan) → phase_of size one result ≡ Some (first_phase by enrollment) }
{
    match by {
        Enroller::Host => Awaited::FirstFinger(enrollment),
        Enroller::Administrator => Awaited::GrantToEnroll(enrollment),
    }
}

/// ES waits for the finger that is to be enrolled, ESA for an administrator first.
pub(crate) fn enroll<M: Matcher, S: Memory>(
    device: &mut Device<M, S>,
    request: Request<'_>,
    by: Enroller,
) -> Result<Answers, Code>
    ensures value { Obeys M.Matcher S.Memory (enroll_by by) device.old device.new request.entry result }
    ensures kept { KeptOnErr M.Matcher S.Memory device.old device.new result }
{
    let needed = templates_in(device.settings.enroll);
    let enrollment = enrollment(device, request, by, needed)?;
    device.wait_for(first_awaited(by, enrollment), request.form);
    Ok(Answers::Nothing)
}

/// ET: enrols the template that comes as data, if it is as long as the memory's.
pub(crate) fn enroll_template<M: Matcher, S: Memory>(
    device: &mut Device<M, S>,
    request: Request<'_>,
    work: &mut [u8; LONGEST_TEMPLATE],
) -> Result<Answers, Code>
    ensures value { Obeys M.Matcher S.Memory (λ s q. enroll_template s (sized q))
        device.old device.new request.entry result }
    ensures kept { KeptOnErr M.Matcher S.Memory device.old device.new result }
{
    if request.data.len() != S::T {
        return Err(Code::Unsupported);
    }
    let enrollment = enrollment(device, request, Enroller::Host, 1)?;
    if device.is_held(enrollment.flag, request.data, work) {
        return Err(Code::ExistFinger);
    }
    enroll_one(&mut device.memory, enrollment, request.data);
    Ok(answer(request, u32::from(enrollment.id), 0, Code::Success))
}
