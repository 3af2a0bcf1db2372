ghost use Rattle.std.specs.Prelude.{◌≡◌, true, cond, length, is_some, Err, OnErr, nat_lt};
ghost use Rattle.codes.specs.declared.refusal.Refusal.TheVariants.{WorkBuffer};
ghost use Rattle.device.specs.View.{tried, view, went};
ghost use Rattle.machine.specs.Machine.{asked};
ghost use Rattle.machine.specs.Waiting.{on_second};
ghost use Rattle.packet.specs.Requests.{request_parts};
ghost use Rattle.phases.specs.Events.{Fits, as_came, decided, spoiled};
ghost use Rattle.phases.specs.Told.{command_in};

use crate::enrolling::{enroll_command, first_finger, second_finger};
use crate::good::GoodScan;
use crate::grants::{Grant, ask_administrator};
use crate::persons::{OneId, Question, delete, recognize};
use crate::scan::{Event, Scan};
use crate::telling::tell;
use codes::{Code, Coded, Command, Refusal};
use device::{Answers, Awaited, Device, LONGEST_TEMPLATE, Told};
use matcher::Matcher;
use memory::Memory;
use packet::Request;
use requests::start;

/// The command of the request that waits.
fn command_of<M: Matcher, S: Memory>(device: &Device<M, S>) -> Option<Command>
    ensures { result ≡ command_in (view M.Matcher S.Memory device.now).waiting }
{
    match device.awaited {
        Awaited::Nothing => None,
        Awaited::GrantToEnroll(enrollment)
        | Awaited::FirstFinger(enrollment)
        | Awaited::SecondFinger(enrollment) => Some(enroll_command(enrollment.by)),
        Awaited::GrantToDelete(_) | Awaited::PersonToDelete(_) => {
            Some(Command::DeleteByAdministrator)
        }
        Awaited::PersonToVerify(_) => Some(Command::Verify),
        Awaited::PersonToIdentify(_) => Some(Command::Identify),
    }
}

/// The request that waits, where one does, ends with this code.
fn give_up<M: Matcher, S: Memory>(device: &mut Device<M, S>, code: Code) -> Answers
    ensures { went (view M.Matcher S.Memory device.new) result
        ≡ spoiled (view M.Matcher S.Memory device.old) (view M.Matcher S.Memory device.old).waiting code }
{
    let Some(command) = command_of(device) else {
        return Answers::Nothing;
    };
    let told = tell(device, command, 0, 0, code);
    device.rest();
    Answers::One(told)
}

/// A request while another waits: only CA is heard.
fn disturb<M: Matcher, S: Memory>(device: &mut Device<M, S>, request: Request<'_>) -> Answers
    ensures { is_some (view M.Matcher S.Memory device.old).waiting ≡ true
        → went (view M.Matcher S.Memory device.new) result
        ≡ asked (view M.Matcher S.Memory device.old)
        (view M.Matcher S.Memory device.old).waiting (request_parts request.entry) }
{
    // One does wait: what is awaited was matched before.
    let Some(command) = command_of(device) else {
        return Answers::Nothing;
    };
    if !matches!(request.command, Coded::Known(Command::Cancel)) {
        return Answers::One(Told::own(request, 0, 0, Code::Busy));
    }
    let canceled = tell(device, command, 0, 0, Code::Canceled);
    device.rest();
    Answers::Two(canceled, Told::own(request, 0, 0, Code::Success))
}

/// A second passes: a wait of n seconds ends with the n-th, and one without end goes on.
#[tactic(auto, using(crate::proofs::Waits::times_out))]
fn tick<M: Matcher, S: Memory>(device: &mut Device<M, S>) -> Answers
    ensures { went (view M.Matcher S.Memory device.new) result
        ≡ on_second (view M.Matcher S.Memory device.old) (view M.Matcher S.Memory device.old).waiting }
{
    if device.left == 1 {
        return give_up(device, Code::TimeOut);
    }
    device.left = device.left.saturating_sub(1);
    Answers::Nothing
}

/// What is awaited and what comes decide together.
#[inline(always)]
fn match_awaited<M: Matcher, S: Memory>(
    device: &mut Device<M, S>,
    event: Event<Request<'_>, GoodScan<'_, S>>,
    work: &mut [u8; LONGEST_TEMPLATE],
) -> Result<Answers, Refusal>
    ensures value { Fits (view M.Matcher S.Memory device.old) (as_came event.entry)
        → tried (view M.Matcher S.Memory device.new) result
        ≡ decided (view M.Matcher S.Memory device.old) (as_came event.entry) }
    ensures refused { OnErr result (view M.Matcher S.Memory device.new ≡ view M.Matcher S.Memory device.old) }
    ensures untouched { OnErr result (work.new ≡ work.old) }
{
    match (&mut device.awaited, event) {
        (Awaited::Nothing, Event::Packet(request)) => start(device, request, work),
        (Awaited::Nothing, Event::Finger(_) | Event::Second) => Ok(Answers::Nothing),
        (_, Event::Packet(request)) => Ok(disturb(device, request)),
        (_, Event::Second) => Ok(tick(device)),
        (&mut Awaited::GrantToEnroll(enrollment), Event::Finger(scan)) => {
            Ok(ask_administrator(device, Grant::to_enroll(enrollment), scan, work))
        }
        (&mut Awaited::GrantToDelete(range), Event::Finger(scan)) => {
            Ok(ask_administrator(device, Grant::to_delete(range), scan, work))
        }
        (&mut Awaited::FirstFinger(enrollment), Event::Finger(scan)) => {
            Ok(first_finger(device, enrollment, scan, work))
        }
        (&mut Awaited::SecondFinger(enrollment), Event::Finger(scan)) => {
            Ok(second_finger(device, enrollment, scan))
        }
        (&mut Awaited::PersonToVerify(id), Event::Finger(scan)) => {
            Ok(recognize(device, Question::VERIFY, &OneId(id), scan, work))
        }
        (&mut Awaited::PersonToIdentify(range), Event::Finger(scan)) => {
            Ok(recognize(device, Question::IDENTIFY, &range, scan, work))
        }
        (&mut Awaited::PersonToDelete(range), Event::Finger(scan)) => {
            Ok(delete(device, range, scan, work))
        }
    }
}

/// What comes to a module whose lock lets it through; a finger of an enrolment where that can be carried out, as in
/// every module that calls have led to. Templates are compared in `work`, which is the caller's to clear; where it is
/// shorter than the longest template, all is refused, and a request that would start is where it lacks the data that
/// its Size says. A refusal changes nothing, `work` neither.
#[inline(always)]
pub fn decide<M: Matcher, S: Memory>(
    device: &mut Device<M, S>,
    event: Event<Request<'_>, Scan<'_>>,
    work: &mut [u8],
) -> Result<Answers, Refusal>
    ensures value { Fits (view M.Matcher S.Memory device.old) event.entry
        → tried (view M.Matcher S.Memory device.new) result
        ≡ cond (nat_lt (length work.old) 384) (Err WorkBuffer)
        (decided (view M.Matcher S.Memory device.old) event.entry) }
    ensures refused { OnErr result (view M.Matcher S.Memory device.new ≡ view M.Matcher S.Memory device.old) }
    ensures untouched { OnErr result (work.new ≡ work.old) }
{
    let Some(work) = work.first_chunk_mut::<LONGEST_TEMPLATE>() else {
        return Err(Refusal::WorkBuffer);
    };
    match event {
        Event::Packet(request) => match_awaited(device, Event::Packet(request), work),
        Event::Finger(scan) => match GoodScan::try_from(scan) {
            Ok(scan) => match_awaited(device, Event::Finger(scan), work),
            Err(code) => Ok(give_up(device, code)),
        },
        Event::Second => match_awaited(device, Event::Second, work),
    }
}
