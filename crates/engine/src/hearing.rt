ghost use Rattle.std.specs.Prelude.{◌≡◌, ◌≤◌, true, [], ◌∷◌, length, Ok, OnErr};
ghost use Rattle.codes.specs.Commands.{command_number};
ghost use Rattle.codes.specs.declared.command.Command.TheVariants.{Unlock};
ghost use Rattle.device.specs.View.{tried, view};
ghost use Rattle.engine.specs.Seen.{event_of};
ghost use Rattle.engine.specs.Shows.{Heard};
ghost use Rattle.machine.specs.Machine.{requested};
ghost use Rattle.machine.specs.Machine.Event.{packet};
ghost use Rattle.machine.specs.Ready.{Ready};
ghost use Rattle.packet.specs.Data.{known_among};
ghost use Rattle.packet.specs.Requests.{has_data, request_parts};

use codes::{Code, Coded, Command, Refusal};
use device::{Answers, Device, Told};
use matcher::Matcher;
use memory::Memory;
use packet::{Request, read_request};
use phases::{Event, Scan, decide};

/// Whether a command is UM.
fn is_unlock(command: Coded<Command>) -> bool
    ensures { result ≡ known_among command_number (Unlock ∷ []) command }
{
    matches!(command, Coded::Known(Command::Unlock))
}

/// A request: a locked module hears nothing but UM.
#[inline(always)]
fn answer<M: Matcher, S: Memory>(
    device: &mut Device<M, S>,
    request: Request<'_>,
    work: &mut [u8],
) -> Result<Answers, Refusal>
    requires { 384 ≤ length work.old }
    ensures value { has_data (request_parts request.entry) ≡ true
        → tried (view M.Matcher S.Memory device.new) result
        ≡ Ok (requested (view M.Matcher S.Memory device.old) (request_parts request.entry)) }
    ensures refused { OnErr result (view M.Matcher S.Memory device.new ≡ view M.Matcher S.Memory device.old) }
{
    if device.locked && !is_unlock(request.command) {
        return Ok(Answers::One(Told::own(request, 0, 0, Code::Locked)));
    }
    decide(device, Event::Packet(request), work)
}

/// Reads a frame, and answers the request that it holds.
#[inline(always)]
fn hear_frame<M: Matcher, S: Memory>(
    device: &mut Device<M, S>,
    frame: &[u8],
    work: &mut [u8],
) -> Result<Answers, Refusal>
    requires { 384 ≤ length work.old }
    ensures { Ready (view M.Matcher S.Memory device.old)
        → Heard (view M.Matcher S.Memory device.old) (packet frame.now) result (view M.Matcher S.Memory device.new) }
{
    let request = read_request(frame, device.settings.network, device.own)?;
    answer(device, request, work)
}

/// Answers what a call is given: a frame, a scan or a second.
pub(crate) fn hear<M: Matcher, S: Memory>(
    device: &mut Device<M, S>,
    event: Event<&[u8], Scan<'_>>,
    work: &mut [u8],
) -> Result<Answers, Refusal>
    requires { 384 ≤ length work.old }
    ensures { Ready (view M.Matcher S.Memory device.old)
        → Heard (view M.Matcher S.Memory device.old) (event_of event.entry) result
        (view M.Matcher S.Memory device.new) }
{
    match event {
        Event::Packet(frame) => hear_frame(device, frame, work),
        Event::Finger(scan) => decide(device, Event::Finger(scan), work),
        Event::Second => decide(device, Event::Second, work),
    }
}
