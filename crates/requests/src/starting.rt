ghost use Rattle.std.specs.Prelude.{◌≡◌, true, cond, length, Ok, Err, OnErr, nat_lt};
ghost use Rattle.codes.specs.declared.refusal.Refusal.TheVariants.{DataLength, WorkBuffer};
ghost use Rattle.device.specs.View.{tried, view};
ghost use Rattle.machine.specs.Requests.{started};
ghost use Rattle.packet.specs.Requests.{has_data, request_parts};
ghost use Rattle.requests.specs.Ending.{KeptOnErr, Obeys};

use crate::administrating::{delete, delete_all, delete_by_administrator, write_level};
use crate::answer::just;
use crate::enrolling::{enroll, enroll_template};
use crate::parameters::{read_parameter, write_parameter};
use crate::passwords::{change_password, lock, unlock};
use crate::reading::{identify, list, read_template, verify};
use codes::{Code, Coded, Command, Refusal};
use device::{Answers, Device, LONGEST_TEMPLATE};
use machine::Enroller;
use matcher::Matcher;
use memory::Memory;
use packet::{Request, asks_with_data};

/// Carries a request out by its command; an `Err` is the code of its outcome.
fn carry_out<M: Matcher, S: Memory>(
    device: &mut Device<M, S>,
    request: Request<'_>,
    work: &mut [u8; LONGEST_TEMPLATE],
) -> Result<Answers, Code>
    requires { has_data (request_parts request) ≡ true }
    ensures value { Obeys M.Matcher S.Memory (λ s q. started s q q.command)
        device.old device.new request.entry result }
    ensures kept { KeptOnErr M.Matcher S.Memory device.old device.new result }
{
    let Coded::Known(command) = request.command else {
        return Err(Code::Unsupported);
    };
    match command {
        Command::WriteParameter => write_parameter(device, request),
        Command::ReadParameter => read_parameter(device, request),
        Command::Enroll => enroll(device, request, Enroller::Host),
        Command::EnrollTemplate => enroll_template(device, request, work),
        Command::Verify => verify(device, request),
        Command::Identify => identify(device, request),
        Command::ReadTemplate => read_template(device, request),
        Command::Delete => delete(device, request),
        Command::DeleteAll => Ok(delete_all(device, request)),
        Command::ListTemplates => list(device, request),
        Command::Cancel => Err(Code::NotFound),
        Command::WriteLevel => write_level(device, request),
        Command::EnrollByAdministrator => enroll(device, request, Enroller::Administrator),
        Command::DeleteByAdministrator => delete_by_administrator(device, request),
        Command::Unlock => unlock(device, request),
        Command::Lock => Ok(lock(device, request)),
        Command::ChangePassword => change_password(device, request),
    }
}

/// Whether a request whose command carries data has as much as its Size says.
fn has_data(request: Request<'_>) -> bool
    ensures { result ≡ has_data (request_parts request.entry) }
{
    !asks_with_data(request.command) || request.data.len() == request.size as usize
}

/// A request to a module that is not busy with another. Templates are compared in `work`, which is the
/// caller's to clear. Where that is shorter than the longest template, or the request lacks the data that its Size
/// says (one that was read from a frame has it), the request is refused and nothing changes, `work` neither.
pub fn start<M: Matcher, S: Memory>(
    device: &mut Device<M, S>,
    request: Request<'_>,
    work: &mut [u8],
) -> Result<Answers, Refusal>
    ensures value { tried (view M.Matcher S.Memory device.new) result
        ≡ cond (nat_lt (length work.old) 384) (Err WorkBuffer)
        (cond (has_data (request_parts request.entry))
        (Ok (started (view M.Matcher S.Memory device.old) (request_parts request.entry) request.entry.command))
        (Err DataLength)) }
    ensures refused { OnErr result (view M.Matcher S.Memory device.new ≡ view M.Matcher S.Memory device.old) }
    ensures untouched { OnErr result (work.new ≡ work.old) }
{
    let Some(work) = work.first_chunk_mut::<LONGEST_TEMPLATE>() else {
        return Err(Refusal::WorkBuffer);
    };
    if !has_data(request) {
        return Err(Refusal::DataLength);
    }
    match carry_out(device, request, work) {
        Ok(answers) => Ok(answers),
        Err(code) => Ok(just(request, code)),
    }
}
