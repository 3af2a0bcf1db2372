ghost use Rattle.std.specs.Prelude.{◌≡◌};
ghost use Rattle.codes.specs.declared.command.Command.TheVariants.{Identify};
ghost use Rattle.device.specs.View.{view, went};
ghost use Rattle.machine.specs.Answers.{go};
ghost use Rattle.machine.specs.Requests.{answer_ids, known, list, read_template, verify};
ghost use Rattle.memory.specs.Held.{block_of};
ghost use Rattle.packet.specs.Requests.{request_parts};
ghost use Rattle.requests.specs.Ending.{KeptOnErr, Obeys};

use crate::fields::{held_id, id_in, range_in};
use codes::Code;
use device::{Answers, Awaited, Data, Device, Told};
use matcher::Matcher;
use memory::Memory;
use packet::Request;
use search::place_of;

/// VS: waits for a finger of the ID, if that has templates.
pub(crate) fn verify<M: Matcher, S: Memory>(
    device: &mut Device<M, S>,
    request: Request<'_>,
) -> Result<Answers, Code>
    ensures value { Obeys M.Matcher S.Memory verify device.old device.new request.entry result }
    ensures kept { KeptOnErr M.Matcher S.Memory device.old device.new result }
{
    let id = held_id(device, request.param)?;
    device.wait_for(Awaited::PersonToVerify(id), request.form);
    Ok(Answers::Nothing)
}

/// IS: waits for a finger of any ID in the range.
pub(crate) fn identify<M: Matcher, S: Memory>(
    device: &mut Device<M, S>,
    request: Request<'_>,
) -> Result<Answers, Code>
    ensures value { Obeys M.Matcher S.Memory (λ s q. known s q Identify)
        device.old device.new request.entry result }
    ensures kept { KeptOnErr M.Matcher S.Memory device.old device.new result }
{
    let range = range_in(request.param)?;
    device.wait_for(Awaited::PersonToIdentify(range), request.form);
    Ok(Answers::Nothing)
}

/// RT: answers a template of an ID, by the number in Size.
pub(crate) fn read_template<M: Matcher, S: Memory>(
    device: &Device<M, S>,
    request: Request<'_>,
) -> Result<Answers, Code>
    ensures { Obeys M.Matcher S.Memory read_template device.now device.now request.entry result }
{
    let id = id_in(request.param)?;
    let place = place_of(&device.memory, id, request.size).ok_or(Code::NotFound)?;
    let told = Told::own(request, 0, S::T as u32, Code::Success);
    Ok(Answers::WithData(told, Data::Template { place }))
}

/// The IDs of at most `most` templates from a place on, one for each.
fn list_block<M: Matcher, S: Memory>(
    device: &Device<M, S>,
    request: Request<'_>,
    from: usize,
    most: usize,
) -> Answers
    ensures { went (view M.Matcher S.Memory device.now) result ≡ go
        (view M.Matcher S.Memory device.now)
        (answer_ids (request_parts request.entry) (block_of from most (S.Memory.held device.now.memory))) }
{
    let number = device.memory.count().saturating_sub(from).min(most) as u32;
    let told = Told::own(request, number, 4 * number, Code::Success);
    Answers::WithData(told, Data::Ids { from, most })
}

/// LT: answers a block of the held IDs. Its index is in Param, its size in Size; size 0 lists all.
pub(crate) fn list<M: Matcher, S: Memory>(
    device: &Device<M, S>,
    request: Request<'_>,
) -> Result<Answers, Code>
    ensures { Obeys M.Matcher S.Memory list device.now device.now request.entry result }
{
    let count = device.memory.count();
    if request.size == 0 {
        return Ok(list_block(device, request, 0, count));
    }
    // The product may pass 32 bits.
    let from = u64::from(request.param) * u64::from(request.size);
    if from >= count as u64 {
        return Err(Code::InvalidId);
    }
    Ok(list_block(device, request, from as usize, request.size as usize))
}
