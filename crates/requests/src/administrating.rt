ghost use Rattle.std.specs.Prelude.{◌≡◌};
ghost use Rattle.codes.specs.declared.command.Command.TheVariants.{DeleteAll, DeleteByAdministrator};
ghost use Rattle.device.specs.View.{view, went};
ghost use Rattle.machine.specs.Requests.{delete, known, level_in, write_level};
ghost use Rattle.packet.specs.Requests.{request_parts};
ghost use Rattle.requests.specs.Ending.{KeptOnErr, Obeys};
ghost use Rattle.requests.specs.Levels.{level_or_fault};

use crate::answer::just;
use crate::fields::{held_id, range_in};
use administrators::Right;
use codes::Code;
use device::{Answers, Awaited, Device, delete_all_of};
use machine::Level;
use matcher::Matcher;
use memory::Memory;
use packet::Request;

/// DT: deletes the templates of an ID, and with them its administrator's row.
pub(crate) fn delete<M: Matcher, S: Memory>(
    device: &mut Device<M, S>,
    request: Request<'_>,
) -> Result<Answers, Code>
    ensures value { Obeys M.Matcher S.Memory delete device.old device.new request.entry result }
    ensures kept { KeptOnErr M.Matcher S.Memory device.old device.new result }
{
    let id = held_id(device, request.param)?;
    delete_all_of(&mut device.memory, id);
    device.admins.strike(id);
    Ok(just(request, Code::Success))
}

/// DA: deletes all templates, and with them all administrators' rows.
pub(crate) fn delete_all<M: Matcher, S: Memory>(
    device: &mut Device<M, S>,
    request: Request<'_>,
) -> Answers
    ensures { went (view M.Matcher S.Memory device.new) result
        ≡ known (view M.Matcher S.Memory device.old) (request_parts request.entry) DeleteAll }
{
    device.memory.clear();
    device.admins.clear();
    just(request, Code::Success)
}

/// DSA: waits for an administrator, if there is one who may let others delete.
pub(crate) fn delete_by_administrator<M: Matcher, S: Memory>(
    device: &mut Device<M, S>,
    request: Request<'_>,
) -> Result<Answers, Code>
    ensures value { Obeys M.Matcher S.Memory (λ s q. known s q DeleteByAdministrator)
        device.old device.new request.entry result }
    ensures kept { KeptOnErr M.Matcher S.Memory device.old device.new result }
{
    let range = range_in(request.param)?;
    if !device.admins.any_may(Right::Delete) {
        return Err(Code::Unsupported);
    }
    device.wait_for(Awaited::GrantToDelete(range), request.form);
    Ok(Answers::Nothing)
}

/// The level in a flag; none for 0.
fn level_in(flag: u8) -> Result<Option<Level>, Code>
    ensures { result ≡ level_or_fault (level_in flag) }
{
    match flag {
        0 => Ok(None),
        number => Ok(Some(Level::try_from(number)?)),
    }
}

/// AW: writes the level of an ID; flag 0 strikes its row. Where all sixteen rows are taken by others, there is none for
/// the ID.
pub(crate) fn write_level<M: Matcher, S: Memory>(
    device: &mut Device<M, S>,
    request: Request<'_>,
) -> Result<Answers, Code>
    ensures value { Obeys M.Matcher S.Memory write_level device.old device.new request.entry result }
    ensures kept { KeptOnErr M.Matcher S.Memory device.old device.new result }
{
    let level = level_in(request.flag)?;
    let id = held_id(device, request.param)?;
    let Some(level) = level else {
        device.admins.strike(id);
        return Ok(just(request, Code::Success));
    };
    if !device.admins.write(id, level) {
        return Err(Code::MemFull);
    }
    Ok(just(request, Code::Success))
}
