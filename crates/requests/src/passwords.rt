ghost use Rattle.std.specs.Prelude.{◌≡◌};
ghost use Rattle.codes.specs.declared.command.Command.TheVariants.{Lock};
ghost use Rattle.device.specs.View.{view, went};
ghost use Rattle.machine.specs.Requests.{change_password, known, unlock};
ghost use Rattle.packet.specs.Requests.{request_parts};
ghost use Rattle.requests.specs.Ending.{KeptOnErr, Obeys};
ghost use Rattle.requests.specs.Passwords.{password_in};
ghost use Rattle.requests.specs.Sizes.{sized};

use crate::answer::just;
use codes::Code;
use device::{Answers, Device};
use matcher::Matcher;
use memory::Memory;
use packet::{PASSWORD_LENGTH, Request, password_sum};

/// The bytes of a password and of its sum.
const SUMMED_LENGTH: usize = PASSWORD_LENGTH + 2;

/// A password, which its sum stands behind.
fn password_in(data: &[u8]) -> Result<[u8; PASSWORD_LENGTH], Code>
    ensures { result ≡ password_in «data».now }
{
    let Some((password, [low, high])) = data.split_first_chunk::<PASSWORD_LENGTH>() else {
        return Err(Code::Unsupported);
    };
    if u16::from_le_bytes([*low, *high]) != password_sum(password) {
        return Err(Code::TryAgain);
    }
    Ok(*password)
}

/// UM: unlocks the module, if the data is the password and its sum.
pub(crate) fn unlock<M: Matcher, S: Memory>(
    device: &mut Device<M, S>,
    request: Request<'_>,
) -> Result<Answers, Code>
    ensures value { Obeys M.Matcher S.Memory (λ s q. unlock s (sized q))
        device.old device.new request.entry result }
    ensures kept { KeptOnErr M.Matcher S.Memory device.old device.new result }
{
    if password_in(request.data)? != device.password {
        return Err(Code::NotMatch);
    }
    device.locked = false;
    Ok(just(request, Code::Success))
}

/// LM: locks the module, which hears nothing but UM from then on.
pub(crate) fn lock<M: Matcher, S: Memory>(
    device: &mut Device<M, S>,
    request: Request<'_>,
) -> Answers
    ensures { went (view M.Matcher S.Memory device.new) result
        ≡ known (view M.Matcher S.Memory device.old) (request_parts request.entry) Lock }
{
    device.locked = true;
    just(request, Code::Success)
}

/// MP: replaces the password, if the data is the password and its sum, then a new one and its sum.
pub(crate) fn change_password<M: Matcher, S: Memory>(
    device: &mut Device<M, S>,
    request: Request<'_>,
) -> Result<Answers, Code>
    ensures value { Obeys M.Matcher S.Memory (λ s q. change_password s (sized q))
        device.old device.new request.entry result }
    ensures kept { KeptOnErr M.Matcher S.Memory device.old device.new result }
{
    if request.data.len() != 2 * SUMMED_LENGTH {
        return Err(Code::Unsupported);
    }
    let (own, new) = request.data.split_at(SUMMED_LENGTH);
    let own = password_in(own)?;
    let new = password_in(new)?;
    if own != device.password {
        return Err(Code::NotMatch);
    }
    device.password = new;
    Ok(just(request, Code::Success))
}
