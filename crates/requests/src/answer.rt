ghost use Rattle.std.specs.Prelude.{◌≡◌};
ghost use Rattle.device.specs.declared.answers.Answers.TheVariants.{One};
ghost use Rattle.machine.specs.Answers.{outcome};

use codes::Code;
use device::{Answers, Told};
use packet::Request;

/// Answers a request with one outcome.
pub(crate) fn answer(request: Request<'_>, param: u32, size: u32, code: Code) -> Answers
    ensures { result ≡ One (record {
      to = request.entry.form;
      outcome = outcome request.entry.command param size code;
    }) }
{
    Answers::One(Told::own(request, param, size, code))
}

/// Answers a request with a code alone: Param and Size are 0.
pub(crate) fn just(request: Request<'_>, code: Code) -> Answers
    ensures { result ≡ One (record { to = request.entry.form; outcome = outcome request.entry.command 0 0 code }) }
{
    answer(request, 0, 0, code)
}
