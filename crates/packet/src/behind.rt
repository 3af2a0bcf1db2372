ghost use Rattle.std.specs.Prelude.{◌≡◌, ◌++◌, IfOk, is_some, unwrap_or};
ghost use Rattle.packet.specs.Data.{answers_with_data, asks_with_data, data_bytes, seen_data, split_data};

use crate::form::END_CODE;
use codes::{Code, Coded, Command, Refusal};

/// Whether a request of this command carries data.
pub fn asks_with_data(command: Coded<Command>) -> bool
    ensures { result ≡ asks_with_data command }
{
    matches!(
        command,
        Coded::Known(Command::EnrollTemplate | Command::Unlock | Command::ChangePassword)
    )
}

/// Whether a response with this command and code carries data.
pub(crate) fn answers_with_data(command: Coded<Command>, code: Coded<Code>) -> bool
    ensures { result ≡ answers_with_data command code }
{
    matches!(
        command,
        Coded::Known(Command::ListTemplates | Command::ReadTemplate)
    ) && matches!(code, Coded::Known(Code::Success))
}

/// Cuts the data of a packet off `rest`, the bytes behind it: none where it has no size.
pub(crate) fn split_data(size: Option<u32>, rest: &[u8]) -> Result<(&[u8], &[u8]), Refusal>
    ensures value { seen_data result ≡ split_data (is_some size) (unwrap_or size 0) rest.now }
    ensures back { IfOk result (λ x. data_bytes (is_some size) x.0.now ++ x.1.now ≡ rest.now) }
{
    let Some(size) = size else {
        return Ok((&[], rest));
    };
    match rest.split_at_checked(size as usize) {
        Some((data, [END_CODE, behind @ ..])) => Ok((data, behind)),
        _ => Err(Refusal::DataLength),
    }
}
