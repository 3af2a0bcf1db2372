use codes::{Code, Coded, Command};
use packet::Response;
use std::fmt;

/// A code by its name, and what it means.
fn code_words(code: Code) -> &'static str {
    match code {
        Code::Success => "SUCCESS, it is done",
        Code::ScanSuccess => "SCAN_SUCCESS, the scan is good",
        Code::ScanFail => "SCAN_FAIL, that is no scan",
        Code::NotFound => "NOT_FOUND, there is none",
        Code::NotMatch => "NOT_MATCH, that is not the one awaited",
        Code::TryAgain => "TRY_AGAIN, the scan is poor or another one",
        Code::TimeOut => "TIME_OUT, no finger came in time",
        Code::MemFull => "MEM_FULL, there are fewer free places than needed",
        Code::ExistId => "EXIST_ID, the ID has templates already",
        Code::FingerLimit => "FINGER_LIMIT, the ID would pass ten templates",
        Code::Continue => "CONTINUE, an administrator agrees",
        Code::Unsupported => "UNSUPPORTED, the module does not do this",
        Code::InvalidId => "INVALID_ID, that is no ID or range",
        Code::Busy => "BUSY, another request waits",
        Code::Canceled => "CANCELED, the request was ended",
        Code::ExistFinger => "EXIST_FINGER, the finger is held already",
        Code::Locked => "LOCKED, the module is locked",
    }
}

/// What the Param of a response counts or names, if anything.
fn param_label(command: Command, code: Code) -> Option<&'static str> {
    match (command, code) {
        (
            Command::Enroll
            | Command::EnrollByAdministrator
            | Command::EnrollTemplate
            | Command::DeleteByAdministrator
            | Command::Identify,
            Code::Success,
        )
        | (_, Code::Continue) => Some("ID"),
        (Command::ListTemplates, Code::Success) => Some("count"),
        _ => None,
    }
}

/// What the Size of a response counts, if anything that its reader has to know.
fn size_label(command: Command, code: Code) -> Option<&'static str> {
    match (command, code) {
        (Command::Enroll | Command::EnrollByAdministrator, Code::Success) => Some("best quality"),
        (Command::Identify, Code::Success) => Some("template number"),
        (Command::ReadParameter, Code::Success) => Some("value"),
        _ => None,
    }
}

fn write_field<W: fmt::Write>(
    f: &mut fmt::Formatter<W>,
    label: Option<&str>,
    value: u32,
) -> fmt::Result {
    match label {
        Some(label) => write!(f, "; {label} {value}"),
        None => Ok(()),
    }
}

/// The IDs that LT lists, four bytes each; nothing where nothing is listed.
fn write_ids<W: fmt::Write>(f: &mut fmt::Formatter<W>, data: &[u8]) -> fmt::Result {
    if data.is_empty() {
        return Ok(());
    }
    write!(f, "; IDs")?;
    let (ids, _) = data.as_chunks::<4>();
    for [low, high, _, _] in ids {
        write!(f, " {}", u16::from_le_bytes([*low, *high]))?;
    }
    Ok(())
}

/// A response, told in words.
#[derive(Clone, Copy)]
pub(crate) struct Said<'a>(pub Response<'a>);

impl fmt::Display for Said<'_> {
    fn fmt<W: fmt::Write>(&self, f: &mut fmt::Formatter<W>) -> fmt::Result {
        let response = self.0;
        let (Coded::Known(command), Coded::Known(code)) = (response.command, response.code) else {
            return write!(f, "a response that nobody knows");
        };
        write!(f, "{command}: {}", code_words(code))?;
        write_field(f, param_label(command, code), response.param)?;
        write_field(f, size_label(command, code), response.size)?;
        write_ids(f, response.data)
    }
}
