ghost use Rattle.std.specs.Prelude.{◌≡◌, cond};
ghost use Rattle.std.specs.IoError.{error_kind};
ghost use Rattle.std.specs.Process.{exit_status};
ghost use Rattle.cli.specs.declared.ending.Stop.TheVariants.{Arguments, Failed};
ghost use Rattle.cli.specs.Status.{is_broken_pipe, status_of, stop_status};

use clap::error::ErrorKind;
use std::alloc::{AllocError, AllocFailed};
use std::io;
use std::process::ExitCode;

/// Why a program stops before its work is done.
#[derive(Debug, Drop)]
pub enum Stop {
    /// Whoever read the output has closed it: there is nobody left to write for.
    Closed,
    /// The arguments ask for help, or are wrong; the text says which.
    Arguments(clap::Error),
    /// The work failed.
    Failed(anyhow::Error),
}

impl From<io::Error> for Stop {
    ghost from_gives = { λ error stop. stop_status stop ≡ cond (is_broken_pipe (error_kind error)) 0 1 };

    fn from(error: io::Error) -> Stop {
        match error.kind() {
            io::ErrorKind::BrokenPipe => Stop::Closed,
            _ => Stop::Failed(anyhow::Error::from(error)),
        }
    }
}

impl From<AllocError> for Stop {
    ghost from_gives = { λ _ stop. stop_status stop ≡ 1 };

    fn from(error: AllocError) -> Stop {
        Stop::Failed(anyhow::Error::from(error))
    }
}

impl<T: Drop> From<AllocFailed<T>> for Stop {
    ghost from_gives = { λ _ stop. stop_status stop ≡ 1 };

    fn from(error: AllocFailed<T>) -> Stop {
        Stop::from(AllocError::from(error))
    }
}

impl From<clap::Error> for Stop {
    ghost from_gives = { λ error stop. stop ≡ Arguments error };

    fn from(error: clap::Error) -> Stop {
        Stop::Arguments(error)
    }
}

impl From<anyhow::Error> for Stop {
    ghost from_gives = { λ error stop. stop ≡ Failed error };

    fn from(error: anyhow::Error) -> Stop {
        Stop::Failed(error)
    }
}

/// The status that a program ends with: 0 where its work is done, its output was closed or it was asked for help, 2
/// where its arguments are wrong, 1 where it failed, also for want of memory to read them. Help goes to standard
/// output, what went wrong to standard error; if that cannot be written any more, the status is all that is left to say.
pub fn exit_code<R: Print + Eprint>(rt: &R, ended: Result<(), Stop>) -> ExitCode
    ensures { exit_status result ≡ status_of ended }
{
    match ended {
        Ok(()) | Err(Stop::Closed) => ExitCode::SUCCESS,
        Err(Stop::Arguments(error)) => {
            let _ = error.print(rt);
            match error.kind() {
                ErrorKind::DisplayHelp | ErrorKind::DisplayVersion => ExitCode::SUCCESS,
                ErrorKind::OutOfMemory => ExitCode::FAILURE,
                _ => ExitCode::from(2),
            }
        }
        Err(Stop::Failed(error)) => {
            let _ = eprintln!(rt; "Error: {error:?}");
            ExitCode::FAILURE
        }
    }
}
