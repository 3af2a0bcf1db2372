ghost use Rattle.std.specs.Prelude.{◌≡◌, Some};
ghost use Rattle.administrators.specs.Rights.{permits};
ghost use Rattle.administrators.specs.Table.{rows_of};
ghost use Rattle.device.specs.View.{phase_of, view, went};
ghost use Rattle.machine.specs.Administrators.{is_admin};
ghost use Rattle.machine.specs.Searches.{found_by};
ghost use Rattle.machine.specs.State.{Phase, command_of, enroll_command};
ghost use Rattle.machine.specs.Waiting.{granted};
ghost use Rattle.phases.specs.Told.{waiting_for};

use crate::enrolling::enroll_command;
use crate::good::GoodScan;
use crate::telling::{end, go_on, tell};
use administrators::{Permitted, Right};
use codes::{Code, Command};
use device::{Answers, Awaited, Device, LONGEST_TEMPLATE};
use machine::Enrollment;
use matcher::Matcher;
use memory::Memory;
use search::IdRange;

/// What an administrator may grant: by which right, the command that asks for it, and what is awaited then.
#[derive(Clone, Copy)]
pub(crate) struct Grant {
    right: Right,
    command: Command,
    next: Awaited,
}

impl Grant {
    /// ESA: one who may let others enrol grants it, and then the first finger is awaited.
    pub(crate) fn to_enroll(enrollment: Enrollment) -> Grant
        ensures { result ≡ record {
          right = Right.Enroll;
          command = enroll_command enrollment.by;
          next = Awaited.FirstFinger enrollment;
        } }
    {
        Grant {
            right: Right::Enroll,
            command: enroll_command(enrollment.by),
            next: Awaited::FirstFinger(enrollment),
        }
    }

    /// DSA: one who may let others delete grants it, and then a finger of an ID in the range is awaited.
    pub(crate) fn to_delete(range: IdRange) -> Grant
        ensures { result ≡ record {
          right = Right.Delete;
          command = Command.DeleteByAdministrator;
          next = Awaited.PersonToDelete range;
        } }
    {
        Grant {
            right: Right::Delete,
            command: Command::DeleteByAdministrator,
            next: Awaited::PersonToDelete(range),
        }
    }
}

/// The oldest template that agrees, of the administrators who have the right.
fn find_administrator<M: Matcher, S: Memory>(
    device: &Device<M, S>,
    right: Right,
    scan: &[u8],
    work: &mut [u8; LONGEST_TEMPLATE],
) -> Option<(u16, u32)>
    ensures { result ≡ found_by (view M.Matcher S.Memory device.now)
        (is_admin (permits right) (rows_of device.now.admins)) scan.now }
{
    let permitted = Permitted {
        table: &device.admins,
        right,
    };
    device.find(&permitted, scan, work)
}

/// ESA and DSA: a good scan, compared with the templates of the administrators who have the right. One who agrees is
/// named by CONTINUE, and another finger is awaited.
pub(crate) fn ask_administrator<M: Matcher, S: Memory>(
    device: &mut Device<M, S>,
    grant: Grant,
    scan: GoodScan<'_, S>,
    work: &mut [u8; LONGEST_TEMPLATE],
) -> Answers
    ensures { let s = view M.Matcher S.Memory device.old in (p next : Phase) → command_of p ≡ grant.command
        → phase_of S.Memory.T device.old.first grant.next ≡ Some next
        → went (view M.Matcher S.Memory device.new) result ≡ granted s (waiting_for device.old p) next
        (found_by s (is_admin (permits grant.right) s.admins) scan.entry.bytes.now) }
{
    let Grant {
        right,
        command,
        next,
    } = grant;
    match find_administrator(device, right, scan.bytes, work) {
        Some((id, _)) => {
            let told = tell(device, command, u32::from(id), 0, Code::Continue);
            go_on(device, command, Some(told), next)
        }
        None => end(device, command, 0, 0, Code::NotMatch),
    }
}
