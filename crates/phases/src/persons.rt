ghost use Rattle.std.specs.Prelude.{◌≡◌, ◌==◌};
ghost use Rattle.device.specs.View.{view, went};
ghost use Rattle.machine.specs.Searches.{found_by, found_in};
ghost use Rattle.machine.specs.State.{Phase, command_of};
ghost use Rattle.machine.specs.State.Phase.{person_to_delete};
ghost use Rattle.machine.specs.Waiting.{deleted, recognized};
ghost use Rattle.phases.specs.Told.{waiting_for};

use crate::good::GoodScan;
use crate::telling::end;
use codes::{Code, Command};
use device::{Answers, Device, LONGEST_TEMPLATE, delete_all_of};
use matcher::Matcher;
use memory::Memory;
use search::{Allowed, IdRange};

/// One ID, the only one that a search may find.
#[derive(Clone, Copy, PartialEq, Eq, Debug)]
pub(crate) struct OneId(pub(crate) u16);

impl Allowed for OneId {
    ghost allowed = { λ s id. (id == s.0) };

    fn allows(&self, id: u16) -> bool {
        id == self.0
    }
}

/// What a search for a person answers to: its command, and the code that says that nobody agrees.
#[derive(Clone, Copy)]
pub(crate) struct Question {
    pub(crate) command: Command,
    pub(crate) missed: Code,
}

impl Question {
    /// VS: where the finger is not the ID's, it answers NOT_MATCH.
    pub(crate) const VERIFY: Question = Question {
        command: Command::Verify,
        missed: Code::NotMatch,
    };

    /// IS: where the finger is no ID's of the range, it answers NOT_FOUND.
    pub(crate) const IDENTIFY: Question = Question {
        command: Command::Identify,
        missed: Code::NotFound,
    };
}

/// VS and IS: a good scan, compared with the templates of the IDs that are allowed.
pub(crate) fn recognize<M: Matcher, S: Memory, A: Allowed>(
    device: &mut Device<M, S>,
    question: Question,
    allowed: &A,
    scan: GoodScan<'_, S>,
    work: &mut [u8; LONGEST_TEMPLATE],
) -> Answers
    ensures { let s = view M.Matcher S.Memory device.old in (p : Phase) → command_of p ≡ question.command
        → went (view M.Matcher S.Memory device.new) result ≡ recognized s (waiting_for device.old p) question.missed
        (found_by s (A.Allowed.allowed allowed.now) scan.entry.bytes.now) }
{
    let Question { command, missed } = question;
    match device.find(allowed, scan.bytes, work) {
        Some((id, number)) => end(device, command, u32::from(id), number, Code::Success),
        None => end(device, command, 0, 0, missed),
    }
}

/// DSA: a good scan of the person, after an administrator's. An administrator's templates stay.
pub(crate) fn delete<M: Matcher, S: Memory>(
    device: &mut Device<M, S>,
    range: IdRange,
    scan: GoodScan<'_, S>,
    work: &mut [u8; LONGEST_TEMPLATE],
) -> Answers
    ensures { let s = view M.Matcher S.Memory device.old in went (view M.Matcher S.Memory device.new) result
        ≡ deleted s (waiting_for device.old (person_to_delete range)) (found_in s range scan.entry.bytes.now) }
{
    let command = Command::DeleteByAdministrator;
    let Some((id, _)) = device.find(&range, scan.bytes, work) else {
        return end(device, command, 0, 0, Code::NotFound);
    };
    if device.admins.level_of(id).is_some() {
        return end(device, command, 0, 0, Code::Unsupported);
    }
    delete_all_of(&mut device.memory, id);
    device.admins.strike(id);
    end(device, command, u32::from(id), 0, Code::Success)
}
