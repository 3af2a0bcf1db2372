ghost use Rattle.std.specs.Prelude.{◌≡◌, List, Some};
ghost use Rattle.codes.specs.declared.numbered.Coded.TheVariants.{Known};
ghost use Rattle.device.specs.View.{phase_of, said_in, view, went};
ghost use Rattle.machine.specs.Answers.{outcome};
ghost use Rattle.machine.specs.State.{Phase, command_of};
ghost use Rattle.machine.specs.Waiting.{ended, goes_on, scanned};
ghost use Rattle.memory.specs.Held.{Held};
ghost use Rattle.phases.specs.Told.{listed, waiting_for};

use codes::{Code, Coded, Command};
use device::{Answers, Awaited, Device, Told};
use machine::Switch;
use matcher::Matcher;
use memory::Memory;
use packet::Outcome;

/// An outcome of the request that waits, whose command this is.
pub(crate) fn tell<M: Matcher, S: Memory>(
    device: &Device<M, S>,
    command: Command,
    param: u32,
    size: u32,
    code: Code,
) -> Told
    ensures { result ≡ record { to = device.now.form; outcome = outcome (Known command) param size code } }
{
    Told {
        to: device.form,
        outcome: Outcome {
            command: Coded::Known(command),
            param,
            size,
            code,
        },
    }
}

/// A good scan is answered first, where the parameter says so, and then its outcome, if it has one yet.
fn scanned<M: Matcher, S: Memory>(
    device: &Device<M, S>,
    command: Command,
    told: Option<Told>,
) -> Answers
    ensures { (h : List Held) (p : Phase) → command_of p ≡ command
        → said_in h result ≡ scanned device.now.settings.scans (waiting_for device.now p) (listed told) }
{
    let success = tell(device, command, 0, 0, Code::ScanSuccess);
    match (device.settings.scans, told) {
        (Switch::Off, None) => Answers::Nothing,
        (Switch::Off, Some(told)) => Answers::One(told),
        (Switch::On, None) => Answers::One(success),
        (Switch::On, Some(told)) => Answers::Two(success, told),
    }
}

/// The outcome of a good scan that ends the request.
pub(crate) fn end<M: Matcher, S: Memory>(
    device: &mut Device<M, S>,
    command: Command,
    param: u32,
    size: u32,
    code: Code,
) -> Answers
    ensures { (p : Phase) → command_of p ≡ command
        → went (view M.Matcher S.Memory device.new) result
        ≡ ended (view M.Matcher S.Memory device.old) (waiting_for device.old p) param size code }
{
    let told = tell(device, command, param, size, code);
    let answers = scanned(device, command, Some(told));
    device.rest();
    answers
}

/// A good scan after which the request goes on to wait for another finger.
pub(crate) fn go_on<M: Matcher, S: Memory>(
    device: &mut Device<M, S>,
    command: Command,
    told: Option<Told>,
    awaited: Awaited,
) -> Answers
    ensures { (p next : Phase) → command_of p ≡ command
        → phase_of S.Memory.T device.old.first awaited ≡ Some next
        → went (view M.Matcher S.Memory device.new) result
        ≡ goes_on (view M.Matcher S.Memory device.old) (waiting_for device.old p) next (listed told) }
{
    let answers = scanned(device, command, told);
    let form = device.form;
    device.wait_for(awaited, form);
    answers
}
