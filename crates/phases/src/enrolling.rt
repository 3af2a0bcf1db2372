ghost use Rattle.std.specs.Prelude.{◌≡◌, ◌-◌, ◌<◌, ◌≤◌, [], length, take, nat_lt};
ghost use Rattle.std.specs.Prelude.{if◌then◌else◌};
ghost use Rattle.codes.specs.declared.code.Code.TheVariants.{Success};
ghost use Rattle.device.specs.View.{view, went};
ghost use Rattle.machine.specs.Enrollment.{held_with};
ghost use Rattle.machine.specs.Ready.{CanEnroll};
ghost use Rattle.machine.specs.Settings.{templates_in};
ghost use Rattle.machine.specs.State.{Phase, command_of, enroll_command};
ghost use Rattle.machine.specs.State.Phase.{first_finger, second_finger};
ghost use Rattle.machine.specs.Waiting.{ended, first, goes_on, pressed, templates_of};
ghost use Rattle.phases.specs.Told.{waiting_for};

use crate::good::GoodScan;
use crate::scan::Scan;
use crate::telling::{end, go_on};
use codes::{Code, Command};
use device::{Answers, Awaited, Device, FirstScan, LONGEST_TEMPLATE, enroll_one, enroll_two};
use machine::{EnrollMode, Enroller, Enrollment};
use matcher::Matcher;
use memory::Memory;

/// The command of an enrolment by fingers.
pub(crate) fn enroll_command(by: Enroller) -> Command
    ensures { result ≡ enroll_command by }
{
    match by {
        Enroller::Host => Command::Enroll,
        Enroller::Administrator => Command::EnrollByAdministrator,
    }
}

/// Ends an enrolment with SUCCESS: the ID in Param, and in Size the greatest quality among its fingers.
fn succeed<M: Matcher, S: Memory>(
    device: &mut Device<M, S>,
    enrollment: Enrollment,
    quality: u8,
) -> Answers
    ensures { (p : Phase) → command_of p ≡ enroll_command enrollment.by
        → went (view M.Matcher S.Memory device.new) result
        ≡ ended (view M.Matcher S.Memory device.old) (waiting_for device.old p) enrollment.id quality Success }
{
    let command = enroll_command(enrollment.by);
    let id = u32::from(enrollment.id);
    end(device, command, id, u32::from(quality), Code::Success)
}

/// The first scan is kept, and a second is awaited.
fn keep_first<M: Matcher, S: Memory>(
    device: &mut Device<M, S>,
    enrollment: Enrollment,
    scan: GoodScan<'_, S>,
) -> Answers
    ensures { went (view M.Matcher S.Memory device.new) result
        ≡ goes_on (view M.Matcher S.Memory device.old) (waiting_for device.old (first_finger enrollment))
        (second_finger enrollment scan.entry.bytes.now scan.entry.quality) [] }
{
    let size = scan.bytes.len();
    device.first.bytes[..size].copy_from_slice(scan.bytes);
    device.first.quality = scan.quality;
    let command = enroll_command(enrollment.by);
    go_on(device, command, None, Awaited::SecondFinger(enrollment))
}

/// A first finger that is not held yet.
fn take_first<M: Matcher, S: Memory>(
    device: &mut Device<M, S>,
    enrollment: Enrollment,
    scan: GoodScan<'_, S>,
) -> Answers
    ensures { let s = view M.Matcher S.Memory device.old in
        CanEnroll s enrollment → went (view M.Matcher S.Memory device.new) result
        ≡ first s (waiting_for device.old (first_finger enrollment)) enrollment s.settings.enroll
        scan.entry.bytes.now scan.entry.quality }
{
    match device.settings.enroll {
        EnrollMode::Once => {
            enroll_one(&mut device.memory, enrollment, scan.bytes);
            succeed(device, enrollment, scan.quality)
        }
        EnrollMode::Twice | EnrollMode::TwoTemplates => keep_first(device, enrollment, scan),
    }
}

/// ES, ESA: a good scan of the first finger.
pub(crate) fn first_finger<M: Matcher, S: Memory>(
    device: &mut Device<M, S>,
    enrollment: Enrollment,
    scan: GoodScan<'_, S>,
    work: &mut [u8; LONGEST_TEMPLATE],
) -> Answers
    ensures { let s = view M.Matcher S.Memory device.old in let p = first_finger enrollment in
        CanEnroll s enrollment → went (view M.Matcher S.Memory device.new) result
        ≡ pressed s (waiting_for device.old p) p scan.entry.bytes.now scan.entry.quality }
{
    if device.is_held(enrollment.flag, scan.bytes, work) {
        let command = enroll_command(enrollment.by);
        return end(device, command, 0, 0, Code::ExistFinger);
    }
    take_first(device, enrollment, scan)
}

/// The better of two scans, the first on equal quality: a part of the one or of the other, as long as a template.
fn better<'a>(first: Scan<'a>, second: Scan<'a>, size: usize) -> &'a [u8]
    requires first_long { size ≤ length first.bytes.now }
    requires second_long { size ≤ length second.bytes.now }
    ensures value { result.now ≡ take size (if nat_lt first.entry.quality second.entry.quality
        then second.entry.bytes.now else first.entry.bytes.now) }
    ensures long { length result.now ≡ size }
    ensures same { result.ref_ptr ≡ (if nat_lt first.entry.quality second.entry.quality
        then second.entry.bytes.ref_ptr else first.entry.bytes.ref_ptr) }
{
    if second.quality > first.quality {
        &second.bytes[..size]
    } else {
        &first.bytes[..size]
    }
}

/// Enrols what two scans give in this mode: the better, or both, the first first.
fn enroll_scans<S: Memory>(
    memory: &mut S,
    mode: EnrollMode,
    enrollment: Enrollment,
    first: &FirstScan,
    second: GoodScan<'_, S>,
)
    ensures after { 0 < enrollment.id
        → templates_in mode ≤ S.Memory.room memory.old - length (S.Memory.held memory.old)
        → S.Memory.held memory.new ≡ held_with enrollment (S.Memory.held memory.old)
        (templates_of mode (take S.Memory.T first.now.bytes) first.now.quality
        second.entry.bytes.now second.entry.quality) }
    ensures room_same { S.Memory.room memory.new ≡ S.Memory.room memory.old }
{
    let size = S::T;
    let one = Scan {
        bytes: &first.bytes,
        quality: first.quality,
    };
    let two = Scan {
        bytes: second.bytes,
        quality: second.quality,
    };
    match mode {
        EnrollMode::Once | EnrollMode::Twice => {
            enroll_one(memory, enrollment, better(one, two, size))
        }
        EnrollMode::TwoTemplates => enroll_two(memory, enrollment, &one.bytes[..size], two.bytes),
    }
}

/// ES, ESA: a good scan of the second finger, compared with the first as stored.
pub(crate) fn second_finger<M: Matcher, S: Memory>(
    device: &mut Device<M, S>,
    enrollment: Enrollment,
    scan: GoodScan<'_, S>,
) -> Answers
    ensures { let s = view M.Matcher S.Memory device.old in
        let p = second_finger enrollment (take S.Memory.T device.old.first.bytes) device.old.first.quality in
        CanEnroll s enrollment → went (view M.Matcher S.Memory device.new) result
        ≡ pressed s (waiting_for device.old p) p scan.entry.bytes.now scan.entry.quality }
{
    let size = S::T;
    if !device.agrees(&device.first.bytes[..size], scan.bytes) {
        let command = enroll_command(enrollment.by);
        return end(device, command, 0, 0, Code::TryAgain);
    }
    let best = device.first.quality.max(scan.quality);
    let mode = device.settings.enroll;
    enroll_scans(&mut device.memory, mode, enrollment, &device.first, scan);
    succeed(device, enrollment, best)
}
