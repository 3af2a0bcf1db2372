use crate::bench::{Bench, enroll_template, request, scan_of, set};
use codes::{Code, Command, Parameter};
use std::test::*;

/// That a finger with ten near points gets this code at a Security Level.
fn verified(bench: &mut Bench, level: u32, code: Code) -> Result<(), Fail> {
    bench.ask(set(Parameter::SecurityLevel, level), Code::Success)?;
    bench.start(request(Command::Verify, 1, 0, 0))?;
    bench.finger(&scan_of(12, 10, 0), 50, code)?;
    Ok(())
}

/// The codes of the levels are in another order than their strictness.
#[test]
fn ten_near_points_pass_until_eleven_are_wanted(rt: HostRuntime) -> Result<(), Fail> {
    let mut bench = Bench::new(rt.alloc(), 4, 1)?;
    bench.ask(enroll_template(1, &scan_of(12, 12, 0)), Code::Success)?;
    verified(&mut bench, 0x32, Code::Success)?;
    verified(&mut bench, 0x42, Code::NotMatch)?;
    verified(&mut bench, 0x37, Code::NotMatch)?;
    verified(&mut bench, 0x40, Code::Success)
}

/// What becomes of an enrolment by two fingers of so many points each, all near.
fn enrolled(bench: &mut Bench, first: u8, second: u8, code: Code) -> Result<(), Fail> {
    bench.start(request(Command::Enroll, 1, 0, 0))?;
    bench.finger(&scan_of(first, first, 0), 50, Code::ScanSuccess)?;
    bench.finger(&scan_of(second, second, 0), 50, code)?;
    Ok(())
}

/// Only the points of the scan are counted, so the two sides can be told apart.
#[test]
fn the_first_finger_is_the_stored_side(rt: HostRuntime) -> Result<(), Fail> {
    let mut bench = Bench::new(rt.alloc(), 4, 1)?;
    enrolled(&mut bench, 20, 1, Code::TryAgain)?;
    enrolled(&mut bench, 1, 20, Code::Success)
}
