use crate::bench::{Bench, SCAN, enroll_template, get, request, scan_of, set};
use codes::{Code, Command, Parameter};
use packet::Request;
use std::test::*;

/// The bytes of a standard packet, before its data.
const HEAD: usize = 13;

/// AW: the level of an ID.
fn level(id: u32, level: u8) -> Request<'static> {
    request(Command::WriteLevel, id, 0, level)
}

/// A row that is there can still be written, and a struck one makes room.
#[test]
fn a_17th_administrator_has_no_row(rt: HostRuntime) -> Result<(), Fail> {
    let mut bench = Bench::new(rt.alloc(), 64, 1)?;
    let template = scan_of(20, 20, 0);
    for id in 1..18 {
        bench.ask(enroll_template(id, &template), Code::Success)?;
        let code = if id < 17 {
            Code::Success
        } else {
            Code::MemFull
        };
        bench.ask(level(id, 1), code)?;
    }
    for (id, new) in [(16, 3), (1, 0), (17, 1)] {
        bench.ask(level(id, new), Code::Success)?;
    }
    Ok(())
}

/// Which of two scans, of these qualities, is kept where two fingers make one template.
/// RT gives its mark, the last byte of the data.
fn kept(bench: &mut Bench, first: u8, second: u8) -> Result<u8, Fail> {
    bench.start(request(Command::Enroll, 1, 0, 0))?;
    bench.finger(&scan_of(20, 20, 1), first, Code::ScanSuccess)?;
    bench.finger(&scan_of(20, 20, 2), second, Code::Success)?;
    let read = bench.ask(request(Command::ReadTemplate, 1, 0, 0), Code::Success)?;
    Ok(*read.written.get(HEAD + SCAN - 1).ok_or("no mark")?)
}

#[test]
fn the_better_of_two_scans_is_kept(rt: HostRuntime) -> Result<(), Fail> {
    let mut bench = Bench::new(rt.alloc(), 4, 1)?;
    bench.ask(set(Parameter::EnrollMode, 0x31), Code::Success)?;
    for (first, second, mark) in [(80, 60, 1), (60, 80, 2), (70, 70, 1)] {
        assert_eq!(rt; kept(&mut bench, first, second)?, mark);
    }
    Ok(())
}

/// The list of no IDs is a lone 0x0A behind its packet.
#[test]
fn a_chip_of_no_bytes_keeps_nothing(rt: HostRuntime) -> Result<(), Fail> {
    let mut bench = Bench::new(rt.alloc(), 0, 1)?;
    bench.ask(request(Command::Enroll, 1, 0, 0), Code::MemFull)?;
    bench.ask(enroll_template(1, &scan_of(20, 20, 0)), Code::MemFull)?;
    let listed = bench.ask(request(Command::ListTemplates, 0, 0, 0), Code::Success)?;
    assert_eq!(rt;
        (listed.written.len(), listed.size, listed.written.get(HEAD)),
        (HEAD + 1, 0, Some(&0x0A))
    );
    let free = bench.ask(get(Parameter::AvailableFinger), Code::Success)?;
    assert_eq!(rt; free.size, 0);
    Ok(())
}
