use crate::bench::{Bench, all_are, request, scan_of, set};
use codes::{Code, Command, Parameter, Refusal};
use engine::Answer;
use std::alloc::Global;
use std::process::Abort;
use std::test::*;

/// The number of a refusal; none for a call that is not refused.
fn number_of(answer: Result<Answer, Refusal>) -> Option<u8> {
    answer.err().map(u8::from)
}

/// That all three calls refuse buffers of these lengths by this number, before they look at an empty frame,
/// and leave them as they were.
fn refuses(
    rt: &impl Abort,
    heap: Global,
    bench: &mut Bench,
    out: usize,
    work: usize,
    number: u8,
) -> Result<(), Fail> {
    let mut out = vec![in heap; 0xA5u8; out]?;
    let mut work = vec![in heap; 0x5Au8; work]?;
    let refused = Some(number);
    assert_eq!(rt;
        number_of(bench.module.packet(&[], &mut out, &mut work)),
        refused
    );
    assert_eq!(rt;
        number_of(bench.module.finger(&[], 50, &mut out, &mut work)),
        refused
    );
    assert_eq!(rt;
        number_of(bench.module.second(&mut out, &mut work)),
        refused
    );
    assert!(rt; all_are(&out, 0xA5));
    assert!(rt; all_are(&work, 0x5A));
    Ok(())
}

/// The refused calls come while a finger is awaited for its last second, and it still is awaited behind them.
#[test]
fn short_buffers_are_refused_and_left(rt: HostRuntime) -> Result<(), Fail> {
    let mut bench = Bench::new(rt.alloc(), 2, 1)?;
    bench.ask(set(Parameter::Timeout, 0x31), Code::Success)?;
    bench.start(request(Command::Enroll, 1, 0, 0))?;
    for (out, work, number) in [(2047, 384, 1), (2048, 383, 2), (2047, 383, 1), (0, 0, 1)] {
        refuses(&rt, rt.alloc(), &mut bench, out, work, number)?;
    }
    bench.finger(&scan_of(20, 20, 0), 50, Code::ScanSuccess)?;
    Ok(())
}
