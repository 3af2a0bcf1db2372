use crate::bench::{Bench, all_are, enroll_template, get, request, scan_of, set};
use codes::{Code, Command, Parameter};
use engine::LEAST_ANSWER_BUFFER;
use packet::{Form, Request};
use std::test::*;

/// The same request to all modules.
fn to_all(request: Request<'_>) -> Request<'_> {
    Request {
        form: Form::Network(0),
        ..request
    }
}

/// Requests are carried out, at once or by a finger, and nothing is written of them.
#[test]
fn module_0_hears_broadcasts_and_is_silent(rt: HostRuntime) -> Result<(), Fail> {
    let mut bench = Bench::new(rt.alloc(), 4, 0)?;
    bench.ask(set(Parameter::NetworkMode, 0x31), Code::Success)?;
    bench.out = [0xA5; LEAST_ANSWER_BUFFER];
    let template = scan_of(20, 20, 0);
    bench.ask(to_all(enroll_template(1, &template)), Code::Success)?;
    let enrolled = bench.ask(to_all(get(Parameter::EnrolledFinger)), Code::Success)?;
    assert_eq!(rt; enrolled.size, 1);
    bench.start(to_all(request(Command::Verify, 1, 0, 0)))?;
    let verified = bench.finger(&template, 50, Code::Success)?;
    assert_eq!(rt; verified.written.len(), 0);
    assert!(rt; all_are(&bench.out, 0xA5));
    Ok(())
}
