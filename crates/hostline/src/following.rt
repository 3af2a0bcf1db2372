use crate::capture::Capture;
use crate::report::Report;
use cli::{Stop, next_line};
use std::alloc::Global;
use std::io::{BufReader, Read, Write};

/// Takes line after line of a capture until the input ends, and reports each before it waits for more input. An `Err`
/// says that reading, writing or memory gave out.
pub(crate) fn follow<R: Read, W: Write>(
    heap: Global,
    capture: &mut Capture,
    input: &mut BufReader<R>,
    report: &mut Report<W>,
) -> Result<(), Stop> {
    let mut line = Vec::new(heap);
    for _ in 0..u64::MAX {
        if !next_line(input, report.out(), &mut line)? {
            break;
        }
        capture.take_line(heap, &line, report)?;
    }
    Ok(())
}
