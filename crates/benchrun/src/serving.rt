use crate::complaint::Complaint;
use cli::next_line;
use session::Session;
use std::alloc::Global;
use std::io;
use std::io::{BufReader, Read, Write};

/// Takes line after line until the input ends, and writes what is printed for each, so that each is answered before
/// more input is waited for. Gives what is to be said of ill-formed lines, if there were any. An `Err` says that
/// reading, writing or memory gave out.
pub fn serve<R: Read, W: Write>(
    heap: Global,
    session: &mut Session,
    input: &mut BufReader<R>,
    output: &mut W,
) -> io::Result<Option<Complaint>> {
    let mut line = Vec::new(heap);
    let mut text = Vec::new(heap);
    let mut complaint = None;
    for number in 1..u64::MAX {
        if !next_line(input, output, &mut line)? {
            break;
        }
        if let Some(fault) = session.take_line(&line, &mut text)? {
            complaint = Some(Complaint::with(complaint, number, fault));
        }
        output.write_all(&text)?;
    }
    output.flush()?;
    Ok(complaint)
}
