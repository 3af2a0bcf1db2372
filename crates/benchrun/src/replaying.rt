ghost use Rattle.std.specs.Prelude.{◌≡◌, ◌↔◌, None};

use crate::complaint::Complaint;
use crate::serving::serve;
use session::{Making, Session};
use std::alloc::Global;
use std::io;
use std::io::BufReader;

/// How what was printed for a recorded script compares with its answers.
#[derive(Clone, Copy, PartialEq, Eq, Debug)]
pub enum Replayed {
    /// Each line has its answer, and there are no more answers. What the bench says of ill-formed lines, if any were.
    Same(Option<Complaint>),
    /// This line of the answers, counted from 1, is the first that is another one.
    Different { line: usize },
}

/// The number, from 1, of the first line in which two texts differ; none where they are the same.
fn first_difference(printed: &[u8], answers: &[u8]) -> Option<usize>
    ensures { (result ≡ None) ↔ (printed.now ≡ answers.now) }
{
    if printed == answers {
        return None;
    }
    let same = printed
        .iter()
        .zip(answers)
        .take_while(|(left, right)| left == right)
        .count();
    let before = printed.iter().take(same);
    Some(
        before
            .filter(|byte| **byte == b'\n')
            .count()
            .saturating_add(1),
    )
}

/// Drives a module by the lines of a script, and compares what is printed with its answers. An `Err` says that memory
/// gave out.
pub fn replay(heap: Global, making: Making, lines: &[u8], answers: &[u8]) -> io::Result<Replayed> {
    let mut session = Session::new(heap, making)?;
    let mut input = BufReader::new(heap, lines)?;
    let mut printed = Vec::new(heap);
    let complaint = serve(heap, &mut session, &mut input, &mut printed)?;
    Ok(match first_difference(&printed, answers) {
        None => Replayed::Same(complaint),
        Some(line) => Replayed::Different { line },
    })
}
