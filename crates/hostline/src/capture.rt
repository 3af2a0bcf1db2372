ghost use Rattle.std.specs.Prelude.{◌≡◌, IfOk, bytes_eq, length};
ghost use Rattle.packet.specs.Requests.{request_bytes, request_parts};

use crate::hearing::Hearing;
use crate::line::{IllFormed, read_frame};
use crate::report::Report;
use cli::Stop;
use codes::Refusal;
use packet::{Request, write_request};
use std::alloc::{AllocError, Global};
use std::io;
use std::io::Write;

/// The refusals of a frame, in their order.
const FRAME_REFUSALS: [Refusal; 6] = [
    Refusal::TooShort,
    Refusal::StartCode,
    Refusal::EndCode,
    Refusal::Checksum,
    Refusal::Terminal,
    Refusal::DataLength,
];

/// What was seen of a capture so far.
#[derive(Clone, Copy)]
pub(crate) struct Capture {
    hearing: Hearing,
    pub lines: u64,
    pub ill_formed: u64,
    pub accepted: u64,
    /// How many of the accepted requests write back to their frames.
    pub identical: u64,
    /// How many frames each refusal of a frame met, in their order.
    pub refused: [(Refusal, u64); 6],
}

/// Whether a request writes back to its frame, in a buffer as long as that: whether its bytes are the frame's.
fn fills_frame(bytes: &mut [u8], request: Request<'_>, frame: &[u8]) -> bool
    requires { length bytes.old ≡ length frame.now }
    ensures { result ≡ bytes_eq (request_bytes (request_parts request.entry)) frame.now }
{
    write_request(bytes, request) == Some(frame.len()) && &*bytes == frame
}

/// Whether a request writes back to its frame: whether its bytes are the frame's.
fn writes_back(heap: Global, request: Request<'_>, frame: &[u8]) -> Result<bool, AllocError>
    ensures { IfOk result (λ same. same ≡ bytes_eq (request_bytes (request_parts request.entry)) frame.now) }
{
    let mut bytes = vec![in heap; 0u8; frame.len()]?;
    Ok(fills_frame(&mut bytes, request, frame))
}

impl Capture {
    /// A capture of which nothing was seen yet.
    pub fn new(hearing: Hearing) -> Capture {
        Capture {
            hearing,
            lines: 0,
            ill_formed: 0,
            accepted: 0,
            identical: 0,
            refused: FRAME_REFUSALS.map(|refusal| (refusal, 0)),
        }
    }

    /// Takes the next line of the capture: counts it, and reports what it asks, or why it asks nothing.
    pub fn take_line<W: Write>(
        &mut self,
        heap: Global,
        line: &[u8],
        report: &mut Report<W>,
    ) -> Result<(), Stop> {
        self.lines = self.lines.saturating_add(1);
        let mut frame = Vec::new(heap);
        match read_frame(line, &mut frame)? {
            Some(fault) => Ok(self.take_ill_formed(fault, report)?),
            None => self.take_frame(heap, &frame, report),
        }
    }

    /// Counts and reports a line that is no frame.
    fn take_ill_formed<W: Write>(
        &mut self,
        fault: IllFormed,
        report: &mut Report<W>,
    ) -> io::Result<()> {
        self.ill_formed = self.ill_formed.saturating_add(1);
        report.ill_formed(self.lines, fault)
    }

    /// Counts and reports a frame: the request that it is, or its refusal.
    fn take_frame<W: Write>(
        &mut self,
        heap: Global,
        frame: &[u8],
        report: &mut Report<W>,
    ) -> Result<(), Stop> {
        match self.hearing.read(frame) {
            Ok(request) => {
                let identical = writes_back(heap, request, frame)?;
                self.count_request(identical);
                Ok(report.request(self.lines, request, identical)?)
            }
            Err(refusal) => {
                self.count_refusal(refusal);
                Ok(report.refusal(self.lines, refusal)?)
            }
        }
    }

    /// Counts an accepted request, and whether it writes back to its frame.
    fn count_request(&mut self, identical: bool) {
        self.accepted = self.accepted.saturating_add(1);
        if identical {
            self.identical = self.identical.saturating_add(1);
        }
    }

    /// Counts a refused frame.
    fn count_refusal(&mut self, refusal: Refusal) {
        for (counted, count) in &mut self.refused {
            if *counted == refusal {
                *count = count.saturating_add(1);
            }
        }
    }

    /// How many frames were refused.
    pub fn refused_in_all(&self) -> u64 {
        self.refused
            .iter()
            .fold(0, |all: u64, (_, count)| all.saturating_add(*count))
    }
}
