use crate::capture::Capture;
use crate::line::IllFormed;
use codes::{Coded, Command, EnrollFlag, Parameter, Refusal};
use packet::Request;
use std::io;
use std::io::Write;

/// What is printed.
#[derive(Drop)]
pub(crate) struct Report<W: Write> {
    out: W,
}

/// What the flag of a request means to its command.
fn flag_name(request: Request<'_>) -> &'static str {
    let Coded::Known(command) = request.command else {
        return "ignored";
    };
    match command {
        Command::WriteParameter | Command::ReadParameter => {
            Parameter::try_from(request.flag).map_or("unknown parameter", Parameter::name)
        }
        Command::Enroll | Command::EnrollByAdministrator | Command::EnrollTemplate => {
            EnrollFlag::try_from(request.flag).map_or("unknown flag", EnrollFlag::name)
        }
        Command::WriteLevel => "level",
        _ => "ignored",
    }
}

impl<W: Write> Report<W> {
    /// A report that is written to `out`.
    pub fn new(out: W) -> Report<W> {
        Report { out }
    }

    /// Reports a line that is no frame, and why.
    pub fn ill_formed(&mut self, line: u64, fault: IllFormed) -> io::Result<()> {
        writeln!(self.out, "{line:>6}  ill-formed: {fault}")
    }

    /// Reports a frame that was refused, and by which test.
    pub fn refusal(&mut self, line: u64, refusal: Refusal) -> io::Result<()> {
        let number = u8::from(refusal);
        writeln!(self.out, "{line:>6}  refused {number}: {refusal}")
    }

    /// Reports a request, field by field, and whether it writes back to its frame.
    pub fn request(&mut self, line: u64, request: Request<'_>, identical: bool) -> io::Result<()> {
        let command = request.command;
        let form = request.form;
        let param = request.param;
        let size = request.size;
        let flag = request.flag;
        let meaning = flag_name(request);
        let length = request.data.len();
        let back = if identical { "identical" } else { "DIFFERENT" };
        write!(
            self.out,
            "{line:>6}  {command}: Param 0x{param:08X}, Size 0x{size:08X}, "
        )?;
        write!(
            self.out,
            "flag 0x{flag:02X} ({meaning}), {length} bytes of data, {form}; "
        )?;
        writeln!(self.out, "written back {back}")
    }

    /// What the report is written to.
    pub fn out(&mut self) -> &mut W {
        &mut self.out
    }

    /// Says how many lines, frames and requests there were, and writes out what is still held back.
    pub fn summary(&mut self, capture: &Capture) -> io::Result<()> {
        let lines = capture.lines;
        let ill_formed = capture.ill_formed;
        let accepted = capture.accepted;
        let identical = capture.identical;
        let refused = capture.refused_in_all();
        let frames = accepted.saturating_add(refused);
        writeln!(
            self.out,
            "{lines} lines: {frames} frames read, {ill_formed} ill-formed"
        )?;
        writeln!(
            self.out,
            "{frames} frames: {accepted} accepted, {refused} refused"
        )?;
        for (refusal, count) in capture.refused {
            let number = u8::from(refusal);
            writeln!(self.out, "  refused {number} ({refusal}): {count}")?;
        }
        writeln!(self.out, "{accepted} written back: {identical} identical")?;
        self.out.flush()
    }
}
