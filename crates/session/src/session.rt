ghost use Rattle.std.specs.Prelude.{◌≡◌, ◌/◌, ◌<◌, ◌≤◌, ◌⊎◌, length, Err, IfOk, OnOk, OnErr, vec_capacity};
ghost use Rattle.benchline.specs.Lines.{bench_line};
ghost use Rattle.benchline.specs.declared.fault.IllFormed.{IllFormed};
ghost use Rattle.session.specs.Driven.{line_room, session_module, session_state};
ghost use Rattle.session.specs.Making.{made_of};
ghost use Rattle.session.specs.Shown.{line_fault, line_next, line_answer};

use crate::making::Making;
use crate::module::AnyModule;
use crate::text::write_printed;
use benchline::{IllFormed, Unread, read_line};
use engine::{LEAST_ANSWER_BUFFER, LEAST_WORK_BUFFER};
use std::alloc::{AllocError, Global};
use std::fmt;

/// A module on the bench, with buffers that serve all its lines.
#[derive(Drop)]
pub struct Session {
    module: AnyModule,
    bytes: Vec<u8>,
    out: [u8; LEAST_ANSWER_BUFFER],
    work: [u8; LEAST_WORK_BUFFER],
}

/// Leaves the buffers out, so that no log shows a password, a scan or a template.
impl fmt::Debug for Session {
    fn fmt<W: fmt::Write>(&self, f: &mut fmt::Formatter<W>) -> fmt::Result {
        f.debug_struct("Session")
            .field("module", &self.module)
            .finish_non_exhaustive()
    }
}

impl Session {
    /// Makes a module, which awaits its first line. An `Err` says that there is no memory for its chip.
    pub fn new(heap: Global, making: Making) -> Result<Session, AllocError>
        ensures { IfOk result (λ s. session_state s ≡ made_of making) }
    {
        Ok(Session {
            module: making.make(heap)?,
            bytes: Vec::new(heap),
            out: [0; LEAST_ANSWER_BUFFER],
            work: [0; LEAST_WORK_BUFFER],
        })
    }

    /// Takes a line, and puts what is printed for it into `text`, in place of what that held: what the machine answers
    /// to what the line asks. Says why the line is ill-formed, if it is; then the module stays as it is.
    ///
    /// An `Err` says that there was no memory, and comes only where `text` has no room for what is printed, or the
    /// session's own buffer none for half as many bytes as the line. The module is then as it was, or as it is after
    /// the line, and `text` holds a part of what is printed at most.
    pub fn take_line(
        &mut self,
        line: &[u8],
        text: &mut Vec<u8>,
    ) -> Result<Option<IllFormed>, AllocError>
        ensures shown { OnOk result (text.new.items ≡ line_answer (session_state self.old) line.now) }
        ensures next { OnOk result
            (session_state self.new ≡ line_next (session_state self.old) line.now) }
        ensures fault { IfOk result (λ fault. fault ≡ line_fault line.now) }
        ensures room { OnErr result
            ((vec_capacity text.old < length (line_answer (session_state self.old) line.now))
            ⊎ (line_room self.old < length line.now / 2)) }
        ensures left { OnErr result ((session_state self.new ≡ session_state self.old)
            ⊎ (session_state self.new ≡ line_next (session_state self.old) line.now)) }
        ensures kept { (e : IllFormed) → bench_line line.now ≡ Err e
            → session_module self.new ≡ session_module self.old }
        ensures room_kept { vec_capacity text.old ≤ vec_capacity text.new }
    {
        text.clear();
        match read_line(line, &mut self.bytes) {
            Ok(asked) => {
                let given = self.module.call(asked, &mut self.out, &mut self.work);
                write_printed(text, Some(given), &self.out)?;
                Ok(None)
            }
            Err(Unread::Line(fault)) => {
                write_printed(text, None, &self.out)?;
                Ok(Some(fault))
            }
            Err(Unread::Memory(error)) => Err(error),
        }
    }
}
