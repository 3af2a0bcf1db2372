use crate::ask::Ask;
use crate::bench::{Given, refused};
use crate::standing::Standing;
use crate::words::Said;
use cli::Stop;
use packet::{Response, read_response};
use std::fmt::Display;
use std::io;
use std::io::Write;

/// The most responses that one call writes.
const MOST_RESPONSES: usize = 2;

/// The responses that a call wrote, one right behind the other.
#[derive(Clone, Copy)]
struct Responses<'a>(&'a [u8]);

impl<'a> Iterator for Responses<'a> {
    type Item = anyhow::Result<Response<'a>>;

    fn next(&mut self) -> Option<anyhow::Result<Response<'a>>> {
        if self.0.is_empty() {
            return None;
        }
        match read_response(self.0) {
            Ok((response, behind)) => {
                self.0 = behind;
                Some(Ok(response))
            }
            Err(refusal) => Some(Err(refused(refusal))),
        }
    }
}

/// What is told, line by line, and how things stand by it.
#[derive(Drop)]
pub(crate) struct Telling<W: Write> {
    out: W,
    standing: Standing,
}

impl<W: Write> Telling<W> {
    pub fn new(out: W) -> Telling<W> {
        Telling {
            out,
            standing: Standing::Idle,
        }
    }

    /// A line for itself.
    pub fn text<D: Display + Drop>(&mut self, text: D) -> io::Result<()> {
        writeln!(self.out, "{text}")
    }

    /// Who does something, and what.
    pub fn line<D: Display + Drop>(&mut self, who: &str, what: D) -> io::Result<()> {
        writeln!(self.out, "  {who:<8}{what}")
    }

    /// What the module answered.
    pub fn answers(&mut self, written: &[u8]) -> Result<(), Stop> {
        if written.is_empty() {
            return Ok(self.line("module", "says nothing")?);
        }
        for response in Responses(written).take(MOST_RESPONSES) {
            self.line("module", Said(response?))?;
        }
        Ok(())
    }

    /// What a packet was answered, and how things stand after it, where a request waits, has waited or could have.
    pub fn packet(&mut self, ask: Ask, given: Given<'_>) -> Result<(), Stop> {
        self.answers(given.written)?;
        let has_waited = self.standing.waiting().is_some();
        self.standing = self.standing.after_packet(ask, given.outcomes);
        if has_waited || ask.awaited().is_some() {
            self.line("awaits", self.standing)?;
        }
        Ok(())
    }

    /// What a finger or a second was answered, and how things stand after it.
    pub fn event(&mut self, given: Given<'_>) -> Result<(), Stop> {
        self.answers(given.written)?;
        self.standing = self.standing.after_event(given.outcomes);
        Ok(self.line("awaits", self.standing)?)
    }

    /// Writes out what is still held back.
    pub fn close(&mut self) -> io::Result<()> {
        self.out.flush()
    }
}
