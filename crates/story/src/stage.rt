use crate::ask::Ask;
use crate::bench::{Bench, OWN, PLACES, refused};
use crate::person::Person;
use crate::telling::Telling;
use anyhow::anyhow;
use cli::Stop;
use codes::{Code, Coded};
use packet::{Response, read_response};
use std::io::Write;

/// The first ID that the memory is filled with.
const FIRST_NEW: u16 = 3;

/// More IDs than the memory has places.
const MOST_NEW: u16 = PLACES + 1;

/// For how many seconds a fresh module awaits a finger.
const WAIT: u8 = 10;

/// The module and whoever tells of it.
#[derive(Drop)]
pub(crate) struct Stage<W: Write> {
    bench: Bench,
    telling: Telling<W>,
}

/// The first response that the module wrote.
fn first_of(said: &[u8]) -> anyhow::Result<Response<'_>> {
    let (first, _) = read_response(said).map_err(refused)?;
    Ok(first)
}

/// Whether the module answered SUCCESS first.
fn is_done(said: &[u8]) -> anyhow::Result<bool> {
    Ok(matches!(first_of(said)?.code, Coded::Known(Code::Success)))
}

impl<W: Write> Stage<W> {
    pub fn new(bench: Bench, telling: Telling<W>) -> Stage<W> {
        Stage { bench, telling }
    }

    /// What a reader has to know before the first chapter.
    pub fn open(&mut self) -> Result<(), Stop> {
        self.telling.text(format_args!(
            "One module, number {OWN}, with places for {PLACES} templates."
        ))?;
        self.telling.text("An enrolment by fingers takes two fingers and two places.")?;
        self.telling.text(format_args!("Each finger is awaited for {WAIT} seconds.\n"))?;
        self.telling.text(
            "ESA and DSA want a grant: an administrator's finger, to which the module says CONTINUE.",
        )?;
        self.telling.text(
            "The grant is open until that request ends: SUCCESS spends it, by any other end it fails.",
        )?;
        self.telling.text(
            "Behind each step of a request stands what the module awaits, and who has earned the open grant.",
        )?;
        Ok(())
    }

    pub fn close(&mut self) -> Result<(), Stop> {
        Ok(self.telling.close()?)
    }

    /// A chapter begins, or a part of one.
    pub fn chapter(&mut self, title: &str) -> Result<(), Stop> {
        Ok(self.telling.text(format_args!("\n{title}"))?)
    }

    /// A chapter ends with the promise that it shows.
    pub fn shows(&mut self, promise: &str) -> Result<(), Stop> {
        Ok(self.telling.line("shows", promise)?)
    }

    /// The host asks, and the module's answers are told. They are lent until the next call.
    pub fn ask(&mut self, ask: Ask) -> Result<&[u8], Stop> {
        self.telling.line("host", ask)?;
        let given = self.bench.ask(ask)?;
        self.telling.packet(ask, given)?;
        Ok(given.written)
    }

    /// A person lays a finger, of whose scan this is the quality.
    pub fn finger(&mut self, person: Person, quality: u8) -> Result<(), Stop> {
        self.telling
            .line("finger", format_args!("{person}'s, of quality {quality}"))?;
        let given = self.bench.finger(&person.scan(), quality)?;
        self.telling.event(given)
    }

    /// A person lays a finger, and the scan breaks off in the middle.
    pub fn half_a_scan(&mut self, person: Person, quality: u8) -> Result<(), Stop> {
        self.telling.line(
            "finger",
            format_args!("{person}'s, of quality {quality}, but half a scan"),
        )?;
        let given = self.bench.finger(&person.half_a_scan(), quality)?;
        self.telling.event(given)
    }

    /// Seconds pass, and what the module says to the last of them is told. To those before it has to say nothing.
    fn seconds(&mut self, count: u8) -> Result<(), Stop> {
        match count {
            1 => self.telling.line("clock", "a second passes")?,
            _ => self
                .telling
                .line("clock", format_args!("{count} seconds pass"))?,
        }
        for _ in 1..count {
            if !self.bench.second()?.written.is_empty() {
                return Err(Stop::from(anyhow!("the wait was over too soon")));
            }
        }
        let given = self.bench.second()?;
        self.telling.event(given)
    }

    /// Nobody lays a finger until the wait is over.
    pub fn nobody(&mut self) -> Result<(), Stop> {
        self.seconds(WAIT - 1)?;
        self.seconds(1)
    }

    /// Templates under new IDs, for as long as the module takes them: only the first request and the last answer are
    /// told, and how many were done.
    pub fn fill(&mut self) -> Result<(), Stop> {
        self.telling.line("host", Ask::EnrollTemplate(FIRST_NEW))?;
        self.telling
            .line("host", "and so on with the next IDs, while that is done")?;
        for done in 0..MOST_NEW {
            let said = self
                .bench
                .ask(Ask::EnrollTemplate(FIRST_NEW + done))?
                .written;
            if !is_done(said)? {
                self.telling.line("module", format_args!("ET: {done} times SUCCESS, and then"))?;
                return self.telling.answers(said);
            }
        }
        Err(Stop::from(anyhow!("the memory takes more than it has places for")))
    }

    /// The value that a parameter is said to have.
    fn value(&mut self, ask: Ask) -> Result<u32, Stop> {
        Ok(first_of(self.ask(ask)?)?.size)
    }

    /// What is held and what is free, by the module's own word.
    pub fn holdings(&mut self) -> Result<(), Stop> {
        self.ask(Ask::List)?;
        let held = self.value(Ask::CountHeld)?;
        let free = self.value(Ask::CountFree)?;
        let all = held.saturating_add(free);
        self.telling.line(
            "sum",
            format_args!("{held} held and {free} free: {all} places"),
        )?;
        Ok(())
    }
}
