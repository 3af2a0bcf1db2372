use super::{Replayed, read_making, replay, serve};
use session::{Making, Session};
use std::cell::Cell;
use std::io;
use std::io::{BufReader, Read, Write};
use std::test::Fail;

/// The module without options.
fn plain() -> Making {
    Making::chosen(None, None, None, None)
}

#[test]
fn sizes_have_limits(rt: HostRuntime) -> Result<(), Fail> {
    for (option, value, taken) in [
        ("--pages", "64", true),
        ("--pages", "65", false),
        ("--rows", "500", true),
        ("--rows", "501", false),
        ("--number", "65535", true),
        ("--number", "65536", false),
        ("--number", "-1", false),
        ("--matcher", "bytes", false),
    ] {
        let words = ["bench", option, value];
        let made = read_making(rt.alloc(), words.as_slice());
        assert_eq!(rt; made.is_ok(), taken, "{option} {value}");
    }
    Ok(())
}

/// A second memory is no correction of the first.
#[test]
fn a_module_has_one_memory(rt: HostRuntime) -> Result<(), Fail> {
    for [first, second] in [
        ["--pages", "--rows"],
        ["--rows", "--pages"],
        ["--pages", "--pages"],
        ["--rows", "--rows"],
    ] {
        let words = ["bench", first, "1", second, "1"];
        let made = read_making(rt.alloc(), words.as_slice());
        assert!(rt; made.is_err(), "{first} and {second}");
    }
    Ok(())
}

/// Of two seconds that pass: a changed answer, one that is missing, one too many.
#[test]
fn a_difference_is_found(rt: HostRuntime) -> Result<(), Fail> {
    for (answers, found) in [
        (b":\n:\n".as_slice(), Replayed::Same(None)),
        (b":\n?\n".as_slice(), Replayed::Different { line: 2 }),
        (b":\n".as_slice(), Replayed::Different { line: 2 }),
        (b":\n:\n:\n".as_slice(), Replayed::Different { line: 3 }),
    ] {
        assert_eq!(rt; replay(rt.alloc(), plain(), b"S\nS\n", answers)?, found);
    }
    Ok(())
}

/// How many lines were given, and how many answers have come.
#[derive(Drop)]
struct Talk {
    given: Cell<usize>,
    answered: Cell<usize>,
}

/// Gives a line, and half of the next, only once all answers to whole lines have come.
#[derive(Drop)]
struct Asking<'a>(&'a Talk);

impl Read for Asking<'_> {
    fn read(&mut self, buf: &mut [u8]) -> io::Result<usize> {
        let given = self.0.given.get();
        if self.0.answered.get() < given {
            return Err(io::Error::other("no answer before the next read"));
        }
        let part: &[u8] = if given == 0 { b"S\nS" } else { b"\nS" };
        if given > 4 || buf.len() < part.len() {
            return Ok(0);
        }
        buf[..part.len()].copy_from_slice(part);
        self.0.given.set(given + 1);
        Ok(part.len())
    }
}

/// Counts the answers that are flushed.
#[derive(Drop)]
struct Answering<'a> {
    talk: &'a Talk,
    held: usize,
}

impl Write for Answering<'_> {
    fn write(&mut self, buf: &[u8]) -> io::Result<usize> {
        let lines = buf.iter().filter(|byte| **byte == b'\n').count();
        self.held = self.held.saturating_add(lines);
        Ok(buf.len())
    }

    fn flush(&mut self) -> io::Result<()> {
        let answered = self.talk.answered.get();
        self.talk.answered.set(answered.saturating_add(self.held));
        self.held = 0;
        Ok(())
    }
}

#[test]
fn a_line_is_answered_before_the_next_read(rt: HostRuntime) -> Result<(), Fail> {
    let talk = Talk {
        given: Cell::new(0),
        answered: Cell::new(0),
    };
    let mut session = Session::new(rt.alloc(), plain())?;
    let mut input = BufReader::new(rt.alloc(), Asking(&talk))?;
    let mut output = Answering {
        talk: &talk,
        held: 0,
    };
    let complaint = serve(rt.alloc(), &mut session, &mut input, &mut output)?;
    assert!(rt; complaint.is_none());
    assert_eq!(rt; talk.answered.get(), 6);
    Ok(())
}
