//! A line of the bench, read as what it asks of a module.
#![tactic(auto)]

ghost use Rattle.std.specs.Prelude.{◌≡◌, ℕ, ◌/◌, ◌<◌, [], ◌∷◌, length, vec_capacity, codes, alloc_error};
ghost use Rattle.std.specs.Prelude.{IfOk, MatchResult, Ok, Err, Some, position, slice_get};
ghost use Rattle.benchline.specs.Lines.{Because, alone, bench_line, blank, bytes_behind, digits_fault, finger};
ghost use Rattle.benchline.specs.Lines.{finger_of, is_no_digit, line_text, packet, second, seen};
ghost use Rattle.benchline.specs.declared.fault.IllFormed.TheVariants.{Empty, Misplaced, NoBlank, NoQuality, OddDigits};
ghost use Rattle.benchline.specs.declared.fault.Unread.TheVariants.{Memory};
ghost use Rattle.digits.specs.Digits.{hex_text};

mod fault;

use digits::{Fault, read_hex_into};
pub use fault::{IllFormed, Unread};
use std::fmt;

/// What a line asks. Its bytes lie in the buffer that the line was read into.
#[derive(Clone, Copy, PartialEq, Eq)]
pub enum Line<'a> {
    /// The frame came over the host line.
    Packet(&'a [u8]),
    /// A finger was scanned.
    Finger { quality: u8, scan: &'a [u8] },
    /// A second passed.
    Second,
}

/// Leaves the bytes out, so that no log shows a password, a scan or a template.
impl fmt::Debug for Line<'_> {
    fn fmt<W: fmt::Write>(&self, f: &mut fmt::Formatter<W>) -> fmt::Result {
        match self {
            Line::Packet(_) => f.debug_struct("Packet").finish_non_exhaustive(),
            Line::Finger { quality, .. } => f
                .debug_struct("Finger")
                .field("quality", quality)
                .finish_non_exhaustive(),
            Line::Second => f.write_str("Second"),
        }
    }
}

/// Why characters behind a letter and a blank are no bytes, by the place of the first that is no digit.
fn digits_fault(digits: &[u8], no_digit: Option<usize>) -> IllFormed
    requires { no_digit ≡ position is_no_digit digits.now }
    ensures { result ≡ digits_fault digits.now }
{
    match no_digit {
        Some(at) => IllFormed::Misplaced {
            at: at + 2,
            byte: digits[at],
        },
        None => IllFormed::OddDigits,
    }
}

/// The bytes whose digits stand behind one blank, in the buffer.
#[tactic(auto, using(crate::proofs::Faults::first_no_digit, crate::proofs::Faults::only_digits))]
fn bytes_behind<'a>(rest: &[u8], buffer: &'a mut Vec<u8>) -> Result<&'a [u8], Unread>
    ensures value { MatchResult result
        (λ bytes. bytes_behind rest.now ≡ Ok bytes.now)
        (λ e. Because e (bytes_behind rest.now)) }
    ensures back { IfOk result (λ bytes. blank ∷ hex_text bytes.now ≡ rest.now) }
    ensures room { result ≡ Err (Memory alloc_error) → vec_capacity buffer.old < length rest.now / 2 }
{
    let digits = match rest {
        [b' ', digits @ ..] => digits,
        [byte, ..] => {
            return Err(Unread::Line(IllFormed::Misplaced { at: 1, byte: *byte }));
        }
        [] => return Err(Unread::Line(IllFormed::NoBlank)),
    };
    match read_hex_into(digits, buffer) {
        Ok(()) => Ok(buffer.as_slice()),
        Err(Fault::NoDigit(at)) => Err(Unread::Line(digits_fault(digits, Some(at)))),
        Err(Fault::Odd) => Err(Unread::Line(digits_fault(digits, None))),
        Err(Fault::Memory(error)) => Err(Unread::Memory(error)),
    }
}

/// A finger, whose quality comes first.
fn finger_of(bytes: &[u8]) -> Result<Line<'_>, Unread>
    ensures value { MatchResult result
        (λ l. finger_of (Ok bytes.now) ≡ Ok (seen l))
        (λ e. Because e (finger_of (Ok bytes.now))) }
    ensures enough { result ≡ Err (Memory alloc_error) → ⊥ }
{
    match bytes {
        [quality, scan @ ..] => Ok(Line::Finger {
            quality: *quality,
            scan,
        }),
        [] => Err(Unread::Line(IllFormed::NoQuality)),
    }
}

/// A second, with nothing behind its letter.
fn second_alone(rest: &[u8]) -> Result<Line<'static>, Unread>
    ensures value { MatchResult result
        (λ l. alone rest.now ≡ Ok (seen l))
        (λ e. Because e (alone rest.now)) }
    ensures enough { result ≡ Err (Memory alloc_error) → ⊥ }
{
    match rest {
        [] => Ok(Line::Second),
        [byte, ..] => Err(Unread::Line(IllFormed::Misplaced { at: 1, byte: *byte })),
    }
}

/// Reads a line, which comes without its end. The buffer takes the bytes of what is asked in place of what it held,
/// and lends them. An ill-formed line asks nothing, and the `Err` says why. An `Err` that says that there is no memory
/// comes only where the buffer has no room for half as many bytes as the line: so one buffer serves all lines.
pub fn read_line<'a>(line: &[u8], buffer: &'a mut Vec<u8>) -> Result<Line<'a>, Unread>
    ensures value { MatchResult result
        (λ l. bench_line line.now ≡ Ok (seen l))
        (λ e. Because e (bench_line line.now)) }
    ensures back { IfOk result (λ l. line_text (seen l) ≡ line.now) }
    ensures there { (at byte : ℕ) → bench_line line.now ≡ Err (Misplaced at byte)
        → slice_get line.now at ≡ Some byte }
    ensures room { result ≡ Err (Memory alloc_error) → vec_capacity buffer.old < length line.now / 2 }
{
    let [letter, rest @ ..] = line else {
        return Err(Unread::Line(IllFormed::Empty));
    };
    match char::from(*letter) {
        'P' => Ok(Line::Packet(bytes_behind(rest, buffer)?)),
        'F' => finger_of(bytes_behind(rest, buffer)?),
        'S' => second_alone(rest),
        _ => Err(Unread::Line(IllFormed::Misplaced {
            at: 0,
            byte: *letter,
        })),
    }
}

/// Worked examples: lines that ask something, and ill-formed ones with what is wrong with them.
pub fn marked_lines()
    ensures right { (bench_line (codes "P ") ≡ Ok (packet []))
        × (bench_line (codes "P 4FA0") ≡ Ok (packet (0x4F ∷ 0xA0 ∷ [])))
        × (bench_line (codes "F 64") ≡ Ok (finger 100 []))
        × (bench_line (codes "F 640A0B") ≡ Ok (finger 100 (10 ∷ 11 ∷ [])))
        × (bench_line (codes "S") ≡ Ok second) }
    ensures short { (bench_line [] ≡ Err Empty)
        × (bench_line (codes "P") ≡ Err NoBlank)
        × (bench_line (codes "F ") ≡ Err NoQuality)
        × (bench_line (codes "P 4") ≡ Err OddDigits) }
    ensures digits { (bench_line (codes "P 4f") ≡ Err (Misplaced 3 102))
        × (bench_line (codes "P  4F") ≡ Err (Misplaced 2 32))
        × (bench_line (codes "P 4F ") ≡ Err (Misplaced 4 32))
        × (bench_line (codes "F 64 0A") ≡ Err (Misplaced 4 32)) }
    ensures letters { (bench_line (codes "s") ≡ Err (Misplaced 0 115))
        × (bench_line (codes "R") ≡ Err (Misplaced 0 82))
        × (bench_line (codes "P4F") ≡ Err (Misplaced 1 52))
        × (bench_line (codes "S ") ≡ Err (Misplaced 1 32))
        × (bench_line (80 ∷ 9 ∷ codes "4F") ≡ Err (Misplaced 1 9))
        × (bench_line (83 ∷ 13 ∷ []) ≡ Err (Misplaced 1 13)) }
{}
