//! Bytes written as pairs of hexadecimal digits, 0 to 9 and A to F.
#![tactic(auto)]

ghost use Rattle.std.specs.Prelude.{◌≡◌, ◌≢◌, ◌+◌, ◌*◌, ◌/◌, ◌^◌, ◌<◌, ◌≤◌, [], ◌++◌, length, drop};
ghost use Rattle.std.specs.Prelude.{IfOk, IfErr, MatchResult, OnErr, OnOk, Ok, alloc_error, vec_len, vec_capacity};
ghost use Rattle.digits.specs.Digits.{Because, byte_from, digit_from, digit_of, digit_value, hex_bytes, hex_text};
ghost use Rattle.digits.specs.declared.Fault.TheVariants.{Memory};

use std::alloc::{AllocError, Global};

/// Why a text is no bytes.
#[derive(Clone, Copy, PartialEq, Eq, Debug)]
pub enum Fault {
    /// What stands at this place, counted from 0, is no digit.
    NoDigit(usize),
    /// There are only digits, and the last one has no partner.
    Odd,
    /// There is no memory for the bytes.
    Memory(AllocError),
}

impl From<AllocError> for Fault {
    ghost from_gives = { λ error fault. fault ≡ Memory error };

    fn from(error: AllocError) -> Fault {
        Fault::Memory(error)
    }
}

/// The value of a digit.
pub fn digit_value(c: char) -> Option<u8>
    ensures { result ≡ digit_value c }
{
    match c {
        '0'..='9' => Some((c as u32 - 48) as u8),
        'A'..='F' => Some((c as u32 - 55) as u8),
        _ => None,
    }
}

/// The value of the digit `b`, which stands at the place `at`.
fn digit_from(at: usize, b: u8) -> Result<u8, Fault>
    ensures { result ≡ digit_from at b }
{
    digit_value(char::from(b)).ok_or(Fault::NoDigit(at))
}

/// The byte of two digits, of which the first stands at the place `at`.
fn byte_from(at: usize, high: u8, low: u8) -> Result<u8, Fault>
    requires { at + 1 < 2 ^ 64 }
    ensures { result ≡ byte_from at high low }
{
    let h = digit_from(at, high)?;
    let l = digit_from(at + 1, low)?;
    Ok(h * 16 + l)
}

/// The bytes of a text of digits, high digit first. A text of no digits wants no memory.
pub fn read_hex(heap: Global, digits: &[u8]) -> Result<Vec<u8>, Fault>
    ensures value { MatchResult result
        (λ v. hex_bytes digits.now ≡ Ok v.items)
        (λ e. Because e (hex_bytes digits.now)) }
    ensures back { IfOk result (λ v. hex_text v.items ≡ digits.now) }
    ensures room { IfErr result (λ e. e ≡ Fault.Memory alloc_error
        → 0 < length digits.now / 2) }
{
    let mut bytes = Vec::new(heap);
    read_hex_into(digits, &mut bytes)?;
    Ok(bytes)
}

/// Reads a text of digits into an empty buffer that has room for its bytes.
fn read_pairs(digits: &[u8], bytes: &mut Vec<u8>) -> Result<(), Fault>
    requires empty { bytes.old.items ≡ [] }
    requires room { length digits.now / 2 ≤ vec_capacity bytes.old }
    ensures value { MatchResult result
        (λ _. hex_bytes digits.now ≡ Ok bytes.new.items)
        (λ e. Because e (hex_bytes digits.now)) }
    ensures back { OnOk result (hex_text bytes.new.items ≡ digits.now) }
    ensures no_memory { IfErr result (λ e. e ≢ Fault.Memory alloc_error) }
    ensures capacity { vec_capacity bytes.new ≡ vec_capacity bytes.old }
{
    let (pairs, last) = digits.as_chunks::<2>();
    for (index, [high, low]) in pairs.iter().enumerate() {
        bytes.push_reserved(byte_from(2 * index, *high, *low)?);
    }
    if let [digit] = last {
        digit_from(digits.len() - 1, *digit)?;
        return Err(Fault::Odd);
    }
    Ok(())
}

/// Reads a text of digits into a buffer, in place of what it held: one buffer serves many texts,
/// and once it has room for the longest no more memory is wanted. After an `Err` it holds nothing.
pub fn read_hex_into(digits: &[u8], bytes: &mut Vec<u8>) -> Result<(), Fault>
    ensures value { MatchResult result
        (λ _. hex_bytes digits.now ≡ Ok bytes.new.items)
        (λ e. Because e (hex_bytes digits.now)) }
    ensures back { OnOk result (hex_text bytes.new.items ≡ digits.now) }
    ensures empty { OnErr result (bytes.new.items ≡ []) }
    ensures room { IfErr result (λ e. e ≡ Fault.Memory alloc_error
        → vec_capacity bytes.old < length digits.now / 2) }
    ensures kept { vec_capacity bytes.old ≤ vec_capacity bytes.new }
{
    bytes.clear();
    bytes.reserve(digits.len() / 2)?;
    let read = read_pairs(digits, bytes);
    if read.is_err() {
        bytes.clear();
    }
    read
}

/// The digit of a value below 16.
fn digit_of(value: u8) -> u8
    requires { value < 16 }
    ensures { result ≡ digit_of value }
{
    match value {
        0..=9 => b'0' + value,
        _ => b'A' + (value - 10),
    }
}

/// Writes bytes as digits behind a text, high digit first. After an `Err`, which says that there is neither room for the
/// digits nor memory for more, the text is as it was.
pub fn write_hex(text: &mut Vec<u8>, bytes: &[u8]) -> Result<(), AllocError>
    ensures value { OnOk result (text.new.items
        ≡ text.old.items ++ hex_text bytes.now) }
    ensures reads { OnOk result (hex_bytes (drop (vec_len text.old) text.new.items) ≡ Ok bytes.now) }
    ensures unchanged { OnErr result (text.new.items ≡ text.old.items) }
    ensures room { OnErr result (vec_capacity text.old
        < vec_len text.old + 2 * length bytes.now) }
    ensures kept { vec_capacity text.old ≤ vec_capacity text.new }
{
    text.reserve(2 * bytes.len())?;
    for b in bytes {
        text.push_reserved(digit_of(b / 16));
        text.push_reserved(digit_of(b % 16));
    }
    Ok(())
}
