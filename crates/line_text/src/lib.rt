// Line numbers out of a text, one to a line.
#![tactic(auto)]

ghost use Rattle.std.specs.Prelude.{◌≡◌, ◌<◌, ◌≤◌, ◌∷◌, ◌==◌, length, IfOk};
ghost use Rattle.std.specs.List.{position_or_len};
ghost use Rattle.line_text.specs.Texts.{one_more, number_of, lines_of, numbers_in, malformed_from};

use std::alloc::{AllocError, Global};

// The numbers before the first line that is none, and the place of that line, counted from 1.
#[derive(Drop)]
pub struct Reading {
    pub lines: Vec<u16>,
    pub malformed: Option<usize>,
}

// One digit more, while the number stays below 65,536.
fn next_digit(number: u32, byte: u8) -> Option<u32>
    ensures { result ≡ one_more number byte }
{
    if !byte.is_ascii_digit() {
        return None;
    }
    let longer = 10 * u64::from(number) + u64::from(byte - b'0');
    u16::try_from(longer).ok().map(u32::from)
}

// A `u32` until the line ends: a `u16` would have to be widened at each digit, which takes longer.
fn number(line: &[u8]) -> Option<u16>
    ensures { result ≡ number_of line.now }
{
    if line.is_empty() {
        return None;
    }
    let mut number = 0;
    for byte in line {
        number = next_digit(number, *byte)?;
    }
    u16::try_from(number).ok()
}

// How many bytes stand before the first newline. No `position`: it counts beside the pointer, and takes a third longer.
fn line_length(text: &[u8]) -> usize
    ensures counts { result ≡ position_or_len (λ byte. byte == 10) text.now }
    ensures within { result ≤ length text.now }
{
    text.iter().take_while(|byte| **byte != b'\n').count()
}

// The first line, and the text after it.
#[tactic(auto, using(crate::proofs::TextLaws::first_line))]
fn split_line(text: &[u8]) -> (&[u8], &[u8])
    requires { 0 < length text.now }
    ensures splits { lines_of text.now ≡ result.0.now ∷ lines_of result.1.now }
    ensures shorter { length result.1.now < length text.now }
{
    let (line, rest) = text.split_at(line_length(text));
    // Past the newline, where there is one: no branch, which would take longer on short lines.
    (line, &rest[rest.len().min(1)..])
}

pub fn read(heap: Global, text: &[u8]) -> Result<Reading, AllocError>
    ensures { IfOk result (λ v. (v.lines.items ≡ numbers_in (lines_of text.now)) × (v.malformed ≡ malformed_from 1 (lines_of text.now))) }
{
    let mut lines = Vec::new(heap);
    let mut rest = text;
    while !rest.is_empty() {
        let (line, after) = split_line(rest);
        let Some(number) = number(line) else {
            let malformed = Some(lines.len() + 1);
            return Ok(Reading { lines, malformed });
        };
        lines.push(number)?;
        rest = after;
    }
    Ok(Reading {
        lines,
        malformed: None,
    })
}
