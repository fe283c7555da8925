// The sister band's commands. B, the length of a command in two bytes, the command: what its reader says of it, the content that it is, and
// what the writer makes of what was read.
// G and a command: what the writer makes of it. Behind the letter stand, by the index of their first byte: 1 its tag, any other than 1 to 3
// for none; 2 a number of four bytes; 6 five of one byte; 11 its count; 13 the length of the memory lent, at most 3200; 15 the length of the
// address; 17 that of the codes; 19 the address, and behind it the codes.
// V, three bytes of no account, a content and 35 digits as in W: the command that the content is.
ghost use Rattle.std.specs.Prelude.{◌≤◌};

use crate::{input, reading, say, writing};
use refusal::Refusal;
use sister::Command;
use std::io;

fn command(rt: &impl Print, c: Command) -> io::Result<()> {
    match c {
        Command::Clock {
            year,
            month,
            day,
            hour,
            minute,
            second,
        } => {
            say::one(rt, b" clock", year as u64)?;
            say::number(rt, month as u64)?;
            say::number(rt, day as u64)?;
            say::number(rt, hour as u64)?;
            say::number(rt, minute as u64)?;
            say::number(rt, second as u64)
        }
        Command::Resource { length } => say::one(rt, b" resource", length as u64),
        Command::Lock { khz, count } => {
            say::one(rt, b" lock", khz as u64)?;
            say::number(rt, count as u64)
        }
        Command::Unknown => say::text(rt, b" unknown"),
    }
}

// The digits of a command's codes, at most as many as a reader gives.
fn codes_length(c: Command) -> usize
    ensures { result ≤ 5865 }
{
    match c {
        Command::Resource { .. } => 23,
        Command::Lock { count, .. } => { if count < 256 { 23 * count } else { 5865 } }
        _ => 0,
    }
}

// Digits or bytes of at most 6000, 1000 to a word.
fn all_digits(rt: &impl Print, b: &[u8]) -> io::Result<()> {
    say::digits(rt, octets::part(b, 0, 1000))?;
    say::digits(rt, octets::part(b, 1000, 1000))?;
    say::digits(rt, octets::part(b, 2000, 1000))?;
    say::digits(rt, octets::part(b, 3000, 1000))?;
    say::digits(rt, octets::part(b, 4000, 1000))?;
    say::digits(rt, octets::part(b, 5000, 1000))
}

// What was written at the start of the memory lent, and whether the rest is as it was.
fn memory(rt: &impl Print, outcome: Result<usize, Refusal>, lent: &[u8]) -> io::Result<()> {
    let (answer, written) = say::told(outcome);
    say::one(rt, b"encode", answer.into())?;
    say::hex(rt, octets::part(lent, 0, written.min(1600)))?;
    say::hex(rt, octets::part(octets::part(lent, 0, written), 1600, 1600))?;
    if say::all(octets::part(lent, written, 3200), 0xEE) {
        say::text(rt, b"\nthe rest as it was\n")
    } else {
        say::text(rt, b"\nthe rest CHANGED\n")
    }
}

// All that was read. Beside a refusal it should be nothing.
fn shown(rt: &impl Print, answer: u8, c: Command, codes: &[u8], address: &[u8]) -> io::Result<()> {
    let n = codes_length(c);
    say::one(rt, b"decode", answer as u64)?;
    command(rt, c)?;
    say::text(rt, b"\naddress")?;
    say::hex(rt, address)?;
    say::text(rt, b"\ncodes")?;
    all_digits(rt, octets::part(codes, 0, n))?;
    if !say::all(octets::part(codes, n, 5865), 0) {
        say::text(rt, b"\na code past the last")?;
    }
    say::text(rt, b"\n")
}

// The content that a command is.
fn carried(rt: &impl Print, c: Command, codes: &[u8]) -> io::Result<()> {
    let digits = carry::digits_of(c, codes);
    say::text(rt, b"content ")?;
    reading::content(rt, carry::content_of(c))?;
    say::text(rt, b"\ndigits")?;
    say::digits(rt, &digits)?;
    say::text(rt, b"\n")
}

fn back(rt: &impl Print, c: Command, codes: &[u8], address: &[u8]) -> io::Result<()> {
    let lent = octets::part(codes, 0, codes_length(c));
    carried(rt, c, lent)?;
    encoded(rt, c, address, lent, 3200)
}

pub(crate) fn read(rt: &impl Print, b: &[u8]) -> io::Result<()> {
    let bytes = octets::part(b, 3, 65536);
    let address = sister::address(bytes);
    match sister::read(bytes) {
        Ok(o) => {
            shown(rt, 0, o.command, &o.codes, address)?;
            back(rt, o.command, &o.codes, address)
        }
        Err(refusal) => shown(rt, refusal.number(), Command::Unknown, &[], address),
    }
}

fn given(b: &[u8]) -> Command {
    let n = input::two(b, 11) as usize;
    match octets::byte(b, 1) {
        1 => Command::Clock {
            year: input::two(b, 4),
            month: octets::byte(b, 6),
            day: octets::byte(b, 7),
            hour: octets::byte(b, 8),
            minute: octets::byte(b, 9),
            second: octets::byte(b, 10),
        },
        2 => Command::Resource { length: n },
        3 => Command::Lock {
            khz: input::four(b, 2),
            count: n,
        },
        _ => Command::Unknown,
    }
}

// Writes into the first n bytes of memory, or into all of it.
fn written(
    rt: &impl Print,
    c: Command,
    address: &[u8],
    codes: &[u8],
    n: usize,
    lent: &mut [u8],
) -> io::Result<()> {
    let e = n.min(lent.len());
    let outcome = sister::write(c, address, codes, &mut lent[0..e]);
    memory(rt, outcome, lent)
}

fn encoded(rt: &impl Print, c: Command, address: &[u8], codes: &[u8], n: usize) -> io::Result<()> {
    written(rt, c, address, codes, n, &mut [0xEEu8; 3200])
}

pub(crate) fn write(rt: &impl Print, b: &[u8]) -> io::Result<()> {
    let n = input::two(b, 15) as usize;
    encoded(
        rt,
        given(b),
        octets::part(b, 19, n),
        octets::part(b, 19 + n, 65536),
        input::two(b, 13) as usize,
    )
}

pub(crate) fn carry(rt: &impl Print, b: &[u8]) -> io::Result<()> {
    let digits = octets::part(b, 12, 35);
    say::text(rt, b"carried")?;
    command(rt, carry::command_of(writing::content(b)))?;
    say::text(rt, b"\ncode")?;
    say::digits(rt, carry::code_of(writing::content(b), digits))?;
    say::text(rt, b"\n")
}
