// Lines of text.
use refusal::Refusal;
use std::io;

pub(crate) fn text(rt: &impl Print, b: &[u8]) -> io::Result<()> {
    rt.write_all(b)
}

// # and the length of a name, in one byte, and the name: a line of it.
pub(crate) fn name(rt: &impl Print, b: &[u8]) -> io::Result<()> {
    text(rt, b"# ")?;
    text(rt, octets::part(b, 2, 255))?;
    text(rt, b"\n")
}

// A space and a number.
pub(crate) fn number(rt: &impl Print, n: u64) -> io::Result<()> {
    print!(rt; " {n}")
}

// A name and a number behind it.
pub(crate) fn one(rt: &impl Print, name: &[u8], n: u64) -> io::Result<()> {
    text(rt, name)?;
    number(rt, n)
}

// A character for a number below 16.
fn glyph(d: u8) -> u8 {
    match d {
        0..=9 => b'0' + d,
        10..=15 => b'A' + (d - 10),
        _ => b'?',
    }
}

// A space and two characters a byte; a dash where there is none.
pub(crate) fn hex(rt: &impl Print, b: &[u8]) -> io::Result<()> {
    let mut line = [0u8; 4600];
    let n = b.len().min(2300);
    for (i, x) in b[..n].iter().enumerate() {
        line[2 * i] = glyph(*x / 16);
        line[2 * i + 1] = glyph(*x % 16);
    }
    spaced(rt, octets::part(&line, 0, 2 * n))
}

// A space and a character for each digit; a dash where there is none.
pub(crate) fn digits(rt: &impl Print, b: &[u8]) -> io::Result<()> {
    let mut line = [0u8; 1000];
    let n = b.len().min(1000);
    for (place, x) in line.iter_mut().zip(&b[..n]) {
        *place = glyph(*x);
    }
    spaced(rt, octets::part(&line, 0, n))
}

fn spaced(rt: &impl Print, b: &[u8]) -> io::Result<()> {
    if b.is_empty() {
        return text(rt, b" -");
    }
    text(rt, b" ")?;
    text(rt, b)
}

// Whether every byte is x.
pub(crate) fn all(b: &[u8], x: u8) -> bool {
    b.iter().all(|y| *y == x)
}

// The bytes that were written at the start of lent memory, which was 0xEE throughout; then whether the rest still is.
pub(crate) fn memory(rt: &impl Print, lent: &[u8], written: usize) -> io::Result<()> {
    hex(rt, octets::part(lent, 0, written))?;
    if all(octets::part(lent, written, 2300), 0xEE) {
        text(rt, b"\nthe rest as it was\n")
    } else {
        text(rt, b"\nthe rest CHANGED\n")
    }
}

// The number that a result tells.
pub(crate) fn answer(outcome: Result<(), Refusal>) -> u64 {
    match outcome {
        Ok(()) => 0,
        Err(refusal) => refusal.number().into(),
    }
}

// The number that a result tells and its count, 0 beside a refusal.
pub(crate) fn told(outcome: Result<usize, Refusal>) -> (u8, usize) {
    match outcome {
        Ok(count) => (0, count),
        Err(refusal) => (refusal.number(), 0),
    }
}

// A name and the number that a result tells; then lent memory, in which so many bytes were written.
pub(crate) fn counted(
    rt: &impl Print,
    name: &[u8],
    outcome: Result<usize, Refusal>,
    lent: &[u8],
) -> io::Result<()> {
    let (answer, written) = told(outcome);
    one(rt, name, answer.into())?;
    memory(rt, lent, written)
}
