// What the shelf's functions make of a shelf that is given as some bytes, over and over up to a length, so that a full one fits in a record.
// E, the shelf's length (four bytes, at most 1048833), three lengths (two bytes each) and so many of its bytes, of a record's and of a summary's,
// these at most 300: the summary behind adding. U, the shelf's length, the length of the memory lent (two bytes, at most 300), a length (two bytes)
// and so many of the shelf's bytes: its summary. M, level, version, the length of the memory lent, a length and so many bytes of a packet: its record.
// L, the length of the memory lent (two bytes, at most 600), a length and so many bytes of a record: its line.
ghost use Rattle.std.specs.Prelude.{◌≡◌, length};

use crate::{input, say};
use std::io;

// A record more than a shelf may have, and a byte.
const SPACE: usize = 1048833;

// The bytes over and over until the output is full.
fn repeat(b: &[u8], out: &mut [u8])
    ensures { length out.new ≡ length out.old }
{
    for (place, byte) in out.iter_mut().zip(b.iter().cycle()) {
        *place = *byte;
    }
}

// Adds to the first n bytes of the space with a summary that is put into the memory.
fn added(
    rt: &impl Print,
    shelf: &[u8],
    given: &[u8],
    summary: &[u8],
    memory: &mut [u8],
) -> io::Result<()> {
    let e = summary.len().min(memory.len());
    input::fill(summary, &mut memory[0..e]);
    let answer = say::answer(shelf::add(shelf, given, &mut memory[0..e]));
    say::one(rt, b"add", answer)?;
    say::memory(rt, memory, e)
}

// A whole record.
pub(crate) fn add(rt: &impl Print, b: &[u8]) -> io::Result<()> {
    let n = input::two(b, 5) as usize;
    let m = input::two(b, 7) as usize;
    let mut space = intake::room::<SPACE>();
    let e = (input::four(b, 1) as usize).min(SPACE);
    repeat(octets::part(b, 11, n), &mut space);
    added(
        rt,
        octets::part(&space, 0, e),
        octets::part(b, 11 + n, m),
        octets::part(b, 11 + n + m, 65536),
        &mut [0xEEu8; 300],
    )
}

fn summarized(rt: &impl Print, shelf: &[u8], n: usize, memory: &mut [u8]) -> io::Result<()> {
    let e = n.min(memory.len());
    let written = shelf::summarize(shelf, &mut memory[0..e]).map(|()| 256);
    say::counted(rt, b"summarize", written, memory)
}

// A whole record.
pub(crate) fn summarize(rt: &impl Print, b: &[u8]) -> io::Result<()> {
    let mut space = intake::room::<SPACE>();
    let e = (input::four(b, 1) as usize).min(SPACE);
    repeat(octets::part(b, 9, 65536), &mut space);
    summarized(
        rt,
        octets::part(&space, 0, e),
        input::two(b, 5) as usize,
        &mut [0xEEu8; 300],
    )
}

fn made(
    rt: &impl Print,
    level: u8,
    version: u8,
    packet: &[u8],
    n: usize,
    memory: &mut [u8],
) -> io::Result<()> {
    let e = n.min(memory.len());
    let written = shelf::make(level, version, packet, &mut memory[0..e]).map(|()| 256);
    say::counted(rt, b"make", written, memory)
}

// A whole record.
pub(crate) fn make(rt: &impl Print, b: &[u8]) -> io::Result<()> {
    made(
        rt,
        octets::byte(b, 1),
        octets::byte(b, 2),
        octets::part(b, 7, 65536),
        input::two(b, 3) as usize,
        &mut [0xEEu8; 300],
    )
}

fn lined(rt: &impl Print, given: &[u8], n: usize, memory: &mut [u8]) -> io::Result<()> {
    let e = n.min(memory.len());
    let written = shelf::line(given, &mut memory[0..e]);
    say::counted(rt, b"line", written, memory)
}

// A whole record.
pub(crate) fn line(rt: &impl Print, b: &[u8]) -> io::Result<()> {
    lined(
        rt,
        octets::part(b, 5, 65536),
        input::two(b, 1) as usize,
        &mut [0xEEu8; 600],
    )
}
