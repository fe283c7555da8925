// T and a story: what telling makes of it. Behind the letter stand, by the index of their first byte: 1 kind; 2 count of codes; 4 the 35
// digits of the first part's number; 39 time; 43 certificate; 55 signature; 119 the length of the memory lent, at most 2300; 121 the length of
// the codes; 123 that of the text; 125 the codes, and behind them the text. J, the length of the memory lent (two bytes, at most 1400), the
// length of the packets (two bytes), the packets: what joining makes of them.
use crate::{input, say};
use std::io;
use story::Story;

fn story(b: &[u8]) -> Story {
    let mut digits = [0u8; 35];
    let mut certificate = [0u8; 12];
    let mut signature = [0u8; 64];
    input::fill(octets::part(b, 4, 35), &mut digits);
    input::fill(octets::part(b, 43, 12), &mut certificate);
    input::fill(octets::part(b, 55, 64), &mut signature);
    Story {
        kind: octets::byte(b, 1),
        digits,
        codes: input::two(b, 2) as usize,
        time: input::four(b, 39),
        certificate,
        signature,
    }
}

// Tells into the first n bytes of memory, or into all of it.
fn told(
    rt: &impl Print,
    s: Story,
    codes: &[u8],
    text: &[u8],
    n: usize,
    memory: &mut [u8],
) -> io::Result<()> {
    let e = n.min(memory.len());
    let (answer, parts, length) = match tell::tell(s, codes, text, &mut memory[0..e]) {
        Ok(t) => (0, t.parts, t.length),
        Err(refusal) => (refusal.number(), 0, 0),
    };
    say::one(rt, b"tell", answer.into())?;
    say::number(rt, parts as u64)?;
    say::memory(rt, memory, length)
}

// A whole record.
pub(crate) fn tell(rt: &impl Print, b: &[u8]) -> io::Result<()> {
    let n = input::two(b, 121) as usize;
    told(
        rt,
        story(b),
        octets::part(b, 125, n),
        octets::part(b, 125 + n, 65536),
        input::two(b, 119) as usize,
        &mut [0xEEu8; 2300],
    )
}

fn joined(rt: &impl Print, packets: &[u8], n: usize, memory: &mut [u8]) -> io::Result<()> {
    let e = n.min(memory.len());
    let j = join::join(packets, &mut memory[0..e]);
    say::counted(rt, b"join", j, memory)
}

// A whole record.
pub(crate) fn join(rt: &impl Print, b: &[u8]) -> io::Result<()> {
    joined(
        rt,
        octets::part(b, 5, 65536),
        input::two(b, 1) as usize,
        &mut [0xEEu8; 1400],
    )
}
