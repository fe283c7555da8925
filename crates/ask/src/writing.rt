// W and the fields of a packet: what the writer makes of them.
// Behind the letter stand, by the index of their first byte: 1 type; 2 count of codes; 4 content, 1 to 9 as below, raw for any other;
// 5 a number of two bytes and 7 five of one byte, those of the content; 12 its 35 digits; 47 time; 51 certificate; 63 signature;
// 127 the length of the memory lent, at most 300; 129 the length of the codes; 131 that of the body; 133 the codes, and behind them the body.
use crate::{input, say};
use packet::{Content, Fields};
use std::io;

// The content that a record names. A content uses of its numbers as many as it has.
pub(crate) fn content(b: &[u8]) -> Content {
    let long = input::two(b, 5);
    let first = octets::byte(b, 7);
    let second = octets::byte(b, 8);
    match octets::byte(b, 4) {
        1 => Content::Frequencies {
            count: long as usize,
        },
        2 => Content::Address {
            length: long as usize,
        },
        3 => Content::Keep {
            on: first,
            period: long,
        },
        4 => Content::Clock {
            year: long,
            month: first,
            day: second,
            hour: octets::byte(b, 9),
            minute: octets::byte(b, 10),
            second: octets::byte(b, 11),
        },
        5 => Content::Reset { change: first },
        6 => Content::Factory,
        7 => Content::Drill { action: first },
        8 => Content::Text {
            kind: first,
            set: second,
            length: long as usize,
        },
        9 => Content::Hold { serial: first },
        _ => Content::Raw,
    }
}

fn fields(b: &[u8]) -> Fields {
    let mut digits = [0u8; 35];
    let mut certificate = [0u8; 12];
    let mut signature = [0u8; 64];
    input::fill(octets::part(b, 12, 35), &mut digits);
    input::fill(octets::part(b, 51, 12), &mut certificate);
    input::fill(octets::part(b, 63, 64), &mut signature);
    let c = content(b);
    Fields {
        typenumber: octets::byte(b, 1),
        codes: input::two(b, 2) as usize,
        content: c,
        digits,
        time: input::four(b, 47),
        certificate,
        signature,
    }
}

// Writes into the first n bytes of memory, or into all of it.
fn written(
    rt: &impl Print,
    f: Fields,
    codes: &[u8],
    body: &[u8],
    n: usize,
    memory: &mut [u8],
) -> io::Result<()> {
    let e = n.min(memory.len());
    let w = writer::write(f, codes, body, &mut memory[0..e]);
    say::counted(rt, b"write", w, memory)
}

// A whole record.
pub(crate) fn record(rt: &impl Print, b: &[u8]) -> io::Result<()> {
    let n = input::two(b, 129) as usize;
    written(
        rt,
        fields(b),
        octets::part(b, 133, n),
        octets::part(b, 133 + n, 65536),
        input::two(b, 127) as usize,
        &mut [0xEEu8; 300],
    )
}
