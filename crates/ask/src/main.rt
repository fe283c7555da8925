// Asks the proved functions what records on standard input name, and prints what they give as lines of text, an empty one behind each
// record. A record begins with a letter. P reads a packet, W writes fields, A puts a packet on air, K takes a packet check; T tells a story,
// J joins one; B reads a command of the sister band, G writes one, V makes one of a content; E adds to a shelf, U takes its summary, M makes a
// record of it, L its line; D decides a symbol; R gives a delivery to the receiver, O a frame to the collector, F releases a pair, C copies its
// packet; N begins with a fresh receiver and an empty collector, S and H put a receiver's record and a collector's place as they are given;
// # only names what comes. The modules say what follows a letter. All numbers are given high byte first. The input is as much as is read at
// once, 65536 bytes.
#![tactic(auto)]

mod commanding;
mod deciding;
mod input;
mod keeping;
mod reading;
mod say;
mod sending;
mod shelving;
mod telling;
mod writing;

ghost use Rattle.std.specs.Prelude.{◌≤◌, length};

use std::io;

// How long the record is that begins a list; 0 where none does, or only a part of one.
fn length_of(b: &[u8]) -> usize
    ensures { result ≤ length b.now }
{
    match octets::byte(b, 0) {
        b'P' => input::whole(b, 3, input::two(b, 1) as usize),
        b'W' => input::whole(
            b,
            133,
            input::two(b, 129) as usize + input::two(b, 131) as usize,
        ),
        b'A' => input::whole(b, 7, input::two(b, 5) as usize),
        b'K' => input::whole(b, 3, input::two(b, 1) as usize),
        b'R' => input::whole(b, 6, input::two(b, 4) as usize),
        b'O' => input::whole(b, 3, input::two(b, 1) as usize),
        b'F' => input::whole(b, 3, 0),
        b'C' => input::whole(b, 5, 0),
        b'N' => input::whole(b, 1, 0),
        b'T' => input::whole(
            b,
            125,
            input::two(b, 121) as usize + input::two(b, 123) as usize,
        ),
        b'J' => input::whole(b, 5, input::two(b, 3) as usize),
        b'E' => input::whole(
            b,
            11,
            input::two(b, 5) as usize + input::two(b, 7) as usize + input::two(b, 9) as usize,
        ),
        b'U' => input::whole(b, 9, input::two(b, 7) as usize),
        b'M' => input::whole(b, 7, input::two(b, 5) as usize),
        b'L' => input::whole(b, 5, input::two(b, 3) as usize),
        b'S' => input::whole(b, 19, 0),
        b'H' => input::whole(b, 7, 0),
        b'D' => input::whole(b, 19, input::two(b, 17) as usize),
        b'B' => input::whole(b, 3, input::two(b, 1) as usize),
        b'G' => input::whole(
            b,
            19,
            input::two(b, 15) as usize + input::two(b, 17) as usize,
        ),
        b'V' => input::whole(b, 47, 0),
        b'#' => input::whole(b, 2, octets::byte(b, 1) as usize),
        _ => 0,
    }
}

// The records that ask once and leave nothing; a word where the state is set, and a name.
fn asked(rt: &impl Print, b: &[u8]) -> io::Result<()> {
    match octets::byte(b, 0) {
        b'P' => reading::record(rt, b),
        b'W' => writing::record(rt, b),
        b'A' => sending::record(rt, b),
        b'K' => sending::check(rt, b),
        b'T' => telling::tell(rt, b),
        b'J' => telling::join(rt, b),
        b'E' => shelving::add(rt, b),
        b'U' => shelving::summarize(rt, b),
        b'M' => shelving::make(rt, b),
        b'L' => shelving::line(rt, b),
        b'D' => deciding::record(rt, b),
        b'B' => commanding::read(rt, b),
        b'G' => commanding::write(rt, b),
        b'V' => commanding::carry(rt, b),
        b'N' => say::text(rt, b"new\n"),
        b'S' | b'H' => say::text(rt, b"set\n"),
        b'#' => say::name(rt, b),
        _ => Ok(()),
    }
}

fn main(rt: HostRuntime) -> io::Result<()> {
    let mut records = [0u8; 65536];
    let n = intake::fill(&mut rt.reader(), &mut records)?;
    let mut left = octets::part(&records, 0, n);
    let mut kept = keeping::begin();
    // a while: a record says its own length, so neither a range nor chunks step so
    while !left.is_empty() {
        let length = length_of(left);
        if length == 0 {
            return say::text(&rt, b"no whole record\n");
        }
        let (record, behind) = left.split_at(length);
        asked(&rt, record)?;
        kept = keeping::after(&rt, kept, record)?;
        say::text(&rt, b"\n")?;
        left = behind;
    }
    Ok(())
}
