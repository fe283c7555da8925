// What the shelf program prints of a record.
ghost use Rattle.std.specs.Prelude.{◌≡◌, ◌+◌, ◌≤◌, length};
ghost use Rattle.std.proofs.lemmas.List.Edits.{sets};
ghost use Rattle.print.specs.Records.{spaced, front, record_written, record_into};

use crate::{decimal_length, put_answer, put_hex};

// The number and a space from a byte on; the byte behind them. The space takes the place of a line's end.
fn put_spaced(n: u8, at: usize, out: &mut [u8]) -> usize
    requires { at + length (spaced n) ≤ length out.old }
    ensures { (result ≡ at + length (spaced n)) × (out.new ≡ sets out.old at (spaced n)) }
{
    let digits = decimal_length(n);
    put_answer(n, &mut out[at..]);
    let end = at + digits;
    out[end] = b' ';
    end + 1
}

// Level, version and size, a space behind each; the byte behind them.
fn put_front(level: u8, version: u8, size: u8, out: &mut [u8]) -> usize
    requires { length (front level version size) ≤ length out.old }
    ensures { (result ≡ length (front level version size)) × (out.new ≡ sets out.old 0 (front level version size)) }
{
    let second = put_spaced(level, 0, out);
    let third = put_spaced(version, second, out);
    put_spaced(size, third, out)
}

// Writes a record's line at the output's start and answers its length. Where the packet has more than 255 bytes or the output is too short,
// it writes nothing and answers 0.
pub fn record_line(level: u8, version: u8, packet: &[u8], out: &mut [u8]) -> usize
    ensures length { result ≡ record_written level version packet.now out.old }
    ensures output { out.new ≡ record_into level version packet.now out.old }
{
    if packet.len() > 255 {
        return 0;
    }
    let size = packet.len() as u8;
    let digits = decimal_length(level) + decimal_length(version) + decimal_length(size);
    if out.len() < digits + 2 * packet.len() + 4 {
        return 0;
    }
    let from = put_front(level, version, size, out);
    put_hex(packet, &mut out[from..]);
    let end = from + 2 * packet.len();
    out[end] = b'\n';
    end + 1
}
