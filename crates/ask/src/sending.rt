// A, level, version, the length of the memory lent (two bytes, at most 832), the length of a packet (two bytes), the packet: what the
// on-air writer makes of it. K, a length (two bytes), so many bytes: their packet check.
ghost use Rattle.std.specs.Prelude.{◌≤◌};

use crate::{input, say};
use std::io;

// The bytes of so many frames, at most all that are lent.
fn bytes_of(frames: usize) -> usize
    ensures { result ≤ 832 }
{
    if frames < 64 { 13 * frames } else { 832 }
}

// Puts a packet on air in the first n bytes of memory, or in all of it.
fn sent(
    rt: &impl Print,
    packet: &[u8],
    level: u8,
    version: u8,
    n: usize,
    memory: &mut [u8],
) -> io::Result<()> {
    let e = n.min(memory.len());
    let (answer, frames) = say::told(air::on_air(packet, level, version, &mut memory[..e]));
    say::one(rt, b"air", answer.into())?;
    say::number(rt, frames as u64)?;
    say::memory(rt, memory, bytes_of(frames))
}

// A whole record.
pub(crate) fn record(rt: &impl Print, b: &[u8]) -> io::Result<()> {
    sent(
        rt,
        octets::part(b, 7, 65536),
        octets::byte(b, 1),
        octets::byte(b, 2),
        input::two(b, 3) as usize,
        &mut [0xEEu8; 832],
    )
}

pub(crate) fn check(rt: &impl Print, b: &[u8]) -> io::Result<()> {
    let word = crc::packet_check(octets::part(b, 3, 65536));
    say::text(rt, b"check")?;
    say::hex(rt, &[(word / 256) as u8, (word % 256) as u8])?;
    say::text(rt, b"\n")
}
