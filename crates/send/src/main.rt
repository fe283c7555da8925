// Tells the story of the record on standard input and puts its packets on air, versions rising modulo 32: air bytes on standard output, and
// behind them three bytes, the answer, the number of parts and the size of the last packet. Where the story is refused there is no air byte.
// The record, by the index of its first bytes: 0 level; 1 version; 2 kind of text; 3 count of codes; 4 the 35 digits of the first part's
// number; 39 time, high byte first; 43 certificate; 55 signature; 119 the codes, 23 digits each; the text to the end.
#![tactic(auto)]

ghost use Rattle.std.specs.Prelude.{◌≤◌};

use std::io;
use story::Story;

fn codes_length(b: &[u8]) -> usize
    ensures { result ≤ 6000 }
{
    octets::byte(b, 3) as usize * 23
}

fn story(b: &[u8]) -> Story {
    let mut digits = [0u8; 35];
    let mut certificate = [0u8; 12];
    let mut signature = [0u8; 64];
    format::fields(b, 32, 35, 8, &mut digits, 0);
    format::fields(b, 344, 12, 8, &mut certificate, 0);
    format::fields(b, 440, 64, 8, &mut signature, 0);
    Story {
        kind: octets::byte(b, 2),
        digits,
        codes: octets::byte(b, 3) as usize,
        time: format::field(b, 312, 32),
        certificate,
        signature,
    }
}

// The bytes of so many frames, at most as many as the longest packet makes.
fn bytes_of(frames: usize) -> usize {
    if frames < 63 { 13 * frames } else { 819 }
}

// Puts a packet on air and writes its bytes; none where it is refused. The answer.
fn put(rt: &impl Print, packet: &[u8], level: u8, version: u8) -> io::Result<u8> {
    let mut out = [0u8; 819];
    match air::on_air(packet, level, version, &mut out) {
        Ok(frames) => {
            rt.write_all(octets::part(&out, 0, bytes_of(frames)))?;
            Ok(0)
        }
        Err(refusal) => Ok(refusal.number()),
    }
}

fn say(rt: &impl Print, answer: u8, parts: usize, last: usize) -> io::Result<()> {
    rt.write_all(&[answer, (parts % 256) as u8, (last % 256) as u8])
}

// Puts packets on air that stand back to back. A refusal comes with the first of them, since it is the level's or the version's.
fn put_all(rt: &impl Print, packets: &[u8], parts: usize, level: u8, first: u8) -> io::Result<()> {
    let mut version = first;
    let mut at: usize = 0;
    let mut last: usize = 0;
    for _ in 0..parts {
        last = size::packet_size(octets::part(packets, at, 2));
        let answer = put(rt, octets::part(packets, at, last), level, version)?;
        if answer != 0 {
            return say(rt, answer, 0, 0);
        }
        version = (version % 32 + 1) % 32;
        at = at.wrapping_add(last);
    }
    say(rt, 0, parts, last)
}

fn send(rt: &impl Print, b: &[u8]) -> io::Result<()> {
    let mut packets = [0u8; 2250];
    let n = codes_length(b);
    match tell::tell(
        story(b),
        octets::part(b, 119, n),
        octets::part(b, 119 + n, 65536),
        &mut packets,
    ) {
        Ok(told) => put_all(
            rt,
            octets::part(&packets, 0, told.length),
            told.parts,
            octets::byte(b, 0),
            octets::byte(b, 1),
        ),
        Err(refusal) => say(rt, refusal.number(), 0, 0),
    }
}

// No text that can be told is longer than what is read at once.
fn main(rt: HostRuntime) -> io::Result<()> {
    let mut record = [0u8; 65536];
    let n = intake::fill(&mut rt.reader(), &mut record)?;
    send(&rt, octets::part(&record, 0, n))
}
