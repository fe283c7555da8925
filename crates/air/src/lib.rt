// The on-air writer: a packet as frames, each frame as 13 bytes on air.
#![tactic(auto)]

ghost use Rattle.std.specs.Prelude.{◌≡◌, ◌+◌, ◌*◌, ◌<◌, ◌≤◌, ◌^◌, length};
ghost use Rattle.std.proofs.lemmas.List.Edits.{sets};
ghost use Rattle.block.specs.Block.{offset_of, check_word};
ghost use Rattle.crc.specs.Crc16.{crc16};
ghost use Rattle.frame.specs.Heading.{Fits};
ghost use Rattle.frame.specs.OnAir.{air_bytes, stream_of};
ghost use Rattle.air.specs.Packed.{packed, first_word, WordOf, Room, Sendable};
ghost use Rattle.air.specs.OnAir.{total_for, carried, frame_of, frames_of, sized, told, aired_of, aired_into};

use block::Letter;
use frame::{Heading, Number, Total};
use refusal::Refusal;

// The total of a packet's frames: the least N with 4N no less than P + 2.
fn total_for(size: usize) -> Total
    requires { size ≤ 250 }
    ensures { result ≡ total_for size }
{
    Total(((size + 5) / 4) as u8)
}

// Whether the packet has 2 to 250 bytes and says so itself.
pub fn right_size(packet: &[u8]) -> bool
    ensures { result ≡ sized packet.now }
{
    if packet.len() < 2 || packet.len() > 250 {
        return false;
    }
    packet.len() == size::packet_size(packet)
}

// Byte i of what the frames carry: the packet, its check, then fill.
fn carried_byte(packet: &[u8], check: u16, i: usize) -> u8
    requires { (check ≡ crc16 packet.now) × (length packet.now ≤ 250) }
    ensures { result ≡ carried packet.now i }
{
    let p = packet.len();
    if i < p {
        packet[i]
    } else if i == p {
        (check / 256) as u8
    } else if i == p + 1 {
        (check % 256) as u8
    } else {
        0xFF
    }
}

// Two of those bytes as an information word.
fn carried_word(packet: &[u8], check: u16, i: usize) -> u16
    requires { (check ≡ crc16 packet.now) × (length packet.now ≤ 250) × (i < 1000) }
    ensures { WordOf (carried packet.now i) (carried packet.now (i + 1)) result }
{
    u16::from_be_bytes([
        carried_byte(packet, check, i),
        carried_byte(packet, check, i + 1),
    ])
}

// A block's 26 bits.
fn block_of(word: u16, letter: Letter) -> u32
    ensures { result ≡ word * 2 ^ 10 + check_word word (offset_of letter) }
{
    let check = block::check_word(word, block::offset_of(letter));
    (word as u32) * 1024 + check as u32
}

// Writes four blocks of 26 bits, one behind the other, as 13 bytes.
fn put_blocks(out: &mut [u8], a: u32, b: u32, c: u32, d: u32)
    requires { 13 ≤ length out.old }
    ensures { out.new ≡ sets out.old 0 (packed a b c d) }
{
    out[0] = ((a >> 18) % 256) as u8;
    out[1] = ((a >> 10) % 256) as u8;
    out[2] = ((a >> 2) % 256) as u8;
    out[3] = (a % 4 * 64 + (b >> 20) % 64) as u8;
    out[4] = ((b >> 12) % 256) as u8;
    out[5] = ((b >> 4) % 256) as u8;
    out[6] = (b % 16 * 16 + (c >> 22) % 16) as u8;
    out[7] = ((c >> 14) % 256) as u8;
    out[8] = ((c >> 6) % 256) as u8;
    out[9] = (c % 64 * 4 + (d >> 24) % 4) as u8;
    out[10] = ((d >> 16) % 256) as u8;
    out[11] = ((d >> 8) % 256) as u8;
    out[12] = (d % 256) as u8;
}

// Block 1's word: level, version, total and the number's high bits.
#[tactic(auto, unfolding(crate::specs::Packed::first_word))]
fn first_word(heading: Heading) -> u16
    requires { Fits heading }
    ensures { result ≡ first_word heading }
{
    let total = heading.total.0;
    let number = heading.number.0;
    let high = heading.level * 32 + heading.version;
    let low = total * 4 + number / 16;
    u16::from_be_bytes([high, low])
}

// Writes the frame of a heading to the part of the output that is lent for it: the heading's words, then two of what the packet carries.
fn put_frame(out: &mut [u8], packet: &[u8], check: u16, heading: Heading)
    requires { Room out.old packet.now check × Fits heading }
    ensures { out.new ≡ sets out.old 0 (air_bytes (frame_of packet.now heading)) }
{
    let number = heading.number.0;
    let at = 4 * number as usize;
    let a = block_of(first_word(heading), Letter::A);
    let b = block_of(0xB000 + (number % 16) as u16, Letter::B);
    let c = block_of(carried_word(packet, check, at), Letter::C);
    let d = block_of(carried_word(packet, check, at + 2), Letter::D);
    put_blocks(out, a, b, c, d);
}

// Writes every frame of the packet, each to the output's part from 13 times its number on.
fn put_frames(packet: &[u8], level: u8, version: u8, out: &mut [u8])
    requires { Sendable packet.now level version out.old }
    ensures { out.new ≡ sets out.old 0 (stream_of (frames_of packet.now level version)) }
{
    let total = total_for(packet.len());
    let check = crc::packet_check(packet);
    for number in 0..total.0 {
        let heading = Heading {
            level,
            version,
            total,
            number: Number(number),
        };
        let from = 13 * number as usize;
        put_frame(&mut out[from..], packet, check, heading);
    }
}

// The packet on air as frames of the level and version, and the count of them.
pub fn on_air(packet: &[u8], level: u8, version: u8, out: &mut [u8]) -> Result<usize, Refusal>
    ensures answer { told result ≡ aired_of packet.now level version out.old }
    ensures output { out.new ≡ aired_into packet.now level version out.old }
{
    if !right_size(packet) {
        return Err(Refusal::PacketSize);
    }
    if level == 0 || level >= 7 {
        return Err(Refusal::Level);
    }
    if version > 31 {
        return Err(Refusal::Range);
    }
    let frames = total_for(packet.len()).0 as usize;
    if out.len() < 13 * frames {
        return Err(Refusal::Room);
    }
    put_frames(packet, level, version, out);
    Ok(frames)
}
