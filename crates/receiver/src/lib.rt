// The receiver: deliveries of air bytes in, frames out.
#![tactic(auto)]

mod places;
mod searching;
mod store;
mod window;

ghost use Rattle.std.specs.Prelude.{◌≡◌, ◌+◌, ◌*◌, ◌%◌, ◌^◌, ◌≤◌, ◌<◌, ◌++◌, length, take};
ghost use Rattle.laws.specs.Bits.{bits, bits_of};
ghost use Rattle.receiver.specs.Search.{ahead};
ghost use Rattle.receiver.specs.Receive.{fresh_receiver, record_of, received_of, received_into, counts_into};

use searching::Read;

// A receiver between deliveries: the low `count` bits of `high` and `low` are pending. Nothing above them means anything. They directly follow a
// frame handed out where `follows` is not 0.
#[repr(C)]
#[derive(Clone, Copy)]
pub struct Receiver {
    pub high: u64,
    pub low: u64,
    pub count: u32,
    pub follows: u8,
}

// The answer to a delivery, how many frames were written, and the receiver for the next one: a number beside them, since it is C's record too.
#[repr(C)]
#[derive(Clone, Copy)]
pub struct Received {
    pub answer: u8,
    pub frames: usize,
    pub receiver: Receiver,
}

// A receiver that has heard nothing.
pub fn fresh() -> Receiver
    ensures { result ≡ fresh_receiver }
{
    Receiver {
        high: 0,
        low: 0,
        count: 0,
        follows: 0,
    }
}

fn refused(answer: u8, receiver: Receiver) -> Received
    ensures { result ≡ record { answer = answer; frames = 0; receiver = receiver } }
{
    Received {
        answer,
        frames: 0,
        receiver,
    }
}

// Room for a record's 128 bits, a delivery, and what is read past its end.
fn empty() -> [u8; 536]
    ensures { length result ≡ 536 }
{
    [0; 536]
}

// The record's bits, and right behind them the delivery.
fn fill(buffer: &mut [u8], receiver: Receiver, delivery: &[u8])
    requires { (length buffer.old ≡ 536) × (length delivery.now ≤ 512) }
    ensures { take (128 + length delivery.now * 8) (bits buffer.new) ≡ bits_of 128 (receiver.high * 2 ^ 64 + receiver.low) ++ bits delivery.now }
{
    store::store(buffer, 0, receiver.high);
    // between the two, so that each is one store of eight bytes: the compiler joins no sixteen
    let end = 16 + delivery.len();
    buffer[16..end].copy_from_slice(delivery);
    store::store(buffer, 8, receiver.low);
}

// The record of the bits from a place up to the end of some bytes.
fn rest(b: &[u8], bytes: usize, from: usize, follows: bool) -> Receiver
    requires { (16 ≤ bytes) × (bytes ≤ length b.now) × (length b.now ≤ 536) × (from ≤ bytes * 8) × (bytes * 8 < from + 104) }
    ensures { result ≡ record_of follows (ahead b.now (bytes * 8) from) }
{
    let n = (bytes * 8 - from) as u32;
    let low = window::eight(b, bytes - 8);
    if n < 64 {
        return Receiver {
            high: 0,
            low: low % (1u64 << n),
            count: n,
            follows: searching::one(follows),
        };
    }
    let high = window::eight(b, bytes - 16);
    Receiver {
        high: high % (1u64 << (n - 64)),
        low,
        count: n,
        follows: searching::one(follows),
    }
}

// Reads a delivery from where the receiver stands.
fn hear(receiver: Receiver, delivery: &[u8], out: &mut [u8], counts: &mut [u8]) -> Received
    requires { (receiver.count ≤ 103) × (length delivery.now ≤ 512) × (320 ≤ length out.old) × (40 ≤ length counts.old) }
    ensures answer { result ≡ received_of receiver delivery.now out.old counts.old }
    ensures out { out.new ≡ received_into receiver delivery.now out.old counts.old }
    ensures counts { counts.new ≡ counts_into receiver delivery.now out.old counts.old }
{
    let mut buffer = empty();
    fill(&mut buffer, receiver, delivery);
    let bytes = 16 + delivery.len();
    let read = searching::search(
        &buffer,
        out,
        counts,
        bytes * 8,
        128 - receiver.count as usize,
        receiver.follows != 0,
    );
    let pending = rest(&buffer, bytes, read.from, read.follows);
    Received {
        answer: 0,
        frames: read.frames,
        receiver: pending,
    }
}

// Takes a delivery. Frames go straight to the output, and of each the count of its mended blocks to the second one: with at most 103 bits pending and 512
// bytes there are at most forty.
pub fn receive(receiver: Receiver, delivery: &[u8], out: &mut [u8], counts: &mut [u8]) -> Received
    ensures answer { result ≡ received_of receiver delivery.now out.old counts.old }
    ensures out { out.new ≡ received_into receiver delivery.now out.old counts.old }
    ensures counts { counts.new ≡ counts_into receiver delivery.now out.old counts.old }
{
    if receiver.count > 103 {
        return refused(28, receiver);
    }
    if delivery.len() > 512 {
        return refused(11, receiver);
    }
    if out.len() < 320 {
        return refused(10, receiver);
    }
    if counts.len() < 40 {
        return refused(10, receiver);
    }
    hear(receiver, delivery, out, counts)
}
