// The receiver, the block check, the packet check, the on-air writer and the deciding of symbols for programs in C: the same functions, and the
// receiver's own record.
#![tactic(auto)]

ghost use Rattle.std.specs.Prelude.{◌≡◌};
ghost use Rattle.crc.specs.Crc16.{crc16};
ghost use Rattle.air.specs.OnAir.{aired_of, aired_into};
ghost use Rattle.receiver.specs.Receive.{fresh_receiver, received_of, received_into, counts_into};
ghost use Rattle.block.specs.Letters.{letter_of};
ghost use Rattle.samples.specs.Symbol.{decided};
ghost use Rattle.samples.specs.Unrounded.{carried};
ghost use Rattle.radio.specs.Radio.{sent_as, letter_number, verdict_number, decided_as};

use block::AnyLetter;
use receiver::{Received, Receiver};
use samples::{Pair, Verdict};

// The on-air writer's answer, and how many frames were written: a number and a count, since C has no Result.
#[repr(C)]
#[derive(Clone, Copy)]
pub struct Sent {
    pub answer: u8,
    pub frames: usize,
}

// The answer to a symbol; its bit, or 2 where it is undecided; the product that decided it; the state behind it: numbers, since C has no Result.
#[repr(C)]
#[derive(Clone, Copy)]
pub struct DecidedSymbol {
    pub answer: u8,
    pub verdict: u8,
    pub product: f64,
    pub state: Pair,
}

// A receiver that has heard nothing.
pub fn radio_fresh() -> Receiver
    ensures { result ≡ fresh_receiver }
{
    receiver::fresh()
}

// Takes a delivery.
pub fn radio_receive(
    receiver: Receiver,
    delivery: &[u8],
    out: &mut [u8],
    counts: &mut [u8],
) -> Received
    ensures answer { result ≡ received_of receiver delivery.now out.old counts.old }
    ensures out { out.new ≡ received_into receiver delivery.now out.old counts.old }
    ensures counts { counts.new ≡ counts_into receiver delivery.now out.old counts.old }
{
    receiver::receive(receiver, delivery, out, counts)
}

// The check of a packet's bytes.
pub fn radio_packet_check(bytes: &[u8]) -> u16
    ensures { result ≡ crc16 bytes.now }
{
    crc::packet_check(bytes)
}

// A packet on air, as `on_air` writes it.
pub fn radio_on_air(packet: &[u8], level: u8, version: u8, out: &mut [u8]) -> Sent
    ensures answer { result ≡ sent_as (aired_of packet.now level version out.old) }
    ensures out { out.new ≡ aired_into packet.now level version out.old }
{
    match air::on_air(packet, level, version, out) {
        Ok(frames) => Sent { answer: 0, frames },
        Err(refusal) => Sent {
            answer: refusal.number(),
            frames: 0,
        },
    }
}

fn letter_number(letter: Option<AnyLetter>) -> u32
    ensures { result ≡ letter_number letter }
{
    match letter {
        None => 0,
        Some(AnyLetter::A) => 1,
        Some(AnyLetter::B) => 2,
        Some(AnyLetter::C) => 3,
        Some(AnyLetter::CPrime) => 4,
        Some(AnyLetter::D) => 5,
    }
}

// The letter that 26 bits carry: 0 for none, 1 to 5 for A, B, C, C' and D.
pub fn radio_letter(bits: u32) -> u32
    ensures { result ≡ letter_number (letter_of bits) }
{
    letter_number(block::letter_of(bits))
}

fn verdict_number(verdict: Verdict) -> u8
    ensures { result ≡ verdict_number verdict }
{
    match verdict {
        Verdict::Zero(_) => 0,
        Verdict::One(_) => 1,
        Verdict::Undecided(_) => 2,
    }
}

fn product_of(verdict: Verdict) -> f64
    ensures { result ≡ carried verdict }
{
    match verdict {
        Verdict::Zero(product) | Verdict::One(product) | Verdict::Undecided(product) => product,
    }
}

// Decides a symbol of 32 numbers, in phase and quadrature in turn.
pub fn radio_decide(state: Pair, symbol: &[f64]) -> DecidedSymbol
    ensures { result ≡ decided_as (decided state symbol.now) }
{
    match samples::decide(state, symbol) {
        Ok(decided) => DecidedSymbol {
            answer: 0,
            verdict: verdict_number(decided.verdict),
            product: product_of(decided.verdict),
            state: decided.state,
        },
        Err(refusal) => DecidedSymbol {
            answer: refusal.number(),
            verdict: 2,
            product: 0.0,
            state,
        },
    }
}
