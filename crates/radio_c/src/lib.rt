// What `radio` does, for programs in C: each function under its own name, and nothing else.
#![tactic(auto)]

ghost use Rattle.std.specs.Prelude.{◌≡◌};
ghost use Rattle.crc.specs.Crc16.{crc16};
ghost use Rattle.air.specs.OnAir.{aired_of, aired_into};
ghost use Rattle.receiver.specs.Receive.{fresh_receiver, received_of, received_into, counts_into};
ghost use Rattle.block.specs.Letters.{letter_of};
ghost use Rattle.samples.specs.Symbol.{decided};
ghost use Rattle.radio.specs.Radio.{sent_as, letter_number, decided_as};

use radio::{DecidedSymbol, Sent};
use receiver::{Received, Receiver};
use samples::Pair;

// A receiver that has heard nothing.
#[unsafe(no_mangle)]
pub extern "C" fn radio_fresh() -> Receiver
    ensures { result ≡ fresh_receiver }
{
    radio::radio_fresh()
}

// Takes a delivery.
#[unsafe(no_mangle)]
pub extern "C" fn radio_receive(
    receiver: Receiver,
    delivery: &[u8],
    out: &mut [u8],
    counts: &mut [u8],
) -> Received
    ensures answer { result ≡ received_of receiver delivery.now out.old counts.old }
    ensures out { out.new ≡ received_into receiver delivery.now out.old counts.old }
    ensures counts { counts.new ≡ counts_into receiver delivery.now out.old counts.old }
{
    radio::radio_receive(receiver, delivery, out, counts)
}

// The check of a packet's bytes.
#[unsafe(no_mangle)]
pub extern "C" fn radio_packet_check(bytes: &[u8]) -> u16
    ensures { result ≡ crc16 bytes.now }
{
    radio::radio_packet_check(bytes)
}

// A packet on air, as `on_air` writes it.
#[unsafe(no_mangle)]
pub extern "C" fn radio_on_air(packet: &[u8], level: u8, version: u8, out: &mut [u8]) -> Sent
    ensures answer { result ≡ sent_as (aired_of packet.now level version out.old) }
    ensures out { out.new ≡ aired_into packet.now level version out.old }
{
    radio::radio_on_air(packet, level, version, out)
}

// The letter that 26 bits carry: 0 for none, 1 to 5 for A, B, C, C' and D.
#[unsafe(no_mangle)]
pub extern "C" fn radio_letter(bits: u32) -> u32
    ensures { result ≡ letter_number (letter_of bits) }
{
    radio::radio_letter(bits)
}

// Decides a symbol of 32 numbers, in phase and quadrature in turn.
#[unsafe(no_mangle)]
pub extern "C" fn radio_decide(state: Pair, symbol: &[f64]) -> DecidedSymbol
    ensures { result ≡ decided_as (decided state symbol.now) }
{
    radio::radio_decide(state, symbol)
}
