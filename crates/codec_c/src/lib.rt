// What `codec` does, for programs in C: each function under its own name, and nothing else.
#![tactic(auto)]

ghost use Rattle.std.specs.Prelude.{◌≡◌, length};
ghost use Rattle.packet.specs.Reading.{opened};
ghost use Rattle.packet.specs.Writing.{written, packet_output};
ghost use Rattle.reader.specs.Taking.{unless_refused};
ghost use Rattle.codec.specs.Codec.{told_as, fields_from, written_as};

use codec::{PlainFields, PlainTold, PlainWritten};

// What a packet says, as `reader::read` does; its codes, its entries and the digits beside its content in what is lent,
// which stays as it was where the packet is refused.
#[unsafe(no_mangle)]
pub extern "C" fn codec_read(
    packet: &[u8],
    codes: &mut [u8; 322],
    entries: &mut [u8; 272],
    digits: &mut [u8; 35],
) -> PlainTold
    ensures told { result ≡ told_as (opened packet.now) }
    ensures coded { codes.new ≡ unless_refused (opened packet.now) (opened packet.now).codes codes.old }
    ensures listed { entries.new ≡ unless_refused (opened packet.now) (opened packet.now).entries entries.old }
    ensures beside { digits.new ≡ unless_refused (opened packet.now) (opened packet.now).fields.digits digits.old }
{
    codec::codec_read(packet, codes, entries, digits)
}

// Writes a packet, as `writer::write` does.
#[unsafe(no_mangle)]
pub extern "C" fn codec_write(
    fields: PlainFields,
    digits: &[u8; 35],
    codes: &[u8],
    body: &[u8],
    out: &mut [u8],
) -> PlainWritten
    ensures answer { result ≡ written_as (written (fields_from fields digits.now) codes.now body.now (length out.old)) }
    ensures output { out.new ≡ packet_output (fields_from fields digits.now) codes.now body.now out.old }
{
    codec::codec_write(fields, digits, codes, body, out)
}
