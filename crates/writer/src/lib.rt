// The packet writer: fields, codes and body as the bytes of a packet.
#![tactic(auto)]

mod columns;
mod content;
mod fits;
mod packets;
mod puts;
mod refusals;

ghost use Rattle.std.specs.Prelude.{◌≡◌, length};
ghost use Rattle.packet.specs.Writing.{told, written, packet_output};

use packet::Fields;
use refusal::Refusal;

// Writes the packet of the fields at the output's start and answers its length: 23 digits a code in `codes`, and in `body`
// what the content's count counts. 23, 26, 25, 27, 20 or 10 where it is refused, and then nothing is written.
pub fn write(fields: Fields, codes: &[u8], body: &[u8], out: &mut [u8]) -> Result<usize, Refusal>
    ensures answer { told result ≡ written fields codes.now body.now (length out.old) }
    ensures output { out.new ≡ packet_output fields codes.now body.now out.old }
{
    let size = refusals::judged(fields, codes, body, out.len())?;
    packets::put_packet(fields, codes, body, size, out);
    Ok(size)
}
