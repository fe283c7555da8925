// Joins a story: one to nine packets, lent back to back in any order, as one text.
#![tactic(auto)]

mod found;
mod lent;

ghost use Rattle.std.specs.Prelude.{◌≡◌, length};
ghost use Rattle.story.specs.Joining.{is_part, joined_as, joined, join_output};

use refusal::Refusal;

// Whether the reader takes it as a text, and that in set 0: the set stands 4 bits into the content.
pub fn is_part(packet: &[u8]) -> bool
    ensures { result ≡ is_part packet.now }
{
    if reader::text_answer(packet).is_err() {
        return false;
    }
    let n = format::field(packet, 16, 8) as usize;
    format::field(packet, 28 + 96 * n, 4) == 0
}

// The text of the packets' parts from the output's first byte on, and its length: 33 or 10 where it is refused, and then nothing is written.
pub fn join(packets: &[u8], out: &mut [u8]) -> Result<usize, Refusal>
    ensures answer { joined_as result ≡ joined packets.now (length out.old) }
    ensures output { out.new ≡ join_output packets.now out.old }
{
    let n = lent::count(packets);
    if n == 0 {
        return Err(Refusal::Story);
    }
    if n > 9 {
        return Err(Refusal::Story);
    }
    if !lent::all_parts(packets) {
        return Err(Refusal::Story);
    }
    let at = found::places(packets, n);
    if !found::all_found(packets, at, n) {
        return Err(Refusal::Story);
    }
    if !found::in_step(packets, at, n) {
        return Err(Refusal::Story);
    }
    let m = found::text_length(packets, at, n);
    if out.len() < m {
        return Err(Refusal::Room);
    }
    found::put_texts(packets, at, n, out);
    Ok(m)
}
