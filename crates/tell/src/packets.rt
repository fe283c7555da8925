// The packets of a story's parts.
ghost use Rattle.std.specs.Prelude.{◌≡◌, ◌+◌, ◌<◌, ◌≤◌, length};
ghost use Rattle.std.proofs.lemmas.List.Edits.{sets};
ghost use Rattle.refusal.specs.Refusal.{answer_of};
ghost use Rattle.packet.specs.Writing.{written_answer};
ghost use Rattle.story.specs.Telling.{head_of, number_after, fields_with, part_packet, bytes_of};
ghost use Rattle.tell.specs.Steps.{Sendable, AllSendable};

use crate::characters;
use packet::{Content, Fields};
use refusal::Refusal;
use story::Story;

// How a text is parted: into how many parts, how many bytes of it have room in one, and how many more a packet has.
#[derive(Clone, Copy)]
pub(crate) struct Parts {
    pub(crate) count: usize,
    pub(crate) room: usize,
    pub(crate) each: usize,
}

// The message number k after.
fn number_after(digits: [u8; 35], k: usize) -> [u8; 35]
    requires { k < 9 }
    ensures { result ≡ number_after digits k }
{
    let x = story::last_four(&digits) as usize + k;
    story::with_last_four(digits, x)
}

// The fields of a part whose body has t bytes.
fn fields_with(story: Story, digits: [u8; 35], t: usize) -> Fields
    ensures { result ≡ fields_with story digits t }
{
    let certificate = story.certificate;
    let signature = story.signature;
    Fields {
        typenumber: 15,
        codes: story.codes,
        content: Content::Text {
            kind: story.kind,
            set: 0,
            length: t,
        },
        digits,
        time: story.time,
        certificate,
        signature,
    }
}

// What the packet writer answers for a part with no text, where there is room.
pub(crate) fn own_answer(story: Story, codes: &[u8]) -> Result<(), Refusal>
    ensures { answer_of result ≡ written_answer (fields_with story story.digits 4) codes.now (head_of 1 1) 250 }
{
    let f = fields_with(story, story.digits, 4);
    let mut scratch = [0u8; 250];
    writer::write(f, codes, b"1/1 ", &mut scratch)?;
    Ok(())
}

// The head of a part.
fn put_head(n: usize, k: usize, body: &mut [u8])
    requires { (n ≤ 9) × (k < 9) × (4 ≤ length body.old) }
    ensures { body.new ≡ sets body.old 0 (head_of (k + 1) n) }
{
    body[0] = b'1' + k as u8;
    body[1] = b'/';
    body[2] = b'0' + n as u8;
    body[3] = b' ';
}

// The text behind the head.
fn put_text(body: &mut [u8], text: &[u8])
    requires { 4 + length text.now ≤ length body.old }
    ensures { body.new ≡ sets body.old 4 text.now }
{
    let end = 4 + text.len();
    body[4..end].copy_from_slice(text);
}

// The packet of the part with k parts before it.
fn put_part(story: Story, codes: &[u8], n: usize, k: usize, piece: &[u8], out: &mut [u8])
    requires { Sendable story codes.now n k piece.now (length out.old) }
    ensures { out.new ≡ sets out.old 0 (part_packet story codes.now n k piece.now) }
{
    let d = number_after(story.digits, k);
    let t = 4 + piece.len();
    let f = fields_with(story, d, t);
    let mut body = [0u8; 250];
    put_head(n, k, &mut body);
    put_text(&mut body, piece);
    writer::write(f, codes, &body[0..t], out).unwrap();
}

// The packets of all parts.
pub(crate) fn put_all(story: Story, codes: &[u8], text: &[u8], parts: Parts, out: &mut [u8])
    requires { AllSendable story codes.now text.now parts.count parts.room parts.each (length out.old) }
    ensures { out.new ≡ sets out.old 0 (bytes_of story codes.now text.now) }
{
    let mut i: usize = 0;
    let mut p: usize = 0;
    for k in 0..parts.count {
        let e = characters::part_end(text, i, parts.room);
        put_part(story, codes, parts.count, k, &text[i..e], &mut out[p..]);
        p += parts.each + (e - i);
        i = e;
    }
}
