// The packet reader and the packet writer for programs in C: the same functions, the content in a record as C lays it out.
#![tactic(auto)]

ghost use Rattle.std.specs.Prelude.{◌≡◌, length};
ghost use Rattle.packet.specs.Reading.{refused_as, opened};
ghost use Rattle.packet.specs.Writing.{written, packet_output};
ghost use Rattle.reader.specs.Taking.{told_of, accepted_as, unless_refused};
ghost use Rattle.codec.specs.Codec.{content_told, plain, told_as, content_from, fields_from, written_as};

use packet::{Content, Fields};
use reader::Told;

// A content: the type that names its kind, 4 for a raw one; its numbers in the order of its lines, then zeros; its count.
#[repr(C)]
#[derive(Clone, Copy)]
pub struct PlainContent {
    pub kind: u8,
    pub numbers: [u32; 6],
    pub count: usize,
}

// Fields of a packet but for the digits beside its content, which are lent.
#[repr(C)]
#[derive(Clone, Copy)]
pub struct PlainFields {
    pub typenumber: u8,
    pub codes: usize,
    pub content: PlainContent,
    pub time: u32,
    pub certificate: [u8; 12],
    pub signature: [u8; 64],
}

// The reader's answer, and the fields beside it: a number and a record, since C has no Result.
#[repr(C)]
#[derive(Clone, Copy)]
pub struct PlainTold {
    pub answer: u8,
    pub fields: PlainFields,
}

// The writer's answer, and how many bytes it wrote, likewise.
#[repr(C)]
#[derive(Clone, Copy)]
pub struct PlainWritten {
    pub answer: u8,
    pub length: usize,
}

fn content_told(c: Content) -> PlainContent
    ensures { result ≡ content_told c }
{
    let l = packet::lay(c);
    let numbers = l.numbers;
    PlainContent {
        kind: packet::type_of(l.kind),
        numbers,
        count: l.count,
    }
}

fn accepted(t: Told) -> PlainTold
    ensures { result ≡ plain (accepted_as t) }
{
    let certificate = t.certificate;
    let signature = t.signature;
    PlainTold {
        answer: 0,
        fields: PlainFields {
            typenumber: t.typenumber,
            codes: t.codes,
            content: content_told(t.content),
            time: t.time,
            certificate,
            signature,
        },
    }
}

// Beside a refusal all is zero, the content raw.
fn refused(answer: u8) -> PlainTold
    ensures { result ≡ plain (told_of (refused_as answer)) }
{
    PlainTold {
        answer,
        fields: PlainFields {
            typenumber: 0,
            codes: 0,
            content: content_told(Content::Raw),
            time: 0,
            certificate: [0; 12],
            signature: [0; 64],
        },
    }
}

// What a packet says, as `reader::read` does; its codes, its entries and the digits beside its content in what is lent,
// which stays as it was where the packet is refused.
pub fn codec_read(
    packet: &[u8],
    codes: &mut [u8; 322],
    entries: &mut [u8; 272],
    digits: &mut [u8; 35],
) -> PlainTold
    ensures told { result ≡ told_as (opened packet.now) }
    ensures coded { codes.new ≡ unless_refused (opened packet.now) (opened packet.now).codes codes.old }
    ensures listed { entries.new ≡ unless_refused (opened packet.now) (opened packet.now).entries entries.old }
    ensures beside { digits.new ≡ unless_refused (opened packet.now) (opened packet.now).fields.digits digits.old }
{
    match reader::read_to(packet, codes, entries, digits) {
        Ok(t) => accepted(t),
        Err(refusal) => refused(refusal.number()),
    }
}

// Any other kind is a raw content, and a number that is too large keeps its low bytes.
fn content_from(c: PlainContent) -> Content
    ensures { result ≡ content_from c }
{
    packet::named(packet::kind_of(c.kind), &c.numbers, c.count)
}

fn fields_from(f: PlainFields, digits: [u8; 35]) -> Fields
    ensures { result ≡ fields_from f digits }
{
    let certificate = f.certificate;
    let signature = f.signature;
    Fields {
        typenumber: f.typenumber,
        codes: f.codes,
        content: content_from(f.content),
        digits,
        time: f.time,
        certificate,
        signature,
    }
}

// Writes a packet, as `writer::write` does.
pub fn codec_write(
    fields: PlainFields,
    digits: &[u8; 35],
    codes: &[u8],
    body: &[u8],
    out: &mut [u8],
) -> PlainWritten
    ensures answer { result ≡ written_as (written (fields_from fields digits.now) codes.now body.now (length out.old)) }
    ensures output { out.new ≡ packet_output (fields_from fields digits.now) codes.now body.now out.old }
{
    let f = fields_from(fields, *digits);
    match writer::write(f, codes, body, out) {
        Ok(length) => PlainWritten { answer: 0, length },
        Err(refusal) => PlainWritten {
            answer: refusal.number(),
            length: 0,
        },
    }
}
