// The packet reader: what a packet says, its text and its bytes.
#![tactic(auto)]

mod columns;
mod parts;
mod refusals;

ghost use Rattle.std.specs.Prelude.{◌≡◌, ◌≤◌, length};
ghost use Rattle.refusal.specs.Refusal.{answer_of};
ghost use Rattle.packet.specs.Reading.{opened_told, opened, read_answer, text_answer, text_of, body_of};
ghost use Rattle.reader.specs.Taking.{Right, Blank, told_of, accepted_as, told, tells, unless_refused, Lined};

use packet::{Content, Fields, Opened};
use parts::Heading;
use refusal::Refusal;

// What a packet says, but for its codes, its entries and the digits beside its content, which go to arrays.
#[derive(Clone, Copy)]
pub struct Told {
    pub typenumber: u8,
    pub codes: usize,
    pub content: Content,
    pub time: u32,
    pub certificate: [u8; 12],
    pub signature: [u8; 64],
}

// What is told of a packet that is due nothing: n codes, this content and this certificate number.
fn accepted(b: &[u8], n: usize, content: Content, certificate: [u8; 12]) -> Told
    requires { (77 ≤ length b.now) × (length b.now ≤ 250) }
    ensures { accepted_as result ≡ tells b.now n content certificate }
{
    Told {
        typenumber: parts::type_in(b),
        codes: n,
        content,
        time: parts::time(b),
        certificate,
        signature: parts::signature(b),
    }
}

// A packet whose sizes are right: what its lines say, and what they are due.
fn lines_told(
    h: Heading,
    b: &[u8],
    codes: &mut [u8],
    entries: &mut [u8],
    digits: &mut [u8],
) -> Result<Told, Refusal>
    requires { Right h.kind h.row h.sizes h.codes h.count b.now × Blank codes.old entries.old digits.old }
    ensures { Lined b.now (told result) codes.new entries.new digits.new }
{
    let first = parts::take_codes(b, h.codes, codes);
    let c = parts::take_content(h, b, 24 + 96 * h.codes, digits, entries);
    let mut certificate = parts::zeros();
    let good = columns::take_digits(b, b.len() - 64, 12, &mut certificate, 0);
    refusals::lines_answer(first, good, c.due, packet::no_such_day(c.content))?;
    Ok(accepted(b, h.codes, c.content, certificate))
}

// What a packet says, and its arrays, which are of no use where it is refused.
fn filled(
    b: &[u8],
    codes: &mut [u8],
    entries: &mut [u8],
    digits: &mut [u8],
) -> Result<Told, Refusal>
    requires { Blank codes.old entries.old digits.old }
    ensures { Lined b.now (told result) codes.new entries.new digits.new }
{
    if refusals::size_bad(b) {
        return Err(Refusal::PacketSize);
    }
    let kind = parts::kind(b);
    let row = table::row_of(kind);
    if refusals::unknown(row.counting) {
        return Err(Refusal::Type);
    }
    let sizes = table::sizes_of(kind);
    let n = parts::codes_count(b);
    let m = parts::content_size(b);
    let count = parts::count_at(row.counting, b, 16 + 96 * n + sizes.lead, m);
    if refusals::length_bad(sizes, count, m) {
        return Err(Refusal::Length);
    }
    let h = Heading {
        kind,
        row,
        sizes,
        codes: n,
        count,
    };
    lines_told(h, b, codes, entries, digits)
}

// What a packet says, as `read` does, with its arrays in those that are lent, which stay as they were where it is refused.
pub fn read_to(
    packet: &[u8],
    codes: &mut [u8; 322],
    entries: &mut [u8; 272],
    digits: &mut [u8; 35],
) -> Result<Told, Refusal>
    ensures told { told result ≡ told_of (opened packet.now) }
    ensures coded { codes.new ≡ unless_refused (opened packet.now) (opened packet.now).codes codes.old }
    ensures listed { entries.new ≡ unless_refused (opened packet.now) (opened packet.now).entries entries.old }
    ensures beside { digits.new ≡ unless_refused (opened packet.now) (opened packet.now).fields.digits digits.old }
{
    let c = *codes;
    let e = *entries;
    let d = *digits;
    *codes = parts::zeros();
    *entries = parts::zeros();
    *digits = parts::zeros();
    let t = filled(packet, codes, entries, digits);
    if t.is_err() {
        *codes = c;
        *entries = e;
        *digits = d;
    }
    t
}

// What a packet says, and 20, 23, 26, 24, 25 or 27 where it is none.
pub fn read(packet: &[u8]) -> Result<Opened, Refusal>
    ensures { opened_told result ≡ opened packet.now }
{
    let mut codes = parts::zeros();
    let mut entries = parts::zeros();
    let mut digits = parts::zeros();
    let Told {
        typenumber,
        codes: n,
        content,
        time,
        certificate,
        signature,
    } = read_to(packet, &mut codes, &mut entries, &mut digits)?;
    Ok(Opened {
        fields: Fields {
            typenumber,
            codes: n,
            content,
            digits,
            time,
            certificate,
            signature,
        },
        codes,
        entries,
    })
}

// Its answer alone.
fn answer(packet: &[u8]) -> Result<(), Refusal>
    ensures { answer_of result ≡ read_answer packet.now }
{
    read(packet)?;
    Ok(())
}

// The answer that goes with the text: the reader's, and 27 for a type other than 15.
pub fn text_answer(packet: &[u8]) -> Result<(), Refusal>
    ensures { answer_of result ≡ text_answer packet.now }
{
    answer(packet)?;
    if parts::type_in(packet) != 15 {
        return Err(Refusal::Range);
    }
    Ok(())
}

// The text, of exactly its stated length; empty where there is none.
pub fn text(packet: &[u8]) -> &[u8]
    ensures { result.now ≡ text_of packet.now }
{
    match text_answer(packet) {
        Ok(()) => parts::behind_lead(packet, parts::text_length(packet)),
        Err(_) => &packet[0..0],
    }
}

// The address, the text or the raw bytes; empty where there are none.
pub fn body(packet: &[u8]) -> &[u8]
    ensures { result.now ≡ body_of packet.now }
{
    match answer(packet) {
        Ok(()) => parts::behind_lead(packet, parts::bytes_count(packet)),
        Err(_) => &packet[0..0],
    }
}
