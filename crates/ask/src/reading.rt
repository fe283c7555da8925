// P, the length of a packet in two bytes, the packet: what the reader says of it, and what the writer makes of what was read.
ghost use Rattle.std.specs.Prelude.{◌≤◌};

use crate::say;
use packet::{Content, Fields, Opened};
use std::io;

pub(crate) fn content(rt: &impl Print, c: Content) -> io::Result<()> {
    match c {
        Content::Raw => say::text(rt, b"raw"),
        Content::Frequencies { count } => say::one(rt, b"frequencies", count as u64),
        Content::Address { length } => say::one(rt, b"address", length as u64),
        Content::Keep { on, period } => {
            say::one(rt, b"keep", on as u64)?;
            say::number(rt, period as u64)
        }
        Content::Clock {
            year,
            month,
            day,
            hour,
            minute,
            second,
        } => {
            say::one(rt, b"clock", year as u64)?;
            say::number(rt, month as u64)?;
            say::number(rt, day as u64)?;
            say::number(rt, hour as u64)?;
            say::number(rt, minute as u64)?;
            say::number(rt, second as u64)
        }
        Content::Reset { change } => say::one(rt, b"reset", change as u64),
        Content::Factory => say::text(rt, b"factory"),
        Content::Drill { action } => say::one(rt, b"drill", action as u64),
        Content::Text { kind, set, length } => {
            say::one(rt, b"text", kind as u64)?;
            say::number(rt, set as u64)?;
            say::number(rt, length as u64)
        }
        Content::Hold { serial } => say::one(rt, b"hold", serial as u64),
    }
}

// The numbers of the entries of a content, at most as many as a reader gives.
fn entries_length(c: Content) -> usize
    ensures { result ≤ 272 }
{
    match c {
        Content::Frequencies { count } => { if count < 35 { 8 * count } else { 272 } }
        _ => 0,
    }
}

// The digits of n codes, at most as many as a reader gives.
fn codes_length(n: usize) -> usize
    ensures { result ≤ 322 }
{
    if n < 15 { 23 * n } else { 322 }
}

// The type and what is the content's own.
fn first_fields(rt: &impl Print, f: Fields) -> io::Result<()> {
    let digits = f.digits;
    let c = f.content;
    say::one(rt, b"type", f.typenumber as u64)?;
    say::one(rt, b"\ncount", f.codes as u64)?;
    say::text(rt, b"\ncontent ")?;
    content(rt, c)?;
    say::text(rt, b"\ndigits")?;
    say::digits(rt, &digits)
}

fn last_fields(rt: &impl Print, f: Fields) -> io::Result<()> {
    let certificate = f.certificate;
    let signature = f.signature;
    say::one(rt, b"\ntime", f.time as u64)?;
    say::text(rt, b"\ncertificate")?;
    say::digits(rt, &certificate)?;
    say::text(rt, b"\nsignature")?;
    say::hex(rt, &signature)
}

// Codes and entries, and whether there are only zeros past the last.
fn lists(rt: &impl Print, codes: &[u8], n: usize, entries: &[u8], k: usize) -> io::Result<()> {
    say::text(rt, b"\ncodes")?;
    say::digits(rt, octets::part(codes, 0, n))?;
    say::text(rt, b"\nentries")?;
    say::hex(rt, octets::part(entries, 0, k))?;
    if !say::all(octets::part(codes, n, 322), 0) {
        say::text(rt, b"\na code past the last")?;
    }
    if !say::all(octets::part(entries, k, 272), 0) {
        say::text(rt, b"\nan entry past the last")?;
    }
    Ok(())
}

// Fields, codes and body written into 250 bytes.
fn written(rt: &impl Print, f: Fields, codes: &[u8], body: &[u8]) -> io::Result<()> {
    let mut out = [0xEEu8; 250];
    let w = writer::write(f, codes, body, &mut out);
    say::counted(rt, b"write", w, &out)
}

fn text_and_body(rt: &impl Print, packet: &[u8]) -> io::Result<()> {
    say::one(rt, b"\ntext", say::answer(reader::text_answer(packet)))?;
    say::hex(rt, reader::text(packet))?;
    say::text(rt, b"\nbody")?;
    say::hex(rt, reader::body(packet))?;
    say::text(rt, b"\n")
}

// The number that is given back, and all that was read.
fn shown(rt: &impl Print, answer: u8, o: Opened) -> io::Result<()> {
    let f = o.fields;
    let codes = o.codes;
    let entries = o.entries;
    let c = f.content;
    say::one(rt, b"read", answer.into())?;
    say::text(rt, b"\n")?;
    first_fields(rt, f)?;
    last_fields(rt, f)?;
    lists(
        rt,
        &codes,
        codes_length(f.codes),
        &entries,
        entries_length(c),
    )
}

// What was read, written again.
fn back(rt: &impl Print, o: Opened, packet: &[u8]) -> io::Result<()> {
    let f = o.fields;
    let codes = o.codes;
    let entries = o.entries;
    let c = f.content;
    let n = codes_length(f.codes);
    let k = entries_length(c);
    if k == 0 {
        written(rt, f, octets::part(&codes, 0, n), reader::body(packet))
    } else {
        written(
            rt,
            f,
            octets::part(&codes, 0, n),
            octets::part(&entries, 0, k),
        )
    }
}

// What stands beside a refusal.
fn nothing() -> Opened {
    Opened {
        fields: Fields {
            typenumber: 0,
            codes: 0,
            content: Content::Raw,
            digits: [0; 35],
            time: 0,
            certificate: [0; 12],
            signature: [0; 64],
        },
        codes: [0; 322],
        entries: [0; 272],
    }
}

// A whole record.
pub(crate) fn record(rt: &impl Print, b: &[u8]) -> io::Result<()> {
    let packet = octets::part(b, 3, 65536);
    match reader::read(packet) {
        Ok(o) => {
            shown(rt, 0, o)?;
            text_and_body(rt, packet)?;
            back(rt, o, packet)
        }
        Err(refusal) => {
            shown(rt, refusal.number(), nothing())?;
            text_and_body(rt, packet)
        }
    }
}
