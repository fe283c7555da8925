// What is kept from record to record: a receiver and a collector.
// R, the length of the output lent (two bytes, at most 400), that of the second one (a byte, at most 60), the length of a delivery (two bytes), the
// delivery.
// O, the length of a frame (two bytes), the frame. F, level, version. C, level, version, the length of the memory lent (two bytes, at most
// 300). N alone. S, a count, 128 bits, a byte: a receiver with so many of the lowest of them pending, which follow a frame where the byte is not 0. H, which of the four
// places (modulo 4), whether it is held (1), level, version, total, a number: that place with this number marked (none from 63 on).
use crate::{input, say};
use collector::{Holding, Holdings, Total};
use receiver::Receiver;
use std::io;

#[derive(Clone, Copy)]
pub(crate) struct Kept {
    pub receiver: Receiver,
    pub collector: Holdings,
}

pub(crate) fn begin() -> Kept {
    let r = receiver::fresh();
    let c = collector::empty();
    Kept {
        receiver: r,
        collector: c,
    }
}

// The bytes of so many frames, at most all that are lent.
fn bytes_of(frames: usize) -> usize {
    if frames < 50 { 8 * frames } else { 400 }
}

// With so many bytes of the one memory lent, and of the other.
fn received(
    rt: &impl Print,
    r: Receiver,
    delivery: &[u8],
    n: usize,
    k: usize,
    memory: &mut [u8],
    counts: &mut [u8],
) -> io::Result<Receiver> {
    let e = n.min(memory.len());
    let f = k.min(counts.len());
    let got = receiver::receive(r, delivery, &mut memory[0..e], &mut counts[0..f]);
    say::one(rt, b"receive", got.answer as u64)?;
    say::number(rt, got.frames as u64)?;
    say::memory(rt, memory, bytes_of(got.frames))?;
    say::text(rt, b"mended")?;
    say::memory(rt, counts, got.frames)?;
    Ok(got.receiver)
}

fn offered(rt: &impl Print, c: Holdings, frame: &[u8]) -> io::Result<Holdings> {
    let (answer, next) = match collector::offer(c, frame) {
        Ok(offered) => (offered.kept.number(), offered.collector),
        Err(refusal) => (refusal.number(), c),
    };
    say::one(rt, b"offer", answer.into())?;
    say::text(rt, b"\n")?;
    Ok(next)
}

fn released(rt: &impl Print, c: Holdings, level: u8, version: u8) -> io::Result<Holdings> {
    let (answer, next) = match collector::release(c, level, version) {
        Ok(next) => (0, next),
        Err(refusal) => (refusal.number(), c),
    };
    say::one(rt, b"release", answer.into())?;
    say::text(rt, b"\n")?;
    Ok(next)
}

fn copied(
    rt: &impl Print,
    c: Holdings,
    level: u8,
    version: u8,
    n: usize,
    memory: &mut [u8],
) -> io::Result<()> {
    let e = n.min(memory.len());
    let copied = collector::copy(c, level, version, &mut memory[0..e]);
    let (answer, length) = say::told(copied);
    say::one(rt, b"copy", answer.into())?;
    say::memory(rt, memory, length)
}

fn pending(b: &[u8]) -> Receiver {
    Receiver {
        high: input::eight(b, 2),
        low: input::eight(b, 10),
        count: octets::byte(b, 1) as u32,
        follows: octets::byte(b, 18),
    }
}

fn place(b: &[u8]) -> Holding {
    let mut marks = 0u64;
    let number = octets::byte(b, 6);
    if number < 64 {
        marks = 1 << number;
    }
    Holding {
        held: octets::byte(b, 2) == 1,
        level: octets::byte(b, 3),
        version: octets::byte(b, 4),
        total: Total(octets::byte(b, 5)),
        marks,
        bytes: [0; 252],
    }
}

fn with_place(c: Holdings, b: &[u8]) -> Holdings {
    let mut d = c;
    let i = (octets::byte(b, 1) % 4) as usize;
    d.places[i] = place(b);
    d
}

// The receiver behind a record.
fn receiver_after(rt: &impl Print, r: Receiver, b: &[u8]) -> io::Result<Receiver> {
    match octets::byte(b, 0) {
        b'R' => received(
            rt,
            r,
            octets::part(b, 6, 65536),
            input::two(b, 1) as usize,
            octets::byte(b, 3) as usize,
            &mut [0xEEu8; 400],
            &mut [0xEEu8; 60],
        ),
        b'N' => Ok(receiver::fresh()),
        b'S' => Ok(pending(b)),
        _ => Ok(r),
    }
}

// The collector behind a record.
fn collector_after(rt: &impl Print, c: Holdings, b: &[u8]) -> io::Result<Holdings> {
    match octets::byte(b, 0) {
        b'O' => offered(rt, c, octets::part(b, 3, 65536)),
        b'F' => released(rt, c, octets::byte(b, 1), octets::byte(b, 2)),
        b'C' => {
            copied(
                rt,
                c,
                octets::byte(b, 1),
                octets::byte(b, 2),
                input::two(b, 3) as usize,
                &mut [0xEEu8; 300],
            )?;
            Ok(c)
        }
        b'N' => Ok(collector::empty()),
        b'H' => Ok(with_place(c, b)),
        _ => Ok(c),
    }
}

pub(crate) fn after(rt: &impl Print, k: Kept, b: &[u8]) -> io::Result<Kept> {
    let r = k.receiver;
    let c = k.collector;
    let next = receiver_after(rt, r, b)?;
    let held = collector_after(rt, c, b)?;
    Ok(Kept {
        receiver: next,
        collector: held,
    })
}
