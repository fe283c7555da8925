// Keeps what air bytes on standard input carry: it writes, for whoever keeps the files, what belongs at the end of the file `shelf` of the current
// folder. First a byte, the answer to the shelf as it stands: 34 or 35, and that is all, or 0 and behind it the 256 bytes of its summary. Then, for each
// packet that is whole, a byte: 0, and behind it the record's 256 bytes and the 256 of the summary then; or 36 where the shelf is full.
#![tactic(auto)]

use collector::{Holdings, Kept};
use frame::Heading;
use receiver::Receiver;
use refusal::Refusal;
use std::io;
use std::io::Read;

// The receiver and the collector so far, the place of it that gives way next, the shelf, how many bytes it has, and its summary.
#[derive(Drop)]
struct Keeping<'a> {
    receiver: Receiver,
    collector: Holdings,
    turn: usize,
    shelf: &'a mut [u8],
    length: usize,
    summary: [u8; 256],
}

impl Keeping<'_> {
    // Copies a record behind the shelf's last.
    fn put_behind(&mut self, record: &[u8]) {
        for (place, byte) in self.shelf.iter_mut().skip(self.length).zip(record) {
            *place = *byte;
        }
        self.length = self.length.wrapping_add(record.len());
    }

    // Adds a record and says so.
    fn keep(&mut self, rt: &impl Print, record: &[u8]) -> io::Result<()> {
        let length = self.length;
        let mut summary = self.summary;
        if let Err(refusal) = shelf::add(
            octets::part(self.shelf, 0, length),
            record,
            &mut summary,
        ) {
            return rt.write_all(&[refusal.number()]);
        }
        rt.write_all(&[0])?;
        rt.write_all(record)?;
        rt.write_all(&summary)?;
        self.summary = summary;
        self.put_behind(record);
        Ok(())
    }

    // The packet of a frame's pair is whole: it is kept, and the pair released.
    fn take_whole(&mut self, rt: &impl Print, pair: Heading) -> io::Result<()> {
        let mut packet = [0u8; 250];
        let copied = collector::copy(self.collector, pair.level, pair.version, &mut packet);
        let n = copied.unwrap_or(0);
        let mut record = [0u8; 256];
        // What is made of a packet that is refused would be refused in its turn, with 35.
        let _ = shelf::make(
            pair.level,
            pair.version,
            octets::part(&packet, 0, n),
            &mut record,
        );
        self.keep(rt, &record)?;
        self.release(pair.level, pair.version);
        Ok(())
    }

    // Makes the pair's place free, if it is held.
    fn release(&mut self, level: u8, version: u8) {
        let collector = self.collector;
        self.collector = collector::release(collector, level, version).unwrap_or(collector);
    }

    // Makes the place free whose turn it is.
    fn make_room(&mut self) {
        let held = self.collector.places[self.turn % 4];
        self.release(held.level, held.version);
        self.turn = (self.turn % 4 + 1) % 4;
    }

    // Packets that lost a frame for good would hold every place; so where none is free (16) the places give way in turn, and the frame is offered again.
    fn hear(&mut self, rt: &impl Print, frame: &[u8]) -> io::Result<()> {
        let mut offer = collector::offer(self.collector, frame);
        if matches!(offer, Err(Refusal::Place)) {
            self.make_room();
            offer = collector::offer(self.collector, frame);
        }
        let Ok(offered) = offer else {
            return Ok(());
        };
        self.collector = offered.collector;
        match frame::heading_of(frame) {
            Ok(pair) if offered.kept == Kept::Whole => self.take_whole(rt, pair),
            _ => Ok(()),
        }
    }

    // The first n frames of the receiver's output, in order.
    fn hear_all(&mut self, rt: &impl Print, out: &[u8], n: usize) -> io::Result<()> {
        for frame in out.chunks_exact(8).take(n) {
            self.hear(rt, frame)?;
        }
        Ok(())
    }

    // Takes air bytes, as many as came.
    fn take_air(&mut self, rt: &impl Print, delivery: &[u8]) -> io::Result<()> {
        let mut frames = [0u8; 320];
        let mut counts = [0u8; 40];
        let received = receiver::receive(self.receiver, delivery, &mut frames, &mut counts);
        self.receiver = received.receiver;
        self.hear_all(rt, &frames, received.frames)
    }
}

// Air bytes, as many as are there; none is the input's end. A proved loop ends, and nothing says that the input does: so the turns are counted up to a
// number that no run reaches.
fn run(rt: &impl Print, input: &mut impl Read, mut keeping: Keeping<'_>) -> io::Result<()> {
    let mut delivery = [0u8; 512];
    for _ in 0..u64::MAX {
        let n = input.read(&mut delivery)?;
        if n == 0 {
            break;
        }
        keeping.take_air(rt, octets::part(&delivery, 0, n))?;
    }
    Ok(())
}

fn start(
    rt: &impl Print,
    input: &mut impl Read,
    length: usize,
    shelf: &mut [u8],
) -> io::Result<()> {
    let mut summary = [0u8; 256];
    if let Err(refusal) = shelf::summarize(octets::part(shelf, 0, length), &mut summary) {
        return rt.write_all(&[refusal.number()]);
    }
    rt.write_all(&[0])?;
    rt.write_all(&summary)?;
    let keeping = Keeping {
        receiver: receiver::fresh(),
        collector: collector::empty(),
        turn: 0,
        shelf,
        length,
        summary,
    };
    run(rt, input, keeping)
}

// The bytes of 4,096 records.
const SHELF: usize = 1048576;

// What was read is a shelf only where the file ends behind it: a longer one, and one that can't be read to its end, is refused with 34.
fn main(rt: HostRuntime) -> io::Result<()> {
    let mut space = intake::room::<SHELF>();
    match intake::whole_file(&rt, "shelf", &mut space) {
        Some(n) => start(&rt, &mut rt.reader(), n, &mut space),
        None => rt.write_all(&[Refusal::Shelf.number()]),
    }
}
