// Lists the frames that air bytes on standard input carry: a line for each, with the collector's answer, and their count at the end.
#![tactic(auto)]

use collector::Holdings;
use receiver::Receiver;
use std::io;
use std::io::Read;

// The receiver and the collector so far, and how many frames came.
#[derive(Drop)]
struct Listing {
    receiver: Receiver,
    collector: Holdings,
    frames: u64,
}

impl Listing {
    fn begin() -> Listing {
        Listing {
            receiver: receiver::fresh(),
            collector: collector::empty(),
            frames: 0,
        }
    }

    // Offers a frame, and gives the number of what came of it. Beside a refusal what was held stands.
    fn offer(&mut self, frame: &[u8]) -> u8 {
        match collector::offer(self.collector, frame) {
            Ok(offered) => {
                self.collector = offered.collector;
                offered.kept.number()
            }
            Err(refusal) => refusal.number(),
        }
    }

    // Offers a frame and prints its line: sixteen digits, a space, an answer of at most three, the line's end.
    fn show(&mut self, rt: &impl Print, frame: &[u8]) -> io::Result<()> {
        let answer = self.offer(frame);
        let mut line = [0u8; 21];
        let n = print::frame_line(frame, answer, &mut line);
        if n <= 21 {
            rt.write_all(&line[..n])?;
        }
        Ok(())
    }

    // The first n frames of the receiver's output, in order.
    fn show_all(&mut self, rt: &impl Print, out: &[u8], n: usize) -> io::Result<()> {
        for frame in out.chunks_exact(8).take(n) {
            self.show(rt, frame)?;
        }
        Ok(())
    }

    // Takes one delivery. No run counts to the end of 64 bits.
    fn take(&mut self, rt: &impl Print, delivery: &[u8]) -> io::Result<()> {
        let mut out = [0u8; 320];
        let mut counts = [0u8; 40];
        let got = receiver::receive(self.receiver, delivery, &mut out, &mut counts);
        self.receiver = got.receiver;
        self.frames = self.frames.wrapping_add(got.frames as u64);
        self.show_all(rt, &out, got.frames)
    }
}

// Reads a delivery and takes it; an empty one is the input's end. A proved loop ends, and nothing says that the input does: so the turns are counted up
// to a number that no run reaches.
fn run(rt: &impl Print, input: &mut impl Read) -> io::Result<u64> {
    let mut listing = Listing::begin();
    let mut delivery = [0u8; 512];
    for _ in 0..u64::MAX {
        let n = intake::fill(input, &mut delivery)?;
        if n == 0 {
            break;
        }
        listing.take(rt, &delivery[..n])?;
    }
    Ok(listing.frames)
}

fn main(rt: HostRuntime) -> io::Result<()> {
    let frames = run(&rt, &mut rt.reader())?;
    println!(rt; "frames {frames}")
}
