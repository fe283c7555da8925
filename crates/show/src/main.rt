// Hears what standard input carries and writes what a board makes of it: for each frame a byte, the board's answer, and behind a 1 the text that
// is shown now: level, parts, the 35 digits of its message number, its length in two bytes, high first, and its bytes. The first byte of the
// input says what follows: 'A' air bytes, heard as they come; 'G' frames of eight bytes each. Where it is another, nothing is heard.
#![tactic(auto)]

use board::Board;
use receiver::Receiver;
use std::io;
use std::io::Read;

// The receiver and the board so far.
#[derive(Drop)]
struct Hearing {
    receiver: Receiver,
    board: Board,
}

// The text that is shown, at most 1341 bytes, and what is said of it.
fn show(rt: &impl Print, level: u8, parts: u8, number: &[u8], text: &[u8]) -> io::Result<()> {
    let n = text.len() % 65536;
    rt.write_all(&[level, parts])?;
    rt.write_all(number)?;
    rt.write_all(&[(n / 256) as u8, (n % 256) as u8])?;
    rt.write_all(text)
}

impl Hearing {
    fn begin() -> Hearing {
        Hearing {
            receiver: receiver::fresh(),
            board: board::quiet(),
        }
    }

    fn hear(&mut self, rt: &impl Print, frame: &[u8]) -> io::Result<()> {
        let mut out = [0u8; 1341];
        let heard = board::hear(self.board, frame, &mut out);
        self.board = heard.board;
        rt.write_all(&[heard.answer])?;
        if heard.answer != 1 {
            return Ok(());
        }
        show(
            rt,
            heard.level,
            heard.parts,
            &heard.number,
            octets::part(&out, 0, heard.length),
        )
    }

    // The first n frames of the receiver's output, in order.
    fn hear_all(&mut self, rt: &impl Print, out: &[u8], n: usize) -> io::Result<()> {
        for frame in out.chunks_exact(8).take(n) {
            self.hear(rt, frame)?;
        }
        Ok(())
    }

    // Takes air bytes, as many as came.
    fn take_air(&mut self, rt: &impl Print, delivery: &[u8]) -> io::Result<()> {
        let mut frames = [0u8; 320];
        let mut counts = [0u8; 40];
        let received = receiver::receive(self.receiver, delivery, &mut frames, &mut counts);
        self.receiver = received.receiver;
        self.hear_all(rt, &frames, received.frames)
    }
}

// Air bytes, as many as are there; none is the input's end. A proved loop ends, and nothing says that the input does: so the turns are counted up to a
// number that no run reaches.
fn hear_air(rt: &impl Print, input: &mut impl Read) -> io::Result<()> {
    let mut hearing = Hearing::begin();
    let mut delivery = [0u8; 512];
    for _ in 0..u64::MAX {
        let n = input.read(&mut delivery)?;
        if n == 0 {
            break;
        }
        hearing.take_air(rt, octets::part(&delivery, 0, n))?;
    }
    Ok(())
}

// Frames; less than one is the input's end.
fn hear_frames(rt: &impl Print, input: &mut impl Read) -> io::Result<()> {
    let mut hearing = Hearing::begin();
    let mut frame = [0u8; 8];
    for _ in 0..u64::MAX {
        if intake::fill(input, &mut frame)? < 8 {
            break;
        }
        hearing.hear(rt, &frame)?;
    }
    Ok(())
}

fn main(rt: HostRuntime) -> io::Result<()> {
    let mut input = rt.reader();
    let mut what = [0u8; 1];
    intake::fill(&mut input, &mut what)?;
    match what[0] {
        b'A' => hear_air(&rt, &mut input),
        b'G' => hear_frames(&rt, &mut input),
        _ => Ok(()),
    }
}
