// Prints each place of the air bytes on standard input where 26 bits carry a letter: its bit number, the letter, the information; at the end their count.
#![tactic(auto)]

use std::io;
use std::io::Read;

// The latest 26 bits, how many bits came, and how many places carried a letter.
#[derive(Default, Drop)]
struct Looking {
    bits: u32,
    came: u64,
    blocks: u64,
}

impl Looking {
    // Takes one bit more and prints the line of the 26 that end with it. No run counts to the end of 64 bits.
    fn look(&mut self, rt: &impl Print, bit: u8) -> io::Result<()> {
        self.bits = self.bits % 0x200_0000 * 2 + u32::from(bit % 2);
        self.came = self.came.wrapping_add(1);
        if self.came < 26 {
            return Ok(());
        }
        let mut line = [0u8; 29];
        let n = print::letter_line(self.came - 26, self.bits, &mut line);
        if n > 0 && n <= 29 {
            rt.write_all(&line[..n])?;
            self.blocks = self.blocks.wrapping_add(1);
        }
        Ok(())
    }

    // The bits of a byte, the highest first.
    fn look_through(&mut self, rt: &impl Print, byte: u8) -> io::Result<()> {
        for left in (0..8u32).rev() {
            self.look(rt, byte >> left)?;
        }
        Ok(())
    }

    fn take(&mut self, rt: &impl Print, delivery: &[u8]) -> io::Result<()> {
        for byte in delivery {
            self.look_through(rt, *byte)?;
        }
        Ok(())
    }
}

// Reads some bytes and takes them; none is the input's end. A proved loop ends, and nothing says that the input does: so the turns are counted up to a
// number that no run reaches.
fn run(rt: &impl Print, input: &mut impl Read) -> io::Result<u64> {
    let mut looking = Looking::default();
    let mut delivery = [0u8; 512];
    for _ in 0..u64::MAX {
        let n = intake::fill(input, &mut delivery)?;
        if n == 0 {
            break;
        }
        looking.take(rt, &delivery[..n])?;
    }
    Ok(looking.blocks)
}

fn main(rt: HostRuntime) -> io::Result<()> {
    let blocks = run(&rt, &mut rt.reader())?;
    println!(rt; "blocks {blocks}")
}
