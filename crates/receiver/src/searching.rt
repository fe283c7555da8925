// The search over a buffer that holds the pending bits and, right behind them, the delivery.
ghost use Rattle.std.specs.Prelude.{◌≡◌, true, false, ◌&&◌, ◌+◌, ◌*◌, ◌/◌, ◌%◌, ◌^◌, ◌≤◌, ◌<◌, length};
ghost use Rattle.std.proofs.lemmas.List.Edits.{sets};
ghost use Rattle.block.specs.Block.{offset_of, syndrome, is_valid};
ghost use Rattle.receiver.specs.Rule as rule;
ghost use Rattle.receiver.specs.Receive.{joined};
ghost use Rattle.receiver.specs.Search.{ahead, heard_from, Holds, Takes, Searched, told, which, rest_of};

use crate::places::open_from;
use crate::store::store;
use crate::window::window;
use block::Letter;

// A frame that stands at a place: its information, and how many of its blocks were mended.
#[derive(Clone, Copy)]
pub(crate) struct Found {
    pub words: u64,
    pub mended: u8,
}

// Where the search ended, the frames that it stored, and whether it ended right behind one.
#[derive(Clone, Copy)]
pub(crate) struct Read {
    pub from: usize,
    pub frames: usize,
    pub follows: bool,
}

// What two blocks side by side leave on division, each in the low ten bits of its 26. These are the steps of `block::remainder_of` in both at once: the
// masks keep the information of each apart, and then the low ten bits of its quotient.
fn remainders(blocks: u64) -> u64
    requires { blocks < 2 ^ 52 }
    ensures { result ≡ syndrome (blocks / 2 ^ 26) * 2 ^ 26 + syndrome (blocks % 2 ^ 26) }
{
    let p = blocks & 0xF_FFF0_03FF_FC00;
    let h = p >> 2;
    let u = h ^ (h >> 1);
    let a = u ^ (u >> 2) ^ (h >> 4);
    let q = (p ^ a ^ (a >> 9)) & 0x3FF0_000F_FC00;
    let w = q ^ (q << 1);
    let r = q ^ (w << 3) ^ (q << 5) ^ (w << 7);
    ((r >> 10) ^ blocks) & 0xF_FC00_03FF
}

// What the blocks of two letters leave, side by side.
fn expected(first: Letter, second: Letter) -> u64
    ensures { result ≡ offset_of first * 67108864 + offset_of second }
{
    block::offset_of(first) as u64 * 0x400_0000 + block::offset_of(second) as u64
}

// Whether the first 52 of 64 bits are the blocks of two letters.
fn both_pass(x: u64, first: Letter, second: Letter) -> bool
    ensures { result ≡ (is_valid (x / 274877906944) first && is_valid (x / 4096 % 67108864) second) }
{
    remainders(x >> 12) == expected(first, second)
}

// What they leave less the offset words of two letters.
fn rests(x: u64, first: Letter, second: Letter) -> u64
    ensures { result ≡ rest_of (x / 274877906944) first * 67108864 + rest_of (x / 4096 % 67108864) second }
{
    remainders(x >> 12) ^ expected(first, second)
}

// The information of four blocks as one number.
fn words_of(a: u32, p: u32, q: u32, d: u32) -> u64
    requires { (a < 0x4000000) × (p < 0x4000000) × (q < 0x4000000) × (d < 0x4000000) }
    ensures { result ≡ (a / 1024 * 65536 + p / 1024) * 4294967296 + (q / 1024 * 65536 + d / 1024) }
{
    let left = (a / 1024) as u64 * 65536 + (p / 1024) as u64;
    let right = (q / 1024) as u64 * 65536 + (d / 1024) as u64;
    left * 0x1_0000_0000 + right
}

// Asks the four blocks at a place.
fn frame_at(b: &[u8], end: usize, from: usize) -> Option<Found>
    requires { Holds b.now end × (from + 104 ≤ end) }
    ensures { Takes false (ahead b.now end from) (told result) }
{
    let x = window(b, from);
    if !both_pass(x, Letter::A, Letter::B) {
        return None;
    }
    let y = window(b, from + 52);
    if !both_pass(y, Letter::C, Letter::D) {
        return None;
    }
    let a = (x >> 38) as u32;
    let p = ((x >> 12) % 0x400_0000) as u32;
    let q = (y >> 38) as u32;
    let d = ((y >> 12) % 0x400_0000) as u32;
    Some(Found {
        words: words_of(a, p, q, d),
        mended: 0,
    })
}

pub(crate) fn one(b: bool) -> u8
    ensures { result ≡ rule.one b }
{
    if b { 1 } else { 0 }
}

// Block k of two and two, each two in the first 52 of 64 bits.
fn block_at(x: u64, y: u64, k: usize) -> u32
    ensures { result ≡ which (x / 274877906944) (x / 4096 % 67108864) (y / 274877906944) (y / 4096 % 67108864) k }
{
    match k {
        0 => (x >> 38) as u32,
        1 => ((x >> 12) % 0x400_0000) as u32,
        2 => (y >> 38) as u32,
        _ => ((y >> 12) % 0x400_0000) as u32,
    }
}

// What is left of block k less its offset word, of two and two as `rests` has them.
fn rest_at(p: u64, q: u64, k: usize) -> u16
    ensures { result ≡ which (p / 67108864 % 1024) (p % 1024) (q / 67108864 % 1024) (q % 1024) k }
{
    match k {
        0 => (p / 0x400_0000 % 1024) as u16,
        1 => (p % 1024) as u16,
        2 => (q / 0x400_0000 % 1024) as u16,
        _ => (q % 1024) as u16,
    }
}

// Mends the four blocks at a place, in a loop: so the table is asked at one place of the code, and stands in it where it is asked.
fn mended_at(b: &[u8], end: usize, from: usize) -> Option<Found>
    requires { Holds b.now end × (from + 104 ≤ end) }
    ensures { Takes true (ahead b.now end from) (told result) }
{
    let x = window(b, from);
    let y = window(b, from + 52);
    let p = rests(x, Letter::A, Letter::B);
    let q = rests(y, Letter::C, Letter::D);
    let mut words: u64 = 0;
    let mut changed: u8 = 0;
    for k in 0..4 {
        let Some(mended) = mend::mended_by(block_at(x, y, k), rest_at(p, q, k)) else {
            return None;
        };
        words = (words << 16) + (mended.block / 1024) as u64;
        changed += one(mended.changed);
    }
    Some(Found {
        words,
        mended: changed,
    })
}

// Asks a start: mending is tried right behind a frame, and only where the blocks as they are do not all pass.
fn taken_at(b: &[u8], end: usize, from: usize, follows: bool) -> Option<Found>
    requires { Holds b.now end × (from + 104 ≤ end) }
    ensures { Takes follows (ahead b.now end from) (told result) }
{
    match frame_at(b, end, from) {
        Some(found) => Some(found),
        None if follows => mended_at(b, end, from),
        None => None,
    }
}

// Hands out every frame from a place on up to the end, and of each the count of its mended blocks.
pub(crate) fn search(
    b: &[u8],
    out: &mut [u8],
    counts: &mut [u8],
    end: usize,
    start: usize,
    behind: bool,
) -> Read
    requires { Holds b.now end × (start ≤ end) × (25 ≤ start) × (320 ≤ length out.old) × (40 ≤ length counts.old) }
    ensures state { Searched b.now end behind start result }
    ensures out { out.new ≡ sets out.old 0 (joined (heard_from b.now end behind start).frames) }
    ensures counts { counts.new ≡ sets counts.old 0 (heard_from b.now end behind start).counts }
{
    let mut from = start;
    let mut frames = 0;
    let mut follows = behind;
    // a while: a frame is passed whole, and else the next mark says where to go on
    while from + 104 <= end {
        match taken_at(b, end, from, follows) {
            Some(found) => {
                store(out, frames * 8, found.words);
                counts[frames] = found.mended;
                frames += 1;
                from += 104;
                follows = true;
            }
            None => {
                from = open_from(b, end, from + 1, end - 103);
                follows = false;
            }
        }
    }
    Read {
        from,
        frames,
        follows,
    }
}
