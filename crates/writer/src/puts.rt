// The lines of a table put into bits: a line, lines, rows of lines.
ghost use Rattle.std.specs.Prelude.{◌≡◌, true, cond, ◌*◌, ◌<◌, ◌≤◌, length, []};
ghost use Rattle.laws.specs.Bits.{spread};
ghost use Rattle.format.specs.Format.{own, size, encode, fill, sound};
ghost use Rattle.packet.specs.Table.{count_line};
ghost use Rattle.packet.specs.InCode.{lines_in};
ghost use Rattle.writer.specs.Puts.{After, Puttable};

use format::Line;
use packet::{Counting, Lines};

// The number of a line: its own, x, or the one that it always has.
pub(crate) fn number_of(t: Line, x: u32) -> u32
    ensures { result ≡ cond t.given x t.lo }
{
    if t.given { x } else { t.lo }
}

// m lines from a place on, of which neither bits nor numbers are asked.
pub(crate) fn lines_at(from: usize, m: usize) -> Lines
    ensures { result ≡ record { from = from; m = m; bits = 0; numbers = 0 } }
{
    Lines {
        from,
        m,
        bits: 0,
        numbers: 0,
    }
}

// The bits of a line, and how many numbers it takes of those at hand.
pub(crate) fn width(t: Line) -> usize
    requires { sound t ≡ true }
    ensures { (result ≡ t.count * t.width) × (result ≤ 2048) }
{
    t.count * t.width
}

pub(crate) fn taken(t: Line) -> usize
    ensures { result ≡ own t }
{
    if t.given { t.count } else { 0 }
}

// Lines from bit p on, with the numbers xs; the place behind them.
pub(crate) fn put_lines(out: &mut [u8], p: usize, ts: Lines, xs: &[u32]) -> usize
    requires { Puttable ts xs.now p }
    ensures { After out.old out.new p (encode (lines_in ts) (fill (lines_in ts) xs.now)) result (size (lines_in ts)) }
{
    let mut q = p;
    let mut i: usize = 0;
    for j in 0..ts.m {
        let t = table::line_at(ts.from + j);
        let x = number_of(t, xs.get(i).copied().unwrap_or(0));
        format::put_field(out, q, t.width, x);
        q += t.width;
        i += taken(t);
    }
    q
}

// The count of a counted content.
pub(crate) fn put_count(out: &mut [u8], p: usize, counting: Counting, k: usize) -> usize
    requires { (k ≤ 255) × (p < 30000) }
    ensures { After out.old out.new p (encode (count_line counting k) (fill (count_line counting k) [])) result (size (count_line counting k)) }
{
    match counting {
        Counting::Counted => {
            format::put_field(out, p, 8, k as u32);
            p + 8
        }
        Counting::Fixed | Counting::Raw | Counting::Unknown => p,
    }
}

// Bytes as they are.
pub(crate) fn put_octets(out: &mut [u8], p: usize, xs: &[u8]) -> usize
    requires { (length xs.now ≤ 255) × (p < 30000) }
    ensures { After out.old out.new p (spread 8 xs.now) result (8 * length xs.now) }
{
    format::put_fields(out, p, 8, xs);
    p + 8 * xs.len()
}
