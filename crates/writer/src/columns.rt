// Lines that stand in every row of a table, a line in all rows and then the next: tested, and put into bits.
ghost use Rattle.std.specs.Prelude.{◌≡◌, true, ℕ, ◌+◌, ◌*◌, ◌%◌, ◌<◌, ◌≤◌, length, take, drop};
ghost use Rattle.std.proofs.lemmas.List.Edits.{sets};
ghost use Rattle.laws.specs.Bits.{bits, spread};
ghost use Rattle.laws.specs.Strips.{strips, every};
ghost use Rattle.format.specs.Format.{own, size, inside, line_ok, encode, fine, fill, times, sound};
ghost use Rattle.packet.specs.InCode.{lines_in};
ghost use Rattle.writer.specs.Puts.{value_of, After, Rows, Filled, Halves, Octets};
ghost use Rattle.writer.specs.Forms.{Formed, Put};

use crate::puts;
use format::Line;
use packet::Lines;

// A line that stands in each row of a table: how many rows, how many numbers a row has, and which of them is the line's first.
#[derive(Clone, Copy)]
struct Column {
    line: Line,
    rows: usize,
    numbers: usize,
    first: usize,
}

// How a line is put into bits: half bytes that end at a byte's edge, a byte, or number by number.
#[derive(Clone, Copy)]
enum Form {
    Halves,
    Octet,
    Numbers,
}

// ---- testing

// The numbers of a line, xs from the i-th on, are in its range; where it has none of its own they are its lowest.
fn in_range(t: Line, xs: &[u8], i: usize) -> bool
    requires { i + own t ≤ length xs.now }
    ensures { result ≡ inside t.lo t.hi (value_of t (drop i xs.now)) }
{
    if t.given {
        xs[i..i + t.count]
            .iter()
            .all(|x| t.lo <= u32::from(*x) && u32::from(*x) <= t.hi)
    } else {
        t.count == 0 || t.lo <= t.hi
    }
}

impl Column {
    // They are in each row.
    fn in_range(self, xs: &[u8]) -> bool
        requires { Filled self.line self.rows self.numbers xs.now self.first }
        ensures { result ≡ every self.rows (λ (k : ℕ). inside self.line.lo self.line.hi (value_of self.line (drop (self.first + k * self.numbers) xs.now))) }
    {
        for r in 0..self.rows {
            if !in_range(self.line, xs, self.first + r * self.numbers) {
                return false;
            }
        }
        true
    }

    // The line is no concern of the answer a, or they are.
    fn fits(self, a: u8, xs: &[u8]) -> bool
        requires { Filled self.line self.rows self.numbers xs.now self.first }
        ensures { result ≡ every self.rows (λ (k : ℕ). line_ok a self.line (value_of self.line (drop (self.first + k * self.numbers) xs.now))) }
    {
        if self.line.answer == a {
            self.in_range(xs)
        } else {
            true
        }
    }
}

// No line of n rows, each with its part of the numbers xs, is due the answer a.
pub(crate) fn rows_fit(a: u8, ts: Lines, n: usize, xs: &[u8]) -> bool
    requires { Rows ts n ts.numbers xs.now 0 }
    ensures { result ≡ fine a (times n (lines_in ts)) (fill (times n (lines_in ts)) xs.now) }
{
    let mut i: usize = 0;
    for j in 0..ts.m {
        let line = table::line_at(ts.from + j);
        let column = Column {
            line,
            rows: n,
            numbers: ts.numbers,
            first: i,
        };
        if !column.fits(a, xs) {
            return false;
        }
        i += puts::taken(line);
    }
    true
}

// ---- putting

// Half bytes of the numbers xs from the i-th on, two to each of m bytes from byte k on.
pub(crate) fn put_pairs(out: &mut [u8], k: usize, m: usize, xs: &[u8], i: usize)
    requires { (k + m ≤ length out.old) × (i + 2 * m ≤ length xs.now) }
    ensures { bits out.new ≡ sets (bits out.old) (k * 8) (spread 4 (take (2 * m) (drop i xs.now))) }
{
    for j in 0..m {
        out[k + j] = xs[i + 2 * j] % 16 * 16 + xs[i + 2 * j + 1] % 16;
    }
}

// The one half byte before them, where their number is odd: the low half of its byte.
fn put_odd(out: &mut [u8], p: usize, a: usize, xs: &[u8], i: usize)
    requires { (a < 2) × ((p + 4 * a) % 8 ≡ 0) × (p + 4 * a ≤ 8 * length out.old) × (i + a ≤ length xs.now) }
    ensures { bits out.new ≡ sets (bits out.old) p (spread 4 (take a (drop i xs.now))) }
{
    if a == 1 {
        let k = p / 8;
        out[k] = out[k] / 16 * 16 + xs[i] % 16;
    }
}

// n half bytes that end at a byte's edge.
fn put_halves(out: &mut [u8], p: usize, n: usize, xs: &[u8], i: usize)
    requires { ((p + 4 * n) % 8 ≡ 0) × (p + 4 * n ≤ 8 * length out.old) × (p < 50000) × (n ≤ 64) × (i + n ≤ length xs.now) }
    ensures { bits out.new ≡ sets (bits out.old) p (spread 4 (take n (drop i xs.now))) }
{
    let a = n % 2;
    put_odd(out, p, a, xs, i);
    put_pairs(out, p / 8 + a, n / 2, xs, i + a);
}

// A line from bit p on, with the numbers of xs from i on, number by number.
fn put_numbers(out: &mut [u8], p: usize, t: Line, xs: &[u8], i: usize)
    requires { (sound t ≡ true) × (p < 50000) × (i + own t ≤ length xs.now) × (i < 50000) }
    ensures { bits out.new ≡ sets (bits out.old) p (spread t.width (value_of t (drop i xs.now))) }
{
    let mut q = p;
    for j in 0..t.count {
        let x = puts::number_of(t, u32::from(xs.get(i + j).copied().unwrap_or(0)));
        format::put_field(out, q, t.width, x);
        q += t.width;
    }
}

// The same in the form that the line has there.
fn put_line(out: &mut [u8], p: usize, form: Form, t: Line, xs: &[u8], i: usize)
    requires { Put form t p (length out.old) × (sound t ≡ true) × (p < 50000) × (i + own t ≤ length xs.now) × (i < 50000) }
    ensures { bits out.new ≡ sets (bits out.old) p (spread t.width (value_of t (drop i xs.now))) }
{
    match form {
        Form::Halves => put_halves(out, p, t.count, xs, i),
        Form::Octet => out[p / 8] = xs[i],
        Form::Numbers => put_numbers(out, p, t, xs, i),
    }
}

impl Column {
    // Half bytes that end at a byte's edge in each row of s bits, in the first from bit p on, all within so many bytes.
    fn has_halves(self, p: usize, s: usize, len: usize) -> bool
        requires { (sound self.line ≡ true) × (p + 160 * self.rows < 49000) × (s ≤ 160) × (self.rows ≤ 255) }
        ensures { result ≡ true → Halves self.line p s self.rows len }
    {
        let t = self.line;
        t.given
            && t.width == 4
            && s % 8 == 0
            && (p + 4 * t.count) % 8 == 0
            && 4 * t.count <= s
            && (p + self.rows * s) / 8 < len
    }

    // A byte in each.
    fn has_octets(self, p: usize, s: usize, len: usize) -> bool
        requires { (sound self.line ≡ true) × (p + 160 * self.rows < 49000) × (s ≤ 160) × (self.rows ≤ 255) }
        ensures { result ≡ true → Octets self.line p s self.rows len }
    {
        let t = self.line;
        t.given
            && t.width == 8
            && t.count == 1
            && s % 8 == 0
            && s != 0
            && p % 8 == 0
            && (p + self.rows * s) / 8 < len
    }

    // Its form in all rows.
    fn form(self, p: usize, s: usize, len: usize) -> Form
        requires { (sound self.line ≡ true) × (p + 160 * self.rows < 49000) × (s ≤ 160) × (self.rows ≤ 255) }
        ensures { Formed result self.line p s self.rows len }
    {
        if self.has_halves(p, s, len) {
            Form::Halves
        } else if self.has_octets(p, s, len) {
            Form::Octet
        } else {
            Form::Numbers
        }
    }

    // The line in each row of s bits, in the first from bit p on.
    fn put(self, out: &mut [u8], p: usize, s: usize, xs: &[u8])
        requires { Filled self.line self.rows self.numbers xs.now self.first × (p + 160 * self.rows < 49000) × (s ≤ 160) }
        ensures { bits out.new ≡ strips (bits out.old) p s self.rows (λ (k : ℕ). spread self.line.width (value_of self.line (drop (self.first + k * self.numbers) xs.now))) }
    {
        let form = self.form(p, s, out.len());
        for r in 0..self.rows {
            put_line(
                out,
                p + r * s,
                form,
                self.line,
                xs,
                self.first + r * self.numbers,
            );
        }
    }
}

// n rows of the same lines from bit p on, each with its part of the numbers xs; the place behind them.
pub(crate) fn put_rows(out: &mut [u8], p: usize, ts: Lines, n: usize, xs: &[u8]) -> usize
    requires { Rows ts n ts.numbers xs.now p × (size (lines_in ts) ≡ ts.bits) }
    ensures { After out.old out.new p (encode (times n (lines_in ts)) (fill (times n (lines_in ts)) xs.now)) result (n * size (lines_in ts)) }
{
    let mut q = p;
    let mut i: usize = 0;
    for j in 0..ts.m {
        let line = table::line_at(ts.from + j);
        let column = Column {
            line,
            rows: n,
            numbers: ts.numbers,
            first: i,
        };
        column.put(out, q, ts.bits, xs);
        q += puts::width(line);
        i += puts::taken(line);
    }
    p + n * ts.bits
}
