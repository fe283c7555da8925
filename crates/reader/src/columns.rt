// Lines of a table over the bits of a packet, taken and judged at once: a line in all of its rows, then the next.
ghost use Rattle.std.specs.Prelude.{◌≡◌, true, cond, [], ◌∷◌, ℕ, ◌+◌, ◌-◌, ◌*◌, ◌/◌, ◌%◌, ◌<◌, ◌≤◌, length, set, take, drop};
ghost use Rattle.std.proofs.lemmas.List.Edits.{sets};
ghost use Rattle.laws.specs.Bits.{run, bits};
ghost use Rattle.laws.specs.Strips.{strips, every};
ghost use Rattle.format.specs.Format.{inside, own, size, need, decode, fine, sound};
ghost use Rattle.packet.specs.InCode.{every_line, lines_in};
ghost use Rattle.packet.specs.Reading.{numbers_at};
ghost use Rattle.reader.specs.Due.{asks, passing, Judged};
ghost use Rattle.reader.specs.Taking.{own_at, Column, Each, Octets, Digits, Rows, Own};

use format::Line;
use packet::Lines;

// Rows of a table: how many, how many bytes apart they stand in a packet, and how many places apart their numbers go.
#[derive(Clone, Copy)]
pub(crate) struct Spacing {
    pub(crate) rows: usize,
    pub(crate) bytes: usize,
    pub(crate) places: usize,
}

// The two halves of each of m bytes from byte k on, to out from `to` on; whether each is a digit.
fn take_pairs(b: &[u8], k: usize, m: usize, out: &mut [u8], to: usize) -> bool
    requires { (k + m ≤ length b.now) × (to + 2 * m ≤ length out.old) × (k + m ≤ 60000) }
    ensures { (out.new ≡ sets out.old to (run (bits b.now) (k * 8) (2 * m) 4)) × (result ≡ inside 0 9 (run (bits b.now) (k * 8) (2 * m) 4)) }
{
    let mut wrong: u32 = 0;
    for j in 0..m {
        let x = b[k + j] as u32;
        let high = x / 16;
        let low = x % 16;
        out[to + 2 * j] = high as u8;
        out[to + 2 * j + 1] = low as u8;
        // Six more than a digit stays below sixteen. Counted, since a test of each takes longer.
        wrong += (high + 6) / 16 + (low + 6) / 16;
    }
    wrong == 0
}

// c half bytes that end with byte e: where they are odd one by itself, then two a byte.
pub(crate) fn take_digits(b: &[u8], e: usize, c: usize, out: &mut [u8], to: usize) -> bool
    requires { (c ≤ 2 * e) × (e ≤ length b.now) × (to + c ≤ length out.old) × (e ≤ 60000) }
    ensures { (out.new ≡ sets out.old to (run (bits b.now) (e * 8 - c * 4) c 4)) × (result ≡ inside 0 9 (run (bits b.now) (e * 8 - c * 4) c 4)) }
{
    let m = c / 2;
    let k = e - m;
    if c % 2 == 0 {
        return take_pairs(b, k, m, out, to);
    }
    let x = b[k - 1] % 16;
    out[to] = x;
    let good = take_pairs(b, k, m, out, to + 1);
    x <= 9 && good
}

// Digits in each row that end with byte e in the first.
fn digits_column(c: usize, b: &[u8], e: usize, s: Spacing, out: &mut [u8], i: usize) -> bool
    requires { Digits c (length b.now) e s.bytes s.rows (length out.old) i s.places }
    ensures { (out.new ≡ strips out.old i s.places s.rows (λ (k : ℕ). run (bits b.now) (e * 8 - c * 4 + k * (s.bytes * 8)) c 4)) × (result ≡ every s.rows (λ (k : ℕ). inside 0 9 (run (bits b.now) (e * 8 - c * 4 + k * (s.bytes * 8)) c 4))) }
{
    let mut good = true;
    for j in 0..s.rows {
        // Not `&=`, with which each row is made ready for more bytes than it has.
        let here = take_digits(b, e + j * s.bytes, c, out, i + j * s.places);
        if !here {
            good = false;
        }
    }
    good
}

// A byte in each row, from byte k on, as it is.
fn copy_column(b: &[u8], k: usize, s: Spacing, out: &mut [u8], i: usize)
    requires { Octets (length b.now) k s.bytes s.rows (length out.old) i s.places }
    ensures { out.new ≡ strips out.old i s.places s.rows (λ (j : ℕ). run (bits b.now) (k * 8 + j * (s.bytes * 8)) 1 8) }
{
    for j in 0..s.rows {
        out[i + j * s.places] = b[k + j * s.bytes];
    }
}

// The same, and whether each is lo to hi.
fn tested_column(lo: u8, hi: u8, b: &[u8], k: usize, s: Spacing, out: &mut [u8], i: usize) -> bool
    requires { Octets (length b.now) k s.bytes s.rows (length out.old) i s.places }
    ensures { (out.new ≡ strips out.old i s.places s.rows (λ (j : ℕ). run (bits b.now) (k * 8 + j * (s.bytes * 8)) 1 8)) × (result ≡ every s.rows (λ (j : ℕ). inside lo hi (run (bits b.now) (k * 8 + j * (s.bytes * 8)) 1 8))) }
{
    let mut good = true;
    for j in 0..s.rows {
        let x = b[k + j * s.bytes];
        out[i + j * s.places] = x;
        good &= lo <= x && x <= hi;
    }
    good
}

// The same; bytes of which none is wrong are only copied, which is faster. The bounds are bytes, as a line's own are not.
fn octet_column(lo: u8, hi: u8, b: &[u8], k: usize, s: Spacing, out: &mut [u8], i: usize) -> bool
    requires { Octets (length b.now) k s.bytes s.rows (length out.old) i s.places }
    ensures { (out.new ≡ strips out.old i s.places s.rows (λ (j : ℕ). run (bits b.now) (k * 8 + j * (s.bytes * 8)) 1 8)) × (result ≡ every s.rows (λ (j : ℕ). inside lo hi (run (bits b.now) (k * 8 + j * (s.bytes * 8)) 1 8))) }
{
    if lo == 0 && hi == 255 {
        copy_column(b, k, s, out, i);
        true
    } else {
        tested_column(lo, hi, b, k, s, out, i)
    }
}

// Bits that are always the same, in each row, from bit p on.
fn same_column(t: Line, b: &[u8], p: usize, s: Spacing) -> bool
    requires { (t.count ≡ 1) × (t.width ≤ 32) × (p + s.rows * (s.bytes * 8) ≤ 65535) }
    ensures { result ≡ every s.rows (λ (k : ℕ). inside t.lo t.hi (run (bits b.now) (p + k * (s.bytes * 8)) t.count t.width)) }
{
    (0..s.rows)
        .map(|j| format::field(b, p + j * (s.bytes * 8), t.width))
        .all(|x| t.lo <= x && x <= t.hi)
}

// The numbers of a line of at most a byte each, one by one, from bit p on, to out from i on; whether each is as the line says.
fn take_each(t: Line, b: &[u8], p: usize, out: &mut [u8], i: usize) -> bool
    requires { (t.count ≤ 64) × (t.width ≤ 8) × (p < 60000) × (i + t.count ≤ length out.old) }
    ensures { (out.new ≡ sets out.old i (run (bits b.now) p t.count t.width)) × (result ≡ inside t.lo t.hi (run (bits b.now) p t.count t.width)) }
{
    let mut good = true;
    for j in 0..t.count {
        let x = format::field(b, p + j * t.width, t.width);
        out[i + j] = x as u8;
        good &= t.lo <= x && x <= t.hi;
    }
    good
}

// The same in each row, wherever in a byte they begin.
fn each_column(t: Line, b: &[u8], p: usize, s: Spacing, out: &mut [u8], i: usize) -> bool
    requires { Each t p s.bytes s.rows (length out.old) i s.places }
    ensures { (out.new ≡ strips out.old i s.places s.rows (λ (k : ℕ). run (bits b.now) (p + k * (s.bytes * 8)) t.count t.width)) × (result ≡ every s.rows (λ (k : ℕ). inside t.lo t.hi (run (bits b.now) (p + k * (s.bytes * 8)) t.count t.width))) }
{
    let mut good = true;
    for j in 0..s.rows {
        good &= take_each(t, b, p + j * (s.bytes * 8), out, i + j * s.places);
    }
    good
}

// A line in each row, from bit p on; its numbers to out from i on; whether each is as the line says.
fn take_column(t: Line, b: &[u8], p: usize, s: Spacing, out: &mut [u8], i: usize) -> bool
    requires { Column t (length b.now) p s.bytes s.rows (length out.old) i s.places }
    ensures { (out.new ≡ strips out.old i s.places s.rows (λ (k : ℕ). own_at t b.now (p + k * (s.bytes * 8)))) × (result ≡ every s.rows (λ (k : ℕ). inside t.lo t.hi (run (bits b.now) (p + k * (s.bytes * 8)) t.count t.width))) }
{
    if !t.given {
        return same_column(t, b, p, s);
    }
    if t.width == 4 {
        if (p + t.count * 4) % 8 == 0 {
            return digits_column(t.count, b, (p + t.count * 4) / 8, s, out, i);
        }
    } else if p % 8 == 0 {
        return octet_column(t.lo as u8, t.hi as u8, b, p / 8, s, out, i);
    }
    each_column(t, b, p, s, out, i)
}

// What a line is due whose numbers are as it says, or not; 255 where that is none: the least of several is asked for, and `None` is the least.
fn line_due(t: Line, good: bool) -> u8
    requires { asks t ≡ true }
    ensures { Judged (passing t good) result }
{
    if good || t.answer == 0 { 255 } else { t.answer }
}

// The bits of a line, and how many numbers it has of its own.
fn width(t: Line) -> usize
    requires { sound t ≡ true }
    ensures { (result ≡ t.count * t.width) × (result ≤ 2048) }
{
    t.count * t.width
}

fn own(t: Line) -> usize
    ensures { result ≡ own t }
{
    if t.given { t.count } else { 0 }
}

// n rows of lines, as many bytes apart as they have, from bit p on; their numbers to out from i on; the least number that is due.
pub(crate) fn take_rows(ts: Lines, n: usize, b: &[u8], p: usize, out: &mut [u8], i: usize) -> u8
    requires { Rows ts n (length b.now) p (length out.old) i }
    ensures { (out.new ≡ strips out.old i ts.numbers n (λ (k : ℕ). numbers_at (lines_in ts) b.now (p + k * (ts.bits / 8 * 8)))) × Judged (λ (a : ℕ). every n (λ (k : ℕ). fine a (lines_in ts) (decode (lines_in ts) (bits b.now) (p + k * (ts.bits / 8 * 8))))) result }
{
    let s = Spacing {
        rows: n,
        bytes: ts.bits / 8,
        places: ts.numbers,
    };
    let mut d: u8 = 255;
    let mut q = p;
    let mut to = i;
    for j in 0..ts.m {
        let t = table::line_at(ts.from + j);
        let good = take_column(t, b, q, s, out, to);
        d = d.min(line_due(t, good));
        q += width(t);
        to += own(t);
    }
    d
}

// By index, since a proof knows nothing of what is written through `get_mut`.
fn put(out: &mut [u32], i: usize, x: u32)
    ensures { out.new ≡ set out.old i x }
{
    if i < out.len() {
        out[i] = x;
    }
}

// The number of a line, to out at i if it is given.
fn keep(t: Line, x: u32, out: &mut [u32], i: usize)
    ensures { out.new ≡ sets out.old i (cond t.given (x ∷ []) []) }
{
    if t.given {
        put(out, i, x);
    }
}

// A line of one number from bit p on, to out at i if it is given; whether it is as the line says.
fn take_number(t: Line, b: &[u8], p: usize, out: &mut [u32], i: usize) -> bool
    requires { (t.count ≡ 1) × (t.width ≤ 32) × (p < 65536) }
    ensures { (out.new ≡ sets out.old i (own_at t b.now p)) × (result ≡ inside t.lo t.hi (run (bits b.now) p t.count t.width)) }
{
    let x = format::field(b, p, t.width);
    keep(t, x, out, i);
    t.lo <= x && x <= t.hi
}

// What is due of lines, the place behind them, and how many numbers they have of their own.
#[derive(Clone, Copy)]
pub(crate) struct Taken {
    pub(crate) due: u8,
    pub(crate) place: usize,
    pub(crate) numbers: usize,
}

// m lines of one number each, from bit p on; their numbers to out.
pub(crate) fn take_own(from: usize, m: usize, b: &[u8], p: usize, out: &mut [u32]) -> Taken
    requires { Own from m p }
    ensures { (out.new ≡ sets out.old 0 (numbers_at (take m (drop from every_line)) b.now p)) × Judged (λ (a : ℕ). fine a (take m (drop from every_line)) (decode (take m (drop from every_line)) (bits b.now) p)) result.due × (result.place ≡ p + size (take m (drop from every_line))) × (result.numbers ≡ need (take m (drop from every_line))) }
{
    let mut due: u8 = 255;
    let mut place = p;
    let mut numbers: usize = 0;
    for j in 0..m {
        let t = table::line_at(from + j);
        let good = take_number(t, b, place, out, numbers);
        due = due.min(line_due(t, good));
        place += width(t);
        numbers += own(t);
    }
    Taken {
        due,
        place,
        numbers,
    }
}
