// A table language for formats of bits: what a line of a table is, and the numbers of a table read, tested and written.
#![tactic(auto)]

ghost use Rattle.std.specs.Prelude.{◌≡◌, ◌+◌, ◌*◌, ◌/◌, ◌%◌, ◌<◌, ◌≤◌, ◌-◌, ◌^◌, length, set, true};
ghost use Rattle.std.proofs.lemmas.List.Edits.{sets};
ghost use Rattle.laws.specs.Bits.{at, bits_of, run, spread, bits};
ghost use Rattle.format.specs.Format.{inside};
ghost use Rattle.format.specs.Reach.{reach, field_read, fields_read, in_range, field_bits, fields_bits};

// A line: `count` numbers of `width` bits, each lo to hi; `answer` is what a reader answers where one is not.
// A line that is not given has no numbers of its own: each of its numbers is lo.
#[derive(Clone, Copy)]
pub struct Line {
    pub count: usize,
    pub width: usize,
    pub lo: u32,
    pub hi: u32,
    pub answer: u8,
    pub given: bool,
}

// Numbers that the functions below read and write; past it they read 0 and write nothing.
fn reaches(p: usize, n: usize, w: usize) -> bool
    ensures { result ≡ reach p n w }
{
    p < 65536 && n < 256 && w <= 32
}

// ---- reading

// The lowest k bits of a number, all ones.
fn ones(k: usize) -> u32
    requires { k ≤ 8 }
    ensures { result ≡ 2 ^ k - 1 }
{
    (1 << (k as u32)) - 1
}

// The w bits from bit i of a byte on.
fn bits_within(x: u8, i: usize, w: usize) -> u32
    requires { i + w ≤ 8 }
    ensures { result ≡ x / 2 ^ (8 - (i + w)) % 2 ^ w }
{
    (u32::from(x) >> ((8 - (i + w)) as u32)) & ones(w)
}

// A part for each byte that the number lies in; a `while`, as each step is as long as the part that was read.
fn read_parts(b: &[u8], p: usize, w: usize) -> u32
    requires { (w ≤ 32) × (p < 80000) }
    ensures { result ≡ at (bits b.now) p w }
{
    let mut x: u32 = 0;
    let mut j: usize = 0;
    while j < w {
        let q = p + j;
        let k = (8 - q % 8).min(w - j);
        let y = bits_within(octets::byte(b, q / 8), q % 8, k);
        x = (x << (k as u32)) + y;
        j += k;
    }
    x
}

// Most numbers lie within a byte, and are read at once.
fn read_field(b: &[u8], p: usize, w: usize) -> u32
    requires { (w ≤ 32) × (p < 80000) }
    ensures { result ≡ at (bits b.now) p w }
{
    let i = p % 8;
    if i + w <= 8 {
        bits_within(octets::byte(b, p / 8), i, w)
    } else {
        read_parts(b, p, w)
    }
}

// The number of w bits from bit p on.
pub fn field(b: &[u8], p: usize, w: usize) -> u32
    ensures { result ≡ field_read (bits b.now) p w }
{
    if reaches(p, 1, w) {
        read_field(b, p, w)
    } else {
        0
    }
}

fn small(b: &[u8], p: usize, w: usize) -> u8
    requires { (w ≤ 8) × (p < 80000) }
    ensures { result ≡ at (bits b.now) p w }
{
    read_field(b, p, w) as u8
}

// By index, since a proof knows nothing of what is written through `get_mut`.
fn put(out: &mut [u8], i: usize, v: u8)
    ensures { out.new ≡ set out.old i v }
{
    if i < out.len() {
        out[i] = v;
    }
}

fn read_each(b: &[u8], p: usize, n: usize, w: usize, out: &mut [u8], to: usize)
    requires { (w ≤ 8) × (p < 65536) × (n < 256) × (to < 65536) }
    ensures { out.new ≡ sets out.old to (run (bits b.now) p n w) }
{
    for j in 0..n {
        let x = small(b, p + j * w, w);
        put(out, to + j, x);
    }
}

// n numbers of w bits, at most 8, from bit p on, to out from to on.
pub fn fields(b: &[u8], p: usize, n: usize, w: usize, out: &mut [u8], to: usize)
    ensures { out.new ≡ sets out.old to (fields_read (bits b.now) p n w to) }
{
    if reaches(p, n, w) && w <= 8 && to < 65536 {
        read_each(b, p, n, w, out, to);
    }
}

fn test_each(b: &[u8], p: usize, n: usize, w: usize, lo: u32, hi: u32) -> bool
    requires { (w ≤ 32) × (p < 65536) × (n < 256) }
    ensures { result ≡ inside lo hi (run (bits b.now) p n w) }
{
    (0..n)
        .map(|j| read_field(b, p + j * w, w))
        .all(|x| lo <= x && x <= hi)
}

// Each of n numbers of w bits from bit p on is lo to hi.
pub fn ranged(b: &[u8], p: usize, n: usize, w: usize, lo: u32, hi: u32) -> bool
    ensures { result ≡ in_range (bits b.now) p n w lo hi }
{
    if reaches(p, n, w) {
        test_each(b, p, n, w, lo, hi)
    } else {
        false
    }
}

// ---- writing

// x with the lowest w bits of v from its bit i on.
fn with_field(x: u8, i: usize, w: usize, v: u32) -> u8
    requires { i + w ≤ 8 }
    ensures { result ≡ at (sets (bits_of 8 x) i (bits_of w v)) 0 8 }
{
    let s = 8 - (i + w);
    let y = u32::from(x);
    let high = (y >> ((8 - i) as u32)) << (w as u32);
    let middle = v & ones(w);
    let low = y & ones(s);
    (((high + middle) << (s as u32)) + low) as u8
}

// The same of the byte at k.
fn put_within(out: &mut [u8], k: usize, i: usize, w: usize, v: u32)
    requires { i + w ≤ 8 }
    ensures { bits out.new ≡ sets (bits out.old) (k * 8 + i) (bits_of w v) }
{
    let x = octets::byte(out, k);
    let y = with_field(x, i, w, v);
    put(out, k, y);
}

// A part for each byte that the number lies in; a `while`, as each step is as long as the part that was written.
fn write_parts(out: &mut [u8], p: usize, w: usize, x: u32)
    requires { (w ≤ 32) × (p < 80000) }
    ensures { bits out.new ≡ sets (bits out.old) p (bits_of w x) }
{
    let mut j: usize = 0;
    while j < w {
        let i = p + j;
        let k = (8 - i % 8).min(w - j);
        put_within(out, i / 8, i % 8, k, x >> ((w - j - k) as u32));
        j += k;
    }
}

// Most numbers lie within a byte, and are written at once.
fn write_field(out: &mut [u8], p: usize, w: usize, x: u32)
    requires { (w ≤ 32) × (p < 80000) }
    ensures { bits out.new ≡ sets (bits out.old) p (bits_of w x) }
{
    let i = p % 8;
    if i + w <= 8 {
        put_within(out, p / 8, i, w, x);
    } else {
        write_parts(out, p, w, x);
    }
}

// The w bits of x from bit p on.
pub fn put_field(out: &mut [u8], p: usize, w: usize, x: u32)
    ensures { bits out.new ≡ sets (bits out.old) p (field_bits p w x) }
{
    if reaches(p, 1, w) {
        write_field(out, p, w, x);
    }
}

fn write_each(out: &mut [u8], p: usize, w: usize, d: &[u8])
    requires { (w ≤ 32) × (p < 65536) × (length d.now < 256) }
    ensures { bits out.new ≡ sets (bits out.old) p (spread w d.now) }
{
    for (j, x) in d.iter().enumerate() {
        write_field(out, p + j * w, w, u32::from(*x));
    }
}

// Bytes from byte k on, as they are.
fn write_octets(out: &mut [u8], k: usize, d: &[u8])
    requires { k + length d.now ≤ length out.old }
    ensures { bits out.new ≡ sets (bits out.old) (k * 8) (spread 8 d.now) }
{
    // a for and no copy_from_slice: its call of memmove would be one that programs in C don't bring yet
    for (j, x) in d.iter().enumerate() {
        out[k + j] = *x;
    }
}

// Numbers that are bytes, all within so many.
fn whole(p: usize, n: usize, w: usize, len: usize) -> bool
    requires { (p < 65536) × (n < 256) }
    ensures { result ≡ true → (w ≡ 8) × (p % 8 ≡ 0) × (p / 8 + n ≤ len) }
{
    w == 8 && p % 8 == 0 && p / 8 + n <= len
}

// Bytes without a look at every one's place.
fn write_fields(out: &mut [u8], p: usize, w: usize, d: &[u8])
    requires { (w ≤ 32) × (p < 65536) × (length d.now < 256) }
    ensures { bits out.new ≡ sets (bits out.old) p (spread w d.now) }
{
    if whole(p, d.len(), w, out.len()) {
        write_octets(out, p / 8, d);
    } else {
        write_each(out, p, w, d);
    }
}

// The w bits of each number of d, from bit p on.
pub fn put_fields(out: &mut [u8], p: usize, w: usize, d: &[u8])
    ensures { bits out.new ≡ sets (bits out.old) p (fields_bits p w d.now) }
{
    if reaches(p, d.len(), w) {
        write_fields(out, p, w, d);
    }
}
