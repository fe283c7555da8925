// The parts of a packet: heading, codes, content and what follows.
ghost use Rattle.std.specs.Prelude.{◌≡◌, cond, [], ℕ, ◌+◌, ◌-◌, ◌*◌, ◌/◌, ◌<◌, ◌≤◌, length, take, drop, ltb};
ghost use Rattle.std.proofs.lemmas.List.Edits.{sets};
ghost use Rattle.laws.specs.Bits.{at, run, bits};
ghost use Rattle.format.specs.Format.{times, decode, fine};
ghost use Rattle.packet.specs.Table.{row_of, code, content_lines, count_by};
ghost use Rattle.packet.specs.InCode.{lines_in, Stands};
ghost use Rattle.packet.specs.Content.{content_of};
ghost use Rattle.packet.specs.Reading.{type_in, codes_in, kind_in, content_size, count_of, part_at, numbers_at, zeros, has_entries};
ghost use Rattle.reader.specs.Due.{Judged};
ghost use Rattle.reader.specs.Taking.{Entries, Holding, Beside};

use crate::columns;
use packet::{Content, Counting, Kind, Lines, RowLines, Sizes};

pub(crate) fn zeros<const N: usize>() -> [u8; N]
    ensures { result ≡ zeros N }
{
    [0; N]
}

// ---- heading
// A number of at most a byte.
fn small(b: &[u8], p: usize, w: usize) -> u8
    requires { (w ≤ 8) × (p < 65536) }
    ensures { result ≡ at (bits b.now) p w }
{
    format::field(b, p, w) as u8
}

pub(crate) fn type_in(b: &[u8]) -> u8
    ensures { result ≡ type_in b.now }
{
    small(b, 0, 5)
}

pub(crate) fn codes_count(b: &[u8]) -> usize
    ensures { (result ≡ codes_in b.now) × (result < 256) }
{
    usize::from(small(b, 16, 8))
}

pub(crate) fn kind(b: &[u8]) -> Kind
    ensures { result ≡ kind_in b.now }
{
    packet::kind_of(type_in(b))
}

// ---- sizes and count of the content
// How often the row stands in a content of m bytes whose count, if it has one, stands at bit p.
pub(crate) fn count_at(counting: Counting, b: &[u8], p: usize, m: usize) -> usize
    requires { p < 65536 }
    ensures { result ≡ count_by counting (at (bits b.now) p 8) m }
{
    match counting {
        Counting::Counted => usize::from(small(b, p, 8)),
        Counting::Raw => m,
        Counting::Fixed | Counting::Unknown => 0,
    }
}

// The bytes of the content.
pub(crate) fn content_size(b: &[u8]) -> usize
    ensures { result ≡ content_size b.now }
{
    b.len()
        .saturating_sub(77)
        .saturating_sub(12 * codes_count(b))
}

pub(crate) fn count(b: &[u8]) -> usize
    ensures { result ≡ count_of b.now }
{
    let f = kind(b);
    let at = 16 + 96 * codes_count(b) + table::sizes_of(f).lead;
    count_at(table::row_of(f).counting, b, at, content_size(b))
}

// The bytes of the text: as many as its length says, whatever they are.
pub(crate) fn text_length(b: &[u8]) -> usize
    ensures { result ≡ count_of b.now }
{
    let whole = count(b);
    whole
}

pub(crate) fn lead(b: &[u8]) -> usize
    ensures { (result ≡ part_at (row_of (kind_in b.now))) × (result ≤ 160) }
{
    table::sizes_of(kind(b)).lead
}

// As many bytes as the content has, and none where it has entries.
pub(crate) fn bytes_count(b: &[u8]) -> usize
    ensures { result ≡ cond (has_entries (kind_in b.now)) 0 (count_of b.now) }
{
    if table::has_entries(kind(b)) {
        0
    } else {
        count(b)
    }
}

// n bytes of the content, behind what stands before the row.
pub(crate) fn behind_lead(b: &[u8], n: usize) -> &[u8]
    requires { (3 + 12 * codes_in b.now + part_at (row_of (kind_in b.now)) / 8 + n ≤ length b.now) × (length b.now ≤ 250) }
    ensures { result.now ≡ take n (drop (3 + 12 * codes_in b.now + part_at (row_of (kind_in b.now)) / 8) b.now) }
{
    let from = 3 + 12 * codes_count(b) + lead(b) / 8;
    &b[from..from + n]
}

// ---- the codes
// n of them, reserved bits and 23 digits each; what they are due.
pub(crate) fn take_codes(b: &[u8], n: usize, out: &mut [u8]) -> u8
    requires { (n ≤ 14) × (3 + 12 * n ≤ length b.now) × (length out.old ≡ 322) }
    ensures { (out.new ≡ sets out.old 0 (numbers_at (times n code) b.now 24)) × Judged (λ (a : ℕ). fine a (times n code) (decode (times n code) (bits b.now) 24)) result }
{
    let mut ones = true;
    let mut good = true;
    for j in 0..n {
        ones &= b[3 + 12 * j] >= 240;
        good &= columns::take_digits(b, 15 + 12 * j, 23, out, 23 * j);
    }
    if !ones {
        24
    } else if !good {
        25
    } else {
        255
    }
}

// ---- the content
// What a packet's heading says: its kind, with row and sizes, how many codes it has, and how often its row stands.
#[derive(Clone, Copy)]
pub(crate) struct Heading {
    pub(crate) kind: Kind,
    pub(crate) row: RowLines,
    pub(crate) sizes: Sizes,
    pub(crate) codes: usize,
    pub(crate) count: usize,
}

// What the lines of a content are due, and the content.
#[derive(Clone, Copy)]
pub(crate) struct Held {
    pub(crate) due: u8,
    pub(crate) content: Content,
}

// The lines behind the first own ones.
fn beside(before: Lines, own: usize) -> Lines
    requires { (own ≤ before.m) × Stands before }
    ensures { result ≡ record { from = before.from + own; m = before.m - own; bits = before.bits; numbers = before.numbers } }
{
    Lines {
        from: before.from + own,
        m: before.m - own,
        ..before
    }
}

// The entries of a kind that has some, k of them from bit p on.
fn take_entries(each: Lines, k: usize, b: &[u8], p: usize, out: &mut [u8]) -> u8
    requires { Entries each k (length b.now) p (length out.old) }
    ensures { (out.new ≡ sets out.old 0 (cond (ltb 1 each.m) (numbers_at (times k (lines_in each)) b.now p) [])) × Judged (λ (a : ℕ). fine a (times k (lines_in each)) (decode (times k (lines_in each)) (bits b.now) p)) result }
{
    if 1 < each.m {
        columns::take_rows(each, k, b, p, out, 0)
    } else {
        255
    }
}

// A content from bit q on, the digits beside it, and its entries.
pub(crate) fn take_content(
    h: Heading,
    b: &[u8],
    q: usize,
    digits: &mut [u8],
    entries: &mut [u8],
) -> Held
    requires { Holding h.kind h.row h.sizes h.count (length b.now) q digits.old entries.old }
    ensures { (result.content ≡ content_of h.kind (numbers_at (row_of h.kind).before b.now q) h.count) × Judged (λ (a : ℕ). fine a (content_lines (row_of h.kind) h.count) (decode (content_lines (row_of h.kind) h.count) (bits b.now) q)) result.due × Beside h.kind h.count b.now q digits.new entries.new }
{
    let mut numbers = [0; 6];
    let own = columns::take_own(h.row.before.from, h.row.own, b, q, &mut numbers);
    let first = columns::take_rows(beside(h.row.before, h.row.own), 1, b, own.place, digits, 0);
    let p = q + h.sizes.lead;
    let rows = take_entries(h.row.each, h.count, b, p, entries);
    let behind = p + h.count * h.sizes.each;
    let last = columns::take_rows(
        h.row.after,
        1,
        b,
        behind,
        digits,
        h.sizes.first - own.numbers,
    );
    let content = packet::named(h.kind, &numbers, h.count);
    Held {
        due: own.due.min(first).min(rows.min(last)),
        content,
    }
}

// ---- what follows the content
// Four bytes at once: they are known to be there.
pub(crate) fn time(b: &[u8]) -> u32
    requires { 74 ≤ length b.now }
    ensures { result ≡ at (bits b.now) (8 * (length b.now - 74)) 32 }
{
    let k = b.len() - 74;
    u32::from_be_bytes([b[k], b[k + 1], b[k + 2], b[k + 3]])
}

pub(crate) fn signature(b: &[u8]) -> [u8; 64]
    requires { (64 ≤ length b.now) × (length b.now ≤ 250) }
    ensures { result ≡ run (bits b.now) (8 * (length b.now - 64)) 64 8 }
{
    let mut d = [0; 64];
    d.copy_from_slice(&b[b.len() - 64..]);
    d
}
