// A content put into bits: its numbers and digits, its count, its body.
ghost use Rattle.std.specs.Prelude.{◌≡◌, ◌+◌, ◌<◌, ◌≤◌, length};
ghost use Rattle.packet.specs.Content.{kind_for, count_for};
ghost use Rattle.packet.specs.InCode.{row_at, own_of, beside_of};
ghost use Rattle.format.specs.Format.{size};
ghost use Rattle.packet.specs.Writing.{row_for, digits_before, digits_after};
ghost use Rattle.writer.specs.Puts.{After, Known, count_lent};
ghost use Rattle.writer.specs.Parts.{own_bits, beside_bits, front_bits, front_size, body_bits, body_size, back_bits, content_bits, content_size, Lent};

use crate::{columns, puts};
use packet::{Content, Counting, Kind, Laid, Lines, RowLines};

// The kind of a content.
pub(crate) fn kind_for(c: Content) -> Kind
    ensures { result ≡ kind_for c }
{
    packet::lay(c).kind
}

// Its count, where a body of so many bytes is lent.
pub(crate) fn count_for(c: Content, lent: usize) -> usize
    ensures { result ≡ count_lent c lent }
{
    let l = packet::lay(c);
    let s = table::row_of(l.kind);
    match s.counting {
        Counting::Counted => l.count,
        Counting::Raw => lent,
        Counting::Fixed | Counting::Unknown => 0,
    }
}

// How many of the digits beside a content it uses.
pub(crate) fn digits_used(c: Content) -> usize
    ensures { (result ≡ digits_before c + digits_after c) × (result ≤ 35) }
{
    let l = packet::lay(c);
    let z = table::sizes_of(l.kind);
    z.first - l.n + z.last
}

// The lines of a content's own numbers.
fn put_own(out: &mut [u8], p: usize, c: Content, l: Laid, s: RowLines) -> usize
    requires { Known c l s × (p < 3000) }
    ensures { After out.old out.new p (own_bits c) result (size (own_of (kind_for c))) }
{
    let own = puts::lines_at(s.before.from, s.own);
    puts::put_lines(out, p, own, &l.numbers)
}

// Those of the digits beside it, which have so many bits.
fn put_beside(
    out: &mut [u8],
    p: usize,
    bits: usize,
    c: Content,
    l: Laid,
    s: RowLines,
    digits: &[u8],
) -> usize
    requires { Known c l s × (bits ≡ size (beside_of (kind_for c))) × (p < 4000) × (length digits.now ≡ 35) }
    ensures { After out.old out.new p (beside_bits c digits.now) result (size (beside_of (kind_for c))) }
{
    let numbers = s.before.numbers - l.n;
    let rest = Lines {
        from: s.before.from + s.own,
        m: s.before.m - s.own,
        bits,
        numbers,
    };
    columns::put_rows(out, p, rest, 1, &digits[..numbers])
}

// What stands before the repeated part: the first lines, and the count where there is one.
fn put_front(
    out: &mut [u8],
    p: usize,
    c: Content,
    l: Laid,
    s: RowLines,
    digits: &[u8],
    k: usize,
) -> usize
    requires { Known c l s × (k ≤ 255) × (p < 3000) × (length digits.now ≡ 35) }
    ensures { After out.old out.new p (front_bits c digits.now k) result (front_size c k) }
{
    let q = put_own(out, p, c, l, s);
    let e = put_beside(out, q, s.before.bits - (q - p), c, l, s, digits);
    puts::put_count(out, e, s.counting, k)
}

// The repeated part: entries, or bytes, of which most contents have none.
fn put_body(out: &mut [u8], p: usize, c: Content, s: RowLines, k: usize, body: &[u8]) -> usize
    requires { (s ≡ row_at (kind_for c)) × (k ≡ count_for c body.now) × Lent c body.now × (p < 3000) }
    ensures { After out.old out.new p (body_bits c body.now) result (body_size c body.now) }
{
    if 1 < s.each.m {
        columns::put_rows(out, p, s.each, k, body)
    } else {
        puts::put_octets(out, p, body)
    }
}

// What stands behind it, nothing in most contents.
fn put_back(out: &mut [u8], p: usize, c: Content, s: RowLines, digits: &[u8]) -> usize
    requires { (s ≡ row_at (kind_for c)) × (p < 30000) × (length digits.now ≡ 35) }
    ensures { After out.old out.new p (back_bits c digits.now) result (size (row_for c).after) }
{
    if s.after.m == 0 {
        return p;
    }
    columns::put_rows(out, p, s.after, 1, &digits[..s.after.numbers])
}

// A whole content from bit p on; the place behind it.
pub(crate) fn put_content(out: &mut [u8], p: usize, c: Content, digits: &[u8], body: &[u8]) -> usize
    requires { Lent c body.now × (p < 2000) × (length digits.now ≡ 35) }
    ensures { After out.old out.new p (content_bits c digits.now body.now) result (content_size c body.now) }
{
    let l = packet::lay(c);
    let s = table::row_of(l.kind);
    let k = count_for(c, body.len());
    let q = put_front(out, p, c, l, s, digits, k);
    let e = put_body(out, q, c, s, k, body);
    put_back(out, e, c, s, digits)
}
