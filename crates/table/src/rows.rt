// Lines, and rows of them, as the table of contents is written: a function for each word of the table language, `format:Format`.
ghost use Rattle.std.specs.Prelude.{◌≡◌, ◌+◌, ◌-◌, ◌^◌, ◌≤◌};
ghost use Rattle.format.specs.Format.{num, only, any, ones, digits, octets};
ghost use Rattle.packet.specs.declared.Counting.TheVariants as counting;

use format::Line;
use packet::{Counting, Lines, RowLines};

// A number of w bits, lo to hi.
pub(crate) fn a_num(w: usize, lo: u32, hi: u32) -> Line
    ensures { result ≡ num w lo hi }
{
    Line {
        count: 1,
        width: w,
        lo,
        hi,
        answer: 27,
        given: true,
    }
}

// A number of w bits that is always x.
pub(crate) fn an_only(w: usize, x: u32) -> Line
    ensures { result ≡ only w x }
{
    Line {
        count: 1,
        width: w,
        lo: x,
        hi: x,
        answer: 27,
        given: false,
    }
}

// Any number of w bits, whose greatest is x.
pub(crate) fn an_any(w: usize, x: u32) -> Line
    requires { x ≡ 2 ^ w - 1 }
    ensures { result ≡ any w }
{
    Line {
        count: 1,
        width: w,
        lo: 0,
        hi: x,
        answer: 0,
        given: true,
    }
}

// w reserved bits, all 1, which are the number x.
pub(crate) fn a_ones(w: usize, x: u32) -> Line
    requires { x ≡ 2 ^ w - 1 }
    ensures { result ≡ ones w }
{
    Line {
        count: 1,
        width: w,
        lo: x,
        hi: x,
        answer: 24,
        given: false,
    }
}

// n digits.
pub(crate) fn a_digits(n: usize) -> Line
    ensures { result ≡ digits n }
{
    Line {
        count: n,
        width: 4,
        lo: 0,
        hi: 9,
        answer: 25,
        given: true,
    }
}

// n bytes that mean nothing to us.
pub(crate) fn an_octets(n: usize) -> Line
    ensures { result ≡ octets n }
{
    Line {
        count: n,
        width: 8,
        lo: 0,
        hi: 255,
        answer: 0,
        given: true,
    }
}

// m lines from the from-th on.
pub(crate) fn span(from: usize, m: usize, bits: usize, numbers: usize) -> Lines
    ensures { result ≡ record { from = from; m = m; bits = bits; numbers = numbers } }
{
    Lines {
        from,
        m,
        bits,
        numbers,
    }
}

// Lines, a row that is repeated, lines; the first own of them hold the content's own numbers.
pub(crate) fn a_row(
    counting: Counting,
    own: usize,
    before: Lines,
    each: Lines,
    after: Lines,
) -> RowLines
    ensures { result ≡ record { counting = counting; own = own; before = before; each = each; after = after } }
{
    RowLines {
        counting,
        own,
        before,
        each,
        after,
    }
}

// A content of lines alone.
pub(crate) fn fixed_row(own: usize, from: usize, m: usize, bits: usize, numbers: usize) -> RowLines
    requires { from + m ≤ 1000 }
    ensures { result ≡ record { counting = counting.Fixed; own = own; before = record { from = from; m = m; bits = bits; numbers = numbers }; each = record { from = from + m; m = 0; bits = 0; numbers = 0 }; after = record { from = from + m; m = 0; bits = 0; numbers = 0 } } }
{
    let before = span(from, m, bits, numbers);
    let none = span(from + m, 0, 0, 0);
    a_row(Counting::Fixed, own, before, none, none)
}
