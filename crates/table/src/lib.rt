// The table of contents in code: every line of it, the row of each kind, and what is read off a row.
#![tactic(auto)]

mod rows;

ghost use Rattle.std.specs.Prelude.{◌≡◌, get_or};
ghost use Rattle.format.specs.Format.{octets};
ghost use Rattle.packet.specs.InCode.{every_line, row_at};
ghost use Rattle.packet.specs.Reading.{count_size, sizes_of, is_unknown, has_entries};
ghost use Rattle.packet.specs.Writing.{not_written};

use format::Line;
use packet::{Counting, Kind, RowLines, Sizes};

// Every line of the table of contents, kind by kind.
#[tactic(auto, unfolding(packet::specs::InCode::every_line, packet::specs::InCode::lines_of_each))]
pub fn line_at(i: usize) -> Line
    ensures { result ≡ get_or every_line i (octets 0) }
{
    match i {
        // Type 0, table 3.
        0 => rows::a_num(8, 1, 255),
        1 => rows::an_any(8, 255),
        2 => rows::a_digits(6),
        // Type 1, table 4.
        3 => rows::an_octets(1),
        4 => rows::a_ones(4, 15),
        5 => rows::a_digits(23),
        // Type 2, table 5.
        6 => rows::a_num(8, 0, 1),
        7 => rows::an_any(16, 65535),
        // Type 3, table 6.
        8 => rows::an_any(16, 65535),
        9 => rows::a_num(8, 1, 12),
        10 => rows::a_num(8, 1, 31),
        11 => rows::a_num(8, 0, 23),
        12 => rows::a_num(8, 0, 59),
        13 => rows::a_num(8, 0, 59),
        // Type 12, table 13.
        14 => rows::an_only(2, 1),
        15 => rows::a_num(2, 1, 2),
        16 => rows::a_ones(4, 15),
        17 => rows::a_digits(6),
        // Type 13, table 14.
        18 => rows::an_only(2, 1),
        19 => rows::a_ones(6, 63),
        // Type 14, table 15.
        20 => rows::an_only(4, 1),
        21 => rows::a_num(4, 1, 2),
        22 => rows::a_ones(4, 15),
        23 => rows::a_digits(35),
        // Type 15, table 16.
        24 => rows::a_num(4, 1, 3),
        25 => rows::a_num(4, 0, 4),
        26 => rows::a_ones(4, 15),
        27 => rows::a_digits(35),
        28 => rows::an_octets(1),
        // Type 21, table 18.
        29 => rows::an_any(8, 255),
        30 => rows::a_ones(8, 255),
        // Types 4 to 8, 11, 22 to 24, and 16, which old shelves still hold: bytes as they are.
        31 => rows::an_octets(1),
        _ => rows::an_octets(0),
    }
}

// The row of a kind in the table of contents: how many lines hold the content's own numbers, and where its
// lines stand, how many they are, their bits, their own numbers.
#[tactic(auto, unfolding(packet::specs::InCode::row_at, packet::specs::InCode::lines_up_to, packet::specs::InCode::lines_for, packet::specs::InCode::own_lines, format::specs::Format::size, format::specs::Format::need))]
pub fn row_of(f: Kind) -> RowLines
    ensures { result ≡ row_at f }
{
    match f {
        Kind::Frequencies => rows::a_row(
            Counting::Counted,
            0,
            rows::span(0, 0, 0, 0),
            rows::span(0, 3, 40, 8),
            rows::span(3, 0, 0, 0),
        ),
        Kind::Address => rows::a_row(
            Counting::Counted,
            0,
            rows::span(3, 0, 0, 0),
            rows::span(3, 1, 8, 1),
            rows::span(4, 2, 96, 23),
        ),
        Kind::Keep => rows::fixed_row(2, 6, 2, 24, 2),
        Kind::Clock => rows::fixed_row(6, 8, 6, 56, 6),
        Kind::Reset => rows::fixed_row(3, 14, 4, 32, 7),
        Kind::Factory => rows::fixed_row(0, 18, 2, 8, 0),
        Kind::Drill => rows::fixed_row(2, 20, 4, 152, 36),
        Kind::Text => rows::a_row(
            Counting::Counted,
            2,
            rows::span(24, 4, 152, 37),
            rows::span(28, 1, 8, 1),
            rows::span(29, 0, 0, 0),
        ),
        Kind::Hold => rows::fixed_row(1, 29, 2, 16, 1),
        Kind::Raw => rows::a_row(
            Counting::Raw,
            0,
            rows::span(31, 0, 0, 0),
            rows::span(31, 1, 8, 1),
            rows::span(32, 0, 0, 0),
        ),
        Kind::Unknown => rows::a_row(
            Counting::Unknown,
            0,
            rows::span(32, 0, 0, 0),
            rows::span(32, 0, 0, 0),
            rows::span(32, 0, 0, 0),
        ),
    }
}

// The bits of the count, where there is one.
fn count_bits(counting: Counting) -> usize
    ensures { result ≡ count_size counting }
{
    match counting {
        Counting::Counted => 8,
        Counting::Fixed | Counting::Raw | Counting::Unknown => 0,
    }
}

// The sizes of a kind's row.
pub fn sizes_of(f: Kind) -> Sizes
    ensures { result ≡ sizes_of f }
{
    let s = row_of(f);
    Sizes {
        lead: s.before.bits + count_bits(s.counting),
        each: s.each.bits,
        rest: s.after.bits,
        first: s.before.numbers,
        row: s.each.numbers,
        last: s.after.numbers,
    }
}

// A kind that is neither opened nor carried.
#[tactic(auto, unfolding(packet::specs::InCode::row_at))]
pub fn is_unknown(f: Kind) -> bool
    ensures { result ≡ is_unknown f }
{
    matches!(row_of(f).counting, Counting::Unknown)
}

// A type that a writer refuses: 16, which is only read since the licence ended, and what no reader takes.
pub fn not_written(t: u8) -> bool
    ensures { result ≡ not_written t }
{
    t == 16 || is_unknown(packet::kind_of(t))
}

// A kind with entries: each of its rows has several lines.
#[tactic(auto, unfolding(packet::specs::InCode::row_at))]
pub fn has_entries(f: Kind) -> bool
    ensures { result ≡ has_entries f }
{
    row_of(f).each.m > 1
}
