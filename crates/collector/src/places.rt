// One place: its pair, its marks, its bytes, and what it is by them.
ghost use Rattle.std.specs.Prelude.{◌≡◌, true, false, cond, ◌++◌, ◌+◌, ◌*◌, ◌<◌, ◌≤◌, ◌^◌, length, get_or, take, drop};
ghost use Rattle.laws.specs.Refusals.{first};
ghost use Rattle.collector.specs.Whole.{passes};
ghost use Rattle.collector.specs.Places.{Small, free, is_pair, same_pair, with_mark, marks_below, complete, fair, same_four, against, against_told, stored, cleared, taken_for, freed, joined, whole, state, kept_number, copy_cases, copy_told, copy_answer, copy_bytes};
ghost use Rattle.collector.specs.Layout.{marks_of, top_clear, as_place, from_place};

use crate::{Heading, Holding, Kept, Number, Piece, Refusal, Total, whole};

// What a place has against a frame of its pair.
#[derive(Clone, Copy)]
pub(crate) enum Against {
    // The frame is new to it.
    Nothing,
    // The place holds it already.
    Same,
    // The frame contradicts it.
    Contradicted,
}

// A place that was never taken.
pub(crate) fn never_taken() -> Holding
    ensures { result ≡ from_place free }
{
    Holding {
        held: false,
        level: 0,
        version: 0,
        total: Total(0),
        marks: 0,
        bytes: [0; 252],
    }
}

// Whether the place is held for this level and version.
pub(crate) fn is_pair(p: Holding, level: u8, version: u8) -> bool
    ensures { result ≡ is_pair level version (as_place p) }
{
    p.held && p.level == level && p.version == version
}

pub(crate) fn same_pair(p: Holding, q: Holding) -> bool
    ensures { result ≡ same_pair (as_place p) (as_place q) }
{
    p.held && is_pair(q, p.level, p.version)
}

// Whether the top bit of the marks is 0, as it always should be.
pub(crate) fn is_clear(p: Holding) -> bool
    ensures { result ≡ top_clear p }
{
    p.marks < 0x8000_0000_0000_0000
}

// Marks are read here alone: bit k is the mark of number k.
fn is_marked(marks: u64, number: Number) -> bool
    requires { number.0 < 63 }
    ensures { result ≡ get_or (marks_of marks) number.0 false }
{
    (marks >> number.0) & 1 == 1
}

// Marks are set here alone.
fn with_mark(marks: u64, number: Number) -> u64
    requires { (number.0 < 63) × (marks < 2 ^ 63) }
    ensures result_value { marks_of result ≡ with_mark (marks_of marks) number }
    ensures top { result < 2 ^ 63 }
{
    marks | (1 << number.0)
}

// No number is marked that is not below the total.
fn marks_below(p: Holding) -> bool
    requires { (top_clear p ≡ true) × (p.total.0 ≤ 63) }
    ensures { result ≡ marks_below (as_place p) }
{
    p.marks >> p.total.0 == 0
}

// Every number below the total is held: one comparison of the marks.
fn is_complete(p: Holding) -> bool
    ensures { result ≡ complete (as_place p) }
{
    if p.total.0 > 63 {
        return false;
    }
    let all = (1 << p.total.0) - 1;
    p.marks & all == all
}

// Whether a held place has level, version and total in range, and marks below its total only.
#[tactic(auto, unfolding(crate::specs::Places::fair))]
pub(crate) fn is_fair(p: Holding) -> bool
    requires { top_clear p ≡ true }
    ensures { result ≡ fair (as_place p) }
{
    !p.held
        || ((1..=6).contains(&p.level)
            && p.version <= 31
            && (1..=63).contains(&p.total.0)
            && marks_below(p))
}

// Whether the four bytes at the frame's number are the frame's.
fn same_four(p: Holding, x: Piece) -> bool
    requires { Small x }
    ensures { result ≡ same_four (as_place p) x }
{
    let n = x.heading.number;
    let at = usize::from(n.0) * 4;
    p.bytes[at] == x.a && p.bytes[at + 1] == x.b && p.bytes[at + 2] == x.c && p.bytes[at + 3] == x.d
}

// The place zeroed, with no mark, and with the frame's total.
#[tactic(auto, unfolding(crate::specs::Layout::number_of))]
fn clear(mut p: Holding, x: Piece) -> Holding
    ensures { result ≡ from_place (cleared (as_place p) x) }
{
    p.total = x.heading.total;
    p.marks = 0;
    p.bytes = [0; 252];
    p
}

// The place cleared and taken for the frame's pair, whatever it was.
#[tactic(auto, unfolding(crate::specs::Places::taken_for, crate::specs::Layout::number_of))]
pub(crate) fn take(p: Holding, x: Piece) -> Holding
    ensures { result ≡ from_place (taken_for x) }
{
    let Heading { level, version, .. } = x.heading;
    let q = Holding {
        held: true,
        level,
        version,
        ..p
    };
    clear(q, x)
}

// The place with the frame's mark and its four bytes.
#[tactic(auto, unfolding(crate::specs::Places::stored))]
pub(crate) fn store(p: Holding, x: Piece) -> Holding
    requires { (Small x) × (top_clear p ≡ true) }
    ensures result_value { as_place result ≡ stored (as_place p) x }
    ensures top { top_clear result ≡ true }
{
    let n = x.heading.number;
    let at = usize::from(n.0) * 4;
    let mut q = Holding {
        marks: with_mark(p.marks, n),
        ..p
    };
    q.bytes[at] = x.a;
    q.bytes[at + 1] = x.b;
    q.bytes[at + 2] = x.c;
    q.bytes[at + 3] = x.d;
    q
}

// The place made free, bytes and marks as they were.
#[tactic(auto, unfolding(crate::specs::Places::freed))]
pub(crate) fn make_free(p: Holding) -> Holding
    ensures result_value { as_place result ≡ freed (as_place p) }
    ensures top { result.marks ≡ p.marks }
{
    Holding { held: false, ..p }
}

// Whether the bytes joined, four for each number below the total, are a whole packet.
fn joined_passes(p: Holding) -> bool
    ensures { result ≡ passes (joined (as_place p)) }
{
    let n = usize::from(p.total.0) * 4;
    whole::is_whole(&p.bytes[..n.min(252)])
}

// Missing, whole or spoiled, by the marks and the bytes.
pub(crate) fn state_of(p: Holding) -> Kept
    ensures { kept_number result ≡ state (as_place p) }
{
    if !is_complete(p) {
        return Kept::Missing;
    }
    if joined_passes(p) {
        Kept::Whole
    } else {
        Kept::Spoiled
    }
}

// Of a contradicted place: 15 where it is whole; another begins again.
fn contradiction(p: Holding) -> Result<Against, Refusal>
    ensures { against_told result ≡ cond (whole (as_place p)) 15 3 }
{
    if state_of(p) == Kept::Whole {
        return Err(Refusal::Contradiction);
    }
    Ok(Against::Contradicted)
}

// What the place has against the frame: 15 where it is whole and contradicted.
pub(crate) fn held_against(p: Holding, x: Piece) -> Result<Against, Refusal>
    requires { Small x }
    ensures { against_told result ≡ against (as_place p) x }
{
    if p.total.0 != x.heading.total.0 {
        return contradiction(p);
    }
    if !is_marked(p.marks, x.heading.number) {
        return Ok(Against::Nothing);
    }
    if same_four(p, x) {
        return Ok(Against::Same);
    }
    contradiction(p)
}

// Writes the first n bytes of the place to the start of `out`.
fn write_out(p: Holding, n: usize, out: &mut [u8])
    requires { (n ≤ 252) × (n ≤ length out.old) }
    ensures { out.new ≡ take n p.bytes ++ drop n out.old }
{
    out[..n].copy_from_slice(&p.bytes[..n]);
}

// Copies the packet of a held place to the start of `out`: 18 where it isn't whole, 10 where `out` is too short.
pub(crate) fn copy_out(p: Holding, out: &mut [u8]) -> Result<usize, Refusal>
    requires { (p.held ≡ true) × (p.total.0 ≤ 63) }
    ensures value { copy_told result ≡ copy_answer (first (copy_cases (as_place p) (length out.old))) (as_place p) }
    ensures bytes { out.new ≡ copy_bytes (first (copy_cases (as_place p) (length out.old))) (as_place p) out.old }
{
    if state_of(p) != Kept::Whole {
        return Err(Refusal::Unheld);
    }
    let n = size::packet_size(&p.bytes);
    if out.len() < n {
        return Err(Refusal::Room);
    }
    write_out(p, n, out);
    Ok(n)
}
