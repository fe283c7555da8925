// What is wrong with a packet: the answers 20, 23, 26, 24, 25 and 27, in that order.
ghost use Rattle.std.specs.Prelude.{◌≡◌, true, not, cond, min, ◌+◌, ◌*◌, ◌<◌, ◌≤◌, eqb};
ghost use Rattle.packet.specs.Reading.{unknown_by, size_bad};
ghost use Rattle.refusal.specs.Refusal.{number_of, answer_of};
ghost use Rattle.reader.specs.Due.{asked, answer_by};

use crate::parts;
use packet::{Counting, Sizes};
use refusal::Refusal;

// 20: not 77 to 250 bytes, or not the length field and 2, or under 77 and 12 a code.
pub(crate) fn size_bad(b: &[u8]) -> bool
    ensures { result ≡ size_bad b.now }
{
    let p = b.len();
    if p < 77 || p > 250 || p != size::packet_size(b) {
        return true;
    }
    p < 77 + 12 * parts::codes_count(b)
}

// 23: neither opened nor carried.
pub(crate) fn unknown(counting: Counting) -> bool
    ensures { result ≡ unknown_by counting }
{
    matches!(counting, Counting::Unknown)
}

// 26: the lines of a content whose row stands k times are not as long as its m bytes.
pub(crate) fn length_bad(z: Sizes, k: usize, m: usize) -> bool
    requires { (z.lead ≤ 160) × (z.each ≤ 40) × (z.rest ≤ 96) × (k < 256) × (m < 256) }
    ensures { result ≡ not (eqb (z.lead + k * z.each + z.rest) (8 * m)) }
{
    z.lead + k * z.each + z.rest != 8 * m
}

// 25: digits that are none; 255 where they all are.
fn digits_due(good: bool) -> u8
    ensures { result ≡ cond good 255 25 }
{
    if good { 255 } else { 25 }
}

// The refusal of a number that lines are due.
fn refusal_of(due: u8) -> Refusal
    requires { asked due ≡ true }
    ensures { number_of result ≡ due }
{
    match due {
        24 => Refusal::ReservedBit,
        25 => Refusal::Digit,
        _ => Refusal::Range,
    }
}

// And then 24, 25 or 27: what the lines of codes, certificate number and content are due, and the day.
pub(crate) fn lines_answer(
    codes: u8,
    certificate: bool,
    content: u8,
    day: bool,
) -> Result<(), Refusal>
    requires { min (min codes (cond certificate 255 25)) content < 255 → asked (min (min codes (cond certificate 255 25)) content) ≡ true }
    ensures { answer_of result ≡ answer_by (min (min codes (cond certificate 255 25)) content) day }
{
    let due = codes.min(digits_due(certificate)).min(content);
    if due != 255 {
        return Err(refusal_of(due));
    }
    if day {
        return Err(Refusal::Range);
    }
    Ok(())
}
