// What is wrong with fields: the answers 23, 26, 25, 27, 20 and 10, in that order.
ghost use Rattle.std.specs.Prelude.{◌≡◌, not, cond, ◌&&◌, true, false, ◌+◌, ◌*◌, ◌≤◌, drop, leb, ltb, eqb, ◌⊎◌};
ghost use Rattle.laws.specs.Refusals.{first};
ghost use Rattle.format.specs.Format.{inside, need};
ghost use Rattle.packet.specs.Content.{kind_for, no_such_day};
ghost use Rattle.packet.specs.Reading.{has_entries};
ghost use Rattle.packet.specs.Writing.{row_for, size_for, lent_bad, body_lost, digits_lost, count_bad, digit_bad, not_taken, write_cases, told, written_by, written};
ghost use Rattle.writer.specs.Parts.{Lent, Counts, bytes_of, something_lost, own_fine, rows_fine};
ghost use Rattle.writer.specs.Puts.{count_lent};

use crate::{columns, content, fits, puts};
use packet::{Content, Counting, Fields};
use refusal::Refusal;

// Each is at most hi: the greatest is.
fn all_most(xs: &[u8], hi: u8) -> bool
    ensures { result ≡ inside 0 hi xs.now }
{
    // Not `all`, which leaves early and so takes byte by byte.
    xs.iter().fold(0, |most: u8, x| most.max(*x)) <= hi
}

// The content's own numbers are in their ranges.
fn own_fine(c: Content) -> bool
    ensures { result ≡ own_fine c }
{
    let l = packet::lay(c);
    let s = table::row_of(l.kind);
    let own = puts::lines_at(s.before.from, s.own);
    fits::lines_fit(27, own, &l.numbers)
}

// What is repeated: entries are tested, bytes are not.
fn body_fine(answer: u8, c: Content, body: &[u8]) -> bool
    requires { ((answer ≡ 25) ⊎ (answer ≡ 27)) × (has_entries (kind_for c) ≡ true → Lent c body.now) }
    ensures { result ≡ rows_fine answer c body.now }
{
    let f = content::kind_for(c);
    if table::has_entries(f) {
        let s = table::row_of(f);
        let k = content::count_for(c, body.len());
        columns::rows_fit(answer, s.each, k, body)
    } else {
        true
    }
}

// No digit is above 9, in codes, certificate, entries or beside the content.
fn digits_fine(f: Fields, codes: &[u8], body: &[u8]) -> bool
    requires { Counts f codes.now body.now × (has_entries (kind_for f.content) ≡ true → Lent f.content body.now) }
    ensures { result ≡ not (digit_bad f codes.now body.now) }
{
    // In two parts: a loop of a known length is written out, and takes the array apart.
    let used = content::digits_used(f.content);
    all_most(&f.digits[..used], 9)
        && all_most(&f.digits[used..], 9)
        && all_most(codes, 9)
        && all_most(&f.certificate, 9)
        && body_fine(25, f.content, body)
}

// The other digits are 0: what is not used could not be handed back.
fn digits_kept(c: Content, digits: [u8; 35]) -> bool
    ensures { result ≡ not (digits_lost c digits) }
{
    let used = content::digits_used(c);
    all_most(&digits[used..], 0)
}

// A body for a content that has none.
fn body_lost(c: Content, lent: usize) -> bool
    ensures { result ≡ body_lost (row_for c).counting lent }
{
    let s = table::row_of(content::kind_for(c));
    matches!(s.counting, Counting::Fixed) && lent != 0
}

// A count above 255, or rows of w numbers that are not all that is lent.
fn rows_bad(k: usize, w: usize, lent: usize) -> bool
    requires { w ≤ 8 }
    ensures { result ≡ not (leb k 255 && eqb lent (k * w)) }
{
    k > 255 || lent != k * w
}

// A count that is wrong for what is lent.
fn lent_bad(c: Content, lent: usize) -> bool
    ensures { result ≡ lent_bad (row_for c).counting (count_lent c lent) (need (row_for c).each) lent }
{
    let f = content::kind_for(c);
    let k = content::count_for(c, lent);
    let z = table::sizes_of(f);
    let s = table::row_of(f);
    matches!(s.counting, Counting::Counted) && rows_bad(k, z.row, lent)
}

// n, k, m or t is above 255, or not that of what is lent.
fn counts_bad(f: Fields, codes: &[u8], body: &[u8]) -> bool
    ensures { result ≡ count_bad f codes.now body.now }
{
    f.codes > 255 || codes.len() != f.codes * 23 || lent_bad(f.content, body.len())
}

// Codes for type 1, whose receivers ignore them.
fn codes_lost(kind: u8, codes: usize) -> bool
    ensures { result ≡ (eqb kind 1 && not (eqb codes 0)) }
{
    kind == 1 && codes != 0
}

// Content of the type named, with nothing beside it that could not be handed back.
fn nothing_lost(f: Fields, body: &[u8]) -> bool
    ensures { result ≡ not (something_lost f body.now) }
{
    packet::type_of(packet::kind_of(f.typenumber)) == packet::type_of(content::kind_for(f.content))
        && !body_lost(f.content, body.len())
        && digits_kept(f.content, f.digits)
        && !codes_lost(f.typenumber, f.codes)
}

// Every number is in its range, and the day is one that its month has.
fn numbers_fine(c: Content, body: &[u8]) -> bool
    requires { has_entries (kind_for c) ≡ true → Lent c body.now }
    ensures { result ≡ ((own_fine c && rows_fine 27 c body.now) && not (no_such_day c)) }
{
    own_fine(c) && body_fine(27, c, body) && !packet::no_such_day(c)
}

// All that answer 27 asks.
fn content_taken(f: Fields, codes: &[u8], body: &[u8]) -> bool
    requires { Counts f codes.now body.now × (has_entries (kind_for f.content) ≡ true → Lent f.content body.now) }
    ensures { result ≡ not (not_taken f codes.now body.now) }
{
    nothing_lost(f, body) && numbers_fine(f.content, body)
}

// The size of the packet; 251, above any packet's, where a raw body is longer still.
fn size_of(f: Fields, lent: usize) -> usize
    requires { f.codes ≤ 255 }
    ensures { result ≡ cond (ltb 1000 (count_lent f.content lent)) 251 (77 + 12 * f.codes + bytes_of f.content lent) }
{
    let k = content::count_for(f.content, lent);
    if k > 1000 {
        return 251;
    }
    let z = table::sizes_of(content::kind_for(f.content));
    77 + 12 * f.codes + (z.lead + k * z.each + z.rest) / 8
}

// What fields whose counts are right are due: 25, 27, 20 or 10, else their packet's size.
fn rest_answer(f: Fields, codes: &[u8], body: &[u8], room: usize) -> Result<usize, Refusal>
    requires { count_bad f codes.now body.now ≡ false }
    ensures { told result ≡ written_by (first (drop 2 (write_cases f codes.now body.now room))) (size_for f body.now) }
{
    if !digits_fine(f, codes, body) {
        return Err(Refusal::Digit);
    }
    if !content_taken(f, codes, body) {
        return Err(Refusal::Range);
    }
    let size = size_of(f, body.len());
    if size > 250 {
        return Err(Refusal::PacketSize);
    }
    if room < size {
        return Err(Refusal::Room);
    }
    Ok(size)
}

// The writer's answer: the size of what is to be written, or why nothing is.
pub(crate) fn judged(f: Fields, codes: &[u8], body: &[u8], room: usize) -> Result<usize, Refusal>
    ensures { told result ≡ written f codes.now body.now room }
{
    if table::not_written(f.typenumber) {
        return Err(Refusal::Type);
    }
    if counts_bad(f, codes, body) {
        return Err(Refusal::Length);
    }
    rest_answer(f, codes, body, room)
}
