// Two shelves compared: a line for each record that differs or that only one has, and a last line with their number.
#![tactic(auto)]

ghost use Rattle.std.specs.Prelude.{Some, ◌≡◌, [], ◌∷◌, ◌+◌, ◌*◌, ◌<◌, ◌≤◌, length, MatchOption};
ghost use Rattle.std.proofs.lemmas.List.Edits.{sets};
ghost use Rattle.compare.specs.Differences.{differs, only, first_byte, of_both, of_record, below, longer};
ghost use Rattle.compare.specs.Texts.{phrase, text_of, Further};
ghost use Rattle.compare.specs.Compare.{told, no_room, unlisted_text, compared, room_refused, compared_into};

use refusal::Refusal;
use std::error::Error;
use std::fmt;

// Why two shelves aren't compared.
#[derive(Clone, Copy, Debug, PartialEq, Eq)]
pub enum Unlisted {
    // The left shelf is refused.
    Left(Refusal),
    // The right shelf is refused.
    Right(Refusal),
    // The lent output is too short.
    Room,
}

// The number and the file's name; too short an output is told as left's.
impl fmt::Display for Unlisted {
    ghost output = { λ unlisted. Some (unlisted_text unlisted) };

    fn fmt<W: fmt::Write>(&self, f: &mut fmt::Formatter<W>) -> fmt::Result {
        match self {
            Unlisted::Left(refusal) => write!(f, "{refusal} left"),
            Unlisted::Right(refusal) => write!(f, "{refusal} right"),
            Unlisted::Room => write!(f, "{} left", Refusal::Room),
        }
    }
}

impl Error for Unlisted {}

// How far the list has come: the byte behind its last line, and how many lines it has.
#[derive(Clone, Copy)]
struct Listing {
    at: usize,
    lines: usize,
}

// The first byte that differs, if one does.
fn first_byte(a: &[u8], b: &[u8]) -> Option<usize>
    requires { (length a.now ≡ 256) × (length b.now ≡ 256) }
    ensures { let at = first_byte a.now b.now in MatchOption result (at ≡ 256) (λ i. (i ≡ at) × (i < 256)) }
{
    for i in 0..256 {
        if a[i] != b[i] {
            return Some(i);
        }
    }
    None
}

// Writes words from a byte on; the byte behind them.
fn put_words(words: &[u8], at: usize, out: &mut [u8]) -> usize
    requires { at + length words.now ≤ length out.old }
    ensures { (result ≡ at + length words.now) × (out.new ≡ sets out.old at words.now) }
{
    let end = at + words.len();
    out[at..end].copy_from_slice(words);
    end
}

// Writes words, a number and words from a byte on; the byte behind them.
fn put_phrase(words: &[u8], n: usize, ending: &[u8], at: usize, out: &mut [u8]) -> usize
    requires { at + length words.now + 20 + length ending.now ≤ length out.old }
    ensures { (result ≡ at + length (phrase words.now n ending.now)) × (out.new ≡ sets out.old at (phrase words.now n ending.now)) }
{
    let from = put_words(words, at, out);
    let digits = print::number(n as u64, &mut out[from..]);
    put_words(ending, from + digits, out)
}

// Writes the line of a record that both have; the byte behind it.
fn put_differs(n: usize, byte: usize, x: u8, y: u8, at: usize, out: &mut [u8]) -> usize
    requires { at + 60 ≤ length out.old }
    ensures { (result ≡ at + length (text_of (differs n byte x y))) × (out.new ≡ sets out.old at (text_of (differs n byte x y))) }
{
    let a = print::hex_of(x);
    let b = print::hex_of(y);
    let from = put_phrase(b"record ", n, b" byte ", at, out);
    put_phrase(b"", byte, &[32, a[0], a[1], 32, b[0], b[1], 10], from, out)
}

// Writes the line of a record that only one shelf has; the byte behind it.
fn put_only(right: bool, n: usize, at: usize, out: &mut [u8]) -> usize
    requires { at + 60 ≤ length out.old }
    ensures { (result ≡ at + length (text_of (only right n))) × (out.new ≡ sets out.old at (text_of (only right n))) }
{
    if right {
        return put_phrase(b"record ", n, b" only right\n", at, out);
    }
    put_phrase(b"record ", n, b" only left\n", at, out)
}

// Goes on with a record that both have.
fn put_both(n: usize, a: &[u8], b: &[u8], so: Listing, out: &mut [u8]) -> Listing
    requires { (length a.now ≡ 256) × (length b.now ≡ 256) × (so.at + 60 ≤ length out.old) × (so.lines ≤ 4096) }
    ensures { Further so.at so.lines out.old (of_both n a.now b.now) result.at result.lines out.new }
{
    match first_byte(a, b) {
        Some(k) => Listing {
            at: put_differs(n, k, a[k], b[k], so.at, out),
            lines: so.lines + 1,
        },
        None => so,
    }
}

// Goes on with a record that only one shelf has.
fn put_one(right: bool, n: usize, so: Listing, out: &mut [u8]) -> Listing
    requires { (so.at + 60 ≤ length out.old) × (so.lines ≤ 4096) }
    ensures { Further so.at so.lines out.old (only right n ∷ []) result.at result.lines out.new }
{
    Listing {
        at: put_only(right, n, so.at, out),
        lines: so.lines + 1,
    }
}

// Goes on with record n.
fn put_record(left: &[u8], right: &[u8], n: usize, so: Listing, out: &mut [u8]) -> Listing
    requires { (n ≤ 4096) × (so.at + 60 ≤ length out.old) × (so.lines ≤ 4096) }
    ensures { Further so.at so.lines out.old (of_record left.now right.now n) result.at result.lines out.new }
{
    if left.len() / 256 <= n {
        return put_one(true, n, so, out);
    }
    if right.len() / 256 <= n {
        return put_one(false, n, so, out);
    }
    put_both(
        n,
        octets::part(left, 256 * n, 256),
        octets::part(right, 256 * n, 256),
        so,
        out,
    )
}

// The lines of the records below n, from the output's start.
fn put_below(left: &[u8], right: &[u8], n: usize, out: &mut [u8]) -> Listing
    requires { (n ≤ 4096) × (262144 ≤ length out.old) }
    ensures { (result.at ≤ 60 * n) × (result.lines ≤ n) × Further 0 0 out.old (below left.now right.now n) result.at result.lines out.new }
{
    let mut so = Listing { at: 0, lines: 0 };
    for i in 0..n {
        so = put_record(left, right, i, so, out);
    }
    so
}

// How many records the longer shelf has.
#[tactic(auto, unfolding(crate::specs::Differences::longer))]
fn longer(left: &[u8], right: &[u8]) -> usize
    ensures { result ≡ longer left.now right.now }
{
    (left.len() / 256).max(right.len() / 256)
}

// Writes what two shelves differ in, at the output's start: 34 or 35 for left, then for right, then 10 where it is refused.
pub fn list(left: &[u8], right: &[u8], out: &mut [u8]) -> Result<usize, Unlisted>
    ensures answer { told result ≡ compared left.now right.now out.old }
    ensures room { no_room result ≡ room_refused left.now right.now out.old }
    ensures output { out.new ≡ compared_into left.now right.now out.old }
{
    shelf::judge(left).map_err(Unlisted::Left)?;
    shelf::judge(right).map_err(Unlisted::Right)?;
    if out.len() < 262144 {
        return Err(Unlisted::Room);
    }
    let so = put_below(left, right, longer(left, right), out);
    Ok(put_phrase(b"differences ", so.lines, b"\n", so.at, out))
}
