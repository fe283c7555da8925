// The collector: frames in any order, with repeats, become packets; a pair is declared whole or spoiled once, and again only if a
// contradiction cleared it.
#![tactic(auto)]

ghost use Rattle.std.specs.Prelude.{◌≡◌, true, ◌&&◌, ◌<◌, length, MatchOption};
ghost use Rattle.laws.specs.Scan.{all};
ghost use Rattle.collector.specs.Places.{Small, pairs_apart, kept_number, copy_told};
ghost use Rattle.collector.specs.Collector.{good, index_of_pair, index_of_free, put, piece_with, kept, begun, taken_in};
ghost use Rattle.collector.specs.Layout.{top_clear, tops_clear, as_place, as_collector, as_offered, left_by, no_holdings, offer_told, offer_gives, release_told, release_gives, copy_gives, copy_leaves};

mod places;
mod whole;

pub use frame::{Heading, Number, Total};
use places::Against;
use refusal::Refusal;

// Room for one packet: the pair and total that it is held for, bit k for each number k held (the top bit is 0), and the bytes.
#[derive(Clone, Copy)]
pub struct Holding {
    // a flag and no Option: a place that is made free keeps its bytes and marks (`release_gives`)
    pub held: bool,
    pub level: u8,
    pub version: u8,
    pub total: Total,
    pub marks: u64,
    pub bytes: [u8; 252],
}

// The packets being collected.
#[derive(Clone, Copy)]
pub struct Holdings {
    pub places: [Holding; 4],
}

// What an accepted frame makes of its pair: but for `Same` the frame is kept.
#[derive(Clone, Copy, Debug, PartialEq, Eq)]
pub enum Kept {
    // Some number of it is still missing.
    Missing,
    // The packet is whole.
    Whole,
    // The very same frame was held.
    Same,
    // It was contradicted, and is begun again with this frame.
    BegunAgain,
    // Every number is held, and the packet does not pass.
    Spoiled,
}

impl Kept {
    // The number that the papers list.
    pub fn number(self) -> u8
        ensures { result ≡ kept_number self }
    {
        match self {
            Kept::Missing => 0,
            Kept::Whole => 1,
            Kept::Same => 2,
            Kept::BegunAgain => 3,
            Kept::Spoiled => 17,
        }
    }
}

// What an offer gives back: what the frame's pair is, and the holdings then.
#[derive(Clone, Copy)]
pub struct Offered {
    pub kept: Kept,
    pub collector: Holdings,
}

// A place as people read it, with 63 marks: the definitions speak of it, and a holding is seen as one. No function takes it.
#[derive(Clone, Copy)]
pub struct Place {
    // likewise
    pub held: bool,
    pub level: u8,
    pub version: u8,
    pub total: Total,
    pub marks: [bool; 63],
    pub bytes: [u8; 252],
}

// Four of them.
#[derive(Clone, Copy)]
pub struct Collector {
    pub places: [Place; 4],
}

// What an accepted frame says: its heading, and four bytes of packet.
#[derive(Clone, Copy)]
pub struct Piece {
    pub heading: Heading,
    pub a: u8,
    pub b: u8,
    pub c: u8,
    pub d: u8,
}

// A collector that holds nothing.
pub fn empty() -> Holdings
    ensures { result ≡ no_holdings }
{
    Holdings {
        places: [places::never_taken(); 4],
    }
}

// None of these places is held for the pair of `p`.
fn alone(p: Holding, others: &[Holding]) -> bool
    ensures { result ≡ all (λ q. pairs_apart (as_place p) (as_place q)) others.now }
{
    others.iter().all(|q| !places::same_pair(p, *q))
}

// No place, free or held, has the top bit of its marks set.
fn tops_clear(c: Holdings) -> bool
    ensures { result ≡ tops_clear c }
{
    c.places.iter().all(|p| places::is_clear(*p))
}

// Whether the record is one that offers and releases can leave.
fn is_good(c: Holdings) -> bool
    ensures { result ≡ (tops_clear c && good (as_collector c).places) }
{
    if !tops_clear(c) {
        return false;
    }
    for (i, p) in c.places.iter().enumerate() {
        if !places::is_fair(*p) || !alone(*p, &c.places[i + 1..]) {
            return false;
        }
    }
    true
}

// Where the pair is held, if it is.
fn index_of(c: Holdings, level: u8, version: u8) -> Option<usize>
    ensures { let at = index_of_pair level version (as_collector c).places in MatchOption result (at ≡ 4) (λ i. (i ≡ at) × (i < 4)) }
{
    c.places
        .iter()
        .position(|p| places::is_pair(*p, level, version))
}

// The first free place, if there is one.
fn first_free(c: Holdings) -> Option<usize>
    ensures { let at = index_of_free (as_collector c).places in MatchOption result (at ≡ 4) (λ i. (i ≡ at) × (i < 4)) }
{
    c.places.iter().position(|p| !p.held)
}

// The collector with another place at `i`, as it was where it has none.
fn put_place(c: Holdings, i: usize, p: Holding) -> Holdings
    requires { (top_clear p ≡ true) × (tops_clear c ≡ true) }
    ensures result_value { as_collector result ≡ put (as_collector c) i (as_place p) }
    ensures top { tops_clear result ≡ true }
{
    if i < 4 {
        let mut d = c;
        d.places[i] = p;
        return d;
    }
    c
}

// The collector with the piece kept in place `i`, which was `p`.
fn keep_in(c: Holdings, i: usize, p: Holding, x: Piece) -> Offered
    requires { (Small x) × (top_clear p ≡ true) × (tops_clear c ≡ true) }
    ensures result_value { as_offered (left_by result) ≡ kept (as_collector c) i (as_place p) x }
    ensures top { tops_clear result.collector ≡ true }
{
    let q = places::store(p, x);
    Offered {
        kept: places::state_of(q),
        collector: put_place(c, i, q),
    }
}

// The collector with place `i`, which was `p`, cleared and taken afresh, and the piece kept in it.
fn begin_again(c: Holdings, i: usize, p: Holding, x: Piece) -> Offered
    requires { (Small x) × (tops_clear c ≡ true) }
    ensures result_value { as_offered (left_by result) ≡ begun (as_collector c) i x }
    ensures top { tops_clear result.collector ≡ true }
{
    let mut o = keep_in(c, i, places::take(p, x), x);
    if o.kept == Kept::Missing {
        o.kept = Kept::BegunAgain;
    }
    o
}

// The collector with the piece of a pair that no place is held for in the first free place: 16 where there is none.
fn take_new(c: Holdings, x: Piece) -> Result<Offered, Refusal>
    requires { (Small x) × (tops_clear c ≡ true) × (index_of_pair x.heading.level x.heading.version (as_collector c).places ≡ 4) }
    ensures result_value { as_offered (offer_told c result) ≡ taken_in (as_collector c) x }
    ensures top { tops_clear (offer_told c result).collector ≡ true }
{
    match first_free(c) {
        Some(j) => Ok(keep_in(c, j, places::take(c.places[j], x), x)),
        None => Err(Refusal::Place),
    }
}

fn take_in(c: Holdings, x: Piece) -> Result<Offered, Refusal>
    requires { (Small x) × (tops_clear c ≡ true) }
    ensures result_value { as_offered (offer_told c result) ≡ taken_in (as_collector c) x }
    ensures top { tops_clear (offer_told c result).collector ≡ true }
{
    let Some(i) = index_of(c, x.heading.level, x.heading.version) else {
        return take_new(c, x);
    };
    let p = c.places[i];
    match places::held_against(p, x)? {
        Against::Nothing => Ok(keep_in(c, i, p, x)),
        Against::Contradicted => Ok(begin_again(c, i, p, x)),
        Against::Same => Ok(Offered {
            kept: Kept::Same,
            collector: c,
        }),
    }
}

// Takes a frame in: refused with 28, 26, 12, 13, 14, 15 or 16, where what was held stands.
pub fn offer(collector: Holdings, frame: &[u8]) -> Result<Offered, Refusal>
    ensures { offer_told collector result ≡ offer_gives collector frame.now }
{
    if !is_good(collector) {
        return Err(Refusal::State);
    }
    let heading = frame::heading_of(frame)?;
    take_in(collector, piece_of(heading, frame))
}

fn piece_of(heading: Heading, frame: &[u8]) -> Piece
    requires { length frame.now ≡ 8 }
    ensures { result ≡ piece_with heading frame.now }
{
    Piece {
        heading,
        a: frame[4],
        b: frame[5],
        c: frame[6],
        d: frame[7],
    }
}

// The holdings with the pair's place free, bytes and marks as they were: 28, 18 where it can't be; what was held stands then.
pub fn release(collector: Holdings, level: u8, version: u8) -> Result<Holdings, Refusal>
    ensures { release_told collector result ≡ release_gives collector level version }
{
    if !is_good(collector) {
        return Err(Refusal::State);
    }
    match index_of(collector, level, version) {
        Some(i) => {
            let freed = places::make_free(collector.places[i]);
            Ok(put_place(collector, i, freed))
        }
        None => Err(Refusal::Unheld),
    }
}

// Copies the pair's packet to the start of `out`, and gives the packet's size: 28, 18, 10 where it can't.
pub fn copy(collector: Holdings, level: u8, version: u8, out: &mut [u8]) -> Result<usize, Refusal>
    ensures value { copy_told result ≡ copy_gives collector level version (length out.old) }
    ensures bytes { out.new ≡ copy_leaves collector level version out.old }
{
    if !is_good(collector) {
        return Err(Refusal::State);
    }
    match index_of(collector, level, version) {
        Some(i) => places::copy_out(collector.places[i], out),
        None => Err(Refusal::Unheld),
    }
}
