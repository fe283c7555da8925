// The shelf of what was received: records of 256 bytes, a summary of them by type, and a record's line of text.
#![tactic(auto)]

mod summary;

ghost use Rattle.std.specs.Prelude.{◌≡◌, [], ◌∷◌, ◌++◌, ◌+◌, ◌-◌, ◌≤◌, length, replicate, eqb};
ghost use Rattle.std.proofs.lemmas.List.Edits.{sets};
ghost use Rattle.laws.specs.Scan.{all};
ghost use Rattle.frame.specs.Heading.{reserved};
ghost use Rattle.shelf.specs.Record.{size_in, right};
ghost use Rattle.shelf.specs.Shelf.{whole, all_right, shelf_answer, add_answer, added, summary_answer, summarized, make_answer, made, told, lined, line_output};
ghost use Rattle.refusal.specs.Refusal.{answer_of};

use refusal::Refusal;

// Whether every byte is this one.
fn all_are(b: &[u8], value: u8) -> bool
    ensures { result ≡ all (eqb value) b.now }
{
    // no stop at the first other byte: so many are compared at once
    let mut good = true;
    for x in b {
        good &= value == *x;
    }
    good
}

#[tactic(auto, unfolding(frame::specs::Heading::reserved))]
fn is_reserved(level: u8) -> bool
    ensures { result ≡ reserved level }
{
    !(1..=6).contains(&level)
}

// How many bytes a record says its packet has.
fn size_in(given: &[u8]) -> usize
    ensures { result ≡ size_in given.now }
{
    octets::byte(given, 2) as usize * 256 + octets::byte(given, 3) as usize
}

// Whether a record keeps the rules.
#[tactic(auto, unfolding(crate::specs::Record::right))]
fn is_right(given: &[u8]) -> bool
    ensures { result ≡ right given.now }
{
    let size = size_in(given);
    !is_reserved(octets::byte(given, 0))
        && octets::byte(given, 1) <= 31
        && (2..=250).contains(&size)
        && size == size::packet_size(octets::part(given, 4, size))
        && all_are(octets::part(given, 4 + size, 250 - size), 0xFF)
        && all_are(octets::part(given, 254, 2), 0)
}

// Whether there are whole records, and 4,096 of them at most.
#[tactic(auto, unfolding(crate::specs::Shelf::whole))]
fn is_whole(shelf: &[u8]) -> bool
    ensures { result ≡ whole shelf.now }
{
    shelf.len() % 256 == 0 && shelf.len() / 256 <= 4096
}

// Whether each record keeps the rules.
fn are_right(shelf: &[u8]) -> bool
    ensures { result ≡ all_right shelf.now }
{
    shelf.chunks_exact(256).all(is_right)
}

// Whether a shelf may be used: 34 or 35 where it may not.
pub fn judge(shelf: &[u8]) -> Result<(), Refusal>
    ensures { answer_of result ≡ shelf_answer shelf.now }
{
    if !is_whole(shelf) {
        return Err(Refusal::Shelf);
    }
    if !are_right(shelf) {
        return Err(Refusal::Record);
    }
    Ok(())
}

// Rewrites in the summary the entry of the record's type, for a record behind the shelf's last: 34, 35 or 36 where it is refused.
pub fn add(shelf: &[u8], given: &[u8], summary: &mut [u8]) -> Result<(), Refusal>
    ensures answer { answer_of result ≡ add_answer shelf.now given.now summary.old }
    ensures output { summary.new ≡ added shelf.now given.now summary.old }
{
    if !is_whole(shelf) || given.len() != 256 || summary.len() != 256 {
        return Err(Refusal::Shelf);
    }
    if !are_right(shelf) || !is_right(given) {
        return Err(Refusal::Record);
    }
    let number = shelf.len() / 256;
    if number == 4096 {
        return Err(Refusal::FullShelf);
    }
    summary::note(summary, summary::type_in(given), number as u32);
    Ok(())
}

// Writes the summary of a shelf: 34 or 35 where it is refused.
pub fn summarize(shelf: &[u8], summary: &mut [u8]) -> Result<(), Refusal>
    ensures answer { answer_of result ≡ summary_answer shelf.now summary.old }
    ensures output { summary.new ≡ summarized shelf.now summary.old }
{
    if !is_whole(shelf) || summary.len() != 256 {
        return Err(Refusal::Shelf);
    }
    if !are_right(shelf) {
        return Err(Refusal::Record);
    }
    summary::clear(summary);
    summary::count(shelf, summary);
    Ok(())
}

// Writes 0xFF from a byte up to the last but two, and zeros there.
fn put_end(out: &mut [u8], from: usize)
    requires { (length out.old ≡ 256) × (from ≤ 254) }
    ensures { out.new ≡ sets out.old from (replicate (254 - from) 0xFF ++ (0 ∷ 0 ∷ [])) }
{
    out[from..254].fill(0xFF);
    out[254..].fill(0);
}

// Writes a packet from the fifth byte on.
fn put_packet(out: &mut [u8], packet: &[u8])
    requires { 4 + length packet.now ≤ length out.old }
    ensures { out.new ≡ sets out.old 4 packet.now }
{
    out[4..4 + packet.len()].copy_from_slice(packet);
}

// Writes the record of a whole packet: the on-air writer's 20, 13 and 27, then 34 where it is refused.
pub fn make(level: u8, version: u8, packet: &[u8], out: &mut [u8]) -> Result<(), Refusal>
    ensures answer { answer_of result ≡ make_answer level version packet.now out.old }
    ensures output { out.new ≡ made level version packet.now out.old }
{
    if !air::right_size(packet) {
        return Err(Refusal::PacketSize);
    }
    if is_reserved(level) {
        return Err(Refusal::Level);
    }
    if version > 31 {
        return Err(Refusal::Range);
    }
    if out.len() != 256 {
        return Err(Refusal::Shelf);
    }
    let size = packet.len();
    out[0] = level;
    out[1] = version;
    out[2] = 0;
    out[3] = size as u8;
    put_packet(out, packet);
    put_end(out, 4 + size);
    Ok(())
}

// Writes a record's line: 34, 35 or, where the output is shorter than the line, 10 where it is refused.
pub fn line(given: &[u8], out: &mut [u8]) -> Result<usize, Refusal>
    ensures answer { told result ≡ lined given.now out.old }
    ensures output { out.new ≡ line_output given.now out.old }
{
    if given.len() != 256 {
        return Err(Refusal::Shelf);
    }
    if !is_right(given) {
        return Err(Refusal::Record);
    }
    let n = print::record_line(
        octets::byte(given, 0),
        octets::byte(given, 1),
        octets::part(given, 4, size_in(given)),
        out,
    );
    if n == 0 {
        return Err(Refusal::Room);
    }
    Ok(n)
}
