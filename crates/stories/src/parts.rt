// What a packet is to a board: by the head of its body and its message number.
ghost use Rattle.std.specs.Prelude.{◌≡◌, ◌+◌, ◌-◌, ◌≤◌, get_or};
ghost use Rattle.story.specs.Joining.{digits_of};
ghost use Rattle.story.specs.Telling.{last_four};
ghost use Rattle.stories.specs.Parts.{in_reach, first_number, part_of};
ghost use Rattle.stories.specs.Steps.{head_in};

use crate::Part;

// The digit that a byte is; 0 where it is none.
fn digit(t: &[u8], i: usize) -> u8
    ensures { result ≡ get_or t.now i 0 - 48 }
{
    octets::byte(t, i).saturating_sub(48)
}

// Whether the body begins with the head of part k of n, one of one to nine.
#[tactic(auto, unfolding(crate::specs::Steps::head_in))]
fn right_head(t: &[u8], k: u8, n: u8) -> bool
    ensures { result ≡ head_in t.now k n }
{
    (1..=n).contains(&k) && n <= 9 && t.starts_with(&[48 + k, 47, 48 + n, 32])
}

// Whether the numbers of the parts before and behind have four digits too.
#[tactic(auto, unfolding(crate::specs::Parts::in_reach))]
fn in_reach(d: [u8; 35], k: u8, n: u8) -> bool
    requires { (k ≤ n) × (n ≤ 9) }
    ensures { result ≡ in_reach d k n }
{
    let x = story::last_four(&d) as usize;
    usize::from(k) <= x + 1 && x + usize::from(n - k) <= 9999
}

// The message number of part 1, where d is that of part k.
#[tactic(auto, unfolding(crate::specs::Parts::first_number))]
fn first_number(d: [u8; 35], k: u8) -> [u8; 35]
    requires { k ≤ last_four d + 1 }
    ensures { result ≡ first_number d k }
{
    story::with_last_four(d, story::last_four(&d) as usize + 1 - usize::from(k))
}

// The digits beside its content; zeros where it is refused.
fn digits_of(packet: &[u8]) -> [u8; 35]
    ensures { result ≡ digits_of packet.now }
{
    match reader::read(packet) {
        Ok(opened) => opened.fields.digits,
        Err(_) => [0; 35],
    }
}

// What a packet is a part of; a text by itself is all of its own.
pub(crate) fn part_of(packet: &[u8]) -> Part
    ensures { result ≡ part_of packet.now }
{
    let t = reader::body(packet);
    let d = digits_of(packet);
    let k = digit(t, 0);
    let n = digit(t, 2);
    if right_head(t, k, n) && in_reach(d, k, n) {
        Part {
            belongs: true,
            number: first_number(d, k),
            total: n,
            place: k - 1,
        }
    } else {
        Part {
            belongs: false,
            number: d,
            total: 1,
            place: 0,
        }
    }
}
