// A text longer than a packet: what is told, and what telling gives back. The functions are in `tell` and `join`.
#![tactic(auto)]

ghost use Rattle.std.specs.Prelude.{◌≡◌, ◌++◌, take};
ghost use Rattle.story.specs.Telling.{last_four, four_of};

// What every part of a story has: kind of text, number of the first part, count of codes, time, certificate, signature.
#[derive(Clone, Copy)]
pub struct Story {
    pub kind: u8,
    pub digits: [u8; 35],
    pub codes: usize,
    pub time: u32,
    pub certificate: [u8; 12],
    pub signature: [u8; 64],
}

// How many parts were told, and how many bytes in all.
#[derive(Clone, Copy)]
pub struct Told {
    pub parts: usize,
    pub length: usize,
}

// The last four digits of a message number, as a number.
pub fn last_four(digits: &[u8]) -> u32
    ensures { result ≡ last_four digits.now }
{
    let a = octets::byte(digits, 31);
    let b = octets::byte(digits, 32);
    let c = octets::byte(digits, 33);
    let d = octets::byte(digits, 34);
    a as u32 * 1000 + b as u32 * 100 + c as u32 * 10 + d as u32
}

// The message number with other last four digits.
pub fn with_last_four(digits: [u8; 35], x: usize) -> [u8; 35]
    ensures { result ≡ take 31 digits ++ four_of x }
{
    let mut d = digits;
    d[31] = (x / 1000 % 10) as u8;
    d[32] = (x / 100 % 10) as u8;
    d[33] = (x / 10 % 10) as u8;
    d[34] = (x % 10) as u8;
    d
}
