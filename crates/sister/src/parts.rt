// The parts of a command: its kind and count, where its codes stand, and what is read of it.
ghost use Rattle.std.specs.Prelude.{◌≡◌, ◌*◌, ◌<◌, ◌≤◌};
ghost use Rattle.laws.specs.Bits.{at, bits};
ghost use Rattle.packet.specs.Reading.{padded};
ghost use Rattle.sister.specs.Table.{tag_of};
ghost use Rattle.sister.specs.Reading.{kind_in, count_of, command_in, codes_in};
ghost use Rattle.sister.specs.Layout.{layout_of, clock_at};

use crate::{Command, Kind};

// The bytes of a content and of its address, the bit at which its codes begin, and how many they are.
#[derive(Clone, Copy)]
pub(crate) struct Layout {
    pub(crate) bytes: usize,
    pub(crate) address: usize,
    pub(crate) place: usize,
    pub(crate) codes: usize,
}

// A byte as the number of its bits, and the number of two bytes.
fn octet(b: &[u8], i: usize) -> u8
    ensures { result ≡ at (bits b.now) (8 * i) 8 }
{
    octets::byte(b, i)
}

pub(crate) fn medium(b: &[u8], p: usize) -> u16
    requires { p < 65536 }
    ensures { result ≡ at (bits b.now) p 16 }
{
    format::field(b, p, 16) as u16
}

pub(crate) fn kind(b: &[u8]) -> Kind
    ensures { result ≡ kind_in b.now }
{
    match octet(b, 0) {
        1 => Kind::Clock,
        2 => Kind::Resource,
        3 => Kind::Lock,
        _ => Kind::Unknown,
    }
}

pub(crate) fn tag_of(f: Kind) -> u8
    ensures { result ≡ tag_of f }
{
    match f {
        Kind::Clock => 1,
        Kind::Resource => 2,
        Kind::Lock => 3,
        Kind::Unknown => 0,
    }
}

// n, where there is one.
pub(crate) fn count(b: &[u8]) -> usize
    ensures { (result ≡ count_of b.now) × (result ≤ 255) }
{
    match kind(b) {
        Kind::Resource => usize::from(octet(b, 3)),
        Kind::Lock => usize::from(octet(b, 7)),
        Kind::Clock | Kind::Unknown => 0,
    }
}

pub(crate) fn laid(f: Kind, k: usize) -> Layout
    requires { k ≤ 255 }
    ensures { result ≡ layout_of f k }
{
    match f {
        Kind::Clock => Layout {
            bytes: 7,
            address: 0,
            place: 80,
            codes: 0,
        },
        Kind::Resource => Layout {
            bytes: 13 + k,
            address: k,
            place: 32 + 8 * k,
            codes: 1,
        },
        Kind::Lock => Layout {
            bytes: 5 + 12 * k,
            address: 0,
            place: 64,
            codes: k,
        },
        Kind::Unknown => Layout {
            bytes: 0,
            address: 0,
            place: 24,
            codes: 0,
        },
    }
}

pub(crate) fn laid_in(b: &[u8]) -> Layout
    ensures { result ≡ layout_of (kind_in b.now) (count_of b.now) }
{
    laid(kind(b), count(b))
}

// The command, whatever its numbers are.
pub(crate) fn command(b: &[u8]) -> Command
    ensures { result ≡ command_in b.now }
{
    match kind(b) {
        Kind::Clock => clock(b),
        Kind::Resource => Command::Resource { length: count(b) },
        Kind::Lock => Command::Lock {
            khz: format::field(b, 24, 32),
            count: count(b),
        },
        Kind::Unknown => Command::Unknown,
    }
}

#[tactic(auto, unfolding(crate::specs::Layout::clock_at))]
fn clock(b: &[u8]) -> Command
    ensures { result ≡ clock_at b.now }
{
    Command::Clock {
        year: medium(b, 24),
        month: octet(b, 5),
        day: octet(b, 6),
        hour: octet(b, 7),
        minute: octet(b, 8),
        second: octet(b, 9),
    }
}

// The digits of its codes.
pub(crate) fn codes(b: &[u8]) -> [u8; 5865]
    ensures { result ≡ padded 5865 (codes_in b.now) }
{
    let l = laid_in(b);
    let mut out = [0u8; 5865];
    for j in 0..l.codes {
        format::fields(b, l.place + 96 * j + 4, 23, 4, &mut out, 23 * j);
    }
    out
}
